// The calls that params are read as.
ghost use Rattle.std.specs.Prelude.{◌≡◌, IfOk, IfErr, option_map};
ghost use Rattle.serde_json.specs.View.{view};
ghost use Rattle.lsp_session.specs.Semantics.{call as call_read};
ghost use Rattle.lsp_service.specs.Reads.{reading, Refuses};
ghost use Rattle.lsp_service.specs.Calls.{show_call, show_life, show_sync, show_goto, show_hierarchy, show_show, show_token, show_edit, show_work};

use crate::call::{
    Call, EditCall, GotoCall, HierarchyCall, LifeCall, ShowCall, SyncCall, TokenCall, WorkCall,
};
use crate::params::{initialize_call, no_params, params_of};
use lsp_methods::{
    EditMethod, GotoMethod, HierarchyMethod, LifeMethod, Method, ShowMethod, SyncMethod,
    TokenMethod, WorkMethod,
};
use lsp_session::CallMisfit;
use serde_json::Value;
use std::alloc::Global;

fn read_life(
    alloc: Global,
    method: LifeMethod,
    params: Option<&Value>,
) -> Result<LifeCall, CallMisfit>
    ensures ok { IfOk result (λ c. reading (Method.Life method)
        (option_map (λ v. view v.now) params.entry) ≡ call_read (show_life c)) }
    ensures err { IfErr result (λ e. Refuses (Method.Life method)
        (option_map (λ v. view v.now) params.entry) e) }
{
    match method {
        LifeMethod::Initialize => match initialize_call(alloc, params) {
            Ok(call) => Ok(LifeCall::Initialize(call)),
            Err(misfit) => Err(misfit),
        },
        LifeMethod::Initialized => match params_of(
            alloc,
            Method::Life(LifeMethod::Initialized),
            params,
        ) {
            Ok(params) => Ok(LifeCall::Initialized(params)),
            Err(misfit) => Err(misfit),
        },
        LifeMethod::Shutdown => match no_params(Method::Life(LifeMethod::Shutdown), params) {
            Ok(()) => Ok(LifeCall::Shutdown),
            Err(misfit) => Err(misfit),
        },
    }
}

fn read_sync(
    alloc: Global,
    method: SyncMethod,
    params: Option<&Value>,
) -> Result<SyncCall, CallMisfit>
    ensures ok { IfOk result (λ c. reading (Method.Sync method)
        (option_map (λ v. view v.now) params.entry) ≡ call_read (show_sync c)) }
    ensures err { IfErr result (λ e. Refuses (Method.Sync method)
        (option_map (λ v. view v.now) params.entry) e) }
{
    match method {
        SyncMethod::DidOpen => match params_of(alloc, Method::Sync(SyncMethod::DidOpen), params) {
            Ok(params) => Ok(SyncCall::DidOpen(params)),
            Err(misfit) => Err(misfit),
        },
        SyncMethod::DidChange => match params_of(
            alloc,
            Method::Sync(SyncMethod::DidChange),
            params,
        ) {
            Ok(params) => Ok(SyncCall::DidChange(params)),
            Err(misfit) => Err(misfit),
        },
        SyncMethod::WillSave => match params_of(alloc, Method::Sync(SyncMethod::WillSave), params) {
            Ok(params) => Ok(SyncCall::WillSave(params)),
            Err(misfit) => Err(misfit),
        },
        SyncMethod::WillSaveWaitUntil => match params_of(
            alloc,
            Method::Sync(SyncMethod::WillSaveWaitUntil),
            params,
        ) {
            Ok(params) => Ok(SyncCall::WillSaveWaitUntil(params)),
            Err(misfit) => Err(misfit),
        },
        SyncMethod::DidSave => match params_of(alloc, Method::Sync(SyncMethod::DidSave), params) {
            Ok(params) => Ok(SyncCall::DidSave(params)),
            Err(misfit) => Err(misfit),
        },
        SyncMethod::DidClose => match params_of(alloc, Method::Sync(SyncMethod::DidClose), params) {
            Ok(params) => Ok(SyncCall::DidClose(params)),
            Err(misfit) => Err(misfit),
        },
    }
}

fn read_goto(
    alloc: Global,
    method: GotoMethod,
    params: Option<&Value>,
) -> Result<GotoCall, CallMisfit>
    ensures ok { IfOk result (λ c. reading (Method.Goto method)
        (option_map (λ v. view v.now) params.entry) ≡ call_read (show_goto c)) }
    ensures err { IfErr result (λ e. Refuses (Method.Goto method)
        (option_map (λ v. view v.now) params.entry) e) }
{
    match method {
        GotoMethod::GotoDeclaration => match params_of(
            alloc,
            Method::Goto(GotoMethod::GotoDeclaration),
            params,
        ) {
            Ok(params) => Ok(GotoCall::GotoDeclaration(params)),
            Err(misfit) => Err(misfit),
        },
        GotoMethod::GotoDefinition => match params_of(
            alloc,
            Method::Goto(GotoMethod::GotoDefinition),
            params,
        ) {
            Ok(params) => Ok(GotoCall::GotoDefinition(params)),
            Err(misfit) => Err(misfit),
        },
        GotoMethod::GotoTypeDefinition => match params_of(
            alloc,
            Method::Goto(GotoMethod::GotoTypeDefinition),
            params,
        ) {
            Ok(params) => Ok(GotoCall::GotoTypeDefinition(params)),
            Err(misfit) => Err(misfit),
        },
        GotoMethod::GotoImplementation => match params_of(
            alloc,
            Method::Goto(GotoMethod::GotoImplementation),
            params,
        ) {
            Ok(params) => Ok(GotoCall::GotoImplementation(params)),
            Err(misfit) => Err(misfit),
        },
        GotoMethod::References => match params_of(
            alloc,
            Method::Goto(GotoMethod::References),
            params,
        ) {
            Ok(params) => Ok(GotoCall::References(params)),
            Err(misfit) => Err(misfit),
        },
        GotoMethod::DocumentHighlight => match params_of(
            alloc,
            Method::Goto(GotoMethod::DocumentHighlight),
            params,
        ) {
            Ok(params) => Ok(GotoCall::DocumentHighlight(params)),
            Err(misfit) => Err(misfit),
        },
    }
}

fn read_hierarchy(
    alloc: Global,
    method: HierarchyMethod,
    params: Option<&Value>,
) -> Result<HierarchyCall, CallMisfit>
    ensures ok { IfOk result (λ c. reading (Method.Hierarchy method)
        (option_map (λ v. view v.now) params.entry) ≡ call_read (show_hierarchy c)) }
    ensures err { IfErr result (λ e. Refuses (Method.Hierarchy method)
        (option_map (λ v. view v.now) params.entry) e) }
{
    match method {
        HierarchyMethod::PrepareCallHierarchy => match params_of(
            alloc,
            Method::Hierarchy(HierarchyMethod::PrepareCallHierarchy),
            params,
        ) {
            Ok(params) => Ok(HierarchyCall::PrepareCallHierarchy(params)),
            Err(misfit) => Err(misfit),
        },
        HierarchyMethod::IncomingCalls => match params_of(
            alloc,
            Method::Hierarchy(HierarchyMethod::IncomingCalls),
            params,
        ) {
            Ok(params) => Ok(HierarchyCall::IncomingCalls(params)),
            Err(misfit) => Err(misfit),
        },
        HierarchyMethod::OutgoingCalls => match params_of(
            alloc,
            Method::Hierarchy(HierarchyMethod::OutgoingCalls),
            params,
        ) {
            Ok(params) => Ok(HierarchyCall::OutgoingCalls(params)),
            Err(misfit) => Err(misfit),
        },
        HierarchyMethod::PrepareTypeHierarchy => match params_of(
            alloc,
            Method::Hierarchy(HierarchyMethod::PrepareTypeHierarchy),
            params,
        ) {
            Ok(params) => Ok(HierarchyCall::PrepareTypeHierarchy(params)),
            Err(misfit) => Err(misfit),
        },
        HierarchyMethod::Supertypes => match params_of(
            alloc,
            Method::Hierarchy(HierarchyMethod::Supertypes),
            params,
        ) {
            Ok(params) => Ok(HierarchyCall::Supertypes(params)),
            Err(misfit) => Err(misfit),
        },
        HierarchyMethod::Subtypes => match params_of(
            alloc,
            Method::Hierarchy(HierarchyMethod::Subtypes),
            params,
        ) {
            Ok(params) => Ok(HierarchyCall::Subtypes(params)),
            Err(misfit) => Err(misfit),
        },
    }
}

fn read_show(
    alloc: Global,
    method: ShowMethod,
    params: Option<&Value>,
) -> Result<ShowCall, CallMisfit>
    ensures ok { IfOk result (λ c. reading (Method.Show method)
        (option_map (λ v. view v.now) params.entry) ≡ call_read (show_show c)) }
    ensures err { IfErr result (λ e. Refuses (Method.Show method)
        (option_map (λ v. view v.now) params.entry) e) }
{
    match method {
        ShowMethod::DocumentLink => match params_of(
            alloc,
            Method::Show(ShowMethod::DocumentLink),
            params,
        ) {
            Ok(params) => Ok(ShowCall::DocumentLink(params)),
            Err(misfit) => Err(misfit),
        },
        ShowMethod::DocumentLinkResolve => match params_of(
            alloc,
            Method::Show(ShowMethod::DocumentLinkResolve),
            params,
        ) {
            Ok(params) => Ok(ShowCall::DocumentLinkResolve(params)),
            Err(misfit) => Err(misfit),
        },
        ShowMethod::Hover => match params_of(alloc, Method::Show(ShowMethod::Hover), params) {
            Ok(params) => Ok(ShowCall::Hover(params)),
            Err(misfit) => Err(misfit),
        },
        ShowMethod::CodeLens => match params_of(alloc, Method::Show(ShowMethod::CodeLens), params) {
            Ok(params) => Ok(ShowCall::CodeLens(params)),
            Err(misfit) => Err(misfit),
        },
        ShowMethod::CodeLensResolve => match params_of(
            alloc,
            Method::Show(ShowMethod::CodeLensResolve),
            params,
        ) {
            Ok(params) => Ok(ShowCall::CodeLensResolve(params)),
            Err(misfit) => Err(misfit),
        },
        ShowMethod::FoldingRange => match params_of(
            alloc,
            Method::Show(ShowMethod::FoldingRange),
            params,
        ) {
            Ok(params) => Ok(ShowCall::FoldingRange(params)),
            Err(misfit) => Err(misfit),
        },
        ShowMethod::SelectionRange => match params_of(
            alloc,
            Method::Show(ShowMethod::SelectionRange),
            params,
        ) {
            Ok(params) => Ok(ShowCall::SelectionRange(params)),
            Err(misfit) => Err(misfit),
        },
        ShowMethod::DocumentSymbol => match params_of(
            alloc,
            Method::Show(ShowMethod::DocumentSymbol),
            params,
        ) {
            Ok(params) => Ok(ShowCall::DocumentSymbol(params)),
            Err(misfit) => Err(misfit),
        },
        ShowMethod::Moniker => match params_of(alloc, Method::Show(ShowMethod::Moniker), params) {
            Ok(params) => Ok(ShowCall::Moniker(params)),
            Err(misfit) => Err(misfit),
        },
    }
}

fn read_token(
    alloc: Global,
    method: TokenMethod,
    params: Option<&Value>,
) -> Result<TokenCall, CallMisfit>
    ensures ok { IfOk result (λ c. reading (Method.Token method)
        (option_map (λ v. view v.now) params.entry) ≡ call_read (show_token c)) }
    ensures err { IfErr result (λ e. Refuses (Method.Token method)
        (option_map (λ v. view v.now) params.entry) e) }
{
    match method {
        TokenMethod::SemanticTokensFull => match params_of(
            alloc,
            Method::Token(TokenMethod::SemanticTokensFull),
            params,
        ) {
            Ok(params) => Ok(TokenCall::SemanticTokensFull(params)),
            Err(misfit) => Err(misfit),
        },
        TokenMethod::SemanticTokensFullDelta => match params_of(
            alloc,
            Method::Token(TokenMethod::SemanticTokensFullDelta),
            params,
        ) {
            Ok(params) => Ok(TokenCall::SemanticTokensFullDelta(params)),
            Err(misfit) => Err(misfit),
        },
        TokenMethod::SemanticTokensRange => match params_of(
            alloc,
            Method::Token(TokenMethod::SemanticTokensRange),
            params,
        ) {
            Ok(params) => Ok(TokenCall::SemanticTokensRange(params)),
            Err(misfit) => Err(misfit),
        },
        TokenMethod::InlineValue => match params_of(
            alloc,
            Method::Token(TokenMethod::InlineValue),
            params,
        ) {
            Ok(params) => Ok(TokenCall::InlineValue(params)),
            Err(misfit) => Err(misfit),
        },
        TokenMethod::InlayHint => match params_of(
            alloc,
            Method::Token(TokenMethod::InlayHint),
            params,
        ) {
            Ok(params) => Ok(TokenCall::InlayHint(params)),
            Err(misfit) => Err(misfit),
        },
        TokenMethod::InlayHintResolve => match params_of(
            alloc,
            Method::Token(TokenMethod::InlayHintResolve),
            params,
        ) {
            Ok(params) => Ok(TokenCall::InlayHintResolve(params)),
            Err(misfit) => Err(misfit),
        },
    }
}

fn read_edit(
    alloc: Global,
    method: EditMethod,
    params: Option<&Value>,
) -> Result<EditCall, CallMisfit>
    ensures ok { IfOk result (λ c. reading (Method.Edit method)
        (option_map (λ v. view v.now) params.entry) ≡ call_read (show_edit c)) }
    ensures err { IfErr result (λ e. Refuses (Method.Edit method)
        (option_map (λ v. view v.now) params.entry) e) }
{
    match method {
        EditMethod::Completion => match params_of(
            alloc,
            Method::Edit(EditMethod::Completion),
            params,
        ) {
            Ok(params) => Ok(EditCall::Completion(params)),
            Err(misfit) => Err(misfit),
        },
        EditMethod::CompletionResolve => match params_of(
            alloc,
            Method::Edit(EditMethod::CompletionResolve),
            params,
        ) {
            Ok(params) => Ok(EditCall::CompletionResolve(params)),
            Err(misfit) => Err(misfit),
        },
        EditMethod::SignatureHelp => match params_of(
            alloc,
            Method::Edit(EditMethod::SignatureHelp),
            params,
        ) {
            Ok(params) => Ok(EditCall::SignatureHelp(params)),
            Err(misfit) => Err(misfit),
        },
        EditMethod::CodeAction => match params_of(
            alloc,
            Method::Edit(EditMethod::CodeAction),
            params,
        ) {
            Ok(params) => Ok(EditCall::CodeAction(params)),
            Err(misfit) => Err(misfit),
        },
        EditMethod::CodeActionResolve => match params_of(
            alloc,
            Method::Edit(EditMethod::CodeActionResolve),
            params,
        ) {
            Ok(params) => Ok(EditCall::CodeActionResolve(params)),
            Err(misfit) => Err(misfit),
        },
        EditMethod::Formatting => match params_of(
            alloc,
            Method::Edit(EditMethod::Formatting),
            params,
        ) {
            Ok(params) => Ok(EditCall::Formatting(params)),
            Err(misfit) => Err(misfit),
        },
        EditMethod::RangeFormatting => match params_of(
            alloc,
            Method::Edit(EditMethod::RangeFormatting),
            params,
        ) {
            Ok(params) => Ok(EditCall::RangeFormatting(params)),
            Err(misfit) => Err(misfit),
        },
        EditMethod::OnTypeFormatting => match params_of(
            alloc,
            Method::Edit(EditMethod::OnTypeFormatting),
            params,
        ) {
            Ok(params) => Ok(EditCall::OnTypeFormatting(params)),
            Err(misfit) => Err(misfit),
        },
        EditMethod::Rename => match params_of(alloc, Method::Edit(EditMethod::Rename), params) {
            Ok(params) => Ok(EditCall::Rename(params)),
            Err(misfit) => Err(misfit),
        },
        EditMethod::PrepareRename => match params_of(
            alloc,
            Method::Edit(EditMethod::PrepareRename),
            params,
        ) {
            Ok(params) => Ok(EditCall::PrepareRename(params)),
            Err(misfit) => Err(misfit),
        },
        EditMethod::LinkedEditingRange => match params_of(
            alloc,
            Method::Edit(EditMethod::LinkedEditingRange),
            params,
        ) {
            Ok(params) => Ok(EditCall::LinkedEditingRange(params)),
            Err(misfit) => Err(misfit),
        },
        EditMethod::Diagnostic => match params_of(
            alloc,
            Method::Edit(EditMethod::Diagnostic),
            params,
        ) {
            Ok(params) => Ok(EditCall::Diagnostic(params)),
            Err(misfit) => Err(misfit),
        },
    }
}

fn read_work(
    alloc: Global,
    method: WorkMethod,
    params: Option<&Value>,
) -> Result<WorkCall, CallMisfit>
    ensures ok { IfOk result (λ c. reading (Method.Work method)
        (option_map (λ v. view v.now) params.entry) ≡ call_read (show_work c)) }
    ensures err { IfErr result (λ e. Refuses (Method.Work method)
        (option_map (λ v. view v.now) params.entry) e) }
{
    match method {
        WorkMethod::WorkspaceDiagnostic => match params_of(
            alloc,
            Method::Work(WorkMethod::WorkspaceDiagnostic),
            params,
        ) {
            Ok(params) => Ok(WorkCall::WorkspaceDiagnostic(params)),
            Err(misfit) => Err(misfit),
        },
        WorkMethod::Symbol => match params_of(alloc, Method::Work(WorkMethod::Symbol), params) {
            Ok(params) => Ok(WorkCall::Symbol(params)),
            Err(misfit) => Err(misfit),
        },
        WorkMethod::SymbolResolve => match params_of(
            alloc,
            Method::Work(WorkMethod::SymbolResolve),
            params,
        ) {
            Ok(params) => Ok(WorkCall::SymbolResolve(params)),
            Err(misfit) => Err(misfit),
        },
        WorkMethod::DidChangeConfiguration => match params_of(
            alloc,
            Method::Work(WorkMethod::DidChangeConfiguration),
            params,
        ) {
            Ok(params) => Ok(WorkCall::DidChangeConfiguration(params)),
            Err(misfit) => Err(misfit),
        },
        WorkMethod::DidChangeWorkspaceFolders => match params_of(
            alloc,
            Method::Work(WorkMethod::DidChangeWorkspaceFolders),
            params,
        ) {
            Ok(params) => Ok(WorkCall::DidChangeWorkspaceFolders(params)),
            Err(misfit) => Err(misfit),
        },
        WorkMethod::WillCreateFiles => match params_of(
            alloc,
            Method::Work(WorkMethod::WillCreateFiles),
            params,
        ) {
            Ok(params) => Ok(WorkCall::WillCreateFiles(params)),
            Err(misfit) => Err(misfit),
        },
        WorkMethod::DidCreateFiles => match params_of(
            alloc,
            Method::Work(WorkMethod::DidCreateFiles),
            params,
        ) {
            Ok(params) => Ok(WorkCall::DidCreateFiles(params)),
            Err(misfit) => Err(misfit),
        },
        WorkMethod::WillRenameFiles => match params_of(
            alloc,
            Method::Work(WorkMethod::WillRenameFiles),
            params,
        ) {
            Ok(params) => Ok(WorkCall::WillRenameFiles(params)),
            Err(misfit) => Err(misfit),
        },
        WorkMethod::DidRenameFiles => match params_of(
            alloc,
            Method::Work(WorkMethod::DidRenameFiles),
            params,
        ) {
            Ok(params) => Ok(WorkCall::DidRenameFiles(params)),
            Err(misfit) => Err(misfit),
        },
        WorkMethod::WillDeleteFiles => match params_of(
            alloc,
            Method::Work(WorkMethod::WillDeleteFiles),
            params,
        ) {
            Ok(params) => Ok(WorkCall::WillDeleteFiles(params)),
            Err(misfit) => Err(misfit),
        },
        WorkMethod::DidDeleteFiles => match params_of(
            alloc,
            Method::Work(WorkMethod::DidDeleteFiles),
            params,
        ) {
            Ok(params) => Ok(WorkCall::DidDeleteFiles(params)),
            Err(misfit) => Err(misfit),
        },
        WorkMethod::DidChangeWatchedFiles => match params_of(
            alloc,
            Method::Work(WorkMethod::DidChangeWatchedFiles),
            params,
        ) {
            Ok(params) => Ok(WorkCall::DidChangeWatchedFiles(params)),
            Err(misfit) => Err(misfit),
        },
        WorkMethod::ExecuteCommand => match params_of(
            alloc,
            Method::Work(WorkMethod::ExecuteCommand),
            params,
        ) {
            Ok(params) => Ok(WorkCall::ExecuteCommand(params)),
            Err(misfit) => Err(misfit),
        },
    }
}

/// The call of a method that the params are.
pub(crate) fn read_call(
    alloc: Global,
    method: Method,
    params: Option<&Value>,
) -> Result<Call, CallMisfit>
    ensures ok { IfOk result (λ c. reading method (option_map (λ v. view v.now) params.entry)
        ≡ call_read (show_call c)) }
    ensures err { IfErr result (λ e. Refuses method
        (option_map (λ v. view v.now) params.entry) e) }
{
    match method {
        Method::Life(method) => match read_life(alloc, method, params) {
            Ok(call) => Ok(Call::Life(call)),
            Err(misfit) => Err(misfit),
        },
        Method::Sync(method) => match read_sync(alloc, method, params) {
            Ok(call) => Ok(Call::Sync(call)),
            Err(misfit) => Err(misfit),
        },
        Method::Goto(method) => match read_goto(alloc, method, params) {
            Ok(call) => Ok(Call::Goto(call)),
            Err(misfit) => Err(misfit),
        },
        Method::Hierarchy(method) => match read_hierarchy(alloc, method, params) {
            Ok(call) => Ok(Call::Hierarchy(call)),
            Err(misfit) => Err(misfit),
        },
        Method::Show(method) => match read_show(alloc, method, params) {
            Ok(call) => Ok(Call::Show(call)),
            Err(misfit) => Err(misfit),
        },
        Method::Token(method) => match read_token(alloc, method, params) {
            Ok(call) => Ok(Call::Token(call)),
            Err(misfit) => Err(misfit),
        },
        Method::Edit(method) => match read_edit(alloc, method, params) {
            Ok(call) => Ok(Call::Edit(call)),
            Err(misfit) => Err(misfit),
        },
        Method::Work(method) => match read_work(alloc, method, params) {
            Ok(call) => Ok(Call::Work(call)),
            Err(misfit) => Err(misfit),
        },
    }
}
