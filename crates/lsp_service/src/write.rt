// What a reply comes to.
ghost use Rattle.std.specs.Prelude.{◌≡◌, false, IfOk, IsOk};
ghost use Rattle.lsp_rpc.specs.Message.{may_have_float};
ghost use Rattle.lsp_rpc.specs.Shown.{show_body, show_error};
ghost use Rattle.lsp_service.specs.Data.{kind_of, outcome_by};
ghost use Rattle.lsp_service.specs.Replies.{show_reply, show_life_reply, show_sync_reply, show_goto_reply, show_hierarchy_reply, show_show_reply, show_token_reply, show_edit_reply, show_work_reply};

use crate::answer::{answered, custom_answered, initialize_answered, noted, unless_float};
use crate::call::Target;
use crate::reply::{
    EditReply, GotoReply, HierarchyReply, LifeReply, Reply, ShowReply, SyncReply, TokenReply,
    WorkReply,
};
use lsp_methods::{
    EditMethod, GotoMethod, HierarchyMethod, LifeMethod, Method, ShowMethod, SyncMethod,
    TokenMethod, WorkMethod,
};
use lsp_rpc::{Error, NoMemory};
use lsp_session::Kind;
use serde_json::Value;
use std::alloc::Global;

fn write_life(
    alloc: Global,
    target: Target,
    reply: LifeReply,
) -> Result<Result<Value, Error>, NoMemory>
    ensures { IfOk result (λ body. show_body body
        ≡ outcome_by target (show_life_reply reply)) }
{
    match reply {
        LifeReply::Initialize(body) => initialize_answered(alloc, target, body),
        LifeReply::Shutdown(body) => answered(
            alloc,
            target,
            Method::Life(LifeMethod::Shutdown),
            body,
        ),
    }
}

fn write_sync(
    alloc: Global,
    target: Target,
    reply: SyncReply,
) -> Result<Result<Value, Error>, NoMemory>
    ensures { IfOk result (λ body. show_body body
        ≡ outcome_by target (show_sync_reply reply)) }
{
    match reply {
        SyncReply::WillSaveWaitUntil(body) => answered(
            alloc,
            target,
            Method::Sync(SyncMethod::WillSaveWaitUntil),
            body,
        ),
    }
}

fn write_goto(
    alloc: Global,
    target: Target,
    reply: GotoReply,
) -> Result<Result<Value, Error>, NoMemory>
    ensures { IfOk result (λ body. show_body body
        ≡ outcome_by target (show_goto_reply reply)) }
{
    match reply {
        GotoReply::GotoDeclaration(body) => answered(
            alloc,
            target,
            Method::Goto(GotoMethod::GotoDeclaration),
            body,
        ),
        GotoReply::GotoDefinition(body) => answered(
            alloc,
            target,
            Method::Goto(GotoMethod::GotoDefinition),
            body,
        ),
        GotoReply::GotoTypeDefinition(body) => answered(
            alloc,
            target,
            Method::Goto(GotoMethod::GotoTypeDefinition),
            body,
        ),
        GotoReply::GotoImplementation(body) => answered(
            alloc,
            target,
            Method::Goto(GotoMethod::GotoImplementation),
            body,
        ),
        GotoReply::References(body) => answered(
            alloc,
            target,
            Method::Goto(GotoMethod::References),
            body,
        ),
        GotoReply::DocumentHighlight(body) => answered(
            alloc,
            target,
            Method::Goto(GotoMethod::DocumentHighlight),
            body,
        ),
    }
}

fn write_hierarchy(
    alloc: Global,
    target: Target,
    reply: HierarchyReply,
) -> Result<Result<Value, Error>, NoMemory>
    ensures { IfOk result (λ body. show_body body
        ≡ outcome_by target (show_hierarchy_reply reply)) }
{
    match reply {
        HierarchyReply::PrepareCallHierarchy(body) => answered(
            alloc,
            target,
            Method::Hierarchy(HierarchyMethod::PrepareCallHierarchy),
            body,
        ),
        HierarchyReply::IncomingCalls(body) => answered(
            alloc,
            target,
            Method::Hierarchy(HierarchyMethod::IncomingCalls),
            body,
        ),
        HierarchyReply::OutgoingCalls(body) => answered(
            alloc,
            target,
            Method::Hierarchy(HierarchyMethod::OutgoingCalls),
            body,
        ),
        HierarchyReply::PrepareTypeHierarchy(body) => answered(
            alloc,
            target,
            Method::Hierarchy(HierarchyMethod::PrepareTypeHierarchy),
            body,
        ),
        HierarchyReply::Supertypes(body) => answered(
            alloc,
            target,
            Method::Hierarchy(HierarchyMethod::Supertypes),
            body,
        ),
        HierarchyReply::Subtypes(body) => answered(
            alloc,
            target,
            Method::Hierarchy(HierarchyMethod::Subtypes),
            body,
        ),
    }
}

fn write_show(
    alloc: Global,
    target: Target,
    reply: ShowReply,
) -> Result<Result<Value, Error>, NoMemory>
    ensures { IfOk result (λ body. show_body body
        ≡ outcome_by target (show_show_reply reply)) }
{
    match reply {
        ShowReply::DocumentLink(body) => answered(
            alloc,
            target,
            Method::Show(ShowMethod::DocumentLink),
            body,
        ),
        ShowReply::DocumentLinkResolve(body) => answered(
            alloc,
            target,
            Method::Show(ShowMethod::DocumentLinkResolve),
            body,
        ),
        ShowReply::Hover(body) => answered(alloc, target, Method::Show(ShowMethod::Hover), body),
        ShowReply::CodeLens(body) => answered(
            alloc,
            target,
            Method::Show(ShowMethod::CodeLens),
            body,
        ),
        ShowReply::CodeLensResolve(body) => answered(
            alloc,
            target,
            Method::Show(ShowMethod::CodeLensResolve),
            body,
        ),
        ShowReply::FoldingRange(body) => answered(
            alloc,
            target,
            Method::Show(ShowMethod::FoldingRange),
            body,
        ),
        ShowReply::SelectionRange(body) => answered(
            alloc,
            target,
            Method::Show(ShowMethod::SelectionRange),
            body,
        ),
        ShowReply::DocumentSymbol(body) => answered(
            alloc,
            target,
            Method::Show(ShowMethod::DocumentSymbol),
            body,
        ),
        ShowReply::Moniker(body) => answered(
            alloc,
            target,
            Method::Show(ShowMethod::Moniker),
            body,
        ),
    }
}

fn write_token(
    alloc: Global,
    target: Target,
    reply: TokenReply,
) -> Result<Result<Value, Error>, NoMemory>
    ensures { IfOk result (λ body. show_body body
        ≡ outcome_by target (show_token_reply reply)) }
{
    match reply {
        TokenReply::SemanticTokensFull(body) => answered(
            alloc,
            target,
            Method::Token(TokenMethod::SemanticTokensFull),
            body,
        ),
        TokenReply::SemanticTokensFullDelta(body) => answered(
            alloc,
            target,
            Method::Token(TokenMethod::SemanticTokensFullDelta),
            body,
        ),
        TokenReply::SemanticTokensRange(body) => answered(
            alloc,
            target,
            Method::Token(TokenMethod::SemanticTokensRange),
            body,
        ),
        TokenReply::InlineValue(body) => answered(
            alloc,
            target,
            Method::Token(TokenMethod::InlineValue),
            body,
        ),
        TokenReply::InlayHint(body) => answered(
            alloc,
            target,
            Method::Token(TokenMethod::InlayHint),
            body,
        ),
        TokenReply::InlayHintResolve(body) => answered(
            alloc,
            target,
            Method::Token(TokenMethod::InlayHintResolve),
            body,
        ),
    }
}

fn write_edit(
    alloc: Global,
    target: Target,
    reply: EditReply,
) -> Result<Result<Value, Error>, NoMemory>
    ensures { IfOk result (λ body. show_body body
        ≡ outcome_by target (show_edit_reply reply)) }
{
    match reply {
        EditReply::Completion(body) => answered(
            alloc,
            target,
            Method::Edit(EditMethod::Completion),
            body,
        ),
        EditReply::CompletionResolve(body) => answered(
            alloc,
            target,
            Method::Edit(EditMethod::CompletionResolve),
            body,
        ),
        EditReply::SignatureHelp(body) => answered(
            alloc,
            target,
            Method::Edit(EditMethod::SignatureHelp),
            body,
        ),
        EditReply::CodeAction(body) => answered(
            alloc,
            target,
            Method::Edit(EditMethod::CodeAction),
            body,
        ),
        EditReply::CodeActionResolve(body) => answered(
            alloc,
            target,
            Method::Edit(EditMethod::CodeActionResolve),
            body,
        ),
        EditReply::Formatting(body) => answered(
            alloc,
            target,
            Method::Edit(EditMethod::Formatting),
            body,
        ),
        EditReply::RangeFormatting(body) => answered(
            alloc,
            target,
            Method::Edit(EditMethod::RangeFormatting),
            body,
        ),
        EditReply::OnTypeFormatting(body) => answered(
            alloc,
            target,
            Method::Edit(EditMethod::OnTypeFormatting),
            body,
        ),
        EditReply::Rename(body) => answered(alloc, target, Method::Edit(EditMethod::Rename), body),
        EditReply::PrepareRename(body) => answered(
            alloc,
            target,
            Method::Edit(EditMethod::PrepareRename),
            body,
        ),
        EditReply::LinkedEditingRange(body) => answered(
            alloc,
            target,
            Method::Edit(EditMethod::LinkedEditingRange),
            body,
        ),
        EditReply::Diagnostic(body) => answered(
            alloc,
            target,
            Method::Edit(EditMethod::Diagnostic),
            body,
        ),
    }
}

fn write_work(
    alloc: Global,
    target: Target,
    reply: WorkReply,
) -> Result<Result<Value, Error>, NoMemory>
    ensures { IfOk result (λ body. show_body body
        ≡ outcome_by target (show_work_reply reply)) }
{
    match reply {
        WorkReply::WorkspaceDiagnostic(body) => answered(
            alloc,
            target,
            Method::Work(WorkMethod::WorkspaceDiagnostic),
            body,
        ),
        WorkReply::Symbol(body) => answered(alloc, target, Method::Work(WorkMethod::Symbol), body),
        WorkReply::SymbolResolve(body) => answered(
            alloc,
            target,
            Method::Work(WorkMethod::SymbolResolve),
            body,
        ),
        WorkReply::WillCreateFiles(body) => answered(
            alloc,
            target,
            Method::Work(WorkMethod::WillCreateFiles),
            body,
        ),
        WorkReply::WillRenameFiles(body) => answered(
            alloc,
            target,
            Method::Work(WorkMethod::WillRenameFiles),
            body,
        ),
        WorkReply::WillDeleteFiles(body) => answered(
            alloc,
            target,
            Method::Work(WorkMethod::WillDeleteFiles),
            body,
        ),
        WorkReply::ExecuteCommand(body) => answered(
            alloc,
            target,
            Method::Work(WorkMethod::ExecuteCommand),
            body,
        ),
    }
}

/// What a reply comes to, where this was called.
pub(crate) fn outcome(
    alloc: Global,
    target: Target,
    reply: Reply,
) -> Result<Result<Value, Error>, NoMemory>
    ensures written { IfOk result (λ body. show_body body
        ≡ outcome_by target (show_reply reply)) }
    ensures notification { reply ≡ Reply.Noted → kind_of target ≡ Kind.Notification
        → IsOk result }
    ensures refusal { (e : Error) → reply ≡ Reply.Error e
        → may_have_float (show_error e).payload ≡ false → IsOk result }
{
    match reply {
        Reply::Life(reply) => write_life(alloc, target, reply),
        Reply::Sync(reply) => write_sync(alloc, target, reply),
        Reply::Goto(reply) => write_goto(alloc, target, reply),
        Reply::Hierarchy(reply) => write_hierarchy(alloc, target, reply),
        Reply::Show(reply) => write_show(alloc, target, reply),
        Reply::Token(reply) => write_token(alloc, target, reply),
        Reply::Edit(reply) => write_edit(alloc, target, reply),
        Reply::Work(reply) => write_work(alloc, target, reply),
        Reply::Custom(body) => custom_answered(alloc, target, body),
        Reply::Error(error) => unless_float(alloc, Err(error)),
        Reply::Noted => noted(alloc, target),
    }
}
