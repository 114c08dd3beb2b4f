// Code actions.
ghost use Rattle.std.specs.Prelude.{◌≡◌, None, [], string_bytes};
ghost use Rattle.lsp_lang_item.specs.CodeAction.{code_action_params_row, code_action_context_row, code_action_or_command_row, code_action_row, code_action_disabled_row};
ghost use Rattle.lsp_lang_item.specs.declared.code_action.CodeActionOrCommand.TheVariants as code_action_or_command;

use lsp_base::{
    Command, Diagnostic, PartialResultParams, Range, TextDocumentIdentifier,
    WorkDoneProgressParams, WorkspaceEdit,
};
use lsp_kinds::CodeActionTriggerKind;
use lsp_names::CodeActionKind;
use lsp_shape::{
    Copies, Flat, Misfit, NoMemory, Optional, Required, Wire, Writer, attempt, flat, form,
    read_object,
};
use serde_json::Value;
use std::alloc::{AllocError, Global};

/// Parameters of `textDocument/codeAction`: the code for which quick fixes, refactorings and the
/// like are wanted (LSP 3.17, "Code Action Request").
#[derive(Debug, PartialEq, Clone, Drop)]
pub struct CodeActionParams {
    /// The document that contains the code.
    pub text_document: TextDocumentIdentifier,
    /// The code to find actions for, usually the selection of the user.
    pub range: Range,
    /// The diagnostics in the range, and the kinds of actions that are wanted.
    pub context: CodeActionContext,
    /// The token for progress reports on this request, if the client sent one.
    pub work_done_progress_params: WorkDoneProgressParams,
    /// The token for sending the actions in `$/progress` notifications, with an empty response
    /// after them, if the client sent one.
    pub partial_result_params: PartialResultParams,
}

#[tactic(auto, unfolding(crate::specs::CodeAction::code_action_params_row, lsp_base::specs::Progress::work_done_progress_params_row, lsp_base::specs::Progress::partial_result_params_row))]
impl Wire for CodeActionParams {
    ghost shape = { code_action_params_row.shape };

    ghost shown = { code_action_params_row.shown };

    fn from_value(alloc: Global, value: &Value) -> Result<CodeActionParams, Misfit> {
        let (text_document, range, context, work_done_progress_params, partial_result_params) =
            read_object(
                alloc,
                value,
                (
                    Required("textDocument"),
                    Required("range"),
                    Required("context"),
                    Flat,
                    Flat,
                ),
            )?;
        Ok(CodeActionParams {
            text_document,
            range,
            context,
            work_done_progress_params,
            partial_result_params,
        })
    }

    fn to_value(&self, alloc: Global) -> Result<Value, NoMemory> {
        let mut object = Writer::new(alloc);
        object.field("textDocument", &self.text_document);
        object.field("range", &self.range);
        object.field("context", &self.context);
        object.flat(&self.work_done_progress_params);
        object.flat(&self.partial_result_params);
        object.end()
    }
}

/// What a client adds to the range in `textDocument/codeAction`: diagnostics, and which actions it
/// wants (LSP 3.17, "Code Action Request").
#[derive(Debug, PartialEq, Clone, Drop)]
pub struct CodeActionContext {
    /// The diagnostics that the client shows in the range. They may be outdated, so a server should
    /// rather rely on the range.
    pub diagnostics: Vec<Diagnostic>,
    /// The kinds of actions that the client wants; it discards others. A kind includes those below
    /// it, as `refactor` includes `refactor.extract`. Absent: all kinds.
    pub only: Option<Vec<CodeActionKind>>,
    /// Whether the user asked for actions or the client did so by itself, since 3.17.
    pub trigger_kind: Option<CodeActionTriggerKind>,
}

impl CodeActionContext {
    /// No diagnostics, no restriction to kinds and no trigger.
    pub fn default(alloc: Global) -> CodeActionContext
        ensures diagnostics { result.diagnostics.items ≡ [] }
        ensures only { result.only ≡ None }
        ensures trigger_kind { result.trigger_kind ≡ None }
    {
        CodeActionContext {
            diagnostics: Vec::new(alloc),
            only: None,
            trigger_kind: None,
        }
    }
}

#[tactic(auto, unfolding(crate::specs::CodeAction::code_action_context_row))]
impl Wire for CodeActionContext {
    ghost shape = { code_action_context_row.shape };

    ghost shown = { code_action_context_row.shown };

    fn from_value(alloc: Global, value: &Value) -> Result<CodeActionContext, Misfit> {
        let (diagnostics, only, trigger_kind) = read_object(
            alloc,
            value,
            (
                Required("diagnostics"),
                Optional("only"),
                Optional("triggerKind"),
            ),
        )?;
        Ok(CodeActionContext {
            diagnostics,
            only,
            trigger_kind,
        })
    }

    fn to_value(&self, alloc: Global) -> Result<Value, NoMemory> {
        let mut object = Writer::new(alloc);
        object.field("diagnostics", &self.diagnostics);
        object.optional("only", &self.only);
        object.optional("triggerKind", &self.trigger_kind);
        object.end()
    }
}

/// Result of `textDocument/codeAction`: the actions among which the user can choose. If there are
/// none, the result may be null instead (LSP 3.17, "Code Action Request").
pub type CodeActionResponse = Vec<CodeActionOrCommand>;

/// An entry of the result of `textDocument/codeAction` (LSP 3.17, "Code Action Request").
#[derive(Debug, Clone, Drop)]
pub enum CodeActionOrCommand {
    /// A command that the client runs when the user picks it. The only form for clients without
    /// `textDocument.codeAction.codeActionLiteralSupport`.
    Command(Command),
    /// An action with an edit, a command or both. Only for clients with
    /// `textDocument.codeAction.codeActionLiteralSupport`, since 3.8.
    CodeAction(CodeAction),
}

#[tactic(auto, unfolding(crate::specs::CodeAction::code_action_or_command_row))]
impl Wire for CodeActionOrCommand {
    ghost shape = { code_action_or_command_row.shape };

    ghost shown = { code_action_or_command_row.shown };

    fn from_value(alloc: Global, value: &Value) -> Result<CodeActionOrCommand, Misfit> {
        if let Some(command) = attempt(alloc, value)? {
            return Ok(CodeActionOrCommand::Command(command));
        }
        Ok(CodeActionOrCommand::CodeAction(form(alloc, value)?))
    }

    fn to_value(&self, alloc: Global) -> Result<Value, NoMemory> {
        match self {
            CodeActionOrCommand::Command(command) => command.to_value(alloc),
            CodeActionOrCommand::CodeAction(action) => action.to_value(alloc),
        }
    }
}

impl From<Command> for CodeActionOrCommand {
    ghost from_gives = { λ given made. made ≡ code_action_or_command.Command given };

    fn from(command: Command) -> CodeActionOrCommand {
        CodeActionOrCommand::Command(command)
    }
}

impl From<CodeAction> for CodeActionOrCommand {
    ghost from_gives = { λ given made. made ≡ code_action_or_command.CodeAction given };

    fn from(action: CodeAction) -> CodeActionOrCommand {
        CodeActionOrCommand::CodeAction(action)
    }
}

/// An action that the user can choose, such as a quick fix: an entry of the result of
/// `textDocument/codeAction`, since 3.8. The client may ask for a missing edit by
/// `codeAction/resolve`, since 3.16 (LSP 3.17, "Code Action Request").
#[derive(Debug, Drop)]
pub struct CodeAction {
    /// The short text by which the user recognizes the action.
    pub title: String,
    /// What sort of action it is, such as `CodeActionKind::QUICKFIX()`. Clients filter and group
    /// actions by it.
    pub kind: Option<CodeActionKind>,
    /// The diagnostics that taking the action should remove.
    pub diagnostics: Option<Vec<Diagnostic>>,
    /// The changes that the action makes. They are applied before `command` runs.
    pub edit: Option<WorkspaceEdit>,
    /// A command that the client runs when the action is taken, after `edit` if that is present.
    pub command: Option<Command>,
    /// Whether this is the best action of its kind here, which a client may apply by a shortcut;
    /// since 3.15.
    pub is_preferred: Option<bool>,
    /// If present, the action can't be taken at the moment, for the reason given. Only for clients
    /// with `textDocument.codeAction.disabledSupport`, since 3.16.
    pub disabled: Option<CodeActionDisabled>,
    /// Any value, sent as the member `data`. A client with `textDocument.codeAction.dataSupport`
    /// returns it unchanged in `codeAction/resolve`; since 3.16.
    pub payload: Option<Value>,
}

impl Clone for CodeAction {
    ghost is_clone = { λ x y. ⟦<String as Clone>⟧.is_clone x.title y.title
        × ⟦<Option<CodeActionKind> as Clone>⟧.is_clone x.kind y.kind
        × ⟦<Option<Vec<Diagnostic>> as Clone>⟧.is_clone x.diagnostics y.diagnostics
        × ⟦<Option<WorkspaceEdit> as Clone>⟧.is_clone x.edit y.edit
        × ⟦<Option<Command> as Clone>⟧.is_clone x.command y.command
        × ⟦<Option<bool> as Clone>⟧.is_clone x.is_preferred y.is_preferred
        × ⟦<Option<CodeActionDisabled> as Clone>⟧.is_clone x.disabled y.disabled
        × ⟦<Option<Value> as Clone>⟧.is_clone x.payload y.payload };

    fn clone(&self) -> Result<CodeAction, AllocError> {
        let mut copies = Copies::new();
        let copy = CodeAction {
            title: self.title.clone()?,
            kind: copies.optional(&self.kind),
            diagnostics: copies.optional(&self.diagnostics),
            edit: copies.optional(&self.edit),
            command: copies.optional(&self.command),
            is_preferred: copies.optional(&self.is_preferred),
            disabled: copies.optional(&self.disabled),
            payload: copies.optional(&self.payload),
        };
        copies.end(copy)
    }
}

impl CodeAction {
    /// An action with an empty title, and nothing else.
    pub fn default(alloc: Global) -> CodeAction
        ensures title { string_bytes result.title ≡ [] }
        ensures kind { result.kind ≡ None }
        ensures diagnostics { result.diagnostics ≡ None }
        ensures edit { result.edit ≡ None }
        ensures command { result.command ≡ None }
        ensures is_preferred { result.is_preferred ≡ None }
        ensures disabled { result.disabled ≡ None }
        ensures payload { result.payload ≡ None }
    {
        CodeAction {
            title: String::new(alloc),
            kind: None,
            diagnostics: None,
            edit: None,
            command: None,
            is_preferred: None,
            disabled: None,
            payload: None,
        }
    }
}

#[tactic(auto, unfolding(crate::specs::CodeAction::code_action_row))]
impl Wire for CodeAction {
    ghost shape = { code_action_row.shape };

    ghost shown = { code_action_row.shown };

    fn from_value(alloc: Global, value: &Value) -> Result<CodeAction, Misfit> {
        let ((title, kind, diagnostics, edit), (command, is_preferred, disabled, payload)) =
            read_object(
                alloc,
                value,
                (
                    (
                        Required("title"),
                        Optional("kind"),
                        Optional("diagnostics"),
                        Optional("edit"),
                    ),
                    (
                        Optional("command"),
                        Optional("isPreferred"),
                        Optional("disabled"),
                        Optional("data"),
                    ),
                ),
            )?;
        Ok(CodeAction {
            title,
            kind,
            diagnostics,
            edit,
            command,
            is_preferred,
            disabled,
            payload,
        })
    }

    fn to_value(&self, alloc: Global) -> Result<Value, NoMemory> {
        let mut object = Writer::new(alloc);
        object.field("title", &self.title);
        object.optional("kind", &self.kind);
        object.optional("diagnostics", &self.diagnostics);
        object.optional("edit", &self.edit);
        object.optional("command", &self.command);
        object.optional("isPreferred", &self.is_preferred);
        object.optional("disabled", &self.disabled);
        object.optional("data", &self.payload);
        object.end()
    }
}

/// Marks a code action that can't be taken at the moment, since 3.16 (LSP 3.17, "Code Action
/// Request").
#[derive(Debug, PartialEq, Eq, Clone, Drop)]
pub struct CodeActionDisabled {
    /// A text for the user that says why the action isn't available.
    pub reason: String,
}

impl CodeActionDisabled {
    /// An empty reason.
    pub fn default(alloc: Global) -> CodeActionDisabled
        ensures reason { string_bytes result.reason ≡ [] }
    {
        CodeActionDisabled {
            reason: String::new(alloc),
        }
    }
}

#[tactic(auto, unfolding(crate::specs::CodeAction::code_action_disabled_row))]
impl Wire for CodeActionDisabled {
    ghost shape = { code_action_disabled_row.shape };

    ghost shown = { code_action_disabled_row.shown };

    fn from_value(alloc: Global, value: &Value) -> Result<CodeActionDisabled, Misfit> {
        let reason = read_object(alloc, value, Required("reason"))?;
        Ok(CodeActionDisabled { reason })
    }

    fn to_value(&self, alloc: Global) -> Result<Value, NoMemory> {
        let mut object = Writer::new(alloc);
        object.field("reason", &self.reason);
        object.end()
    }
}
