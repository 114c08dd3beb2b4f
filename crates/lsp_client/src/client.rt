// What a server asks of its client.
ghost use Rattle.std.specs.Prelude.{◌≡◌, false, true, Err, IfOk, IfErr, OnErr, ◌∷◌, [], codes};
ghost use Rattle.serde_json.specs.View.{view};
ghost use Rattle.lsp_rpc.specs.Message.{may_have_float};
ghost use Rattle.lsp_rpc.specs.Shown.{show_id, show_request};
ghost use Rattle.lsp_shape.specs.Write.{write};
ghost use Rattle.lsp_desk.specs.Call.{Ask, Tell, Raw, Poll, NextId};
ghost use Rattle.lsp_desk.specs.Reply.{reply_has_float};
ghost use Rattle.lsp_desk.specs.Meaning.{Adds, PollsOn};
ghost use Rattle.lsp_desk.specs.Shown.{show_client_reply};
ghost use Rattle.lsp_session.specs.Fails.{PollFails};
ghost use Rattle.lsp_session.specs.Run.{replied};
ghost use Rattle.lsp_ask.specs.Answers.{answered_has_float};
ghost use Rattle.lsp_ask.specs.Client.{Continues, IsPolled, IsAsked, IsDrawn, IsPollCut, IsTold, IsUnreplied, SendsNone};
ghost use Rattle.lsp_ask.specs.Shown.{show_answered, show_asked, ticket_number};
ghost use Rattle.lsp_client.specs.Methods.{register_capability_call, unregister_capability_call, show_message_call, log_message_call, show_message_request_call, show_document_call, telemetry_event_call, refresh_call, publish_diagnostics_call, configuration_call, workspace_folders_call, apply_edit_call};

use crate::desk::{notify, request, telemetry_params};
use lsp_ask::{Answered, Asked, Ticket, Told, next_id, poll, tell, text};
use lsp_base::{Diagnostic, WorkspaceEdit};
use lsp_desk::{Caller, ClientReply, DeskFault};
use lsp_kinds::MessageType;
use lsp_methods::notification::{
    LogMessage, Notification, PublishDiagnostics, ShowMessage, TelemetryEvent,
};
use lsp_methods::request::{
    ApplyWorkspaceEdit, CodeLensRefresh, InlayHintRefreshRequest, InlineValueRefreshRequest,
    RegisterCapability, Request, SemanticTokensRefresh, ShowDocument, ShowMessageRequest,
    UnregisterCapability, WorkspaceConfiguration, WorkspaceDiagnosticRefresh,
    WorkspaceFoldersRequest,
};
use lsp_offer_work::{Registration, RegistrationParams, Unregistration, UnregistrationParams};
use lsp_rpc::Id;
use lsp_shape::Wire;
use lsp_uri::Uri;
use lsp_work::{
    ApplyWorkspaceEditParams, ConfigurationItem, ConfigurationParams, LogMessageParams,
    MessageActionItem, PublishDiagnosticsParams, ShowDocumentParams, ShowMessageParams,
    ShowMessageRequestParams,
};
use serde_json::Value;
use std::alloc::Global;

/// What a server asks of its client and tells it, over a desk. What waits for `initialize` is
/// refused, or suppressed, until that was answered, and after `exit`; any other message is after
/// `exit`, and any that holds a float.
pub trait Client: Caller {
    /// Registers features with the client: `client/registerCapability`. It waits for `initialize`.
    #[tactic(auto, unfolding(lsp_offer_work::specs::Registration::registration_params_row))]
    final fn register_capability(
        &mut self,
        alloc: Global,
        registrations: Vec<Registration>,
    ) -> Result<Asked<RegisterCapability>, DeskFault>
        ensures asked { IfOk result (λ asked. PollsOn Self.meaning self.old self.new
            (IsAsked (register_capability_call registrations) (show_asked asked))) }
        ensures failed { IfErr result (λ fault. PollFails Self.meaning self.old self.new fault) }
        ensures continues { Continues Self.meaning self.old self.new }
        ensures unsent { OnErr result (PollsOn Self.meaning self.old self.new
            (SendsNone (register_capability_call registrations))) }
    {
        let params = RegistrationParams { registrations };
        request::<Self, RegisterCapability>(alloc, self, &params, true)
    }

    /// Ends registrations: `client/unregisterCapability`. It waits for `initialize`.
    #[tactic(auto, unfolding(lsp_offer_work::specs::Registration::unregistration_params_row))]
    final fn unregister_capability(
        &mut self,
        alloc: Global,
        unregistrations: Vec<Unregistration>,
    ) -> Result<Asked<UnregisterCapability>, DeskFault>
        ensures asked { IfOk result (λ asked. PollsOn Self.meaning self.old self.new
            (IsAsked (unregister_capability_call unregistrations) (show_asked asked))) }
        ensures failed { IfErr result (λ fault. PollFails Self.meaning self.old self.new fault) }
        ensures continues { Continues Self.meaning self.old self.new }
        ensures unsent { OnErr result (PollsOn Self.meaning self.old self.new
            (SendsNone (unregister_capability_call unregistrations))) }
    {
        let params = UnregistrationParams {
            unregisterations: unregistrations,
        };
        request::<Self, UnregisterCapability>(alloc, self, &params, true)
    }

    /// Has a message shown to the user: `window/showMessage`.
    #[tactic(auto, unfolding(lsp_work::specs::Window::show_message_params_row))]
    final fn show_message(
        &mut self,
        alloc: Global,
        typ: MessageType,
        message: &str,
    ) -> Result<Told, DeskFault>
        ensures told { IfOk result (λ told. PollsOn Self.meaning self.old self.new
            (IsTold (show_message_call typ message.now) told)) }
        ensures failed { IfErr result (λ fault. PollFails Self.meaning self.old self.new fault) }
        ensures continues { Continues Self.meaning self.old self.new }
        ensures unsent { OnErr result (PollsOn Self.meaning self.old self.new
            (IsUnreplied (show_message_call typ message.now))) }
    {
        let message = text(alloc, message)?;
        let params = ShowMessageParams { typ, message };
        notify::<Self, ShowMessage>(alloc, self, &params, false)
    }

    /// Writes a line into the client's log: `window/logMessage`.
    #[tactic(auto, unfolding(lsp_work::specs::Window::log_message_params_row))]
    final fn log_message(
        &mut self,
        alloc: Global,
        typ: MessageType,
        message: &str,
    ) -> Result<Told, DeskFault>
        ensures told { IfOk result (λ told. PollsOn Self.meaning self.old self.new
            (IsTold (log_message_call typ message.now) told)) }
        ensures failed { IfErr result (λ fault. PollFails Self.meaning self.old self.new fault) }
        ensures continues { Continues Self.meaning self.old self.new }
        ensures unsent { OnErr result (PollsOn Self.meaning self.old self.new
            (IsUnreplied (log_message_call typ message.now))) }
    {
        let message = text(alloc, message)?;
        let params = LogMessageParams { typ, message };
        notify::<Self, LogMessage>(alloc, self, &params, false)
    }

    /// Has a message shown and an action chosen below it: `window/showMessageRequest`.
    #[tactic(auto, unfolding(lsp_work::specs::Window::show_message_request_params_row))]
    final fn show_message_request(
        &mut self,
        alloc: Global,
        typ: MessageType,
        message: &str,
        actions: Option<Vec<MessageActionItem>>,
    ) -> Result<Asked<ShowMessageRequest>, DeskFault>
        ensures asked { IfOk result (λ asked. PollsOn Self.meaning self.old self.new
            (IsAsked (show_message_request_call typ message.now actions) (show_asked asked))) }
        ensures failed { IfErr result (λ fault. PollFails Self.meaning self.old self.new fault) }
        ensures continues { Continues Self.meaning self.old self.new }
        ensures unsent { OnErr result (PollsOn Self.meaning self.old self.new
            (SendsNone (show_message_request_call typ message.now actions))) }
    {
        let params = ShowMessageRequestParams {
            typ,
            message: text(alloc, message)?,
            actions,
        };
        request::<Self, ShowMessageRequest>(alloc, self, &params, false)
    }

    /// Has a document or another resource shown: `window/showDocument`. It waits for `initialize`.
    final fn show_document(
        &mut self,
        alloc: Global,
        params: ShowDocumentParams,
    ) -> Result<Asked<ShowDocument>, DeskFault>
        ensures asked { IfOk result (λ asked. PollsOn Self.meaning self.old self.new
            (IsAsked (show_document_call params) (show_asked asked))) }
        ensures failed { IfErr result (λ fault. PollFails Self.meaning self.old self.new fault) }
        ensures continues { Continues Self.meaning self.old self.new }
        ensures unsent { OnErr result (PollsOn Self.meaning self.old self.new
            (SendsNone (show_document_call params))) }
    {
        request::<Self, ShowDocument>(alloc, self, &params, true)
    }

    /// Gives the client a value to log: `telemetry/event`. What is no null, no array and no object
    /// is sent as the one item of an array.
    final fn telemetry_event(&mut self, alloc: Global, event: Value) -> Result<Told, DeskFault>
        ensures told { IfOk result (λ told. PollsOn Self.meaning self.old self.new
            (IsTold (telemetry_event_call (view event)) told)) }
        ensures failed { IfErr result (λ fault. PollFails Self.meaning self.old self.new fault) }
        ensures continues { Continues Self.meaning self.old self.new }
        ensures unsent { OnErr result (PollsOn Self.meaning self.old self.new
            (IsUnreplied (telemetry_event_call (view event)))) }
    {
        let method = text(alloc, TelemetryEvent::method())?;
        let params = telemetry_params(alloc, event)?;
        tell(self, method, params, false)
    }

    /// Has the client ask for all code lenses again: `workspace/codeLens/refresh`. It waits
    /// for `initialize`.
    final fn code_lens_refresh(
        &mut self,
        alloc: Global,
    ) -> Result<Asked<CodeLensRefresh>, DeskFault>
        ensures asked { IfOk result (λ asked. PollsOn Self.meaning self.old self.new
            (IsAsked (refresh_call (codes "workspace/codeLens/refresh")) (show_asked asked))) }
        ensures failed { IfErr result (λ fault. PollFails Self.meaning self.old self.new fault) }
        ensures continues { Continues Self.meaning self.old self.new }
        ensures unsent { OnErr result (PollsOn Self.meaning self.old self.new
            (SendsNone (refresh_call (codes "workspace/codeLens/refresh")))) }
    {
        request::<Self, CodeLensRefresh>(alloc, self, &(), true)
    }

    /// Has the client ask for all semantic tokens again: `workspace/semanticTokens/refresh`. It
    /// waits for `initialize`.
    final fn semantic_tokens_refresh(
        &mut self,
        alloc: Global,
    ) -> Result<Asked<SemanticTokensRefresh>, DeskFault>
        ensures asked { IfOk result (λ asked. PollsOn Self.meaning self.old self.new
            (IsAsked (refresh_call (codes "workspace/semanticTokens/refresh"))
            (show_asked asked))) }
        ensures failed { IfErr result (λ fault. PollFails Self.meaning self.old self.new fault) }
        ensures continues { Continues Self.meaning self.old self.new }
        ensures unsent { OnErr result (PollsOn Self.meaning self.old self.new
            (SendsNone (refresh_call (codes "workspace/semanticTokens/refresh")))) }
    {
        request::<Self, SemanticTokensRefresh>(alloc, self, &(), true)
    }

    /// Has the client ask for all inline values again: `workspace/inlineValue/refresh`. It waits
    /// for `initialize`.
    final fn inline_value_refresh(
        &mut self,
        alloc: Global,
    ) -> Result<Asked<InlineValueRefreshRequest>, DeskFault>
        ensures asked { IfOk result (λ asked. PollsOn Self.meaning self.old self.new
            (IsAsked (refresh_call (codes "workspace/inlineValue/refresh")) (show_asked asked))) }
        ensures failed { IfErr result (λ fault. PollFails Self.meaning self.old self.new fault) }
        ensures continues { Continues Self.meaning self.old self.new }
        ensures unsent { OnErr result (PollsOn Self.meaning self.old self.new
            (SendsNone (refresh_call (codes "workspace/inlineValue/refresh")))) }
    {
        request::<Self, InlineValueRefreshRequest>(alloc, self, &(), true)
    }

    /// Has the client ask for all inlay hints again: `workspace/inlayHint/refresh`. It waits
    /// for `initialize`.
    final fn inlay_hint_refresh(
        &mut self,
        alloc: Global,
    ) -> Result<Asked<InlayHintRefreshRequest>, DeskFault>
        ensures asked { IfOk result (λ asked. PollsOn Self.meaning self.old self.new
            (IsAsked (refresh_call (codes "workspace/inlayHint/refresh")) (show_asked asked))) }
        ensures failed { IfErr result (λ fault. PollFails Self.meaning self.old self.new fault) }
        ensures continues { Continues Self.meaning self.old self.new }
        ensures unsent { OnErr result (PollsOn Self.meaning self.old self.new
            (SendsNone (refresh_call (codes "workspace/inlayHint/refresh")))) }
    {
        request::<Self, InlayHintRefreshRequest>(alloc, self, &(), true)
    }

    /// Has the client ask for all diagnostics again: `workspace/diagnostic/refresh`. It waits
    /// for `initialize`.
    final fn workspace_diagnostic_refresh(
        &mut self,
        alloc: Global,
    ) -> Result<Asked<WorkspaceDiagnosticRefresh>, DeskFault>
        ensures asked { IfOk result (λ asked. PollsOn Self.meaning self.old self.new
            (IsAsked (refresh_call (codes "workspace/diagnostic/refresh")) (show_asked asked))) }
        ensures failed { IfErr result (λ fault. PollFails Self.meaning self.old self.new fault) }
        ensures continues { Continues Self.meaning self.old self.new }
        ensures unsent { OnErr result (PollsOn Self.meaning self.old self.new
            (SendsNone (refresh_call (codes "workspace/diagnostic/refresh")))) }
    {
        request::<Self, WorkspaceDiagnosticRefresh>(alloc, self, &(), true)
    }

    /// Tells the diagnostics of a document: `textDocument/publishDiagnostics`. It waits for
    /// `initialize`.
    #[tactic(auto, unfolding(lsp_work::specs::Document::publish_diagnostics_params_row))]
    final fn publish_diagnostics(
        &mut self,
        alloc: Global,
        uri: Uri,
        diagnostics: Vec<Diagnostic>,
        version: Option<i32>,
    ) -> Result<Told, DeskFault>
        ensures told { IfOk result (λ told. PollsOn Self.meaning self.old self.new
            (IsTold (publish_diagnostics_call uri diagnostics version) told)) }
        ensures failed { IfErr result (λ fault. PollFails Self.meaning self.old self.new fault) }
        ensures continues { Continues Self.meaning self.old self.new }
        ensures unsent { OnErr result (PollsOn Self.meaning self.old self.new
            (IsUnreplied (publish_diagnostics_call uri diagnostics version))) }
    {
        let params = PublishDiagnosticsParams {
            uri,
            diagnostics,
            version,
        };
        notify::<Self, PublishDiagnostics>(alloc, self, &params, true)
    }

    /// Asks for settings of the client: `workspace/configuration`. It waits for `initialize`.
    #[tactic(auto, unfolding(lsp_work::specs::Workspace::configuration_params_row))]
    final fn configuration(
        &mut self,
        alloc: Global,
        items: Vec<ConfigurationItem>,
    ) -> Result<Asked<WorkspaceConfiguration>, DeskFault>
        ensures asked { IfOk result (λ asked. PollsOn Self.meaning self.old self.new
            (IsAsked (configuration_call items) (show_asked asked))) }
        ensures failed { IfErr result (λ fault. PollFails Self.meaning self.old self.new fault) }
        ensures continues { Continues Self.meaning self.old self.new }
        ensures unsent { OnErr result (PollsOn Self.meaning self.old self.new
            (SendsNone (configuration_call items))) }
    {
        let params = ConfigurationParams { items };
        request::<Self, WorkspaceConfiguration>(alloc, self, &params, true)
    }

    /// Asks for the folders of the workspace: `workspace/workspaceFolders`. It waits for
    /// `initialize`.
    final fn workspace_folders(
        &mut self,
        alloc: Global,
    ) -> Result<Asked<WorkspaceFoldersRequest>, DeskFault>
        ensures asked { IfOk result (λ asked. PollsOn Self.meaning self.old self.new
            (IsAsked workspace_folders_call (show_asked asked))) }
        ensures failed { IfErr result (λ fault. PollFails Self.meaning self.old self.new fault) }
        ensures continues { Continues Self.meaning self.old self.new }
        ensures unsent { OnErr result (PollsOn Self.meaning self.old self.new
            (SendsNone workspace_folders_call)) }
    {
        request::<Self, WorkspaceFoldersRequest>(alloc, self, &(), true)
    }

    /// Has an edit made by the client: `workspace/applyEdit`, without a label. It waits for
    /// `initialize`.
    #[tactic(auto, unfolding(lsp_work::specs::Workspace::apply_workspace_edit_params_row))]
    final fn apply_edit(
        &mut self,
        alloc: Global,
        edit: WorkspaceEdit,
    ) -> Result<Asked<ApplyWorkspaceEdit>, DeskFault>
        ensures asked { IfOk result (λ asked. PollsOn Self.meaning self.old self.new
            (IsAsked (apply_edit_call edit) (show_asked asked))) }
        ensures failed { IfErr result (λ fault. PollFails Self.meaning self.old self.new fault) }
        ensures continues { Continues Self.meaning self.old self.new }
        ensures unsent { OnErr result (PollsOn Self.meaning self.old self.new
            (SendsNone (apply_edit_call edit))) }
    {
        let params = ApplyWorkspaceEditParams { label: None, edit };
        request::<Self, ApplyWorkspaceEdit>(alloc, self, &params, true)
    }

    /// Sends a request of this method. It is gated.
    final fn send_request<R: Request>(
        &mut self,
        alloc: Global,
        params: R::Params,
    ) -> Result<Asked<R>, DeskFault>
    where
        R::Params: Wire,
        ensures asked { IfOk result (λ asked. PollsOn Self.meaning self.old self.new
            (IsAsked (Ask R.name (write R.Params.shape (R.Params.shown params)) true)
            (show_asked asked))) }
        ensures failed { IfErr result (λ fault. PollFails Self.meaning self.old self.new fault) }
        ensures continues { Continues Self.meaning self.old self.new }
        ensures unsent { OnErr result (PollsOn Self.meaning self.old self.new
            (SendsNone (Ask R.name (write R.Params.shape (R.Params.shown params)) true))) }
    {
        request::<Self, R>(alloc, self, &params, true)
    }

    /// Sends a notification of this method. It is gated.
    final fn send_notification<N: Notification>(
        &mut self,
        alloc: Global,
        params: N::Params,
    ) -> Result<Told, DeskFault>
    where
        N::Params: Wire,
        ensures told { IfOk result (λ told. PollsOn Self.meaning self.old self.new
            (IsTold (Tell N.name (write N.Params.shape (N.Params.shown params)) true) told)) }
        ensures failed { IfErr result (λ fault. PollFails Self.meaning self.old self.new fault) }
        ensures continues { Continues Self.meaning self.old self.new }
        ensures unsent { OnErr result (PollsOn Self.meaning self.old self.new
            (IsUnreplied (Tell N.name (write N.Params.shape (N.Params.shown params)) true))) }
    {
        notify::<Self, N>(alloc, self, &params, true)
    }

    /// What has come of a request by now. The ticket comes back while its answer is awaited.
    final fn poll_answer<R: Request>(
        &mut self,
        alloc: Global,
        ticket: Ticket<R>,
    ) -> Result<Answered<R, R::Result>, DeskFault>
    where
        R::Result: Wire,
        ensures answered { IfOk result (λ answered. PollsOn Self.meaning self.old self.new
            (IsPolled R.Result.shape (ticket_number ticket)
            (show_answered R.Result.shown answered))) }
        ensures float_free { IfOk result (λ answered.
            answered_has_float (show_answered R.Result.shown answered) ≡ false) }
        ensures failed { IfErr result (λ fault. PollFails Self.meaning self.old self.new fault) }
        ensures continues { Continues Self.meaning self.old self.new }
        ensures once { IfErr result (λ fault. PollsOn Self.meaning self.old self.new
            (IsPollCut (ticket_number ticket) fault)) }
    {
        poll(alloc, self, ticket)
    }

    /// Draws an id.
    final fn next_request_id(&mut self) -> Result<Id, DeskFault>
        ensures drawn { IfOk result (λ id. PollsOn Self.meaning self.old self.new
            (IsDrawn (show_id id))) }
        ensures failed { IfErr result (λ fault. PollFails Self.meaning self.old self.new fault) }
        ensures continues { Continues Self.meaning self.old self.new }
        ensures once { IfErr result (λ fault. PollsOn Self.meaning self.old self.new
            (Adds show_client_reply NextId (Err fault))) }
    {
        next_id(self)
    }

    /// Sends a message as it is, whatever the life, until the session has exited.
    final fn call(&mut self, request: lsp_rpc::Request) -> Result<ClientReply, DeskFault>
        requires { may_have_float (show_request request).params ≡ false }
        ensures replied { IfOk result (λ reply. PollsOn Self.meaning self.old self.new
            (λ own. own ≡ replied (Raw (show_request request)) (show_client_reply reply) ∷ [])) }
        ensures float_free { IfOk result (λ reply. reply_has_float (show_client_reply reply)
            ≡ false) }
        ensures failed { IfErr result (λ fault. PollFails Self.meaning self.old self.new fault) }
        ensures continues { Continues Self.meaning self.old self.new }
        ensures unsent { IfErr result (λ fault. PollsOn Self.meaning self.old self.new
            (Adds show_client_reply (Raw (show_request request)) (Err fault))) }
    {
        lsp_ask::call(self, request)
    }
}

impl<D: Caller> Client for D {}
