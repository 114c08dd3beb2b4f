// The server.
ghost use Rattle.std.specs.Prelude.{◌≡◌, ◌≢◌, IfErr, IfOk, IsSome, None, Ok, OnErr, OnOk, Some, false, option_map, true};
ghost use Rattle.std.specs.FinMap as map;
ghost use Rattle.std.specs.Str.{encode_utf8_all};
ghost use Rattle.serde_json.specs.Data.{null};
ghost use Rattle.serde_json.specs.View.{view};
ghost use Rattle.lsp_rpc.specs.Shown.{show_body};
ghost use Rattle.lsp_desk.specs.Meaning.{PollsOn};
ghost use Rattle.lsp_session.specs.Fails.{PollFails};
ghost use Rattle.lsp_service.specs.Replies.{initialize_data, show_life_reply, show_offer};
ghost use Rattle.lsp_service.specs.Data.{noted};
ghost use Rattle.lsp_service.specs.declared.call.Call.TheVariants as calls;
ghost use Rattle.lsp_service.specs.declared.call.LifeCall.TheVariants as life_calls;
ghost use Rattle.lsp_uri.specs.Uri.{uri_text};
ghost use Rattle.lsp_docs.specs.Docs.{requested_uri as requested_uri_def, text_answer, found_data, offered, replies, Heeded, LogsRefusal, TakesTurn};
ghost use Rattle.lsp_docs.specs.Typed.{opening_of, changes_of, closing_of, call_turn, life_turn, sync_turn, closes_open, reply_or_error};

use lsp_client::Client;
use lsp_desk::{Caller, DeskFault};
use lsp_documents::{ChangeError, Document, Documents, OpenError};
use lsp_initialize::ServerCapabilities;
use lsp_kinds::{MessageType, TextDocumentSyncKind};
use lsp_offer_text::TextDocumentSyncOptions;
use lsp_rpc::{Error, ErrorCode};
use lsp_service::{
    Call, InitializeReply, LanguageServer, LifeCall, LifeReply, NoMemory, NoTask, Reply, Started,
    SyncCall, let_go, not_found_for,
};
use lsp_work::{
    DidChangeTextDocumentParams, DidCloseTextDocumentParams, DidOpenTextDocumentParams,
};
use serde_json::{Value, json};
use std::alloc::Global;

/// Keeps the open documents of its client, and tells their texts: `docs/text`, which is the one
/// custom method.
#[derive(Drop)]
pub struct DocsServer {
    documents: Documents,
}

impl DocsServer {
    /// No document is open.
    pub fn new(alloc: Global) -> DocsServer
        ensures { result.documents ≡ map.empty }
    {
        DocsServer {
            documents: Documents::new(alloc),
        }
    }

    /// The text of the open document of a URI.
    pub fn text(&self, uri: &str) -> Option<&str>
        ensures { option_map (λ t. t.now) result
            ≡ option_map (λ d. encode_utf8_all d.text) (map.get self.now.documents uri.now) }
    {
        match self.documents.get(uri) {
            Some(document) => Some(document.text()),
            None => None,
        }
    }

    // Takes note of a notification. One that isn't accepted is logged, here and in the next two.
    fn open<D: Caller>(
        &mut self,
        alloc: Global,
        params: DidOpenTextDocumentParams,
        client: &mut D,
    ) -> Result<(), DeskFault>
        ensures heeded { OnOk result (PollsOn D.meaning client.old client.new
            (Heeded (opening_of params) self.old.documents self.new.documents)) }
        ensures failed { IfErr result (λ fault. PollFails D.meaning client.old client.new fault) }
        ensures err { OnErr result (self.new ≡ self.old) }
    {
        let document = params.text_document;
        let text = document.text;
        match self
            .documents
            .open(document.uri.as_str(), document.version, text)
        {
            Ok(()) => Ok(()),
            Err(OpenError::AlreadyOpen) => refuse(alloc, client),
            Err(OpenError::NoMemory) => Err(DeskFault::NoMemory),
        }
    }

    fn change<D: Caller>(
        &mut self,
        alloc: Global,
        params: DidChangeTextDocumentParams,
        client: &mut D,
    ) -> Result<(), DeskFault>
        ensures heeded { OnOk result (PollsOn D.meaning client.old client.new
            (Heeded (changes_of params) self.old.documents self.new.documents)) }
        ensures failed { IfErr result (λ fault. PollFails D.meaning client.old client.new fault) }
        ensures err { OnErr result (self.new ≡ self.old) }
    {
        let document = &params.text_document;
        match self.documents.change(
            document.uri.as_str(),
            document.version,
            params.content_changes.as_slice(),
        ) {
            Ok(()) => Ok(()),
            Err(ChangeError::NotOpen | ChangeError::StartBehindEnd) => refuse(alloc, client),
            Err(ChangeError::NoMemory) => Err(DeskFault::NoMemory),
        }
    }

    fn close<D: Caller>(
        &mut self,
        alloc: Global,
        params: DidCloseTextDocumentParams,
        client: &mut D,
    ) -> Result<(), DeskFault>
        ensures heeded { OnOk result (PollsOn D.meaning client.old client.new
            (Heeded (closing_of params) self.old.documents self.new.documents)) }
        ensures failed { IfErr result (λ fault. PollFails D.meaning client.old client.new fault) }
        ensures closes { OnErr result (map.get self.old.documents
            (uri_text params.text_document.uri) ≡ None) }
        ensures err { OnErr result (self.new ≡ self.old) }
    {
        match self.documents.close(params.text_document.uri.as_str()) {
            Some(_) => Ok(()),
            None => refuse(alloc, client),
        }
    }

    // Takes note of a notification of a document. No other call of its group is known.
    fn heed<D: Caller>(
        &mut self,
        alloc: Global,
        call: SyncCall,
        client: &mut D,
    ) -> Result<Result<(), Error>, DeskFault>
        ensures heeded { IfOk result (λ reply. PollsOn D.meaning client.old client.new
            (TakesTurn (sync_turn call) self.old.documents self.new.documents
            (reply_or_error (λ _. noted) reply))) }
        ensures failed { IfErr result (λ fault. PollFails D.meaning client.old client.new fault) }
        ensures closes { OnErr result (closes_open (sync_turn call) self.old.documents ≡ false) }
        ensures err { OnErr result (self.new ≡ self.old) }
    {
        match call {
            SyncCall::DidOpen(params) => match self.open(alloc, Box::into_inner(params), client) {
                Ok(()) => Ok(Ok(())),
                Err(fault) => Err(fault),
            },
            SyncCall::DidChange(params) => match self.change(
                alloc,
                Box::into_inner(params),
                client,
            ) {
                Ok(()) => Ok(Ok(())),
                Err(fault) => Err(fault),
            },
            SyncCall::DidClose(params) => match self.close(alloc, Box::into_inner(params), client) {
                Ok(()) => Ok(Ok(())),
                Err(fault) => Err(fault),
            },
            other => {
                let_go(Call::Sync(other));
                match Error::method_not_found(alloc) {
                    Ok(error) => Ok(Err(error)),
                    Err(NoMemory) => Err(DeskFault::NoMemory),
                }
            }
        }
    }

    // What is replied to `docs/text`.
    fn text_body(
        &self,
        alloc: Global,
        params: Option<Value>,
    ) -> Result<Result<Value, Error>, NoMemory>
        ensures body { IfOk result (λ body. show_body body
            ≡ text_answer self.now.documents (requested_uri_def (option_map view params))) }
        ensures memory { OnErr result (text_answer self.now.documents
            (requested_uri_def (option_map view params)) ≢ Ok null) }
    {
        let uri = match &params {
            Some(params) => requested_uri(params),
            None => None,
        };
        match uri {
            Some(uri) => Ok(Ok(document_value(alloc, self.documents.get(uri))?)),
            None => Ok(Err(Error::new(alloc, ErrorCode::InvalidParams)?)),
        }
    }
}

impl<D: Caller> LanguageServer<D> for DocsServer {
    ghost use Rattle.lsp_service.specs.Calls.{show_call};
    ghost use Rattle.lsp_service.specs.Data.{custom_answer};
    ghost use Rattle.lsp_service.specs.Started.{show_started};
    ghost use Rattle.lsp_docs.specs.Docs.{docs_semantics, DocsPoll};
    ghost use Rattle.lsp_docs.specs.DocsLaws.{docs_laws};

    type Task = NoTask;

    ghost semantics = { docs_semantics };

    ghost laws = { docs_laws };

    /// A fault leaves all documents as they were. `shutdown`, the close of an open document and
    /// `docs/text` of one that isn't open come to none.
    fn call(
        &mut self,
        alloc: Global,
        call: Call,
        client: &mut D,
    ) -> Result<Started<NoTask>, DeskFault>
        ensures called { IfOk result (λ started. PollsOn D.meaning client.old client.new
            (λ asked. DocsPoll self.old (show_call call) asked self.new
            (show_started docs_semantics started))) }
        ensures failed { IfErr result (λ fault. PollFails D.meaning client.old client.new fault) }
        ensures shutdown { OnErr result (call ≢ calls.Life life_calls.Shutdown) }
        ensures closes { OnErr result (closes_open (call_turn self.old.documents call)
            self.old.documents ≡ false) }
        ensures text { OnErr result (call_turn self.old.documents call
            ≢ replies (custom_answer (Ok null))) }
        ensures err { OnErr result (self.new ≡ self.old) }
    {
        match call {
            Call::Life(call) => match life_reply(alloc, call) {
                Ok(Ok(reply)) => Ok(Started::Now(Reply::Life(reply))),
                Ok(Err(error)) => Ok(Started::Now(Reply::Error(error))),
                Err(NoMemory) => Err(DeskFault::NoMemory),
            },
            Call::Sync(call) => match self.heed(alloc, call, client) {
                Ok(Ok(())) => Ok(Started::Now(Reply::Noted)),
                Ok(Err(error)) => Ok(Started::Now(Reply::Error(error))),
                Err(fault) => Err(fault),
            },
            Call::Custom(_, params) => match self.text_body(alloc, params) {
                Ok(body) => Ok(Started::Now(Reply::Custom(body))),
                Err(NoMemory) => Err(DeskFault::NoMemory),
            },
            other => match not_found_for(alloc, other) {
                Ok(reply) => Ok(Started::Now(reply)),
                Err(NoMemory) => Err(DeskFault::NoMemory),
            },
        }
    }

    fn resume(
        &mut self,
        _alloc: Global,
        task: NoTask,
        _client: &mut D,
    ) -> Result<Started<NoTask>, DeskFault> {
        Ok(Started::Later(task))
    }
}

// Logs that a notification isn't accepted.
fn refuse<D: Caller>(alloc: Global, client: &mut D) -> Result<(), DeskFault>
    ensures logs { OnOk result (PollsOn D.meaning client.old client.new (LogsRefusal true)) }
    ensures failed { IfErr result (λ fault. PollFails D.meaning client.old client.new fault) }
{
    client.log_message(alloc, MessageType::ERROR, "refused")?;
    Ok(())
}

// What is replied to a call of the life of a session. `initialized` isn't known.
fn life_reply(alloc: Global, call: LifeCall) -> Result<Result<LifeReply, Error>, NoMemory>
    ensures reply { IfOk result (λ reply. life_turn call
        ≡ replies (reply_or_error show_life_reply reply)) }
    ensures memory { OnErr result (call ≢ life_calls.Shutdown) }
{
    match call {
        LifeCall::Initialize(params) => {
            let_go(Call::Life(LifeCall::Initialize(params)));
            match initialize(alloc) {
                Ok(offered) => Ok(Ok(LifeReply::Initialize(Ok(offered)))),
                Err(NoMemory) => Err(NoMemory),
            }
        }
        LifeCall::Shutdown => Ok(Ok(LifeReply::Shutdown(Ok(())))),
        LifeCall::Initialized(_) => match Error::method_not_found(alloc) {
            Ok(error) => Ok(Err(error)),
            Err(NoMemory) => Err(NoMemory),
        },
    }
}

// Documents are to be told when they are opened, changed and closed, and changes in ranges. Nothing
// else is offered.
#[tactic(auto, unfolding(crate::specs::Docs::offered))]
fn initialize(alloc: Global) -> Result<InitializeReply, NoMemory>
    ensures { IfOk result (λ reply. show_offer reply ≡ initialize_data
        (record { capabilities = offered; server_info = None })) }
{
    let mut capabilities = ServerCapabilities::default();
    let wanted = TextDocumentSyncOptions {
        open_close: Some(true),
        change: Some(TextDocumentSyncKind::INCREMENTAL),
        will_save: None,
        will_save_wait_until: None,
        save: None,
    };
    capabilities.text_document_sync = Some(wanted.into());
    InitializeReply::offering(alloc, capabilities)
}

// The params of `docs/text` are an object with a string `uri`.
fn requested_uri(params: &Value) -> Option<&str>
    ensures { option_map (λ uri. uri.now) result ≡ requested_uri_def (Some (view params.now)) }
{
    params.get("uri").and_then(Value::as_str)
}

// What `docs/text` gives.
fn document_value(alloc: Global, document: Option<&Document>) -> Result<Value, NoMemory>
    ensures found { IfOk result (λ value. view value
        ≡ found_data (option_map (λ d. d.now) document.entry)) }
    ensures memory { OnErr result (IsSome document.entry) }
{
    let Some(document) = document else {
        return Ok(Value::Null);
    };
    match json!(in alloc; {"text": document.text(), "version": document.version()}) {
        Ok(value) => Ok(value),
        Err(_) => Err(NoMemory),
    }
}
