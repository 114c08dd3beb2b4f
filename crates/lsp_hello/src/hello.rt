// The server: it greets at hovers and completions.
use lsp_service::{
    Answering, Call, EditCall, EditReply, InitializeCall, InitializeReply, LifeCall, LifeReply,
    NoMemory, Reply, ShowCall, ShowReply, not_found_for,
};
use lsp_types::{
    CompletionItem, CompletionOptions, CompletionParams, CompletionResponse, Hover, HoverContents,
    HoverParams, MarkedString, ServerCapabilities, TextDocumentSyncKind,
};
use std::alloc::Global;

#[derive(Drop)]
pub struct Hello;

impl Answering for Hello {
    fn answer(&mut self, alloc: Global, call: Call) -> Result<Reply, NoMemory> {
        match call {
            Call::Life(LifeCall::Initialize(params)) => {
                let offered = initialize(alloc, params)?;
                Ok(Reply::Life(LifeReply::Initialize(Ok(offered))))
            }
            Call::Life(LifeCall::Shutdown) => Ok(Reply::Life(LifeReply::Shutdown(Ok(())))),
            Call::Show(ShowCall::Hover(params)) => {
                let hover = hover(alloc, &params)?;
                Ok(Reply::Show(ShowReply::Hover(Ok(Some(hover)))))
            }
            Call::Edit(EditCall::Completion(params)) => {
                let items = completion(alloc, &params)?;
                Ok(Reply::Edit(EditReply::Completion(Ok(Some(items)))))
            }
            other => not_found_for(alloc, other),
        }
    }
}

fn initialize(alloc: Global, _params: InitializeCall) -> Result<InitializeReply, NoMemory> {
    let mut capabilities = ServerCapabilities::default();
    capabilities.hover_provider = Some(true.into());
    capabilities.completion_provider = Some(CompletionOptions::default());
    capabilities.text_document_sync = Some(TextDocumentSyncKind::FULL.into());
    InitializeReply::offering(alloc, capabilities)
}

fn hover(alloc: Global, params: &HoverParams) -> Result<Hover, NoMemory> {
    let line = u64::from(params.text_document_position_params.position.line) + 1;
    let text = MarkedString::String(format!(in alloc; "Hello from line {line}")?);
    Ok(Hover {
        contents: HoverContents::Scalar(text),
        range: None,
    })
}

fn completion(alloc: Global, _params: &CompletionParams) -> Result<CompletionResponse, NoMemory> {
    let hello = CompletionItem::new_simple(format!(in alloc; "hello")?, format!(in alloc; "hi")?);
    Ok(CompletionResponse::Array(vec![in alloc; hello]?))
}
