// A server that answers otherwise than it was asked.
use lsp_initialize::{InitializeResult, ServerCapabilities};
use lsp_lang_item::InlayHint;
use lsp_offer_work::ServerInfo;
use lsp_service::{
    Answering, Call, InitializeCall, InitializeReply, LifeCall, LifeReply, NoMemory, Reply,
    ShowReply, TokenCall, TokenReply, WorkCall, not_found_for,
};
use lsp_work::ExecuteCommandParams;
use serde_json::Value;
use std::alloc::Global;

/// It has its client's name; answers a command without arguments with a hover, and one with
/// arguments as a notification; puts a float into a hint; gives the params of its first custom method
/// back; and answers a custom method without params as a notification.
#[derive(Drop)]
pub(crate) struct Strange;

impl Answering for Strange {
    fn answer(&mut self, alloc: Global, call: Call) -> Result<Reply, NoMemory> {
        match call {
            Call::Life(LifeCall::Initialize(params)) => {
                let offered = namesake(alloc, params)?;
                Ok(Reply::Life(LifeReply::Initialize(Ok(offered))))
            }
            Call::Work(WorkCall::ExecuteCommand(params)) => {
                if has_arguments(&params) {
                    Ok(Reply::Noted)
                } else {
                    Ok(Reply::Show(ShowReply::Hover(Ok(None))))
                }
            }
            Call::Token(TokenCall::InlayHintResolve(hint)) => {
                let hint = with_float(Box::into_inner(hint));
                Ok(Reply::Token(TokenReply::InlayHintResolve(Ok(hint))))
            }
            Call::Custom(0, Some(params)) => Ok(Reply::Custom(Ok(params))),
            Call::Custom(_, None) => Ok(Reply::Noted),
            other => not_found_for(alloc, other),
        }
    }
}

// Nothing is offered, and the server has its client's name.
fn namesake(alloc: Global, call: InitializeCall) -> Result<InitializeReply, NoMemory> {
    let client_info = call.params(alloc)?.client_info;
    let server_info = match client_info {
        Some(client) => Some(ServerInfo {
            name: client.name,
            version: None,
        }),
        None => None,
    };
    let result = InitializeResult {
        capabilities: ServerCapabilities::default(),
        server_info,
    };
    InitializeReply::new(alloc, &result)
}

fn has_arguments(params: &ExecuteCommandParams) -> bool {
    !params.arguments.is_empty()
}

fn with_float(hint: InlayHint) -> InlayHint {
    let mut hint = hint;
    hint.payload = Some(Value::from(1.5));
    hint
}
