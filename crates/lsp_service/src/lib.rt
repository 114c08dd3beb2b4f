//! Typed methods of a language server, and the service that a session runs.
#![tactic(auto)]

mod answer;
mod answering;
mod asking;
mod attach;
mod builder;
mod call;
mod common;
mod incoming;
mod initialize;
mod params;
mod read;
mod reply;
mod server;
mod service;
mod serving;
mod stdio;
mod write;

pub use answering::{Answering, AtOnce};
pub use asking::{Asking, InTime};
pub use builder::{LspServiceBuilder, Unmade};
pub use call::{
    Call, EditCall, GotoCall, HierarchyCall, LifeCall, ShowCall, SyncCall, Target, TokenCall,
    WorkCall,
};
pub use common::{let_go, not_found, not_found_for};
pub use incoming::Incoming;
pub use initialize::{InitializeCall, InitializeReply};
pub use lsp_session::NoMemory;
pub use reply::{
    EditReply, GotoReply, HierarchyReply, LifeReply, Reply, ShowReply, SyncReply, TokenReply,
    WorkReply,
};
pub use server::{LanguageServer, NoTask, Started};
pub use service::{Held, LspService};
pub use serving::{pump, serve, serve_session};
pub use stdio::{pump_stdio, serve_stdio};
