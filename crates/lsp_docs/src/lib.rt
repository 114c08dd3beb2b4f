//! A server that keeps the open documents of its client.
#![tactic(auto)]

mod docs;
mod law;
mod service;

pub use docs::DocsServer;
pub use law::{
    docs_polls_are_a_function, docs_sessions_are_a_function, documents_are_those_told,
    texts_are_those_told,
};
pub use service::docs_service;
