//! The open documents of an editor, as its notifications make them (LSP 3.17, "Text Document
//! Synchronization").
#![tactic(auto)]

mod block;
mod change;
mod document;
mod documents;
mod error;
mod law;
mod place;

pub use document::Document;
pub use documents::Documents;
pub use error::{ChangeError, OpenError};
pub use law::positions_come_back;
