//! Several editors before one language server: a proxy passes their messages on, and keeps apart
//! the ids of their requests.
//!
//! What it sends for a message is `from_editor` and `from_server` of `specs/Proxy.antt`, row by row
//! the table of docs/DEFINITIONS.md, "The proxy". `law` has what holds over any list of messages.
#![tactic(auto)]

mod editor;
pub mod law;
mod outgoing;
mod parts;
mod presence;
mod proxy;
mod server;
mod side;
mod table;

pub use outgoing::Outgoing;
pub use parts::Sent;
pub use proxy::Proxy;
pub use side::Side;
