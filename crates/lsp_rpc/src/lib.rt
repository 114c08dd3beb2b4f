//! Ids, errors and messages of JSON-RPC 2.0, as the Language Server Protocol 3.17, "Base Protocol",
//! uses them: one object each, with no batches and with integers and strings for ids.
//!
//! Contracts see an id, an error, a request, a response and a message as plain data, in which a
//! string is its bytes and a JSON value is what `serde_json` shows of it: `show_id` and its like in
//! `specs/Shown.antt`. `specs/Message.antt` says which message a value is and how one is written,
//! and `specs/Back.antt` which messages are read back from their text.
#![tactic(auto)]

mod cancel;
mod code;
mod error;
mod id;
mod members;
mod message;
mod read;
mod request;
mod response;
mod value;
mod write;

pub use cancel::cancelled_id;
pub use code::ErrorCode;
pub use error::Error;
pub use id::Id;
pub use message::Message;
pub use no_memory::NoMemory;
pub use read::{NotMessage, TextFault, read_error, read_id, read_message};
pub use request::{Request, RequestBuilder};
pub use response::Response;
pub use value::is_float_free;
