//! URI references of RFC 3986: the grammar of its appendix A, and the parts that its sections 3 and
//! 4 name.
#![tactic(auto)]

mod authority;
mod chars;
mod cuts;
mod host;
mod parts;
mod path;
mod uri;

pub use no_memory::NoMemory;
pub use uri::{Uri, UriError};
