//! What the program of two language servers does: a small one, and one that keeps documents.
#![tactic(auto)]

mod arguments;
mod bulk;
mod program;

pub use arguments::{Clones, Form, MOST, MOST_CLONES, MOST_SAID, MadeUp, Setting};
pub use program::run;
