//! That each marker has the name of its method, and the shapes of the method's params and result.
#![tactic(auto)]

mod client;
mod method;
mod served;

pub use client::{asked_markers, told_markers};
pub use method::{AskedMethod, ToldMethod};
pub use served::{
    edit_markers, goto_markers, hierarchy_markers, life_markers, show_markers, sync_markers,
    token_markers, work_markers,
};
