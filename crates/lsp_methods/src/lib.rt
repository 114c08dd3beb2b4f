//! The methods of LSP 3.17: each as a type; and those that a client calls on a server, with the table
//! that they are found in.
#![tactic(auto)]

mod law;
mod method;
pub mod notification;
pub mod request;
mod table;

pub use law::{each_at_its_place, each_is_found_by_its_name};
pub use method::{
    EditMethod, GotoMethod, HierarchyMethod, LifeMethod, METHODS, Method, STANDARD, ShowMethod,
    SyncMethod, TokenMethod, WorkMethod,
};
pub use table::ServiceTable;
