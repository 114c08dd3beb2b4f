//! The sides of a proxy, and where its editors stand.

/// Who a message comes from, or goes to.
#[derive(Clone, Copy, Debug, PartialEq, Eq)]
pub enum Side {
    /// The language server.
    Server,
    /// The editor of this number, counted from 0.
    Editor(u32),
}

/// Where an editor stands.
#[derive(Clone, Copy, Debug, PartialEq, Eq)]
pub(crate) enum Presence {
    /// It may send requests.
    Here,
    /// It has sent `shutdown`.
    Down,
    /// It has sent `exit`.
    Gone,
}
