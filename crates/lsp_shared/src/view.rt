//! What a seat knows. No value of these types is ever made: they are views, which only proofs see.
use lsp_desk::{ClientCall, ClientReply, ServerCall, ServerReply};
use std::collections::LinkedList;

/// A call on the desk.
pub enum Asked {
    Client(ClientCall),
    Server(ServerCall),
}

/// What a call was answered.
pub enum Replied {
    Client(ClientReply),
    Server(ServerReply),
    NoMemory,
}

/// An entry of the desk's history.
pub struct Item {
    pub asked: Asked,
    pub replied: Replied,
}

/// How far a seat is in a call.
pub enum Phase {
    /// It makes no call.
    Idle,
    /// It drew this turn, and waits for it.
    Drawn(u64),
    /// Its turn has come: it holds the desk.
    Holding(u64),
}

/// What a seat knows.
pub struct View {
    /// The entries of the history that it has seen.
    pub seen: LinkedList<Item>,
    /// Those that a seat has seen that it took in, until it looks.
    pub told: LinkedList<Item>,
    /// The turns of its calls.
    pub made: LinkedList<u64>,
    /// The next turn, when it looked last.
    pub read: u64,
    /// Its share of the desk.
    pub share: u64,
    /// Whether it makes the calls of the session.
    pub owner: bool,
    pub phase: Phase,
}
