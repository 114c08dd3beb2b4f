// Pieces of items, and the ring that they go through.
use lsp_session::Item;
use rtrb::{Consumer, Producer, Protocol};
use std::alloc::Global;

/// No message of a piece holds a float.
pub struct FloatFree;

impl Protocol<Vec<Item>> for FloatFree {
    ghost use Rattle.lsp_pump.specs.Pieces.{piece_items, ItemsAreFloatFree};

    ghost allows = { λ before piece. ItemsAreFloatFree (piece_items piece) };
}

/// The reader's end of the ring.
pub(crate) type Sender = Producer<Vec<Item>, Global, FloatFree>;

/// The session's end of the ring.
pub(crate) type Pieces = Consumer<Vec<Item>, Global, FloatFree>;
