// What is done with the bytes that reads give.
ghost use Rattle.std.specs.Prelude.{◌≡◌, ⊤};
ghost use Rattle.lsp_server.specs.Consuming.{Consuming, Did, piece as a_piece, end as the_end, consumer_outcome, last_outcome};
ghost use Rattle.lsp_server.specs.Leaves.{OnlySteps};

use crate::{ServeError, Sink};

/// What is done with the bytes that reads give: a codec or another splitter with what it holds,
/// which tells a state, as a session, what it splits off. It writes to a sink, and flushes nothing.
pub trait Consumer<S> {
    /// What it does with its state, by the bytes that it is given.
    ghost meaning: { Consuming (Self × S) };

    /// What no call changes.
    ghost Tied: { Type 0 } = { ⊤ };

    ghost tied: { Self → Tied };

    /// Takes the bytes of a read, and says whether they end it.
    fn take<O: Sink>(
        &mut self,
        state: &mut S,
        piece: &[u8],
        sink: &mut O,
    ) -> Result<bool, ServeError>
        requires { meaning.is_open (self.old, state.old) }
        ensures did { Did meaning (self.old, state.old) (a_piece piece.now) (consumer_outcome result)
            (O.taken sink.old) (O.taken sink.new) (self.new, state.new) }
        ensures sink { OnlySteps O.flushed O.faults O.beside sink.old sink.new result }
        ensures tied { tied self.new ≡ tied self.old };

    /// Is told that no more bytes come.
    fn end<O: Sink>(&mut self, state: &mut S, sink: &mut O) -> Result<(), ServeError>
        requires { meaning.is_open (self.old, state.old) }
        ensures did { Did meaning (self.old, state.old) the_end (last_outcome result)
            (O.taken sink.old) (O.taken sink.new) (self.new, state.new) }
        ensures sink { OnlySteps O.flushed O.faults O.beside sink.old sink.new result }
        ensures tied { tied self.new ≡ tied self.old };
}
