// The loop over the reads, whatever is done with their bytes.
ghost use Rattle.std.specs.Prelude.{◌≡◌, IfErr};
ghost use Rattle.std.specs.Result.{result_err};
ghost use Rattle.lsp_server.specs.Consuming.{IsLawfulConsumer, Did, Took, TookLast, AllTook, end as the_end, last_outcome};
ghost use Rattle.lsp_server.specs.Leaves.{StaysFlushed, StepsFlushed, TellsFaults, WithinReads};
ghost use Rattle.lsp_server.specs.Reads.{moment, Made, InOrder};
ghost use Rattle.lsp_server.specs.Errors.{IsBetweenReads, EndsInStep};

use crate::step::flush_after;
use crate::{Consumer, Failed, ServeError, Sink, Transport};

// How many bytes are read at most at a time.
const READ_SIZE: usize = 4096;

/// Reads a transport to its end, or until the consumer is done, and gives the consumer what it
/// reads.
///
/// It reads pieces of at most 4,096 bytes, at most `reads` of them. Before each read the consumer
/// has taken all bytes that were read, and what it wrote is flushed.
pub fn over_reads<T: Transport, S, C: Consumer<S>>(
    io: &mut T,
    consumer: &mut C,
    state: &mut S,
    reads: u64,
) -> Result<(), ServeError>
    requires lawful { IsLawfulConsumer C.meaning }
    requires opened { C.meaning.is_open (consumer.old, state.old) }

    // The bytes read were given, in order. Ok comes only at the end of input or where the consumer
    // is done.
    ensures last { EndsInStep result → TookLast C.meaning (consumer.old, state.old)
        (moment (T.left io.old) (T.taken io.old) (T.flushed io.old))
        (moment (T.left io.new) (T.taken io.new) (T.flushed io.new))
        4096 (last_outcome result) (consumer.new, state.new) }
    ensures took { IfErr result (λ e. IsBetweenReads e → Took C.meaning (consumer.old, state.old)
        (moment (T.left io.old) (T.taken io.old) (T.flushed io.old))
        (moment (T.left io.new) (T.taken io.new) (T.flushed io.new))
        (consumer.new, state.new)) }

    // Before each read all bytes that were read had been given, and nothing is read after the end
    // of input.
    ensures in_order { Made (T.reads io.old) (T.reads io.new) (InOrder (AllTook C.meaning
        (consumer.old, state.old) (moment (T.left io.old) (T.taken io.old) (T.flushed io.old)))) }
    ensures within { WithinReads reads 4096 (T.left io.old) (T.left io.new)
        (T.reads io.old) (T.reads io.new) (result_err result) }

    // All is flushed, and each failure is told and has its cause.
    ensures flushed { StaysFlushed (T.taken io.old) (T.flushed io.old)
        (T.taken io.new) (T.flushed io.new) (result_err result) }
    ensures faults { TellsFaults (T.read_faults io.old) (T.read_faults io.new)
        (T.faults io.old) (T.faults io.new) (result_err result) }
    ensures tied { (T.tied io.new ≡ T.tied io.old) × (C.tied consumer.new ≡ C.tied consumer.old) }
{
    let mut piece = [0; READ_SIZE];
    for _ in 0..reads {
        let n = match io.read(&mut piece) {
            Ok(n) => n,
            Err(Failed) => return Err(ServeError::ReadFault),
        };
        if n == 0 {
            return finish(consumer, state, io);
        }
        match consumer.take(state, &piece[..n], io) {
            Ok(done) => {
                io.flush()?;
                if done {
                    return Ok(());
                }
            }
            Err(error) => return Err(flush_after(io, error)),
        }
    }
    Err(ServeError::ReadsSpent)
}

// Tells the consumer that no more bytes come, and flushes what was written for it, also where the
// consumer fails.
fn finish<O: Sink, S, C: Consumer<S>>(
    consumer: &mut C,
    state: &mut S,
    sink: &mut O,
) -> Result<(), ServeError>
    requires lawful { IsLawfulConsumer C.meaning }
    requires opened { C.meaning.is_open (consumer.old, state.old) }
    ensures did { Did C.meaning (consumer.old, state.old) the_end (last_outcome result)
        (O.taken sink.old) (O.taken sink.new) (consumer.new, state.new) }
    ensures sink { StepsFlushed O.taken O.flushed O.faults O.beside sink.old sink.new result }
    ensures tied { C.tied consumer.new ≡ C.tied consumer.old }
{
    match consumer.end(state, sink) {
        Ok(()) => {
            sink.flush()?;
            Ok(())
        }
        Err(error) => Err(flush_after(sink, error)),
    }
}
