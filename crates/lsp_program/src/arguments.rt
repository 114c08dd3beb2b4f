// The arguments of a program.
ghost use Rattle.std.specs.IoError.{error_kind};
ghost use Rattle.std.specs.Prelude.{◌≡◌, ◌≢◌, Err, IfErr, IfOk, IsOk, OnOk, drop};
ghost use Rattle.std.specs.declared.io.ErrorKind.TheVariants.{InvalidData};
ghost use Rattle.std.specs.Vec.Iter.{into_iter_items};

use crate::Status;
use std::alloc::{AllocError, Global};
use std::env::Args;
use std::io;
use std::io::ErrorKind;

/// The program's arguments without its own name, of what [`env::args`](std::env::args) answered.
///
/// An argument that isn't UTF-8 is none of a program's: the status is then [`Status::Usage`]. Any
/// other error is told as [`Status::NoMemory`].
pub fn words(alloc: Global, arguments: io::Result<Args>) -> Result<Vec<String>, Status>
    ensures all { IfOk result (λ words. IfOk arguments (λ all.
        words.items ≡ drop 1 (into_iter_items all))) }
    ensures read { OnOk result (IsOk arguments) }
    ensures usage { IfErr arguments (λ error. error_kind error ≡ InvalidData
        → result ≡ Err Status.Usage) }
    ensures unread { IfErr arguments (λ error. error_kind error ≢ InvalidData
        → result ≡ Err Status.NoMemory) }
    ensures no_memory { IfOk arguments (λ _. IfErr result (λ status. status ≡ Status.NoMemory)) }
{
    match arguments {
        Ok(mut all) => {
            all.next();
            match collected(alloc, all) {
                Ok(words) => Ok(words),
                Err(AllocError) => Err(Status::NoMemory),
            }
        }
        Err(error) if error.kind() == ErrorKind::InvalidData => Err(Status::Usage),
        Err(_) => Err(Status::NoMemory),
    }
}

fn collected(alloc: Global, words: Args) -> Result<Vec<String>, AllocError>
    ensures { IfOk result (λ all. all.items ≡ into_iter_items words) }
{
    words.collect(alloc)
}
