//! The words of a call.
ghost use Rattle.std.specs.Prelude.{◌≡◌, drop, IfOk, OnErr};
ghost use Rattle.std.specs.Vec.Iter.{into_iter_items};
ghost use Rattle.command_words.specs.Handed.{AreWords, MayLack};

use std::alloc::{AllocError, Global};
use std::env::Args;
use std::io::{self, ErrorKind};

// The words after the first, which is the program's own name.
fn words_behind(alloc: Global, args: Args) -> Result<Vec<String>, AllocError>
    ensures { IfOk result (λ words. words.items ≡ drop 1 (into_iter_items args)) }
{
    args.skip(1).collect(alloc)
}

/// The words of the call of a process whose arguments are these: those after the first. A word that is no
/// text makes the command line no command, as no words do.
pub fn call_words(alloc: Global, args: io::Result<Args>) -> Result<Vec<String>, AllocError>
    ensures words { IfOk result (λ words. AreWords args words.items) }
    ensures lack { OnErr result (MayLack args) }
{
    match args {
        Ok(args) => words_behind(alloc, args),
        Err(error) if error.kind() == ErrorKind::OutOfMemory => Err(AllocError),
        Err(_) => Ok(Vec::new(alloc)),
    }
}
