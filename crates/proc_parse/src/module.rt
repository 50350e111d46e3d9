//! Whole modules.
ghost use Rattle.std.specs.Prelude.{◌≡◌, true, IfOk, Ok};
ghost use Rattle.proc_parse.specs.Answers.{GivesAs, Gives};
ghost use Rattle.proc_grammar.specs.Grammar.{room_in_body};
ghost use Rattle.proc_grammar.specs.Reading.{full, next_module};

use crate::cursor::TokenCursor;
use crate::items::{globals, header, imports};
use crate::procs::procs;
use cap_words::Items;
use proc_grammar::{Language, ParseFault};
use std::alloc::Global as Heap;

/// The module that stands here; more may follow.
pub fn module<L: Language>(
    alloc: Heap,
    tokens: &mut TokenCursor<'_, '_>,
) -> Result<L::Module, ParseFault>
    ensures { Gives result tokens.new (next_module L.made true full room_in_body tokens.old) }
{
    let header = header::<L>(alloc, tokens)?;
    let imports = Items::of(imports::<L>(alloc, tokens)?);
    let globals = Items::of(globals::<L>(alloc, tokens)?);
    let procs = Items::of(procs::<L>(alloc, tokens)?);
    Ok(L::module_of(header, imports, globals, procs))
}
