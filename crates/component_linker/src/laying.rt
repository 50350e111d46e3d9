//! The words of parts, put into the cells of a new machine.
ghost use Rattle.std.specs.Prelude.{◌≡◌, ◌≤◌, ◌+◌, length, slice_get, IsSome};
ghost use Rattle.lcm_machine.specs.Cells.{cell};
ghost use Rattle.linked_starts.specs.Start.{from, first_given, part_word, code_of, data_of, code_half};
ghost use Rattle.linked_starts.specs.Start.{data_half};
ghost use Rattle.linked_starts.specs.Linked.{Kept, ImportsFound, AreClosed, AreSeparate};
ghost use Rattle.linked_starts.specs.Laying.{HasCells, HasCellsFor, HasCellsOf, Lays, halves};
ghost use Rattle.linked_starts.specs.Laying.{import_words};

use crate::names::{Exported, imported};
use crate::placed::{Placed, PlacedParts, Words};
use cap_words::{Cap, Held, LAST_PLACE, Lin, Perm, Sealable, Word};
use lcm_machine::{LcmState, Place};

/// The capability over a part's whole code, at an export. Trusted code can't be written.
pub(crate) fn code_cap(entry: &Exported<'_>) -> Cap
    requires { Kept entry.now.part }
    ensures { result ≡ code_of entry.now }
{
    let part = &entry.part;
    let perm = if part.trusted() { Perm::Rx } else { Perm::Rwx };
    let base = part.code_base();
    let end = base + part.code().len() as u32 - 1;
    let at = i64::from(base) + i64::from(entry.export.offset);
    Cap::new(perm, Lin::Normal, base, end, at)
}

/// The capability over a part's whole data, at its base.
pub(crate) fn data_cap(part: &Placed<'_>) -> Cap
    requires { Kept part.now }
    ensures { result ≡ data_of part.now }
{
    let base = part.data_base();
    let end = base + part.data_words().len() as u32 - 1;
    Cap::new(Perm::Rw, Lin::Normal, base, end, i64::from(base))
}

// The code half of an export: its code capability, sealed under its part's closure seal.
fn code_half(entry: &Exported<'_>) -> Word
    requires { Kept entry.now.part }
    ensures { result ≡ code_half entry.now }
{
    Word::Sealed(entry.part.closure(), Sealable::Mem(code_cap(entry)))
}

// The data half of an export: its part's data capability, sealed under the same seal.
fn data_half(entry: &Exported<'_>) -> Word
    requires { Kept entry.now.part }
    ensures { result ≡ data_half entry.now }
{
    Word::Sealed(entry.part.closure(), Sealable::Mem(data_cap(&entry.part)))
}

// Puts words into the cells from an address on.
fn lay_words(state: &mut LcmState, base: u32, words: &Words<'_>)
    requires fits { base + length words.now ≤ LAST_PLACE + 1 }
    requires room { HasCells base (length words.now) state.old }
    ensures { Lays (from base (slice_get words.now)) state.old state.new }
{
    for index in 0..words.len() {
        let word = words.word(index);
        state.set(Place::Cell(base + index as u32), Held::of(word));
    }
}

// Puts the halves of an export into two cells, the code half first.
fn lay_halves(state: &mut LcmState, at: u32, entry: &Exported<'_>)
    requires kept { Kept entry.now.part }
    requires fits { at + 1 ≤ LAST_PLACE }
    requires first { IsSome (cell state.old.maps.cells at) }
    requires second { IsSome (cell state.old.maps.cells (at + 1)) }
    ensures { Lays (halves at entry.now) state.old state.new }
{
    state.set(Place::Cell(at), Held::of(code_half(entry)));
    state.set(Place::Cell(at + 1), Held::of(data_half(entry)));
}

// Puts the halves of what a part imports into its data.
fn lay_slots(state: &mut LcmState, parts: &PlacedParts<'_>, part: &Placed<'_>)
    requires kept { Kept part.now }
    requires closed { AreClosed parts.now }
    requires found { ImportsFound parts.now part.now }
    requires room { HasCells part.now.component.data_base (length part.now.component.data_words) state.old }
    ensures { Lays (import_words parts.now part.now) state.old state.new }
{
    for import in part.imports() {
        let Some(entry) = imported(parts, import) else {
            unreachable!();
        };
        lay_halves(state, part.data_base() + import.slot, &entry);
    }
}

// Puts the words of a part's data and code into its cells.
fn lay_part(state: &mut LcmState, parts: &PlacedParts<'_>, part: &Placed<'_>)
    requires kept { Kept part.now }
    requires closed { AreClosed parts.now }
    requires found { ImportsFound parts.now part.now }
    requires room { HasCellsFor (λ a. part_word parts.now a part.now) state.old }
    ensures { Lays (λ a. part_word parts.now a part.now) state.old state.new }
{
    lay_words(state, part.data_base(), &part.data_words());
    lay_slots(state, parts, part);
    lay_words(state, part.code_base(), &part.code());
}

/// Puts the words of all parts into the cells of a machine, which are all there.
pub(crate) fn lay_parts(state: &mut LcmState, parts: &PlacedParts<'_>)
    requires closed { AreClosed parts.now }
    requires separate { AreSeparate parts.now }
    requires room { HasCellsOf parts.now state.old }
    ensures { Lays (λ a. first_given (part_word parts.now a) parts.now) state.old state.new }
{
    for index in 0..parts.len() {
        let part = parts.part(index);
        lay_part(state, parts, &part);
    }
}
