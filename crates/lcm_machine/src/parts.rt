//! The cells of one span.
ghost use Rattle.std.specs.Prelude.{◌≡◌, ◌<◌, ◌+◌, ◌-◌, IfOk, Some, length, option_copied, replicate};
ghost use Rattle.std.specs.Prelude.{slice_get, slice_set};
ghost use Rattle.cap_words.specs.Linear.{zero_word};

use cap_words::{MachineWord, Word};
use std::alloc::{AllocError, Global};
use std::marker::Model;
use std::mem;

/// A slot for each address of a span, seen as their list: a cell's word, or none where the cell is
/// out.
#[derive(Drop)]
pub struct Slots<W> {
    slots: Vec<Option<W>>,
}

impl<W> Model for Slots<W> {
    ghost use Rattle.std.specs.Prelude.{List, Option};

    ghost Value = { List (Option W) };

    ghost view = { λ p. p.slots.items };
}

impl<W> Slots<W> {
    /// The word of a slot, where it has one.
    #[inline(always)]
    pub fn get(&self, k: usize) -> Option<&W>
        requires { k < length self.now }
        ensures { slice_get self.now k ≡ Some (option_copied result) }
    {
        self.slots[k].as_ref()
    }

    /// Sets a slot, and gives what it had.
    #[inline(always)]
    pub fn swap(&mut self, k: usize, slot: Option<W>) -> Option<W>
        requires { k < length self.old }
        ensures was { slice_get self.old k ≡ Some result }
        ensures now { self.new ≡ slice_set self.old k slot }
    {
        mem::replace(&mut self.slots[k], slot)
    }
}

impl<W: MachineWord> Slots<W> {
    /// So many cells of integer 0.
    pub fn zeros(alloc: Global, count: usize) -> Result<Slots<W>, AllocError>
        ensures { IfOk result (λ part. part ≡ replicate count (Some (zero_word W.plain))) }
    {
        let mut slots = Vec::with_capacity(alloc, count)?;
        for _i in 0..count {
            slots.push(Some(W::from_word(Word::Int(0))))?;
        }
        Ok(Slots { slots })
    }
}
