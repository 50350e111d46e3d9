//! The rules L1 to L9: each is tried at one part after another, and in a part at one place after another.
ghost use Rattle.std.specs.Prelude.{◌≡◌, ◌<◌, ◌≤◌, ◌^◌, ℕ, length, slice_get, Some};
ghost use Rattle.component_check.specs.Places.{first_place};
ghost use Rattle.linked_starts.specs.Pairs.{first_in, once};
ghost use Rattle.component_linker.specs.LinkRules.{test_of, tried_at};

use crate::names::{imported, is_main};
use crate::parts::{is_private, share_seals};
use crate::placed::{Placed, PlacedParts};
use crate::regions::{comes_near, near_before};
use crate::whole::{are_too_many, how_many, main_before, stack_fits};
use linked_starts::PartPlace;

/// A rule of docs/RULES.md that parts with room keep together.
#[derive(Clone, Copy)]
pub(crate) enum LinkRule {
    L1,
    L2,
    L3,
    L4,
    L5,
    L6,
    L7,
    L8,
    L9,
}

// What is told of a rule that is tried once, where it is broken.
fn once(broken: bool, told: u32) -> Option<u32>
    ensures { result ≡ first_place (once broken told) }
{
    if broken { Some(told) } else { None }
}

impl LinkRule {
    // At how many parts it is tried. What is asked of all together is tried after the last.
    fn count(self, parts: &PlacedParts) -> usize
        ensures is { result ≡ tried_at self parts.now }
        ensures few { result ≤ 2 ^ 32 }
    {
        match self {
            LinkRule::L1 | LinkRule::L6 | LinkRule::L8 => parts.len() + 1,
            _ => parts.len(),
        }
    }

    // At how many places of a part it is tried.
    fn places(self, parts: &PlacedParts, index: usize, part: &Placed) -> usize
        requires there { slice_get parts.now index ≡ Some part.now }
        requires few { index < 2 ^ 32 }
        ensures is { (size : ℕ) → result ≡ ((test_of self parts.now size).within index).count }
        ensures few { result < 2 ^ 32 }
    {
        match self {
            LinkRule::L1 => 3,
            LinkRule::L2 | LinkRule::L3 => index,
            LinkRule::L4 | LinkRule::L5 => part.imports().len(),
            LinkRule::L6 => part.exports().len(),
            LinkRule::L7 | LinkRule::L9 => 1,
            LinkRule::L8 => 0,
        }
    }

    // Whether it is broken at the place of an index.
    fn is_broken(self, parts: &PlacedParts, index: usize, part: &Placed, k: usize) -> bool
        requires there { slice_get parts.now index ≡ Some part.now }
        requires here { k < ((test_of self parts.now 0).within index).count }
        ensures { (size : ℕ) → result ≡ ((test_of self parts.now size).within index).broken k }
    {
        match self {
            LinkRule::L1 => comes_near(parts, index, &part.spans(), k),
            LinkRule::L2 => share_seals(part, &parts.part(k)),
            LinkRule::L3 => part.name() == parts.part(k).name(),
            LinkRule::L4 => imported(parts, &part.imports()[k]).is_none(),
            LinkRule::L5 => is_private(part, imported(parts, &part.imports()[k])),
            LinkRule::L6 => is_main(&part.exports()[k]) && main_before(parts, index),
            LinkRule::L7 => part.stack_base() != parts.stack_base(),
            LinkRule::L8 => false,
            LinkRule::L9 => are_too_many(parts, index),
        }
    }

    // By which number the place of an index is told.
    fn place(self, parts: &PlacedParts, index: usize, part: &Placed, k: usize) -> u32
        requires there { slice_get parts.now index ≡ Some part.now }
        requires few { k < 2 ^ 32 }
        ensures { (size : ℕ) → result ≡ ((test_of self parts.now size).within index).place k }
    {
        match self {
            LinkRule::L7 => part.stack_base(),
            LinkRule::L9 => how_many(parts, index),
            _ => k as u32,
        }
    }

    // What is told of all parts together, where they break it.
    fn of_all(self, parts: &PlacedParts, stack: u32) -> Option<u32>
        ensures { result ≡ first_place ((test_of self parts.now stack).within (length parts.now)) }
    {
        let count = parts.len();
        match self {
            LinkRule::L1 => once(near_before(parts, count, &[], parts.stack_span(stack)), 0),
            LinkRule::L6 => once(!main_before(parts, count), 0),
            LinkRule::L8 => once(!stack_fits(parts, stack), stack),
            _ => None,
        }
    }

    // The first place at which it is broken in a part, or after the last part of all together.
    fn within(self, parts: &PlacedParts, stack: u32, index: usize) -> Option<u32>
        requires here { index < tried_at self parts.now }
        requires few { index < 2 ^ 32 }
        ensures { result ≡ first_place ((test_of self parts.now stack).within index) }
    {
        if index == parts.len() {
            return self.of_all(parts, stack);
        }
        let part = parts.part(index);
        for k in 0..self.places(parts, index, &part) {
            if self.is_broken(parts, index, &part, k) {
                return Some(self.place(parts, index, &part, k));
            }
        }
        None
    }

    /// The first part, and the first place in it, at which it is broken.
    pub(crate) fn first(self, parts: &PlacedParts, stack: u32) -> Option<PartPlace>
        ensures { result ≡ first_in (test_of self parts.now stack) }
    {
        for index in 0..self.count(parts) {
            if let Some(place) = self.within(parts, stack, index) {
                let part = index as u32;
                return Some(PartPlace { part, place });
            }
        }
        None
    }
}
