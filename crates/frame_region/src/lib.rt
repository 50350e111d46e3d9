//! Frames of items, opened one on the other and given back newest first, in one block that is
//! reserved before the first.
//!
//! A region has a number of cells. A frame takes as many of them as its size says, from when it is
//! begun until it is finished, and gets its items one by one. No call but [`Region::reserve`] needs
//! memory.
#![tactic(auto)]

ghost use Rattle.std.specs.Prelude.{◌≡◌, ◌+◌, ◌<◌, ◌≤◌, [], length, Some, IfOk, MatchOption, IsSome};
ghost use Rattle.frame_region.specs.Frames.{sizes, with_frame, with_item, newest_of, newest_head, older};
ghost use Rattle.frame_region.specs.Frames.{item_of, head_of, item_at};
ghost use Rattle.frame_region.specs.Frames.{IsNewestFull, IsNewestOpen, HasNewestItem, IsNewestEmpty};

use std::alloc::{AllocError, Global};
use std::marker::Model;

// A frame that was begun: its head, how many items it has room for, and where they begin.
#[derive(Drop)]
struct Slot<H> {
    head: H,
    size: u32,
    start: usize,
}

/// Frames of items. A contract sees them as a list, the newest first, each with its head, its size
/// and the items that it has so far, and how many cells there are for all of them.
#[derive(Drop)]
pub struct Region<H, T> {
    // The oldest first.
    slots: Vec<Slot<H>>,
    // Those of all frames, one after the other, the oldest first.
    items: Vec<T>,
    // The sizes of all frames together.
    used: u32,
    cells: u32,
}

impl<H, T> Model for Region<H, T> {
    ghost use Rattle.frame_region.specs.Frames.{RegionSeen, region_code};

    ghost Value = { RegionSeen H T };

    ghost coded = { region_code H.code T.code };

    ghost use Rattle.frame_region.specs.Slots.{stacked, IsStored};
    ghost use Rattle.std.specs.Prelude.{reverse};

    ghost view = { λ r. record { frames = stacked (reverse r.slots.items) r.items.items; cells = r.cells } };

    ghost invariant = { λ r. IsStored r };
}

impl<H: Drop, T: Drop> Region<H, T> {
    /// A region of so many cells, without frames. `AllocError` where the memory can't be had.
    pub fn reserve(alloc: Global, cells: u32) -> Result<Region<H, T>, AllocError>
        ensures { IfOk result (λ r. r ≡ record { frames = []; cells = cells }) }
    {
        let slots = Vec::with_capacity(alloc, cells as usize)?;
        let items = Vec::with_capacity(alloc, cells as usize)?;
        Ok(Region {
            slots,
            items,
            used: 0,
            cells,
        })
    }
}

impl<H, T> Region<H, T> {
    /// How many cells are in no frame: all of them less the sizes of the frames.
    pub fn spare(&self) -> u32
        ensures { result + sizes self.now.frames ≡ self.now.cells }
    {
        self.cells - self.used
    }

    /// How many frames there are.
    pub fn frames(&self) -> u32
        ensures { result ≡ length self.now.frames }
    {
        self.slots.len() as u32
    }

    /// The head and the size of the newest frame. `None` exactly where there are no frames.
    pub fn newest(&self) -> Option<(&H, u32)>
        ensures { MatchOption result
            (self.now.frames ≡ [])
            (λ p. newest_of self.now.frames ≡ Some (p.0.now, p.1)) }
    {
        let slot = self.slots.last()?;
        Some((&slot.head, slot.size))
    }

    /// The item of the newest frame that is `i`-th from its first, the first being 0. It has to be
    /// there.
    pub fn item(&self, i: u32) -> &T
        requires { IsSome (item_of self.now.frames i) }
        ensures { item_of self.now.frames i ≡ Some result.now }
    {
        let slot = &self.slots[self.slots.len() - 1];
        &self.items[slot.start + i as usize]
    }

    /// The head of the frame that is `i`-th from the newest, the newest being 0. It has to be there.
    pub fn head(&self, i: u32) -> &H
        requires { i < length self.now.frames }
        ensures { head_of self.now.frames i ≡ Some result.now }
    {
        let slot = &self.slots[self.slots.len() - 1 - i as usize];
        &slot.head
    }

    /// An item of the frame that is `frame`-th from the newest, the newest being 0. It has to be there.
    pub fn item_at(&self, frame: u32, item: u32) -> &T
        requires { IsSome (item_at self.now.frames frame item) }
        ensures { item_at self.now.frames frame item ≡ Some result.now }
    {
        let slot = &self.slots[self.slots.len() - 1 - frame as usize];
        &self.items[slot.start + item as usize]
    }

    /// Begins a new newest frame, without items. Its size is at least 1, so many cells are spare, and
    /// the frame before has all its items.
    pub fn begin(&mut self, head: H, size: u32)
        requires some { 1 ≤ size }
        requires room { sizes self.old.frames + size ≤ self.old.cells }
        requires full { IsNewestFull self.old.frames }
        ensures { self.new ≡ record self.old { frames = with_frame self.old.frames head size } }
    {
        let start = self.items.len();
        match self.slots.push(Slot { head, size, start }) {
            Ok(()) => {}
            Err(_) => unreachable!(),
        }
        self.used += size;
    }

    /// One more item for the newest frame, which has fewer than its size.
    pub fn push(&mut self, item: T)
        requires { IsNewestOpen self.old.frames }
        ensures { self.new ≡ record self.old { frames = with_item self.old.frames item } }
    {
        match self.items.push(item) {
            Ok(()) => {}
            Err(_) => unreachable!(),
        }
    }

    /// Takes the last item of the newest frame, which has one.
    pub fn pop(&mut self) -> T
        requires { HasNewestItem self.old.frames }
        ensures { self.old ≡ record self.new { frames = with_item self.new.frames result } }
    {
        match self.items.pop() {
            Some(item) => item,
            None => unreachable!(),
        }
    }

    /// Takes away the newest frame, which has no items, and gives its head.
    pub fn finish(&mut self) -> H
        requires { IsNewestEmpty self.old.frames }
        ensures head { newest_head self.old.frames ≡ Some result }
        ensures left { self.new ≡ record self.old { frames = older self.old.frames } }
    {
        match self.slots.pop() {
            Some(slot) => {
                self.used -= slot.size;
                slot.head
            }
            None => unreachable!(),
        }
    }
}
