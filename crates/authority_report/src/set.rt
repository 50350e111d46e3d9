//! Sets of places.
ghost use Rattle.std.specs.Prelude.{◌≡◌, ◌≢◌, ◌≤◌, ◌<◌, ◌+◌, ◌||◌, ◌&&◌, ℕ, true, false, nat_le, length};
ghost use Rattle.std.specs.Prelude.{slice_index, if◌then◌else◌, IfOk, OnOk, OnErr, IfSome, IfNone};
ghost use Rattle.authority_report.specs.Has.{has};
ghost use Rattle.authority_report.specs.Takes.{is_left, Takes, TakesFront};
ghost use Rattle.authority_report.specs.Stretches.{AreStretches};

use cap_words::{Items, LAST_PLACE};
use std::alloc::{AllocError, Global};
use std::marker::Model;

/// The places from a first one to a last one.
#[derive(Clone, Copy)]
pub struct Stretch {
    pub base: u32,
    pub end: u32,
}

/// A set of places, of which all are free at first. A stretch that was taken is passed over in one
/// step.
#[derive(Drop)]
pub struct PlaceSet {
    // For each place the one from which on to look for a free one: itself where it is free.
    next: Vec<u32>,
}

impl Model for PlaceSet {
    ghost use Rattle.std.specs.Prelude.{List, ℕ};
    ghost use Rattle.authority_report.specs.Has.{IsSet};

    ghost Value = { List ℕ };

    ghost view = { λ s. s.next.items };

    ghost invariant = { λ s. IsSet s.next.items };
}

// The places from base to last lead after last.
fn fill(next: &mut [u32], base: u32, last: u32)
    requires some { base ≤ last }
    requires inside { last < length next.old }
    requires in_space { last ≤ LAST_PLACE }
    ensures { (b : ℕ) → slice_index next.new b
        ≡ (if nat_le base b && nat_le b last then last + 1 else slice_index next.old b) }
{
    for at in base..=last {
        next[at as usize] = last + 1;
    }
}

impl PlaceSet {
    /// The set of no places. Memory may be refused.
    pub fn new(alloc: Global) -> Result<PlaceSet, AllocError>
        ensures { IfOk result (λ s. (a : ℕ) → has s a ≡ false) }
    {
        let mut next = Vec::with_capacity(alloc, LAST_PLACE as usize + 1)?;
        for at in 0..=LAST_PLACE {
            next.push(at)?;
        }
        Ok(PlaceSet { next })
    }

    /// Whether the place is in the set.
    pub fn has(&self, at: u32) -> bool
        requires { at ≤ LAST_PLACE }
        ensures { result ≡ has self.now at }
    {
        at < self.next[at as usize]
    }

    /// This does nothing: its contract is that no place past the last is in a set.
    pub fn ends(&self)
        ensures { (a : ℕ) → LAST_PLACE < a → has self.now a ≡ false }
    {
        let _ = &self.next;
    }

    // Passes over a place of the set: it leads from now on to where the place leads to which it led.
    fn pass(&mut self, at: u32) -> u32
        requires inside { at ≤ LAST_PLACE }
        requires taken { has self.old at ≡ true }
        ensures same { (a : ℕ) → has self.new a ≡ has self.old a }
        ensures on { at < result }
        ensures passed { (a : ℕ) → at ≤ a → a < result → has self.old a ≡ true }
    {
        let next = self.next[at as usize];
        if next > LAST_PLACE {
            return next;
        }
        let further = self.next[next as usize];
        self.next[at as usize] = further;
        further
    }

    // The first free place of a stretch.
    fn first_free(&mut self, from: u32, end: u32) -> Option<u32>
        requires { end ≤ LAST_PLACE }
        ensures same { (a : ℕ) → has self.new a ≡ has self.old a }
        ensures none { IfNone result ((a : ℕ) → from ≤ a → a ≤ end → has self.old a ≡ true) }
        ensures some { IfSome result (λ p. (from ≤ p) × (p ≤ end) × (has self.old p ≡ false)) }
        ensures before { IfSome result (λ p. (a : ℕ) → from ≤ a → a < p → has self.old a ≡ true) }
    {
        let mut at = from;
        while at <= end {
            if !self.has(at) {
                return Some(at);
            }
            at = self.pass(at);
        }
        None
    }

    // The last place up to which all places of the stretch are free.
    fn free_end(&self, from: u32, end: u32) -> u32
        requires some { from ≤ end }
        requires inside { end ≤ LAST_PLACE }
        requires free { has self.now from ≡ false }
        ensures within { (from ≤ result) × (result ≤ end) }
        ensures free { (a : ℕ) → from ≤ a → a ≤ result → has self.now a ≡ false }
        ensures maximal { result < end → has self.now (result + 1) ≡ true }
    {
        for at in from..end {
            if self.has(at + 1) {
                return at;
            }
        }
        end
    }

    // The first free places of a stretch that stand together, as many as there are.
    fn first_run(&mut self, from: u32, end: u32) -> Option<Stretch>
        requires { end ≤ LAST_PLACE }
        ensures same { (a : ℕ) → has self.new a ≡ has self.old a }
        ensures none { IfNone result ((a : ℕ) → from ≤ a → a ≤ end → has self.old a ≡ true) }
        ensures within { IfSome result (λ s. (from ≤ s.base) × (s.base ≤ s.end) × (s.end ≤ end)) }
        ensures before { IfSome result (λ s. (a : ℕ) → from ≤ a → a < s.base → has self.old a ≡ true) }
        ensures free { IfSome result (λ s. (a : ℕ) → s.base ≤ a → a ≤ s.end → has self.old a ≡ false) }
        ensures maximal { IfSome result (λ s. s.end < end → has self.old (s.end + 1) ≡ true) }
    {
        let base = self.first_free(from, end)?;
        let last = self.free_end(base, end);
        Some(Stretch { base, end: last })
    }

    // Takes the places of a run into the set.
    fn take_run(&mut self, run: Stretch)
        requires some { run.base ≤ run.end }
        requires inside { run.end ≤ LAST_PLACE }
        ensures { (a : ℕ) → has self.new a ≡ ((nat_le run.base a && nat_le a run.end) || has self.old a) }
    {
        fill(self.next.as_mut_slice(), run.base, run.end);
    }

    /// Takes all places of a stretch into the set.
    pub fn add(&mut self, base: u32, end: u32)
        requires { end ≤ LAST_PLACE }
        ensures { (a : ℕ) → has self.new a ≡ ((nat_le base a && nat_le a end) || has self.old a) }
    {
        let mut from = base;
        while from <= end {
            let Some(run) = self.first_run(from, end) else {
                return;
            };
            self.take_run(run);
            from = run.end + 1;
        }
    }

    /// Takes all places of a stretch into the set, and leaves those that are new in a list. Where memory is
    /// refused, it has done so with the places before some place of the stretch.
    pub fn take_all(
        &mut self,
        base: u32,
        end: u32,
        left: &mut Vec<Stretch>,
    ) -> Result<(), AllocError>
        requires { end ≤ LAST_PLACE }
        ensures all { OnOk result (Takes (λ a. nat_le base a && nat_le a end) self.old left.old.items
            self.new left.new.items) }
        ensures front { OnErr result (TakesFront base end self.old left.old.items
            self.new left.new.items) }
    {
        let mut from = base;
        while from <= end {
            let Some(run) = self.first_run(from, end) else {
                return Ok(());
            };
            left.push(run)?;
            self.take_run(run);
            from = run.end + 1;
        }
        Ok(())
    }

    // The last place up to which all places from one on are in the set, or none is.
    fn same_end(&self, from: u32, is: bool) -> u32
        requires inside { from ≤ LAST_PLACE }
        requires here { is ≡ has self.now from }
        ensures within { (from ≤ result) × (result ≤ LAST_PLACE) }
        ensures same { (a : ℕ) → from ≤ a → a ≤ result → is ≡ has self.now a }
        ensures maximal { result < LAST_PLACE → is ≢ has self.now (result + 1) }
    {
        for at in from..LAST_PLACE {
            if self.has(at + 1) != is {
                return at;
            }
        }
        LAST_PLACE
    }

    /// The stretches of the set: maximal, disjoint, ascending.
    pub fn stretches(&self, alloc: Global) -> Result<Items<Stretch>, AllocError>
        ensures are { IfOk result (λ list. (a : ℕ) → is_left list a ≡ has self.now a) }
        ensures tidy { IfOk result AreStretches }
    {
        self.ends();
        let mut list = Vec::new(alloc);
        let mut at = 0;
        while at <= LAST_PLACE {
            let is = self.has(at);
            let end = self.same_end(at, is);
            if is {
                list.push(Stretch { base: at, end })?;
            }
            at = end + 1;
        }
        Ok(Items::of(list))
    }
}
