//! Memory: a cell at some of the addresses 0 to 1,048,575, kept by spans.
ghost use Rattle.std.specs.Prelude.{◌≡◌, ◌≤◌, ◌<◌, ◌+◌, ◌^◌, IfOk, IfSome, IfNone, IsTrue, IsSome, is_some};
ghost use Rattle.std.specs.Prelude.{Some, None, option_copied, map, false, ℕ};
ghost use Rattle.lcm_machine.specs.Cells.{cell, set_cell, drop_cell, set_slot, cells_of, AreSlotsOf};
ghost use Rattle.lcm_machine.specs.Spans.{in_spans, AreSpans, IsNear, StandsAt, slot, zero_part};

use crate::parts::Slots;
use cap_words::MachineWord;
use std::alloc::{AllocError, Global};
use std::marker::Model;

/// The addresses from `base` to `end`, both included.
#[derive(Clone, Copy)]
pub struct Span {
    pub base: u32,
    pub end: u32,
}

/// Where the cell of an address stands: the number of its span, and its number there.
#[derive(Clone, Copy)]
pub struct Spot {
    pub part: usize,
    pub slot: usize,
}

/// A span as it is remembered: its first address, how many it has, and its number. A base and a
/// count of 0 say that none is remembered.
#[derive(Clone, Copy)]
pub struct Near {
    pub base: u32,
    pub count: u32,
    pub part: usize,
}

// No span.
const NOWHERE: Near = Near {
    base: 0,
    count: 0,
    part: 0,
};

/// The cells of a machine, seen as the map from their addresses to their words, and the list of the
/// spans that they lie in.
///
/// Each span has a vector of cells of its own. The span of an address is found by halving, but that
/// of the last look-up of its kind is tried first.
#[derive(Drop)]
pub struct Cells<W> {
    spans: Vec<Span>,
    parts: Vec<Slots<W>>,
    // The span that was last fetched from.
    fetched: Near,
    // The span that was last loaded from or stored to.
    used: Near,
}

impl<W> Model for Cells<W> {
    ghost use Rattle.std.specs.Ordering.{nat_cmp};
    ghost use Rattle.std.specs.FinMap as map;
    ghost use Rattle.std.specs.Coded.{codes, coded_ℕ};
    ghost use Rattle.lcm_machine.specs.Cells.{cells_of, AreSlotsOf};
    ghost use Rattle.lcm_machine.specs.Spans.{AreSpans, IsNear};
    ghost use Rattle.lcm_machine.specs.Maps.{Memory};

    ghost Value = { Memory W };

    ghost coded = { Prim.hlevel (codes, map.code {R = nat_cmp} coded_ℕ W.code) };

    ghost view = { λ c. record { words = cells_of c.spans.items c.parts.items; spans = c.spans.items } };

    ghost invariant = { λ c. AreSpans 0 c.spans.items × AreSlotsOf c.spans.items c.parts.items
        × IsNear c.spans.items c.fetched × IsNear c.spans.items c.used };
}

// The span that an address lies in, found by halving.
fn search(spans: &[Span], at: u32) -> Option<Near>
    requires { AreSpans 0 spans.now }
    ensures near { IfSome result (IsNear spans.now) }
    ensures here { IfSome result (λ near. (near.base ≤ at) × (at < near.base + near.count)) }
    ensures none { IfNone result (in_spans at spans.now ≡ false) }
{
    let after = spans.partition_point(|span| span.base <= at);
    if after == 0 {
        return None;
    }
    let part = after - 1;
    let span = spans[part];
    if at > span.end {
        return None;
    }
    Some(Near {
        base: span.base,
        count: span.end - span.base + 1,
        part,
    })
}

// Remembers the span that an address lies in. Whether there is one. It is compiled apart, since the
// span that is remembered nearly always serves.
#[inline(never)]
fn remember(spans: &[Span], near: &mut Near, at: u32) -> bool
    requires spans { AreSpans 0 spans.now }
    requires near { IsNear spans.now near.old }
    ensures near { IsNear spans.now near.new }
    ensures here { IsTrue result → (near.new.base ≤ at) × (at < near.new.base + near.new.count) }
    ensures none { result ≡ false → in_spans at spans.now ≡ false }
{
    match search(spans, at) {
        Some(found) => {
            *near = found;
            true
        }
        None => false,
    }
}

impl Near {
    // Where an address stands, if it lies in this span. It is compared once: below the base the
    // difference wraps, to more than any span has.
    #[inline(always)]
    fn spot(self, at: u32) -> Option<Spot>
        requires { self.base + self.count ≤ 2 ^ 32 }
        ensures here { IfSome result (λ spot.
            (at < self.base + self.count) × (self.base + spot.slot ≡ at) × (spot.part ≡ self.part)) }
        ensures none { IfNone result (self.base ≤ at → self.base + self.count ≤ at) }
    {
        let slot = at.wrapping_sub(self.base);
        if slot < self.count {
            Some(Spot {
                part: self.part,
                slot: slot as usize,
            })
        } else {
            None
        }
    }
}

// Where an address stands. The span that is remembered is tried first, and then that of the address
// is remembered in its place.
#[inline(always)]
#[tactic(auto, using(crate::proofs::SpanLemmas::near_fits, crate::proofs::SpanLemmas::stands_near))]
fn seek_from(spans: &[Span], near: &mut Near, at: u32) -> Option<Spot>
    requires spans { AreSpans 0 spans.now }
    requires near { IsNear spans.now near.old }
    ensures near { IsNear spans.now near.new }
    ensures here { IfSome result (λ spot. StandsAt spans.now spot at) }
    ensures none { IfNone result (in_spans at spans.now ≡ false) }
{
    if let Some(spot) = near.spot(at) {
        return Some(spot);
    }
    if remember(spans, near, at) {
        near.spot(at)
    } else {
        None
    }
}

// The same, with nothing remembered.
#[inline(always)]
fn spot_of(spans: &[Span], near: Near, at: u32) -> Option<Spot>
    requires spans { AreSpans 0 spans.now }
    requires near { IsNear spans.now near }
    ensures here { IfSome result (λ spot. StandsAt spans.now spot at) }
    ensures none { IfNone result (in_spans at spans.now ≡ false) }
{
    let mut near = near;
    seek_from(spans, &mut near, at)
}

impl<W> Cells<W> {
    /// The spans, in the order in which they were given.
    pub fn spans(&self) -> &[Span]
        ensures are { result.now ≡ self.now.spans }
        ensures in_order { AreSpans 0 result.now }
    {
        self.spans.as_slice()
    }

    /// The word of the cell at an address, where it has one.
    #[inline(always)]
    #[tactic(auto, using(crate::proofs::SpanLemmas::cell_outside, crate::proofs::SpanLemmas::cell_in_span))]
    pub fn find(&self, at: u32) -> Option<&W>
        ensures is { option_copied result ≡ cell self.now.words at }
        ensures in_span { IsSome (cell self.now.words at) → IsTrue (in_spans at self.now.spans) }
    {
        let spot = spot_of(self.spans.as_slice(), self.used, at)?;
        self.find_in(spot, at)
    }

    /// The same, for an instruction that is fetched.
    #[inline(always)]
    #[tactic(auto, using(crate::proofs::SpanLemmas::cell_outside))]
    pub fn find_code(&self, at: u32) -> Option<&W>
        ensures { option_copied result ≡ cell self.now.words at }
    {
        let spot = spot_of(self.spans.as_slice(), self.fetched, at)?;
        self.find_in(spot, at)
    }

    /// Where an address stands, if it lies in a span, and else it has no cell. That span is remembered
    /// for the next look-up.
    #[inline(always)]
    #[tactic(auto, using(crate::proofs::SpanLemmas::cell_outside))]
    pub fn seek(&mut self, at: u32) -> Option<Spot>
        ensures here { IfSome result (λ spot. StandsAt self.old.spans spot at) }
        ensures none { IfNone result (in_spans at self.old.spans ≡ false) }
        ensures no_cell { IfNone result (cell self.old.words at ≡ None) }
        ensures same { self.new ≡ self.old }
    {
        seek_from(self.spans.as_slice(), &mut self.used, at)
    }

    /// The same, for an instruction that is fetched.
    #[inline(always)]
    #[tactic(auto, using(crate::proofs::SpanLemmas::cell_outside))]
    pub fn seek_code(&mut self, at: u32) -> Option<Spot>
        ensures here { IfSome result (λ spot. StandsAt self.old.spans spot at) }
        ensures none { IfNone result (in_spans at self.old.spans ≡ false) }
        ensures no_cell { IfNone result (cell self.old.words at ≡ None) }
        ensures same { self.new ≡ self.old }
    {
        seek_from(self.spans.as_slice(), &mut self.fetched, at)
    }

    /// The word of the cell at an address that stands there, where it has one.
    #[inline(always)]
    #[tactic(auto, using(crate::proofs::SpanLemmas::slot_rules))]
    pub fn find_in(&self, spot: Spot, at: u32) -> Option<&W>
        requires { StandsAt self.now.spans spot at }
        ensures { option_copied result ≡ cell self.now.words at }
    {
        self.parts[spot.part].get(spot.slot)
    }

    /// Whether the address has a cell.
    pub fn has(&self, at: u32) -> bool
        ensures is { result ≡ is_some (cell self.now.words at) }
        ensures in_span { IsTrue result → IsTrue (in_spans at self.now.spans) }
    {
        self.find(at).is_some()
    }

    /// The word of the cell at an address, which has to have one.
    #[inline(always)]
    pub fn get(&self, at: u32) -> &W
        requires { IsSome (cell self.now.words at) }
        ensures { cell self.now.words at ≡ Some result.now }
    {
        self.find(at).unwrap()
    }

    // Sets the slot of an address, which has a cell or lies in a span, and gives what it had.
    #[inline(always)]
    #[tactic(auto, using(crate::proofs::SpanLemmas::slot_rules))]
    fn swap_slot(&mut self, at: u32, slot: Option<W>) -> Option<W>
        requires { cell self.old.words at ≡ None → IsTrue (in_spans at self.old.spans) }
        ensures in_span { IsTrue (in_spans at self.old.spans) }
        ensures was { result ≡ cell self.old.words at }
        ensures now { self.new ≡ record self.old { words = set_slot self.old.words at slot } }
    {
        let Some(spot) = spot_of(self.spans.as_slice(), self.used, at) else {
            unreachable!();
        };
        self.parts[spot.part].swap(spot.slot, slot)
    }

    /// Sets the word of the cell at an address, which has to have one, and gives the word that was
    /// there.
    #[inline(always)]
    pub fn swap(&mut self, at: u32, word: W) -> W
        requires { IsSome (cell self.old.words at) }
        ensures was { cell self.old.words at ≡ Some result }
        ensures now { self.new ≡ record self.old { words = set_cell self.old.words at word } }
    {
        match self.swap_slot(at, Some(word)) {
            Some(was) => was,
            None => unreachable!(),
        }
    }

    /// Takes out the cell at an address, which has to have one, and gives its word.
    #[tactic(auto, using(crate::proofs::CellLemmas::cell_dropped))]
    pub fn remove(&mut self, at: u32) -> W
        requires { IsSome (cell self.old.words at) }
        ensures was { cell self.old.words at ≡ Some result }
        ensures now { self.new ≡ record self.old { words = drop_cell self.old.words at } }
        ensures gone { cell self.new.words at ≡ None }
        ensures in_span { IsTrue (in_spans at self.old.spans) }
    {
        match self.swap_slot(at, None) {
            Some(was) => was,
            None => unreachable!(),
        }
    }

    /// Puts in a cell at an address of a span that has none.
    pub fn insert(&mut self, at: u32, word: W)
        requires in_span { IsTrue (in_spans at self.old.spans) }
        requires none { cell self.old.words at ≡ None }
        ensures { self.new ≡ record self.old { words = set_cell self.old.words at word } }
    {
        match self.swap_slot(at, Some(word)) {
            Some(_) => unreachable!(),
            None => {}
        }
    }
}

// The cells of each span: integer 0.
fn zero_parts<W: MachineWord>(alloc: Global, spans: &[Span]) -> Result<Vec<Slots<W>>, AllocError>
    requires { AreSpans 0 spans.now }
    ensures { IfOk result (λ parts. parts.items ≡ map (zero_part W.plain) spans.now) }
{
    let mut parts = Vec::with_capacity(alloc, spans.len())?;
    for span in spans {
        parts.push(Slots::zeros(alloc, (span.end - span.base) as usize + 1)?)?;
    }
    Ok(parts)
}

impl<W: MachineWord> Cells<W> {
    /// A cell of integer 0 at each address of the spans, and no others. The spans ascend and are
    /// disjoint.
    pub fn zeros(alloc: Global, spans: &[Span]) -> Result<Cells<W>, AllocError>
        requires { AreSpans 0 spans.now }
        ensures cells { IfOk result (λ cells. (a : ℕ) → cell cells.words a ≡ slot W.plain spans.now a) }
        ensures spans { IfOk result (λ cells. cells.spans ≡ spans.now) }
    {
        let parts = zero_parts(alloc, spans)?;
        Ok(Cells {
            spans: spans.to_vec(alloc)?,
            parts,
            fetched: NOWHERE,
            used: NOWHERE,
        })
    }
}
