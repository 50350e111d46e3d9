//! The memory of a start: its spans, and the words in it.
ghost use Rattle.std.specs.Prelude.{◌≡◌, ◌++◌, ℕ, map, Some, None, IfOk, OnOk};
ghost use Rattle.std.specs.List.Sorted.{IsPermutation, IsNonDecreasingBy};
ghost use Rattle.std.specs.Option.{option_to_list};
ghost use Rattle.lcm_machine.specs.Cells.{cell};
ghost use Rattle.lcm_machine.specs.Spans.{zero_regs};
ghost use Rattle.linked_starts.specs.Regions.{addresses, part_regions, region_span, spans_with};
ghost use Rattle.linked_starts.specs.Regions.{stack_span, AreSpansOf};
ghost use Rattle.linked_starts.specs.Linked.{Linked};
ghost use Rattle.linked_starts.specs.Start.{start_cell, stack_base_of};

use crate::laying::lay_parts;
use crate::placed::{Placed, PlacedParts};
use lcm_machine::{LcmState, Span};
use std::alloc::{AllocError, Global};

/// The addresses of the stack: it begins at the first part's stack base.
pub(crate) fn stack_of(parts: &PlacedParts<'_>, size: u32) -> Span
    requires { Linked parts.now size }
    ensures is { stack_span parts.now size ≡ Some result }
    ensures ends { result ≡ addresses (stack_base_of parts.now) size }
{
    let base = parts.part(0).stack_base();
    let end = base + size - 1;
    Span { base, end }
}

fn push_span(spans: &mut Vec<Span>, span: Option<Span>) -> Result<(), AllocError>
    ensures { OnOk result (spans.new.items ≡ spans.old.items ++ option_to_list span) }
{
    if let Some(span) = span {
        spans.push(span)?;
    }
    Ok(())
}

// The spans of a part's regions.
fn push_part(spans: &mut Vec<Span>, part: &Placed<'_>) -> Result<(), AllocError>
    ensures { OnOk result (spans.new.items ≡ spans.old.items ++ map region_span (part_regions part.now)) }
{
    let [code, words, linear] = part.spans();
    push_span(spans, code)?;
    push_span(spans, words)?;
    push_span(spans, linear)
}

// The spans of all regions of the parts, in their order, and of the stack.
fn spans_of(alloc: Global, parts: &PlacedParts<'_>, stack: Span) -> Result<Vec<Span>, AllocError>
    ensures { IfOk result (λ spans. spans.items ≡ spans_with parts.now stack) }
{
    let mut spans = Vec::new(alloc);
    for index in 0..parts.len() {
        push_part(&mut spans, &parts.part(index))?;
    }
    spans.push(stack)?;
    Ok(spans)
}

// The spans of all regions, ascending.
fn sorted_spans(
    alloc: Global,
    parts: &PlacedParts<'_>,
    stack: Span,
) -> Result<Vec<Span>, AllocError>
    ensures same { IfOk result (λ spans. IsPermutation (spans_with parts.now stack) spans.items) }
    ensures ascend { IfOk result (λ spans. IsNonDecreasingBy (λ s. s.base) spans.items) }
{
    let mut spans = spans_of(alloc, parts, stack)?;
    spans.sort_by_key(|span| span.base)?;
    Ok(spans)
}

/// A machine with the words of the parts in its cells, and integer 0 in every register.
pub(crate) fn memory(
    alloc: Global,
    parts: &PlacedParts<'_>,
    size: u32,
) -> Result<LcmState, AllocError>
    requires { Linked parts.now size }
    ensures cells { IfOk result (λ s. (a : ℕ) → cell s.maps.cells a ≡ start_cell parts.now size a) }
    ensures spans { IfOk result (λ s. AreSpansOf parts.now size s.maps.spans) }
    ensures regs { IfOk result (λ s. s.maps.regs ≡ zero_regs (λ w. w)) }
    ensures fresh { IfOk result (λ s. (s.count ≡ 0) × (s.end ≡ None)) }
{
    let spans = sorted_spans(alloc, parts, stack_of(parts, size))?;
    let mut state = LcmState::make(alloc, &spans)?;
    lay_parts(&mut state, parts);
    Ok(state)
}
