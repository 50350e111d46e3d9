//! Rule L1: regions don't overlap, nor touch.
ghost use Rattle.std.specs.Prelude.{◌≡◌, ◌<◌, ◌≤◌, take, length, slice_index_or, None};
ghost use Rattle.std.specs.List.{list_any};
ghost use Rattle.linked_starts.specs.Links.{near, near_before};

use crate::placed::PlacedParts;
use lcm_machine::Span;

// Whether no address is between two spans, or they share one.
fn near(a: Option<Span>, b: Option<Span>) -> bool
    ensures { result ≡ near a b }
{
    let Some(a) = a else {
        return false;
    };
    let Some(b) = b else {
        return false;
    };
    a.base as u64 <= b.end as u64 + 1 && b.base as u64 <= a.end as u64 + 1
}

fn near_any(spans: &[Option<Span>], s: Option<Span>) -> bool
    ensures { result ≡ list_any (near s) spans.now }
{
    spans.iter().any(|t| near(s, *t))
}

/// Whether a span is near one of the first parts or one of its own part's.
pub(crate) fn near_before(
    parts: &PlacedParts,
    count: usize,
    own: &[Option<Span>],
    s: Option<Span>,
) -> bool
    requires { count ≤ length parts.now }
    ensures { result ≡ near_before (take count parts.now) own.now s }
{
    for i in 0..count {
        if near_any(&parts.part(i).spans(), s) {
            return true;
        }
    }
    near_any(own, s)
}

/// Whether the span of an index is near one of the first parts or one before it in its own part.
pub(crate) fn comes_near(
    parts: &PlacedParts,
    count: usize,
    spans: &[Option<Span>],
    k: usize,
) -> bool
    requires in_parts { count ≤ length parts.now }
    requires in_part { k < length spans.now }
    ensures { result
        ≡ near_before (take count parts.now) (take k spans.now) (slice_index_or spans.now k None) }
{
    near_before(parts, count, &spans[..k], spans[k])
}
