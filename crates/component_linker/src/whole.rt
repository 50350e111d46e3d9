//! Rules L6, L8 and L9, of all parts together: one `main`, a stack that fits, and not too many.
ghost use Rattle.std.specs.Prelude.{◌≡◌, ◌<◌, ◌≤◌, ◌+◌, ◌==◌, ◌&&◌, nat_le, nat_lt, length, take, sum_by};
ghost use Rattle.std.specs.Prelude.{if◌then◌else◌};
ghost use Rattle.std.specs.List.{list_any};
ghost use Rattle.linked_starts.specs.Start.{is_main, stack_base_of};
ghost use Rattle.linked_starts.specs.Regions.{is_stack_size};
ghost use Rattle.linked_starts.specs.Links.{has_main, trusted_sites, are_few, sites_upto};

use crate::names::is_main;
use crate::placed::{Placed, PlacedParts, is_stack_size};
use cap_words::LAST_PLACE;
use component_file::MOST_SITES;
use linked_starts::MOST_PARTS;

fn has_main(part: &Placed) -> bool
    ensures { result ≡ list_any is_main part.now.component.exports }
{
    part.exports().iter().any(|e| is_main(e))
}

/// Whether one of the first parts has a shared export main.
pub(crate) fn main_before(parts: &PlacedParts, count: usize) -> bool
    requires { count ≤ length parts.now }
    ensures { result ≡ list_any has_main (take count parts.now) }
{
    for i in 0..count {
        if has_main(&parts.part(i)) {
            return true;
        }
    }
    false
}

/// Whether the stack is of a size that there may be, and ends where there are addresses.
pub(crate) fn stack_fits(parts: &PlacedParts, stack: u32) -> bool
    ensures { result ≡ (is_stack_size stack && nat_le (stack_base_of parts.now + stack) (LAST_PLACE + 1)) }
{
    is_stack_size(stack) && parts.stack_base() + stack <= LAST_PLACE + 1
}

// The sites of the trusted ones of the first parts.
fn sites_of_first(parts: &PlacedParts, count: usize) -> u32
    requires in_parts { count ≤ length parts.now }
    requires few { count ≤ MOST_PARTS }
    ensures is { result ≡ sum_by trusted_sites (take count parts.now) }
{
    let mut sum = 0u32;
    for i in 0..count {
        sum += parts.part(i).trusted_sites() as u32;
    }
    sum
}

/// Whether there are too many parts, at part 16, or trusted ones have too many sites up to a part.
pub(crate) fn are_too_many(parts: &PlacedParts, i: usize) -> bool
    requires { i < length parts.now }
    ensures { result
        ≡ (if are_few parts.now then nat_lt MOST_SITES (sites_upto parts.now i) else i == MOST_PARTS) }
{
    if parts.len() > MOST_PARTS {
        return i == MOST_PARTS;
    }
    u32::from(MOST_SITES) < sites_of_first(parts, i + 1)
}

/// How many parts there are, where they are too many; else how many sites trusted ones have up to a part.
pub(crate) fn how_many(parts: &PlacedParts, i: usize) -> u32
    requires { i < length parts.now }
    ensures { result ≡ (if are_few parts.now then sites_upto parts.now i else length parts.now) }
{
    if parts.len() > MOST_PARTS {
        return parts.len() as u32;
    }
    sites_of_first(parts, i + 1)
}
