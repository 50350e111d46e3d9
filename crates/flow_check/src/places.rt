//! Where entries, sites and declared rows stand in the code.
//!
//! Sites and declared rows ascend, so one is found by halving. Exports stand in the order of their
//! names: an entry is looked for among all of them, of which there are at most 1,024.
ghost use Rattle.std.specs.Prelude.{◌≡◌, ◌<◌, ◌≤◌, ◌+◌, ◌^◌, length};
ghost use Rattle.component_file.specs.Limits.{IsComponent};
ghost use Rattle.call_sequence.specs.Places.{begins_entry, begins_site, is_behind, in_site, declared};
ghost use Rattle.call_sequence.specs.Ascending.{IsSplitAt};

use call_sequence::{Row, SITE_WORDS};
use component_file::{ComponentFields, KindRow};

/// Whether an export begins here.
#[tactic(auto, unfolding(call_sequence::specs::Places::begins_entry))]
pub(crate) fn begins_entry(c: &ComponentFields, at: u32) -> bool
    ensures { result ≡ begins_entry c.now at }
{
    c.exports.as_slice().iter().any(|e| e.offset == at)
}

// Whether the offset is one of so many words after the first.
fn is_behind(first: u32, size: u32, at: u32) -> bool
    ensures { result ≡ is_behind first size at }
{
    first < at && u64::from(at) < u64::from(first) + u64::from(size)
}

// How many sites begin before this offset.
fn sites_before(c: &ComponentFields, at: u32) -> usize
    requires { IsComponent c.now }
    ensures { IsSplitAt (λ s. s) at c.now.sites result }
{
    c.sites.as_slice().partition_point(|s| *s < at)
}

/// Whether a site begins here.
pub(crate) fn begins_site(c: &ComponentFields, at: u32) -> bool
    requires { IsComponent c.now }
    ensures { result ≡ begins_site c.now at }
{
    let sites = c.sites.as_slice();
    let before = sites_before(c, at);
    if sites.len() <= before {
        return false;
    }
    sites[before] == at
}

/// Whether the offset lies within a site, past its first word.
pub(crate) fn in_site(c: &ComponentFields, at: u32) -> bool
    requires { IsComponent c.now }
    ensures { result ≡ in_site c.now at }
{
    let before = sites_before(c, at);
    if before == 0 {
        return false;
    }
    is_behind(c.sites.as_slice()[before - 1], SITE_WORDS, at)
}

// How many rows are declared before this offset.
fn rows_before(c: &ComponentFields, at: u32) -> usize
    requires { IsComponent c.now }
    ensures { IsSplitAt (λ (r : KindRow). r.offset) at c.now.rows result }
{
    c.rows.as_slice().partition_point(|r| r.offset < at)
}

/// The row that is declared here.
pub(crate) fn declared(c: &ComponentFields, at: u32) -> Option<Row>
    requires { IsComponent c.now }
    ensures { result ≡ declared c.now at }
{
    let rows = c.rows.as_slice();
    let before = rows_before(c, at);
    if rows.len() <= before {
        return None;
    }
    if rows[before].offset == at {
        Some(rows[before].kinds)
    } else {
        None
    }
}
