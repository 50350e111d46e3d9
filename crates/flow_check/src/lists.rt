//! The rules of the lists of sites, exports and declared rows: K1 to K4.
ghost use Rattle.std.specs.Prelude.{◌≡◌, ◌<◌, ◌≤◌, ◌+◌, ◌^◌, length, None, [], ◌∷◌};
ghost use Rattle.component_file.specs.Limits.{IsComponent};
ghost use Rattle.component_check.specs.declared.rule.Group.TheVariants.{K};
ghost use Rattle.component_check.specs.RuleText.{broken_at};
ghost use Rattle.component_check.specs.Places.{first_place};
ghost use Rattle.component_check.specs.Verdict.{check_from};
ghost use Rattle.call_sequence.specs.Lists.{k1, k2, k3, k4, site_is_bad, overlap, meets_entry, meets_site};
ghost use Rattle.call_sequence.specs.Lists.{entry_is_bad, least_of, row_offset, of_entry, is_misplaced};
ghost use Rattle.call_sequence.specs.Lists.{lists};

use crate::places::in_site;
use call_sequence::{ENTRY_WORDS, SITE_WORDS, is_entry, site_difference};
use component_check::{Broken, Group, kept};
use component_file::{Component, ComponentFields};

fn site_is_bad(c: &ComponentFields, i: usize) -> bool
    requires { i < length c.now.sites }
    ensures { result ≡ site_is_bad c.now i }
{
    let sites = c.sites.as_slice();
    let at = u64::from(sites[i]);
    if (c.code.as_slice().len() as u64) < at + u64::from(SITE_WORDS) {
        return true;
    }
    0 < i && at < u64::from(sites[i - 1]) + u64::from(SITE_WORDS)
}

#[tactic(auto, unfolding(call_sequence::specs::Lists::k1))]
fn k1(c: &ComponentFields) -> Option<u32>
    requires { IsComponent c.now }
    ensures { result ≡ first_place (k1 c.now) }
{
    let sites = c.sites.as_slice();
    for i in 0..sites.len() {
        if site_is_bad(c, i) {
            return Some(sites[i]);
        }
    }
    None
}

// The first word of a site that isn't the one of a call and a return. Where K1 is kept, the code has
// room for all words of a site.
#[tactic(auto, unfolding(call_sequence::specs::Lists::k2))]
fn k2(c: &Component) -> Option<u32>
    requires fits { IsComponent c.now }
    requires placed { first_place (k1 c.now) ≡ None }
    ensures { result ≡ first_place (k2 c.now) }
{
    for i in 0..c.fields().sites.as_slice().len() {
        let difference = site_difference(c, i as u32);
        if difference.is_some() {
            return difference;
        }
    }
    None
}

fn overlap(a: u32, size: u32, b: u32, many: u32) -> bool
    ensures { result ≡ overlap a size b many }
{
    u64::from(a) < u64::from(b) + u64::from(many) && u64::from(b) < u64::from(a) + u64::from(size)
}

fn meets_entry(c: &ComponentFields, at: u32) -> bool
    ensures { result ≡ meets_entry c.now at }
{
    c.exports.as_slice().iter().any(|e| e.offset != at
        && overlap(e.offset, ENTRY_WORDS, at, ENTRY_WORDS))
}

fn meets_site(c: &ComponentFields, at: u32) -> bool
    ensures { result ≡ meets_site c.now at }
{
    c.sites
        .as_slice()
        .iter()
        .any(|s| overlap(*s, SITE_WORDS, at, ENTRY_WORDS))
}

#[tactic(auto, unfolding(call_sequence::specs::Lists::entry_is_bad))]
fn entry_is_bad(c: &Component, at: u32) -> bool
    ensures { result ≡ entry_is_bad c.now at }
{
    if !is_entry(c, at) {
        return true;
    }
    let c = c.fields();
    meets_entry(c, at) || meets_site(c, at)
}

// The smaller of two offsets, the first of which may be missing.
fn least_of(least: Option<u32>, at: u32) -> u32
    ensures { result ≡ least_of least at }
{
    match least {
        Some(least) => least.min(at),
        None => at,
    }
}

fn k3(c: &Component) -> Option<u32>
    ensures { result ≡ first_place (k3 c.now) }
{
    let exports = c.fields().exports.as_slice();
    let mut least = None;
    for e in exports {
        if entry_is_bad(c, e.offset) {
            least = Some(least_of(least, e.offset));
        }
    }
    least
}

#[tactic(auto, unfolding(call_sequence::specs::Lists::of_entry))]
fn of_entry(c: &ComponentFields, at: u32) -> bool
    ensures { result ≡ of_entry c.now at }
{
    c.exports.as_slice().iter().any(|e| {
        e.offset <= at && u64::from(at) < u64::from(e.offset) + u64::from(ENTRY_WORDS)
    })
}

#[tactic(auto, unfolding(call_sequence::specs::Lists::is_misplaced))]
fn is_misplaced(c: &ComponentFields, at: u32) -> bool
    requires { IsComponent c.now }
    ensures { result ≡ is_misplaced c.now at }
{
    if c.code.as_slice().len() <= at as usize {
        return true;
    }
    of_entry(c, at) || in_site(c, at)
}

fn row_offset(c: &ComponentFields, i: usize) -> u32
    requires { i < length c.now.rows }
    ensures { result ≡ row_offset c.now i }
{
    c.rows.as_slice()[i].offset
}

#[tactic(auto, unfolding(call_sequence::specs::Lists::k4))]
fn k4(c: &ComponentFields) -> Option<u32>
    requires { IsComponent c.now }
    ensures { result ≡ first_place (k4 c.now) }
{
    for i in 0..c.rows.as_slice().len() {
        let offset = row_offset(c, i);
        if is_misplaced(c, offset) {
            return Some(offset);
        }
    }
    None
}

// K1 and K2. Where K1 holds, the code has room for each site's words.
fn check_sites(c: &Component) -> Result<(), Broken>
    ensures { result ≡ check_from (broken_at K) 1 (k1 c.now ∷ k2 c.now ∷ []) }
{
    match k1(c.fields()) {
        Some(place) => kept(Group::K, 1, Some(place)),
        None => kept(Group::K, 2, k2(c)),
    }
}

/// The first rule of K1 to K4 that is broken, at its first place.
pub(crate) fn check_lists(c: &Component) -> Result<(), Broken>
    ensures { result ≡ check_from (broken_at K) 1 (lists c.now) }
{
    check_sites(c)?;
    kept(Group::K, 3, k3(c))?;
    kept(Group::K, 4, k4(c.fields()))
}
