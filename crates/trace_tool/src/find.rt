//! Looking up sites and parts.
ghost use Rattle.std.specs.Prelude.{◌≡◌, ◌==◌, ◌<◌, ◌≤◌, find, slice_get, length};
ghost use Rattle.std.specs.List.{AllPairs};
ghost use Rattle.std.specs.Option.{option_copied};
ghost use Rattle.cap_words.specs.Face.{FaceInOrder};
ghost use Rattle.linked_starts.specs.Owners.{AreLaid};
ghost use Rattle.cap_words.specs.declared.TheConstants.{LONGEST_NAME};
ghost use Rattle.trusted_border.specs.Layout.{runs_part, trusted_owner, trusted_at, number_of, site_at};
ghost use Rattle.trusted_border.specs.Reaches.{closure_owner, site_of_seal};
ghost use Rattle.run_lines.specs.Layout.{layout, site_word, site_before, part_name, entry_name, site_of};

use cap_words::{CapFields, Face};
use linked_starts::{Entry, Owner, Site, Start};
use trusted_border::reach::{numbered, owner_closed, runs_part, site_sealed};

// The number of the site whose call begins at an address.
fn site_at(start: &Start, at: u32) -> Option<u32>
    ensures { result ≡ site_at (layout start.now) at }
{
    numbered(start.site_list().place_at(at)?)
}

fn site_before(start: &Start, offset: u32, at: u32) -> Option<u32>
    ensures { result ≡ site_before (layout start.now) offset at }
{
    if offset <= at {
        site_at(start, at - offset)
    } else {
        None
    }
}

// The trusted part whose code a capability runs, by halving.
fn owner_running(owners: &[Owner], c: CapFields) -> Option<&Owner>
    requires { AllPairs (λ o q. o.code.base < q.code.base) owners.now }
    ensures { option_copied result ≡ find (runs_part c) owners.now }
{
    match owners.binary_search_by_key(&c.base, |owner| owner.code.base) {
        Ok(place) => {
            let owner = &owners[place];
            if runs_part(&c, owner) {
                Some(owner)
            } else {
                None
            }
        }
        Err(_) => None,
    }
}

/// The trusted part whose code pc runs.
pub(crate) fn trusted_owner(start: &Start, pc: Face) -> Option<&Owner>
    ensures { option_copied result ≡ trusted_owner (layout start.now) pc }
{
    let Face::Memory(c) = pc else {
        return None;
    };
    start.is_laid();
    owner_running(start.owners(), c)
}

/// The trusted part of a closure seal.
pub(crate) fn closure_owner(start: &Start, seal: u32) -> Option<&Owner>
    ensures { option_copied result ≡ closure_owner (layout start.now) seal }
{
    owner_closed(start.owners(), seal)
}

/// The site of a return seal.
pub(crate) fn site_of_seal(start: &Start, seal: u32) -> Option<u32>
    ensures { result ≡ site_of_seal (layout start.now) seal }
{
    site_sealed(start.site_list(), seal)
}

/// The site whose word of this offset pc names, where pc is trusted.
#[tactic(auto, unfolding(run_lines::specs::Layout::site_word))]
pub(crate) fn site_word(start: &Start, offset: u32, pc: Face) -> Option<u32>
    requires { FaceInOrder pc }
    ensures { result ≡ site_word (layout start.now) offset pc }
{
    if trusted_owner(start, pc).is_none() {
        return None;
    }
    let at = pc.target()?;
    site_before(start, offset, at)
}

fn numbered_owner(owners: &[Owner], part: u32) -> Option<&Owner>
    ensures { option_copied result ≡ find (λ o. o.part == part) owners.now }
{
    owners.iter().find(|owner| owner.part == part)
}

/// The name of a part.
#[tactic(auto, unfolding(run_lines::specs::Layout::part_name))]
pub(crate) fn part_name(start: &Start, part: u32) -> &[u8]
    ensures is { result.now ≡ part_name (layout start.now) part }
    ensures short { length result.now ≤ LONGEST_NAME }
{
    start.is_laid();
    match numbered_owner(start.owners(), part) {
        Some(owner) => owner.name.as_slice(),
        None => &[],
    }
}

fn entry_at(entries: &[Entry], entry: u32) -> Option<&Entry>
    ensures { option_copied result ≡ slice_get entries.now entry }
{
    entries.get(entry as usize)
}

/// The name of an entry of a part.
#[tactic(auto, unfolding(run_lines::specs::Layout::entry_name))]
pub(crate) fn entry_name(start: &Start, part: u32, entry: u32) -> &[u8]
    ensures is { result.now ≡ entry_name (layout start.now) part entry }
    ensures short { length result.now ≤ LONGEST_NAME }
{
    start.is_laid();
    let Some(owner) = numbered_owner(start.owners(), part) else {
        return &[];
    };
    match entry_at(owner.entries.as_slice(), entry) {
        Some(entry) => entry.name.as_slice(),
        None => &[],
    }
}

/// The site of a number.
#[tactic(auto, unfolding(run_lines::specs::Layout::site_of))]
pub(crate) fn site_of(start: &Start, site: u32) -> Site
    ensures { result ≡ site_of (layout start.now) site }
{
    match start.sites().get(site as usize) {
        Some(site) => *site,
        None => {
            Site {
                part: 0,
                index: 0,
                seal: 0,
                at: 0,
            }
        }
    }
}
