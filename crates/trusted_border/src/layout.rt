//! What is kept of a start, and what is found there.
ghost use Rattle.std.specs.Prelude.{◌≡◌, ◌==◌, ◌&&◌, ◌≤◌, ◌-◌, IfSome, find, slice_get};
ghost use Rattle.std.specs.List.{list_any};
ghost use Rattle.std.specs.Option.{option_copied};
ghost use Rattle.cap_words.specs.Face.{FaceInOrder};
ghost use Rattle.cap_words.specs.Ranges.{IsRange};
ghost use Rattle.trusted_border.specs.Layout.{runs_part, trusted_owner, trusted_at, numbered, site_at};
ghost use Rattle.trusted_border.specs.Layout.{has_entry_at, is_code, with_code, code_in, site_code};

use crate::reach::{numbered, runs_part};
use cap_words::{CapFields, Face, Items, LAST_PLACE};
use lcm_machine::Span;
use linked_starts::{Entry, Owner, Site, SiteList};

/// The sites of a start, its owners, and where its stack is.
#[derive(Drop)]
pub struct Layout {
    pub sites: SiteList,
    pub owners: Items<Owner>,
    pub stack: Span,
}

/// A site: its seal, its part's code from base to end, and the address of the call's first word.
#[derive(Clone, Copy)]
pub struct SiteCode {
    pub seal: u32,
    pub base: u32,
    pub end: u32,
    pub at: u32,
}

fn has_entry(entries: &[Entry], at: u32) -> bool
    ensures { result ≡ list_any (λ e. e.at == at) entries.now }
{
    entries.iter().any(|entry| entry.at == at)
}

// The part of a number.
fn owner_of(owners: &[Owner], part: u32) -> Option<&Owner>
    ensures { option_copied result ≡ find (λ o. o.part == part) owners.now }
{
    owners.iter().find(|owner| owner.part == part)
}

// Whether the addresses of a span are some, and within the address space.
fn is_code(code: Span) -> bool
    ensures { result ≡ is_code code }
{
    code.base <= code.end && code.end <= LAST_PLACE
}

// A site with its part's code.
fn with_code(site: Site, owner: &Owner) -> Option<SiteCode>
    ensures is { result ≡ with_code site owner.now }
    ensures in_order { IfSome result (λ s. IsRange s.base s.end) }
{
    if !is_code(owner.code) {
        return None;
    }
    Some(SiteCode {
        seal: site.seal,
        base: owner.code.base,
        end: owner.code.end,
        at: site.at,
    })
}

// The site's code, where its part is there.
fn code_in(owners: &[Owner], site: Site) -> Option<SiteCode>
    ensures is { result ≡ code_in owners.now site }
    ensures in_order { IfSome result (λ s. IsRange s.base s.end) }
{
    let owner = owner_of(owners, site.part)?;
    with_code(site, owner)
}

// The site of a number.
fn numbered_site(sites: &[Site], number: u32) -> Option<Site>
    ensures { result ≡ slice_get sites.now number }
{
    match sites.get(number as usize) {
        Some(site) => Some(*site),
        None => None,
    }
}

// The trusted part whose code a capability runs.
fn owner_running(owners: &[Owner], c: CapFields) -> Option<&Owner>
    ensures { option_copied result ≡ find (runs_part c) owners.now }
{
    owners.iter().find(|owner| runs_part(&c, owner))
}

// Whether an entry of a trusted part is at an address.
fn has_any_entry(owners: &[Owner], at: u32) -> bool
    ensures { result ≡ list_any (λ o. o.trusted && list_any (λ e. e.at == at) o.entries) owners.now }
{
    owners.iter().any(|owner| owner.trusted && has_entry(owner.entries.as_slice(), at))
}

impl Layout {
    /// The trusted part whose code pc runs, where there is one.
    pub fn trusted_owner(&self, pc: Face) -> Option<&Owner>
        ensures { option_copied result ≡ trusted_owner self.now pc }
    {
        let Face::Memory(c) = pc else {
            return None;
        };
        owner_running(self.owners.as_slice(), c)
    }

    /// Where pc is trusted, the address at which it stands, if that is in its range.
    pub fn trusted_at(&self, pc: Face) -> Option<u32>
        requires { FaceInOrder pc }
        ensures is { result ≡ trusted_at self.now pc }
        ensures within { IfSome result (λ a. a ≤ LAST_PLACE) }
    {
        let _ = self.trusted_owner(pc)?;
        pc.target()
    }

    /// The number of the site whose call begins at an address.
    pub fn site_at(&self, at: u32) -> Option<u32>
        ensures { result ≡ site_at self.now at }
    {
        numbered(self.sites.place_at(at)?)
    }

    /// Whether an entry of a trusted part is at an address.
    pub fn is_entry(&self, at: u32) -> bool
        ensures { result ≡ has_entry_at self.now at }
    {
        has_any_entry(self.owners.as_slice(), at)
    }

    /// The site of a number, with its part's code, where there is one.
    #[tactic(auto, unfolding(crate::specs::Layout::site_code))]
    pub fn site_code(&self, number: u32) -> Option<SiteCode>
        ensures is { result ≡ site_code self.now number }
        ensures in_order { IfSome result (λ s. IsRange s.base s.end) }
    {
        let site = numbered_site(self.sites.as_slice(), number)?;
        code_in(self.owners.as_slice(), site)
    }
}
