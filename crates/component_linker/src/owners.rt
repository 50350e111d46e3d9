//! The sites of parts that are placed, and who of them owns which code.
ghost use Rattle.std.specs.Prelude.{◌≡◌, ◌≤◌, ◌<◌, ◌+◌, length, map, slice_get, Some, IfOk, OnOk, IfSome};
ghost use Rattle.linked_starts.specs.Linked.{Kept, AreClosed, AreSeparate};
ghost use Rattle.linked_starts.specs.Regions.{addresses};
ghost use Rattle.linked_starts.specs.Owners.{placed_entry, call_of, owner_of, AreSites, AreOwners};
ghost use Rattle.linked_starts.specs.Listing.{SitesUpto, OwnersUpto};

use crate::placed::{Placed, PlacedParts};
use cap_words::{Items, LAST_PLACE, SealRange};
use lcm_machine::Span;
use linked_starts::{CalledEntry, Entry, MOST_PARTS, Owner, Site, SiteList};
use std::alloc::{AllocError, Global};

// The sites of one part more, where it is trusted.
fn push_sites(sites: &mut Vec<Site>, parts: &PlacedParts<'_>, number: u32) -> Result<(), AllocError>
    requires in_parts { number < length parts.now }
    requires closed { AreClosed parts.now }
    requires separate { AreSeparate parts.now }
    requires before { SitesUpto parts.now number 0 sites.old.items }
    ensures { OnOk result (SitesUpto parts.now (number + 1) 0 sites.new.items) }
{
    let part = parts.part(number as usize);
    if !part.trusted() {
        return Ok(());
    }
    let first = part.seals().base();
    let base = part.code_base();
    for (index, offset) in part.sites().iter().enumerate() {
        sites.push(Site {
            part: number,
            index: index as u32,
            seal: first + index as u32,
            at: base + *offset,
        })?;
    }
    Ok(())
}

/// The sites of all trusted parts, in their order.
pub(crate) fn sites(alloc: Global, parts: &PlacedParts<'_>) -> Result<SiteList, AllocError>
    requires few { length parts.now ≤ MOST_PARTS }
    requires closed { AreClosed parts.now }
    requires separate { AreSeparate parts.now }
    ensures { IfOk result (AreSites parts.now) }
{
    let mut sites = Vec::new(alloc);
    for number in 0..parts.len() as u32 {
        push_sites(&mut sites, parts, number)?;
    }
    sites.sort_by_key(|site| site.at)?;
    Ok(SiteList::of(sites))
}

// So many addresses from a first one on.
fn span_of(base: u32, count: usize) -> Span
    requires some { 1 ≤ count }
    requires fits { base + count ≤ LAST_PLACE + 1 }
    ensures { result ≡ addresses base count }
{
    let end = base + count as u32 - 1;
    Span { base, end }
}

fn copy_name(alloc: Global, name: &[u8]) -> Result<Items<u8>, AllocError>
    ensures { IfOk result (λ n. n ≡ name.now) }
{
    Ok(Items::of(Vec::from_slice(alloc, name)?))
}

// The entries of a part, one for each export.
fn entries_of(alloc: Global, part: &Placed<'_>) -> Result<Items<Entry>, AllocError>
    requires { Kept part.now }
    ensures { let c = part.now.component in
        IfOk result (λ entries. entries ≡ map (placed_entry c) c.exports) }
{
    let base = part.code_base();
    let mut entries = Vec::new(alloc);
    for export in part.exports() {
        entries.push(Entry {
            name: copy_name(alloc, export.name.as_slice())?,
            at: base + export.offset,
        })?;
    }
    Ok(Items::of(entries))
}

// What the slots of a part name, one for each import.
fn calls_of(alloc: Global, part: &Placed<'_>) -> Result<Items<CalledEntry>, AllocError>
    requires { Kept part.now }
    ensures { let c = part.now.component in IfOk result (λ calls. calls ≡ map (call_of c) c.imports) }
{
    let base = part.data_base();
    let mut calls = Vec::new(alloc);
    for import in part.imports() {
        calls.push(CalledEntry {
            part: copy_name(alloc, import.part.as_slice())?,
            name: copy_name(alloc, import.name.as_slice())?,
            at: base + import.slot,
        })?;
    }
    Ok(Items::of(calls))
}

// A range of seals as another is.
fn same_seals(seals: &SealRange) -> SealRange
    ensures { result ≡ seals.now }
{
    SealRange::new(seals.base(), seals.count())
}

// Who a part is, by its place among the parts.
fn named(alloc: Global, part: &Placed<'_>, number: u32) -> Result<Owner, AllocError>
    requires { Kept part.now }
    ensures { IfOk result (λ o. o ≡ owner_of number part.now) }
{
    let name = copy_name(alloc, part.name())?;
    let entries = entries_of(alloc, part)?;
    let calls = calls_of(alloc, part)?;
    Ok(Owner {
        part: number,
        name,
        trusted: part.trusted(),
        code: span_of(part.code_base(), part.code().len()),
        data_span: span_of(part.data_base(), part.data_words().len()),
        closure: part.closure(),
        seals: same_seals(part.seals()),
        entries,
        calls,
    })
}

/// The owners, one for each part, in ascending address of their code.
pub(crate) fn owners(alloc: Global, parts: &PlacedParts<'_>) -> Result<Items<Owner>, AllocError>
    requires few { length parts.now ≤ MOST_PARTS }
    requires closed { AreClosed parts.now }
    requires separate { AreSeparate parts.now }
    ensures { IfOk result (AreOwners parts.now) }
{
    let mut owners = Vec::new(alloc);
    for number in 0..parts.len() as u32 {
        let part = parts.part(number as usize);
        let owner = named(alloc, &part, number)?;
        owners.push(owner)?;
    }
    owners.sort_by_key(|owner| owner.code.base)?;
    Ok(Items::of(owners))
}
