//! Reports of parts.
ghost use Rattle.std.specs.Prelude.{◌≡◌, ◌≤◌, ◌<◌, Some, IfOk, length, option_copied};
ghost use Rattle.authority_report.specs.Found.{IsEmpty};
ghost use Rattle.authority_report.specs.Report.{IsReport, owner_of_part, Reports};
ghost use Rattle.authority_report.specs.SealRanges.{SealsAreOwn};
ghost use Rattle.authority_report.specs.Entered.{IsLinked, BoundsRuns};
ghost use Rattle.authority_report.specs.Influence.{BoundsInfluence};

use crate::found::Found;
use crate::reach::Reach;
use crate::seals::ranges_of;
use crate::spans::spans_of;
use cap_words::{LAST_PLACE, LONGEST_STRETCH};
use lcm_machine::LcmState;
use linked_starts::{Owner, Start};
use std::alloc::{AllocError, Global};

// The report of an owner, where nothing is found yet.
fn reach_of(
    alloc: Global,
    found: &mut Found,
    state: &LcmState,
    owner: &Owner,
) -> Result<Reach, AllocError>
    requires empty { IsEmpty found.old }
    requires code { owner.now.code.end ≤ LAST_PLACE }
    requires its_data { owner.now.data_span.end ≤ LAST_PLACE }
    requires seals { SealsAreOwn state.now.maps owner.now }
    requires few { owner.now.seals.count ≤ LONGEST_STRETCH }
    ensures { IfOk result (IsReport state.now.maps owner.now) }
{
    found.begin(state, owner)?;
    found.finish(state, owner)?;
    let spans = spans_of(alloc, &found.read, &found.write, &found.run)?;
    let stretches = found.seals.stretches(alloc)?;
    let seals = ranges_of(alloc, stretches.as_slice())?;
    Ok(Reach { spans, seals })
}

/// The report of an owner.
pub(crate) fn report_of(alloc: Global, state: &LcmState, owner: &Owner) -> Result<Reach, AllocError>
    requires code { owner.now.code.end ≤ LAST_PLACE }
    requires its_data { owner.now.data_span.end ≤ LAST_PLACE }
    requires seals { SealsAreOwn state.now.maps owner.now }
    requires few { owner.now.seals.count ≤ LONGEST_STRETCH }
    ensures { IfOk result (IsReport state.now.maps owner.now) }
{
    let mut found = Found::new(alloc)?;
    reach_of(alloc, &mut found, state, owner)
}

// The owner of a part, if there is one.
fn find_owner(owners: &[Owner], part: u32) -> Option<&Owner>
    ensures { option_copied result ≡ owner_of_part owners.now part }
{
    owners.iter().find(|owner| owner.part == part)
}

/// The owner of a part of a start.
pub(crate) fn owner_at(start: &Start, part: u32) -> &Owner
    requires linked { IsLinked start.now }
    requires part { part < length start.now.owners }
    ensures is { owner_of_part start.now.owners part ≡ Some result.now }
    ensures code { result.now.code.end ≤ LAST_PLACE }
    ensures its_data { result.now.data_span.end ≤ LAST_PLACE }
    ensures seals { SealsAreOwn start.now.state.maps result.now }
    ensures few { result.now.seals.count ≤ LONGEST_STRETCH }
{
    let Some(owner) = find_owner(start.owners(), part) else {
        unreachable!()
    };
    owner
}

/// What a part can reach at a start: what it can read, write and run, and what it can seal by, by
/// loading what it can read and opening what is sealed under its own seals. Parts are counted from 0
/// in the order in which they were linked.
///
/// A report is the least that is true: an address has a right, and a seal stands there, exactly where a
/// word that the part can come by gives it. And from each of its entries the part runs within it, up to
/// and with the first jump under a seal that isn't its own, and does the same whatever is in the cells
/// that the report says can't be read.
///
/// It takes four tables of 4 MiB while it is made.
///
/// # Errors
///
/// `AllocError` where memory was refused.
pub fn report(alloc: Global, start: &Start, part: u32) -> Result<Reach, AllocError>
    requires linked { IsLinked start.now }
    requires part { part < length start.now.owners }
    ensures least { IfOk result (Reports start.now part) }
    ensures bounds { IfOk result (BoundsRuns start.now part) }
    ensures influence { IfOk result (BoundsInfluence start.now part) }
{
    let owner = owner_at(start, part);
    report_of(alloc, start.state(), owner)
}
