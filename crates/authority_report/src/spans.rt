//! The spans in which places have the same rights.
ghost use Rattle.std.specs.Prelude.{◌≡◌, ◌≢◌, ◌≤◌, ◌<◌, ◌+◌, ℕ, IfOk};
ghost use Rattle.authority_report.specs.Has.{has};
ghost use Rattle.authority_report.specs.Spans.{any_right, allows, AreTidy};
ghost use Rattle.authority_report.specs.Listed.{rights_in};

use crate::set::PlaceSet;
use cap_words::{Items, LAST_PLACE};
use std::alloc::{AllocError, Global};

// What may be done at a place.
#[derive(Clone, Copy, PartialEq)]
struct Rights {
    read: bool,
    write: bool,
    run: bool,
}

/// A span of places with the same rights, of which there is at least one. `base` and `end` are its first
/// and its last place.
#[derive(Clone, Copy)]
pub struct ReachSpan {
    pub base: u32,
    pub end: u32,
    /// Whether its places can be read.
    pub read: bool,
    /// Whether they can be written.
    pub write: bool,
    /// Whether they can be run.
    pub run: bool,
}

impl Rights {
    // Whether it has one.
    fn any(self) -> bool
        ensures { result ≡ any_right self }
    {
        self.read || self.write || self.run
    }
}

// The rights of a place: in which of the three sets it is.
fn rights_at(read: &PlaceSet, write: &PlaceSet, run: &PlaceSet, at: u32) -> Rights
    requires { at ≤ LAST_PLACE }
    ensures { result ≡ rights_in read.now write.now run.now at }
{
    Rights {
        read: read.has(at),
        write: write.has(at),
        run: run.has(at),
    }
}

// The last place up to which all places from one on have its rights.
fn span_end(read: &PlaceSet, write: &PlaceSet, run: &PlaceSet, from: u32, rights: Rights) -> u32
    requires inside { from ≤ LAST_PLACE }
    requires is { rights ≡ rights_in read.now write.now run.now from }
    ensures within { (from ≤ result) × (result ≤ LAST_PLACE) }
    ensures same { (a : ℕ) → from ≤ a → a ≤ result → rights ≡ rights_in read.now write.now run.now a }
    ensures maximal { result < LAST_PLACE → rights ≢ rights_in read.now write.now run.now (result + 1) }
{
    for at in from..LAST_PLACE {
        if rights_at(read, write, run, at + 1) != rights {
            return at;
        }
    }
    LAST_PLACE
}

/// The spans of places with the same rights, as far as they have any: maximal, disjoint, ascending.
pub fn spans_of(
    alloc: Global,
    read: &PlaceSet,
    write: &PlaceSet,
    run: &PlaceSet,
) -> Result<Items<ReachSpan>, AllocError>
    ensures read { IfOk result (λ spans. (a : ℕ) → allows (λ r. r.read) spans a ≡ has read.now a) }
    ensures write { IfOk result (λ spans. (a : ℕ) → allows (λ r. r.write) spans a ≡ has write.now a) }
    ensures run { IfOk result (λ spans. (a : ℕ) → allows (λ r. r.run) spans a ≡ has run.now a) }
    ensures tidy { IfOk result AreTidy }
{
    read.ends();
    write.ends();
    run.ends();
    let mut spans = Vec::new(alloc);
    let mut at = 0;
    while at <= LAST_PLACE {
        let rights = rights_at(read, write, run, at);
        let end = span_end(read, write, run, at, rights);
        if rights.any() {
            spans.push(ReachSpan {
                base: at,
                end,
                read: rights.read,
                write: rights.write,
                run: rights.run,
            })?;
        }
        at = end + 1;
    }
    Ok(Items::of(spans))
}
