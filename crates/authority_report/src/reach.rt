//! Reports.
use crate::ReachSpan;
use cap_words::{Items, SealRange};

/// What a part can reach: the spans of addresses with the same rights, and the ranges of seals. Both
/// are maximal, disjoint, and in ascending order.
#[derive(Drop)]
pub struct Reach {
    /// The addresses that it can read, write or run.
    pub spans: Items<ReachSpan>,
    /// The seals that it can seal by, each a return seal of its own ([`crate::laws::seals_are_own`]).
    pub seals: Items<SealRange>,
}
