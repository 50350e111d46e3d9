//! Seals that are given once: ranges of them, lots to draw from, and tokens that bind a seal to the
//! one call for which it stands.
//!
//! Each return point of a trusted part has a seal of its own. So whoever gives seals to return
//! points draws them from a lot: a [`SealToken`] can't be copied, and is spent when it is bound.
#![tactic(auto)]

pub mod laws;
mod lot;
mod range;

pub use cap_words::SealRange;
pub use lot::{SealLot, SealToken, SiteSeal};
pub use range::disjoint;
