//! Linked sources in lockstep, and that no code outside can tell sources apart that mean the same.
//!
//! The crate has definitions and lemmas alone. `docs/THEOREMS.md` tells the laws.
#![tactic(auto)]

pub mod laws;
