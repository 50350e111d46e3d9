//! Two sources that mean the same, and that no code outside can tell apart: two ways to double a number.
//!
//! The crate has definitions and lemmas alone. `specs/Doubles` has the two modules, `specs/Halts` two that
//! mean the same and don't end the same way, and `proofs` what they mean.
#![tactic(auto)]

pub mod laws;
