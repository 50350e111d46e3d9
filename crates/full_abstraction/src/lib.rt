//! Full abstraction of the overlay: what can't be told apart on it can't be on the plain machine, and the
//! other way round.
//!
//! The crate has definitions and lemmas alone. `docs/THEOREMS.md` tells the laws.
#![tactic(auto)]

pub mod laws;
