//! Outside code of two runs in lockstep, as long as trusted code lets it observe the same.
//!
//! The crate has definitions and lemmas alone. `docs/THEOREMS.md` tells the laws.
#![tactic(auto)]

pub mod laws;
