//! Linked starts of compiled modules: what the theorem of sources asks holds of them.
//!
//! The crate has definitions and lemmas alone. `docs/THEOREMS.md` tells the laws.
#![tactic(auto)]

pub mod laws;
