//! That laws of runs speak of runs that matter: of untrusted code that stores, calls and writes lines
//! whatever stands in words that it can't read, and that is called back by a pair of its own.
//!
//! The crate has definitions and lemmas alone. `proofs/Teller` has a part that isn't trusted and counts how
//! often it is called. `Counting` runs it from its entry, and `CallRun` from the start, where a trusted part
//! calls it. `Callback` speaks of the run of `callback_instance`.
#![tactic(auto)]

pub mod laws;
