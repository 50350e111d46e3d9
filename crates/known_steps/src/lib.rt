//! Steps of an overlay, computed: of a state of which the registers are known, and the words of some cells.
//!
//! The crate has definitions and lemmas alone. `specs/Known` says how such a state goes on, and `proofs` that
//! the overlay does so too, whatever the other cells hold.
#![tactic(auto)]
