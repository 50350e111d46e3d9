//! Laws of the answers of the top call: that they are one, that a part's form makes no difference to them,
//! and what `mean` tells over the text of a run.
//!
//! The crate has definitions and lemmas alone. `docs/THEOREMS.md` tells the laws.
#![tactic(auto)]

pub mod laws;
