//! What the templates of the compiler do, over the overlay's steps.
//!
//! `specs/Runs` says what is wanted of runs: any property of states under a credit that holds before a step
//! of trusted code if it holds after it. The laws in `proofs/` are over all such properties: one for each
//! row of the table of templates in `docs/LANGUAGE.md`, for entries, calls, returns and the end of a
//! procedure, and for each way in which they fail. `specs/Public` says which words code outside is shown.
#![tactic(auto)]

pub mod laws;
