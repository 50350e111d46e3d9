//! What the lines of runs are: a line for each event at the border of trusted code, and the end line.
//! Definitions with their laws.
//!
//! A run of the plain machine and one of the overlay show their events by the same lines. Both runs
//! are told whole by definitions: their lines as values, the text of those, and the state after
//! them. docs/OVERLAY.md tells the events, docs/COMMANDS.md the texts.
#![tactic(auto)]

pub mod laws;
mod note;
mod pairs;
mod run;

pub use note::{Jump, Note};
pub use pairs::{Pairs, PassedPair};
pub use run::RunEnd;
