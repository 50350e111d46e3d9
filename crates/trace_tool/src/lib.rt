//! What writes the lines of runs: a run of the plain machine and one of the overlay, with their end lines.
//! What these lines are, `run_lines` defines.
#![tactic(auto)]

mod count;
mod end_lines;
mod event;
mod find;
mod gap;
mod halves;
mod note;
mod pairs;
mod run;
mod trace;
mod view;
mod write;

pub use count::{Counted, run_counted};
pub use end_lines::{EndLine, end_line, place_line};
pub use run::run_plain;
pub use run_lines::RunEnd;
pub use trace::run_overlay;
