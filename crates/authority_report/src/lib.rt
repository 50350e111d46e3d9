//! What a part of a program can reach.
//!
//! A part has its code, its data and, when it is called, the stack. By loading from memory that it can
//! read, and by opening what is sealed under its own seals, it gets further capabilities. A report
//! lists the addresses that it can so read, write and run, in spans with the same rights, and the seals
//! that it can seal by.
//!
//! docs/REACH.md says how a report is read.
#![tactic(auto)]

mod found;
pub mod laws;
mod reach;
mod reporting;
mod seals;
mod set;
mod spans;
mod text;

pub use reach::Reach;
pub use reporting::report;
pub use spans::ReachSpan;
pub use text::reach_text;
