//! Checks the text of a run by itself: whether it has the form of what a run writes, and whether its calls
//! and returns are bracketed.
//!
//! It knows no machine and no component. docs/AUDIT.md has the rules, and docs/FORMATS.md the lines.
#![tactic(auto)]

mod auditing;
mod fault;
mod fields;
pub mod laws;
mod line;
mod open;
mod told;

pub use auditing::audit;
pub use fault::AuditFault;
pub use line::Line;
pub use told::FrameLine;

/// The largest count of steps.
pub(crate) const LAST_COUNT: u64 = 18_446_744_073_709_551_615;

/// The number of the last cause of a failure.
pub(crate) const LAST_CAUSE: u64 = 14;
