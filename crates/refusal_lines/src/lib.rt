//! What a call of the program came to, and the line and the status of each refusal.
//!
//! `docs/COMMANDS.md` has the statuses and the lines.
#![tactic(auto)]

mod refusals;
mod status;

pub use refusals::{refusal_line, refusal_status};
pub use status::Status;
