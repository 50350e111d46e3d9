//! The top call: all that the program does, over files and a sink that the caller hands in.
#![tactic(auto)]

mod lines;
mod top;
mod totals;

pub use refusal_lines::Status;
pub use top::stk_main;
