//! What is left to do once the files of a command came.
//!
//! [`ready_of`] reads the files of a command in the order of its refusals, links or checks what they hold,
//! and answers what is left: a run, a file that is put, a text. It writes nothing.
#![tactic(auto)]

mod debugging;
mod ready;

pub use ready::{ReadyTask, ready_of};
