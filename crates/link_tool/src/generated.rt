//! Loads: programs of two parts that are made from a number, so that anyone can make them again.
//!
//! The first part is a trusted module. It calls itself, again and again, and in each call the other part,
//! which is untrusted and adds a number to the word that it is called with. `docs/COMMANDS.md` has both.

mod load;
mod module;
mod other_part;

pub use load::{Workload, load_of, load_steps};
pub use module::{ModuleText, module_text};
pub use other_part::adder;

/// The size of a load's stack, in words.
pub const LOAD_STACK: u32 = 65_536;
