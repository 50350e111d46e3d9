//! What `mean` reads and tells: modules and a feed, and the text of their meaning; and the text of a module,
//! which `erase` puts.
//!
//! `docs/COMMANDS.md` has the order in which files are read and refused, `docs/LANGUAGE.md` what a source
//! means.
#![tactic(auto)]

mod erasing;
mod feed;
mod modules;
mod telling;

pub use erasing::erased;
pub use telling::{Meaning, meant};
