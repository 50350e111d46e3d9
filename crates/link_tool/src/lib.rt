//! What links, read from files: parts, each in its form and by its own rules, or an image; and the start that
//! they make, or the bytes of the image.
//!
//! `docs/COMMANDS.md` has the order in which files are read and refused, `docs/RULES.md` the rules.
#![tactic(auto)]

pub mod generated;
mod loads;
mod parts;
mod starts;

pub use loads::load_start;
pub use parts::{component, part};
pub use starts::{image_bytes, start};
