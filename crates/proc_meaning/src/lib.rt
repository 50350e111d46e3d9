//! The code that goes through a feed as sources mean it: [`meaning`], and [`meaning_of_parts`] over
//! programs that are there already. Its contract is exactly the definition in `proc_semantics`.
//!
//! It keeps a list of what is still to be done on the heap, so calls may nest as deep as memory allows.
//! [`told_text`] is what a meaning tells as text: a line for each event, and the end line, as docs/FORMATS.md
//! has them.
#![tactic(auto)]

mod calls;
mod ends;
mod exprs;
mod feed;
mod modules;
mod names;
mod pieces;
mod places;
mod pushes;
mod steps;
mod telling;
mod text;
mod turns;
mod work;

pub use modules::meaning;
pub use telling::meaning_of_parts;
pub use text::told_text;
