//! The rules that modules keep together, before anything is said of what they do.
//!
//! They are the rules L3 to L8 of the linker, asked of sources: docs/RULES.md has them. A module stands
//! for the part that it is compiled to, so what is reported is told by the same numbers. Modules whose
//! components are among linked parts keep them.
#![tactic(auto)]

mod check;
mod imports;
pub mod laws;
mod pairs;
mod rules;
mod whole;

pub use check::check_modules;
pub use pairs::stack_base_of;
