//! The rules that a component keeps by itself, C1 to C12, and what is reported of a broken rule.
//!
//! docs/RULES.md has the rules in words.
#![tactic(auto)]

mod areas;
mod linear;
mod marks;
mod places;
mod rule;
mod slots;
mod trusted;
mod verdict;
mod words;

pub use areas::{are_near, code_area, data_area};
pub use places::{each_of, first_place};
pub use rule::{Broken, Group, Rule, kept};
pub use verdict::check;
