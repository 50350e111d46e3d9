//! Whether a component keeps the rules of the flow of trusted code, K1 to K10, and the row of kinds that is
//! current at each offset of its code.
//!
//! docs/RULES.md has the rules in words.
#![tactic(auto)]

mod judging;
mod kinds;
mod lists;
mod places;
mod rows;
mod walking;

pub use rows::row_at;
pub use walking::check_flow;
