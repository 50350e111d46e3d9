//! What a start of linked parts is: where parts stand, the rules L, the machine that parts start, its sites
//! and its owners. Definitions with their laws, and the values that carry a start; the linker decides and
//! makes.
#![tactic(auto)]

mod fault;
pub mod laws;
mod moving;
mod owners;
mod pairs;
mod site_list;
mod started;

pub use fault::{LinkFault, RuleAt};
pub use moving::{Free, Move, Shift, moved_word};
pub use owners::{CalledEntry, Entry, Owner, Site};
pub use pairs::PartPlace;
pub use site_list::SiteList;
pub use started::Start;

/// The most parts that are linked together.
pub const MOST_PARTS: usize = 16;
