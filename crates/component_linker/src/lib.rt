//! The linker: parts that were accepted, the rules that they keep together, and the machine that they start.
#![tactic(auto)]

mod grant;
mod laying;
mod linking;
mod machine;
mod memory;
mod names;
mod owners;
mod part;
mod parts;
mod placed;
mod regions;
mod rules;
mod started;
mod whole;

pub use linked_starts::{
    CalledEntry, Entry, LinkFault, MOST_PARTS, Owner, RuleAt, Site, SiteList, Start,
};
pub use linking::link;
pub use part::{Part, accept};
