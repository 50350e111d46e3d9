//! The border of trusted code: whose code pc runs, which sites and entries there are, what an `xjmp`
//! reaches, and the events that are told of it. Both machines rest on it.
#![tactic(auto)]

mod events;
mod layout;
pub mod reach;

pub use events::{Back, Event};
pub use layout::{Layout, SiteCode};
