//! Components, and the files that hold them.
#![tactic(auto)]

mod component;
mod fault;
mod fields;
pub mod laws;
mod listed;
mod reading;
mod writing;

pub use component::{Area, Component, ComponentFields, Export, Import, Kind, KindRow};
pub use fault::FileFault;
pub use reading::decode_component;
pub use writing::encode_component;

/// The last offset in code or data.
pub const LAST_OFFSET: u32 = 65_535;

/// The most words of code, and the most words of data.
pub const MOST_WORDS: u32 = 65_536;

/// The most imports of a component.
pub const MOST_IMPORTS: u16 = 1_024;

/// The most exports of a component.
pub const MOST_EXPORTS: u16 = 1_024;

/// The most sites of a component.
pub const MOST_SITES: u16 = 4_096;

/// The most rows of kinds of a component.
pub const MOST_ROWS: u32 = 65_536;

// The version of the form where the component isn't movable, and where it is.
const FIXED_VERSION: u16 = 1;

const MOVABLE_VERSION: u16 = 2;
