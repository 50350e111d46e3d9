//! Images: parts and the size of their stack as one file, whose parts are checked and linked again
//! where it is loaded.
//!
//! docs/FORMATS.md has the form.
#![tactic(auto)]

mod fault;
pub mod laws;
mod loading;
mod reading;
mod writing;

pub use fault::ImageFault;
pub use loading::load_image;
pub use writing::write_image;

// The version of the form.
const VERSION: u16 = 1;
