//! Words as bytes, and the cursor that reads them.
mod cursor;
pub mod laws;
mod reading;
mod writing;

pub use cursor::{Cursor, FieldFault};
pub use reading::read_word;
pub use writing::{push_u16, push_u32, push_word, word_bytes};
