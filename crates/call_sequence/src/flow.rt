//! Rows of kinds, what an instruction does to them, and where the walk over the code stands.

use component_file::Kind;

/// The kinds of the registers 1 to 15.
pub type Row = [Kind; 15];

/// What an instruction comes to.
#[derive(Clone, Copy)]
pub enum Flow {
    /// It breaks the rule of this number.
    Breaks(u8),
    /// The offset that it may jump to, and the row at the next word, if it comes there.
    Flows(Option<u32>, Option<Row>),
}

/// Where the walk stands.
#[derive(Clone, Copy)]
pub enum Walk {
    /// Before a word, with the row that is current.
    Before(u32, Option<Row>),
    /// At its end.
    Ended,
    /// At a broken rule, by its number, and the place.
    Broken(u8, u32),
}
