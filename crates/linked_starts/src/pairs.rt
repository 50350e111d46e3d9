//! Places in parts.

/// A place in a part.
#[derive(Clone, Copy)]
pub struct PartPlace {
    /// The index of the part.
    pub part: u32,
    /// The place.
    pub place: u32,
}
