//! The sites of a start, and who owns which code.
use cap_words::{Items, SealRange};
use lcm_machine::Span;

/// A call that a trusted part declares, wherever it leads.
#[derive(Clone, Copy)]
pub struct Site {
    /// The part, by its place among the parts.
    pub part: u32,
    /// Which of the part's sites it is.
    pub index: u32,
    /// Its seal: the part's first seal plus the index.
    pub seal: u32,
    /// The address of the call's first word.
    pub at: u32,
}

/// An entry of a part, under the name of its export.
#[derive(Drop)]
pub struct Entry {
    /// The name.
    pub name: Items<u8>,
    /// The address of its first word.
    pub at: u32,
}

/// Who a part is and where it stands.
#[derive(Drop)]
pub struct Owner {
    /// The part, by its place among the parts.
    pub part: u32,
    /// Its name.
    pub name: Items<u8>,
    /// Whether it is trusted.
    pub trusted: bool,
    /// The addresses of its code.
    pub code: Span,
    /// The addresses of its data.
    pub data_span: Span,
    /// The seal of its entries.
    pub closure: u32,
    /// The seals of its return points.
    pub seals: SealRange,
    /// Its entries, shared or not, in the order of their names.
    pub entries: Items<Entry>,
    /// What its slots name, in their order.
    pub calls: Items<CalledEntry>,
}

/// What a slot of a part's data names: an entry of another part, or of the part itself.
#[derive(Drop)]
pub struct CalledEntry {
    /// The name of the part that has the entry.
    pub part: Items<u8>,
    /// The entry's name there.
    pub name: Items<u8>,
    /// The address of the slot: that of the code half, after which the data half stands.
    pub at: u32,
}
