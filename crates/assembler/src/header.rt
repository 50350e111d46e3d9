//! The single items of a text.
ghost use Rattle.std.specs.Prelude.{◌≡◌};
ghost use Rattle.assembler.specs.Draft.{no_header};

use cap_words::{Items, SealRange};
use component_file::Area;
use std::alloc::Global;

/// What the single items of a text say, but for those among the tables. Before its item came, a number is
/// 0 and the name has no bytes.
#[derive(Drop)]
pub struct TextHeader {
    /// The part's name.
    pub name: Items<u8>,
    /// The address at which the stack begins.
    pub stack_base: u32,
    /// The seal of the part's entries.
    pub closure: u32,
    /// Whether the linker gives the part its place.
    pub movable: bool,
    /// The seals of the part's return points.
    pub seals: SealRange,
    /// The addresses of which the part may have linear capabilities.
    pub linear: Area,
    /// The address of the first code word.
    pub code_base: u32,
    /// The address of the first data word.
    pub data_base: u32,
}

impl TextHeader {
    // Before the first item. It takes no memory.
    pub(crate) fn new(alloc: Global) -> TextHeader
        ensures { result ≡ no_header }
    {
        TextHeader {
            name: Items::of(Vec::new(alloc)),
            stack_base: 0,
            closure: 0,
            movable: false,
            seals: SealRange::new(0, 0),
            linear: Area { base: 0, count: 0 },
            code_base: 0,
            data_base: 0,
        }
    }
}
