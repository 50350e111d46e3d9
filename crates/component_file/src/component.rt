//! What a component is.
ghost use Rattle.std.specs.Prelude.{◌≡◌};

use cap_words::{Items, SealRange, Word};
use std::marker::Model;

/// So many addresses from a first one on; there may be none.
#[derive(Clone, Copy)]
pub struct Area {
    /// The first address.
    pub base: u32,
    /// How many addresses there are.
    pub count: u32,
}

/// An export of another part, or of the part itself, that the part wants to call.
#[derive(Drop)]
pub struct Import {
    /// The name of the part that exports it.
    pub part: Items<u8>,
    /// The name under which that part exports it.
    pub name: Items<u8>,
    /// Where its two capabilities are to stand: the declared offset in the data of the first.
    pub slot: u32,
}

/// An entry of the part that others may call.
#[derive(Drop)]
pub struct Export {
    /// Its name.
    pub name: Items<u8>,
    /// Where it begins: the declared offset in the code.
    pub offset: u32,
    /// Whether other parts may import it.
    pub shared: bool,
}

/// What a register of trusted code holds.
#[derive(Clone, Copy, PartialEq, Eq)]
pub enum Kind {
    /// A word that untrusted code may hold.
    Any,
    /// An integer.
    Int,
    /// The capability over the part's data, at any address.
    DataCap,
    /// The stack.
    Stk,
    /// The capability over the part's code, at this offset.
    Pc(u32),
    /// Anything.
    Top,
}

/// What the registers hold where the code reaches an offset, as the part declares it.
#[derive(Clone, Copy)]
pub struct KindRow {
    /// The offset in the code.
    pub offset: u32,
    /// The kinds of the registers 1 to 15.
    pub kinds: [Kind; 15],
}

/// What a component is made of. It may break the limits; a [`Component`] keeps them.
#[derive(Drop)]
pub struct ComponentFields {
    /// The part's name.
    pub name: Items<u8>,
    /// The address at which the stack begins.
    pub stack_base: u32,
    /// The seal of the part's entries.
    pub closure: u32,
    /// The seals of the part's return points.
    pub seals: SealRange,
    /// The addresses of which the part may have linear capabilities.
    pub linear: Area,
    /// The address of the first code word.
    pub code_base: u32,
    /// The code words.
    pub code: Items<Word>,
    /// The address of the first data word.
    pub data_base: u32,
    /// The data words.
    pub data_words: Items<Word>,
    /// What the part wants to call.
    pub imports: Items<Import>,
    /// What the part lets others call.
    pub exports: Items<Export>,
    /// The declared offsets of the part's own calls in the code.
    pub sites: Items<u32>,
    /// Where the code is said to have the instruction `fail` to which checks jump.
    pub fail_at: Option<u32>,
    /// Where the code is said to have the seal capability over the return seals.
    pub literal_at: Option<u32>,
    /// The declared rows of kinds.
    pub rows: Items<KindRow>,
    /// Whether the linker gives the part its place; else it stands at its own numbers.
    pub movable: bool,
}

/// A component: a part of a program before it is linked. A contract sees its fields.
///
/// It keeps the limits of docs/FORMATS.md: names are names, numbers and counts are within their
/// bounds, the base of an empty range is 0, code and data have 1 to 65,536 words of which none is
/// sealed, and lists are in their order. That offsets lie within code or data is no part of them.
#[derive(Drop)]
pub struct Component {
    fields: ComponentFields,
}

impl Model for Component {
    ghost use Rattle.component_file.specs.declared.component.ComponentFields.{ComponentFields};

    ghost Value = { ComponentFields };

    ghost use Rattle.component_file.specs.Limits.{IsComponent};

    ghost view = { λ c. c.fields };

    ghost invariant = { λ c. IsComponent c.fields };
}

impl Component {
    ghost use Rattle.component_file.specs.Limits.{IsComponent};

    /// The component of these fields, which must keep the limits. It takes no memory.
    pub fn of(fields: ComponentFields) -> Component
        requires { IsComponent fields }
        ensures { result ≡ fields }
    {
        Component { fields }
    }

    /// Its fields, to read.
    pub fn fields(&self) -> &ComponentFields
        ensures same { result.now ≡ self.now }
        ensures within_limits { IsComponent result.now }
    {
        &self.fields
    }

    /// Its fields. It takes no memory.
    pub fn into_fields(self) -> ComponentFields
        ensures same { result ≡ self }
        ensures within_limits { IsComponent result }
    {
        let Component { fields } = self;
        fields
    }
}
