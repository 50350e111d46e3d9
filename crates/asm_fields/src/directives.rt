//! The directives.
ghost use Rattle.std.specs.Prelude.{◌≡◌};
ghost use Rattle.asm_fields.specs.Directives.{item_name, word_kind_name, directive_name, directive_named};

/// The items of a text that aren't words, in the order in which they stand.
#[derive(Clone, Copy)]
pub enum ItemKind {
    /// The part's name.
    Name,
    /// The address at which the stack begins.
    Stack,
    /// The seal of the part's entries.
    Closure,
    /// That the linker gives the part its place.
    Movable,
    /// The seals of the part's return points.
    Seals,
    /// The addresses of which the part may have linear capabilities.
    Linear,
    /// The address of the first code word; the code follows.
    Code,
    /// The address of the first data word; the data follow.
    Data,
    /// What the part wants to call.
    Import,
    /// What the part lets others call.
    Export,
    /// The offset of one of the part's own calls.
    Site,
    /// The offset of the instruction `fail` to which checks jump.
    Fail,
    /// The offset of the seal capability over the return seals.
    Literal,
    /// The kinds of the registers at an offset.
    Row,
}

impl ItemKind {
    /// Its name, which stands after the `.`.
    pub fn name(self) -> &'static str
        ensures { result.now ≡ item_name self }
    {
        match self {
            ItemKind::Name => "name",
            ItemKind::Stack => "stack",
            ItemKind::Closure => "closure",
            ItemKind::Movable => "movable",
            ItemKind::Seals => "seals",
            ItemKind::Linear => "linear",
            ItemKind::Code => "code",
            ItemKind::Data => "data",
            ItemKind::Import => "import",
            ItemKind::Export => "export",
            ItemKind::Site => "site",
            ItemKind::Fail => "fail",
            ItemKind::Literal => "literal",
            ItemKind::Row => "row",
        }
    }
}

/// The words of code and data that are written by a directive.
#[derive(Clone, Copy)]
pub enum WordKind {
    /// An integer.
    Int,
    /// A memory capability.
    Cap,
    /// A seal capability.
    Seal,
}

impl WordKind {
    /// Its name, which stands after the `.`.
    pub fn name(self) -> &'static str
        ensures { result.now ≡ word_kind_name self }
    {
        match self {
            WordKind::Int => "int",
            WordKind::Cap => "cap",
            WordKind::Seal => "seal",
        }
    }
}

/// What a `.` stands before.
#[derive(Clone, Copy)]
pub enum Directive {
    /// It begins an item.
    Of(ItemKind),
    /// It begins a word.
    Word(WordKind),
}

impl Directive {
    /// Its name.
    pub fn name(self) -> &'static str
        ensures { result.now ≡ directive_name self }
    {
        match self {
            Directive::Of(item) => item.name(),
            Directive::Word(kind) => kind.name(),
        }
    }

    /// The directive of this name.
    pub fn of_name(name: &[u8]) -> Option<Directive>
        ensures { result ≡ directive_named name.now }
    {
        [
            Directive::Of(ItemKind::Name),
            Directive::Of(ItemKind::Stack),
            Directive::Of(ItemKind::Closure),
            Directive::Of(ItemKind::Movable),
            Directive::Of(ItemKind::Seals),
            Directive::Of(ItemKind::Linear),
            Directive::Of(ItemKind::Code),
            Directive::Of(ItemKind::Data),
            Directive::Of(ItemKind::Import),
            Directive::Of(ItemKind::Export),
            Directive::Of(ItemKind::Site),
            Directive::Of(ItemKind::Fail),
            Directive::Of(ItemKind::Literal),
            Directive::Of(ItemKind::Row),
            Directive::Word(WordKind::Int),
            Directive::Word(WordKind::Cap),
            Directive::Word(WordKind::Seal),
        ]
        .iter()
        .copied()
        .find(|d| d.name().as_bytes() == name)
    }
}
