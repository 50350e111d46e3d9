//! Words of a machine with linear capabilities.
//!
//! A word is an integer, a memory capability, a seal capability, or a sealed word. A capability is
//! the right to use a range: of memory, or of seals.
//!
//! A linear word exists once: it can be moved and not copied. So no word here is `Copy` or
//! `Clone`, and `copy_of` refuses a linear one. Only the descriptions, as [`CapFields`] and
//! [`Face`], may be copied, since they give no right. The machine itself makes capabilities out of
//! descriptions, by `new` and `of`: no contract here keeps it from making a linear one twice.
#![tactic(auto)]

ghost use Rattle.std.specs.Prelude.{◌≡◌, ◌≤◌, Option, Some, None, if◌then◌else◌};
ghost use Rattle.cap_words.specs.declared.Word.{Word};
ghost use Rattle.cap_words.specs.declared.Word.TheVariants.{Int};
ghost use Rattle.cap_words.specs.Linear.{lin_is, is_linear, copied, left_of};
ghost use Rattle.cap_words.specs.Face.{face_of, opened_of, FaceInOrder, OpenedInOrder, SomeCapInOrder};
ghost use Rattle.cap_words.specs.Face.{SomeSealsInOrder, pointed};
ghost use Rattle.cap_words.specs.Faces.{may_write, may_read, may_run, perm_number, perm_at, is_below};
ghost use Rattle.cap_words.specs.Faces.{same_kind, int_in, memory_in, seals_in, face_linear, face_number};
ghost use Rattle.cap_words.specs.Faces.{face_address, face_base, face_end, face_perm, seals_at, address};
ghost use Rattle.cap_words.specs.Faces.{target_of};
ghost use Rattle.cap_words.specs.Text.{perm_name, lin_name, perm_named, lin_named};

mod bytes;
mod items;
mod names;
mod seal_range;
mod text;

pub use bytes::{Cursor, FieldFault, laws, push_u16, push_u32, push_word, read_word, word_bytes};
pub use items::Items;
pub use names::is_name;
pub use seal_range::SealRange;
use std::marker::Model;
use std::mem;
pub use text::word_text;

/// The last of the 1,048,576 addresses, and the last of as many seals.
pub const LAST_PLACE: u32 = 1_048_575;

/// The most addresses or seals that stand together in one stretch.
pub const LONGEST_STRETCH: u32 = 65_536;

/// The most bytes of a name.
pub const LONGEST_NAME: usize = 31;

/// What a memory capability allows at the addresses of its range.
#[derive(Clone, Copy)]
pub enum Perm {
    /// Nothing.
    No,
    /// To read.
    R,
    /// To read and write.
    Rw,
    /// To read and run.
    Rx,
    /// To read, write and run.
    Rwx,
}

impl Perm {
    /// Whether it allows to write: `rw` and `rwx` do.
    pub fn may_write(self) -> bool
        ensures { result ≡ may_write self }
    {
        matches!(self, Perm::Rw | Perm::Rwx)
    }

    /// Whether it allows to read: each does but `no`.
    pub fn may_read(self) -> bool
        ensures { result ≡ may_read self }
    {
        !matches!(self, Perm::No)
    }

    /// Whether it allows to run what it reads: `rx` and `rwx` do.
    pub fn may_run(self) -> bool
        ensures { result ≡ may_run self }
    {
        matches!(self, Perm::Rx | Perm::Rwx)
    }

    /// Its number in programs: 0 for `no`, 1 `r`, 2 `rw`, 3 `rx`, 4 `rwx`.
    pub fn number(self) -> u8
        ensures { result ≡ perm_number self }
    {
        match self {
            Perm::No => 0,
            Perm::R => 1,
            Perm::Rw => 2,
            Perm::Rx => 3,
            Perm::Rwx => 4,
        }
    }

    /// The permission of a number, and `None` for a number that is none of 0 to 4.
    pub fn of(number: i64) -> Option<Perm>
        ensures { result ≡ perm_at number }
    {
        match number {
            0 => Some(Perm::No),
            1 => Some(Perm::R),
            2 => Some(Perm::Rw),
            3 => Some(Perm::Rx),
            4 => Some(Perm::Rwx),
            _ => None,
        }
    }

    /// Its name in the text of a word: `no`, `r`, `rw`, `rx` or `rwx`.
    pub fn name(self) -> &'static str
        ensures { result.now ≡ perm_name self }
    {
        match self {
            Perm::No => "no",
            Perm::R => "r",
            Perm::Rw => "rw",
            Perm::Rx => "rx",
            Perm::Rwx => "rwx",
        }
    }

    /// The permission of this name, and `None` exactly where none has it.
    pub fn of_name(name: &[u8]) -> Option<Perm>
        ensures { result ≡ perm_named name.now }
    {
        match name {
            b"no" => Some(Perm::No),
            b"r" => Some(Perm::R),
            b"rw" => Some(Perm::Rw),
            b"rx" => Some(Perm::Rx),
            b"rwx" => Some(Perm::Rwx),
            _ => None,
        }
    }

    /// Whether it allows no more than `other`. A program may lower the permission of a
    /// capability that it has, and never raise it. Neither of `rw` and `rx` is below the other.
    pub fn is_below(self, other: Perm) -> bool
        ensures { result ≡ is_below self other }
    {
        match self {
            Perm::No => true,
            Perm::R => other.may_read(),
            Perm::Rw => other.may_write(),
            Perm::Rx => other.may_run(),
            Perm::Rwx => other.may_write() && other.may_run(),
        }
    }
}

/// Whether a capability may be copied.
#[derive(Clone, Copy)]
pub enum Lin {
    /// It may be copied.
    Normal,
    /// It exists once: it can be moved and not copied.
    Linear,
}

impl Lin {
    /// Whether it is `Linear`.
    pub fn is_linear(self) -> bool
        ensures { result ≡ lin_is self }
    {
        match self {
            Lin::Normal => false,
            Lin::Linear => true,
        }
    }

    /// Its name in the text of a word: `nor` or `lin`.
    pub fn name(self) -> &'static str
        ensures { result.now ≡ lin_name self }
    {
        match self {
            Lin::Normal => "nor",
            Lin::Linear => "lin",
        }
    }

    /// Which of the two has this name, and `None` exactly where neither has it.
    pub fn of_name(name: &[u8]) -> Option<Lin>
        ensures { result ≡ lin_named name.now }
    {
        match name {
            b"nor" => Some(Lin::Normal),
            b"lin" => Some(Lin::Linear),
            _ => None,
        }
    }
}

/// What is said of a memory capability. A description may be copied; it gives no authority.
#[derive(Clone, Copy)]
pub struct CapFields {
    /// What it allows.
    pub perm: Perm,
    /// Whether it may be copied.
    pub lin: Lin,
    /// The first address of its range.
    pub base: u32,
    /// The last address of its range, which belongs to the range.
    pub end: u32,
    /// The address that it points to, which may lie outside the range and is then of no use.
    pub addr: i64,
}

impl CapFields {
    /// Whether the two have the same permission and are both linear or both normal. Only such
    /// capabilities can be joined into one.
    pub fn same_kind(&self, other: &CapFields) -> bool
        ensures { result ≡ same_kind self.now other.now }
    {
        self.perm.number() == other.perm.number() && self.lin.is_linear() == other.lin.is_linear()
    }
}

/// A memory capability: the right to use a range of addresses. A contract sees it as its fields.
///
/// The range is not empty, and it ends within the 1,048,576 addresses that there are: base is at
/// most end, and end at most [`LAST_PLACE`]. Each value keeps this.
#[derive(Drop)]
pub struct Cap {
    fields: CapFields,
}

impl Model for Cap {
    ghost use Rattle.cap_words.specs.Ranges.{IsRange};
    ghost use Rattle.cap_words.specs.declared.CapFields.{CapFields};

    ghost Value = { CapFields };

    ghost view = { λ c. c.fields };

    ghost invariant = { λ c. IsRange c.fields.base c.fields.end };
}

impl Cap {
    /// A capability of these fields. The range isn't empty and ends within the address space.
    ///
    /// This makes a right out of numbers, so it is for the machine and not for its programs: that
    /// no linear capability comes to exist twice is left to the caller.
    pub fn new(perm: Perm, lin: Lin, base: u32, end: u32, addr: i64) -> Cap
        requires in_order { base ≤ end }
        requires in_space { end ≤ LAST_PLACE }
        ensures { result ≡ record { perm = perm; lin = lin; base = base; end = end; addr = addr } }
    {
        Cap::of(CapFields {
            perm,
            lin,
            base,
            end,
            addr,
        })
    }

    /// The capability that a description describes, made as [`Cap::new`] makes it.
    pub fn of(fields: CapFields) -> Cap
        requires in_order { fields.base ≤ fields.end }
        requires in_space { fields.end ≤ LAST_PLACE }
        ensures { result ≡ fields }
    {
        Cap { fields }
    }

    /// Points it to another address.
    pub fn point_to(&mut self, addr: i64)
        ensures { self.new ≡ record self.old { addr = addr } }
    {
        self.fields.addr = addr;
    }

    /// Its description.
    pub fn fields(&self) -> CapFields
        ensures same { result ≡ self.now }
        ensures in_order { result.base ≤ result.end }
        ensures in_space { result.end ≤ LAST_PLACE }
    {
        self.fields
    }
}

/// What is said of a seal capability. A description may be copied; it gives no authority.
#[derive(Clone, Copy)]
pub struct SealFields {
    /// The first seal of its range.
    pub base: u32,
    /// The last seal of its range, which belongs to the range.
    pub end: u32,
    /// The seal that it points to, which may lie outside the range and is then of no use.
    pub cur: i64,
}

impl SealFields {
    /// The seal that it seals with: the current one where that is in the range, else `None`.
    pub fn current(&self) -> Option<u32>
        requires { self.now.end ≤ LAST_PLACE }
        ensures { result ≡ (if seals_at self.now self.now.cur then Some (address self.now.cur) else None) }
    {
        if i64::from(self.base) <= self.cur && self.cur <= i64::from(self.end) {
            Some(self.cur as u32)
        } else {
            None
        }
    }
}

/// A seal capability: the right to seal capabilities with the seals of a range. It opens nothing.
/// A contract sees it as its fields. It is never linear.
///
/// The range is not empty, and it ends within the 1,048,576 seals that there are: base is at most
/// end, and end at most [`LAST_PLACE`]. Each value keeps this.
#[derive(Drop)]
pub struct SealCap {
    fields: SealFields,
}

impl Model for SealCap {
    ghost use Rattle.cap_words.specs.Ranges.{IsRange};
    ghost use Rattle.cap_words.specs.declared.SealFields.{SealFields};

    ghost Value = { SealFields };

    ghost view = { λ c. c.fields };

    ghost invariant = { λ c. IsRange c.fields.base c.fields.end };
}

impl SealCap {
    /// A seal capability of these fields. The range isn't empty and ends within the space of seals.
    ///
    /// This makes a right out of numbers, so it is for the machine and not for its programs.
    pub fn new(base: u32, end: u32, cur: i64) -> SealCap
        requires in_order { base ≤ end }
        requires in_space { end ≤ LAST_PLACE }
        ensures { result ≡ record { base = base; end = end; cur = cur } }
    {
        SealCap::of(SealFields { base, end, cur })
    }

    /// The seal capability that a description describes, made as [`SealCap::new`] makes it.
    pub fn of(fields: SealFields) -> SealCap
        requires in_order { fields.base ≤ fields.end }
        requires in_space { fields.end ≤ LAST_PLACE }
        ensures { result ≡ fields }
    {
        SealCap { fields }
    }

    /// Its description.
    pub fn fields(&self) -> SealFields
        ensures same { result ≡ self.now }
        ensures in_order { result.base ≤ result.end }
        ensures in_space { result.end ≤ LAST_PLACE }
    {
        self.fields
    }
}

/// What can be sealed: a capability, and neither an integer nor a word that is sealed already.
#[derive(Drop)]
pub enum Sealable {
    /// A memory capability.
    Mem(Cap),
    /// A seal capability.
    Seal(SealCap),
}

impl Sealable {
    // The same again, made as it is described.
    #[inline(always)]
    fn made_anew(&self) -> Sealable
        ensures { result ≡ self.now }
    {
        match self {
            Sealable::Mem(c) => Sealable::Mem(Cap::of(c.fields())),
            Sealable::Seal(c) => Sealable::Seal(SealCap::of(c.fields())),
        }
    }
}

/// A word of the machine: what a register or a cell of memory holds.
///
/// It may be dropped, as when a place gets another word, but it cannot be copied freely:
/// [`Word::copy_of`] refuses a linear word.
#[derive(Drop)]
pub enum Word {
    /// An integer, which gives no right.
    Int(i64),
    /// A memory capability.
    Mem(Cap),
    /// A seal capability.
    Seal(SealCap),
    /// A seal, and the capability under it. That one cannot be used or changed until a jump to
    /// two words under one seal opens both.
    Sealed(u32, Sealable),
}

impl Word {
    /// What most instructions read of it.
    pub fn face(&self) -> Face
        ensures is { result ≡ face_of self.now }
        ensures in_order { FaceInOrder result }
    {
        match self {
            Word::Int(n) => Face::Number(*n),
            Word::Mem(c) => Face::Memory(c.fields()),
            Word::Seal(c) => Face::Seals(c.fields()),
            Word::Sealed(_, Sealable::Mem(c)) => Face::Sealed(c.fields().lin),
            Word::Sealed(_, Sealable::Seal(_)) => Face::Sealed(Lin::Normal),
        }
    }

    /// The seal and the content of a sealed word, to read, and `None` for a word that isn't sealed.
    pub fn opened(&self) -> Option<Opened>
        ensures is { result ≡ opened_of self.now }
        ensures in_order { OpenedInOrder result }
    {
        match self {
            Word::Sealed(seal, Sealable::Mem(c)) => {
                Some(Opened {
                    seal: *seal,
                    content: Content::Mem(c.fields()),
                })
            }
            Word::Sealed(seal, Sealable::Seal(c)) => {
                Some(Opened {
                    seal: *seal,
                    content: Content::Seal(c.fields()),
                })
            }
            _ => None,
        }
    }

    /// Whether it is linear: a linear word exists once, and can be moved and not copied. A memory
    /// capability may be linear, and a sealed word is as linear as its content.
    pub fn is_linear(&self) -> bool
        ensures { result ≡ is_linear self.now }
    {
        match self {
            Word::Mem(c) | Word::Sealed(_, Sealable::Mem(c)) => c.fields().lin.is_linear(),
            _ => false,
        }
    }

    /// A copy of it, and `None` exactly for a linear word.
    #[inline(always)]
    pub fn copy_of(&self) -> Option<Word>
        ensures { result ≡ copied self.now }
    {
        if self.is_linear() {
            return None;
        }
        Some(self.made_anew())
    }

    /// The same word again, made as it is described, also where it is linear. It is for whoever lays
    /// words out, or keeps notes of them.
    #[inline(always)]
    pub fn made_anew(&self) -> Word
        ensures { result ≡ self.now }
    {
        match self {
            Word::Int(n) => Word::Int(*n),
            Word::Mem(c) => Word::Mem(Cap::of(c.fields())),
            Word::Seal(c) => Word::Seal(SealCap::of(c.fields())),
            Word::Sealed(seal, content) => Word::Sealed(*seal, content.made_anew()),
        }
    }
}

/// What most instructions read of a word. It may be copied; it gives no authority.
///
/// Of a sealed word it has no more than the linearity: an instruction cannot see under the seal.
#[derive(Clone, Copy)]
pub enum Face {
    /// An integer.
    Number(i64),
    /// The description of a memory capability.
    Memory(CapFields),
    /// The description of a seal capability.
    Seals(SealFields),
    /// A sealed word, as linear as its content.
    Sealed(Lin),
}

impl Face {
    /// The integer, and `None` for another word.
    pub fn int(self) -> Option<i64>
        ensures { result ≡ int_in self }
    {
        match self {
            Face::Number(z) => Some(z),
            _ => None,
        }
    }

    /// The description of a memory capability, and `None` for another word.
    pub fn memory(self) -> Option<CapFields>
        requires { FaceInOrder self }
        ensures is { result ≡ memory_in self }
        ensures in_order { SomeCapInOrder result }
    {
        match self {
            Face::Memory(c) => Some(c),
            _ => None,
        }
    }

    /// The description of a seal capability, and `None` for another word.
    pub fn seals(self) -> Option<SealFields>
        requires { FaceInOrder self }
        ensures is { result ≡ seals_in self }
        ensures in_order { SomeSealsInOrder result }
    {
        match self {
            Face::Seals(c) => Some(c),
            _ => None,
        }
    }

    /// The address that a load or store goes to: that of a memory capability, where it is in the
    /// range, both ends included, and else `None`.
    pub fn target(self) -> Option<u32>
        requires { FaceInOrder self }
        ensures { result ≡ target_of self }
    {
        let c = self.memory()?;
        // It is compared once: below the base the difference wraps, to more than any range has.
        let above = c.addr.cast_unsigned().wrapping_sub(u64::from(c.base));
        if above <= u64::from(c.end - c.base) {
            Some(c.addr as u32)
        } else {
            None
        }
    }

    /// Whether the word is linear: it exists once, and can be moved and not copied.
    pub fn is_linear(self) -> bool
        ensures { result ≡ face_linear self }
    {
        match self {
            Face::Memory(c) => c.lin.is_linear(),
            Face::Sealed(lin) => lin.is_linear(),
            _ => false,
        }
    }

    /// The number of the kind: 0 for an integer, 1 for a memory capability, 2 for a seal
    /// capability, 3 for a sealed word.
    pub fn number(self) -> i64
        ensures { result ≡ face_number self }
    {
        match self {
            Face::Number(_) => 0,
            Face::Memory(_) => 1,
            Face::Seals(_) => 2,
            Face::Sealed(_) => 3,
        }
    }

    /// The address of a memory capability or the current seal of a seal capability, and -1 for
    /// another word.
    pub fn address(self) -> i64
        ensures { result ≡ face_address self }
    {
        match self {
            Face::Memory(c) => c.addr,
            Face::Seals(c) => c.cur,
            _ => -1,
        }
    }

    /// The base of a capability's range, and -1 for another word.
    pub fn base(self) -> i64
        ensures { result ≡ face_base self }
    {
        match self {
            Face::Memory(c) => i64::from(c.base),
            Face::Seals(c) => i64::from(c.base),
            _ => -1,
        }
    }

    /// The end of a capability's range, and -1 for another word.
    pub fn end(self) -> i64
        ensures { result ≡ face_end self }
    {
        match self {
            Face::Memory(c) => i64::from(c.end),
            Face::Seals(c) => i64::from(c.end),
            _ => -1,
        }
    }

    /// The number of a memory capability's permission, as [`Perm::number`] gives it, and -1 for
    /// another word.
    pub fn perm(self) -> i64
        ensures { result ≡ face_perm self }
    {
        match self {
            Face::Memory(c) => i64::from(c.perm.number()),
            _ => -1,
        }
    }
}

/// What is said of a sealed word's content. It may be copied; it gives no authority.
#[derive(Clone, Copy)]
pub enum Content {
    /// The description of a memory capability.
    Mem(CapFields),
    /// The description of a seal capability.
    Seal(SealFields),
}

/// A sealed word, opened to read. It may be copied; it gives no authority.
#[derive(Clone, Copy)]
pub struct Opened {
    /// The seal that it is under.
    pub seal: u32,
    /// What is sealed.
    pub content: Content,
}

/// A word of some machine: what the instructions read of it, and how a plain word becomes one.
///
/// A machine may have more kinds of word than the plain one. Each looks like some plain word, and
/// that is all that an instruction sees of it; and each plain word is one of them, which looks
/// like itself.
pub trait MachineWord: Drop {
    // the plain word that this one looks like
    ghost look: { Self → Word };

    // the word of this machine that a plain word is
    ghost plain: { Word → Self };

    /// What most instructions read of it.
    fn face(&self) -> Face
        ensures is { result ≡ face_of (look self.now) }
        ensures in_order { FaceInOrder result };

    /// The seal and the content of a sealed word, to read, and `None` for a word that isn't sealed.
    fn opened(&self) -> Option<Opened>
        ensures is { result ≡ opened_of (look self.now) }
        ensures in_order { OpenedInOrder result };

    /// A copy of it, and `None` exactly for a linear word: that one exists once, and can be moved
    /// and not copied.
    fn copy_of(&self) -> Option<Self>
        ensures { result ≡ (if is_linear (look self.now) then None else Some self.now) };

    /// The word of this machine that a plain word is.
    fn from_word(word: Word) -> Self
        ensures { result ≡ plain word };

    /// Points a word that looks like a memory capability to another address. Another word stays as it
    /// is.
    fn point_to(&mut self, addr: i64)
        ensures { self.new ≡ pointed plain addr self.old (look self.old) };

    ghost looks_plain: { (word : Word) → look (plain word) ≡ word };
}

/// The plain machine's word: it looks like itself.
impl MachineWord for Word {
    ghost use Rattle.std.specs.Prelude.{refl};

    ghost look = { λ w. w };

    ghost plain = { λ w. w };

    fn face(&self) -> Face {
        Word::face(self)
    }

    fn opened(&self) -> Option<Opened> {
        Word::opened(self)
    }

    #[inline(always)]
    fn copy_of(&self) -> Option<Self> {
        Word::copy_of(self)
    }

    fn from_word(word: Word) -> Self {
        word
    }

    #[inline(always)]
    fn point_to(&mut self, addr: i64) {
        match self {
            Word::Mem(c) => c.point_to(addr),
            Word::Int(_) | Word::Seal(_) | Word::Sealed(_, _) => {}
        }
    }

    ghost looks_plain = { λ w. refl };
}

/// A word that was lifted out of its place and is on its way to another. A contract sees it as
/// the word.
///
/// It is neither `Clone` nor `Drop`: a path that doesn't spend it, by [`Held::put_into`],
/// [`Held::into_word`] or [`Held::give_up`], is a compile error.
pub struct Held<W = Word> {
    word: W,
}

impl<W> Model for Held<W> {
    ghost Value = { W };

    ghost coded = { W.code };

    ghost view = { λ h. h.word };
}

impl<W> Held<W> {
    /// Holds this word.
    pub fn of(word: W) -> Held<W>
        ensures { result ≡ word }
    {
        Held { word }
    }

    /// The word, to read.
    pub fn word(&self) -> &W
        ensures { result.now ≡ self.now }
    {
        &self.word
    }

    /// Spends it: the word itself.
    pub fn into_word(self) -> W
        ensures { result ≡ self }
    {
        let Held { word } = self;
        word
    }
}

impl<W: Drop> Held<W> {
    /// Spends it: the word replaces that of the place, which is dropped.
    pub fn put_into(self, place: &mut W)
        ensures { place.new ≡ self }
    {
        let Held { word } = self;
        *place = word;
    }

    /// Spends it: the word is dropped, and changes nothing.
    pub fn give_up(self) {
        let Held { word: _ } = self;
    }
}

impl<W: MachineWord> Held<W> {
    /// Lifts the word out of a place: a linear one leaves integer 0, since it exists once, and
    /// another stays in its place and is copied.
    pub fn lift(place: &mut W) -> Held<W>
        ensures word { result ≡ place.old }
        ensures left { place.new ≡ left_of W.look W.plain place.old }
    {
        match place.copy_of() {
            Some(word) => Held { word },
            None => Held {
                word: mem::replace(place, W::from_word(Word::Int(0))),
            },
        }
    }
}
