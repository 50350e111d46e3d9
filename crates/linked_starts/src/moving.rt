//! Numbers and words of a part, moved to where the part stands.
ghost use Rattle.std.specs.Prelude.{◌≡◌, ◌+◌, ◌-◌, ◌<◌, ◌≤◌, ◌^◌, ◌-ℤ◌, pos, FitsSigned};
ghost use Rattle.std.specs.Int.{w64};
ghost use Rattle.cap_words.specs.WordBytes.{WordFits};
ghost use Rattle.lcm_machine.specs.Table.{fits_64};
ghost use Rattle.linked_starts.specs.Placing.{shifted, shifted_int, shifted_base};
ghost use Rattle.linked_starts.specs.Placing.{moved_word, moved_cap, moved_seals};

use cap_words::{Cap, CapFields, LAST_PLACE, SealCap, SealFields, Word};

/// Numbers from one on are moved to those from another on.
#[derive(Clone, Copy)]
pub struct Shift {
    /// The first number before.
    pub from: u32,
    /// The first number where it stands.
    pub to: u32,
}

/// How a part is moved.
#[derive(Clone, Copy)]
pub struct Move {
    /// Its addresses.
    pub addresses: Shift,
    /// Its seals.
    pub seals: Shift,
}

/// What is free: addresses from one on, and seals from one on.
#[derive(Clone, Copy)]
pub struct Free {
    /// The first address.
    pub address: u32,
    /// The first seal.
    pub seal: u32,
}

impl Shift {
    /// A number, moved.
    pub fn number(self, n: u32) -> u32
        requires { self.to + (n - self.from) < 2 ^ 32 }
        ensures { result ≡ shifted self n }
    {
        self.to + n.saturating_sub(self.from)
    }

    /// The base of so many; that of none stays.
    pub fn base(self, base: u32, count: u32) -> u32
        requires { shifted_base self base count < 2 ^ 32 }
        ensures { result ≡ shifted_base self base count }
    {
        if count == 0 {
            return base;
        }
        self.number(base)
    }

    // How far it goes, up or down.
    fn distance(self) -> i64
        ensures { result ≡ pos self.to -ℤ pos self.from }
    {
        i64::from(self.to) - i64::from(self.from)
    }

    /// Whether an address or a current seal, moved, is an integer of the machine.
    pub fn has_int(self, z: i64) -> bool
        ensures { result ≡ fits_64 (shifted_int self z) }
    {
        z.checked_add(self.distance()).is_some()
    }

    /// An address or a current seal, moved.
    pub fn int(self, z: i64) -> i64
        requires { FitsSigned w64 (shifted_int self z) }
        ensures { result ≡ shifted_int self z }
    {
        z + self.distance()
    }
}

// A memory capability, moved.
fn moved_cap(c: CapFields, addresses: Shift) -> Cap
    requires in_order { (moved_cap addresses c).base ≤ (moved_cap addresses c).end }
    requires in_space { (moved_cap addresses c).end ≤ LAST_PLACE }
    requires fits { FitsSigned w64 (moved_cap addresses c).addr }
    ensures { result ≡ moved_cap addresses c }
{
    let base = addresses.number(c.base);
    let end = addresses.number(c.end);
    let addr = addresses.int(c.addr);
    Cap::new(c.perm, c.lin, base, end, addr)
}

// A seal capability, moved.
fn moved_seals(s: SealFields, seals: Shift) -> SealCap
    requires in_order { (moved_seals seals s).base ≤ (moved_seals seals s).end }
    requires in_space { (moved_seals seals s).end ≤ LAST_PLACE }
    requires fits { FitsSigned w64 (moved_seals seals s).cur }
    ensures { result ≡ moved_seals seals s }
{
    let base = seals.number(s.base);
    let end = seals.number(s.end);
    let cur = seals.int(s.cur);
    SealCap::new(base, end, cur)
}

/// A word as another is described, moved. A sealed word, of which components have none, stays.
pub fn moved_word(word: &Word, m: Move) -> Word
    requires { WordFits (moved_word m word.now) }
    ensures { result ≡ moved_word m word.now }
{
    match word {
        Word::Int(n) => Word::Int(*n),
        Word::Mem(c) => Word::Mem(moved_cap(c.fields(), m.addresses)),
        Word::Seal(c) => Word::Seal(moved_seals(c.fields(), m.seals)),
        Word::Sealed(_, _) => word.made_anew(),
    }
}
