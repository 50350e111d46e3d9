//! The instructions of the linear capability machine: their numbers and their names.
//!
//! An instruction is one integer word. Its number is
//! `op + 2^6 * r1 + 2^10 * r2 + 2^14 * r3 + 2^18 * mode + 2^19 * field`.
//! `r1` to `r3` are the numbers of its registers. Its last operand is a register (mode 0, and the
//! field is its number) or a signed immediate of 32 bits (mode 1, and the field is the immediate
//! raised by 2^31). What an instruction doesn't have is 0, and every other integer is no
//! instruction.
#![tactic(auto)]

mod text;

ghost use Rattle.std.specs.Prelude.{◌≡◌, ◌≢◌, ◌≤◌, ◌<◌, ◌+◌, ◌*◌, ◌/◌, ◌%◌, ◌^◌, ℕ, ℤ, pos, Some, IfSome};
ghost use Rattle.std.specs.Prelude.{IfNone, find, length};
ghost use Rattle.std.specs.Str.{bytes_eq};
ghost use Rattle.lcm_isa.specs.Numbers.{reg_number, reg_of, mode_of, field_of, operand_of, packed, number_of};
ghost use Rattle.lcm_isa.specs.Numbers.{all_with, table, decode_of, candidate, if_numbered, IsInstr};
ghost use Rattle.lcm_isa.specs.Own.{field_fits, is_own};
ghost use Rattle.lcm_isa.specs.Texts.{reg_name, mnemonic_of};

/// One of the sixteen registers, in the order of their numbers, 0 to 15.
///
/// `Pc` is the program counter, `Stk` the stack capability and `Dat` the register `data`. The
/// names of the others say how the calling convention uses them.
#[derive(Clone, Copy)]
pub enum Reg {
    Pc,
    Rcode,
    Rdata,
    Stk,
    Dat,
    T1,
    T2,
    C1,
    C2,
    A0,
    A1,
    A2,
    A3,
    G0,
    G1,
    G2,
}

/// The last operand of some instructions: a register, or a number in the instruction itself.
#[derive(Clone, Copy)]
pub enum Operand {
    R(Reg),
    Imm(i32),
}

/// An instruction, with its operands in the order in which a program writes them.
///
/// The variants stand in the order of their op numbers, 0 to 22.
#[derive(Clone, Copy)]
pub enum Instr {
    Fail,
    Halt,
    Jmp(Reg),
    Jnz(Reg, Reg),
    Gettype(Reg, Reg),
    Geta(Reg, Reg),
    Getb(Reg, Reg),
    Gete(Reg, Reg),
    Getp(Reg, Reg),
    Getlin(Reg, Reg),
    Move(Reg, Operand),
    Store(Reg, Reg),
    Load(Reg, Reg),
    Cca(Reg, Operand),
    Restrict(Reg, Operand),
    Lt(Reg, Reg, Operand),
    Plus(Reg, Reg, Operand),
    Minus(Reg, Reg, Operand),
    Seta2b(Reg),
    Xjmp(Reg, Reg),
    Cseal(Reg, Reg),
    Split(Reg, Reg, Reg, Operand),
    Splice(Reg, Reg, Reg),
}

impl Reg {
    // The registers in the order of their numbers.
    const ALL: [Reg; 16] = [
        Reg::Pc,
        Reg::Rcode,
        Reg::Rdata,
        Reg::Stk,
        Reg::Dat,
        Reg::T1,
        Reg::T2,
        Reg::C1,
        Reg::C2,
        Reg::A0,
        Reg::A1,
        Reg::A2,
        Reg::A3,
        Reg::G0,
        Reg::G1,
        Reg::G2,
    ];

    /// The register's name, as an assembler writes it: `pc`, `rcode` and so on. `Dat` is `data`.
    pub fn name(self) -> &'static str
        ensures { result.now ≡ reg_name self }
    {
        match self {
            Reg::Pc => "pc",
            Reg::Rcode => "rcode",
            Reg::Rdata => "rdata",
            Reg::Stk => "stk",
            Reg::Dat => "data",
            Reg::T1 => "t1",
            Reg::T2 => "t2",
            Reg::C1 => "c1",
            Reg::C2 => "c2",
            Reg::A0 => "a0",
            Reg::A1 => "a1",
            Reg::A2 => "a2",
            Reg::A3 => "a3",
            Reg::G0 => "g0",
            Reg::G1 => "g1",
            Reg::G2 => "g2",
        }
    }

    /// The register of this name, and None exactly where no register has it.
    pub fn of_name(name: &[u8]) -> Option<Reg>
        ensures found { IfSome result (λ r. name.now ≡ reg_name r) }
        ensures back { (r : Reg) → name.now ≡ reg_name r → result ≡ Some r }
        ensures none { IfNone result ((r : Reg) → name.now ≢ reg_name r) }
    {
        Reg::first_named(&Reg::ALL, name)
    }

    // The first of these registers that has the name.
    fn first_named(registers: &[Reg], name: &[u8]) -> Option<Reg>
        ensures { result ≡ find (λ r. bytes_eq (reg_name r) name.now) registers.now }
    {
        registers
            .iter()
            .copied()
            .find(|r| r.name().as_bytes() == name)
    }

    /// The register's number, 0 to 15.
    pub fn number(self) -> u64
        ensures value { result ≡ reg_number self }
        ensures below { result < 16 }
    {
        match self {
            Reg::Pc => 0,
            Reg::Rcode => 1,
            Reg::Rdata => 2,
            Reg::Stk => 3,
            Reg::Dat => 4,
            Reg::T1 => 5,
            Reg::T2 => 6,
            Reg::C1 => 7,
            Reg::C2 => 8,
            Reg::A0 => 9,
            Reg::A1 => 10,
            Reg::A2 => 11,
            Reg::A3 => 12,
            Reg::G0 => 13,
            Reg::G1 => 14,
            Reg::G2 => 15,
        }
    }

    // The register of a number, of which those above 15 count as 15.
    fn of(number: u64) -> Reg
        ensures { result ≡ reg_of number }
    {
        match number {
            0 => Reg::Pc,
            1 => Reg::Rcode,
            2 => Reg::Rdata,
            3 => Reg::Stk,
            4 => Reg::Dat,
            5 => Reg::T1,
            6 => Reg::T2,
            7 => Reg::C1,
            8 => Reg::C2,
            9 => Reg::A0,
            10 => Reg::A1,
            11 => Reg::A2,
            12 => Reg::A3,
            13 => Reg::G0,
            14 => Reg::G1,
            _ => Reg::G2,
        }
    }
}

impl Operand {
    // 0 for a register, 1 for an immediate.
    fn mode(self) -> u64
        ensures value { result ≡ mode_of self }
        ensures below { result < 2 }
    {
        match self {
            Operand::R(_) => 0,
            Operand::Imm(_) => 1,
        }
    }

    // A register's number, or the immediate raised by 2^31.
    fn field(self) -> u64
        ensures value { result ≡ field_of self }
        ensures below { result < 2 ^ 32 }
    {
        match self {
            Operand::R(register) => register.number(),
            Operand::Imm(n) => (i64::from(n) + 2_147_483_648) as u64,
        }
    }
}

// The weight of the first register in an instruction's number, where the op's is 1.
const FIRST: u64 = 64;

// The weight of the second register.
const SECOND: u64 = 1024;

// The weight of the third register.
const THIRD: u64 = 16_384;

// The weight of the mode.
const MODE: u64 = 262_144;

// The weight of the field.
const FIELD: u64 = 524_288;

// The parts of an instruction in one number.
fn number_of_parts(op: u64, first: Reg, second: Reg, third: Reg, last: Operand) -> u64
    requires { op < 64 }
    ensures value { result ≡ packed op (reg_number first) (reg_number second) (reg_number third)
        (mode_of last) (field_of last) }
    ensures below { result < 2 ^ 51 }
{
    let low = op + FIRST * first.number() + SECOND * second.number() + THIRD * third.number();
    low + MODE * last.mode() + FIELD * last.field()
}

// The parts of an instruction: its op number, its registers and its last operand. What it doesn't have
// counts as pc, whose number is 0.
#[tactic(auto, unfolding(crate::specs::Numbers::number_of))]
fn parts(instr: &Instr) -> (u64, Reg, Reg, Reg, Operand)
    ensures value { number_of instr.now ≡ packed result.0 (reg_number result.1) (reg_number result.2)
        (reg_number result.3) (mode_of result.4) (field_of result.4) }
    ensures below { result.0 < 64 }
{
    let pc = Reg::Pc;
    let none = Operand::R(pc);
    match *instr {
        Instr::Fail => (0, pc, pc, pc, none),
        Instr::Halt => (1, pc, pc, pc, none),
        Instr::Jmp(a) => (2, a, pc, pc, none),
        Instr::Jnz(a, b) => (3, a, b, pc, none),
        Instr::Gettype(a, b) => (4, a, b, pc, none),
        Instr::Geta(a, b) => (5, a, b, pc, none),
        Instr::Getb(a, b) => (6, a, b, pc, none),
        Instr::Gete(a, b) => (7, a, b, pc, none),
        Instr::Getp(a, b) => (8, a, b, pc, none),
        Instr::Getlin(a, b) => (9, a, b, pc, none),
        Instr::Move(a, n) => (10, a, pc, pc, n),
        Instr::Store(a, b) => (11, a, b, pc, none),
        Instr::Load(a, b) => (12, a, b, pc, none),
        Instr::Cca(a, n) => (13, a, pc, pc, n),
        Instr::Restrict(a, n) => (14, a, pc, pc, n),
        Instr::Lt(a, b, n) => (15, a, b, pc, n),
        Instr::Plus(a, b, n) => (16, a, b, pc, n),
        Instr::Minus(a, b, n) => (17, a, b, pc, n),
        Instr::Seta2b(a) => (18, a, pc, pc, none),
        Instr::Xjmp(a, b) => (19, a, b, pc, none),
        Instr::Cseal(a, b) => (20, a, b, pc, none),
        Instr::Split(a, b, c, n) => (21, a, b, c, n),
        Instr::Splice(a, b, c) => (22, a, b, c, none),
    }
}

/// The number of an instruction. It is never negative.
///
/// It is `op + 2^6 * r1 + 2^10 * r2 + 2^14 * r3 + 2^18 * mode + 2^19 * field`, where what the
/// instruction doesn't have is 0.
pub fn encode(instr: &Instr) -> i64
    ensures { result ≡ pos (number_of instr.now) }
{
    let (op, first, second, third, last) = parts(instr);
    number_of_parts(op, first, second, third, last) as i64
}

impl Instr {
    /// Each instruction, with those of these operands that it has, in the order of the op numbers.
    #[tactic(auto, unfolding(crate::specs::Numbers::all_with))]
    pub fn all_with(a: Reg, b: Reg, c: Reg, n: Operand) -> [Instr; 23]
        ensures { result ≡ all_with a b c n }
    {
        [
            Instr::Fail,
            Instr::Halt,
            Instr::Jmp(a),
            Instr::Jnz(a, b),
            Instr::Gettype(a, b),
            Instr::Geta(a, b),
            Instr::Getb(a, b),
            Instr::Gete(a, b),
            Instr::Getp(a, b),
            Instr::Getlin(a, b),
            Instr::Move(a, n),
            Instr::Store(a, b),
            Instr::Load(a, b),
            Instr::Cca(a, n),
            Instr::Restrict(a, n),
            Instr::Lt(a, b, n),
            Instr::Plus(a, b, n),
            Instr::Minus(a, b, n),
            Instr::Seta2b(a),
            Instr::Xjmp(a, b),
            Instr::Cseal(a, b),
            Instr::Split(a, b, c, n),
            Instr::Splice(a, b, c),
        ]
    }
}

// The instruction of an op number, where there is one, with those of these registers and
// this operand that it has.
#[tactic(auto, unfolding(crate::specs::Numbers::table, crate::specs::Numbers::all_with))]
#[inline(always)]
fn shape(op: u64, a: Reg, b: Reg, c: Reg, n: Operand) -> Option<Instr>
    ensures { result ≡ table op a b c n }
{
    let instr = match op {
        0 => Instr::Fail,
        1 => Instr::Halt,
        2 => Instr::Jmp(a),
        3 => Instr::Jnz(a, b),
        4 => Instr::Gettype(a, b),
        5 => Instr::Geta(a, b),
        6 => Instr::Getb(a, b),
        7 => Instr::Gete(a, b),
        8 => Instr::Getp(a, b),
        9 => Instr::Getlin(a, b),
        10 => Instr::Move(a, n),
        11 => Instr::Store(a, b),
        12 => Instr::Load(a, b),
        13 => Instr::Cca(a, n),
        14 => Instr::Restrict(a, n),
        15 => Instr::Lt(a, b, n),
        16 => Instr::Plus(a, b, n),
        17 => Instr::Minus(a, b, n),
        18 => Instr::Seta2b(a),
        19 => Instr::Xjmp(a, b),
        20 => Instr::Cseal(a, b),
        21 => Instr::Split(a, b, c, n),
        22 => Instr::Splice(a, b, c),
        _ => return None,
    };
    Some(instr)
}

impl Operand {
    // Whether a number's field is that of the operand that it spells: a register's is below 16.
    #[inline(always)]
    fn fits(self, n: u64) -> bool
        ensures { result ≡ field_fits self n }
    {
        match self {
            Operand::R(_) => n < 16 * FIELD,
            Operand::Imm(_) => true,
        }
    }
}

// Whether a number has no parts but those of the instruction that they spell.
#[tactic(auto, unfolding(crate::specs::Own::is_own))]
#[inline(always)]
fn is_own(instr: &Instr, n: u64) -> bool
    ensures { result ≡ is_own instr.now n }
{
    match *instr {
        Instr::Fail | Instr::Halt => n < FIRST,
        Instr::Jmp(_) | Instr::Seta2b(_) => n < SECOND,
        Instr::Jnz(_, _)
        | Instr::Gettype(_, _)
        | Instr::Geta(_, _)
        | Instr::Getb(_, _)
        | Instr::Gete(_, _)
        | Instr::Getp(_, _)
        | Instr::Getlin(_, _)
        | Instr::Store(_, _)
        | Instr::Load(_, _)
        | Instr::Xjmp(_, _)
        | Instr::Cseal(_, _) => n < THIRD,
        Instr::Splice(_, _, _) => n < MODE,
        Instr::Move(_, o) | Instr::Cca(_, o) | Instr::Restrict(_, o) => {
            n / SECOND % 256 == 0 && o.fits(n)
        }
        Instr::Lt(_, _, o) | Instr::Plus(_, _, o) | Instr::Minus(_, _, o) => {
            n / THIRD % 16 == 0 && o.fits(n)
        }
        Instr::Split(_, _, _, o) => o.fits(n),
    }
}

// The instruction that the parts of a number spell with its operand, where the number is its own.
#[tactic(auto, unfolding(crate::specs::Numbers::candidate))]
#[inline(always)]
fn owned(n: u64, operand: Operand) -> Option<Instr>
    requires small { n < 2 ^ 51 }
    requires spelt { operand ≡ operand_of (n / MODE % 2) (n / FIELD) }
    ensures { result ≡ if_numbered n (candidate n) }
{
    let first = Reg::of(n / FIRST % 16);
    let second = Reg::of(n / SECOND % 16);
    let third = Reg::of(n / THIRD % 16);
    let instr = shape(n % FIRST, first, second, third, operand)?;
    if is_own(&instr, n) { Some(instr) } else { None }
}

// The instruction that the parts spell, where the number is its own. The two kinds of operand are
// told apart first, so that what is done with each is compiled apart.
#[tactic(auto, using(crate::proofs::OwnLemmas::far_candidate))]
#[inline(always)]
fn instr_of(n: u64) -> Option<Instr>
    requires { n < 2 ^ 51 }
    ensures { result ≡ if_numbered n (candidate n) }
{
    if n / MODE % 2 == 0 {
        if n < 16 * FIELD {
            owned(n, Operand::R(Reg::of(n / FIELD)))
        } else {
            None
        }
    } else {
        owned(n, Operand::Imm(((n / FIELD) as i64 - 2_147_483_648) as i32))
    }
}

/// The instruction of a number, and None exactly where no instruction has it.
#[tactic(auto, unfolding(crate::specs::Numbers::decode_of))]
#[inline(always)]
pub fn decode(word: i64) -> Option<Instr>
    ensures is { result ≡ decode_of word }
    ensures found { IfSome result (λ i. IsInstr i × (word ≡ pos (number_of i))) }
    ensures none { IfNone result ((i : Instr) → IsInstr i → word ≢ pos (number_of i)) }
{
    if word < 0 {
        return None;
    }
    let n = word as u64;
    if n < 2_251_799_813_685_248 {
        instr_of(n)
    } else {
        None
    }
}

impl Instr {
    /// The instruction's first word, as an assembler writes it: `fail`, `halt`, `jmp` and so on.
    pub fn mnemonic(&self) -> &'static str
        ensures text { result.now ≡ mnemonic_of self.now }
        ensures short { length result.now ≤ 8 }
    {
        self.first_word()
    }

    // The word itself: that each is short is a lemma.
    fn first_word(&self) -> &'static str
        ensures { result.now ≡ mnemonic_of self.now }
    {
        match self {
            Instr::Fail => "fail",
            Instr::Halt => "halt",
            Instr::Jmp(_) => "jmp",
            Instr::Jnz(_, _) => "jnz",
            Instr::Gettype(_, _) => "gettype",
            Instr::Geta(_, _) => "geta",
            Instr::Getb(_, _) => "getb",
            Instr::Gete(_, _) => "gete",
            Instr::Getp(_, _) => "getp",
            Instr::Getlin(_, _) => "getlin",
            Instr::Move(_, _) => "move",
            Instr::Store(_, _) => "store",
            Instr::Load(_, _) => "load",
            Instr::Cca(_, _) => "cca",
            Instr::Restrict(_, _) => "restrict",
            Instr::Lt(_, _, _) => "lt",
            Instr::Plus(_, _, _) => "plus",
            Instr::Minus(_, _, _) => "minus",
            Instr::Seta2b(_) => "seta2b",
            Instr::Xjmp(_, _) => "xjmp",
            Instr::Cseal(_, _) => "cseal",
            Instr::Split(_, _, _, _) => "split",
            Instr::Splice(_, _, _) => "splice",
        }
    }
}

/// The number of an instruction leads back to it, and no other number does.
pub fn decode_is_exact()
    ensures back { (i : Instr) → IsInstr i → decode_of (pos (number_of i)) ≡ Some i }
    ensures only { (z : ℤ) (i : Instr) → decode_of z ≡ Some i → z ≡ pos (number_of i) }
{}
