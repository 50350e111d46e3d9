//! The rows of the instruction table: what each instruction is to do in a state.
//!
//! A row makes its tests in the order of the table. It answers what is to be done, as an effect, as the
//! word that a register gets or as a word that moves, or the cause of the first test that fails.
ghost use Rattle.std.specs.Prelude.{◌≡◌, ◌+◌, ◌==◌, ◌&&◌, ◌+ℤ◌, MatchResult, IfOk, true, false};
ghost use Rattle.std.specs.Option.{ok_or};
ghost use Rattle.lcm_isa.specs.declared.Instr.{Instr};
ghost use Rattle.cap_words.specs.declared.Word.{Word};
ghost use Rattle.cap_words.specs.declared.Word.TheVariants.{Int};
ghost use Rattle.cap_words.specs.Face.{CapInOrder, ContentInOrder};
ghost use Rattle.cap_words.specs.Faces.{int_in, memory_in, address, can_split, same_kind};
ghost use Rattle.lcm_machine.specs.Table.{is_pc, into, makes, bit, operand, fits_64, runs_in, unsealed};
ghost use Rattle.lcm_machine.specs.Arith.{arith_of, arith_row};
ghost use Rattle.lcm_machine.specs.Details.{detail_of, detail_row};
ghost use Rattle.lcm_machine.specs.Ends.{Meets};
ghost use Rattle.lcm_machine.specs.Row.{plan_in, planned, row_gives, row_moves, row_jumps, row_splits};
ghost use Rattle.lcm_machine.specs.Row.{row_splices, faces, row, outcome, CanPerform, GoesOnTo};
ghost use Rattle.lcm_machine.specs.declared.plan.Effect.{Effect};
ghost use Rattle.lcm_machine.specs.declared.FailCause.TheVariants.{F5, F6, F9, F13, F14};
ghost use Rattle.lcm_machine.specs.Plan.{Goes};

use crate::plan::{Effect, Made, Moved};
use crate::state::State;
use crate::{FailCause, Place, Step};
use cap_words::{
    Cap, CapFields, Content, Face, MachineWord, Perm, SealCap, SealFields, Sealable, Word,
};
use lcm_isa::{Instr, Operand, Reg};

// A condition, with the cause of the failure where it doesn't hold.
#[inline(always)]
fn ask(holds: bool, cause: FailCause) -> Result<(), FailCause>
    ensures { MatchResult result (λ _. holds ≡ true) (λ f. (holds ≡ false) × (f ≡ cause)) }
{
    if holds { Ok(()) } else { Err(cause) }
}

// A register that is a destination may not be pc: F5.
#[inline(always)]
fn into(r: Reg) -> Result<(), FailCause>
    ensures { MatchResult result (λ _. is_pc r ≡ false) (λ f. (is_pc r ≡ true) × (f ≡ F5)) }
{
    ask(!matches!(r, Reg::Pc), FailCause::F5)
}

// 1 where a condition holds, and else 0.
#[inline(always)]
fn bit(holds: bool) -> i64
    ensures { result ≡ bit holds }
{
    if holds { 1 } else { 0 }
}

/// What instructions show of a word.
#[derive(Clone, Copy)]
pub(crate) enum Detail {
    Kind,
    Address,
    Base,
    End,
    Perm,
    Linearity,
}

impl Detail {
    // The integer that shows it.
    #[inline(always)]
    fn of(self, face: Face) -> i64
        ensures { result ≡ detail_of self face }
    {
        match self {
            Detail::Kind => face.number(),
            Detail::Address => face.address(),
            Detail::Base => face.base(),
            Detail::End => face.end(),
            Detail::Perm => face.perm(),
            Detail::Linearity => bit(face.is_linear()),
        }
    }
}

// `r1` gets an integer that shows something of a word, and pc goes on.
#[inline(always)]
#[tactic(auto, unfolding(crate::specs::Table::ask))]
fn shows(r1: Reg, shown: i64, next: Word) -> Result<Effect, FailCause>
    ensures { planned result ≡ into r1 (makes r1 (Int shown) next) }
{
    into(r1)?;
    Ok(Effect::making(r1, Word::Int(shown), next))
}

// A register gets a word that a row answers, and pc goes on.
#[inline(always)]
fn making(r1: Reg, answer: Result<Word, FailCause>, next: Word) -> Result<Effect, FailCause>
    ensures { planned result ≡ row_gives r1 answer next }
{
    Ok(Effect::making(r1, answer?, next))
}

// A word moves as a row answers, and pc goes on.
#[inline(always)]
fn moving(answer: Result<Moved, FailCause>, next: Word) -> Result<Effect, FailCause>
    ensures { planned result ≡ row_moves answer next }
{
    let Moved { from, to } = answer?;
    Ok(Effect::moving(from, to, Some(next)))
}

// The sum of two integers: F9 where it doesn't fit in 64 bits.
#[inline(always)]
fn sum(x: i64, z: i64) -> Result<i64, FailCause>
    ensures { MatchResult result
        (λ n. (fits_64 (x +ℤ z) ≡ true) × (n ≡ x +ℤ z))
        (λ f. (fits_64 (x +ℤ z) ≡ false) × (f ≡ F9)) }
{
    x.checked_add(z).ok_or(FailCause::F9)
}

/// The instructions that make an integer of two.
#[derive(Clone, Copy)]
pub(crate) enum Arith {
    /// 1 where the first is below the second, and else 0.
    Lt,
    /// Their sum.
    Plus,
    /// The first less the second.
    Minus,
}

impl Arith {
    // What it makes of them: F9 where that doesn't fit in 64 bits.
    #[inline(always)]
    fn of(self, x: i64, z: i64) -> Result<i64, FailCause>
        ensures { MatchResult result
            (λ n. (fits_64 (arith_of self x z) ≡ true) × (n ≡ arith_of self x z))
            (λ f. (fits_64 (arith_of self x z) ≡ false) × (f ≡ F9)) }
    {
        match self {
            Arith::Lt => Ok(bit(x < z)),
            Arith::Plus => sum(x, z),
            Arith::Minus => x.checked_sub(z).ok_or(FailCause::F9),
        }
    }
}

// The two parts of a capability, of which the first ends at `z`: F13 where its range has no such
// parts.
#[inline(always)]
fn parts(c: CapFields, z: i64) -> Result<(Cap, Cap), FailCause>
    requires { CapInOrder c }
    ensures { MatchResult result
        (λ p. (can_split c z ≡ true) × (p.0 ≡ record c { end = address z })
        × (p.1 ≡ record c { base = address z + 1 }))
        (λ f. (can_split c z ≡ false) × (f ≡ F13)) }
{
    let inside = i64::from(c.base) <= z && z < i64::from(c.end);
    ask(inside, FailCause::F13)?;
    let at = z as u32;
    let low = CapFields { end: at, ..c };
    let high = CapFields { base: at + 1, ..c };
    Ok((Cap::of(low), Cap::of(high)))
}

// One capability for the ranges of two: F14 where they aren't of one kind, or not side by side.
#[inline(always)]
fn joined(a: CapFields, b: CapFields) -> Result<Cap, FailCause>
    requires of_a { CapInOrder a }
    requires of_b { CapInOrder b }
    ensures { MatchResult result
        (λ c. ((same_kind a b && (a.end + 1 == b.base)) ≡ true) × (c ≡ record b { base = a.base }))
        (λ f. ((same_kind a b && (a.end + 1 == b.base)) ≡ false) × (f ≡ F14)) }
{
    let adjacent = u64::from(a.end) + 1 == u64::from(b.base);
    ask(a.same_kind(&b) && adjacent, FailCause::F14)?;
    let both = CapFields { base: a.base, ..b };
    Ok(Cap::of(both))
}

// Whether the content of a sealed word is code that may run.
#[inline(always)]
fn runs(content: Content) -> bool
    ensures { result ≡ runs_in content }
{
    match content {
        Content::Mem(c) => c.perm.may_run(),
        Content::Seal(_) => false,
    }
}

// The content of a sealed word as a word of its own.
#[inline(always)]
fn unsealed(content: Content) -> Word
    requires { ContentInOrder content }
    ensures { result ≡ unsealed content }
{
    match content {
        Content::Mem(c) => Word::Mem(Cap::of(c)),
        Content::Seal(c) => Word::Seal(SealCap::of(c)),
    }
}

#[tactic(auto, unfolding(crate::specs::Row::plan_in, crate::specs::Table::ask, crate::specs::Table::need, crate::specs::Table::by_cap))]
impl<W: MachineWord> State<W> {
    // The integer of a register: F6 where it holds another word.
    #[inline(always)]
    fn int(&self, r: Reg) -> Result<i64, FailCause>
        ensures { result ≡ ok_or (int_in (faces W.look self.now r)) F6 }
    {
        self.face(r).int().ok_or(FailCause::F6)
    }

    // The memory capability of a register: F6 where it holds another word.
    #[inline(always)]
    fn memory(&self, r: Reg) -> Result<CapFields, FailCause>
        ensures is { result ≡ ok_or (memory_in (faces W.look self.now r)) F6 }
        ensures in_order { IfOk result (λ c. CapInOrder c) }
    {
        self.face(r).memory().ok_or(FailCause::F6)
    }

    // The integer of an operand: F6 where its register holds another word.
    #[inline(always)]
    fn operand(&self, n: Operand) -> Result<i64, FailCause>
        ensures { result ≡ ok_or (operand (faces W.look self.now) n) F6 }
    {
        match n {
            Operand::R(r) => self.int(r),
            Operand::Imm(z) => Ok(i64::from(z)),
        }
    }

    // As `jmp r1` where `r2` holds an integer other than 0.
    fn plan_jnz(&self, r1: Reg, r2: Reg, next: Word) -> Result<Effect, FailCause>
        ensures { planned result ≡ plan_in W.look self.now (Instr.Jnz r1 r2) next }
    {
        let z = self.int(r2)?;
        if z == 0 {
            Ok(Effect::going_on(next))
        } else {
            Ok(Effect::jumping(r1))
        }
    }

    // `r1` gets the word taken from a register, or the immediate.
    fn plan_move(&self, r1: Reg, n: Operand, next: Word) -> Result<Effect, FailCause>
        ensures { planned result ≡ plan_in W.look self.now (Instr.Move r1 n) next }
    {
        into(r1)?;
        match n {
            Operand::R(r2) => Ok(Effect::moving(Place::R(r2), Place::R(r1), Some(next))),
            Operand::Imm(z) => Ok(Effect::making(r1, Word::Int(i64::from(z)), next)),
        }
    }

    // The word of `r2` goes to the cell at `r1`'s address.
    fn stored(&mut self, r1: Reg, r2: Reg) -> Result<Moved, FailCause>
        ensures is { (next : Word) → row_moves result next
            ≡ plan_in W.look self.old (Instr.Store r1 r2) next }
        ensures same { self.new ≡ self.old }
    {
        let face = self.face(r1);
        let c = face.memory().ok_or(FailCause::F6)?;
        ask(c.perm.may_write(), FailCause::F7)?;
        let at = face.target().ok_or(FailCause::F8)?;
        ask(self.there(Some(at)).is_some(), FailCause::F8)?;
        Ok(Moved {
            from: Place::R(r2),
            to: Place::Cell(at),
        })
    }

    // The word of the cell at `r2`'s address goes to `r1`.
    fn loaded(&mut self, r1: Reg, r2: Reg) -> Result<Moved, FailCause>
        ensures is { (next : Word) → row_moves result next
            ≡ plan_in W.look self.old (Instr.Load r1 r2) next }
        ensures same { self.new ≡ self.old }
    {
        into(r1)?;
        let face = self.face(r2);
        let c = face.memory().ok_or(FailCause::F6)?;
        ask(c.perm.may_read(), FailCause::F7)?;
        let at = face.target().ok_or(FailCause::F8)?;
        let found = self.there(Some(at)).ok_or(FailCause::F8)?;
        ask(!found.is_linear() || c.perm.may_write(), FailCause::F10)?;
        Ok(Moved {
            from: Place::Cell(at),
            to: Place::R(r1),
        })
    }

    // `r1`'s word with its address or seal raised by `n`.
    fn raised(&self, r1: Reg, n: Operand) -> Result<Word, FailCause>
        ensures { (next : Word) → row_gives r1 result next
            ≡ plan_in W.look self.now (Instr.Cca r1 n) next }
    {
        into(r1)?;
        let face = self.face(r1);
        let z = self.operand(n)?;
        match face {
            Face::Memory(c) => {
                let addr = sum(c.addr, z)?;
                Ok(Word::Mem(Cap::of(CapFields { addr, ..c })))
            }
            Face::Seals(c) => {
                let cur = sum(c.cur, z)?;
                Ok(Word::Seal(SealCap::of(SealFields { cur, ..c })))
            }
            _ => Err(FailCause::F6),
        }
    }

    // `r1`'s word with the permission of number `n`, which may allow no more.
    fn restricted(&self, r1: Reg, n: Operand) -> Result<Word, FailCause>
        ensures { (next : Word) → row_gives r1 result next
            ≡ plan_in W.look self.now (Instr.Restrict r1 n) next }
    {
        into(r1)?;
        let c = self.memory(r1)?;
        let z = self.operand(n)?;
        let perm = Perm::of(z).ok_or(FailCause::F7)?;
        ask(perm.is_below(c.perm), FailCause::F7)?;
        Ok(Word::Mem(Cap::of(CapFields { perm, ..c })))
    }

    // The integer that arithmetic makes of `r2` and `n`.
    #[inline(always)]
    fn reckoned(&self, op: Arith, r1: Reg, r2: Reg, n: Operand) -> Result<Word, FailCause>
        ensures { (next : Word) → row_gives r1 result next
            ≡ plan_in W.look self.now (arith_row op r1 r2 n) next }
    {
        into(r1)?;
        let x = self.int(r2)?;
        let z = self.operand(n)?;
        Ok(Word::Int(op.of(x, z)?))
    }

    // `r1`'s word with its base as its address or seal.
    fn at_base(&self, r1: Reg) -> Result<Word, FailCause>
        ensures { (next : Word) → row_gives r1 result next
            ≡ plan_in W.look self.now (Instr.Seta2b r1) next }
    {
        into(r1)?;
        match self.face(r1) {
            Face::Memory(c) => {
                let addr = i64::from(c.base);
                Ok(Word::Mem(Cap::of(CapFields { addr, ..c })))
            }
            Face::Seals(c) => {
                let cur = i64::from(c.base);
                Ok(Word::Seal(SealCap::of(SealFields { cur, ..c })))
            }
            _ => Err(FailCause::F6),
        }
    }

    // What an `xjmp` jumps to, and what it puts into `data`, as [`State::plan_xjmp`] says it.
    fn halves(&self, r1: Reg, r2: Reg) -> Result<(CapFields, Content), FailCause>
        ensures is { (next : Word) → row_jumps r2 result
            ≡ plan_in W.look self.now (Instr.Xjmp r1 r2) next }
        ensures in_order { IfOk result (λ p. CapInOrder p.0 × ContentInOrder p.1) }
    {
        let code = self.opened(r1).ok_or(FailCause::F6)?;
        let data = self.opened(r2).ok_or(FailCause::F6)?;
        ask(code.seal == data.seal, FailCause::F12)?;
        let Content::Mem(c) = code.content else {
            return Err(FailCause::F6);
        };
        ask(!c.lin.is_linear(), FailCause::F10)?;
        ask(c.perm.may_run(), FailCause::F7)?;
        ask(!runs(data.content), FailCause::F7)?;
        Ok((c, data.content))
    }

    /// The effect of an `xjmp`, `next` being pc's word with its address raised by one: it unseals
    /// both, jumps to the content of `r1`, and puts that of `r2` into `data`.
    ///
    /// The causes of its failure, in their order: F6 where a word isn't sealed; F12 where the two
    /// are sealed under two seals; F6 where the content of `r1` isn't a memory capability; F10 where
    /// that is linear; F7 where it may not run; and F7 where the content of `r2` may.
    pub fn plan_xjmp(&self, r1: Reg, r2: Reg, next: Word) -> Result<Effect, FailCause>
        ensures { planned result ≡ plan_in W.look self.now (Instr.Xjmp r1 r2) next }
    {
        let (code, data) = self.halves(r1, r2)?;
        Ok(Effect {
            spent: Some(r2),
            first: Some(Made {
                reg: Reg::Pc,
                word: Word::Mem(Cap::of(code)),
            }),
            second: Some(Made {
                reg: Reg::Dat,
                word: unsealed(data),
            }),
            ..Effect::none()
        })
    }

    // `r1`'s word sealed under the current seal of `r2`.
    fn sealed(&self, r1: Reg, r2: Reg) -> Result<Word, FailCause>
        ensures { (next : Word) → row_gives r1 result next
            ≡ plan_in W.look self.now (Instr.Cseal r1 r2) next }
    {
        into(r1)?;
        let q = self.face(r2).seals().ok_or(FailCause::F6)?;
        let content = match self.face(r1) {
            Face::Memory(c) => Sealable::Mem(Cap::of(c)),
            Face::Seals(c) => Sealable::Seal(SealCap::of(c)),
            _ => return Err(FailCause::F6),
        };
        let seal = q.current().ok_or(FailCause::F11)?;
        Ok(Word::Sealed(seal, content))
    }

    // The two parts of `r3`, of which the first ends at `n`, for two registers.
    #[inline(always)]
    fn split(&self, r1: Reg, r2: Reg, r3: Reg, n: Operand) -> Result<(Cap, Cap), FailCause>
        ensures { (next : Word) → row_splits r1 r2 r3 result next
            ≡ plan_in W.look self.now (Instr.Split r1 r2 r3 n) next }
    {
        into(r1)?;
        into(r2)?;
        let c = self.memory(r3)?;
        let z = self.operand(n)?;
        parts(c, z)
    }

    // The range of `r2` and `r3` together, for a register.
    #[inline(always)]
    fn spliced(&self, r1: Reg, r2: Reg, r3: Reg) -> Result<Cap, FailCause>
        ensures { (next : Word) → row_splices r1 r2 r3 result next
            ≡ plan_in W.look self.now (Instr.Splice r1 r2 r3) next }
    {
        into(r1)?;
        let a = self.memory(r2)?;
        let b = self.memory(r3)?;
        joined(a, b)
    }

    // `r1` and `r2` get the two parts of `r3`, of which the first ends at `n`.
    fn plan_split(
        &self,
        r1: Reg,
        r2: Reg,
        r3: Reg,
        n: Operand,
        next: Word,
    ) -> Result<Effect, FailCause>
        ensures { planned result ≡ plan_in W.look self.now (Instr.Split r1 r2 r3 n) next }
    {
        let (low, high) = self.split(r1, r2, r3, n)?;
        Ok(Effect {
            spent: Some(r3),
            first: Some(Made {
                reg: r1,
                word: Word::Mem(low),
            }),
            second: Some(Made {
                reg: r2,
                word: Word::Mem(high),
            }),
            next: Some(next),
            ..Effect::none()
        })
    }

    // `r1` gets the range of `r2` and `r3` together.
    fn plan_splice(&self, r1: Reg, r2: Reg, r3: Reg, next: Word) -> Result<Effect, FailCause>
        ensures { planned result ≡ plan_in W.look self.now (Instr.Splice r1 r2 r3) next }
    {
        let both = self.spliced(r1, r2, r3)?;
        Ok(Effect {
            spent: Some(r2),
            also_spent: Some(r3),
            first: Some(Made {
                reg: r1,
                word: Word::Mem(both),
            }),
            next: Some(next),
            ..Effect::none()
        })
    }
}

impl<W: MachineWord> State<W> {
    // Carries out a row's effect. A failure leaves the state as it was.
    #[inline(always)]
    fn carry_out(&mut self, answer: Result<Effect, FailCause>) -> Step
        requires { (e : Effect) → planned answer ≡ Goes e → CanPerform W.look self.old e }
        ensures { Meets self.old (outcome W.look W.plain self.old (planned answer)) result self.new }
    {
        match answer {
            Ok(effect) => {
                self.perform(effect);
                Step::Went
            }
            Err(cause) => Step::Failed(cause, self.pc_at()),
        }
    }

    // Gives a register the word that a row answers for it, and pc goes on.
    #[inline(always)]
    fn give(&mut self, r1: Reg, answer: Result<Word, FailCause>, next: Word) -> Step
        requires { (e : Effect) → row_gives r1 answer next ≡ Goes e → CanPerform W.look self.old e }
        ensures { Meets self.old (outcome W.look W.plain self.old (row_gives r1 answer next))
            result self.new }
    {
        self.carry_out(making(r1, answer, next))
    }

    // Gives `r1` the integer that shows something of `r2`'s word, and pc goes on.
    #[inline(always)]
    fn show(&mut self, detail: Detail, r1: Reg, r2: Reg, next: Word) -> Step
        requires { GoesOnTo W.look self.old next }
        ensures { Meets self.old (row W.look W.plain (detail_row detail r1 r2) next self.old)
            result self.new }
    {
        let shown = detail.of(self.face(r2));
        self.carry_out(shows(r1, shown, next))
    }

    // Moves a word as a row answers, and pc goes on.
    #[inline(always)]
    fn pass(&mut self, answer: Result<Moved, FailCause>, next: Word) -> Step
        requires { (e : Effect) → row_moves answer next ≡ Goes e → CanPerform W.look self.old e }
        ensures { Meets self.old (outcome W.look W.plain self.old (row_moves answer next)) result self.new }
    {
        self.carry_out(moving(answer, next))
    }

    // Carries out an `xjmp`. It is compiled apart, which makes the other rows quicker.
    #[inline(never)]
    #[tactic(auto, unfolding(crate::specs::Row::row))]
    fn execute_xjmp(&mut self, r1: Reg, r2: Reg, next: Word) -> Step
        requires { GoesOnTo W.look self.old next }
        ensures { Meets self.old (row W.look W.plain (Instr.Xjmp r1 r2) next self.old) result self.new }
    {
        self.carry_out(self.plan_xjmp(r1, r2, next))
    }

    // Carries out one instruction, `next` being pc's word with its address raised by one. Where it
    // halts or fails the state stays as it was.
    #[inline(always)]
    #[tactic(auto, unfolding(crate::specs::Row::row))]
    pub(crate) fn execute(&mut self, instr: Instr, next: Word) -> Step
        requires { GoesOnTo W.look self.old next }
        ensures { Meets self.old (row W.look W.plain instr next self.old) result self.new }
    {
        match instr {
            Instr::Fail => self.carry_out(Err(FailCause::F4)),
            Instr::Halt => Step::Halted,
            Instr::Jmp(r1) => self.carry_out(Ok(Effect::jumping(r1))),
            Instr::Jnz(r1, r2) => self.carry_out(self.plan_jnz(r1, r2, next)),
            Instr::Gettype(r1, r2) => self.show(Detail::Kind, r1, r2, next),
            Instr::Geta(r1, r2) => self.show(Detail::Address, r1, r2, next),
            Instr::Getb(r1, r2) => self.show(Detail::Base, r1, r2, next),
            Instr::Gete(r1, r2) => self.show(Detail::End, r1, r2, next),
            Instr::Getp(r1, r2) => self.show(Detail::Perm, r1, r2, next),
            Instr::Getlin(r1, r2) => self.show(Detail::Linearity, r1, r2, next),
            Instr::Move(r1, n) => self.carry_out(self.plan_move(r1, n, next)),
            Instr::Store(r1, r2) => {
                let answer = self.stored(r1, r2);
                self.pass(answer, next)
            }
            Instr::Load(r1, r2) => {
                let answer = self.loaded(r1, r2);
                self.pass(answer, next)
            }
            Instr::Cca(r1, n) => self.give(r1, self.raised(r1, n), next),
            Instr::Restrict(r1, n) => self.give(r1, self.restricted(r1, n), next),
            Instr::Lt(r1, r2, n) => self.give(r1, self.reckoned(Arith::Lt, r1, r2, n), next),
            Instr::Plus(r1, r2, n) => self.give(r1, self.reckoned(Arith::Plus, r1, r2, n), next),
            Instr::Minus(r1, r2, n) => self.give(r1, self.reckoned(Arith::Minus, r1, r2, n), next),
            Instr::Seta2b(r1) => self.give(r1, self.at_base(r1), next),
            Instr::Xjmp(r1, r2) => self.execute_xjmp(r1, r2, next),
            Instr::Cseal(r1, r2) => self.give(r1, self.sealed(r1, r2), next),
            Instr::Split(r1, r2, r3, n) => self.carry_out(self.plan_split(r1, r2, r3, n, next)),
            Instr::Splice(r1, r2, r3) => self.carry_out(self.plan_splice(r1, r2, r3, next)),
        }
    }
}
