//! Instructions, as a line has them.
ghost use Rattle.std.specs.Prelude.{◌≡◌, ◌+◌, ◌<◌, true, false, if◌then◌else◌};
ghost use Rattle.lcm_isa.specs.Numbers.{all_with};
ghost use Rattle.lcm_isa.specs.Texts.{mnemonic_of};
ghost use Rattle.readers.specs.Answers.{Gives, GivesAs};
ghost use Rattle.cap_words.specs.Text.{named};
ghost use Rattle.asm_fields.specs.Instrs.{last_seen, plain, reg_at, plain_at, last_at, reg_if, last_if};
ghost use Rattle.asm_fields.specs.Instrs.{shape_of, is_imm, row_named, operands_at};

use crate::fault::AsmFault;
use crate::fields::Fields;
use crate::names;
use lcm_isa::{Instr, Operand, Reg};

/// The last operand of some instructions. A place is that of a label's sign.
#[derive(Clone, Copy)]
pub enum Last<'a> {
    /// A register or an immediate.
    Plain(Operand),
    /// `@` and a label of the code: its offset less that of the word before the instruction.
    Code(u32, &'a [u8]),
    /// `%` and a label of the data: its offset.
    Data(u32, &'a [u8]),
}

/// What operands an instruction has.
#[derive(Clone, Copy)]
pub struct Shape {
    /// How many registers come before the last operand.
    pub regs: u32,
    /// Whether it has the last operand, which may be a register, an immediate or a label.
    pub last: bool,
}

impl<'a> Last<'a> {
    /// The operand; for a label it is 0, until its offset is known.
    pub fn plain(&self) -> Operand
        ensures { result ≡ plain (last_seen self.now) }
    {
        match self {
            Last::Plain(operand) => *operand,
            Last::Code(_, _) | Last::Data(_, _) => Operand::Imm(0),
        }
    }
}

#[tactic(auto, unfolding(crate::specs::Fields::meant))]
fn reg(fields: &mut Fields<'_, '_>) -> Result<Reg, AsmFault>
    ensures { Gives result fields.new (reg_at fields.old) }
{
    let at = fields.place();
    names::reg_named(fields.name()?).ok_or(AsmFault::Operand(at))
}

// A register or an immediate.
#[tactic(auto, unfolding(crate::specs::Instrs::plain_at))]
fn plain_operand(fields: &mut Fields<'_, '_>) -> Result<Operand, AsmFault>
    ensures { Gives result fields.new (plain_at fields.old) }
{
    if fields.is_name() {
        Ok(Operand::R(reg(fields)?))
    } else {
        let number = fields.integer(i64::from(i32::MIN), i64::from(i32::MAX))?;
        Ok(Operand::Imm(number as i32))
    }
}

#[tactic(auto, unfolding(crate::specs::Instrs::last_at))]
fn last_operand<'a>(fields: &mut Fields<'a, '_>) -> Result<Last<'a>, AsmFault>
    ensures { GivesAs last_seen result fields.new (last_at fields.old) }
{
    let at = fields.place();
    if fields.sign(b'@') {
        return Ok(Last::Code(at, fields.proper_name_from(at)?));
    }
    if fields.sign(b'%') {
        return Ok(Last::Data(at, fields.proper_name_from(at)?));
    }
    Ok(Last::Plain(plain_operand(fields)?))
}

// A register where one is wanted, else any.
fn reg_if(wanted: bool, fields: &mut Fields<'_, '_>) -> Result<Reg, AsmFault>
    ensures { Gives result fields.new (reg_if wanted fields.old) }
{
    if wanted { reg(fields) } else { Ok(Reg::Pc) }
}

fn last_if<'a>(wanted: bool, fields: &mut Fields<'a, '_>) -> Result<Last<'a>, AsmFault>
    ensures { GivesAs last_seen result fields.new (last_if wanted fields.old) }
{
    if wanted {
        last_operand(fields)
    } else {
        Ok(Last::Plain(Operand::Imm(0)))
    }
}

// A register in the last place counts as one more.
fn with_last(regs: u32, last: Operand) -> (u32, bool)
    requires { regs < 4 }
    ensures { result ≡ (if is_imm last then (regs, true) else (regs + 1, false)) }
{
    match last {
        Operand::Imm(_) => (regs, true),
        Operand::R(_) => (regs + 1, false),
    }
}

/// What operands an instruction has. A register in its last place counts as one before it.
pub fn shape_of(instr: &Instr) -> Shape
    ensures { result ≡ shape_of instr.now }
{
    let (regs, last) = match instr {
        Instr::Fail | Instr::Halt => (0, false),
        Instr::Jmp(_) | Instr::Seta2b(_) => (1, false),
        Instr::Jnz(_, _)
        | Instr::Gettype(_, _)
        | Instr::Geta(_, _)
        | Instr::Getb(_, _)
        | Instr::Gete(_, _)
        | Instr::Getp(_, _)
        | Instr::Getlin(_, _)
        | Instr::Store(_, _)
        | Instr::Load(_, _)
        | Instr::Xjmp(_, _)
        | Instr::Cseal(_, _) => (2, false),
        Instr::Move(_, n) | Instr::Cca(_, n) | Instr::Restrict(_, n) => with_last(1, *n),
        Instr::Lt(_, _, n) | Instr::Plus(_, _, n) | Instr::Minus(_, _, n) => with_last(2, *n),
        Instr::Split(_, _, _, n) => with_last(3, *n),
        Instr::Splice(_, _, _) => (3, false),
    };
    Shape { regs, last }
}

// The instruction of this name among rows of the table.
fn row_of_name(rows: &[Instr], name: &[u8]) -> Option<Instr>
    ensures { result ≡ named mnemonic_of rows.now name.now }
{
    rows.iter()
        .copied()
        .find(|i| i.mnemonic().as_bytes() == name)
}

// The instruction of this name, with those of these operands that it has.
fn instr_named(name: &[u8], a: Reg, b: Reg, c: Reg, n: Operand) -> Option<Instr>
    ensures { result ≡ named mnemonic_of (all_with a b c n) name.now }
{
    row_of_name(&Instr::all_with(a, b, c, n), name)
}

/// The row of the instructions' table that has the name. Its last operand, where it has one, is an
/// immediate.
pub fn row_named(name: &[u8]) -> Option<Instr>
    ensures { result ≡ row_named name.now }
{
    instr_named(name, Reg::Pc, Reg::Pc, Reg::Pc, Operand::Imm(0))
}

/// The operands of an instruction of this name and shape, whose name stands at this place, and the end of
/// its line. A label in place of the last operand is given beside the instruction, in which it stands as 0.
#[tactic(auto, unfolding(crate::specs::Instrs::operands_at))]
pub fn instr_operands<'a>(
    at: u32,
    name: &[u8],
    shape: Shape,
    fields: &mut Fields<'a, '_>,
) -> Result<(Instr, Last<'a>), AsmFault>
    ensures { GivesAs (λ x. (x.0, last_seen x.1)) result fields.new
        (operands_at at name.now shape fields.old) }
{
    let a = reg_if(1 <= shape.regs, fields)?;
    let b = reg_if(2 <= shape.regs, fields)?;
    let c = reg_if(3 <= shape.regs, fields)?;
    let n = last_if(shape.last, fields)?;
    fields.end()?;
    match instr_named(name, a, b, c, n.plain()) {
        Some(instr) => Ok((instr, n)),
        None => Err(AsmFault::Unknown(at)),
    }
}
