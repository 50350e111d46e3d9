//! The text of an instruction.
ghost use Rattle.std.specs.Prelude.{◌≡◌, ◌+◌, ◌≤◌, [], ◌∷◌, ◌++◌, length, map, slice_get};
ghost use Rattle.arrayvec.specs.ArrayString.{array_string_len};
ghost use Rattle.lcm_isa.specs.Texts.{operands_of, instr_text, after_blank};

use crate::{Instr, Operand, Reg};
use arrayvec::ArrayString;
use itoa::Buffer;

impl Instr {
    /// Its operands, in the order in which a program writes them, and None after the last.
    pub fn operands(&self) -> [Option<Operand>; 4]
        ensures { result ≡ map (slice_get (operands_of self.now)) (0 ∷ 1 ∷ 2 ∷ 3 ∷ []) }
    {
        match *self {
            Instr::Fail | Instr::Halt => listed(None, None, None, None),
            Instr::Jmp(a) | Instr::Seta2b(a) => listed(Some(Operand::R(a)), None, None, None),
            Instr::Jnz(a, b)
            | Instr::Gettype(a, b)
            | Instr::Geta(a, b)
            | Instr::Getb(a, b)
            | Instr::Gete(a, b)
            | Instr::Getp(a, b)
            | Instr::Getlin(a, b)
            | Instr::Store(a, b)
            | Instr::Load(a, b)
            | Instr::Xjmp(a, b)
            | Instr::Cseal(a, b) => listed(Some(Operand::R(a)), Some(Operand::R(b)), None, None),
            Instr::Move(a, n) | Instr::Cca(a, n) | Instr::Restrict(a, n) => {
                listed(Some(Operand::R(a)), Some(n), None, None)
            }
            Instr::Lt(a, b, n) | Instr::Plus(a, b, n) | Instr::Minus(a, b, n) => {
                listed(Some(Operand::R(a)), Some(Operand::R(b)), Some(n), None)
            }
            Instr::Split(a, b, c, n) => listed(
                Some(Operand::R(a)),
                Some(Operand::R(b)),
                Some(Operand::R(c)),
                Some(n),
            ),
            Instr::Splice(a, b, c) => listed(
                Some(Operand::R(a)),
                Some(Operand::R(b)),
                Some(Operand::R(c)),
                None,
            ),
        }
    }

    /// The instruction as one line without its newline: its mnemonic and its operands, with one
    /// blank between each two. A register goes by its name, an immediate in decimal digits.
    #[tactic(auto, using(crate::proofs::TextLemmas::instr_text_joined))]
    pub fn text(&self) -> ArrayString<64>
        ensures { result.bytes ≡ instr_text self.now }
    {
        let mut text = ArrayString::new();
        text.push_str(self.mnemonic());
        let [first, second, third, fourth] = self.operands();
        push_operand(&mut text, first);
        push_operand(&mut text, second);
        push_operand(&mut text, third);
        push_operand(&mut text, fourth);
        text
    }
}

// Up to four operands, in their order.
fn listed(
    first: Option<Operand>,
    second: Option<Operand>,
    third: Option<Operand>,
    fourth: Option<Operand>,
) -> [Option<Operand>; 4]
    ensures { result ≡ first ∷ second ∷ third ∷ fourth ∷ [] }
{
    [first, second, third, fourth]
}

// Appends a blank and the operand, or nothing where there is none.
fn push_operand(text: &mut ArrayString<64>, operand: Option<Operand>)
    requires { array_string_len text.old + 12 ≤ 64 }
    ensures bytes { text.new.bytes ≡ text.old.bytes ++ after_blank operand }
    ensures len { array_string_len text.new ≤ array_string_len text.old + 12 }
{
    match operand {
        Some(Operand::R(register)) => {
            text.push_str(" ");
            text.push_str(register.name());
        }
        Some(Operand::Imm(number)) => {
            let mut digits = Buffer::new();
            text.push_str(" ");
            text.push_str(digits.format(number));
        }
        None => {}
    }
}
