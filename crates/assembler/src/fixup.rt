//! A word of code that waits for a label.
ghost use Rattle.std.specs.Prelude.{◌≡◌, ◌<◌, length, slice_get, IfSome, IsTrue};
ghost use Rattle.assembler.specs.Patch.{with_immediate, instr_in, has_immediate_at, code_patched};

use cap_words::Word;
use lcm_isa::{Instr, Operand, decode, encode};

/// A word of code that waits for a label: an instruction whose immediate is to be replaced. It must be
/// spent, by `patch` or by `give_up`.
pub struct Fixup {
    /// The word's offset in the code.
    pub word: u32,
    /// The place of the label in the text, which is that of its sign.
    pub label_at: u32,
}

// The instruction with this immediate in the place of its own, if it has one.
fn with_immediate(instr: &Instr, value: i32) -> Instr
    ensures { result ≡ with_immediate value instr.now }
{
    match *instr {
        Instr::Move(a, Operand::Imm(_)) => Instr::Move(a, Operand::Imm(value)),
        Instr::Cca(a, Operand::Imm(_)) => Instr::Cca(a, Operand::Imm(value)),
        Instr::Restrict(a, Operand::Imm(_)) => Instr::Restrict(a, Operand::Imm(value)),
        Instr::Lt(a, b, Operand::Imm(_)) => Instr::Lt(a, b, Operand::Imm(value)),
        Instr::Plus(a, b, Operand::Imm(_)) => Instr::Plus(a, b, Operand::Imm(value)),
        Instr::Minus(a, b, Operand::Imm(_)) => Instr::Minus(a, b, Operand::Imm(value)),
        Instr::Split(a, b, c, Operand::Imm(_)) => Instr::Split(a, b, c, Operand::Imm(value)),
        other => other,
    }
}

// The instruction that stands there, if one does.
fn instr_at(code: &[Word], at: usize) -> Option<Instr>
    ensures is { result ≡ instr_in (slice_get code.now at) }
    ensures within { IfSome result (λ _. at < length code.now) }
{
    match code.get(at) {
        Some(Word::Int(number)) => decode(*number),
        _ => None,
    }
}

impl Fixup {
    /// Replaces the immediate of the instruction at the word, and nothing else. It takes no memory.
    pub fn patch(self, code: &mut Vec<Word>, value: i32)
        requires { IsTrue (has_immediate_at code.old.items self.word) }
        ensures { code.new.items ≡ code_patched code.old.items self.word value }
    {
        let Fixup { word, label_at: _ } = self;
        let at = word as usize;
        if let Some(instr) = instr_at(code.as_slice(), at) {
            code[at] = Word::Int(encode(&with_immediate(&instr, value)));
        }
    }

    /// Spends it where the text has a fault. It takes no memory.
    pub fn give_up(self) {
        let Fixup {
            word: _,
            label_at: _,
        } = self;
    }
}
