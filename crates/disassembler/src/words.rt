//! The lines of code and data.
ghost use Rattle.std.specs.Prelude.{◌≡◌, ◌++◌, OnOk};
ghost use Rattle.std.specs.List.{flat_map};
ghost use Rattle.lcm_isa.specs.Texts.{instr_text};
ghost use Rattle.cap_words.specs.Text.{newline};
ghost use Rattle.disassembler.specs.Disassembled.{word_line, code_line};

use crate::line::{begin, end, push_integer, push_number, push_operand};
use asm_fields::{Directive, WordKind};
use cap_words::{CapFields, SealFields, Word};
use lcm_isa::{Instr, decode};
use std::alloc::AllocError;

fn push_int(text: &mut Vec<u8>, number: i64) -> Result<(), AllocError>
    ensures { OnOk result (text.new.items ≡ text.old.items ++ word_line (Word.Int number)) }
{
    begin(text, Directive::Word(WordKind::Int))?;
    push_integer(text, number)?;
    end(text)
}

fn push_cap(text: &mut Vec<u8>, cap: CapFields) -> Result<(), AllocError>
    ensures { OnOk result (text.new.items ≡ text.old.items ++ word_line (Word.Mem cap)) }
{
    begin(text, Directive::Word(WordKind::Cap))?;
    push_operand(text, cap.perm.name().as_bytes())?;
    push_operand(text, cap.lin.name().as_bytes())?;
    push_number(text, cap.base)?;
    push_number(text, cap.end)?;
    push_integer(text, cap.addr)?;
    end(text)
}

fn push_seal(text: &mut Vec<u8>, seals: SealFields) -> Result<(), AllocError>
    ensures { OnOk result (text.new.items ≡ text.old.items ++ word_line (Word.Seal seals)) }
{
    begin(text, Directive::Word(WordKind::Seal))?;
    push_number(text, seals.base)?;
    push_number(text, seals.end)?;
    push_integer(text, seals.cur)?;
    end(text)
}

/// Appends the line of a word of the data. A sealed word, which no component has, has none.
pub(crate) fn push_word(text: &mut Vec<u8>, word: &Word) -> Result<(), AllocError>
    ensures { OnOk result (text.new.items ≡ text.old.items ++ word_line word.now) }
{
    match word {
        Word::Int(number) => push_int(text, *number),
        Word::Mem(cap) => push_cap(text, cap.fields()),
        Word::Seal(seals) => push_seal(text, seals.fields()),
        Word::Sealed(_, _) => Ok(()),
    }
}

fn push_instr(text: &mut Vec<u8>, instr: &Instr) -> Result<(), AllocError>
    ensures { OnOk result (text.new.items ≡ text.old.items ++ (instr_text instr.now ++ newline)) }
{
    text.extend_from_slice(instr.text().as_str().as_bytes())?;
    end(text)
}

// An integer that is an instruction is written as that.
fn push_code_word(text: &mut Vec<u8>, word: &Word) -> Result<(), AllocError>
    ensures { OnOk result (text.new.items ≡ text.old.items ++ code_line word.now) }
{
    let instr = match word {
        Word::Int(number) => decode(*number),
        _ => None,
    };
    match instr {
        Some(instr) => push_instr(text, &instr),
        None => push_word(text, word),
    }
}

/// Appends the lines of the code.
pub(crate) fn push_code(text: &mut Vec<u8>, code: &[Word]) -> Result<(), AllocError>
    ensures { OnOk result (text.new.items ≡ text.old.items ++ flat_map code_line code.now) }
{
    for word in code {
        push_code_word(text, word)?;
    }
    Ok(())
}
