//! Words, as a line has them after their directive.
ghost use Rattle.std.specs.Prelude.{◌≡◌};
ghost use Rattle.readers.specs.Answers.{Gives};
ghost use Rattle.asm_fields.specs.Fields.{meant};
ghost use Rattle.cap_words.specs.Text.{perm_named, lin_named};
ghost use Rattle.asm_fields.specs.Words.{i64_at, cap_at, seals_at, word_behind, word_line};

use crate::directives::WordKind;
use crate::fault::AsmFault;
use crate::fields::Fields;
use crate::names;
use cap_words::{Cap, CapFields, LAST_PLACE, Lin, Perm, SealCap, SealFields, Word};

#[tactic(auto, unfolding(crate::specs::Fields::meant))]
fn perm(fields: &mut Fields<'_, '_>) -> Result<Perm, AsmFault>
    ensures { Gives result fields.new (meant perm_named fields.old) }
{
    let at = fields.place();
    Perm::of_name(fields.name()?).ok_or(AsmFault::Operand(at))
}

#[tactic(auto, unfolding(crate::specs::Fields::meant))]
fn lin(fields: &mut Fields<'_, '_>) -> Result<Lin, AsmFault>
    ensures { Gives result fields.new (meant lin_named fields.old) }
{
    let at = fields.place();
    Lin::of_name(fields.name()?).ok_or(AsmFault::Operand(at))
}

fn number(fields: &mut Fields<'_, '_>) -> Result<i64, AsmFault>
    ensures { Gives result fields.new (i64_at fields.old) }
{
    fields.integer(i64::MIN, i64::MAX)
}

// `PERM LIN BASE END ADDR`
#[tactic(auto, unfolding(crate::specs::Words::cap_at))]
fn cap(fields: &mut Fields<'_, '_>) -> Result<Cap, AsmFault>
    ensures { Gives result fields.new (cap_at fields.old) }
{
    let perm = perm(fields)?;
    let lin = lin(fields)?;
    let base = fields.natural(0, LAST_PLACE)?;
    let end = fields.natural(base, LAST_PLACE)?;
    let addr = number(fields)?;
    Ok(Cap::of(CapFields {
        perm,
        lin,
        base,
        end,
        addr,
    }))
}

// `BASE END CUR`
#[tactic(auto, unfolding(crate::specs::Words::seals_at))]
fn seal_cap(fields: &mut Fields<'_, '_>) -> Result<SealCap, AsmFault>
    ensures { Gives result fields.new (seals_at fields.old) }
{
    let base = fields.natural(0, LAST_PLACE)?;
    let end = fields.natural(base, LAST_PLACE)?;
    let cur = number(fields)?;
    Ok(SealCap::of(SealFields { base, end, cur }))
}

fn word_behind(kind: WordKind, fields: &mut Fields<'_, '_>) -> Result<Word, AsmFault>
    ensures { Gives result fields.new (word_behind kind fields.old) }
{
    match kind {
        WordKind::Int => Ok(Word::Int(number(fields)?)),
        WordKind::Cap => Ok(Word::Mem(cap(fields)?)),
        WordKind::Seal => Ok(Word::Seal(seal_cap(fields)?)),
    }
}

/// The rest of a word's line, after its directive: `.int N`, `.cap PERM LIN BASE END ADDR`, or
/// `.seal BASE END CUR`. A sealed word can't be written.
#[tactic(auto, unfolding(crate::specs::Words::word_line))]
pub fn word_line(kind: WordKind, fields: &mut Fields<'_, '_>) -> Result<Word, AsmFault>
    ensures { Gives result fields.new (word_line kind fields.old) }
{
    let word = word_behind(kind, fields)?;
    fields.end()?;
    Ok(word)
}
