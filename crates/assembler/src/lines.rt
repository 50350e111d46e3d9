//! All lines of a text.
ghost use Rattle.std.specs.Prelude.{◌≡◌, ◌<◌, ◌^◌, length, map};
ghost use Rattle.text_scan.specs.Grammar.{Placed};
ghost use Rattle.readers.specs.Answers.{AnswersAs, AnswersUnlessRefused};
ghost use Rattle.asm_fields.specs.Fault.{is_refusal};
ghost use Rattle.asm_fields.specs.Fields.{InText, seen};
ghost use Rattle.assembler.specs.Whole.{is_newline, line_or_none, lines_of, drafted, ended_all};
ghost use Rattle.assembler.specs.Whole.{draft_of_text};
ghost use Rattle.assembler.specs.Whole.{MakesLine};

use crate::draft::Draft;
use asm_fields::{AsmFault, Fields};
use smallvec::SmallVec;
use std::alloc::Global;
use text_scan::{Token, TokenKind};

// How many tokens of a line stand where no memory is asked for: only rows have more.
const SHORT_LINE: usize = 6;

fn is_newline(kind: TokenKind) -> bool
    ensures { result ≡ is_newline kind }
{
    matches!(kind, TokenKind::NewLine)
}

// Takes a line that ends here.
#[tactic(auto, unfolding(crate::specs::Whole::line_or_none))]
fn take_line<'a>(
    alloc: Global,
    draft: &mut Draft<'a>,
    text: &'a [u8],
    line: &[Token],
    end: u32,
) -> Result<(), AsmFault>
    requires { InText text.now line.now }
    ensures { MakesLine result draft.new
        (line_or_none draft.old (record { rest = map (seen text.now) line.now; end = end })) }
{
    if line.is_empty() {
        return Ok(());
    }
    let mut fields = Fields::of(text, line, end);
    draft.line(alloc, &mut fields)
}

// Takes all lines, up to the first fault.
fn take_lines<'a>(
    alloc: Global,
    draft: &mut Draft<'a>,
    text: &'a [u8],
    tokens: &[Token],
) -> Result<(), AsmFault>
    requires slices { InText text.now tokens.now }
    requires short { length text.now < 2 ^ 32 }
    ensures { AnswersAs is_refusal (λ _. draft.new) result
        (drafted draft.old (lines_of (map (seen text.now) tokens.now) (length text.now))) }
{
    let mut line: SmallVec<Token, SHORT_LINE> = SmallVec::new(alloc);
    for token in tokens {
        if is_newline(token.kind) {
            take_line(alloc, draft, text, line.as_slice(), token.at)?;
            line.clear();
        } else {
            line.push(*token)?;
        }
    }
    take_line(alloc, draft, text, line.as_slice(), text.len() as u32)
}

// Takes all lines, after which the text must be able to end.
fn take_text<'a>(
    alloc: Global,
    draft: &mut Draft<'a>,
    text: &'a [u8],
    tokens: &[Token],
) -> Result<(), AsmFault>
    requires slices { InText text.now tokens.now }
    requires short { length text.now < 2 ^ 32 }
    ensures { AnswersAs is_refusal (λ _. draft.new) result (ended_all (length text.now)
        (drafted draft.old (lines_of (map (seen text.now) tokens.now) (length text.now)))) }
{
    take_lines(alloc, draft, text, tokens)?;
    if draft.may_be_whole() {
        Ok(())
    } else {
        Err(AsmFault::Section(text.len() as u32))
    }
}

/// The draft that a text makes, which has these tokens, or the first fault of its lines. Where memory is
/// refused, `NoMemory` stands for either.
///
/// A line is read from left to right, after those before it. Where the text ends too early, `Section`
/// stands at its length.
#[tactic(auto, unfolding(crate::specs::Whole::draft_of_text))]
pub fn draft_of<'a>(alloc: Global, text: &'a [u8], tokens: &[Token]) -> Result<Draft<'a>, AsmFault>
    requires short { length text.now < 2 ^ 32 }
    requires placed { Placed 0 (length text.now) tokens.now }
    ensures { AnswersUnlessRefused is_refusal result (draft_of_text text.now tokens.now) }
{
    let mut draft = Draft::new(alloc);
    match take_text(alloc, &mut draft, text, tokens) {
        Ok(()) => Ok(draft),
        Err(fault) => {
            draft.give_up();
            Err(fault)
        }
    }
}
