//! What a line of a run changes in a picture.
ghost use Rattle.std.specs.Prelude.{◌≡◌, option_map};
ghost use Rattle.std.specs.Str.{bytes_eq};
ghost use Rattle.cap_words.specs.declared.Word.{Word};
ghost use Rattle.line_fields.specs.Fields.{GivesAs, meant};
ghost use Rattle.run_picture.specs.Turns.{side_of, spanned, stack_end, word_end, entered, turn_named};
ghost use Rattle.run_picture.specs.Turns.{one_turn};
ghost use Rattle.run_picture.specs.Turns.{turn_of, side_before, side_behind};

use cap_words::{Face, Lin, Perm, Word};
use line_fields::{Parts, is_text, word_in};

/// Who acts.
#[derive(Clone, Copy)]
pub enum Side {
    /// A trusted part.
    Trusted,
    /// Code that isn't trusted.
    Outside,
}

/// The range of a frame.
#[derive(Clone, Copy)]
pub struct Extent {
    /// Its first address.
    pub base: u32,
    /// Its last address.
    pub last: u32,
}

/// What a line of a run changes.
#[derive(Clone, Copy)]
pub enum Turn {
    /// A call of this side, and the frame that it leaves.
    Call(Side, Extent),
    /// A return of this side, and the frame that it finds again.
    Ret(Side, Extent),
    /// Code outside entered a trusted part, with a stack that ends there, or with none.
    Enter(Option<u32>),
    /// A trusted part left.
    Leave,
    /// Neither.
    Other,
}

fn side_of(direction: &[u8]) -> Side
    ensures { result ≡ side_of direction.now }
{
    if is_text("in", direction) {
        Side::Trusted
    } else {
        Side::Outside
    }
}

// A call, or a return.
#[tactic(auto, unfolding(crate::specs::Turns::spanned))]
fn spanned(is_call: bool, fields: &mut Parts<'_>) -> Option<Turn>
    ensures { GivesAs (λ t. t) result fields.new (spanned is_call fields.old) }
{
    let side = side_of(fields.part()?);
    fields.part()?;
    fields.part()?;
    let base = fields.natural()?;
    let last = fields.natural()?;
    if is_call {
        Some(Turn::Call(side, Extent { base, last }))
    } else {
        Some(Turn::Ret(side, Extent { base, last }))
    }
}

// The last address of a word that can be a stack.
fn word_end(word: &Word) -> Option<u32>
    ensures { result ≡ word_end word.now }
{
    match word.face() {
        Face::Memory(c) if c.perm == Perm::Rw && c.lin == Lin::Linear => Some(c.end),
        _ => None,
    }
}

fn stack_end(field: &[u8]) -> Option<u32>
    ensures { result ≡ stack_end field.now }
{
    let word = word_in(field)?;
    word_end(&word)
}

#[tactic(auto, unfolding(crate::specs::Turns::entered))]
fn entered(fields: &mut Parts<'_>) -> Option<Turn>
    ensures { GivesAs (λ t. t) result fields.new (entered fields.old) }
{
    fields.part()?;
    fields.part()?;
    let stk = fields.part()?;
    Some(Turn::Enter(stack_end(stk)))
}

#[tactic(auto, unfolding(crate::specs::Turns::turn_named))]
fn turn_named(name: &[u8], fields: &mut Parts<'_>) -> Option<Turn>
    ensures { GivesAs (λ t. t) result fields.new (turn_named name.now fields.old) }
{
    if is_text("call", name) {
        return spanned(true, fields);
    }
    if is_text("ret", name) {
        return spanned(false, fields);
    }
    if is_text("enter", name) {
        return entered(fields);
    }
    if is_text("leave", name) {
        return Some(Turn::Leave);
    }
    None
}

#[tactic(auto, unfolding(crate::specs::Turns::one_turn))]
fn one_turn(fields: &mut Parts<'_>) -> Option<Turn>
    ensures { GivesAs (λ t. t) result fields.new (one_turn fields.old) }
{
    let name = fields.part()?;
    turn_named(name, fields)
}

/// What a line changes.
#[tactic(auto, unfolding(crate::specs::Turns::turn_of))]
pub(crate) fn turn_of(line: &[u8]) -> Turn
    ensures { result ≡ turn_of line.now }
{
    let mut fields = Parts::of_line(line);
    match one_turn(&mut fields) {
        Some(turn) => turn,
        None => Turn::Other,
    }
}

impl Turn {
    /// Who acts before it.
    pub(crate) fn side_before(self) -> Side
        ensures { result ≡ side_before self }
    {
        match self {
            Turn::Ret(side, _) => side,
            Turn::Enter(_) => Side::Outside,
            Turn::Call(_, _) | Turn::Leave | Turn::Other => Side::Trusted,
        }
    }

    /// Who acts after it.
    pub(crate) fn side_behind(self) -> Side
        ensures { result ≡ side_behind self }
    {
        match self {
            Turn::Call(side, _) => side,
            Turn::Leave => Side::Outside,
            Turn::Ret(_, _) | Turn::Enter(_) | Turn::Other => Side::Trusted,
        }
    }
}
