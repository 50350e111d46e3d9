//! The lines of a feed.
ghost use Rattle.std.specs.Prelude.{◌≡◌};
ghost use Rattle.line_fields.specs.Fields.{GivesAs};
ghost use Rattle.line_fields.specs.Lines.{entered, answered_with, answered, passed};
ghost use Rattle.line_fields.specs.Lines.{enter_in, ret_in, pass_in, seen, is_enter};

use crate::seen::{Answered, Entered, Passed};
use crate::{Parts, behind};

/// What a line of a feed tells.
#[derive(Drop)]
pub(crate) enum FeedLine<'a> {
    /// A procedure is entered.
    Enter(Entered<'a>),
    /// A call is answered.
    Ret(Answered<'a>),
    /// What an entered procedure is handed in pairs of registers.
    Pass(Passed<'a>),
    /// Nothing by which a meaning goes.
    Other,
}

#[tactic(auto, unfolding(crate::specs::Lines::entered))]
fn entered<'a>(fields: &mut Parts<'a>) -> Option<Entered<'a>>
    ensures { GivesAs (λ e. e) result fields.new (entered fields.old) }
{
    let part = fields.name()?;
    let name = fields.name()?;
    let stk = fields.part()?;
    let a0 = fields.part()?;
    let a1 = fields.part()?;
    let a2 = fields.part()?;
    let a3 = fields.part()?;
    let back = fields.back()?;
    Some(Entered {
        part,
        name,
        stk,
        a0,
        a1,
        a2,
        a3,
        back,
    })
}

// `END A0 :`, after the name of a part, a site of it, and the first address of a range.
#[tactic(auto, unfolding(crate::specs::Lines::answered_with))]
fn answered_with<'a>(
    part: &'a [u8],
    site: u32,
    base: u32,
    fields: &mut Parts<'a>,
) -> Option<Answered<'a>>
    ensures { GivesAs (λ r. r) result fields.new (answered_with part.now site base fields.old) }
{
    fields.natural()?;
    let a0 = fields.part()?;
    fields.is(":")?;
    Some(Answered {
        part,
        site,
        base,
        a0,
    })
}

// `PART SITE BASE END A0 :`
#[tactic(auto, unfolding(crate::specs::Lines::answered))]
fn answered<'a>(fields: &mut Parts<'a>) -> Option<Answered<'a>>
    ensures { GivesAs (λ r. r) result fields.new (answered fields.old) }
{
    let part = fields.name()?;
    let site = fields.natural()?;
    let base = fields.natural()?;
    answered_with(part, site, base, fields)
}

#[tactic(auto, unfolding(crate::specs::Lines::passed))]
fn passed<'a>(fields: &mut Parts<'a>) -> Option<Passed<'a>>
    ensures { GivesAs (λ p. p) result fields.new (passed fields.old) }
{
    let p0 = fields.handed()?;
    let p1 = fields.handed()?;
    let p2 = fields.handed()?;
    Some(Passed { p0, p1, p2 })
}

// What stands after `enter `.
#[tactic(auto, unfolding(crate::specs::Lines::enter_in))]
fn enter_in(rest: &[u8]) -> Option<Entered<'_>>
    ensures { result ≡ enter_in rest.now }
{
    let mut fields = Parts::of_line(rest);
    let found = entered(&mut fields)?;
    if fields.is_over() { Some(found) } else { None }
}

// What stands after `ret out `; words may follow.
#[tactic(auto, unfolding(crate::specs::Lines::ret_in))]
fn ret_in(rest: &[u8]) -> Option<Answered<'_>>
    ensures { result ≡ ret_in rest.now }
{
    let mut fields = Parts::of_line(rest);
    answered(&mut fields)
}

// What stands after `pass `.
#[tactic(auto, unfolding(crate::specs::Lines::pass_in))]
fn pass_in(rest: &[u8]) -> Option<Passed<'_>>
    ensures { result ≡ pass_in rest.now }
{
    let mut fields = Parts::of_line(rest);
    let found = passed(&mut fields)?;
    if fields.is_over() { Some(found) } else { None }
}

/// What a line tells, right after an `enter` line or not; `None` exactly where it has not the form that it
/// must have.
#[tactic(auto, unfolding(crate::specs::Lines::seen))]
pub(crate) fn seen(entry: bool, line: &[u8]) -> Option<FeedLine<'_>>
    ensures { result ≡ seen entry line.now }
{
    if let Some(rest) = behind(b"enter ", line) {
        return enter_in(rest).map(FeedLine::Enter);
    }
    if let Some(rest) = behind(b"ret out ", line) {
        return ret_in(rest).map(FeedLine::Ret);
    }
    match behind(b"pass ", line) {
        Some(rest) if entry => pass_in(rest).map(FeedLine::Pass),
        _ => Some(FeedLine::Other),
    }
}

impl FeedLine<'_> {
    /// Whether it is an `enter` line.
    pub(crate) fn is_enter(&self) -> bool
        ensures { result ≡ is_enter self.now }
    {
        matches!(self, FeedLine::Enter(_))
    }
}
