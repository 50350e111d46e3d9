//! The lines of a trace.
ghost use Rattle.std.specs.Prelude.{◌≡◌};
ghost use Rattle.source_events.specs.Forms.{is_pair};
ghost use Rattle.line_fields.specs.Forms.{handed_seen};
ghost use Rattle.line_fields.specs.Fields.{GivesAs};
ghost use Rattle.run_audit.specs.Lines.{registers, told_with, told, call, ret, entered, passed, left, steps};
ghost use Rattle.run_audit.specs.Lines.{halted, failed, running, line_named, one_line, line_in, is_end};

use crate::fields::{address, cause, count, direction, words};
use crate::told::FrameLine;
use line_fields::{Handed, Parts, is_text};

/// A line of a trace, with what its check asks for.
#[derive(Drop)]
pub enum Line<'a> {
    /// A call.
    Call(FrameLine<'a>),
    /// A return.
    Ret(FrameLine<'a>),
    /// Code that isn't trusted entered a trusted part.
    Enter,
    /// What it handed over in pairs of registers.
    Pass,
    /// A trusted part left by a return.
    Leave,
    /// The end line.
    End,
}

// The registers of a call, or that of a return.
fn registers<'a>(is_call: bool, fields: &mut Parts<'a>) -> Option<&'a [u8]>
    ensures { GivesAs (λ t. t.now) result fields.new (registers is_call fields.old) }
{
    if is_call {
        fields.word()?;
        fields.word()?;
        fields.word()?;
    }
    fields.word()
}

// What such a line tells from the last address of its range on, after the name of a part, a site of it, and
// the first address.
#[tactic(auto, unfolding(crate::specs::Lines::told_with))]
fn told_with<'a>(
    is_call: bool,
    part: &'a [u8],
    site: u32,
    base: u32,
    fields: &mut Parts<'a>,
) -> Option<FrameLine<'a>>
    ensures { GivesAs (λ t. t) result fields.new (told_with is_call part.now site base fields.old) }
{
    let last = fields.natural()?;
    registers(is_call, fields)?;
    fields.is(":")?;
    let words = words(fields)?;
    Some(FrameLine {
        part,
        site,
        base,
        last,
        words,
    })
}

// What a call line, or a ret line, tells.
#[tactic(auto, unfolding(crate::specs::Lines::told))]
fn told<'a>(is_call: bool, fields: &mut Parts<'a>) -> Option<FrameLine<'a>>
    ensures { GivesAs (λ t. t) result fields.new (told is_call fields.old) }
{
    direction(fields)?;
    let part = fields.name()?;
    let site = fields.natural()?;
    let base = fields.natural()?;
    told_with(is_call, part, site, base, fields)
}

#[tactic(auto, unfolding(crate::specs::Lines::entered))]
fn entered<'a>(fields: &mut Parts<'a>) -> Option<Line<'a>>
    ensures { GivesAs (λ l. l) result fields.new (entered fields.old) }
{
    fields.name()?;
    fields.name()?;
    fields.word()?;
    registers(true, fields)?;
    fields.back()?;
    Some(Line::Enter)
}

// Whether the two registers are a pair.
fn is_pair(handed: &Handed<'_>) -> bool
    ensures { result ≡ is_pair (handed_seen handed.now) }
{
    !matches!(handed, Handed::Nothing)
}

#[tactic(auto, unfolding(crate::specs::Lines::passed))]
fn passed<'a>(fields: &mut Parts<'a>) -> Option<Line<'a>>
    ensures { GivesAs (λ l. l) result fields.new (passed fields.old) }
{
    let first = fields.handed()?;
    let second = fields.handed()?;
    let third = fields.handed()?;
    if is_pair(&first) || is_pair(&second) || is_pair(&third) {
        Some(Line::Pass)
    } else {
        None
    }
}

#[tactic(auto, unfolding(crate::specs::Lines::left))]
fn left<'a>(fields: &mut Parts<'a>) -> Option<Line<'a>>
    ensures { GivesAs (λ l. l) result fields.new (left fields.old) }
{
    fields.name()?;
    fields.word()?;
    Some(Line::Leave)
}

#[tactic(auto, unfolding(crate::specs::Lines::steps))]
fn steps<'a>(fields: &mut Parts<'a>) -> Option<Line<'a>>
    ensures { GivesAs (λ l. l) result fields.new (steps fields.old) }
{
    fields.is("steps")?;
    count(fields)?;
    Some(Line::End)
}

#[tactic(auto, unfolding(crate::specs::Lines::halted))]
fn halted<'a>(fields: &mut Parts<'a>) -> Option<Line<'a>>
    ensures { GivesAs (λ l. l) result fields.new (halted fields.old) }
{
    fields.word()?;
    steps(fields)
}

#[tactic(auto, unfolding(crate::specs::Lines::failed))]
fn failed<'a>(fields: &mut Parts<'a>) -> Option<Line<'a>>
    ensures { GivesAs (λ l. l) result fields.new (failed fields.old) }
{
    address(fields)?;
    cause(fields)?;
    steps(fields)
}

#[tactic(auto, unfolding(crate::specs::Lines::running))]
fn running<'a>(fields: &mut Parts<'a>) -> Option<Line<'a>>
    ensures { GivesAs (λ l. l) result fields.new (running fields.old) }
{
    address(fields)?;
    steps(fields)
}

#[tactic(auto, unfolding(crate::specs::Lines::call))]
fn call<'a>(fields: &mut Parts<'a>) -> Option<Line<'a>>
    ensures { GivesAs (λ l. l) result fields.new (call fields.old) }
{
    let told = told(true, fields)?;
    Some(Line::Call(told))
}

#[tactic(auto, unfolding(crate::specs::Lines::ret))]
fn ret<'a>(fields: &mut Parts<'a>) -> Option<Line<'a>>
    ensures { GivesAs (λ l. l) result fields.new (ret fields.old) }
{
    let told = told(false, fields)?;
    Some(Line::Ret(told))
}

// The rest of a line that begins with this name.
#[tactic(auto, unfolding(crate::specs::Lines::line_named))]
fn line_named<'a>(name: &[u8], fields: &mut Parts<'a>) -> Option<Line<'a>>
    ensures { GivesAs (λ l. l) result fields.new (line_named name.now fields.old) }
{
    if is_text("call", name) {
        return call(fields);
    }
    if is_text("ret", name) {
        return ret(fields);
    }
    if is_text("enter", name) {
        return entered(fields);
    }
    if is_text("pass", name) {
        return passed(fields);
    }
    if is_text("leave", name) {
        return left(fields);
    }
    if is_text("halted", name) {
        return halted(fields);
    }
    if is_text("failed", name) {
        return failed(fields);
    }
    if is_text("running", name) {
        return running(fields);
    }
    None
}

#[tactic(auto, unfolding(crate::specs::Lines::one_line))]
fn line_at<'a>(fields: &mut Parts<'a>) -> Option<Line<'a>>
    ensures { GivesAs (λ l. l) result fields.new (one_line fields.old) }
{
    let name = fields.part()?;
    line_named(name, fields)
}

/// What a line is, and `None` exactly where it has none of the forms.
#[tactic(auto, unfolding(crate::specs::Lines::line_in))]
pub(crate) fn line_of(line: &[u8]) -> Option<Line<'_>>
    ensures { result ≡ line_in line.now }
{
    let mut fields = Parts::of_line(line);
    let found = line_at(&mut fields)?;
    if fields.is_over() { Some(found) } else { None }
}

impl Line<'_> {
    /// Whether it is an end line.
    pub(crate) fn is_end(&self) -> bool
        ensures { result ≡ is_end self.now }
    {
        matches!(self, Line::End)
    }
}
