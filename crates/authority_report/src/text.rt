//! The text of reports.
ghost use Rattle.std.specs.Prelude.{◌≡◌, ◌++◌, decimal, OnOk, IfOk};
ghost use Rattle.std.specs.List.{All, flat_map};
ghost use Rattle.authority_report.specs.Entered.{IsLinked};
ghost use Rattle.cap_words.specs.Text.{field_text, newline};
ghost use Rattle.authority_report.specs.SealRanges.{IsRange};
ghost use Rattle.authority_report.specs.Text.{rights, part_line, span_line, seals_line};
ghost use Rattle.authority_report.specs.Text.{exit_line, part_text, IsReachText};

use crate::ReachSpan;
use crate::reach::Reach;
use crate::reporting::{owner_at, report_of};
use cap_words::{Items, SealRange};
use itoa::Buffer;
use linked_starts::{CalledEntry, Owner, Start};
use std::alloc::{AllocError, Global};

fn push_field(text: &mut Vec<u8>, bytes: &[u8]) -> Result<(), AllocError>
    ensures { OnOk result (text.new.items ≡ text.old.items ++ field_text bytes.now) }
{
    text.push(b' ')?;
    text.extend_from_slice(bytes)
}

fn push_number(text: &mut Vec<u8>, number: u32) -> Result<(), AllocError>
    ensures { OnOk result (text.new.items ≡ text.old.items ++ field_text (decimal number)) }
{
    let mut digits = Buffer::new();
    push_field(text, digits.format(number).as_bytes())
}

fn end_line(text: &mut Vec<u8>) -> Result<(), AllocError>
    ensures { OnOk result (text.new.items ≡ text.old.items ++ newline) }
{
    Ok(text.push(b'\n')?)
}

fn push_part(text: &mut Vec<u8>, owner: &Owner) -> Result<(), AllocError>
    ensures { OnOk result (text.new.items ≡ text.old.items ++ part_line owner.now) }
{
    text.extend_from_slice(b"part")?;
    push_field(text, owner.name.as_slice())?;
    end_line(text)
}

fn push_rights(text: &mut Vec<u8>, span: &ReachSpan) -> Result<(), AllocError>
    ensures { OnOk result (text.new.items ≡ text.old.items ++ field_text (rights span.now)) }
{
    let read = if span.read { b'r' } else { b'-' };
    let write = if span.write { b'w' } else { b'-' };
    let run = if span.run { b'x' } else { b'-' };
    push_field(text, &[read, write, run])
}

fn push_span(text: &mut Vec<u8>, span: &ReachSpan) -> Result<(), AllocError>
    ensures { OnOk result (text.new.items ≡ text.old.items ++ span_line span.now) }
{
    text.extend_from_slice(b"at")?;
    push_number(text, span.base)?;
    push_number(text, span.end)?;
    push_rights(text, span)?;
    end_line(text)
}

fn push_seals(text: &mut Vec<u8>, seals: &SealRange) -> Result<(), AllocError>
    requires { IsRange seals.now }
    ensures { OnOk result (text.new.items ≡ text.old.items ++ seals_line seals.now) }
{
    text.extend_from_slice(b"seals")?;
    push_number(text, seals.base())?;
    push_number(text, seals.base() + seals.count() - 1)?;
    end_line(text)
}

fn push_exit(text: &mut Vec<u8>, owner: &Owner, call: &CalledEntry) -> Result<(), AllocError>
    ensures { OnOk result (text.new.items ≡ text.old.items ++ exit_line owner.now call.now) }
{
    if call.part.as_slice() == owner.name.as_slice() {
        return Ok(());
    }
    text.extend_from_slice(b"exit")?;
    push_field(text, call.part.as_slice())?;
    push_field(text, call.name.as_slice())?;
    end_line(text)
}

fn push_spans(text: &mut Vec<u8>, spans: &[ReachSpan]) -> Result<(), AllocError>
    ensures { OnOk result (text.new.items ≡ text.old.items ++ flat_map span_line spans.now) }
{
    for span in spans {
        push_span(text, span)?;
    }
    Ok(())
}

fn push_all_seals(text: &mut Vec<u8>, ranges: &[SealRange]) -> Result<(), AllocError>
    requires { All IsRange ranges.now }
    ensures { OnOk result (text.new.items ≡ text.old.items ++ flat_map seals_line ranges.now) }
{
    for seals in ranges {
        push_seals(text, seals)?;
    }
    Ok(())
}

fn push_exits(text: &mut Vec<u8>, owner: &Owner) -> Result<(), AllocError>
    ensures { OnOk result
        (text.new.items ≡ text.old.items ++ flat_map (exit_line owner.now) owner.now.calls) }
{
    for call in owner.calls.as_slice() {
        push_exit(text, owner, call)?;
    }
    Ok(())
}

#[tactic(auto, unfolding(crate::specs::Text::part_text))]
fn push_report(text: &mut Vec<u8>, owner: &Owner, reach: &Reach) -> Result<(), AllocError>
    requires { All IsRange reach.now.seals }
    ensures { OnOk result (text.new.items ≡ text.old.items ++ part_text owner.now reach.now) }
{
    push_part(text, owner)?;
    push_spans(text, reach.spans.as_slice())?;
    push_all_seals(text, reach.seals.as_slice())?;
    push_exits(text, owner)
}

/// The text of the reports of all parts of a start, in their order. docs/REACH.md says what its lines
/// are. All reports are made before it is given.
///
/// There is one such text of a start ([`crate::laws::reports_are_one`]).
///
/// # Errors
///
/// `AllocError` where memory was refused.
pub fn reach_text(alloc: Global, start: &Start) -> Result<Items<u8>, AllocError>
    requires { IsLinked start.now }
    ensures { IfOk result (IsReachText start.now) }
{
    let mut text = Vec::new(alloc);
    for part in 0..start.owners().len() as u32 {
        let owner = owner_at(start, part);
        let reach = report_of(alloc, start.state(), owner)?;
        push_report(&mut text, owner, &reach)?;
    }
    Ok(Items::of(text))
}
