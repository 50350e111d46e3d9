//! Events and ends as lines.
ghost use Rattle.std.specs.Prelude.{◌≡◌, ◌++◌, OnOk, IfOk};
ghost use Rattle.source_events.specs.declared.OutEvent.TheVariants as OutEvent;
ghost use Rattle.proc_meaning.specs.Text.{out_args_text, event_text, events_text, end_text, told_text};

use crate::pieces::{end_line, push, push_arg, push_field, push_integer, push_number};
use cap_words::Items;
use source_events::{End, OutArg, OutEvent, Told};
use std::alloc::{AllocError, Global};

// Appends what the registers of a call hold.
fn push_args(text: &mut Vec<u8>, args: &[OutArg; 4]) -> Result<(), AllocError>
    ensures { OnOk result (text.new.items ≡ text.old.items ++ out_args_text args.now) }
{
    for arg in args {
        push_arg(text, *arg)?;
    }
    Ok(())
}

// Appends the line of a call that leaves.
fn push_call(
    text: &mut Vec<u8>,
    part: &Items<u8>,
    site: u32,
    args: &[OutArg; 4],
) -> Result<(), AllocError>
    ensures { OnOk result (text.new.items
        ≡ text.old.items ++ event_text (OutEvent.CallOut part.now site args.now)) }
{
    push(text, "call")?;
    push_field(text, part.as_slice())?;
    push_number(text, u64::from(site))?;
    push_args(text, args)?;
    end_line(text)
}

// Appends the line of a procedure that goes back to code outside.
fn push_leave(text: &mut Vec<u8>, part: &Items<u8>, value: i64) -> Result<(), AllocError>
    ensures { OnOk result (text.new.items
        ≡ text.old.items ++ event_text (OutEvent.LeaveOut part.now value)) }
{
    push(text, "leave")?;
    push_field(text, part.as_slice())?;
    push_integer(text, value)?;
    end_line(text)
}

// Appends the line of an event.
fn push_event(text: &mut Vec<u8>, event: &OutEvent) -> Result<(), AllocError>
    ensures { OnOk result (text.new.items ≡ text.old.items ++ event_text event.now) }
{
    match event {
        OutEvent::CallOut(part, site, args) => push_call(text, part, *site, args),
        OutEvent::LeaveOut(part, value) => push_leave(text, part, *value),
    }
}

// Appends a line for each event.
fn push_events(text: &mut Vec<u8>, events: &[OutEvent]) -> Result<(), AllocError>
    ensures { OnOk result (text.new.items ≡ text.old.items ++ events_text events.now) }
{
    for event in events {
        push_event(text, event)?;
    }
    Ok(())
}

// Appends how a meaning ended.
fn push_end(text: &mut Vec<u8>, end: End) -> Result<(), AllocError>
    ensures { OnOk result (text.new.items ≡ text.old.items ++ end_text end) }
{
    match end {
        End::Halt(value) => {
            push(text, "halt")?;
            push_integer(text, value)
        }
        End::Fail => push(text, "fail"),
        End::Waiting => push(text, "waiting"),
        End::OutOfFuel => push(text, "fuel"),
    }
}

/// The text of what a meaning tells: a line for each event, in order, and the end line with the ticks.
#[tactic(auto, unfolding(crate::specs::Text::told_text))]
pub fn told_text(alloc: Global, told: &Told) -> Result<Vec<u8>, AllocError>
    ensures { IfOk result (λ text. text.items ≡ told_text told.now) }
{
    let mut text = Vec::new(alloc);
    push_events(&mut text, told.events.as_slice())?;
    push_end(&mut text, told.end)?;
    push(&mut text, " ticks")?;
    push_number(&mut text, told.ticks)?;
    end_line(&mut text)?;
    Ok(text)
}
