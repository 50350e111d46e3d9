//! The picture of a run.
ghost use Rattle.std.specs.Prelude.{◌≡◌, ◌≤◌, ◌++◌, length, OnOk, IfOk};
ghost use Rattle.run_picture.specs.Shapes.{marked, shapes_text};
ghost use Rattle.run_picture.specs.Page.{width, height};
ghost use Rattle.run_picture.specs.Picture.{lanes, mark, mark_above, marks_text, front, page_text, picture};
ghost use Rattle.run_picture.specs.Picture.{is_too_long, drawn};
ghost use Rattle.run_picture.specs.Picture.{Draws};
ghost use Rattle.run_picture.specs.Events.{events};

use crate::class::Class;
use crate::event::{Event, events, line_count};
use crate::fault::DrawFault;
use crate::group::push_groups;
use crate::heights::cuts_of;
use crate::page::Page;
use crate::pieces::{Point, push, push_box, push_label, push_line, push_marked};
use crate::{LAST_COUNT, LAST_LENGTH, STYLE};
use itoa::Buffer;
use run_audit::audit;
use std::alloc::{AllocError, Global};

// Appends the lanes, and the border between them.
#[tactic(auto, unfolding(crate::specs::Picture::lanes))]
fn push_lanes(text: &mut Vec<u8>, page: &Page<'_>) -> Result<(), AllocError>
    ensures { OnOk result (text.new.items ≡ text.old.items ++ shapes_text (lanes page.now)) }
{
    let x = page.x(page.count());
    push_box(
        text,
        Class::Trusted,
        Point { x: 132, y: 100 },
        Point { x, y: 130 },
    )?;
    push_box(
        text,
        Class::Outside,
        Point { x: 132, y: 220 },
        Point { x, y: 250 },
    )?;
    push_line(
        text,
        Class::Rule,
        Point { x: 12, y: 214 },
        Point { x, y: 214 },
    )
}

// Appends a cut, and the address below it.
#[tactic(auto, unfolding(crate::specs::Picture::mark))]
fn push_mark(text: &mut Vec<u8>, page: &Page<'_>, cut: u64) -> Result<(), AllocError>
    ensures { OnOk result (text.new.items ≡ text.old.items ++ shapes_text (mark page.now cut)) }
{
    let y = page.y(cut);
    let x = page.x(page.count());
    push_line(text, Class::Rule, Point { x: 12, y }, Point { x, y })?;
    let mut digits = Buffer::new();
    let below = digits.format(cut.saturating_sub(1));
    push_label(
        text,
        Class::Note,
        Point { x: 12, y: y + 12 },
        below.as_bytes(),
    )
}

// Appends a cut, where it stands far enough above the next.
#[tactic(auto, unfolding(crate::specs::Picture::mark_above))]
fn push_mark_above(
    text: &mut Vec<u8>,
    page: &Page<'_>,
    cut: u64,
    next: u64,
) -> Result<(), AllocError>
    ensures { OnOk result (text.new.items ≡ text.old.items ++ shapes_text (mark_above page.now cut next)) }
{
    let scale = page.scale();
    if scale.px * cut.saturating_sub(next).min(scale.most) < 14 {
        return Ok(());
    }
    push_mark(text, page, cut)
}

// Appends the cuts that stand far enough above the next.
fn push_marks(text: &mut Vec<u8>, page: &Page<'_>) -> Result<(), AllocError>
    ensures { OnOk result (text.new.items ≡ text.old.items ++ marks_text page.now page.now.cuts) }
{
    let mut rest = page.cuts();
    while let Some((cut, lower)) = rest.split_first() {
        let Some(next) = lower.first() else {
            return push_mark(text, page, *cut);
        };
        push_mark_above(text, page, *cut, *next)?;
        rest = lower;
    }
    Ok(())
}

// Appends a mark and how wide the page is.
fn push_width(text: &mut Vec<u8>, mark: &str, page: &Page<'_>) -> Result<(), AllocError>
    ensures { OnOk result (text.new.items ≡ text.old.items ++ marked mark.now (width page.now)) }
{
    push_marked(text, mark, page.width())
}

// Appends a mark and how high the page is.
fn push_height(text: &mut Vec<u8>, mark: &str, page: &Page<'_>) -> Result<(), AllocError>
    ensures { OnOk result (text.new.items ≡ text.old.items ++ marked mark.now (height page.now)) }
{
    push_marked(text, mark, page.height())
}

// Appends the front of the picture.
#[tactic(auto, unfolding(crate::specs::Picture::front))]
fn push_front(text: &mut Vec<u8>, page: &Page<'_>) -> Result<(), AllocError>
    ensures { OnOk result (text.new.items ≡ text.old.items ++ front page.now) }
{
    push_width(
        text,
        "<svg xmlns=\"http://www.w3.org/2000/svg\" width=\"",
        page,
    )?;
    push_height(text, "\" height=\"", page)?;
    push_width(text, "\" viewBox=\"0 0 ", page)?;
    push_height(text, " ", page)?;
    push(text, "\">\n")
}

// The text of a page.
fn page_text(alloc: Global, page: &Page<'_>, events: &[Event<'_>]) -> Result<Vec<u8>, AllocError>
    requires { length events.now ≤ 16384 }
    ensures { IfOk result (λ v. v.items ≡ page_text page.now events.now) }
{
    let mut text = Vec::new(alloc);
    push_front(&mut text, page)?;
    push(&mut text, STYLE)?;
    push_lanes(&mut text, page)?;
    push_marks(&mut text, page)?;
    push_groups(alloc, &mut text, page, events)?;
    push(&mut text, "</svg>\n")?;
    Ok(text)
}

// The picture of a text of at most 16,384 lines.
#[tactic(auto, unfolding(crate::specs::Picture::picture))]
fn picture(alloc: Global, text: &[u8]) -> Result<Vec<u8>, AllocError>
    requires { length (events text.now) ≤ 16384 }
    ensures { IfOk result (λ v. v.items ≡ picture text.now) }
{
    let events = events(alloc, text)?;
    let cuts = cuts_of(alloc, &events)?;
    let page = Page::of(&cuts, events.len() as u64);
    page_text(alloc, &page, &events)
}

fn is_too_long(text: &[u8]) -> bool
    ensures { result ≡ is_too_long text.now }
{
    text.len() > LAST_LENGTH || line_count(text) > LAST_COUNT
}

/// The picture of a run as SVG, of the text that the run writes, by docs/PICTURES.md. A text is drawn exactly
/// where it has at most 4,194,304 bytes and 16,384 lines and passes the audit of `run_audit`. Else it is told
/// that it is too long, or the audit's fault. Wherever memory is refused, `Audit(NoMemory)` is told.
#[tactic(auto, unfolding(crate::specs::Picture::drawn))]
pub fn draw(alloc: Global, text: &[u8]) -> Result<Vec<u8>, DrawFault>
    // The answer is the one that is due, unless memory is refused.
    ensures { Draws (λ v. v.items) result (drawn text.now) }
{
    if is_too_long(text) {
        return Err(DrawFault::TooLong);
    }
    audit(alloc, text)?;
    Ok(picture(alloc, text)?)
}
