//! The shapes of each line of a run.
ghost use Rattle.std.specs.Prelude.{◌≡◌, ◌+◌, ◌≤◌, ◌++◌, length, take, OnOk, IfSome};
ghost use Rattle.line_fields.specs.Cuts.{cut};
ghost use Rattle.line_fields.specs.Fields.{fields};
ghost use Rattle.run_picture.specs.Shapes.{shape_text, shapes_text, title_text, group_text, groups_text};
ghost use Rattle.run_picture.specs.Groups.{class_of, acts, arrow, number, rows, told_beside, area, frame_box};
ghost use Rattle.run_picture.specs.Groups.{behind_blank, told_inside, call_frame, ret_edge, frame};
ghost use Rattle.run_picture.specs.Groups.{line_shapes, end_shapes, groups};
ghost use Rattle.run_picture.specs.Held.{nothing_held};

use crate::class::Class;
use crate::event::{Event, closing};
use crate::held::Held;
use crate::page::{Page, middle};
use crate::pieces::{Point, push, push_box, push_escaped, push_label, push_line};
use crate::turn::{Extent, Side, Turn};
use itoa::Buffer;
use line_fields::{Parts, cut};
use std::alloc::{AllocError, Global};

fn class_of(side: Side) -> Class
    ensures { result ≡ class_of side }
{
    match side {
        Side::Trusted => Class::Trusted,
        Side::Outside => Class::Outside,
    }
}

// Appends who acts after a line.
#[tactic(auto, unfolding(crate::specs::Groups::acts))]
fn push_acts(text: &mut Vec<u8>, page: &Page<'_>, n: u64, turn: Turn) -> Result<(), AllocError>
    requires { n ≤ 16384 }
    ensures { OnOk result (text.new.items ≡ text.old.items ++ shapes_text (acts page.now n turn)) }
{
    let y = middle(turn.side_behind());
    let from = Point { x: page.x(n), y };
    let to = Point {
        x: page.x(n + 1),
        y,
    };
    push_line(text, Class::Acts, from, to)
}

// Appends an arrow where control crosses the border.
#[tactic(auto, unfolding(crate::specs::Groups::arrow))]
fn push_arrow(text: &mut Vec<u8>, page: &Page<'_>, n: u64, turn: Turn) -> Result<(), AllocError>
    requires { n ≤ 16384 }
    ensures { OnOk result (text.new.items ≡ text.old.items ++ shapes_text (arrow page.now n turn)) }
{
    let x = page.x(n);
    match (turn.side_before(), turn.side_behind()) {
        (Side::Trusted, Side::Outside) => {
            push_line(text, Class::Arrow, Point { x, y: 115 }, Point { x, y: 229 })
        }
        (Side::Outside, Side::Trusted) => {
            push_line(text, Class::Arrow, Point { x, y: 235 }, Point { x, y: 121 })
        }
        (Side::Trusted, Side::Trusted) | (Side::Outside, Side::Outside) => Ok(()),
    }
}

// Appends the line's number, of each line or of each fiftieth.
#[tactic(auto, unfolding(crate::specs::Groups::number))]
fn push_line_number(text: &mut Vec<u8>, page: &Page<'_>, n: u64) -> Result<(), AllocError>
    requires { n ≤ 16384 }
    ensures { OnOk result (text.new.items ≡ text.old.items ++ shapes_text (number page.now n)) }
{
    if page.column() < 44 && n % 50 != 0 {
        return Ok(());
    }
    let mut digits = Buffer::new();
    let at = Point {
        x: page.x(n),
        y: 92,
    };
    push_label(text, Class::Note, at, digits.format(n).as_bytes())
}

// The first bytes of a text.
fn first(text: &[u8], bytes: u64) -> &[u8]
    ensures { result.now ≡ take bytes text.now }
{
    if bytes < text.len() as u64 {
        &text[..bytes as usize]
    } else {
        text
    }
}

// Appends fields below one another.
fn push_rows(text: &mut Vec<u8>, bytes: u64, x: u64, line: &[u8]) -> Result<(), AllocError>
    ensures { OnOk result (text.new.items
        ≡ text.old.items ++ shapes_text (rows bytes x 146 (fields line.now))) }
{
    let mut fields = Parts::of_line(line);
    let mut y: u64 = 146;
    while y < 210 {
        let Some(field) = fields.part() else {
            return Ok(());
        };
        push_label(text, Class::Note, Point { x, y }, first(field, bytes))?;
        y += 14;
    }
    Ok(())
}

// Appends the line's first fields.
#[tactic(auto, unfolding(crate::specs::Groups::told_beside))]
fn push_told(text: &mut Vec<u8>, page: &Page<'_>, n: u64, line: &[u8]) -> Result<(), AllocError>
    requires { n ≤ 16384 }
    ensures { OnOk result (text.new.items ≡ text.old.items ++ shapes_text (told_beside page.now n line.now)) }
{
    if page.column() < 44 {
        return Ok(());
    }
    push_rows(text, page.column() / 8, page.x(n) + 6, line)
}

// Appends what was handed over.
#[tactic(auto, unfolding(crate::specs::Groups::area))]
fn push_area(
    text: &mut Vec<u8>,
    page: &Page<'_>,
    n: u64,
    turn: Turn,
    top: Option<u64>,
) -> Result<(), AllocError>
    requires { n ≤ 16384 }
    ensures { OnOk result (text.new.items ≡ text.old.items ++ shapes_text (area page.now n turn top)) }
{
    let Some(top) = top else {
        return Ok(());
    };
    let from = Point {
        x: page.x(n),
        y: page.y(top),
    };
    let to = Point {
        x: page.x(n + 1),
        y: page.bottom(),
    };
    push_box(text, class_of(turn.side_behind()), from, to)
}

// Appends the box of a frame.
fn push_frame_box(
    text: &mut Vec<u8>,
    page: &Page<'_>,
    n: u64,
    span: Extent,
    lines: Option<u64>,
) -> Result<(), AllocError>
    requires here { n ≤ 16384 }
    requires there { IfSome lines (λ k. k ≤ 16384) }
    ensures { OnOk result (text.new.items
        ≡ text.old.items ++ shape_text (frame_box page.now n span lines)) }
{
    let from = Point {
        x: page.x(n),
        y: page.y(u64::from(span.last) + 1),
    };
    let y = page.y(u64::from(span.base));
    match lines {
        Some(k) => push_box(
            text,
            Class::Closed,
            from,
            Point {
                x: page.x(n + k),
                y,
            },
        ),
        None => push_box(
            text,
            Class::Open,
            from,
            Point {
                x: page.x(page.count()) + 14,
                y,
            },
        ),
    }
}

// What stands after the first blank.
fn behind_blank(text: &[u8]) -> &[u8]
    ensures { result.now ≡ behind_blank (cut 32 text.now) }
{
    match cut(text, b' ') {
        Some((_, behind)) => behind,
        None => b"",
    }
}

// Appends what a call line tells after its direction, in a frame that is so many columns wide.
#[tactic(auto, unfolding(crate::specs::Groups::told_inside))]
fn push_inside(
    text: &mut Vec<u8>,
    page: &Page<'_>,
    n: u64,
    span: Extent,
    columns: u64,
    line: &[u8],
) -> Result<(), AllocError>
    requires here { n ≤ 16384 }
    requires there { columns ≤ 16384 }
    ensures { OnOk result (text.new.items
        ≡ text.old.items ++ shapes_text (told_inside page.now n span columns line.now)) }
{
    let top = page.y(u64::from(span.last) + 1);
    if page.y(u64::from(span.base)) < top + 14 {
        return Ok(());
    }
    let at = Point {
        x: page.x(n) + 4,
        y: top + 12,
    };
    let told = behind_blank(behind_blank(line));
    push_label(
        text,
        Class::Inside,
        at,
        first(told, page.column() * columns / 8),
    )
}

// Appends the frame of a call.
#[tactic(auto, unfolding(crate::specs::Groups::call_frame))]
fn push_call(
    text: &mut Vec<u8>,
    page: &Page<'_>,
    n: u64,
    span: Extent,
    line: &[u8],
    others: &[Event<'_>],
) -> Result<(), AllocError>
    requires here { n ≤ 16384 }
    requires there { length others.now ≤ 16384 }
    ensures { OnOk result (text.new.items
        ≡ text.old.items ++ shapes_text (call_frame page.now n span line.now others.now)) }
{
    if span.last < span.base {
        return Ok(());
    }
    let lines = closing(others);
    push_frame_box(text, page, n, span, lines)?;
    push_inside(
        text,
        page,
        n,
        span,
        lines.unwrap_or(others.len() as u64),
        line,
    )
}

// Appends the edge by which a return closes a frame.
#[tactic(auto, unfolding(crate::specs::Groups::ret_edge))]
fn push_edge(text: &mut Vec<u8>, page: &Page<'_>, n: u64, span: Extent) -> Result<(), AllocError>
    requires { n ≤ 16384 }
    ensures { OnOk result (text.new.items ≡ text.old.items ++ shapes_text (ret_edge page.now n span)) }
{
    if span.last < span.base {
        return Ok(());
    }
    let x = page.x(n);
    let from = Point {
        x,
        y: page.y(u64::from(span.last) + 1),
    };
    let to = Point {
        x,
        y: page.y(u64::from(span.base)),
    };
    push_line(text, Class::Edge, from, to)
}

// Appends a call's frame, or the edge by which its return closes it.
fn push_frame(
    text: &mut Vec<u8>,
    page: &Page<'_>,
    n: u64,
    turn: Turn,
    line: &[u8],
    others: &[Event<'_>],
) -> Result<(), AllocError>
    requires here { n ≤ 16384 }
    requires there { length others.now ≤ 16384 }
    ensures { OnOk result (text.new.items
        ≡ text.old.items ++ shapes_text (frame page.now n turn line.now others.now)) }
{
    match turn {
        Turn::Call(_, span) => push_call(text, page, n, span, line, others),
        Turn::Ret(_, span) => push_edge(text, page, n, span),
        Turn::Enter(_) | Turn::Leave | Turn::Other => Ok(()),
    }
}

// Appends the shapes of a line.
#[tactic(auto, unfolding(crate::specs::Groups::line_shapes))]
fn push_shapes(
    text: &mut Vec<u8>,
    page: &Page<'_>,
    n: u64,
    turn: Turn,
    line: &[u8],
    top: Option<u64>,
    others: &[Event<'_>],
) -> Result<(), AllocError>
    requires here { n ≤ 16384 }
    requires there { length others.now ≤ 16384 }
    ensures { OnOk result (text.new.items
        ≡ text.old.items ++ shapes_text (line_shapes page.now n turn line.now top others.now)) }
{
    push_area(text, page, n, turn, top)?;
    push_acts(text, page, n, turn)?;
    push_arrow(text, page, n, turn)?;
    push_line_number(text, page, n)?;
    push_told(text, page, n, line)?;
    push_frame(text, page, n, turn, line, others)
}

// Appends the front of a line's group, with the line as its title.
fn push_title(text: &mut Vec<u8>, line: &[u8]) -> Result<(), AllocError>
    ensures { OnOk result (text.new.items ≡ text.old.items ++ title_text line.now) }
{
    push(text, "<g><title>")?;
    push_escaped(text, line)?;
    push(text, "</title>")
}

// Appends the group of a line.
#[tactic(auto, unfolding(crate::specs::Shapes::group_text))]
fn push_group(
    text: &mut Vec<u8>,
    page: &Page<'_>,
    n: u64,
    event: &Event<'_>,
    top: Option<u64>,
    others: &[Event<'_>],
) -> Result<(), AllocError>
    requires here { n ≤ 16384 }
    requires there { length others.now ≤ 16384 }
    ensures { OnOk result (text.new.items
        ≡ text.old.items ++ group_text event.now.line
        (line_shapes page.now n event.now.turn event.now.line top others.now)) }
{
    push_title(text, event.line)?;
    push_shapes(text, page, n, event.turn, event.line, top, others)?;
    push(text, "</g>\n")
}

// Appends the shapes of the end line.
#[tactic(auto, unfolding(crate::specs::Groups::end_shapes))]
fn push_end_shapes(
    text: &mut Vec<u8>,
    page: &Page<'_>,
    n: u64,
    line: &[u8],
) -> Result<(), AllocError>
    requires { n ≤ 16384 }
    ensures { OnOk result (text.new.items ≡ text.old.items ++ shapes_text (end_shapes page.now n line.now)) }
{
    let x = page.x(n);
    push_line(
        text,
        Class::End,
        Point { x, y: 80 },
        Point {
            x,
            y: page.bottom(),
        },
    )?;
    push_rows(text, 48, x + 8, line)
}

// Appends the group of the end line.
#[tactic(auto, unfolding(crate::specs::Shapes::group_text))]
fn push_end(text: &mut Vec<u8>, page: &Page<'_>, n: u64, line: &[u8]) -> Result<(), AllocError>
    requires { n ≤ 16384 }
    ensures { OnOk result (text.new.items
        ≡ text.old.items ++ group_text line.now (end_shapes page.now n line.now)) }
{
    push_title(text, line)?;
    push_end_shapes(text, page, n, line)?;
    push(text, "</g>\n")
}

/// Appends the groups of lines.
pub(crate) fn push_groups(
    alloc: Global,
    text: &mut Vec<u8>,
    page: &Page<'_>,
    events: &[Event<'_>],
) -> Result<(), AllocError>
    requires { length events.now ≤ 16384 }
    ensures { OnOk result (text.new.items
        ≡ text.old.items ++ groups_text (groups page.now 1 nothing_held events.now)) }
{
    let mut held = Held::new(alloc);
    let mut n: u64 = 1;
    for (i, event) in events.iter().enumerate() {
        let others = &events[i + 1..];
        if others.is_empty() {
            return push_end(text, page, n, event.line);
        }
        held.go_on(event.turn)?;
        push_group(text, page, n, event, held.shown(), others)?;
        n += 1;
    }
    Ok(())
}
