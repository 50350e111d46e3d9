//! The text of a line, written in pieces, one write for each: those of calls and returns in their head, each
//! word after a blank, and the newline, and every other line in one.
ghost use Rattle.std.specs.Prelude.{◌≡◌, ◌+◌, ◌-◌, ◌^◌, ◌<◌, ◌≤◌, ◌++◌, List, [], ◌∷◌, length, codes};
ghost use Rattle.std.specs.Prelude.{decimal};
ghost use Rattle.arrayvec.specs.ArrayVec.{array_vec_len};
ghost use Rattle.outside_io.specs.Writes.{Writes};
ghost use Rattle.cap_words.specs.Text.{word_text_of};
ghost use Rattle.run_lines.specs.Layout.{layout, part_name, entry_name, site_of};
ghost use Rattle.run_lines.specs.Pairs.{pairs_of};
ghost use Rattle.run_lines.specs.Lines.{list_of, args_of, words_seen, feed_back, feed_pair, line_of};
ghost use Rattle.run_lines.specs.Lines.{pass_line, pass_lines, lines_behind, lines_for};
ghost use Rattle.source_events.specs.Forms.{back_text, pair_text};
ghost use Rattle.run_lines.specs.Texts.{field, args_text, place_text, head_text};
ghost use Rattle.run_lines.specs.Texts.{words_pieces, line_pieces, lines_pieces};

use crate::find::{entry_name, part_name, site_of};
use crate::pairs::pairs_of;
use crate::view::Shown;
use arrayvec::ArrayVec;
use itoa::Buffer;
use lcm_isa::Reg;
use linked_starts::Start;
use outside_io::{Failed, Sink};
use run_lines::{Pairs, PassedPair};
use trusted_border::{Back, Event};

// Room for the longest head.
const ROOM: usize = 1_024;

type Head = ArrayVec<u8, ROOM>;

// What a line tells of a call: whether the code on its other side is trusted, its site, and its frame.
#[derive(Clone, Copy)]
struct Bracket {
    inward: bool,
    site: u32,
    base: u32,
    end: u32,
}

// Appends bytes, for which there is room.
fn push(head: &mut Head, bytes: &[u8])
    requires { array_vec_len head.old + length bytes.now ≤ ROOM }
    ensures bytes { head.new.items ≡ head.old.items ++ bytes.now }
    ensures len { array_vec_len head.new ≡ array_vec_len head.old + length bytes.now }
{
    let _ = head.try_extend_from_slice(bytes);
}

// Appends a blank and bytes.
fn push_field(head: &mut Head, bytes: &[u8])
    requires { array_vec_len head.old + length bytes.now + 1 ≤ ROOM }
    ensures bytes { head.new.items ≡ head.old.items ++ field bytes.now }
    ensures len { array_vec_len head.new ≡ array_vec_len head.old + length bytes.now + 1 }
{
    push(head, b" ");
    push(head, bytes);
}

// Appends a number.
fn push_number(head: &mut Head, number: u32)
    requires { array_vec_len head.old + 10 ≤ ROOM }
    ensures bytes { head.new.items ≡ head.old.items ++ decimal number }
    ensures len { array_vec_len head.new ≤ array_vec_len head.old + 10 }
{
    let mut digits = Buffer::new();
    push(head, digits.format(number).as_bytes());
}

// Appends a blank and a register's word.
fn push_word<V: Shown>(head: &mut Head, view: &V, r: Reg)
    requires { array_vec_len head.old + 129 ≤ ROOM }
    ensures bytes { head.new.items ≡ head.old.items ++ field (word_text_of ((V.view view.now).reg r)) }
    ensures len { array_vec_len head.new ≤ array_vec_len head.old + 129 }
{
    push_field(head, view.text(r).as_str().as_bytes());
}

// Appends the words of a0 to a3, each after a blank.
#[tactic(auto, unfolding(run_lines::specs::Texts::args_text))]
fn push_args<V: Shown>(head: &mut Head, view: &V)
    requires { array_vec_len head.old + 516 ≤ ROOM }
    ensures bytes { head.new.items ≡ head.old.items ++ args_text (args_of (V.view view.now)) }
    ensures len { array_vec_len head.new ≤ array_vec_len head.old + 516 }
{
    push_word(head, view, Reg::A0);
    push_word(head, view, Reg::A1);
    push_word(head, view, Reg::A2);
    push_word(head, view, Reg::A3);
}

// Appends DIR, PART, SITE, BASE and END.
#[tactic(auto, unfolding(run_lines::specs::Texts::place_text))]
fn push_place(head: &mut Head, start: &Start, call: Bracket)
    requires { array_vec_len head.old + 68 ≤ ROOM }
    ensures bytes { let l = layout start.now in let s = site_of l call.site in
        head.new.items
        ≡ head.old.items ++ place_text call.inward (part_name l s.part) s.index call.base call.end }
    ensures len { array_vec_len head.new ≤ array_vec_len head.old + 68 }
{
    push(head, if call.inward { b"in " } else { b"out " });
    let site = site_of(start, call.site);
    push(head, part_name(start, site.part));
    push(head, b" ");
    push_number(head, site.index);
    push(head, b" ");
    push_number(head, call.base);
    push(head, b" ");
    push_number(head, call.end);
}

// Appends where a hop goes: a part, and an entry of it.
fn push_hop(head: &mut Head, start: &Start, part: u32, entry: u32)
    requires { array_vec_len head.old + 67 ≤ ROOM }
    ensures bytes { let l = layout start.now in head.new.items
        ≡ head.old.items ++ (codes "hop:" ++ (part_name l part ++ (codes ":" ++ entry_name l part entry))) }
    ensures len { array_vec_len head.new ≤ array_vec_len head.old + 67 }
{
    push(head, b"hop:");
    push(head, part_name(start, part));
    push(head, b":");
    push(head, entry_name(start, part, entry));
}

// Appends what `xjmp rcode rdata` would do.
fn push_back(head: &mut Head, start: &Start, back: Back)
    requires { array_vec_len head.old + 80 ≤ ROOM }
    ensures bytes { head.new.items ≡ head.old.items ++ back_text (feed_back (layout start.now) back) }
    ensures len { array_vec_len head.new ≤ array_vec_len head.old + 80 }
{
    match back {
        Back::Out => push(head, b"out"),
        Back::Bad => push(head, b"bad"),
        Back::Hop(part, entry) => push_hop(head, start, part, entry),
        Back::Pair(site, base) => {
            let site = site_of(start, site);
            push(head, b"pair:");
            push(head, part_name(start, site.part));
            push(head, b":");
            push_number(head, site.index);
            push(head, b":");
            push_number(head, base);
        }
    }
}

// Appends what an `xjmp` of an argument register and the next one would do.
fn push_pair(head: &mut Head, start: &Start, pair: PassedPair)
    requires { array_vec_len head.old + 70 ≤ ROOM }
    ensures bytes { head.new.items ≡ head.old.items ++ pair_text (feed_pair (layout start.now) pair) }
    ensures len { array_vec_len head.new ≤ array_vec_len head.old + 70 }
{
    match pair {
        PassedPair::Nothing => push(head, b"none"),
        PassedPair::Bad => push(head, b"bad"),
        PassedPair::Out => push(head, b"out"),
        PassedPair::Hop(part, entry) => push_hop(head, start, part, entry),
    }
}

/// Writes a piece.
pub(crate) fn write<S: Sink>(out: &mut S, piece: &[u8]) -> Result<(), Failed>
    requires { 0 < length piece.now }
    ensures { Writes (S.seen out.old) (piece.now ∷ []) result (S.seen out.new) }
{
    out.write(piece)
}

// Writes a word's text as a piece, after a blank.
fn write_word<S: Sink>(out: &mut S, text: &[u8]) -> Result<(), Failed>
    requires { length text.now ≤ 128 }
    ensures { Writes (S.seen out.old) (field text.now ∷ []) result (S.seen out.new) }
{
    let mut piece = Head::new();
    push_field(&mut piece, text);
    write(out, piece.as_slice())
}

// Writes the word of a cell, where there is one.
fn write_cell<V: Shown, S: Sink>(view: &V, at: u32, out: &mut S) -> Result<(), Failed>
    ensures { let words = list_of ((V.view view.now).cell at) in
        Writes (S.seen out.old) (words_pieces words) result (S.seen out.new) }
{
    match view.text_at(at) {
        Some(text) => write_word(out, text.as_str().as_bytes()),
        None => Ok(()),
    }
}

// Writes the words of the cells that there are among so many from one on.
fn write_cells<V: Shown, S: Sink>(
    view: &V,
    from: u64,
    count: u64,
    out: &mut S,
) -> Result<(), Failed>
    requires { from + count ≤ 2 ^ 32 }
    ensures { let words = words_seen (V.view view.now) from count in
        Writes (S.seen out.old) (words_pieces words) result (S.seen out.new) }
{
    for i in 0..count {
        write_cell(view, (from + i) as u32, out)?;
    }
    Ok(())
}

// Writes the words of cells, and the newline.
fn write_rest<V: Shown, S: Sink>(view: &V, from: u64, count: u64, out: &mut S) -> Result<(), Failed>
    requires { from + count ≤ 2 ^ 32 }
    ensures { let words = words_seen (V.view view.now) from count in
        Writes (S.seen out.old) (words_pieces words ++ codes "\n" ∷ []) result (S.seen out.new) }
{
    write_cells(view, from, count, out)?;
    write(out, b"\n")
}

// The head of the line of a call.
fn call_head<V: Shown>(start: &Start, view: &V, call: Bracket) -> Head
    ensures bytes { let event = Event.Called call.inward call.site call.base call.end in
        result.items ≡ head_text (line_of (layout start.now) (V.view view.now) event) }
    ensures some { 0 < length result.items }
{
    let mut head = Head::new();
    push(&mut head, b"call ");
    push_place(&mut head, start, call);
    push_args(&mut head, view);
    push(&mut head, b" :");
    head
}

// The head of the line of a return.
fn ret_head<V: Shown>(start: &Start, view: &V, call: Bracket) -> Head
    ensures bytes { let event = Event.Returned call.inward call.site call.base call.end in
        result.items ≡ head_text (line_of (layout start.now) (V.view view.now) event) }
    ensures some { 0 < length result.items }
{
    let mut head = Head::new();
    push(&mut head, b"ret ");
    push_place(&mut head, start, call);
    push_word(&mut head, view, Reg::A0);
    push(&mut head, b" :");
    head
}

// Writes the line of a call.
fn write_call<V: Shown, S: Sink>(
    start: &Start,
    view: &V,
    call: Bracket,
    out: &mut S,
) -> Result<(), Failed>
    ensures { let event = Event.Called call.inward call.site call.base call.end in
        let line = line_of (layout start.now) (V.view view.now) event in
        Writes (S.seen out.old) (line_pieces line) result (S.seen out.new) }
{
    let head = call_head(start, view, call);
    write(out, head.as_slice())?;
    let count = (u64::from(call.end) + 1).saturating_sub(u64::from(call.base));
    write_rest(view, u64::from(call.base), count, out)
}

// Writes the line of a return.
fn write_ret<V: Shown, S: Sink>(
    start: &Start,
    view: &V,
    call: Bracket,
    out: &mut S,
) -> Result<(), Failed>
    ensures { let event = Event.Returned call.inward call.site call.base call.end in
        let line = line_of (layout start.now) (V.view view.now) event in
        Writes (S.seen out.old) (line_pieces line) result (S.seen out.new) }
{
    let head = ret_head(start, view, call);
    write(out, head.as_slice())?;
    write_word(out, view.text(Reg::Dat).as_str().as_bytes())?;
    let count = u64::from(call.end).saturating_sub(u64::from(call.base));
    write_rest(view, u64::from(call.base) + 1, count, out)
}

// Writes the line of an entry.
#[tactic(auto, unfolding(run_lines::specs::Texts::line_text))]
fn write_enter<V: Shown, S: Sink>(
    start: &Start,
    view: &V,
    part: u32,
    entry: u32,
    back: Back,
    out: &mut S,
) -> Result<(), Failed>
    ensures { let line = line_of (layout start.now) (V.view view.now) (Event.Entered part entry back) in
        Writes (S.seen out.old) (line_pieces line) result (S.seen out.new) }
{
    let mut line = Head::new();
    push(&mut line, b"enter ");
    push(&mut line, part_name(start, part));
    push_field(&mut line, entry_name(start, part, entry));
    push_word(&mut line, view, Reg::Stk);
    push_args(&mut line, view);
    push(&mut line, b" ");
    push_back(&mut line, start, back);
    push(&mut line, b"\n");
    write(out, line.as_slice())
}

// Writes the line of a leave.
#[tactic(auto, unfolding(run_lines::specs::Texts::line_text))]
fn write_leave<V: Shown, S: Sink>(
    start: &Start,
    view: &V,
    part: u32,
    out: &mut S,
) -> Result<(), Failed>
    ensures { let line = line_of (layout start.now) (V.view view.now) (Event.Left part) in
        Writes (S.seen out.old) (line_pieces line) result (S.seen out.new) }
{
    let mut line = Head::new();
    push(&mut line, b"leave ");
    push(&mut line, part_name(start, part));
    push_word(&mut line, view, Reg::A0);
    push(&mut line, b"\n");
    write(out, line.as_slice())
}

// Writes the line of an event, whose words are read from the state after it.
fn write_event<V: Shown, S: Sink>(
    start: &Start,
    view: &V,
    event: Event,
    out: &mut S,
) -> Result<(), Failed>
    ensures { let line = line_of (layout start.now) (V.view view.now) event in
        Writes (S.seen out.old) (line_pieces line) result (S.seen out.new) }
{
    match event {
        Event::Called {
            trusted: inward,
            site,
            base,
            end,
        } => {
            let call = Bracket {
                inward,
                site,
                base,
                end,
            };
            write_call(start, view, call, out)
        }
        Event::Returned {
            trusted: inward,
            site,
            base,
            end,
        } => {
            let call = Bracket {
                inward,
                site,
                base,
                end,
            };
            write_ret(start, view, call, out)
        }
        Event::Entered { part, entry, back } => write_enter(start, view, part, entry, back, out),
        Event::Left { part } => write_leave(start, view, part, out),
    }
}

// Writes the line of pairs.
#[tactic(auto, unfolding(run_lines::specs::Texts::line_text))]
fn write_pairs<S: Sink>(start: &Start, pairs: Pairs, out: &mut S) -> Result<(), Failed>
    ensures { let line = pass_line (layout start.now) pairs in
        Writes (S.seen out.old) (line_pieces line) result (S.seen out.new) }
{
    let mut line = Head::new();
    push(&mut line, b"pass ");
    push_pair(&mut line, start, pairs.p0);
    push(&mut line, b" ");
    push_pair(&mut line, start, pairs.p1);
    push(&mut line, b" ");
    push_pair(&mut line, start, pairs.p2);
    push(&mut line, b"\n");
    write(out, line.as_slice())
}

// Writes the line of the pairs of an entry, where one is more than nothing.
fn write_pass<V: Shown, S: Sink>(start: &Start, view: &V, out: &mut S) -> Result<(), Failed>
    ensures { let l = layout start.now in let lines = pass_lines l (pairs_of l (V.view view.now)) in
        Writes (S.seen out.old) (lines_pieces lines) result (S.seen out.new) }
{
    let pairs = pairs_of(start, view);
    if pairs.are_nothing() {
        Ok(())
    } else {
        write_pairs(start, pairs, out)
    }
}

// Writes what stands after the line of an event.
fn write_behind<V: Shown, S: Sink>(
    start: &Start,
    view: &V,
    event: Event,
    out: &mut S,
) -> Result<(), Failed>
    ensures { let lines = lines_behind (layout start.now) (V.view view.now) event in
        Writes (S.seen out.old) (lines_pieces lines) result (S.seen out.new) }
{
    match event {
        Event::Entered { .. } => write_pass(start, view, out),
        _ => Ok(()),
    }
}

/// Writes the lines of a step, by its event, piece by piece.
#[tactic(auto, using(outside_io::proofs::Offers::writes_behind))]
pub(crate) fn tell<V: Shown, S: Sink>(
    start: &Start,
    view: &V,
    event: Option<Event>,
    out: &mut S,
) -> Result<(), Failed>
    ensures { let lines = lines_for (layout start.now) (V.view view.now) event in
        Writes (S.seen out.old) (lines_pieces lines) result (S.seen out.new) }
{
    match event {
        Some(event) => {
            write_event(start, view, event, out)?;
            write_behind(start, view, event, out)
        }
        None => Ok(()),
    }
}
