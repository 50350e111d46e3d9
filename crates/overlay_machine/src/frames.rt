//! The cells of a frame leave memory and come back, one by one.
ghost use Rattle.std.specs.Prelude.{◌≡◌, ◌≤◌, ◌<◌, ◌+◌, ◌-◌, ◌∷◌, [], ℕ, IsTrue, None, length};
ghost use Rattle.cap_words.specs.declared.TheConstants.{LAST_PLACE};
ghost use Rattle.lcm_machine.specs.Cells.{cell, all_there, words_from, put_back};
ghost use Rattle.lcm_machine.specs.Spans.{in_spans};
ghost use Rattle.frame_region.specs.Frames.{sizes, IsNewestFull, older};
ghost use Rattle.overlay_machine.specs.Step.{first_word, rest_words};
ghost use Rattle.overlay_machine.specs.Moves.{with_items, HasRoom, newest_items, set_items, dropped};
ghost use Rattle.overlay_machine.specs.Moves.{IsNewest, given, left_by, opened};
ghost use Rattle.std.specs.Option.{option_copied};
ghost use Rattle.overlay_machine.specs.State.{framed};
ghost use Rattle.overlay_machine.specs.Machine.{AreFull, frames_of};

use crate::words::OWord;
use cap_words::Word;
use frame_region::Region;
use lcm_isa::Reg;
use lcm_machine::Place;
use lcm_machine::state::State;

/// What is said of an open call's frame: the call's number, the site's number, and the addresses of
/// its words, from base to end.
#[derive(Clone, Copy)]
pub struct Frame {
    pub call: u64,
    pub site: u32,
    pub base: u32,
    pub end: u32,
}

/// Whether `n` addresses from one on have cells. Each that has one lies in a span.
pub(crate) fn all_there(maps: &State<OWord>, from: u32, n: u32) -> bool
    requires { from + n ≤ LAST_PLACE + 1 }
    ensures is { result ≡ all_there maps.now.cells from n }
    ensures spanned { IsTrue result → (q : ℕ) → from ≤ q → q < from + n → IsTrue (in_spans q maps.now.spans) }
{
    let mut at = from;
    let mut left = n;
    while left > 0 {
        if !maps.has_cell(at) {
            return false;
        }
        at += 1;
        left -= 1;
    }
    true
}

// `n` cells from an address on leave memory, their words as items of the newest frame.
fn take_cells(maps: &mut State<OWord>, frames: &mut Region<Frame, OWord>, from: u32, n: u32)
    requires space { from + n ≤ LAST_PLACE + 1 }
    requires there { IsTrue (all_there maps.old.cells from n) }
    requires room { HasRoom frames.old.frames n }
    ensures maps { maps.new ≡ record maps.old { cells = dropped maps.old.cells from n } }
    ensures frames { frames.new ≡ record frames.old {
      frames = with_items frames.old.frames (words_from OWord.Plain maps.old.cells from n);
    } }
{
    let mut at = from;
    let mut left = n;
    while left > 0 {
        let word = maps.remove_cell(at);
        frames.push(word);
        at += 1;
        left -= 1;
    }
}

// All items of the newest frame but the first go back to cells, from an address on.
fn give_cells(maps: &mut State<OWord>, frames: &mut Region<Frame, OWord>, base: u32, n: u32)
    requires items { length (newest_items frames.old.frames) ≡ n + 1 }
    requires space { base + n ≤ LAST_PLACE + 1 }
    requires spanned { (q : ℕ) → base ≤ q → q < base + n → IsTrue (in_spans q maps.old.spans) }
    requires none { (q : ℕ) → base ≤ q → q < base + n → cell maps.old.cells q ≡ None }
    ensures maps { maps.new ≡ record maps.old {
      cells = put_back maps.old.cells base (rest_words (newest_items frames.old.frames));
    } }
    ensures frames { frames.new ≡ record frames.old {
      frames = set_items frames.old.frames (first_word (newest_items frames.old.frames) ∷ []);
    } }
{
    let mut left = n;
    while left > 0 {
        left -= 1;
        let word = frames.pop();
        maps.insert_cell(base + left, word);
    }
}

/// The cells of a new frame leave memory. Its first word is that of data, where 0 stays.
pub(crate) fn open_frame(maps: &mut State<OWord>, frames: &mut Region<Frame, OWord>, frame: Frame)
    requires order { frame.base ≤ frame.end }
    requires space { frame.end ≤ LAST_PLACE }
    requires there { IsTrue (all_there maps.old.cells frame.base (frame.end + 1 - frame.base)) }
    requires room { sizes frames.old.frames + (frame.end + 1 - frame.base) ≤ frames.old.cells }
    requires full { IsNewestFull frames.old.frames }
    ensures maps { maps.new ≡ left_by maps.old frame }
    ensures frames { frames.new ≡ record frames.old { frames = opened maps.old frame ∷ frames.old.frames } }
{
    frames.begin(frame, frame.end + 1 - frame.base);
    let first = maps.swap(Place::R(Reg::Dat), OWord::Plain(Word::Int(0)));
    frames.push(first);
    let _ = maps.remove_cell(frame.base);
    take_cells(maps, frames, frame.base + 1, frame.end - frame.base);
}

/// The cells of the newest frame come back, the first one as 0, and its first word goes to data.
pub(crate) fn close_frame(maps: &mut State<OWord>, frames: &mut Region<Frame, OWord>, frame: Frame)
    requires newest { IsNewest frames.old.frames frame }
    requires space { frame.end ≤ LAST_PLACE }
    requires spanned { (q : ℕ) → frame.base ≤ q → q ≤ frame.end → IsTrue (in_spans q maps.old.spans) }
    requires none { (q : ℕ) → frame.base ≤ q → q ≤ frame.end → cell maps.old.cells q ≡ None }
    ensures maps { maps.new ≡ given maps.old frame (newest_items frames.old.frames) }
    ensures frames { frames.new ≡ record frames.old { frames = older frames.old.frames } }
{
    maps.insert_cell(frame.base, OWord::Plain(Word::Int(0)));
    give_cells(maps, frames, frame.base + 1, frame.end - frame.base);
    let first = frames.pop();
    let _ = maps.swap(Place::R(Reg::Dat), first);
    let _ = frames.finish();
}

/// The word that a frame has at an address.
pub(crate) fn framed(frames: &Region<Frame, OWord>, at: u32) -> Option<&OWord>
    requires { AreFull frames.now.frames }
    ensures { option_copied result ≡ framed (frames_of frames.now.frames) at }
{
    for i in 0..frames.frames() {
        let frame = frames.head(i);
        if frame.base <= at && at <= frame.end {
            return Some(frames.item_at(i, at - frame.base));
        }
    }
    None
}
