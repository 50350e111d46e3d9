//! The plain words that overlay words stand for.
ghost use Rattle.std.specs.Prelude.{◌≡◌, option_map, Some};
ghost use Rattle.cap_words.specs.Ranges.{IsRange};
ghost use Rattle.call_sequence.specs.SequenceRuns.{stack_cap};
ghost use Rattle.overlay_machine.specs.State.{frame_of};
ghost use Rattle.overlay_machine.specs.Machine.{FitsRegion, frames_of};
ghost use Rattle.overlay_machine.specs.Flat.{flat, flat_code, flat_data};
ghost use Rattle.overlay_machine.specs.Events.{head_of};

use crate::frames::Frame;
use crate::machine::Machine;
use crate::words::OWord;
use call_sequence::CALL_WORDS;
use cap_words::{Cap, Lin, Perm, Sealable, Word};
use frame_region::Region;
use trusted_border::{Layout, SiteCode};

// Under the seal of a site, its part's code at the word after the call.
fn code_half(code: SiteCode) -> Word
    requires { IsRange code.base code.end }
    ensures { result ≡ flat_code (Some code) }
{
    let at = i64::from(code.at) + i64::from(CALL_WORDS);
    let cap = Cap::new(Perm::Rx, Lin::Normal, code.base, code.end, at);
    Word::Sealed(code.seal, Sealable::Mem(cap))
}

// Under the seal of a frame's site, the frame's stretch of the stack.
fn data_half(frame: Frame, code: SiteCode) -> Word
    requires { IsRange frame.base frame.end }
    ensures { result ≡ Word.Sealed code.seal (Sealable.Mem (stack_cap frame.base frame.end frame.base)) }
{
    let at = i64::from(frame.base);
    let cap = Cap::new(Perm::Rw, Lin::Linear, frame.base, frame.end, at);
    Word::Sealed(code.seal, Sealable::Mem(cap))
}

// What is said of the frame of a call, while it is open.
fn frame_of(frames: &Region<Frame, OWord>, call: u64) -> Option<Frame>
    ensures { result ≡ option_map head_of (frame_of (frames_of frames.now.frames) call) }
{
    for i in 0..frames.frames() {
        let frame = frames.head(i);
        if frame.call == call {
            return Some(*frame);
        }
    }
    None
}

impl Machine {
    // The plain word of a RetData.
    fn flat_data(&self, layout: &Layout, call: u64) -> Word
        requires { FitsRegion layout.now self.now }
        ensures { result ≡ flat_data layout.now (frame_of (frames_of self.now.frames.frames) call) }
    {
        let Some(frame) = frame_of(&self.frames, call) else {
            return Word::Int(0);
        };
        match layout.site_code(frame.site) {
            Some(code) => data_half(frame, code),
            None => Word::Int(0),
        }
    }

    /// The plain word that an overlay word stands for.
    #[tactic(auto, unfolding(crate::specs::Flat::flat))]
    pub(crate) fn flat(&self, layout: &Layout, word: &OWord) -> Word
        requires { FitsRegion layout.now self.now }
        ensures { result ≡ flat layout.now (frames_of self.now.frames.frames) word.now }
    {
        match word {
            OWord::Plain(word) => word.made_anew(),
            OWord::RetCode(site) => {
                match layout.site_code(*site) {
                    Some(code) => code_half(code),
                    None => Word::Int(0),
                }
            }
            OWord::RetData(call) => self.flat_data(layout, *call),
        }
    }
}
