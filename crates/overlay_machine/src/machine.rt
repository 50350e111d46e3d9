//! The step, case by case.
ghost use Rattle.std.specs.Prelude.{◌≡◌, ◌≤◌, ◌<◌, ◌+◌, ◌-◌, ◌^◌, ◌&&◌, [], MatchOption, ℕ, pos, int_lt};
ghost use Rattle.std.specs.Prelude.{Some, None, IsTrue, if◌then◌else◌};
ghost use Rattle.cap_words.specs.Face.{CapInOrder};
ghost use Rattle.cap_words.specs.Ranges.{IsRange};
ghost use Rattle.cap_words.specs.Faces.{covers, address};
ghost use Rattle.lcm_machine.specs.Places.{set_reg};
ghost use Rattle.lcm_machine.specs.Cells.{cell, all_there};
ghost use Rattle.lcm_machine.specs.Spans.{in_spans};
ghost use Rattle.lcm_machine.specs.Runs.{code_cap};
ghost use Rattle.lcm_machine.specs.Touched.{SameCells};
ghost use Rattle.frame_region.specs.Frames.{sizes, IsNewestFull, newest_head};
ghost use Rattle.overlay_machine.specs.Step.{call_step, entry_step, return_step, other_step, step_by};
ghost use Rattle.overlay_machine.specs.Moves.{IsNewest};
ghost use Rattle.overlay_machine.specs.Machine.{overlay_of, FitsRegion, Ends, called, returned};
ghost use Rattle.lcm_machine.specs.Plan.{IsJump};
ghost use Rattle.overlay_machine.specs.Machine.{at_jump, at_return, at_entry};

use crate::cases::{Case, own_stack};
use crate::frames::{Frame, all_there, close_frame, open_frame};
use crate::words::OWord;
use call_sequence::{CALL_WORDS, ENTRY_WORDS, RETURN_WORDS};
use cap_words::{Cap, CapFields, LAST_PLACE, Lin, Perm, Word};
use frame_region::Region;
use lcm_isa::Reg;
use lcm_machine::plan::Effect;
use lcm_machine::state::State;
use lcm_machine::{Place, Step};
use trusted_border::{Layout, SiteCode};

/// What a step came to.
#[derive(Clone, Copy)]
pub enum Outcome {
    Went,
    Halted,
    Failed,
}

/// Registers and memory, the frames of the open calls, and how many calls were made.
#[derive(Drop)]
pub struct Machine {
    pub maps: State<OWord>,
    pub frames: Region<Frame, OWord>,
    pub calls: u64,
}

// Sets a register to a word of the plain machine.
fn set_word(maps: &mut State<OWord>, r: Reg, word: Word)
    ensures { maps.new ≡ record maps.old { regs = set_reg maps.old.regs r (OWord.Plain word) } }
{
    let _ = maps.swap(Place::R(r), OWord::Plain(word));
}

// pc over a site's code, so many words after the call's first.
fn pc_behind(code: SiteCode, words: u32) -> Word
    requires { IsRange code.base code.end }
    ensures { result ≡ Word.Mem (code_cap code.base code.end (code.at + words)) }
{
    let at = i64::from(code.at) + i64::from(words);
    Word::Mem(Cap::new(Perm::Rx, Lin::Normal, code.base, code.end, at))
}

// The registers before a call's `xjmp`.
fn call_regs(maps: &mut State<OWord>, site: u32, calls: u64, code: SiteCode, c: CapFields, at: u32)
    requires stack { (c.base < at) × (at ≤ LAST_PLACE) }
    requires code { IsRange code.base code.end }
    ensures { maps.new ≡ record maps.old { regs = at_jump maps.old.regs site calls code c at } }
{
    let stack = CapFields {
        end: at - 1,
        addr: i64::from(at - 1),
        ..c
    };
    set_word(maps, Reg::Pc, pc_behind(code, CALL_WORDS - 1));
    let _ = maps.swap(Place::R(Reg::Rcode), OWord::RetCode(site));
    let _ = maps.swap(Place::R(Reg::Rdata), OWord::RetData(calls));
    set_word(maps, Reg::Stk, Word::Mem(Cap::of(stack)));
    set_word(maps, Reg::T1, Word::Int(0));
    set_word(maps, Reg::T2, Word::Int(0));
}

// The registers after an entry at an address.
fn entry_regs(maps: &mut State<OWord>, at: u32, p: CapFields, c: CapFields)
    requires code { CapInOrder p }
    requires stack { CapInOrder c }
    ensures { maps.new ≡ record maps.old { regs = at_entry maps.old.regs at p c } }
{
    let next = CapFields {
        addr: i64::from(at) + i64::from(ENTRY_WORDS),
        ..p
    };
    let stack = CapFields {
        addr: i64::from(c.end),
        ..c
    };
    set_word(maps, Reg::Pc, Word::Mem(Cap::of(next)));
    set_word(maps, Reg::Stk, Word::Mem(Cap::of(stack)));
    set_word(maps, Reg::T1, Word::Int(0));
    set_word(maps, Reg::T2, Word::Int(0));
}

// The registers after a return.
fn return_regs(maps: &mut State<OWord>, code: SiteCode, c: CapFields, frame: Frame)
    requires stack { (c.base ≤ frame.end) × (frame.end ≤ LAST_PLACE) }
    requires code { IsRange code.base code.end }
    ensures { maps.new ≡ record maps.old { regs = at_return maps.old.regs code c frame } }
{
    let stack = CapFields {
        end: frame.end,
        addr: i64::from(frame.base),
        ..c
    };
    set_word(maps, Reg::Pc, pc_behind(code, CALL_WORDS + RETURN_WORDS));
    set_word(maps, Reg::Stk, Word::Mem(Cap::of(stack)));
    set_word(maps, Reg::T1, Word::Int(0));
    set_word(maps, Reg::T2, Word::Int(0));
}

// stk's address, where it is in its range and above the stack's lowest address.
fn frame_base(c: &CapFields, layout: &Layout) -> Option<u32>
    requires { c.now.end ≤ LAST_PLACE }
    ensures { result ≡ (if int_lt (pos layout.now.stack.base) c.now.addr && covers c.now c.now.addr
        then Some (address c.now.addr) else None) }
{
    let low = i64::from(layout.stack.base);
    if low < c.addr && i64::from(c.base) <= c.addr && c.addr <= i64::from(c.end) {
        Some(c.addr as u32)
    } else {
        None
    }
}

impl Machine {
    // The frame of the newest open call.
    pub(crate) fn newest(&self) -> Option<Frame>
        ensures { MatchOption result
            (self.now.frames.frames ≡ [])
            (λ f. newest_head self.now.frames.frames ≡ Some f) }
    {
        let (frame, _) = self.frames.newest()?;
        Some(*frame)
    }

    // Registers, memory and frames at a call, up to its `xjmp` and with it.
    fn make_call(&mut self, site: u32, code: SiteCode, c: CapFields, at: u32, effect: Effect)
        requires stack { (c.base < at) × (at ≤ c.end) × (c.end ≤ LAST_PLACE) }
        requires code { IsRange code.base code.end }
        requires there { IsTrue (all_there self.old.maps.cells at (c.end + 1 - at)) }
        requires room { sizes self.old.frames.frames + (c.end + 1 - at) ≤ self.old.frames.cells }
        requires full { IsNewestFull self.old.frames.frames }
        requires count { self.old.calls + 1 < 2 ^ 64 }
        requires effect { IsJump Reg.C2 effect }
        ensures { self.new ≡ called self.old site code c at effect }
    {
        let calls = self.calls;
        let frame = Frame {
            call: calls,
            site,
            base: at,
            end: c.end,
        };
        open_frame(&mut self.maps, &mut self.frames, frame);
        call_regs(&mut self.maps, site, calls, code, c, at);
        self.calls = calls + 1;
        self.maps.perform(effect);
    }

    // A call at a site.
    #[tactic(auto, unfolding(crate::specs::Step::call_step, crate::specs::Step::need, crate::specs::Step::ask))]
    fn call(&mut self, layout: &Layout, site: u32) -> Outcome
        requires fits { FitsRegion layout.now self.old }
        requires count { self.old.calls + 1 < 2 ^ 64 }
        ensures ends { Ends (call_step layout.now site (overlay_of self.old)) result self.old self.new }
        ensures fits { FitsRegion layout.now self.new }
        ensures calls { self.new.calls ≤ self.old.calls + 1 }
    {
        let Some(code) = layout.site_code(site) else {
            return Outcome::Failed;
        };
        let Some(c) = own_stack(&self.maps, layout) else {
            return Outcome::Failed;
        };
        let Some(at) = frame_base(&c, layout) else {
            return Outcome::Failed;
        };
        if !all_there(&self.maps, at, c.end + 1 - at) || c.end > layout.stack.end {
            return Outcome::Failed;
        }
        if !self.maps.reg(Reg::C1).is_plain() || !self.maps.reg(Reg::C2).is_plain() {
            return Outcome::Failed;
        }
        match self.maps.plan_xjmp(Reg::C1, Reg::C2, Word::Int(0)) {
            Err(_) => Outcome::Failed,
            Ok(effect) => {
                self.make_call(site, code, c, at, effect);
                Outcome::Went
            }
        }
    }

    // An entry at an address.
    #[tactic(auto, unfolding(crate::specs::Step::entry_step, crate::specs::Step::need))]
    fn entry(&mut self, layout: &Layout, at: u32) -> Outcome
        requires fits { FitsRegion layout.now self.old }
        ensures ends { Ends (entry_step layout.now at (overlay_of self.old)) result self.old self.new }
        ensures fits { FitsRegion layout.now self.new }
        ensures calls { self.new.calls ≡ self.old.calls }
    {
        let Some(p) = self.maps.face(Reg::Pc).memory() else {
            return Outcome::Failed;
        };
        let Some(c) = own_stack(&self.maps, layout) else {
            return Outcome::Failed;
        };
        entry_regs(&mut self.maps, at, p, c);
        Outcome::Went
    }

    // Registers, memory and frames after a return.
    fn resume(&mut self, r2: Reg, code: SiteCode, c: CapFields, frame: Frame)
        requires stack { c.end + 1 ≡ frame.base }
        requires order { c.base ≤ c.end }
        requires code { IsRange code.base code.end }
        requires newest { IsNewest self.old.frames.frames frame }
        requires space { frame.end ≤ LAST_PLACE }
        requires spanned { (q : ℕ) → frame.base ≤ q → q ≤ frame.end
            → IsTrue (in_spans q self.old.maps.spans) }
        requires none { (q : ℕ) → frame.base ≤ q → q ≤ frame.end → cell self.old.maps.cells q ≡ None }
        ensures { self.new ≡ returned self.old r2 code c frame }
    {
        set_word(&mut self.maps, r2, Word::Int(0));
        close_frame(&mut self.maps, &mut self.frames, frame);
        return_regs(&mut self.maps, code, c, frame);
    }

    // An `xjmp` of a call's pair, or of half of one.
    #[tactic(auto, unfolding(crate::specs::Step::return_step, crate::specs::Step::need, crate::specs::Step::ask))]
    fn back(&mut self, layout: &Layout, r1: Reg, r2: Reg) -> Outcome
        requires fits { FitsRegion layout.now self.old }
        ensures ends { Ends (return_step layout.now r1 r2 (overlay_of self.old)) result self.old self.new }
        ensures fits { FitsRegion layout.now self.new }
        ensures calls { self.new.calls ≡ self.old.calls }
    {
        let Some(site) = self.maps.reg(r1).ret_code() else {
            return Outcome::Failed;
        };
        let Some(call) = self.maps.reg(r2).ret_data() else {
            return Outcome::Failed;
        };
        let Some(frame) = self.newest() else {
            return Outcome::Failed;
        };
        if call != frame.call || site != frame.site {
            return Outcome::Failed;
        }
        let Some(code) = layout.site_code(site) else {
            return Outcome::Failed;
        };
        let Some(c) = own_stack(&self.maps, layout) else {
            return Outcome::Failed;
        };
        if c.end + 1 != frame.base {
            return Outcome::Failed;
        }
        self.resume(r2, code, c, frame);
        Outcome::Went
    }

    // Everything else is the row of the table.
    #[tactic(auto, unfolding(crate::specs::Step::other_step))]
    fn other(&mut self) -> Outcome
        ensures ends { Ends (other_step (overlay_of self.old)) result self.old self.new }
        ensures same_cells { SameCells self.old.maps self.new.maps }
        ensures rest { self.new ≡ record self.old { maps = self.new.maps } }
    {
        let step = self.maps.step();
        match step {
            Step::Went => Outcome::Went,
            Step::Halted => Outcome::Halted,
            Step::Failed(_, _) => Outcome::Failed,
        }
    }

    /// One step of this case.
    pub(crate) fn step(&mut self, layout: &Layout, case: Case) -> Outcome
        requires fits { FitsRegion layout.now self.old }
        requires count { self.old.calls + 1 < 2 ^ 64 }
        ensures ends { Ends (step_by layout.now case (overlay_of self.old)) result self.old self.new }
        ensures fits { FitsRegion layout.now self.new }
        ensures calls { self.new.calls ≤ self.old.calls + 1 }
    {
        match case {
            Case::Call(site) => self.call(layout, site),
            Case::Entry(at) => self.entry(layout, at),
            Case::Back(r1, r2) => self.back(layout, r1, r2),
            Case::Other => self.other(),
        }
    }
}
