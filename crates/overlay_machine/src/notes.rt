//! What is noted of the state before a step, and the event after it.
ghost use Rattle.std.specs.Prelude.{◌≡◌, ◌==◌, ◌&&◌, is_some, option_map, position, find};
ghost use Rattle.std.specs.Option.{option_copied};
ghost use Rattle.cap_words.specs.Face.{FaceInOrder, ContentInOrder};
ghost use Rattle.lcm_isa.specs.declared.Reg.TheVariants.{Pc, C1};
ghost use Rattle.lcm_machine.specs.Row.{faces, opens, cell_faces, fetch};
ghost use Rattle.trusted_border.specs.Layout.{number_of};
ghost use Rattle.trusted_border.specs.Reaches.{entry_number, closure_owner, site_of_seal, content_base};
ghost use Rattle.trusted_border.specs.Reaches.{hop_by, back_under, jump_plan, plan_goes, back_of};
ghost use Rattle.overlay_machine.specs.Words.{look};
ghost use Rattle.overlay_machine.specs.Machine.{FitsRegion, overlay_of, frames_of};
ghost use Rattle.overlay_machine.specs.Events.{owner_now};
ghost use Rattle.overlay_machine.specs.Events.{note_call, site_opened, jump_seal, note_by};
ghost use Rattle.overlay_machine.specs.Events.{called_event, entered_event};
ghost use Rattle.overlay_machine.specs.Events.{jumped, event_after};

use crate::cases::Case;
use crate::frames::Frame;
use crate::machine::Machine;
use crate::words::OWord;
use cap_words::{Opened, Word};
use lcm_isa::{Instr, Reg};
use lcm_machine::Place;
use lcm_machine::state::State;
use linked_starts::Owner;
use trusted_border::reach::{content_base, entry_number, hop_by, owner_closed, site_sealed};
use trusted_border::{Back, Event, Layout};

/// What is noted of a state before a step.
#[derive(Clone, Copy)]
pub enum StepNote {
    /// Nothing is told of the step.
    Nothing,
    /// It is a call, and its `xjmp` is under no return seal.
    Calls,
    /// It is a return to a call with this frame, by trusted code or not.
    Returns { trusted: bool, frame: Frame },
    /// It is an `xjmp` outside a call, in the code of a trusted part or of none, and opens this seal.
    Jumps { from: Option<u32>, seal: u32 },
}

// The trusted part of a closure seal.
fn closure_owner(layout: &Layout, seal: u32) -> Option<&Owner>
    ensures { option_copied result ≡ closure_owner layout.now seal }
{
    owner_closed(layout.owners.as_slice(), seal)
}

// The site of a return seal.
fn site_of_seal(layout: &Layout, seal: u32) -> Option<u32>
    ensures { result ≡ site_of_seal layout.now seal }
{
    site_sealed(&layout.sites, seal)
}

// Where an `xjmp` of two halves goes, by their seal.
fn back_under(layout: &Layout, code: Opened, half: Opened) -> Back
    requires { ContentInOrder code.content }
    ensures { result ≡ back_under layout.now (site_of_seal layout.now code.seal) code half }
{
    if let Some(site) = site_of_seal(layout, code.seal) {
        return Back::Pair(site, content_base(half.content));
    }
    match closure_owner(layout, code.seal) {
        Some(owner) => hop_by(owner, code.content),
        None => Back::Out,
    }
}

// Whether the table lets an `xjmp rcode rdata` of two words go. It is asked in a state of registers.
#[tactic(auto, unfolding(lcm_machine::specs::Row::plan_in, lcm_machine::specs::Row::opens, lcm_machine::specs::Table::need, lcm_machine::specs::Table::ask))]
fn jump_goes(regs: &mut State<Word>, code: Word, half: Word) -> bool
    ensures { result ≡ plan_goes (jump_plan code half) }
{
    let _ = regs.swap(Place::R(Reg::Rcode), code);
    let _ = regs.swap(Place::R(Reg::Rdata), half);
    regs.plan_xjmp(Reg::Rcode, Reg::Rdata, Word::Int(0)).is_ok()
}

// What an `xjmp rcode rdata` of two words would do.
fn back_of(regs: &mut State<Word>, layout: &Layout, code: Word, half: Word) -> Back
    ensures { result ≡ back_of layout.now code half }
{
    let opened = (code.opened(), half.opened());
    let goes = jump_goes(regs, code, half);
    let (Some(code), Some(half)) = opened else {
        return Back::Bad;
    };
    if goes {
        back_under(layout, code, half)
    } else {
        Back::Bad
    }
}

// The seal that an `xjmp` opens, where pc names one.
fn jump_seal(maps: &State<OWord>) -> Option<u32>
    ensures { result ≡ jump_seal maps.now (fetch (faces look maps.now Pc) (cell_faces look maps.now)) }
{
    let Ok((Instr::Xjmp(r1, _), _)) = maps.fetch() else {
        return None;
    };
    match maps.opened(r1) {
        Some(opened) => Some(opened.seal),
        None => None,
    }
}

impl Machine {
    // The trusted part whose code pc runs.
    fn owner_now<'a>(&self, layout: &'a Layout) -> Option<&'a Owner>
        ensures { option_copied result ≡ owner_now layout.now (overlay_of self.now) }
    {
        layout.trusted_owner(self.maps.face(Reg::Pc))
    }

    // A call, unless its `xjmp` is under a return seal.
    fn note_call(&self, layout: &Layout) -> StepNote
        ensures { result ≡ note_call (site_opened layout.now (opens look self.now.maps C1)) }
    {
        match self.maps.opened(Reg::C1) {
            None => StepNote::Calls,
            Some(code) => {
                match site_of_seal(layout, code.seal) {
                    None => StepNote::Calls,
                    Some(_) => StepNote::Nothing,
                }
            }
        }
    }

    // An `xjmp` outside a call.
    fn note_jump(&self, layout: &Layout) -> StepNote
        ensures { result ≡ note_by layout.now (overlay_of self.now) Case.Other }
    {
        let Some(seal) = jump_seal(&self.maps) else {
            return StepNote::Nothing;
        };
        let from = match self.owner_now(layout) {
            Some(owner) => Some(owner.part),
            None => None,
        };
        StepNote::Jumps { from, seal }
    }

    /// What is noted before a step of this case.
    pub(crate) fn note(&self, layout: &Layout, case: Case) -> StepNote
        ensures { result ≡ note_by layout.now (overlay_of self.now) case }
    {
        match case {
            Case::Call(_) => self.note_call(layout),
            Case::Entry(_) => StepNote::Nothing,
            Case::Back(_, _) => {
                let trusted = self.owner_now(layout).is_some();
                match self.newest() {
                    Some(frame) => StepNote::Returns { trusted, frame },
                    None => StepNote::Nothing,
                }
            }
            Case::Other => self.note_jump(layout),
        }
    }

    // The newest frame was made by a call.
    fn called(&self, trusted: bool) -> Option<Event>
        ensures { result ≡ called_event trusted (frames_of self.now.frames.frames) }
    {
        let frame = self.newest()?;
        Some(Event::Called {
            trusted,
            site: frame.site,
            base: frame.base,
            end: frame.end,
        })
    }

    // Code went to an entry of this part.
    fn entered(&self, regs: &mut State<Word>, layout: &Layout, owner: &Owner) -> Option<Event>
        requires { FitsRegion layout.now self.now }
        ensures { result ≡ entered_event layout.now (overlay_of self.now) owner.now }
    {
        let entry = entry_number(owner, self.maps.face(Reg::Pc))?;
        let code = self.flat(layout, self.maps.reg(Reg::Rcode));
        let half = self.flat(layout, self.maps.reg(Reg::Rdata));
        Some(Event::Entered {
            part: owner.part,
            entry,
            back: back_of(regs, layout, code, half),
        })
    }

    // An `xjmp` outside a call went.
    fn jumped(
        &self,
        regs: &mut State<Word>,
        layout: &Layout,
        from: Option<u32>,
        seal: u32,
    ) -> Option<Event>
        requires { FitsRegion layout.now self.now }
        ensures { result ≡ jumped layout.now (overlay_of self.now) from seal }
    {
        let Some(part) = from else {
            let owner = closure_owner(layout, seal)?;
            return self.entered(regs, layout, owner);
        };
        if self.owner_now(layout).is_some() {
            None
        } else {
            Some(Event::Left { part })
        }
    }

    /// The event after a step of which this was noted. The registers are those to ask the table in.
    pub(crate) fn event(
        &self,
        regs: &mut State<Word>,
        layout: &Layout,
        note: StepNote,
    ) -> Option<Event>
        requires { FitsRegion layout.now self.now }
        ensures { result ≡ event_after layout.now note (overlay_of self.now) }
    {
        match note {
            StepNote::Nothing => None,
            StepNote::Calls => self.called(self.owner_now(layout).is_some()),
            StepNote::Returns { trusted, frame } => {
                Some(Event::Returned {
                    trusted,
                    site: frame.site,
                    base: frame.base,
                    end: frame.end,
                })
            }
            StepNote::Jumps { from, seal } => self.jumped(regs, layout, from, seal),
        }
    }
}
