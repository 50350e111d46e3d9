//! The command of a line.
ghost use Rattle.std.specs.Prelude.{◌≡◌};
ghost use Rattle.debug_script.specs.Commands.{steps_in, address_in, register_in, command_in};

use crate::{LAST_ADDRESS, MOST_STEPS};
use lcm_isa::Reg;
use line_fields::{behind, number_in};

/// A command of a script.
#[derive(Clone, Copy)]
pub enum DebugCommand {
    /// `f N`: so many steps forward.
    Forward(u32),
    /// `b N`: so many steps back.
    Back(u32),
    /// `stop A`: a breakpoint is set.
    StopAt(u32),
    /// `clear A`: a breakpoint is cleared.
    Clear(u32),
    /// `c A`: what a cell holds is told.
    Cell(u32),
    /// `r REG`: what a register holds is told.
    Register(Reg),
}

// A number of steps.
#[tactic(auto, unfolding(crate::specs::Commands::steps_in))]
fn steps_in(text: &[u8]) -> Option<u32>
    ensures { result ≡ steps_in text.now }
{
    let steps = number_in(text, MOST_STEPS)?;
    if steps == 0 { None } else { Some(steps as u32) }
}

fn address_in(text: &[u8]) -> Option<u32>
    ensures { result ≡ address_in text.now }
{
    let at = number_in(text, LAST_ADDRESS)?;
    Some(at as u32)
}

// The register of a name.
fn register_in(name: &[u8]) -> Option<Reg>
    ensures { result ≡ register_in name.now }
{
    Reg::of_name(name)
}

/// The command that a line spells, without its newline, and `None` exactly where it spells none.
#[tactic(auto, unfolding(crate::specs::Commands::command_in))]
pub fn command_in(line: &[u8]) -> Option<DebugCommand>
    ensures { result ≡ command_in line.now }
{
    if let Some(steps) = behind(b"f ", line) {
        return steps_in(steps).map(DebugCommand::Forward);
    }
    if let Some(steps) = behind(b"b ", line) {
        return steps_in(steps).map(DebugCommand::Back);
    }
    if let Some(at) = behind(b"stop ", line) {
        return address_in(at).map(DebugCommand::StopAt);
    }
    if let Some(at) = behind(b"clear ", line) {
        return address_in(at).map(DebugCommand::Clear);
    }
    if let Some(at) = behind(b"c ", line) {
        return address_in(at).map(DebugCommand::Cell);
    }
    let name = behind(b"r ", line)?;
    register_in(name).map(DebugCommand::Register)
}
