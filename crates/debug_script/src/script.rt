//! The script that a text is.
ghost use Rattle.std.specs.Prelude.{◌≡◌, ◌≤◌, ◌⊎◌, IfOk, IfErr, Ok, Err, length};
ghost use Rattle.std.specs.Prelude.{All};
ghost use Rattle.debug_script.specs.declared.fault.ScriptFault.TheVariants.{NoMemory};
ghost use Rattle.debug_script.specs.declared.TheConstants.{MOST_LINES};
ghost use Rattle.debug_script.specs.Commands.{Fits};
ghost use Rattle.debug_script.specs.Script.{command_at, scripted};

use crate::MOST_LINES;
use crate::command::{DebugCommand, command_in};
use crate::fault::ScriptFault;
use line_fields::cut;
use std::alloc::Global;
use std::marker::Model;

/// The commands of a script, at most [`MOST_LINES`]. A contract sees their list.
#[derive(Drop)]
pub struct Script {
    commands: Vec<DebugCommand>,
}

impl Model for Script {
    ghost use Rattle.std.specs.Prelude.{List, length, ◌≤◌};
    ghost use Rattle.std.specs.Prelude.{All};
    ghost use Rattle.std.specs.Coded.{coded_list};
    ghost use Rattle.debug_script.specs.declared.command.DebugCommand.{DebugCommand};
    ghost use Rattle.debug_script.specs.contracts.command.DebugCommand as command;
    ghost use Rattle.debug_script.specs.declared.TheConstants.{MOST_LINES};
    ghost use Rattle.debug_script.specs.Commands.{Fits};

    ghost Value = { List DebugCommand };

    ghost coded = { coded_list command.the_row.coded };

    ghost view = { λ s. s.commands.items };

    ghost invariant = { λ s.
        All Fits s.commands.items × (length s.commands.items ≤ MOST_LINES) };
}

impl Script {
    /// The commands, in their order.
    pub fn commands(&self) -> &[DebugCommand]
        ensures are { result.now ≡ self.now }
        ensures fit { All Fits result.now }
        ensures few { length result.now ≤ MOST_LINES }
    {
        self.commands.as_slice()
    }
}

// The command of a line with this number.
fn command_at(number: u32, line: &[u8]) -> Option<DebugCommand>
    ensures { result ≡ command_at number line.now }
{
    if number > MOST_LINES {
        return None;
    }
    command_in(line)
}

/// The script that a text is; else its first bad line, counted from 1, or that memory was refused.
///
/// Each line spells a command and ends in a newline. What stands after the last newline is a bad line,
/// unless it is nothing, and so is whatever stands after [`MOST_LINES`] lines.
pub fn script_of(alloc: Global, text: &[u8]) -> Result<Script, ScriptFault>
    ensures read { IfOk result (λ s. scripted text.now ≡ Ok s) }
    ensures fails { IfErr result (λ e. (e ≡ NoMemory) ⊎ (scripted text.now ≡ Err e)) }
{
    let mut rest = text;
    let mut commands = Vec::new(alloc);
    let mut number: u32 = 1;
    while let Some((line, behind)) = cut(rest, b'\n') {
        let Some(command) = command_at(number, line) else {
            return Err(ScriptFault::Line(number));
        };
        commands.push(command)?;
        number += 1;
        rest = behind;
    }
    if rest.is_empty() {
        Ok(Script { commands })
    } else {
        Err(ScriptFault::Line(number))
    }
}
