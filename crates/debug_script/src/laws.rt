//! What holds of scripts. The functions do nothing; their contracts are the laws.
ghost use Rattle.debug_script.specs.Laws.{CommandsAreRead, ScriptsAreRead, FirstBadIsTold};

/// A line is read as a command exactly if it is that command's text.
pub fn commands_are_read()
    ensures { CommandsAreRead }
{}

/// A text is read as commands exactly if it is their script; else its first bad line is told.
///
/// A script has a line for each command, with its newline.
pub fn scripts_are_read()
    ensures read { ScriptsAreRead }
    ensures bad { FirstBadIsTold }
{}
