//! What holds of replies. The function does nothing; its contract is the law.
ghost use Rattle.debug_tool.specs.Laws.{CommandsRemember};

/// After any commands the debugger is in the plain run's state that its count says.
///
/// So are the states that it can go back to: those just before.
pub fn commands_remember()
    ensures { CommandsRemember }
{}
