//! What holds of commands. The function does nothing; its contract is the law.
ghost use Rattle.std.specs.Prelude.{◌≡◌, List, Some};
ghost use Rattle.command_words.specs.Texts.{Text};
ghost use Rattle.command_words.specs.declared.command.Command.{Command};
ghost use Rattle.command_words.specs.Action.{asked_in};
ghost use Rattle.command_words.specs.Fits.{Fits};

/// Names, numbers and counts in a command are within bounds, and `mean` and `erase` take sources.
pub fn commands_fit()
    ensures { (words : List Text) (c : Command) → asked_in words ≡ Some c → Fits c }
{}
