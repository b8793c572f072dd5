//! What is true of all lists of words.

ghost use Rattle.std.specs.Prelude.{◌≡◌, List, ℕ};
ghost use Rattle.command_words.specs.Commands.{IsCommand};
ghost use Rattle.command_words.specs.declared.command.Command.{Command};

/// Words are at most one command.
pub fn words_are_one_command()
    ensures { (words : List (List ℕ)) (command other : Command) →
        IsCommand words command → IsCommand words other → command ≡ other }
{}
