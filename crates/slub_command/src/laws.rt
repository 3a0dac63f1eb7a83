//! What follows from the definitions. None of these does anything.

ghost use Rattle.std.specs.Prelude.{◌≡◌, map, string_bytes};
ghost use Rattle.slub_command.specs.declared.command.Command.{Command};
ghost use Rattle.slub_command.specs.Command.{IsCommand};

/// Words spell one command only.
pub fn words_spell_one_command(words: &[String])
    ensures { (a b : Command) → IsCommand (map string_bytes words.now) a → IsCommand (map string_bytes words.now) b → a ≡ b }
{}
