//! The commands, and reading one from the words of a command line.

ghost use Rattle.std.specs.Prelude.{codes, ◌≡◌, ◌∷◌, true, map, string_bytes, IfOk, IsErrOf};
ghost use Rattle.std.specs.Str.{bytes_eq};
ghost use Rattle.slub_command.specs.declared.command.Command.{Command};
ghost use Rattle.slub_command.specs.Arguments.{no_dashes};
ghost use Rattle.slub_command.specs.Command.{IsCommand, IsNamed};

use crate::options::read_replay;
use crate::places::{read_layout, read_load};
use slub_object_layout::layout::Spec;
use std::alloc::Global;

/// How a trace is replayed.
#[derive(Clone, Copy, Debug, PartialEq, Eq)]
pub enum How {
    /// One event after the other, as they stand.
    Serial,
    /// The events of a round in an order that the seed chooses.
    Schedule,
    /// The workers of a round as threads.
    Threads,
}

/// What the program is asked to do.
#[derive(Clone, Copy, Debug, PartialEq, Eq)]
pub enum Command {
    /// Replay a trace.
    Replay {
        how: How,
        /// What the order of events is drawn from.
        seed: u64,
        /// Whether each event is answered with a line.
        replies: bool,
    },
    /// Print the layout of a cache on a machine of `cpus` CPUs, 1 to 16.
    Layout {
        spec: Spec,
        cpus: u32,
    },
    /// Make a trace of at most 500000 events for 1 to 16 workers.
    Load {
        /// What the events are drawn from.
        seed: u64,
        events: u32,
        workers: u32,
    },
}

/// Why no command was read.
#[derive(Clone, Copy, Debug, PartialEq, Eq)]
pub enum CommandFault {
    /// The words are no command.
    BadWords,
    /// Memory ran out.
    NoMemory,
}

fn is_dashes(word: &str) -> bool
    ensures { result ≡ bytes_eq word.now (codes "--") }
{
    word == "--"
}

/// Whether no word is `--`, behind which `clap` would take every word for a value.
fn has_no_dashes(words: &[String]) -> bool
    ensures { result ≡ no_dashes (map string_bytes words.now) }
{
    for word in words {
        if is_dashes(word.as_str()) {
            return false;
        }
    }
    true
}

/// Reads the words behind a command's name.
fn read_named(alloc: Global, name: &str, words: &[String]) -> Result<Command, CommandFault>
    requires { no_dashes (map string_bytes words.now) ≡ true }
    ensures spells { IfOk result (IsCommand (name.now ∷ map string_bytes words.now)) }
    ensures none { IsErrOf result CommandFault.BadWords → (command : Command) → ¬ IsCommand (name.now ∷ map string_bytes words.now) command }
    ensures memory { IsErrOf result CommandFault.NoMemory → IsNamed (name.now ∷ map string_bytes words.now) }
{
    match name {
        "replay" => read_replay(alloc, words),
        "layout" => read_layout(alloc, words),
        "load" => read_load(alloc, words),
        _ => Err(CommandFault::BadWords),
    }
}

/// The command that words spell, the program's own name left out.
///
/// `BadWords` comes exactly where they spell none. Want of memory is told as `NoMemory`, and only behind the name of a
/// command, where no word is `--`: other words take none.
pub fn read(alloc: Global, words: &[String]) -> Result<Command, CommandFault>
    ensures spells { IfOk result (λ command. IsCommand (map string_bytes words.now) command) }
    ensures none { IsErrOf result CommandFault.BadWords → (command : Command) → ¬ IsCommand (map string_bytes words.now) command }
    ensures memory { IsErrOf result CommandFault.NoMemory → IsNamed (map string_bytes words.now) × (no_dashes (map string_bytes words.now) ≡ true) }
{
    if !has_no_dashes(words) {
        return Err(CommandFault::BadWords);
    }
    match words {
        [] => Err(CommandFault::BadWords),
        [name, rest @ ..] => read_named(alloc, name.as_str(), rest),
    }
}
