//! The options of `replay`, as `clap` tells them from their values.

ghost use Rattle.std.specs.Prelude.{ℕ, MatchOption, ◌∷◌, codes, ◌≡◌, ◌≢◌, ◌&&◌, Bool, Option, true, map, option_map, string_bytes, IfOk, IsErrOf};
ghost use Rattle.std.specs.List.{list_all};
ghost use Rattle.clap.specs.Simple.{app_of};
ghost use Rattle.clap.specs.Values.{kind_of};
ghost use Rattle.slub_command.specs.Arguments.{no_dashes, replay_app};
ghost use Rattle.slub_command.specs.declared.command.How.{How};
ghost use Rattle.slub_command.specs.Command.{IsCommand};
ghost use Rattle.slub_command.specs.Options.{AreOptions, IsHow, IsReplay, IsSeed, how_word, is_bare, listed};
ghost use Rattle.slub_command.specs.Spelling.{Word};

use crate::command::{Command, CommandFault, How};
use crate::spelling::number;
use clap::error::ErrorKind;
use clap::{Arg, ArgAction, Error};
use std::alloc::{AllocError, Global};

/// The options that are given, with the texts of their values.
#[derive(Clone, Copy, Debug)]
pub(crate) struct Options<'a> {
    pub how: Option<&'a str>,
    pub seed: Option<&'a str>,
    pub replies: bool,
}

/// What `clap` is told of `replay`.
fn replay_arguments<'a>(alloc: Global) -> Result<clap::Command<'a>, AllocError>
    ensures { IfOk result (λ c. app_of c ≡ replay_app) }
{
    let how = Arg::new(alloc, "how").long("how");
    let seed = Arg::new(alloc, "seed").long("seed");
    let replies = Arg::new(alloc, "replies")
        .long("replies")
        .action(ArgAction::SetTrue);
    let command = clap::Command::new(alloc, "replay")
        .no_binary_name(true)
        .disable_help_flag(true);
    command.arg(how)?.arg(seed)?.arg(replies)
}

/// Why `clap` read nothing.
pub(crate) fn fault_of(error: &Error) -> CommandFault
    ensures { result ≡ CommandFault.BadWords → kind_of error.now ≢ ErrorKind.OutOfMemory }
{
    match error.kind() {
        ErrorKind::OutOfMemory => CommandFault::NoMemory,
        _ => CommandFault::BadWords,
    }
}

/// The options that the words after `replay` give.
pub(crate) fn read_options<'a>(
    alloc: Global,
    words: &'a [String],
) -> Result<Options<'a>, CommandFault>
    requires { no_dashes (map string_bytes words.now) ≡ true }
    ensures given { IfOk result (λ o. AreOptions (map string_bytes words.entry.now) (option_map (λ s. s.now) o.how) (option_map (λ s. s.now) o.seed) o.replies) }
    ensures only { IfOk result (λ o. (how seed : Option Word) (replies : Bool) → AreOptions (map string_bytes words.entry.now) how seed replies
        → (list_all is_bare (listed how) && list_all is_bare (listed seed)) ≡ true
        → (how ≡ option_map (λ s. s.now) o.how) × (seed ≡ option_map (λ s. s.now) o.seed) × (replies ≡ o.replies)) }
    ensures none { IsErrOf result CommandFault.BadWords → (how seed : Option Word) (replies : Bool) → AreOptions (map string_bytes words.entry.now) how seed replies
        → (list_all is_bare (listed how) && list_all is_bare (listed seed)) ≡ true → ⊥ }
{
    let Ok(command) = replay_arguments(alloc) else {
        return Err(CommandFault::NoMemory);
    };
    let matches = match command.try_get_matches_from(words) {
        Ok(matches) => matches,
        Err(error) => return Err(fault_of(&error)),
    };
    Ok(Options {
        how: matches.get_str("how"),
        seed: matches.get_str("seed"),
        replies: matches.get_flag("replies"),
    })
}

/// What a value of `--how` names.
fn how_of(word: &str) -> Option<How>
    ensures { MatchOption result ((how : How) → ¬ (word.now ≡ how_word how)) (λ how. word.now ≡ how_word how) }
{
    match word {
        "serial" => Some(How::Serial),
        "schedule" => Some(How::Schedule),
        "threads" => Some(How::Threads),
        _ => None,
    }
}

/// What `--how` says: `serial` where it isn't given.
fn how_said(text: Option<&str>) -> Option<How>
    ensures { MatchOption result ((how : How) → ¬ IsHow (option_map (λ s. s.now) text.entry) how) (IsHow (option_map (λ s. s.now) text.entry)) }
{
    match text {
        None => Some(How::Serial),
        Some(word) => how_of(word),
    }
}

/// What `--seed` says: 1 where it isn't given.
fn seed_said(text: Option<&str>) -> Option<u64>
    ensures { MatchOption result ((seed : ℕ) → ¬ IsSeed (option_map (λ s. s.now) text.entry) seed) (IsSeed (option_map (λ s. s.now) text.entry)) }
{
    match text {
        None => Some(1),
        Some(word) => number(word),
    }
}

/// Reads the words after `replay`.
pub(crate) fn read_replay(alloc: Global, words: &[String]) -> Result<Command, CommandFault>
    requires { no_dashes (map string_bytes words.now) ≡ true }
    ensures spells { IfOk result (IsCommand (codes "replay" ∷ map string_bytes words.now)) }
    ensures none { IsErrOf result CommandFault.BadWords → (how : How) (seed : ℕ) (replies : Bool) → ¬ IsReplay (map string_bytes words.now) how seed replies }
{
    let options = read_options(alloc, words)?;
    let Some(how) = how_said(options.how) else {
        return Err(CommandFault::BadWords);
    };
    let Some(seed) = seed_said(options.seed) else {
        return Err(CommandFault::BadWords);
    };
    Ok(Command::Replay {
        how,
        seed,
        replies: options.replies,
    })
}
