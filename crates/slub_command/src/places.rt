//! The words of `layout` and `load`, as `clap` puts them at their places.

ghost use Rattle.std.specs.Prelude.{ℕ, MatchOption, codes, ◌≡◌, ◌∷◌, ◌&&◌, [], true, map, string_bytes, IfOk, IsErrOf};
ghost use Rattle.clap.specs.Simple.{app_of};
ghost use Rattle.slub_command.specs.Arguments.{layout_app, load_app, no_dashes};
ghost use Rattle.slub_object_layout.specs.declared.layout.Spec.{Spec};
ghost use Rattle.slub_command.specs.Command.{IsCommand, IsLayout, IsLoad, SayLayout, SayLoad};
ghost use Rattle.slub_command.specs.Options.{is_plain};
ghost use Rattle.slub_command.specs.Spelling.{Word};

use crate::command::{Command, CommandFault};
use crate::options::fault_of;
use crate::spelling::{flags, number, number_within};
use clap::Arg;
use slub_object_layout::layout::Spec;
use std::alloc::{AllocError, Global};

/// The words after `layout`.
#[derive(Clone, Copy, Debug)]
pub(crate) struct LayoutPlaces<'a> {
    pub size: &'a str,
    pub align: &'a str,
    pub flags: &'a str,
    pub cpus: &'a str,
}

/// The words after `load`.
#[derive(Clone, Copy, Debug)]
pub(crate) struct LoadPlaces<'a> {
    pub seed: &'a str,
    pub events: &'a str,
    pub workers: &'a str,
}

/// What `clap` is told of `layout`.
fn layout_arguments<'a>(alloc: Global) -> Result<clap::Command<'a>, AllocError>
    ensures { IfOk result (λ c. app_of c ≡ layout_app) }
{
    let size = Arg::new(alloc, "size").required(true);
    let align = Arg::new(alloc, "align").required(true);
    let flags = Arg::new(alloc, "flags").required(true);
    let cpus = Arg::new(alloc, "cpus").required(true);
    let command = clap::Command::new(alloc, "layout")
        .no_binary_name(true)
        .disable_help_flag(true);
    command.arg(size)?.arg(align)?.arg(flags)?.arg(cpus)
}

/// What `clap` is told of `load`.
fn load_arguments<'a>(alloc: Global) -> Result<clap::Command<'a>, AllocError>
    ensures { IfOk result (λ c. app_of c ≡ load_app) }
{
    let seed = Arg::new(alloc, "seed").required(true);
    let events = Arg::new(alloc, "events").required(true);
    let workers = Arg::new(alloc, "workers").required(true);
    let command = clap::Command::new(alloc, "load")
        .no_binary_name(true)
        .disable_help_flag(true);
    command.arg(seed)?.arg(events)?.arg(workers)
}

/// The places of `layout`.
pub(crate) fn layout_places<'a>(
    alloc: Global,
    words: &'a [String],
) -> Result<LayoutPlaces<'a>, CommandFault>
    requires { no_dashes (map string_bytes words.now) ≡ true }
    ensures places { IfOk result (λ p. map string_bytes words.entry.now ≡ p.size.now ∷ p.align.now ∷ p.flags.now ∷ p.cpus.now ∷ []) }
    ensures none { IsErrOf result CommandFault.BadWords → (size align flags cpus : Word) → map string_bytes words.entry.now ≡ size ∷ align ∷ flags ∷ cpus ∷ []
        → (is_plain size && is_plain align && is_plain flags && is_plain cpus) ≡ true → ⊥ }
{
    let Ok(command) = layout_arguments(alloc) else {
        return Err(CommandFault::NoMemory);
    };
    let matches = match command.try_get_matches_from(words) {
        Ok(matches) => matches,
        Err(error) => return Err(fault_of(&error)),
    };
    Ok(LayoutPlaces {
        size: matches.get_str("size").unwrap(),
        align: matches.get_str("align").unwrap(),
        flags: matches.get_str("flags").unwrap(),
        cpus: matches.get_str("cpus").unwrap(),
    })
}

/// The places of `load`.
pub(crate) fn load_places<'a>(
    alloc: Global,
    words: &'a [String],
) -> Result<LoadPlaces<'a>, CommandFault>
    requires { no_dashes (map string_bytes words.now) ≡ true }
    ensures places { IfOk result (λ p. map string_bytes words.entry.now ≡ p.seed.now ∷ p.events.now ∷ p.workers.now ∷ []) }
    ensures none { IsErrOf result CommandFault.BadWords → (seed events workers : Word) → map string_bytes words.entry.now ≡ seed ∷ events ∷ workers ∷ []
        → (is_plain seed && is_plain events && is_plain workers) ≡ true → ⊥ }
{
    let Ok(command) = load_arguments(alloc) else {
        return Err(CommandFault::NoMemory);
    };
    let matches = match command.try_get_matches_from(words) {
        Ok(matches) => matches,
        Err(error) => return Err(fault_of(&error)),
    };
    Ok(LoadPlaces {
        seed: matches.get_str("seed").unwrap(),
        events: matches.get_str("events").unwrap(),
        workers: matches.get_str("workers").unwrap(),
    })
}

/// What the words of `layout` say.
fn layout_said(places: &LayoutPlaces) -> Option<(Spec, u32)>
    ensures { MatchOption result ((spec : Spec) (cpus : ℕ) → ¬ SayLayout places.now.size.now places.now.align.now places.now.flags.now places.now.cpus.now spec cpus)
        (λ said. SayLayout places.now.size.now places.now.align.now places.now.flags.now places.now.cpus.now said.0 said.1) }
{
    let size = number_within(places.size, 0, u32::MAX)?;
    let align = number_within(places.align, 0, u32::MAX)?;
    let flags = flags(places.flags)?;
    let cpus = number_within(places.cpus, 1, 16)?;
    Some((Spec { size, align, flags }, cpus))
}

/// What the words of `load` say: the seed, the events and the workers.
fn load_said(places: &LoadPlaces) -> Option<(u64, u32, u32)>
    ensures { MatchOption result ((seed events workers : ℕ) → ¬ SayLoad places.now.seed.now places.now.events.now places.now.workers.now seed events workers)
        (λ said. SayLoad places.now.seed.now places.now.events.now places.now.workers.now said.0 said.1 said.2) }
{
    let seed = number(places.seed)?;
    let events = number_within(places.events, 0, 500000)?;
    let workers = number_within(places.workers, 1, 16)?;
    Some((seed, events, workers))
}

/// Reads the words after `layout`.
pub(crate) fn read_layout(alloc: Global, words: &[String]) -> Result<Command, CommandFault>
    requires { no_dashes (map string_bytes words.now) ≡ true }
    ensures spells { IfOk result (IsCommand (codes "layout" ∷ map string_bytes words.now)) }
    ensures none { IsErrOf result CommandFault.BadWords → (spec : Spec) (cpus : ℕ) → ¬ IsLayout (map string_bytes words.now) spec cpus }
{
    let places = layout_places(alloc, words)?;
    let Some((spec, cpus)) = layout_said(&places) else {
        return Err(CommandFault::BadWords);
    };
    Ok(Command::Layout { spec, cpus })
}

/// Reads the words after `load`.
pub(crate) fn read_load(alloc: Global, words: &[String]) -> Result<Command, CommandFault>
    requires { no_dashes (map string_bytes words.now) ≡ true }
    ensures spells { IfOk result (IsCommand (codes "load" ∷ map string_bytes words.now)) }
    ensures none { IsErrOf result CommandFault.BadWords → (seed events workers : ℕ) → ¬ IsLoad (map string_bytes words.now) seed events workers }
{
    let places = load_places(alloc, words)?;
    let Some((seed, events, workers)) = load_said(&places) else {
        return Err(CommandFault::BadWords);
    };
    Ok(Command::Load {
        seed,
        events,
        workers,
    })
}
