//! The words of the command line, read.

ghost use Rattle.std.specs.Prelude.{◌≡◌, ℕ, ◌<◌, ◌∷◌, length, map, MatchOption, Option, option_map, string_bytes};
ghost use Rattle.slub_recorded.specs.declared.convert.Options.{Options as Asked};
ghost use Rattle.slub_recorded.specs.declared.rounds.Workers.{Workers as WorkersOf};
ghost use Rattle.slub_recorded.specs.Words.{AreBadWords, AreCpus, AreWorkers, AskFor, IsCount, IsNumber, IsRequest, are_options, is_name, may_stand, value_of};

use crate::convert::Options;
use crate::rounds::Workers;
use crate::settings::{is_tune, tune_of};
use slub_common::numbers::small_number;

/// The number from 1 to `most` that a word spells.
fn number_within(word: &str, most: u32) -> Option<u32>
    ensures { MatchOption result ((n : ℕ) → ¬ IsNumber most word.now n) (IsNumber most word.now) }
{
    let n = small_number(word.as_bytes())?;
    if 1 <= n && n <= u64::from(most) {
        Some(n as u32)
    } else {
        None
    }
}

/// The number that an option's value names, or 1.
fn count_said(text: Option<&str>, most: u32) -> Option<u32>
    ensures { MatchOption result
        ((n : ℕ) → ¬ IsCount most (option_map (λ s. s.now) text.entry) n)
        (IsCount most (option_map (λ s. s.now) text.entry)) }
{
    match text {
        None => Some(1),
        Some(word) => number_within(word, most),
    }
}

/// The number of CPUs that an option's value names, or none.
fn cpus_said(text: Option<&str>) -> Option<Option<u32>>
    ensures { MatchOption result
        ((cpus : Option ℕ) → ¬ AreCpus (option_map (λ s. s.now) text.entry) cpus)
        (AreCpus (option_map (λ s. s.now) text.entry)) }
{
    match text {
        None => Some(None),
        Some(word) => match number_within(word, 16) {
            Some(n) => Some(Some(n)),
            None => None,
        },
    }
}

/// The workers that an option's value names, or one.
fn workers_said(text: Option<&str>) -> Option<Workers>
    ensures { MatchOption result
        ((workers : WorkersOf) → ¬ AreWorkers (option_map (λ s. s.now) text.entry) workers)
        (AreWorkers (option_map (λ s. s.now) text.entry)) }
{
    match text {
        None => Some(Workers::One),
        Some("one") => Some(Workers::One),
        Some("cpus") => Some(Workers::Cpus),
        Some(_) => None,
    }
}

/// Whether a word is the name of an option that may be there once.
fn is_name(word: &str) -> bool
    ensures { result ≡ is_name word.now }
{
    word == "--group" || word == "--cpus" || word == "--workers" || word == "--rounds"
}

/// The first option, a name and its value, and the words behind it; None where fewer than two words are there.
pub(crate) fn first_option<'a>(words: &'a [String]) -> Option<(&'a str, &'a str, &'a [String])>
    ensures { MatchOption result (length words.entry.now < 2) (λ x.
        map string_bytes words.entry.now ≡ x.0.now ∷ x.1.now ∷ map string_bytes x.2.now) }
{
    let (name, rest) = words.split_first()?;
    let (value, rest) = rest.split_first()?;
    Some((name.as_str(), value.as_str(), rest))
}

/// The value behind a name.
fn value_of<'a>(name: &str, words: &'a [String]) -> Option<&'a str>
    ensures { option_map (λ s. s.now) result ≡ value_of name.now (map string_bytes words.entry.now) }
{
    let mut rest = words;
    'options: while let Some((other, value, others)) = first_option(rest) {
        if other == name {
            return Some(value);
        }
        rest = others;
    }
    None
}

/// Whether an option may stand before others.
fn may_stand(name: &str, value: &str, words: &[String]) -> bool
    ensures { result ≡ may_stand name.now value.now (map string_bytes words.now) }
{
    if is_tune(name) {
        return tune_of(value).is_some();
    }
    is_name(name) && value_of(name, words).is_none()
}

/// Whether words are options: known names, but for settings none twice, each with a value.
fn are_options(words: &[String]) -> bool
    ensures { result ≡ are_options (map string_bytes words.now) }
{
    let mut rest = words;
    'options: while let Some((name, value, others)) = first_option(rest) {
        if !may_stand(name, value, others) {
            return false;
        }
        rest = others;
    }
    rest.is_empty()
}

/// What the words behind `recorded` ask for.
fn read_options(words: &[String]) -> Option<Options>
    ensures { MatchOption result
        ((options : Asked) → ¬ AskFor (map string_bytes words.now) options)
        (AskFor (map string_bytes words.now)) }
{
    if !are_options(words) {
        return None;
    }
    let group = count_said(value_of("--group", words), 1000)?;
    let cpus = cpus_said(value_of("--cpus", words))?;
    let workers = workers_said(value_of("--workers", words))?;
    let parts = count_said(value_of("--rounds", words), 256)?;
    Some(Options {
        group,
        cpus,
        workers,
        parts,
    })
}

/// What words ask for but settings; None where they ask for nothing that is done here.
pub fn read(words: &[String]) -> Option<Options>
    ensures { MatchOption result (AreBadWords (map string_bytes words.now))
        (IsRequest (map string_bytes words.now)) }
{
    let (command, rest) = words.split_first()?;
    if command.as_str() != "recorded" {
        return None;
    }
    read_options(rest)
}
