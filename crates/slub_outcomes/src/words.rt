//! The words of the command line, read.

ghost use Rattle.std.specs.Prelude.{◌≡◌, ℕ, ◌^◌, ◌<◌, ◌≤◌, ◌∷◌, codes, length, map, MatchOption, Option, option_map, string_bytes};
ghost use Rattle.std.specs.Str.{bytes_eq};
ghost use Rattle.slub_outcomes.specs.Words.{AreBadWords, AskFor, IsNumber, IsRequest, IsRoundSaid, IsSaid, are_options, is_name, value_of};

use slub_common::numbers::small_number;

/// What the words ask for.
#[derive(Clone, Copy, Debug, PartialEq, Eq)]
pub struct Request {
    /// With how many seeds the trace is replayed, 1 to 1000000.
    pub seeds: u32,
    /// The first of them. The last is at most 2^64 - 1.
    pub from: u64,
    /// Which `round` line begins the one round that counts, 1 to 256; where none is named, each round counts.
    pub round: Option<u32>,
}

/// The number from `least` to `most` that a word spells.
fn number_within(word: &str, least: u64, most: u64) -> Option<u64>
    ensures { MatchOption result ((n : ℕ) → ¬ IsNumber least most word.now n) (IsNumber least most word.now) }
{
    let n = small_number(word.as_bytes())?;
    if least <= n && n <= most {
        Some(n)
    } else {
        None
    }
}

/// The number that an option's value says, or the one that stands for none.
fn said(text: Option<&str>, least: u64, most: u64, default: u64) -> Option<u64>
    ensures { MatchOption result
        ((n : ℕ) → ¬ IsSaid least most default (option_map (λ s. s.now) text.entry) n)
        (IsSaid least most default (option_map (λ s. s.now) text.entry)) }
{
    match text {
        None => Some(default),
        Some(word) => number_within(word, least, most),
    }
}

/// The `round` line that an option's value names, or none.
fn round_said(text: Option<&str>) -> Option<Option<u32>>
    ensures { MatchOption result
        ((round : Option ℕ) → ¬ IsRoundSaid (option_map (λ s. s.now) text.entry) round)
        (IsRoundSaid (option_map (λ s. s.now) text.entry)) }
{
    match text {
        None => Some(None),
        Some(word) => match number_within(word, 1, 256) {
            Some(n) => Some(Some(n as u32)),
            None => None,
        },
    }
}

/// Whether a word is the name of an option.
fn is_name(word: &str) -> bool
    ensures { result ≡ is_name word.now }
{
    word == "--seeds" || word == "--from" || word == "--round"
}

/// The first option, a name and its value, and the words behind it; None where fewer than two words are there.
fn first_option<'a>(words: &'a [String]) -> Option<(&'a str, &'a str, &'a [String])>
    ensures { MatchOption result (length words.entry.now < 2) (λ x.
        map string_bytes words.entry.now ≡ x.0.now ∷ x.1.now ∷ map string_bytes x.2.now) }
{
    let (name, rest) = words.split_first()?;
    let (value, rest) = rest.split_first()?;
    Some((name.as_str(), value.as_str(), rest))
}

/// The value behind a name.
fn value_of<'a>(name: &str, options: &'a [String]) -> Option<&'a str>
    ensures { option_map (λ s. s.now) result ≡ value_of name.now (map string_bytes options.entry.now) }
{
    let mut rest = options;
    'options: while let Some((other, value, others)) = first_option(rest) {
        if other == name {
            return Some(value);
        }
        rest = others;
    }
    None
}

/// Whether words are options: known names, none twice, each with a value.
fn are_options(options: &[String]) -> bool
    ensures { result ≡ are_options (map string_bytes options.now) }
{
    let mut rest = options;
    'options: while let Some((name, _value, others)) = first_option(rest) {
        if !is_name(name) || value_of(name, others).is_some() {
            return false;
        }
        rest = others;
    }
    rest.is_empty()
}

/// What options ask for.
fn read_options(options: &[String]) -> Option<Request>
    ensures { MatchOption result
        ((request : Request) → ¬ AskFor (map string_bytes options.now) request)
        (AskFor (map string_bytes options.now)) }
{
    if !are_options(options) {
        return None;
    }
    let seeds = said(value_of("--seeds", options), 1, 1_000_000, 100)?;
    let from = said(value_of("--from", options), 0, u64::MAX, 1)?;
    let round = round_said(value_of("--round", options))?;
    if u64::MAX - from < seeds - 1 {
        return None;
    }
    Some(Request {
        seeds: seeds as u32,
        from,
        round,
    })
}

/// What words ask for; None where they ask for nothing that is done here.
pub fn read(words: &[String]) -> Option<Request>
    ensures { MatchOption result (AreBadWords (map string_bytes words.now))
        (IsRequest (map string_bytes words.now)) }
{
    let (command, options) = words.split_first()?;
    if command.as_str() != "outcomes" {
        return None;
    }
    read_options(options)
}
