//! The words of the command line, read.

ghost use Rattle.std.specs.Prelude.{◌≡◌, ℕ, ◌∷◌, ◌++◌, List, true, codes, map, is_some, None, ◌≢◌, MatchOption, IfErr, IfOk, IsErrOf, string_bytes};
ghost use Rattle.slub_picks.specs.declared.words.Request.{Request};
ghost use Rattle.slub_picks.specs.declared.words.Said.{Said};
ghost use Rattle.slub_picks.specs.Spelling.{Word};
ghost use Rattle.slub_picks.specs.Words.{AreBadWords, AskFor, Begins, IsRequest, IsValued};
ghost use Rattle.slub_picks.specs.Asked.{CannotPut, Puts, request_of};

use crate::list::{PickList, read_list};
use crate::numbers::number_within;
use crate::unread::Unread;
use std::alloc::Global;

/// Where the turns of a round come from.
#[derive(Debug, Drop)]
pub enum Way {
    /// This seed draws them.
    Seed(u64),
    /// They are written down.
    Picks(PickList),
}

/// What the words ask for.
#[derive(Debug, Drop)]
pub struct Request {
    pub way: Way,
    /// Which `round` line begins the one round that is printed, 1 to 256; where none is named, each round is.
    pub round: Option<u32>,
    /// Whether the log is printed as a page.
    pub page: bool,
}

/// What one option says.
#[derive(Debug, Drop)]
enum Said {
    Way(Way),
    Round(u32),
    Page,
}

/// What the options so far say.
#[derive(Debug, Drop)]
struct Asked {
    way: Option<Way>,
    round: Option<u32>,
    page: bool,
}

impl Asked {
    /// Puts what an option says to what was asked; BadWords where it was said before.
    fn put(&mut self, said: Said) -> Result<(), Unread>
        ensures put { IfOk result (λ _. Puts said self.old self.new) }
        ensures none { IfErr result (λ why. (why ≡ Unread.BadWords) × CannotPut said self.old) }
    {
        match said {
            Said::Way(way) => {
                if self.way.is_some() {
                    return Err(Unread::BadWords);
                }
                self.way = Some(way);
            }
            Said::Round(round) => {
                if self.round.is_some() {
                    return Err(Unread::BadWords);
                }
                self.round = Some(round);
            }
            Said::Page => {
                if self.page {
                    return Err(Unread::BadWords);
                }
                self.page = true;
            }
        }
        Ok(())
    }

    /// All that was asked.
    fn request(self) -> Request
        ensures { result ≡ request_of self }
    {
        let Asked { way, round, page } = self;
        Request {
            way: way.unwrap_or(Way::Seed(1)),
            round,
            page,
        }
    }
}

/// What follows a fixed text.
fn after<'a>(word: &'a [u8], text: &[u8]) -> Option<&'a [u8]>
    ensures { MatchOption result ((rest : Word) → word.entry.now ≢ text.now ++ rest)
        (λ x. word.entry.now ≡ text.now ++ x.now) }
{
    word.strip_prefix(text)
}

/// The value of the option of this name, and the words behind it, where the words begin with it.
fn valued<'a>(name: &[u8], words: &'a [String]) -> Option<(&'a [u8], &'a [String])>
    ensures { MatchOption result
        ((value : Word) (rest : List Word)
        → ¬ IsValued name.now value (map string_bytes words.entry.now) rest)
        (λ x. IsValued name.now x.0.now
        (map string_bytes words.entry.now) (map string_bytes x.1.now)) }
{
    let (word, rest) = words.split_first()?;
    match after(word.as_bytes(), name)? {
        [] => {
            let (value, rest) = rest.split_first()?;
            Some((value.as_bytes(), rest))
        }
        [c, value @ ..] if *c == b'=' => Some((value, rest)),
        _ => None,
    }
}

/// The words behind `--page`, where they begin with it.
fn behind_page<'a>(words: &'a [String]) -> Option<&'a [String]>
    ensures { MatchOption result
        ((rest : List Word) → map string_bytes words.entry.now ≢ codes "--page" ∷ rest)
        (λ x. map string_bytes words.entry.now ≡ codes "--page" ∷ map string_bytes x.now) }
{
    let (word, rest) = words.split_first()?;
    if word.as_str() == "--page" {
        Some(rest)
    } else {
        None
    }
}

/// What the first option says, and the words behind it.
fn first_said<'a>(alloc: Global, words: &'a [String]) -> Result<(Said, &'a [String]), Unread>
    ensures said { IfOk result (λ x.
        Begins x.0 (map string_bytes words.entry.now) (map string_bytes x.1.now)) }
    ensures none { IsErrOf result Unread.BadWords → (said : Said) (rest : List Word)
        → ¬ Begins said (map string_bytes words.entry.now) rest }
{
    if let Some((value, rest)) = valued(b"--seed", words) {
        let Some(seed) = number_within(value, 0, u64::MAX) else {
            return Err(Unread::BadWords);
        };
        return Ok((Said::Way(Way::Seed(seed)), rest));
    }
    if let Some((value, rest)) = valued(b"--picks", words) {
        let list = read_list(alloc, value)?;
        return Ok((Said::Way(Way::Picks(list)), rest));
    }
    if let Some((value, rest)) = valued(b"--round", words) {
        let Some(round) = number_within(value, 1, 256) else {
            return Err(Unread::BadWords);
        };
        return Ok((Said::Round(round as u32), rest));
    }
    match behind_page(words) {
        Some(rest) => Ok((Said::Page, rest)),
        None => Err(Unread::BadWords),
    }
}

/// What the options ask for.
fn read_options(alloc: Global, words: &[String]) -> Result<Request, Unread>
    ensures asks { IfOk result (AskFor (map string_bytes words.now)) }
    ensures none { IsErrOf result Unread.BadWords
        → (request : Request) → ¬ AskFor (map string_bytes words.now) request }
{
    let mut asked = Asked {
        way: None,
        round: None,
        page: false,
    };
    let mut rest = words;
    'options: while !rest.is_empty() {
        let (said, behind) = first_said(alloc, rest)?;
        asked.put(said)?;
        rest = behind;
    }
    Ok(asked.request())
}

/// What the words behind the program's name ask for.
///
/// `BadWords` comes exactly where they ask for nothing that is done here. Memory may be refused.
pub fn read(alloc: Global, words: &[String]) -> Result<Request, Unread>
    ensures asks { IfOk result (IsRequest (map string_bytes words.now)) }
    ensures none { IsErrOf result Unread.BadWords → AreBadWords (map string_bytes words.now) }
{
    let Some((command, options)) = words.split_first() else {
        return Err(Unread::BadWords);
    };
    if command.as_str() != "steps" {
        return Err(Unread::BadWords);
    }
    read_options(alloc, options)
}
