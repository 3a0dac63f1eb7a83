//! The text of outcomes: a line for each, and one at the end.

ghost use Rattle.std.specs.Prelude.{◌≡◌, ◌++◌, IfOk, OnOk};
ghost use Rattle.slub_outcomes.specs.Table.{last_line, on_line, one_line, outcome_line, table_text};

use crate::tally::Outcome;
use crate::words::Request;
use slub_common::no_memory::NoMemory;
use std::alloc::Global;

/// Puts a byte of replies behind a text, `; ` for a line feed.
fn push_on_line(text: &mut Vec<u8>, c: u8) -> Result<(), NoMemory>
    ensures { OnOk result (text.new.items ≡ text.old.items ++ on_line c) }
{
    if c == b'\n' {
        text.extend_from_slice(b"; ")?;
    } else {
        text.push(c)?;
    }
    Ok(())
}

/// Puts replies behind a text, on one line.
fn push_one_line(text: &mut Vec<u8>, replies: &[u8]) -> Result<(), NoMemory>
    ensures { OnOk result (text.new.items ≡ text.old.items ++ one_line replies.now) }
{
    let but_last = replies.len().saturating_sub(1);
    for c in &replies[..but_last] {
        push_on_line(text, *c)?;
    }
    Ok(())
}

/// Puts the line of an outcome behind a text.
fn push_outcome(alloc: Global, text: &mut Vec<u8>, outcome: &Outcome) -> Result<(), NoMemory>
    ensures { OnOk result (text.new.items ≡ text.old.items ++ outcome_line outcome.now) }
{
    let count = outcome.seeds.count;
    let least = outcome.seeds.least;
    let front = format!(in alloc; "seeds {count} least {least}: ")?;
    text.extend_from_slice(front.as_bytes())?;
    push_one_line(text, outcome.replies.as_bytes())?;
    text.push(b'\n')?;
    Ok(())
}

/// The last line, of so many outcomes.
fn last_line(alloc: Global, kinds: usize, request: &Request) -> Result<Vec<u8>, NoMemory>
    ensures { IfOk result (λ line. line.items ≡ last_line kinds request.now) }
{
    let seeds = request.seeds;
    let from = request.from;
    let line = format!(in alloc; "outcomes {kinds} of {seeds} seeds, from {from} on\n")?;
    Ok(line.into_bytes())
}

/// The text of outcomes.
pub fn table(alloc: Global, outcomes: &[Outcome], request: &Request) -> Result<Vec<u8>, NoMemory>
    ensures { IfOk result (λ text. text.items ≡ table_text outcomes.now request.now) }
{
    let mut text = Vec::new(alloc);
    for outcome in outcomes {
        push_outcome(alloc, &mut text, outcome)?;
    }
    let last = last_line(alloc, outcomes.len(), request)?;
    text.extend_from_slice(&last)?;
    Ok(text)
}
