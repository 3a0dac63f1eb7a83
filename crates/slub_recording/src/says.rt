//! Reading one line.

ghost use Rattle.std.specs.Prelude.{◌≡◌};
ghost use Rattle.slub_recording.specs.Acts.{AnswersOr};
ghost use Rattle.slub_recording.specs.Says.{expect, number_at, is_end, short_end, counts_at, buffer_of, cpus_of, empty_of, lost_some, lost_untold, dropped_some, dropped_untold, lost_count, lost_of, call_of, other_of, is_comment, event_of_kind, says};
ghost use Rattle.slub_recording.specs.Words.{Gives, is_blank_front, words};

use crate::acts::act;
use crate::fault::{LineFault, Stop};
use crate::heads::head;
use crate::line::{Head, Said};
use crate::numbers::{decimal, hex, short};
use crate::words::{after, cut, is_blank_byte, next_word};
use std::alloc::Global;

/// What follows this word in front.
#[tactic(auto, unfolding(crate::specs::Says::expect))]
fn past<'a>(bytes: &'a [u8], text: &[u8]) -> Option<&'a [u8]>
    ensures { Gives (λ rest. words rest.now) result (expect text.now (words bytes.now)) }
{
    let (word, rest) = next_word(bytes)?;
    if word == text { Some(rest) } else { None }
}

/// The number of the word in front, after this text in it, and what follows it.
#[tactic(auto, unfolding(crate::specs::Says::number_at))]
fn number<'a>(bytes: &'a [u8], text: &[u8]) -> Option<(u64, &'a [u8])>
    ensures { Gives (λ x. (x.0, words x.1.now)) result (number_at text.now (words bytes.now)) }
{
    let (word, rest) = next_word(bytes)?;
    let digits = after(word, text)?;
    let n = decimal(digits)?;
    Some((n, rest))
}

/// Whether no word follows.
fn is_last(bytes: &[u8]) -> bool
    ensures { result ≡ is_end (words bytes.now) }
{
    next_word(bytes).is_none()
}

/// The number of 32 bits of the only word, after this text in it.
#[tactic(auto, unfolding(crate::specs::Says::short_end))]
fn last_number(bytes: &[u8], text: &[u8]) -> Option<u32>
    ensures { result ≡ short_end text.now (words bytes.now) }
{
    let (word, rest) = next_word(bytes)?;
    if !is_last(rest) {
        return None;
    }
    let digits = after(word, text)?;
    short(digits)
}

/// The two numbers of a word `A/B`, and what follows it.
#[tactic(auto, unfolding(crate::specs::Says::counts_at))]
fn counts(bytes: &[u8]) -> Option<((u64, u64), &[u8])>
    ensures { Gives (λ x. (x.0, words x.1.now)) result (counts_at (words bytes.now)) }
{
    let (word, rest) = next_word(bytes)?;
    let (before, behind) = cut(word, b'/')?;
    let kept = decimal(before)?;
    let written = decimal(behind)?;
    Some(((kept, written), rest))
}

/// The comment that tells CPUs and overwritten events.
#[tactic(auto, unfolding(crate::specs::Says::buffer_of))]
fn buffer(bytes: &[u8]) -> Option<Said>
    ensures { result ≡ buffer_of (words bytes.now) }
{
    let title = past(bytes, b"#")?;
    let rest = past(title, b"entries-in-buffer/entries-written:")?;
    let ((kept, written), behind) = counts(rest)?;
    let cpus = last_number(behind, b"#P:")?;
    let overwritten = written.saturating_sub(kept);
    Some(Said::Buffer { overwritten, cpus })
}

/// `cpus=N`
#[tactic(auto, unfolding(crate::specs::Says::cpus_of))]
fn told_cpus(bytes: &[u8]) -> Option<Said>
    ensures { result ≡ cpus_of (words bytes.now) }
{
    let cpus = last_number(bytes, b"cpus=")?;
    Some(Said::Cpus { cpus })
}

/// `CPU N is empty`
#[tactic(auto, unfolding(crate::specs::Says::empty_of))]
fn empty_cpu(bytes: &[u8]) -> Option<Said>
    ensures { result ≡ empty_of (words bytes.now) }
{
    let rest = past(bytes, b"CPU")?;
    let (_, behind) = number(rest, b"")?;
    let more = past(behind, b"is")?;
    let last = past(more, b"empty")?;
    if is_last(last) {
        Some(Said::Passed)
    } else {
        None
    }
}

/// `[LOST A EVENTS]`
#[tactic(auto, unfolding(crate::specs::Says::lost_some))]
fn told_lost(bytes: &[u8]) -> Option<u64>
    ensures { result ≡ lost_some (words bytes.now) }
{
    let rest = past(bytes, b"[LOST")?;
    let (count, behind) = number(rest, b"")?;
    let last = past(behind, b"EVENTS]")?;
    if is_last(last) { Some(count) } else { None }
}

/// `[LOST EVENTS]`
#[tactic(auto, unfolding(crate::specs::Says::lost_untold))]
fn untold_lost(bytes: &[u8]) -> Option<u64>
    ensures { result ≡ lost_untold (words bytes.now) }
{
    let rest = past(bytes, b"[LOST")?;
    let last = past(rest, b"EVENTS]")?;
    if is_last(last) { Some(1) } else { None }
}

/// `[A EVENTS DROPPED]`
#[tactic(auto, unfolding(crate::specs::Says::dropped_some))]
fn told_dropped(bytes: &[u8]) -> Option<u64>
    ensures { result ≡ dropped_some (words bytes.now) }
{
    let (count, behind) = number(bytes, b"[")?;
    let rest = past(behind, b"EVENTS")?;
    let last = past(rest, b"DROPPED]")?;
    if is_last(last) { Some(count) } else { None }
}

/// `[EVENTS DROPPED]`
#[tactic(auto, unfolding(crate::specs::Says::dropped_untold))]
fn untold_dropped(bytes: &[u8]) -> Option<u64>
    ensures { result ≡ dropped_untold (words bytes.now) }
{
    let rest = past(bytes, b"[EVENTS")?;
    let last = past(rest, b"DROPPED]")?;
    if is_last(last) { Some(1) } else { None }
}

/// How many events one of these tells.
#[tactic(auto, unfolding(crate::specs::Says::lost_count))]
fn count(bytes: &[u8]) -> Option<u64>
    ensures { result ≡ lost_count (words bytes.now) }
{
    if let Some(n) = told_lost(bytes) {
        return Some(n);
    }
    if let Some(n) = untold_lost(bytes) {
        return Some(n);
    }
    if let Some(n) = told_dropped(bytes) {
        return Some(n);
    }
    untold_dropped(bytes)
}

/// The events that a CPU lost.
#[tactic(auto, unfolding(crate::specs::Says::lost_of))]
fn lost(bytes: &[u8]) -> Option<Said>
    ensures { result ≡ lost_of (words bytes.now) }
{
    let (_, behind) = number(bytes, b"CPU:")?;
    let count = count(behind)?;
    Some(Said::Lost { count })
}

/// Whether a text is empty, or a blank stands in front.
fn is_blank_first(text: &[u8]) -> bool
    ensures { result ≡ is_blank_front text.now }
{
    match text {
        [] => true,
        [c, ..] => is_blank_byte(*c),
    }
}

/// A line of a callchain.
#[tactic(auto, unfolding(crate::specs::Says::call_of))]
fn call(text: &[u8]) -> Option<Said>
    ensures { result ≡ call_of text.now (words text.now) }
{
    let (word, rest) = next_word(text)?;
    if is_blank_first(text) && hex(word).is_some() && !is_last(rest) {
        Some(Said::Passed)
    } else {
        None
    }
}

/// A line that is neither a comment nor an event.
#[tactic(auto, unfolding(crate::specs::Says::other_of))]
fn other(text: &[u8]) -> Option<Said>
    ensures { result ≡ other_of text.now (words text.now) }
{
    if is_last(text) {
        return Some(Said::Passed);
    }
    if let Some(said) = told_cpus(text) {
        return Some(said);
    }
    if let Some(said) = empty_cpu(text) {
        return Some(said);
    }
    if let Some(said) = lost(text) {
        return Some(said);
    }
    call(text)
}

/// An event of this head and these values.
fn event(alloc: Global, head: Head, values: &[u8]) -> Result<Said, Stop>
    ensures { AnswersOr (λ s. s) result (event_of_kind head head.kind (words values.now)) }
{
    let Some(kind) = head.kind else {
        return Ok(Said::Other { time: head.time });
    };
    let (pointer, act) = act(alloc, kind, values)?;
    Ok(Said::Kmem {
        cpu: head.cpu,
        time: head.time,
        pointer,
        act,
    })
}

/// Whether a line is a comment.
fn has_mark(text: &[u8]) -> bool
    ensures { result ≡ is_comment text.now }
{
    match text {
        [] => false,
        [c, ..] => *c == b'#',
    }
}

/// What a line says. It takes memory for the text of a call site alone.
#[tactic(auto, unfolding(crate::specs::Says::says))]
pub(crate) fn say(alloc: Global, text: &[u8]) -> Result<Said, Stop>
    ensures { AnswersOr (λ s. s) result (says text.now) }
{
    if has_mark(text) {
        return match buffer(text) {
            Some(said) => Ok(said),
            None => Ok(Said::Passed),
        };
    }
    if let Some((head, values)) = head(text) {
        return event(alloc, head, values);
    }
    match other(text) {
        Some(said) => Ok(said),
        None => Err(Stop::Line(LineFault::NoLine)),
    }
}
