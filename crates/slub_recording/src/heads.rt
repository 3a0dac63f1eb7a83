//! The heads of events.

ghost use Rattle.std.specs.Prelude.{◌≡◌};
ghost use Rattle.slub_recording.specs.Heads.{cpu_of, cpu_at, time_of, time_first, time_at, kind_of, event_of, event_first, event_at, head_of};
ghost use Rattle.slub_recording.specs.Words.{Gives, words};

use crate::event::KmemKind;
use crate::line::{Head, Time};
use crate::numbers::{decimal, short};
use crate::words::{after, before_last, cut, next_word};

/// The CPU of a word `[CPU]`.
#[tactic(auto, unfolding(crate::specs::Heads::cpu_of))]
fn cpu(word: &[u8]) -> Option<u32>
    ensures { result ≡ cpu_of word.now }
{
    let inner = after(word, b"[")?;
    let digits = before_last(inner, b']')?;
    short(digits)
}

/// The CPU of the first such word, and what follows it.
fn cpu_field(bytes: &[u8]) -> Option<(u32, &[u8])>
    ensures { Gives (λ x. (x.0, words x.1.now)) result (cpu_at (words bytes.now)) }
{
    let mut rest = bytes;
    while let Some((word, behind)) = next_word(rest) {
        if let Some(n) = cpu(word) {
            return Some((n, behind));
        }
        rest = behind;
    }
    None
}

/// The time of a word `TIME:`.
#[tactic(auto, unfolding(crate::specs::Heads::time_of))]
fn time(word: &[u8]) -> Option<Time>
    ensures { result ≡ time_of word.now }
{
    let digits = before_last(word, b':')?;
    let Some((before, behind)) = cut(digits, b'.') else {
        let whole = decimal(digits)?;
        return Some(Time { whole, part: 0 });
    };
    let whole = decimal(before)?;
    let part = decimal(behind)?;
    Some(Time { whole, part })
}

/// The time of the first word, and what follows it.
#[tactic(auto, unfolding(crate::specs::Heads::time_first))]
fn first_time(bytes: &[u8]) -> Option<(Time, &[u8])>
    ensures { Gives (λ x. (x.0, words x.1.now)) result (time_first (words bytes.now)) }
{
    let (word, rest) = next_word(bytes)?;
    let t = time(word)?;
    Some((t, rest))
}

/// The same behind perhaps a word of flags.
#[tactic(auto, unfolding(crate::specs::Heads::time_at, crate::specs::Heads::time_first))]
fn time_field(bytes: &[u8]) -> Option<(Time, &[u8])>
    ensures { Gives (λ x. (x.0, words x.1.now)) result (time_at (words bytes.now)) }
{
    let (word, rest) = next_word(bytes)?;
    match time(word) {
        Some(t) => Some((t, rest)),
        None => first_time(rest),
    }
}

/// The kind of an event's name, if it is one of the four.
#[tactic(auto, unfolding(crate::specs::Heads::kind_of))]
fn kind(name: &[u8]) -> Option<KmemKind>
    ensures { result ≡ kind_of name.now }
{
    if name == KmemKind::CacheAlloc.text() {
        return Some(KmemKind::CacheAlloc);
    }
    if name == KmemKind::Kmalloc.text() {
        return Some(KmemKind::Kmalloc);
    }
    if name == KmemKind::CacheFree.text() {
        return Some(KmemKind::CacheFree);
    }
    if name == KmemKind::Kfree.text() {
        return Some(KmemKind::Kfree);
    }
    None
}

/// The kind of a word `EVENT:`, with `kmem:` in front or not.
#[tactic(auto, unfolding(crate::specs::Heads::event_of))]
fn event(word: &[u8]) -> Option<Option<KmemKind>>
    ensures { result ≡ event_of word.now }
{
    let name = before_last(word, b':')?;
    match after(name, b"kmem:") {
        Some(rest) => Some(kind(rest)),
        None => Some(kind(name)),
    }
}

/// The kind of the first word, and what follows it.
#[tactic(auto, unfolding(crate::specs::Heads::event_first))]
fn first_event(bytes: &[u8]) -> Option<(Option<KmemKind>, &[u8])>
    ensures { Gives (λ x. (x.0, words x.1.now)) result (event_first (words bytes.now)) }
{
    let (word, rest) = next_word(bytes)?;
    let found = event(word)?;
    Some((found, rest))
}

/// The same behind perhaps a count.
#[tactic(auto, unfolding(crate::specs::Heads::event_at, crate::specs::Heads::event_first))]
fn event_field(bytes: &[u8]) -> Option<(Option<KmemKind>, &[u8])>
    ensures { Gives (λ x. (x.0, words x.1.now)) result (event_at (words bytes.now)) }
{
    let (word, rest) = next_word(bytes)?;
    if decimal(word).is_some() {
        return first_event(rest);
    }
    let found = event(word)?;
    Some((found, rest))
}

/// The head of an event, and what follows it; None where a line is no event.
#[tactic(auto, unfolding(crate::specs::Heads::head_of))]
pub(crate) fn head(bytes: &[u8]) -> Option<(Head, &[u8])>
    ensures { Gives (λ x. (x.0, words x.1.now)) result (head_of (words bytes.now)) }
{
    let (cpu, behind) = cpu_field(bytes)?;
    let (time, more) = time_field(behind)?;
    let (kind, rest) = event_field(more)?;
    Some((Head { cpu, time, kind }, rest))
}
