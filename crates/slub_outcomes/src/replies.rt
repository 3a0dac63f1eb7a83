//! The text of the replies that count.

ghost use Rattle.std.specs.Prelude.{◌≡◌, ◌<◌, ◌++◌, true, flat_map, length, All, OnOk};
ghost use Rattle.std.specs.List.{list_any, zip};
ghost use Rattle.slub_trace.specs.Kinds.{is_no_memory};
ghost use Rattle.slub_trace.specs.Sound.{IsSound, IsSoundItem};
ghost use Rattle.slub_slabinfo_text.specs.Lines.{event_text};
ghost use Rattle.slub_slabinfo_text.specs.Texts.{IsNamed};
ghost use Rattle.slub_outcomes.specs.Replies.{counted_text, lacks_memory, several_text};

use crate::span::Span;
use slub_common::no_memory::NoMemory;
use slub_object_layout::name::Name;
use slub_slabinfo_text::journal::Done;
use slub_slabinfo_text::text::{LINE_MAX, push_reply_line};
use slub_trace::event::Event;
use slub_trace::reply::{Kind, Reply};
use slub_trace::trace::{Item, Trace};

/// Puts the lines of events, each with its reply, behind a text.
fn push_events(
    text: &mut Vec<u8>,
    names: &[Name],
    events: &[Event],
    answers: &[Reply],
) -> Result<(), NoMemory>
    requires { All (λ event. IsNamed names.now event.act) events.now }
    ensures { OnOk result (text.new.items ≡ text.old.items
        ++ flat_map (event_text true names.now) (zip events.now answers.now)) }
{
    for (event, reply) in events.iter().zip(answers) {
        text.reserve(LINE_MAX)?;
        push_reply_line(text, names, event, reply);
    }
    Ok(())
}

/// Puts the lines of an item's replies behind a text, where it is a round of two or more workers.
fn push_several(text: &mut Vec<u8>, trace: &Trace, item: &Item, done: &Done) -> Result<(), NoMemory>
    requires { IsSoundItem trace.now item.now }
    ensures { OnOk result (text.new.items ≡
        text.old.items ++ several_text trace.now.names item.now done.now) }
{
    match (item, done) {
        (Item::Round(round), Done::Round(result)) if round.workers > 1 => push_events(
            text,
            trace.names.as_slice(),
            round.events.as_slice(),
            result.replies.as_slice(),
        ),
        _ => Ok(()),
    }
}

/// Puts the lines of the replies of the item of a number behind a text, if they count.
pub fn push_counted(
    text: &mut Vec<u8>,
    trace: &Trace,
    span: &Span,
    number: usize,
    done: &Done,
) -> Result<(), NoMemory>
    requires sound { IsSound trace.now }
    requires within { number < length trace.now.items }
    ensures { OnOk result (text.new.items ≡
        text.old.items ++ counted_text span.now trace.now number done.now) }
{
    if number < span.first {
        return Ok(());
    }
    push_several(text, trace, &trace.items.as_slice()[number], done)
}

/// Whether one of the replies is that no memory was there.
fn has_no_memory(replies: &[Reply]) -> bool
    ensures { result ≡ list_any is_no_memory replies.now }
{
    replies
        .iter()
        .any(|reply| matches!(reply.kind(), Kind::LacksMemory))
}

/// Whether one of the replies of an item is that no memory was there.
pub fn lacks_memory(done: &Done) -> bool
    ensures { result ≡ lacks_memory done.now }
{
    match done {
        Done::Round(result) => has_no_memory(result.replies.as_slice()),
        Done::Created(_)
        | Done::Shrunk(_)
        | Done::Destroyed(_)
        | Done::Slabinfo(_)
        | Done::Tuned(_)
        | Done::Client(_) => false,
    }
}
