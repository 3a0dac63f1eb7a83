//! The lines of a round's replies, each made when those before it are written.

ghost use Rattle.std.specs.Prelude.{◌≡◌, ◌<◌, ◌≤◌, length, flat_map, All, OnErr, OnOk, vec_capacity};
ghost use Rattle.std.specs.Io.KnownBytes.{Appends};
ghost use Rattle.std.specs.List.{zip};
ghost use Rattle.slub_edges.specs.Edges.{AppendsFront, Rose};
ghost use Rattle.slub_edges.specs.Pieces.{Gives};
ghost use Rattle.slub_slabinfo_text.specs.Texts.{IsNamed};
ghost use Rattle.slub_slabinfo_text.specs.Lines.{event_text};
ghost use Rattle.slub_trace.specs.Sound.{IsSound};
ghost use Rattle.slub_slabinfo_text.specs.Made.{replies_at};
ghost use Rattle.slub_slabinfo_text.specs.Given.{AreWholeLines};

use crate::journal::Done;
use crate::text::push_reply_line;
use slub_edges::edges::{Failed, Sink};
use slub_edges::pieces::write_lines;
use slub_object_layout::name::Name;
use slub_trace::event::Event;
use slub_trace::reply::Reply;
use slub_trace::trace::{Item, Trace};

/// Writes the lines of an item's replies, of which a round alone has any, by way of the room of a line.
pub(crate) fn write_replies<K: Sink>(
    sink: &mut K,
    line: &mut Vec<u8>,
    trace: &Trace,
    number: usize,
    done: &Done,
    replies: bool,
) -> Result<(), Failed>
    requires sound { IsSound trace.now }
    requires within { number < length trace.now.items }
    requires room { 128 ≤ vec_capacity line.old }
    ensures ok { OnOk result (Appends (K.taken sink.old) (K.taken sink.new)
        (replies_at replies trace.now number done.now)) }
    ensures err { OnErr result (AppendsFront (K.taken sink.old) (K.taken sink.new) 0
        (replies_at replies trace.now number done.now)) }
    ensures lines { Gives (K.pieces sink.old) (K.pieces sink.new) AreWholeLines }
    ensures counts { K.faults sink.old ≤ K.faults sink.new }
    ensures still { OnOk result (K.faults sink.new ≡ K.faults sink.old) }
    ensures failed { OnErr result (Rose (K.faults sink.old) (K.faults sink.new)) }
    ensures room { 128 ≤ vec_capacity line.new }
{
    match (&trace.items.as_slice()[number], done) {
        (Item::Round(round), Done::Round(outcome)) => write_events(
            sink,
            line,
            trace.names.as_slice(),
            round.events.as_slice(),
            outcome.replies.as_slice(),
            replies,
        ),
        _ => Ok(()),
    }
}

/// Writes the lines of events, each with its reply.
pub(crate) fn write_events<K: Sink>(
    sink: &mut K,
    line: &mut Vec<u8>,
    names: &[Name],
    events: &[Event],
    answers: &[Reply],
    replies: bool,
) -> Result<(), Failed>
    requires named { All (λ event. IsNamed names.now event.act) events.now }
    requires room { 128 ≤ vec_capacity line.old }
    ensures ok { OnOk result (Appends (K.taken sink.old) (K.taken sink.new)
        (flat_map (event_text replies names.now) (zip events.now answers.now))) }
    ensures err { OnErr result (AppendsFront (K.taken sink.old) (K.taken sink.new) 0
        (flat_map (event_text replies names.now) (zip events.now answers.now))) }
    ensures lines { Gives (K.pieces sink.old) (K.pieces sink.new) AreWholeLines }
    ensures counts { K.faults sink.old ≤ K.faults sink.new }
    ensures still { OnOk result (K.faults sink.new ≡ K.faults sink.old) }
    ensures failed { OnErr result (Rose (K.faults sink.old) (K.faults sink.new)) }
    ensures room { 128 ≤ vec_capacity line.new }
{
    for (event, reply) in events.iter().zip(answers) {
        write_event(sink, line, names, event, reply, replies)?;
    }
    Ok(())
}

/// Writes the line of an event with its reply, if it is to be written.
#[inline]
fn write_event<K: Sink>(
    sink: &mut K,
    line: &mut Vec<u8>,
    names: &[Name],
    event: &Event,
    reply: &Reply,
    replies: bool,
) -> Result<(), Failed>
    requires named { IsNamed names.now event.now.act }
    requires room { 128 ≤ vec_capacity line.old }
    ensures ok { OnOk result (Appends (K.taken sink.old) (K.taken sink.new)
        (event_text replies names.now (event.now, reply.now))) }
    ensures err { OnErr result (AppendsFront (K.taken sink.old) (K.taken sink.new) 0
        (event_text replies names.now (event.now, reply.now))) }
    ensures lines { Gives (K.pieces sink.old) (K.pieces sink.new) AreWholeLines }
    ensures counts { K.faults sink.old ≤ K.faults sink.new }
    ensures still { OnOk result (K.faults sink.new ≡ K.faults sink.old) }
    ensures failed { OnErr result (Rose (K.faults sink.old) (K.faults sink.new)) }
    ensures room { 128 ≤ vec_capacity line.new }
{
    if replies || !reply.is_ok() {
        line.clear();
        push_reply_line(line, names, event, reply);
        write_lines(sink, line.as_slice())
    } else {
        Ok(())
    }
}
