//! How a log begins, and what stands before and behind the turns of a round.

ghost use Rattle.std.specs.Prelude.{◌≡◌, ◌≤◌, ◌++◌, ◌∷◌, [], OnOk};
ghost use Rattle.std.specs.Fmt.{decimal};
ghost use Rattle.slub_lists.specs.Coherent.{IsCoherent};
ghost use Rattle.slub_picks.specs.Made.{part_text};
ghost use Rattle.slub_log_text.specs.Parts.{closing_text, counts_line, head_text, machine_line, opening_text, picks_line, shown_text, way_text};

use crate::events::put_events;
use crate::put::{put, put_number};
use slub_common::no_memory::NoMemory;
use slub_list_machine::lists::Lists;
use slub_open_close::growth::step_of;
use slub_picks::made::Made;
use slub_picks::words::Way;
use slub_state_text::names::LiveNames;
use slub_state_text::state::push_state;
use slub_trace::event::Round;
use slub_trace::trace::Trace;
use slub_turn_text::columns::push_head;

/// The machine between two rounds.
#[derive(Clone, Copy, Debug)]
pub struct Shown<'a> {
    pub lists: &'a Lists,
    /// The trace's first transaction id.
    pub first: u32,
    /// Those of the CPU words, by 16 * cache + CPU.
    pub ids: &'a [u32],
    /// The live names, in the order in which they were made.
    pub live: &'a LiveNames,
}

/// What is counted of a round's turns.
#[derive(Clone, Copy, Debug, PartialEq, Eq)]
pub struct Counts {
    pub turns: u64,
    /// Exchanges that were lost of words that are no lock's.
    pub lost: u64,
    /// And of locks.
    pub waits: u64,
}

/// A number behind words.
fn put_numbered(text: &mut Vec<u8>, words: &[u8], n: u64) -> Result<(), NoMemory>
    ensures { OnOk result (text.new.items ≡ text.old.items ++ words.now ++ decimal n) }
{
    put(text, words)?;
    put_number(text, n)
}

/// The same of a number of 32 bits.
fn put_small(text: &mut Vec<u8>, words: &[u8], n: u32) -> Result<(), NoMemory>
    ensures { OnOk result (text.new.items ≡ text.old.items ++ words.now ++ decimal n) }
{
    put_numbered(text, words, u64::from(n))
}

/// Where the turns come from.
fn put_way(text: &mut Vec<u8>, way: &Way) -> Result<(), NoMemory>
    ensures { OnOk result (text.new.items ≡ text.old.items ++ way_text way.now) }
{
    match way {
        Way::Seed(seed) => put_numbered(text, b"seed ", *seed),
        Way::Picks(list) => {
            put(text, b"picks ")?;
            put(text, list.text.as_slice())
        }
    }
}

/// The line of the machine.
fn put_machine(text: &mut Vec<u8>, trace: &Trace) -> Result<(), NoMemory>
    requires { (1 ≤ trace.now.cpus) × (trace.now.cpus ≤ 16) }
    ensures { OnOk result (text.new.items ≡ text.old.items ++ machine_line trace.now) }
{
    put_small(text, b"machine ", trace.frames)?;
    put_small(text, b" ", trace.cpus)?;
    put_small(text, b" tid ", trace.tid)?;
    put_small(text, b" step ", step_of(trace.cpus))?;
    put(text, b"\n")
}

/// The three lines that a log begins with.
pub fn put_head(text: &mut Vec<u8>, trace: &Trace, way: &Way) -> Result<(), NoMemory>
    requires { (1 ≤ trace.now.cpus) × (trace.now.cpus ≤ 16) }
    ensures { OnOk result (text.new.items ≡ text.old.items ++ head_text trace.now way.now) }
{
    put(text, b"slubsteps 1\n")?;
    put_machine(text, trace)?;
    put_way(text, way)?;
    put(text, b"\n")
}

/// The machine between two rounds.
fn put_shown(text: &mut Vec<u8>, shown: &Shown) -> Result<(), NoMemory>
    requires { IsCoherent shown.now.lists.now }
    ensures { OnOk result (text.new.items ≡ text.old.items ++ shown_text shown.now) }
{
    push_state(
        text,
        shown.lists,
        shown.first,
        shown.ids,
        shown.live.as_slice(),
    )
}

/// What stands before the turns of the round that the `round` line of this number begins.
pub fn put_opening(
    text: &mut Vec<u8>,
    trace: &Trace,
    number: u32,
    round: &Round,
    before: &Shown,
) -> Result<(), NoMemory>
    requires coherent { IsCoherent before.now.lists.now }
    requires workers { round.now.workers ≤ 16 }
    ensures { OnOk result (text.new.items ≡ text.old.items ++ opening_text trace.now number round.now before.now) }
{
    put_small(text, b"\nround ", number)?;
    put_small(text, b", workers ", round.workers)?;
    put(text, b"\n")?;
    put_events(text, trace.names.as_slice(), round.events.as_slice())?;
    put_small(text, b"state before round ", number)?;
    put(text, b"\n")?;
    put_shown(text, before)?;
    put(text, b"\n")?;
    push_head(text, round.workers as u8)
}

/// What is counted of the turns.
fn put_counts(text: &mut Vec<u8>, number: u32, counts: Counts) -> Result<(), NoMemory>
    ensures { OnOk result (text.new.items ≡ text.old.items ++ counts_line number counts) }
{
    put_small(text, b"end of round ", number)?;
    put_numbered(text, b": turns ", counts.turns)?;
    put_numbered(text, b", exchanges lost ", counts.lost)?;
    put_numbered(text, b", waits for a lock ", counts.waits)?;
    put(text, b"\n")
}

/// The part that says the turns of a round of two or more workers.
fn put_picks(text: &mut Vec<u8>, round: &Round, made: &Made) -> Result<(), NoMemory>
    ensures { OnOk result (text.new.items ≡ text.old.items ++ picks_line round.now (part_text made.now.runs.items)) }
{
    if round.workers > 1 {
        put(text, b"picks ")?;
        made.push_part(*text.allocator(), text)?;
        put(text, b"\n")?;
    }
    Ok(())
}

/// What stands behind the turns, before the replies.
pub fn put_closing(
    text: &mut Vec<u8>,
    number: u32,
    round: &Round,
    after: &Shown,
    counts: Counts,
    made: &Made,
) -> Result<(), NoMemory>
    requires { IsCoherent after.now.lists.now }
    ensures { OnOk result (text.new.items ≡ text.old.items ++ closing_text number round.now after.now counts (part_text made.now.runs.items)) }
{
    put_small(text, b"\nstate after round ", number)?;
    put(text, b"\n")?;
    put_shown(text, after)?;
    put_counts(text, number, counts)?;
    put_picks(text, round, made)
}
