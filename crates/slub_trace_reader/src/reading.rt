//! Reading a trace.
//!
//! Last bytes without a line feed are an unfinished line, whatever they say. Comments may stand
//! before the `slubtrace` line, and count as lines. A `cache` line above counts for its name,
//! whatever it answers when it runs, and a `kmalloc` line for the names of its thirteen classes.

ghost use Rattle.std.specs.Prelude.{◌≡◌, ◌+◌, ◌<◌, ◌≤◌, ◌^◌, [], length, IfOk, IfErr, OnOk, IfSome, IfNone};
ghost use Rattle.slub_trace_reader.specs.declared.place.Place.TheVariants.{After};
ghost use Rattle.slub_trace_reader.specs.declared.reading.TraceFault.TheVariants.{NoMemory};
ghost use Rattle.slub_edges.specs.Window.{items, count_of};
ghost use Rattle.slub_trace_reader.specs.Faults.{why_text, Finished};
ghost use Rattle.slub_trace_reader.specs.Grammar.{IsOneLine};
ghost use Rattle.slub_trace_reader.specs.Parsing.{Takes, TakesFront, StopsAt, StopsFront};
ghost use Rattle.slub_trace_reader.specs.State.{above, IsModest, Keeps};
ghost use Rattle.slub_trace_reader.specs.Reads.{Reads};
ghost use Rattle.slub_trace_reader.specs.Window.{fault_of, next_of, IsRead, Leads, StopsBehind, StopsLines};
ghost use Rattle.slub_trace.specs.Sound.{IsSound};

use crate::line::say;
use crate::state::State;
use crate::words::cut;
use slub_common::limits::INPUT_MAX;
use slub_edges::edges::Source;
use slub_edges::reading::ReadAllFault;
use slub_edges::window::Window;
use slub_trace::trace::Trace;
use std::alloc::{AllocError, Global};

/// Why a line is bad, in the order in which the reasons are tried.
#[derive(Clone, Copy, Debug, PartialEq, Eq)]
pub enum Why {
    /// The last bytes have no line feed.
    Unfinished,
    /// It stands after `end`, and isn't passed over.
    AfterEnd,
    /// It is none of the forms of its place.
    Form,
    /// A number of it is out of its range.
    Range,
    /// It begins round 257, a client's line counted as two rounds.
    TooManyRounds,
    /// No `cache` line above has its name, or a client's line has nothing to take from.
    UnknownCache,
    /// It may allocate a number that a line above may allocate.
    ObjectTwice,
    /// No line above may allocate a number that it needs.
    UnknownObject,
    /// No `write` above in this round has its worker, object and word.
    ReadBeforeWrite,
    /// The bytes end, every line good, without `end`.
    NoEnd,
}

impl Why {
    /// The reason in words.
    pub fn text(&self) -> &'static [u8]
        ensures { result.now ≡ why_text self.now }
    {
        match self {
            Why::Unfinished => b"unfinished line",
            Why::AfterEnd => b"text after end",
            Why::Form => b"bad form",
            Why::Range => b"out of range",
            Why::TooManyRounds => b"too many rounds",
            Why::UnknownCache => b"unknown cache",
            Why::ObjectTwice => b"object twice",
            Why::UnknownObject => b"unknown object",
            Why::ReadBeforeWrite => b"read before write",
            Why::NoEnd => b"no end",
        }
    }
}

/// Why no trace was read.
#[derive(Clone, Copy, Debug, PartialEq, Eq)]
pub enum TraceFault {
    /// A read failed.
    ReadFault,
    /// There are more than 16777216 bytes.
    TooLong,
    /// The bytes are no trace: their first bad line, from 1 on, and why it is bad. Where they end
    /// without `end`, it is the line after the last.
    BadLine { line: u32, why: Why },
    NoMemory,
}

impl From<ReadAllFault> for TraceFault {
    ghost from_gives = { λ x e. e ≡ fault_of x };

    fn from(e: ReadAllFault) -> TraceFault {
        match e {
            ReadAllFault::Failed => TraceFault::ReadFault,
            ReadAllFault::TooLong => TraceFault::TooLong,
            ReadAllFault::NoMemory => TraceFault::NoMemory,
        }
    }
}

impl From<AllocError> for TraceFault {
    ghost from_gives = { λ _ e. e ≡ NoMemory };

    fn from(_e: AllocError) -> TraceFault {
        TraceFault::NoMemory
    }
}

/// Reads a source to its end, and answers the trace that its bytes spell: at most `INPUT_MAX`
/// bytes. At an error the bytes that were read are lost.
pub fn read_trace<S: Source>(alloc: Global, source: &mut S) -> Result<Trace, TraceFault>
    ensures reads { Reads (S.rest source.old) (S.rest source.new) (S.faults source.old) (S.faults source.new) result }
    ensures sound { IfOk result IsSound }
    ensures counts { S.faults source.old ≤ S.faults source.new }
{
    let state = read_lines(alloc, source)?;
    let trace = state.into_trace(alloc)?;
    Ok(trace)
}

/// Takes one line.
fn take_line(alloc: Global, state: &mut State, text: &[u8]) -> Result<(), TraceFault>
    requires room { state.old.count < 2 ^ 28 }
    requires keeps { Keeps state.old }
    requires modest { IsModest (above state.old) }
    ensures taken { OnOk result (Takes (above state.old) text.now (above state.new)) }
    ensures keeps { OnOk result (Keeps state.new) }
    ensures refused { IfErr result (StopsAt (above state.old) (Finished text.now)) }
{
    let said = say(text);
    match state.judge(text, &said) {
        Ok(line) => {
            state.take(alloc, line)?;
            Ok(())
        }
        Err(why) => {
            let line = state.count + 1;
            Err(TraceFault::BadLine { line, why })
        }
    }
}

/// Takes the next line, and answers what follows it; None where no line feed is left.
fn take_next<'a>(
    alloc: Global,
    state: &mut State,
    bytes: &'a [u8],
) -> Result<Option<&'a [u8]>, TraceFault>
    requires room { state.old.count < 2 ^ 28 }
    requires keeps { Keeps state.old }
    requires modest { IsModest (above state.old) }
    ensures taken { IfOk result (λ rest. IfSome rest (λ rest. TakesFront (above state.old) bytes.now rest.now (above state.new))) }
    ensures none { IfOk result (λ rest. IfNone rest ((state.new ≡ state.old) × IsOneLine bytes.now)) }
    ensures keeps { OnOk result (Keeps state.new) }
    ensures refused { IfErr result (StopsFront (above state.old) bytes.now) }
{
    if let Some(rest) = state.take_front(bytes)? {
        return Ok(Some(rest));
    }
    let Some((text, rest)) = cut(bytes, b'\n') else {
        return Ok(None);
    };
    take_line(alloc, state, text)?;
    Ok(Some(rest))
}

/// Takes all finished lines in front, and answers what follows the last line feed.
fn take_all<'a>(alloc: Global, state: &mut State, bytes: &'a [u8]) -> Result<&'a [u8], TraceFault>
    requires room { state.old.count + length bytes.now ≤ 16777216 }
    requires keeps { Keeps state.old }
    requires modest { IsModest (above state.old) }
    ensures taken { IfOk result (λ rest. Leads (above state.old) bytes.now rest.now (above state.new)) }
    ensures none { IfOk result (λ rest. IsOneLine rest.now) }
    ensures keeps { OnOk result (Keeps state.new) }
    ensures room { IfOk result (λ rest. state.new.count + length rest.now ≤ state.old.count + length bytes.now) }
    ensures refused { IfErr result (StopsBehind (above state.old) bytes.now) }
{
    let mut rest = bytes;
    while let Some(more) = take_next(alloc, state, rest)? {
        rest = more;
    }
    Ok(rest)
}

/// Takes all finished lines of a window. What follows the last line feed stays.
fn take_lines(alloc: Global, state: &mut State, window: &mut Window) -> Result<(), TraceFault>
    requires room { state.old.count + length (items window.old) ≤ 16777216 }
    requires keeps { Keeps state.old }
    requires modest { IsModest (above state.old) }
    ensures taken { OnOk result (Leads (above state.old) (items window.old) (items window.new) (above state.new)) }
    ensures none { OnOk result (IsOneLine (items window.new)) }
    ensures keeps { OnOk result (Keeps state.new) }
    ensures room { OnOk result (state.new.count + length (items window.new) ≤ state.old.count + length (items window.old)) }
    ensures count { count_of window.new ≡ count_of window.old }
    ensures refused { IfErr result (StopsBehind (above state.old) (items window.old)) }
{
    let rest = take_all(alloc, state, window.as_slice())?;
    let left = rest.len();
    window.keep(left);
    Ok(())
}

/// Whether bytes may end behind these lines, with these bytes behind the last line feed.
fn judge_end(state: &State, rest: &[u8]) -> Result<(), TraceFault>
    requires room { state.now.count ≤ 16777216 }
    requires none { IsOneLine rest.now }
    ensures ended { OnOk result ((rest.now ≡ []) × (state.now.place ≡ After)) }
    ensures refused { IfErr result (StopsAt (above state.now) (next_of rest.now)) }
{
    let next = state.count + 1;
    if !rest.is_empty() {
        return Err(TraceFault::BadLine {
            line: next,
            why: Why::Unfinished,
        });
    }
    if !state.place.is_after() {
        return Err(TraceFault::BadLine {
            line: next,
            why: Why::NoEnd,
        });
    }
    Ok(())
}

/// What all lines of a source say. Behind a bad line the rest of the source is still read, since a
/// read that fails and a source that is too long are told before it.
fn read_lines<S: Source>(alloc: Global, source: &mut S) -> Result<State, TraceFault>
    ensures read { IfOk result (λ state. IsRead (S.rest source.old) (S.rest source.new) (above state)) }
    ensures keeps { IfOk result Keeps }
    ensures still { OnOk result (S.faults source.new ≡ S.faults source.old) }
    ensures stops { IfErr result (StopsLines (S.rest source.old) (S.rest source.new) (S.faults source.old) (S.faults source.new)) }
    ensures counts { S.faults source.old ≤ S.faults source.new }
{
    let mut window = Window::new(alloc)?;
    let mut state = State::new(alloc);
    loop {
        let ended = window.fill(source, INPUT_MAX)?;
        if let Err(fault) = take_lines(alloc, &mut state, &mut window) {
            if !ended {
                window.pass_rest(source, INPUT_MAX)?;
            }
            return Err(fault);
        }
        if ended {
            judge_end(&state, window.as_slice())?;
            return Ok(state);
        }
    }
}
