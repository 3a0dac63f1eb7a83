//! Reading a recording.

ghost use Rattle.std.specs.Prelude.{◌≡◌, ◌+◌, ◌≤◌, ◌<◌, ◌^◌, None, true, length, IfOk, IfErr, OnOk};
ghost use Rattle.std.specs.Io.KnownBytes.{IsAtEnd};
ghost use Rattle.slub_edges.specs.Window.{count_of, items};
ghost use Rattle.slub_recording.specs.Reads.{Reads};
ghost use Rattle.slub_recording.specs.Recording.{start, recorded, reading, end_of, trace_dat, perf_data};
ghost use Rattle.slub_recording.specs.Sound.{IsSound};
ghost use Rattle.slub_recording.specs.State.{above, IsModest, read_below, IsAnswer, Takes, Stops};
ghost use Rattle.slub_recording.specs.Window.{Leads, Passes, ReadsOn, Refuses};
ghost use Rattle.slub_recording.specs.Words.{strip};

use crate::fault::{LineFault, RecordingFault, Stop, of_source};
use crate::recording::Recording;
use crate::says::say;
use crate::state::State;
use crate::words::{after, cut};
use slub_edges::edges::Source;
use slub_edges::window::Window;
use std::alloc::Global;

/// The most bytes of a recording: 256 MiB (*profile*).
pub const RECORDING_MAX: usize = 268435456;

/// Reads a source to its end, and answers the recording that its bytes spell: at most
/// `RECORDING_MAX` bytes, of which no more are kept than a window of them. At an error the bytes
/// that were read are lost.
pub fn read_recording<S: Source>(alloc: Global, source: &mut S) -> Result<Recording, RecordingFault>
    ensures reads { Reads (S.rest source.old) (S.rest source.new) (S.faults source.old) (S.faults source.new) result }
    ensures sound { IfOk result (λ recording. IsSound (recorded recording)) }
    ensures counts { S.faults source.old ≤ S.faults source.new }
{
    let mut window = match Window::new(alloc) {
        Ok(window) => window,
        Err(_) => return Err(RecordingFault::NoMemory),
    };
    match window.fill(source, RECORDING_MAX) {
        Ok(true) => read_bytes(alloc, window.as_slice()),
        Ok(false) => read_on(alloc, source, window),
        Err(fault) => Err(of_source(fault)),
    }
}

/// Whether bytes begin as a file of the tools does, and not as their text.
fn look(bytes: &[u8]) -> Result<(), RecordingFault>
    ensures text { OnOk result ((strip trace_dat bytes.now ≡ None) × (strip perf_data bytes.now ≡ None)) }
    ensures file { IfErr result (Refuses reading bytes.now) }
{
    if after(bytes, b"\x17\x08\x44tracing").is_some() {
        return Err(RecordingFault::TraceDat);
    }
    if after(bytes, b"PERFILE2").is_some() {
        return Err(RecordingFault::PerfData);
    }
    Ok(())
}

/// The recording that bytes spell.
fn read_bytes(alloc: Global, bytes: &[u8]) -> Result<Recording, RecordingFault>
    requires { length bytes.now ≤ 268435456 }
    ensures { IsAnswer (reading bytes.now) result }
{
    match look(bytes) {
        Ok(()) => read_text(alloc, bytes),
        Err(fault) => Err(fault),
    }
}

/// The recording that the lines of a text say.
fn read_text(alloc: Global, bytes: &[u8]) -> Result<Recording, RecordingFault>
    requires { length bytes.now ≤ 268435456 }
    ensures { IsAnswer (read_below start bytes.now) result }
{
    let mut state = State::new(alloc);
    match take_lines(alloc, &mut state, bytes) {
        Ok(rest) => end(state, rest),
        Err(fault) => Err(fault),
    }
}

/// The recording that the first bytes of a source spell, and those behind them.
fn read_on<S: Source>(
    alloc: Global,
    source: &mut S,
    mut window: Window,
) -> Result<Recording, RecordingFault>
    requires count { count_of window ≡ length (items window) }
    requires few { count_of window ≤ 268435456 }
    requires long { 65536 ≤ length (items window) }
    ensures reads { ReadsOn reading (items window) (S.rest source.old) (S.rest source.new) (S.faults source.old) (S.faults source.new) result }
    ensures counts { S.faults source.old ≤ S.faults source.new }
{
    match look(window.as_slice()) {
        Ok(()) => read_lines(alloc, source, window),
        Err(fault) => Err(pass_on(source, &mut window, false, fault)),
    }
}

/// The recording that the lines of a source say, of which these are the first bytes.
fn read_lines<S: Source>(
    alloc: Global,
    source: &mut S,
    mut window: Window,
) -> Result<Recording, RecordingFault>
    requires count { count_of window ≡ length (items window) }
    requires few { count_of window ≤ 268435456 }
    ensures reads { ReadsOn (read_below start) (items window) (S.rest source.old) (S.rest source.new) (S.faults source.old) (S.faults source.new) result }
    ensures counts { S.faults source.old ≤ S.faults source.new }
{
    let mut state = State::new(alloc);
    let mut ended = false;
    loop {
        if let Err(fault) = take_window(alloc, &mut state, &mut window) {
            return Err(pass_on(source, &mut window, ended, fault));
        }
        if ended {
            return end(state, window.as_slice());
        }
        match window.fill(source, RECORDING_MAX) {
            Ok(last) => ended = last,
            Err(fault) => return Err(of_source(fault)),
        }
    }
}

/// Reads the rest of a source behind a fault, unless it has ended: a read that fails and a source
/// that is too long are told before the fault.
fn pass_on<S: Source>(
    source: &mut S,
    window: &mut Window,
    ended: bool,
    fault: RecordingFault,
) -> RecordingFault
    requires few { count_of window.old ≤ 268435456 }
    requires ended { ended ≡ true → IsAtEnd (S.rest source.old) }
    ensures passes { Passes fault (S.rest source.old) (S.rest source.new) (count_of window.old) (S.faults source.old) (S.faults source.new) result }
    ensures counts { S.faults source.old ≤ S.faults source.new }
{
    if ended {
        return fault;
    }
    match window.pass_rest(source, RECORDING_MAX) {
        Ok(()) => fault,
        Err(other) => of_source(other),
    }
}

/// Takes a line.
fn take_line(alloc: Global, state: &mut State, text: &[u8]) -> Result<(), RecordingFault>
    requires modest { IsModest (above state.old) }
    requires room { state.old.lines < 2 ^ 28 }
    ensures taken { OnOk result (Takes (above state.old) text.now (above state.new)) }
    ensures refused { IfErr result (Stops (above state.old) text.now) }
    ensures modest { OnOk result (IsModest (above state.new)) }
{
    match say(alloc, text) {
        Ok(said) => {
            state.take(said)?;
            Ok(())
        }
        Err(Stop::Line(why)) => {
            let line = state.lines + 1;
            Err(RecordingFault::BadLine { line, why })
        }
        Err(Stop::NoMemory) => Err(RecordingFault::NoMemory),
    }
}

/// Takes all finished lines, and answers what follows the last line feed.
fn take_lines<'a>(
    alloc: Global,
    state: &mut State,
    bytes: &'a [u8],
) -> Result<&'a [u8], RecordingFault>
    requires modest { IsModest (above state.old) }
    requires room { state.old.lines + length bytes.now ≤ 268435456 }
    ensures taken { IfOk result (λ rest. Leads (above state.old) bytes.now rest.now (above state.new)) }
    ensures last { IfOk result (λ rest. read_below (above state.new) rest.now ≡ end_of (above state.new) rest.now) }
    ensures refused { IfErr result (Refuses (read_below (above state.old)) bytes.now) }
    ensures modest { OnOk result (IsModest (above state.new)) }
    ensures room { IfOk result (λ rest. state.new.lines + length rest.now ≤ state.old.lines + length bytes.now) }
{
    let mut rest = bytes;
    while let Some((text, behind)) = cut(rest, b'\n') {
        if let Err(fault) = take_line(alloc, state, text) {
            return Err(fault);
        }
        rest = behind;
    }
    Ok(rest)
}

/// Takes all finished lines of a window. What follows the last line feed stays.
fn take_window(alloc: Global, state: &mut State, window: &mut Window) -> Result<(), RecordingFault>
    requires modest { IsModest (above state.old) }
    requires room { state.old.lines + length (items window.old) ≤ 268435456 }
    ensures taken { OnOk result (Leads (above state.old) (items window.old) (items window.new) (above state.new)) }
    ensures last { OnOk result (read_below (above state.new) (items window.new) ≡ end_of (above state.new) (items window.new)) }
    ensures refused { IfErr result (Refuses (read_below (above state.old)) (items window.old)) }
    ensures modest { OnOk result (IsModest (above state.new)) }
    ensures room { OnOk result (state.new.lines + length (items window.new) ≤ state.old.lines + length (items window.old)) }
    ensures count { count_of window.new ≡ count_of window.old }
{
    let rest = match take_lines(alloc, state, window.as_slice()) {
        Ok(rest) => rest.len(),
        Err(fault) => return Err(fault),
    };
    window.keep(rest);
    Ok(())
}

/// The recording of lines, with these bytes behind the last line feed.
fn end(state: State, rest: &[u8]) -> Result<Recording, RecordingFault>
    requires { state.lines ≤ 268435456 }
    ensures { IsAnswer (end_of (above state) rest.now) result }
{
    if !rest.is_empty() {
        let line = state.lines + 1;
        let why = LineFault::Unfinished;
        return Err(RecordingFault::BadLine { line, why });
    }
    if state.recording.events.is_empty() {
        return Err(RecordingFault::NoKmemEvent);
    }
    Ok(state.recording)
}
