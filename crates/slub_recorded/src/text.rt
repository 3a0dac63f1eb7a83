//! The text of a trace.

ghost use Rattle.std.specs.Prelude.{◌≡◌, ◌++◌, flat_map, OnOk};
ghost use Rattle.std.specs.Fmt.{decimal};
ghost use Rattle.slub_recorded.specs.Text.{body_text, cut_text, machine_text, name_at, round_text, row_text, step_text, turn_text};

use crate::rounds::Step;
use crate::tunes::{Tune, push_tunes};
use crate::turns::Turn;
use itoa::Buffer;
use slub_common::no_memory::NoMemory;
use slub_object_layout::name::Name;

/// The line of a cache.
#[derive(Clone, Copy, Debug)]
pub struct Row {
    pub name: Name,
    /// In bytes.
    pub slot: u32,
    /// Whether it has the letter R, which here only keeps it from merging with another cache of its
    /// slot.
    pub reclaim: bool,
}

/// Puts words behind a text.
pub(crate) fn push_words(text: &mut Vec<u8>, words: &[u8]) -> Result<(), NoMemory>
    ensures { OnOk result (text.new.items ≡ text.old.items ++ words.now) }
{
    text.extend_from_slice(words)?;
    Ok(())
}

/// Puts a number behind words, and these behind a text.
pub(crate) fn push_numbered(text: &mut Vec<u8>, words: &[u8], n: u64) -> Result<(), NoMemory>
    ensures { OnOk result (text.new.items ≡ text.old.items ++ words.now ++ decimal n) }
{
    let mut buffer = Buffer::new();
    text.extend_from_slice(words)?;
    text.extend_from_slice(buffer.format(n).as_bytes())?;
    Ok(())
}

/// Puts the line of a cache behind a text.
fn push_row(text: &mut Vec<u8>, row: &Row) -> Result<(), NoMemory>
    ensures { OnOk result (text.new.items ≡ text.old.items ++ row_text row.now) }
{
    push_words(text, b"cache ")?;
    push_words(text, row.name.as_bytes())?;
    push_numbered(text, b" ", u64::from(row.slot))?;
    push_words(text, if row.reclaim { b" 8 R\n" } else { b" 8 -\n" })
}

/// Puts the name of the cache at a place behind a text.
fn push_name(text: &mut Vec<u8>, rows: &[Row], place: u32) -> Result<(), NoMemory>
    ensures { OnOk result (text.new.items ≡ text.old.items ++ name_at rows.now place) }
{
    match rows.get(place as usize) {
        None => Ok(()),
        Some(row) => push_words(text, row.name.as_bytes()),
    }
}

/// Puts the line of a turn of a worker behind a text.
fn push_turn(text: &mut Vec<u8>, rows: &[Row], worker: u32, turn: &Turn) -> Result<(), NoMemory>
    ensures { OnOk result (text.new.items ≡ text.old.items ++ turn_text rows.now worker turn.now) }
{
    match *turn {
        Turn::Alloc { cpu, cache, object } => {
            push_numbered(text, b"alloc ", u64::from(worker))?;
            push_numbered(text, b" ", u64::from(cpu))?;
            push_words(text, b" ")?;
            push_name(text, rows, cache)?;
            push_numbered(text, b" ", u64::from(object))?;
        }
        Turn::Free { cpu, object } => {
            push_numbered(text, b"free ", u64::from(worker))?;
            push_numbered(text, b" ", u64::from(cpu))?;
            push_numbered(text, b" ", u64::from(object))?;
        }
    }
    push_words(text, b"\n")
}

/// Puts the lines between two rounds behind a text.
fn push_cut(text: &mut Vec<u8>, workers: u32, slabinfo: bool) -> Result<(), NoMemory>
    ensures { OnOk result (text.new.items ≡ text.old.items ++ cut_text workers slabinfo) }
{
    let words: &[u8] = if slabinfo {
        b"done\nslabinfo\nround "
    } else {
        b"done\nround "
    };
    push_numbered(text, words, u64::from(workers))?;
    push_words(text, b"\n")
}

/// Puts the lines of a step behind a text.
fn push_step(text: &mut Vec<u8>, rows: &[Row], workers: u32, step: &Step) -> Result<(), NoMemory>
    ensures { OnOk result (text.new.items ≡ text.old.items ++ step_text rows.now workers step.now) }
{
    match step {
        Step::Does { worker, turn } => push_turn(text, rows, *worker, turn),
        Step::Cut { slabinfo } => push_cut(text, workers, *slabinfo),
    }
}

/// Puts the lines of the machine and of its caches behind a text.
fn push_machine(text: &mut Vec<u8>, cpus: u32, rows: &[Row]) -> Result<(), NoMemory>
    ensures { OnOk result (text.new.items ≡ text.old.items ++ machine_text cpus rows.now) }
{
    push_numbered(text, b"machine 4096 ", u64::from(cpus))?;
    push_words(text, b"\n")?;
    push_rows(text, rows)?;
    Ok(())
}

/// Puts the lines of caches behind a text.
fn push_rows(text: &mut Vec<u8>, rows: &[Row]) -> Result<(), NoMemory>
    ensures { OnOk result (text.new.items ≡ text.old.items ++ flat_map row_text rows.now) }
{
    for row in rows {
        push_row(text, row)?;
    }
    Ok(())
}

/// Puts the lines of rounds behind a text.
fn push_round(
    text: &mut Vec<u8>,
    rows: &[Row],
    workers: u32,
    steps: &[Step],
) -> Result<(), NoMemory>
    ensures { OnOk result (text.new.items ≡ text.old.items ++ round_text rows.now workers steps.now) }
{
    push_numbered(text, b"round ", u64::from(workers))?;
    push_words(text, b"\n")?;
    push_steps(text, rows, workers, steps)?;
    push_words(text, b"done\n")
}

/// Puts the lines of steps behind a text.
fn push_steps(
    text: &mut Vec<u8>,
    rows: &[Row],
    workers: u32,
    steps: &[Step],
) -> Result<(), NoMemory>
    ensures { OnOk result (text.new.items ≡ text.old.items ++ flat_map (step_text rows.now workers) steps.now) }
{
    for step in steps {
        push_step(text, rows, workers, step)?;
    }
    Ok(())
}

/// Puts the lines below the comments behind a text.
#[tactic(auto, unfolding(crate::specs::Text::body_text))]
pub(crate) fn push_body(
    text: &mut Vec<u8>,
    cpus: u32,
    rows: &[Row],
    tunes: &[Tune],
    workers: u32,
    steps: &[Step],
) -> Result<(), NoMemory>
    ensures { OnOk result (text.new.items
        ≡ text.old.items ++ body_text cpus rows.now tunes.now workers steps.now) }
{
    push_machine(text, cpus, rows)?;
    push_tunes(text, rows, tunes)?;
    push_round(text, rows, workers, steps)?;
    push_words(text, b"slabinfo\nend\n")
}
