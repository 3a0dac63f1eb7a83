//! The lines of a trace.
//!
//! The version's digit is a part of the form, as a name, flags and a byte are: `slubtrace 5`, a
//! word that is no name, a letter of FLAGS twice and a byte in upper case are of no form. A number
//! may have any length, and is out of range where it is too great. The offset `-0` is 0.

ghost use Rattle.std.specs.Prelude.{◌≡◌, ◌↔◌, IsTrue};
ghost use Rattle.slub_trace_reader.specs.Lines.{IsPassed};
ghost use Rattle.slub_trace_reader.specs.Forms.{slubtrace_line, machine_end, machine_line, cache_line, shrink_line, destroy_line, tune_line, round_line, alloc_line, free_line, write_line, read_line, poke_line, trim_line, flush_line, plain_line, event_line, item_line, line_of, is_passed};

use crate::client::{ClientLine, client};
use crate::digits::{number, number_field};
use crate::words::{
    after, byte, field_of, flags, knob_field, name, name_field, offset_field, version,
};
use slub_object_layout::layout::Flags;
use slub_object_layout::name::Name;

/// What a `tune` line sets.
#[derive(Clone, Copy, Debug, PartialEq, Eq)]
pub enum Knob {
    MinPartial,
    CpuPartial,
}

/// A line by its form. A number of a line may be any, as long as its digits are.
#[derive(Clone, Copy, Debug)]
pub enum Line {
    /// An empty line or a comment.
    Passed,
    Slubtrace {
        version: u32,
    },
    Machine {
        frames: u128,
        cpus: u128,
        tid: Option<u128>,
    },
    Cache {
        name: Name,
        size: u128,
        align: u128,
        flags: Flags,
    },
    Shrink {
        name: Name,
    },
    Destroy {
        name: Name,
    },
    Tune {
        name: Name,
        knob: Knob,
        number: u128,
    },
    Slabinfo,
    Client(ClientLine),
    Round {
        workers: u128,
    },
    Alloc {
        worker: u128,
        cpu: u128,
        name: Name,
        object: u128,
    },
    Free {
        worker: u128,
        cpu: u128,
        object: u128,
    },
    Write {
        worker: u128,
        object: u128,
        word: u128,
        value: u128,
    },
    Read {
        worker: u128,
        object: u128,
        word: u128,
    },
    /// The offset by its sign and its size.
    Poke {
        worker: u128,
        object: u128,
        negative: bool,
        offset: u128,
        byte: u8,
    },
    Trim {
        worker: u128,
        name: Name,
    },
    Flush {
        worker: u128,
        cpu: u128,
    },
    Done,
    End,
}

/// The line that a text says, each form tried in turn; None where it has none of them.
#[tactic(auto, unfolding(crate::specs::Forms::line_of))]
pub(crate) fn say(text: &[u8]) -> Option<Line>
    ensures { result ≡ line_of text.now }
{
    if let Some(line) = plain(text) {
        return Some(line);
    }
    if let Some(line) = event(text) {
        return Some(line);
    }
    if let Some(line) = item(text) {
        return Some(line);
    }
    let line = client(text)?;
    Some(Line::Client(line))
}

/// Whether a line is passed over: empty, or a comment.
pub(crate) fn is_skipped(text: &[u8]) -> bool
    ensures test { result ≡ is_passed text.now }
    ensures passed { IsTrue result ↔ IsPassed text.now }
{
    match text {
        [] => true,
        [c, ..] => *c == b'#',
    }
}

/// A line that is passed over, or one of fixed text.
#[tactic(auto, unfolding(crate::specs::Forms::plain_line))]
fn plain(text: &[u8]) -> Option<Line>
    ensures { result ≡ plain_line text.now }
{
    if is_skipped(text) {
        return Some(Line::Passed);
    }
    if text == b"done".as_slice() {
        return Some(Line::Done);
    }
    if text == b"slabinfo".as_slice() {
        return Some(Line::Slabinfo);
    }
    if text == b"end".as_slice() {
        return Some(Line::End);
    }
    None
}

/// A line of a round.
#[tactic(auto, unfolding(crate::specs::Forms::event_line))]
fn event(text: &[u8]) -> Option<Line>
    ensures { result ≡ event_line text.now }
{
    if let Some(line) = alloc(text) {
        return Some(line);
    }
    if let Some(line) = free(text) {
        return Some(line);
    }
    if let Some(line) = write(text) {
        return Some(line);
    }
    if let Some(line) = read(text) {
        return Some(line);
    }
    if let Some(line) = poke(text) {
        return Some(line);
    }
    if let Some(line) = trim(text) {
        return Some(line);
    }
    flush(text)
}

/// A line between rounds.
#[tactic(auto, unfolding(crate::specs::Forms::item_line))]
fn item(text: &[u8]) -> Option<Line>
    ensures { result ≡ item_line text.now }
{
    if let Some(line) = round(text) {
        return Some(line);
    }
    if let Some(line) = shrink(text) {
        return Some(line);
    }
    if let Some(line) = destroy(text) {
        return Some(line);
    }
    if let Some(line) = cache(text) {
        return Some(line);
    }
    if let Some(line) = tune(text) {
        return Some(line);
    }
    if let Some(line) = machine(text) {
        return Some(line);
    }
    slubtrace(text)
}

#[tactic(auto, unfolding(crate::specs::Forms::slubtrace_line))]
fn slubtrace(text: &[u8]) -> Option<Line>
    ensures { result ≡ slubtrace_line text.now }
{
    let rest = after(text, b"slubtrace ")?;
    let version = version(rest)?;
    Some(Line::Slubtrace { version })
}

#[tactic(auto, unfolding(crate::specs::Forms::machine_line))]
fn machine(text: &[u8]) -> Option<Line>
    ensures { result ≡ machine_line text.now }
{
    let rest = after(text, b"machine ")?;
    let (frames, rest) = number_field(rest)?;
    cpus_and_tid(frames, rest)
}

/// The end of a `machine` line, from the CPUs on.
#[tactic(auto, unfolding(crate::specs::Forms::machine_end))]
fn cpus_and_tid(frames: u128, text: &[u8]) -> Option<Line>
    ensures { result ≡ machine_end frames text.now }
{
    let Some((word, rest)) = field_of(text) else {
        let cpus = number(text)?;
        return Some(Line::Machine {
            frames,
            cpus,
            tid: None,
        });
    };
    let cpus = number(word)?;
    let rest = after(rest, b"tid ")?;
    let tid = number(rest)?;
    Some(Line::Machine {
        frames,
        cpus,
        tid: Some(tid),
    })
}

#[tactic(auto, unfolding(crate::specs::Forms::cache_line))]
fn cache(text: &[u8]) -> Option<Line>
    ensures { result ≡ cache_line text.now }
{
    let rest = after(text, b"cache ")?;
    let Some((name, rest)) = name_field(rest) else {
        return None;
    };
    let (size, rest) = number_field(rest)?;
    let (align, rest) = number_field(rest)?;
    let flags = flags(rest)?;
    Some(Line::Cache {
        name,
        size,
        align,
        flags,
    })
}

#[tactic(auto, unfolding(crate::specs::Forms::shrink_line))]
fn shrink(text: &[u8]) -> Option<Line>
    ensures { result ≡ shrink_line text.now }
{
    let rest = after(text, b"shrink ")?;
    let name = name(rest)?;
    Some(Line::Shrink { name })
}

#[tactic(auto, unfolding(crate::specs::Forms::destroy_line))]
fn destroy(text: &[u8]) -> Option<Line>
    ensures { result ≡ destroy_line text.now }
{
    let rest = after(text, b"destroy ")?;
    let name = name(rest)?;
    Some(Line::Destroy { name })
}

#[tactic(auto, unfolding(crate::specs::Forms::tune_line))]
fn tune(text: &[u8]) -> Option<Line>
    ensures { result ≡ tune_line text.now }
{
    let rest = after(text, b"tune ")?;
    let Some((name, rest)) = name_field(rest) else {
        return None;
    };
    let (knob, rest) = knob_field(rest)?;
    let number = number(rest)?;
    Some(Line::Tune { name, knob, number })
}

#[tactic(auto, unfolding(crate::specs::Forms::round_line))]
fn round(text: &[u8]) -> Option<Line>
    ensures { result ≡ round_line text.now }
{
    let rest = after(text, b"round ")?;
    let workers = number(rest)?;
    Some(Line::Round { workers })
}

#[tactic(auto, unfolding(crate::specs::Forms::alloc_line))]
fn alloc(text: &[u8]) -> Option<Line>
    ensures { result ≡ alloc_line text.now }
{
    let rest = after(text, b"alloc ")?;
    let (worker, rest) = number_field(rest)?;
    let (cpu, rest) = number_field(rest)?;
    let Some((name, rest)) = name_field(rest) else {
        return None;
    };
    let object = number(rest)?;
    Some(Line::Alloc {
        worker,
        cpu,
        name,
        object,
    })
}

#[tactic(auto, unfolding(crate::specs::Forms::free_line))]
fn free(text: &[u8]) -> Option<Line>
    ensures { result ≡ free_line text.now }
{
    let rest = after(text, b"free ")?;
    let (worker, rest) = number_field(rest)?;
    let (cpu, rest) = number_field(rest)?;
    let object = number(rest)?;
    Some(Line::Free {
        worker,
        cpu,
        object,
    })
}

#[tactic(auto, unfolding(crate::specs::Forms::write_line))]
fn write(text: &[u8]) -> Option<Line>
    ensures { result ≡ write_line text.now }
{
    let rest = after(text, b"write ")?;
    let (worker, rest) = number_field(rest)?;
    let (object, rest) = number_field(rest)?;
    let (word, rest) = number_field(rest)?;
    let value = number(rest)?;
    Some(Line::Write {
        worker,
        object,
        word,
        value,
    })
}

#[tactic(auto, unfolding(crate::specs::Forms::read_line))]
fn read(text: &[u8]) -> Option<Line>
    ensures { result ≡ read_line text.now }
{
    let rest = after(text, b"read ")?;
    let (worker, rest) = number_field(rest)?;
    let (object, rest) = number_field(rest)?;
    let word = number(rest)?;
    Some(Line::Read {
        worker,
        object,
        word,
    })
}

#[tactic(auto, unfolding(crate::specs::Forms::poke_line))]
fn poke(text: &[u8]) -> Option<Line>
    ensures { result ≡ poke_line text.now }
{
    let rest = after(text, b"poke ")?;
    let (worker, rest) = number_field(rest)?;
    let (object, rest) = number_field(rest)?;
    let ((negative, offset), rest) = offset_field(rest)?;
    let byte = byte(rest)?;
    Some(Line::Poke {
        worker,
        object,
        negative,
        offset,
        byte,
    })
}

#[tactic(auto, unfolding(crate::specs::Forms::trim_line))]
fn trim(text: &[u8]) -> Option<Line>
    ensures { result ≡ trim_line text.now }
{
    let rest = after(text, b"trim ")?;
    let (worker, rest) = number_field(rest)?;
    let name = name(rest)?;
    Some(Line::Trim { worker, name })
}

#[tactic(auto, unfolding(crate::specs::Forms::flush_line))]
fn flush(text: &[u8]) -> Option<Line>
    ensures { result ≡ flush_line text.now }
{
    let rest = after(text, b"flush ")?;
    let (worker, rest) = number_field(rest)?;
    let cpu = number(rest)?;
    Some(Line::Flush { worker, cpu })
}
