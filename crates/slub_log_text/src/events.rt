//! The events of a round, as a trace has them.

ghost use Rattle.std.specs.Prelude.{◌≡◌, ◌++◌, ◌∷◌, ◌<◌, [], OnOk, flat_map, slice_index_or};
ghost use Rattle.std.specs.Fmt.{decimal, signed_decimal};
ghost use Rattle.slub_slabinfo_text.specs.Texts.{hex_byte, hex_digit};
ghost use Rattle.slub_log_text.specs.Events.{alloc_words, event_line, event_words, free_words, poke_words, read_words, write_words};

use crate::put::{put, put_number, put_signed};
use slub_common::no_memory::NoMemory;
use slub_object_layout::name::Name;
use slub_trace::event::{Act, Event};

/// The word of an event and its worker.
fn put_worker(text: &mut Vec<u8>, word: &[u8], worker: u8) -> Result<(), NoMemory>
    ensures { OnOk result (text.new.items ≡ text.old.items ++ word.now ++ decimal worker) }
{
    put(text, word)?;
    put_number(text, u64::from(worker))
}

/// A space and a number.
fn put_next(text: &mut Vec<u8>, n: u64) -> Result<(), NoMemory>
    ensures { OnOk result (text.new.items ≡ text.old.items ++ 32 ∷ decimal n) }
{
    put(text, b" ")?;
    put_number(text, n)
}

/// The name at a place of the trace's names.
fn name_at(names: &[Name], place: u32) -> &[u8]
    ensures { result.now ≡ slice_index_or names.now place [] }
{
    match names.get(place as usize) {
        Some(name) => name.as_bytes(),
        None => &[],
    }
}

/// A space and a name.
fn put_name(text: &mut Vec<u8>, name: &[u8]) -> Result<(), NoMemory>
    ensures { OnOk result (text.new.items ≡ text.old.items ++ 32 ∷ name.now) }
{
    put(text, b" ")?;
    put(text, name)
}

/// One hexadecimal digit.
fn hex_digit(n: u8) -> u8
    requires { n < 16 }
    ensures { result ≡ hex_digit n }
{
    if n < 10 { b'0' + n } else { b'a' + (n - 10) }
}

/// A space and a byte, as two hexadecimal digits.
fn put_byte(text: &mut Vec<u8>, byte: u8) -> Result<(), NoMemory>
    ensures { OnOk result (text.new.items ≡ text.old.items ++ 32 ∷ hex_byte byte) }
{
    put(text, &[b' ', hex_digit(byte / 16), hex_digit(byte % 16)])
}

/// `alloc W CPU NAME OBJ`.
fn put_alloc(text: &mut Vec<u8>, event: &Event, name: &[u8], object: u32) -> Result<(), NoMemory>
    ensures { OnOk result (text.new.items ≡ text.old.items ++ alloc_words event.now name.now object) }
{
    put_worker(text, b"alloc ", event.worker)?;
    put_next(text, u64::from(event.cpu))?;
    put_name(text, name)?;
    put_next(text, u64::from(object))
}

/// `free W CPU OBJ`.
fn put_free(text: &mut Vec<u8>, event: &Event, object: u32) -> Result<(), NoMemory>
    ensures { OnOk result (text.new.items ≡ text.old.items ++ free_words event.now object) }
{
    put_worker(text, b"free ", event.worker)?;
    put_next(text, u64::from(event.cpu))?;
    put_next(text, u64::from(object))
}

/// `write W OBJ WORD VALUE`.
fn put_write(
    text: &mut Vec<u8>,
    worker: u8,
    object: u32,
    word: u16,
    value: u64,
) -> Result<(), NoMemory>
    ensures { OnOk result (text.new.items ≡ text.old.items ++ write_words worker object word value) }
{
    put_worker(text, b"write ", worker)?;
    put_next(text, u64::from(object))?;
    put_next(text, u64::from(word))?;
    put_next(text, value)
}

/// `read W OBJ WORD`.
fn put_read(text: &mut Vec<u8>, worker: u8, object: u32, word: u16) -> Result<(), NoMemory>
    ensures { OnOk result (text.new.items ≡ text.old.items ++ read_words worker object word) }
{
    put_worker(text, b"read ", worker)?;
    put_next(text, u64::from(object))?;
    put_next(text, u64::from(word))
}

/// `poke W OBJ OFFSET BYTE`.
fn put_poke(
    text: &mut Vec<u8>,
    worker: u8,
    object: u32,
    offset: i32,
    byte: u8,
) -> Result<(), NoMemory>
    ensures { OnOk result (text.new.items ≡ text.old.items ++ poke_words worker object offset byte) }
{
    put_worker(text, b"poke ", worker)?;
    put_next(text, u64::from(object))?;
    put(text, b" ")?;
    put_signed(text, offset)?;
    put_byte(text, byte)
}

/// What a line of a trace says of an event.
fn put_event(text: &mut Vec<u8>, names: &[Name], event: &Event) -> Result<(), NoMemory>
    ensures { OnOk result (text.new.items ≡ text.old.items ++ event_words names.now event.now) }
{
    match &event.act {
        Act::Alloc { cache, object } => put_alloc(text, event, name_at(names, *cache), *object),
        Act::Free { object } => put_free(text, event, *object),
        Act::Write {
            word,
            object,
            value,
        } => put_write(text, event.worker, *object, *word, *value),
        Act::Read { word, object } => put_read(text, event.worker, *object, *word),
        Act::Poke {
            object,
            offset,
            byte,
        } => put_poke(text, event.worker, *object, *offset, *byte),
        Act::Trim { cache } => {
            put_worker(text, b"trim ", event.worker)?;
            put_name(text, name_at(names, *cache))
        }
        Act::Flush => {
            put_worker(text, b"flush ", event.worker)?;
            put_next(text, u64::from(event.cpu))
        }
    }
}

/// The line of an event.
fn put_line(text: &mut Vec<u8>, names: &[Name], event: &Event) -> Result<(), NoMemory>
    ensures { OnOk result (text.new.items ≡ text.old.items ++ event_line names.now event.now) }
{
    put(text, b"  ")?;
    put_event(text, names, event)?;
    put(text, b"\n")
}

/// The lines of events, two spaces before each.
pub fn put_events(text: &mut Vec<u8>, names: &[Name], events: &[Event]) -> Result<(), NoMemory>
    ensures { OnOk result (text.new.items ≡ text.old.items ++ flat_map (event_line names.now) events.now) }
{
    for event in events {
        put_line(text, names, event)?;
    }
    Ok(())
}
