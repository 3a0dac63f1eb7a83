//! Settings of caches.

ghost use Rattle.std.specs.Prelude.{◌≡◌, ◌++◌, flat_map, OnOk};
ghost use Rattle.slub_recorded.specs.Tunes.{head_text, is_for, knob_words, tune_text, tunes_text};

use crate::text::{Row, push_numbered, push_words};
use slub_common::no_memory::NoMemory;
use slub_object_layout::name::Name;
use slub_trace_reader::line::Knob;

/// A setting of the cache of a name, or of every one: its name is `all`.
#[derive(Clone, Copy, Debug)]
pub struct Tune {
    pub name: Name,
    pub knob: Knob,
    pub number: u32,
}

/// Whether a setting is for the cache of this name.
pub(crate) fn is_for(tune: &Tune, name: &Name) -> bool
    ensures { result ≡ is_for tune.now name.now }
{
    tune.name.as_bytes() == b"all".as_slice() || tune.name == *name
}

/// What stands before the number of a setting.
fn knob_words(knob: Knob) -> &'static [u8]
    ensures { result.now ≡ knob_words knob }
{
    match knob {
        Knob::MinPartial => b" min_partial ",
        Knob::CpuPartial => b" cpu_partial ",
    }
}

/// Puts the line of a setting of a cache behind a text, where it is for that.
fn push_tune(text: &mut Vec<u8>, name: &Name, tune: &Tune) -> Result<(), NoMemory>
    ensures { OnOk result (text.new.items ≡ text.old.items ++ tune_text name.now tune.now) }
{
    if !is_for(tune, name) {
        return Ok(());
    }
    push_words(text, b"tune ")?;
    push_words(text, name.as_bytes())?;
    push_numbered(text, knob_words(tune.knob), u64::from(tune.number))?;
    push_words(text, b"\n")
}

/// Puts the lines of the settings of a cache behind a text.
fn push_row_tunes(text: &mut Vec<u8>, name: &Name, tunes: &[Tune]) -> Result<(), NoMemory>
    ensures { OnOk result (text.new.items ≡ text.old.items ++ flat_map (tune_text name.now) tunes.now) }
{
    for tune in tunes {
        push_tune(text, name, tune)?;
    }
    Ok(())
}

/// Puts the lines of the settings of caches behind a text.
pub(crate) fn push_tunes(text: &mut Vec<u8>, rows: &[Row], tunes: &[Tune]) -> Result<(), NoMemory>
    ensures { OnOk result (text.new.items ≡ text.old.items ++ flat_map (tunes_text tunes.now) rows.now) }
{
    for row in rows {
        push_row_tunes(text, &row.name, tunes)?;
    }
    Ok(())
}

/// The first line of a trace with these settings.
pub(crate) fn head(tunes: &[Tune]) -> &'static [u8]
    ensures { result.now ≡ head_text tunes.now }
{
    if tunes.is_empty() {
        b"slubtrace 1\n"
    } else {
        b"slubtrace 2\n"
    }
}
