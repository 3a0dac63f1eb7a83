//! The words of settings, read.

ghost use Rattle.std.specs.Prelude.{◌≡◌, ◌<◌, ◌==◌, ◌++◌, length, map, position, IfSome, option_map, string_bytes, All, IfOk, OnOk};
ghost use Rattle.slub_recorded.specs.Converted.{IsTune};
ghost use Rattle.slub_recorded.specs.Words.{is_tune, tune_in, tunes_asked, tunes_in};
ghost use Rattle.slub_recorded.specs.Settings.{cut, knob_of, tune_by, tune_of};
ghost use Rattle.slub_trace_reader.specs.Forms.{name_of};

use crate::tunes::Tune;
use crate::words::first_option;
use slub_common::no_memory::NoMemory;
use slub_common::numbers::number;
use slub_object_layout::name::Name;
use slub_trace_reader::line::Knob;
use std::alloc::Global;

/// The place of the first colon.
fn colon(word: &[u8]) -> Option<usize>
    ensures first { result ≡ position (λ b. b == 58) word.now }
    ensures inside { IfSome result (λ at. at < length word.now) }
{
    word.iter().position(|b| *b == b':')
}

/// What stands before the first colon, and behind it.
fn cut(word: &[u8]) -> Option<(&[u8], &[u8])>
    ensures { option_map (λ x. (x.0.now, x.1.now)) result ≡ cut word.now }
{
    let at = colon(word)?;
    Some((&word[..at], &word[at + 1..]))
}

/// The name of a cache.
fn name(word: &[u8]) -> Option<Name>
    ensures { result ≡ name_of word.now }
{
    Name::read_bytes(word)
}

/// What is set.
fn knob_of(word: &[u8]) -> Option<Knob>
    ensures { result ≡ knob_of word.now }
{
    if word == b"min_partial".as_slice() {
        return Some(Knob::MinPartial);
    }
    if word == b"cpu_partial".as_slice() {
        return Some(Knob::CpuPartial);
    }
    None
}

/// A setting of these parts.
fn tune_by(name: Option<Name>, knob: Option<Knob>, n: Option<u128>) -> Option<Tune>
    ensures { result ≡ tune_by name knob n }
{
    let name = name?;
    let knob = knob?;
    let n = n?;
    if n > 4096 {
        return None;
    }
    Some(Tune {
        name,
        knob,
        number: n as u32,
    })
}

/// The setting that a word says.
#[tactic(auto, unfolding(crate::specs::Settings::tune_of))]
pub(crate) fn tune_of(word: &str) -> Option<Tune>
    ensures { result ≡ tune_of word.now }
{
    let (front, rest) = cut(word.as_bytes())?;
    let (knob, n) = cut(rest)?;
    tune_by(name(front), knob_of(knob), number(n))
}

/// Whether a word is the name of a setting.
pub(crate) fn is_tune(word: &str) -> bool
    ensures { result ≡ is_tune word.now }
{
    word == "--tune"
}

/// The setting of an option, where it is one, behind others.
fn push_tune(tunes: &mut Vec<Tune>, name: &str, value: &str) -> Result<(), NoMemory>
    ensures { OnOk result (tunes.new.items ≡ tunes.old.items ++ tune_in name.now value.now) }
{
    if !is_tune(name) {
        return Ok(());
    }
    if let Some(tune) = tune_of(value) {
        tunes.push(tune)?;
    }
    Ok(())
}

/// The settings of options.
fn tunes_in(alloc: Global, words: &[String]) -> Result<Vec<Tune>, NoMemory>
    ensures { IfOk result (λ tunes. tunes.items ≡ tunes_in (map string_bytes words.now)) }
{
    let mut tunes = Vec::new(alloc);
    let mut rest = words;
    'options: while let Some((name, value, others)) = first_option(rest) {
        push_tune(&mut tunes, name, value)?;
        rest = others;
    }
    Ok(tunes)
}

/// The settings that words ask for.
pub fn tunes(alloc: Global, words: &[String]) -> Result<Vec<Tune>, NoMemory>
    ensures fit { IfOk result (λ tunes. All IsTune tunes.items) }
    ensures are { IfOk result (λ tunes. tunes.items ≡ tunes_asked (map string_bytes words.now)) }
{
    match words.split_first() {
        None => Ok(Vec::new(alloc)),
        Some((_command, rest)) => tunes_in(alloc, rest),
    }
}
