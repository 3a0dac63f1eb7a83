//! Numbers, and ranges of them.

ghost use Rattle.std.specs.Prelude.{◌≡◌, ◌++◌, ◌∷◌, flat_map, IfOk, List, OnOk};
ghost use Rattle.slub_state_text.specs.declared.ranges.Range.{Range};
ghost use Rattle.slub_state_text.specs.Ranges.{joined, numbers_text, range_text, ranges_text, ranges_of, spaced_number, spaced_range};

use crate::put::{put, put_number, put_spaced_number};
use slub_common::no_memory::NoMemory;

/// The first and the last of numbers each of which is one more than the one before it.
#[derive(Clone, Copy, Debug)]
pub(crate) struct Range {
    pub(crate) first: u16,
    pub(crate) last: u16,
}

/// `A..B`, and a range of one number as that number.
pub(crate) fn put_range(text: &mut Vec<u8>, first: u32, last: u32) -> Result<(), NoMemory>
    ensures { OnOk result (text.new.items ≡ text.old.items ++ range_text first last) }
{
    put_number(text, first)?;
    if first != last {
        put(text, b"..")?;
        put_number(text, last)?;
    }
    Ok(())
}

/// A range, after a space.
fn put_spaced_range(text: &mut Vec<u8>, range: Range) -> Result<(), NoMemory>
    ensures { OnOk result (text.new.items ≡ text.old.items ++ spaced_range range) }
{
    put(text, b" ")?;
    put_range(text, u32::from(range.first), u32::from(range.last))
}

/// One more range, behind one that isn't written yet: they are joined, or the former is written. The
/// answer is what isn't written now.
fn put_next(text: &mut Vec<u8>, before: Range, next: Range) -> Result<Range, NoMemory>
    ensures { IfOk result (λ now. (ranges : List Range) →
        text.new.items ++ flat_map spaced_range (joined now ranges)
        ≡ text.old.items ++ flat_map spaced_range (joined before (joined next ranges))) }
{
    if u32::from(next.first) == u32::from(before.last) + 1 {
        return Ok(Range {
            first: before.first,
            last: next.last,
        });
    }
    put_spaced_range(text, before)?;
    Ok(next)
}

/// A number and those behind it as ranges, each after a space.
fn put_some(text: &mut Vec<u8>, first: u16, rest: &[u16]) -> Result<(), NoMemory>
    ensures { OnOk result (text.new.items ≡
        text.old.items ++ flat_map spaced_range (ranges_of (first ∷ rest.now))) }
{
    let mut before = Range { first, last: first };
    for n in rest {
        before = put_next(
            text,
            before,
            Range {
                first: *n,
                last: *n,
            },
        )?;
    }
    put_spaced_range(text, before)
}

/// Numbers as ranges, each after a space; no number is `none`.
pub(crate) fn put_ranges(text: &mut Vec<u8>, numbers: &[u16]) -> Result<(), NoMemory>
    ensures { OnOk result (text.new.items ≡ text.old.items ++ ranges_text numbers.now) }
{
    match numbers {
        [] => put(text, b" none"),
        [first, rest @ ..] => put_some(text, *first, rest),
    }
}

/// Numbers, each after a space.
fn put_each(text: &mut Vec<u8>, numbers: &[u16]) -> Result<(), NoMemory>
    ensures { OnOk result (text.new.items ≡ text.old.items ++ flat_map spaced_number numbers.now) }
{
    for n in numbers {
        put_spaced_number(text, u32::from(*n))?;
    }
    Ok(())
}

/// Numbers, each after a space; no number is `none`.
pub(crate) fn put_numbers(text: &mut Vec<u8>, numbers: &[u16]) -> Result<(), NoMemory>
    ensures { OnOk result (text.new.items ≡ text.old.items ++ numbers_text numbers.now) }
{
    if numbers.is_empty() {
        return put(text, b" none");
    }
    put_each(text, numbers)
}
