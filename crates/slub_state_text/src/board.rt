//! The board.

ghost use Rattle.std.specs.Prelude.{◌≡◌, ◌^◌, ◌<◌, ◌++◌, flat_map, codes, length, IfOk, List, OnOk};
ghost use Rattle.slub_state_text.specs.Board.{board_row, board_rows, goes_on, joined, joined_maybe, objects_text, one_held};
ghost use Rattle.slub_state_text.specs.declared.board.BoardRange.{BoardRange};
ghost use Rattle.slub_state_text.specs.Fields.{label_text};
ghost use Rattle.slub_state_text.specs.Ranges.{range_text};

use crate::put::{put, put_label, put_spaced_number};
use crate::ranges::put_range;
use slub_common::no_memory::NoMemory;
use slub_lists::lists::Held;

/// Object numbers that rise by one, which name objects of one slab whose indexes rise by one, too.
#[derive(Clone, Copy, Debug)]
pub struct BoardRange {
    pub first: u32,
    pub last: u32,
    /// The first frame of the slab.
    pub frame: u16,
    /// What the first number names.
    pub index: u16,
    /// What the last number names.
    pub last_index: u16,
}

/// A range of one number, which names this object.
fn one_held(object: u32, held: &Held) -> BoardRange
    ensures { result ≡ one_held object held.now }
{
    BoardRange {
        first: object,
        last: object,
        frame: held.frame,
        index: held.index,
        last_index: held.index,
    }
}

/// Whether numbers and indexes rise on from a range.
fn goes_on(range: &BoardRange, next: &BoardRange) -> bool
    ensures { result ≡ goes_on range.now next.now }
{
    u64::from(next.first) == u64::from(range.last) + 1
        && next.frame == range.frame
        && u32::from(next.index) == u32::from(range.last_index) + 1
}

/// `F.I..J`, after a space.
fn put_objects(text: &mut Vec<u8>, range: &BoardRange) -> Result<(), NoMemory>
    ensures { OnOk result (text.new.items ≡ text.old.items ++ objects_text range.now) }
{
    put_spaced_number(text, u32::from(range.frame))?;
    put(text, b".")?;
    put_range(text, u32::from(range.index), u32::from(range.last_index))
}

/// The label of a range's row.
fn put_board_label(text: &mut Vec<u8>, range: &BoardRange) -> Result<(), NoMemory>
    ensures { OnOk result (text.new.items ≡
        text.old.items ++ label_text (codes "board " ++ range_text range.now.first range.now.last)) }
{
    let mut label = Vec::new(*text.allocator());
    put(&mut label, b"board ")?;
    put_range(&mut label, range.first, range.last)?;
    put_label(text, label.as_slice())
}

/// The row of a range.
fn put_row(text: &mut Vec<u8>, range: &BoardRange) -> Result<(), NoMemory>
    ensures { OnOk result (text.new.items ≡ text.old.items ++ board_row range.now) }
{
    put_board_label(text, range)?;
    put_objects(text, range)?;
    put(text, b"\n")
}

/// One more range, behind one that isn't written yet: they are joined, or the former is written. The
/// answer is what isn't written now.
fn put_next(
    text: &mut Vec<u8>,
    before: BoardRange,
    next: BoardRange,
) -> Result<BoardRange, NoMemory>
    ensures { IfOk result (λ now. (ranges : List BoardRange) →
        text.new.items ++ flat_map board_row (joined now ranges)
        ≡ text.old.items ++ flat_map board_row (joined before (joined next ranges))) }
{
    if goes_on(&before, &next) {
        return Ok(BoardRange {
            last: next.last,
            last_index: next.last_index,
            ..before
        });
    }
    put_row(text, &before)?;
    Ok(next)
}

/// The same where there may be none that isn't written yet.
fn put_more(
    text: &mut Vec<u8>,
    before: Option<BoardRange>,
    next: BoardRange,
) -> Result<BoardRange, NoMemory>
    ensures { IfOk result (λ now. (ranges : List BoardRange) →
        text.new.items ++ flat_map board_row (joined now ranges)
        ≡ text.old.items ++ flat_map board_row (joined_maybe before (joined next ranges))) }
{
    match before {
        Some(before) => put_next(text, before, next),
        None => Ok(next),
    }
}

/// The rows of a board, by object number.
pub(crate) fn push_board(text: &mut Vec<u8>, board: &[Option<Held>]) -> Result<(), NoMemory>
    requires { length board.now < 2 ^ 32 }
    ensures { OnOk result (text.new.items ≡ text.old.items ++ board_rows board.now) }
{
    let mut before = None;
    for (object, named) in board.iter().enumerate() {
        if let Some(held) = named {
            before = Some(put_more(text, before, one_held(object as u32, held))?);
        }
    }
    match before {
        Some(before) => put_row(text, &before),
        None => Ok(()),
    }
}
