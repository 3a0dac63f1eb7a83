//! The columns of a line.

ghost use Rattle.std.specs.Prelude.{◌≡◌, ◌≤◌, ◌<◌, ◌++◌, OnOk, codes, replicate};
ghost use Rattle.std.specs.Fmt.{decimal, signed_decimal};
ghost use Rattle.slub_slabinfo_text.specs.Texts.{hex_byte, hex_digit};
ghost use Rattle.slub_turn_text.specs.Columns as columns;

use itoa::Buffer;
use slub_common::no_memory::NoMemory;

/// Words.
#[inline(always)]
pub(crate) fn push_words(text: &mut Vec<u8>, words: &[u8]) -> Result<(), NoMemory>
    ensures { OnOk result (text.new.items ≡ text.old.items ++ words.now) }
{
    text.extend_from_slice(words)?;
    Ok(())
}

/// A number.
pub(crate) fn push_number(text: &mut Vec<u8>, n: u64) -> Result<(), NoMemory>
    ensures { OnOk result (text.new.items ≡ text.old.items ++ decimal n) }
{
    push_words(text, Buffer::new().format(n).as_bytes())
}

/// A number with its sign, if it is below 0.
pub(crate) fn push_signed(text: &mut Vec<u8>, n: i32) -> Result<(), NoMemory>
    ensures { OnOk result (text.new.items ≡ text.old.items ++ signed_decimal n) }
{
    push_words(text, Buffer::new().format(n).as_bytes())
}

/// Words and a number.
pub(crate) fn push_numbered(text: &mut Vec<u8>, words: &[u8], n: u64) -> Result<(), NoMemory>
    ensures { OnOk result (text.new.items ≡ text.old.items ++ (words.now ++ decimal n)) }
{
    push_words(text, words)?;
    push_number(text, n)
}

/// Words, a number and words behind it.
pub(crate) fn push_told(
    text: &mut Vec<u8>,
    words: &[u8],
    n: u64,
    behind: &[u8],
) -> Result<(), NoMemory>
    ensures { OnOk result (text.new.items ≡
        text.old.items ++ (words.now ++ decimal n ++ behind.now)) }
{
    push_words(text, words)?;
    push_number(text, n)?;
    push_words(text, behind)
}

/// Twice words and a number.
pub(crate) fn push_two(
    text: &mut Vec<u8>,
    words: &[u8],
    n: u64,
    more: &[u8],
    m: u64,
) -> Result<(), NoMemory>
    ensures { OnOk result (text.new.items ≡
        text.old.items ++ (words.now ++ decimal n ++ more.now ++ decimal m)) }
{
    push_words(text, words)?;
    push_number(text, n)?;
    push_words(text, more)?;
    push_number(text, m)
}

fn push_spaces(text: &mut Vec<u8>, count: usize) -> Result<(), NoMemory>
    ensures { OnOk result (text.new.items ≡ text.old.items ++ replicate count 32) }
{
    for _ in 0..count {
        text.push(b' ')?;
    }
    Ok(())
}

/// A text in a column of this width, and the space behind it.
#[tactic(auto, unfolding(crate::specs::Columns::cell))]
pub(crate) fn push_cell(text: &mut Vec<u8>, width: usize, words: &[u8]) -> Result<(), NoMemory>
    ensures { OnOk result (text.new.items ≡ text.old.items ++ columns.cell width words.now) }
{
    push_words(text, words)?;
    push_spaces(text, width.saturating_sub(words.len()))?;
    push_words(text, b" ")
}

/// A mark, with spaces before it.
#[tactic(auto, unfolding(crate::specs::Columns::mark_text))]
fn push_mark(text: &mut Vec<u8>, mark: &[u8]) -> Result<(), NoMemory>
    ensures { OnOk result (text.new.items ≡ text.old.items ++ columns.mark_text mark.now) }
{
    push_spaces(text, 5usize.saturating_sub(mark.len()))?;
    push_words(text, mark)
}

/// A byte as two hexadecimal digits in lower case.
pub(crate) fn push_hex(text: &mut Vec<u8>, byte: u8) -> Result<(), NoMemory>
    ensures { OnOk result (text.new.items ≡ text.old.items ++ hex_byte byte) }
{
    push_words(text, &[hex_digit(byte / 16), hex_digit(byte % 16)])
}

/// A hexadecimal digit in lower case.
fn hex_digit(n: u8) -> u8
    requires { n < 16 }
    ensures { result ≡ hex_digit n }
{
    if n < 10 { b'0' + n } else { b'a' - 10 + n }
}

/// A place of a lane.
#[tactic(auto, unfolding(crate::specs::Columns::lane_mark))]
fn lane_mark(worker: u8, place: u8) -> u8
    requires { place < 16 }
    ensures { result ≡ columns.lane_mark worker place }
{
    if place == worker {
        hex_digit(place)
    } else {
        b'.'
    }
}

/// A place for each worker of the round.
#[tactic(auto, unfolding(crate::specs::Columns::lane))]
fn push_lane(text: &mut Vec<u8>, workers: u8, worker: u8) -> Result<(), NoMemory>
    requires { workers ≤ 16 }
    ensures { OnOk result (text.new.items ≡ text.old.items ++ columns.lane workers worker) }
{
    for place in 0..workers {
        text.push(lane_mark(worker, place))?;
    }
    Ok(())
}

/// A worker's number as one hexadecimal digit.
#[tactic(auto, unfolding(crate::specs::Columns::lane_digit))]
fn lane_digit(worker: u8) -> u8
    requires { worker < 16 }
    ensures { result ≡ columns.lane_digit worker }
{
    hex_digit(worker)
}

/// The digits of all workers.
#[tactic(auto, unfolding(crate::specs::Columns::all_lanes))]
fn push_all_lanes(text: &mut Vec<u8>, workers: u8) -> Result<(), NoMemory>
    requires { workers ≤ 16 }
    ensures { OnOk result (text.new.items ≡ text.old.items ++ columns.all_lanes workers) }
{
    for place in 0..workers {
        text.push(lane_digit(place))?;
    }
    Ok(())
}

/// What each line begins with: the mark, and the lane of a worker.
#[tactic(auto, unfolding(crate::specs::Columns::front))]
pub(crate) fn push_front(
    text: &mut Vec<u8>,
    mark: &[u8],
    workers: u8,
    worker: u8,
) -> Result<(), NoMemory>
    requires { workers ≤ 16 }
    ensures { OnOk result (text.new.items ≡
        text.old.items ++ columns.front mark.now (columns.lane workers worker)) }
{
    push_words(text, b" ")?;
    push_mark(text, mark)?;
    push_words(text, b"  ")?;
    push_lane(text, workers, worker)?;
    push_words(text, b"  ")
}

/// What the head of the turns begins with.
#[tactic(auto, unfolding(crate::specs::Columns::front))]
fn push_head_front(text: &mut Vec<u8>, workers: u8) -> Result<(), NoMemory>
    requires { workers ≤ 16 }
    ensures { OnOk result (text.new.items ≡
        text.old.items ++ columns.front (codes "turn") (columns.all_lanes workers)) }
{
    push_words(text, b" ")?;
    push_mark(text, b"turn")?;
    push_words(text, b"  ")?;
    push_all_lanes(text, workers)?;
    push_words(text, b"  ")
}

/// The head of the columns event, spot and function.
#[tactic(auto, unfolding(crate::specs::Columns::event_head))]
fn push_event_head(text: &mut Vec<u8>) -> Result<(), NoMemory>
    ensures { OnOk result (text.new.items ≡ text.old.items ++ columns.event_head) }
{
    push_cell(text, 9, b"event")?;
    push_cell(text, 13, b"spot")?;
    push_cell(text, 22, b"function")
}

/// The head of the columns behind them.
#[tactic(auto, unfolding(crate::specs::Columns::step_head))]
fn push_step_head(text: &mut Vec<u8>) -> Result<(), NoMemory>
    ensures { OnOk result (text.new.items ≡ text.old.items ++ columns.step_head) }
{
    push_cell(text, 16, b"word")?;
    push_cell(text, 13, b"step")?;
    push_words(text, b"what it says")
}

/// The head of the turns of a round of so many workers.
pub fn push_head(text: &mut Vec<u8>, workers: u8) -> Result<(), NoMemory>
    requires { workers ≤ 16 }
    ensures { OnOk result (text.new.items ≡ text.old.items ++ columns.head_line workers) }
{
    push_head_front(text, workers)?;
    push_event_head(text)?;
    push_step_head(text)?;
    push_words(text, b"\n")
}
