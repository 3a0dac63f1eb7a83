//! The line of a turn.

ghost use Rattle.std.specs.Prelude.{◌≡◌, ◌++◌, OnOk};
ghost use Rattle.std.specs.Fmt.{decimal};
ghost use Rattle.slub_turn_text.specs.Columns.{front};
ghost use Rattle.slub_turn_text.specs.Labels.{label_at};
ghost use Rattle.slub_turn_text.specs.Turns as spec;

use crate::columns::{push_cell, push_front, push_words};
use crate::labels::{Labels, event_number};
use crate::says::{push_says, step_text};
use crate::spots::{function_of, spot_name};
use crate::words::push_word;
use itoa::Buffer;
use slub_common::no_memory::NoMemory;
use slub_core::setup::Setup;
use slub_core::spot::Spot;
use slub_core::step::{Answer, Step};
use slub_core::worker_local::Local;
use slub_words::slab::SlabWord;

/// The columns event, spot and function.
#[tactic(auto, unfolding(crate::specs::Turns::spot_cells))]
pub(crate) fn push_spot_cells(text: &mut Vec<u8>, event: &[u8], spot: Spot) -> Result<(), NoMemory>
    ensures { OnOk result (text.new.items ≡ text.old.items ++ spec.spot_cells event.now spot) }
{
    push_cell(text, 9, event)?;
    push_cell(text, 13, spot_name(spot))?;
    push_cell(text, 22, function_of(spot))
}

/// Those of a worker's event of this number.
pub(crate) fn push_event_cells(
    text: &mut Vec<u8>,
    labels: &Labels,
    worker: u8,
    number: usize,
    spot: Spot,
) -> Result<(), NoMemory>
    ensures { OnOk result (text.new.items ≡
        text.old.items ++ spec.spot_cells (label_at labels.now worker number) spot) }
{
    let mut event = Vec::new(*text.allocator());
    labels.push_label(&mut event, worker, number)?;
    push_spot_cells(text, event.as_slice(), spot)
}

/// The columns word and step.
#[tactic(auto, unfolding(crate::specs::Turns::step_cells))]
fn push_step_cells(
    text: &mut Vec<u8>,
    labels: &Labels,
    local: &Local,
    step: Step,
    answer: Answer,
) -> Result<(), NoMemory>
    ensures { OnOk result (text.new.items ≡
        text.old.items ++ spec.step_cells labels.now local.now step answer) }
{
    let mut word = Vec::new(*text.allocator());
    push_word(&mut word, labels, local, step.place)?;
    push_cell(text, 16, word.as_slice())?;
    push_cell(text, 13, step_text(step.op, answer))
}

/// What the line of a turn begins with.
fn push_number_front(
    text: &mut Vec<u8>,
    labels: &Labels,
    number: u64,
    worker: u8,
) -> Result<(), NoMemory>
    ensures { OnOk result (text.new.items ≡
        text.old.items ++ front (decimal number) (spec.lane_of labels.now worker)) }
{
    let mut buffer = Buffer::new();
    let digits = buffer.format(number);
    push_front(text, digits.as_bytes(), labels.workers(), worker)
}

/// The line of the turn of this number: what the worker does at its spot, and what is answered. The worker has begun
/// its call, and hasn't gone on yet; `seen` is the slab word that it saw or left last.
pub fn push_turn(
    text: &mut Vec<u8>,
    labels: &Labels,
    setup: &Setup,
    seen: SlabWord,
    number: u64,
    local: &Local,
    step: Step,
    answer: Answer,
) -> Result<(), NoMemory>
    ensures { OnOk result (text.new.items ≡
        text.old.items ++ spec.turn_line labels.now setup.now seen number local.now step answer) }
{
    let worker = local.worker();
    push_number_front(text, labels, number, worker)?;
    push_event_cells(text, labels, worker, event_number(local), local.spot())?;
    push_step_cells(text, labels, local, step, answer)?;
    push_says(text, setup, seen, local, step, answer)?;
    push_words(text, b"\n")
}
