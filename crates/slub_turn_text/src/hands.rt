//! The line of what is in hand.

ghost use Rattle.std.specs.Prelude.{◌≡◌, ◌++◌, IfOk, OnOk};
ghost use Rattle.slub_turn_text.specs.Hands as spec;

use crate::columns::{push_front, push_number, push_two, push_words};
use crate::fields::push_run;
use crate::labels::Labels;
use crate::roles::{first_role, second_role};
use slub_common::no_memory::NoMemory;
use slub_core::local::{FrameRun, Hand, PartialString};
use slub_core::worker_local::Local;
use std::alloc::Global;

/// The first object of a chain in hand.
#[tactic(auto, unfolding(crate::specs::Hands::chain_text))]
fn push_chain(text: &mut Vec<u8>, head: u16) -> Result<(), NoMemory>
    ensures { OnOk result (text.new.items ≡ text.old.items ++ spec.chain_text head) }
{
    if head == 0 {
        return Ok(());
    }
    push_words(text, b" from ")?;
    push_number(text, u64::from(head - 1))
}

/// A slab in hand.
#[tactic(auto, unfolding(crate::specs::Hands::slab_part))]
fn push_slab(text: &mut Vec<u8>, role: &[u8], hand: Hand) -> Result<(), NoMemory>
    ensures { OnOk result (text.new.items ≡ text.old.items ++ spec.slab_part role.now hand) }
{
    push_words(text, b", slab ")?;
    push_number(text, u64::from(hand.frame))?;
    push_words(text, b" ")?;
    push_words(text, role)?;
    push_chain(text, hand.head)
}

/// The slab that is worked on.
#[tactic(auto, unfolding(crate::specs::Hands::first_part))]
fn push_first(text: &mut Vec<u8>, local: &Local) -> Result<(), NoMemory>
    ensures { OnOk result (text.new.items ≡ text.old.items ++ spec.first_part local.now) }
{
    let count = local.hand_count();
    if count == 0 {
        return Ok(());
    }
    push_slab(text, first_role(local.spot(), count), local.hand())
}

/// The slab beside it.
#[tactic(auto, unfolding(crate::specs::Hands::second_part))]
fn push_second(text: &mut Vec<u8>, local: &Local) -> Result<(), NoMemory>
    ensures { OnOk result (text.new.items ≡ text.old.items ++ spec.second_part local.now) }
{
    let count = local.hand_count();
    if count < 2 {
        return Ok(());
    }
    push_slab(text, second_role(local.spot(), count), local.beside())
}

/// A string of slabs in hand.
#[tactic(auto, unfolding(crate::specs::Hands::string_part))]
fn push_string(text: &mut Vec<u8>, string: Option<PartialString>) -> Result<(), NoMemory>
    ensures { OnOk result (text.new.items ≡ text.old.items ++ spec.string_part string) }
{
    match string {
        None => Ok(()),
        Some(string) => push_two(
            text,
            b", string of ",
            u64::from(string.count),
            b" from ",
            u64::from(string.front),
        ),
    }
}

/// A run of frames in hand.
#[tactic(auto, unfolding(crate::specs::Hands::run_part))]
fn push_frames(text: &mut Vec<u8>, run: FrameRun) -> Result<(), NoMemory>
    ensures { OnOk result (text.new.items ≡ text.old.items ++ spec.run_part run) }
{
    if run.frame == 0 {
        return Ok(());
    }
    push_words(text, b", frames ")?;
    push_run(text, run)
}

/// All that a worker has in hand, each part with a comma before it.
#[tactic(auto, unfolding(crate::specs::Hands::parts))]
fn push_parts(text: &mut Vec<u8>, local: &Local) -> Result<(), NoMemory>
    ensures { OnOk result (text.new.items ≡ text.old.items ++ spec.parts local.now) }
{
    push_first(text, local)?;
    push_second(text, local)?;
    push_string(text, local.string())?;
    push_frames(text, local.run_or_none())
}

/// All that a worker has in hand.
#[tactic(auto, unfolding(crate::specs::Hands::hands_text))]
pub fn hands_text(alloc: Global, local: &Local) -> Result<Vec<u8>, NoMemory>
    ensures { IfOk result (λ text. text.items ≡ spec.hands_text local.now) }
{
    let mut parts = Vec::new(alloc);
    push_parts(&mut parts, local)?;
    let mut text = Vec::new(alloc);
    push_words(&mut text, without_comma(parts.as_slice()))?;
    Ok(text)
}

/// Parts without the comma before the first one.
fn without_comma(parts: &[u8]) -> &[u8]
    ensures { result.now ≡ spec.without_comma parts.now }
{
    match parts {
        [] => b"nothing",
        [_, _, rest @ ..] => rest,
        [_] => &[],
    }
}

/// The line of what a worker has in hand, where it isn't what it had before.
pub fn push_hands(
    text: &mut Vec<u8>,
    labels: &Labels,
    before: &[u8],
    local: &Local,
) -> Result<(), NoMemory>
    ensures { OnOk result (text.new.items ≡
        text.old.items ++ spec.hands_lines labels.now before.now local.now) }
{
    let hands = hands_text(*text.allocator(), local)?;
    if before == hands.as_slice() {
        return Ok(());
    }
    push_front(text, b":", labels.workers(), local.worker())?;
    push_words(text, b"in hand ")?;
    push_words(text, hands.as_slice())?;
    push_words(text, b"\n")
}
