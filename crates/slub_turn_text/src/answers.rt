//! The lines of answers.

ghost use Rattle.std.specs.Prelude.{◌≡◌, ◌+◌, ◌-◌, ◌^◌, ◌<◌, ◌++◌, OnOk, length};
ghost use Rattle.slub_slabinfo_text.specs.Texts.{IsNamed};
ghost use Rattle.slub_turn_text.specs.Answers as spec;

use crate::columns::{push_front, push_words};
use crate::fields::push_object;
use crate::labels::Labels;
use slub_common::no_memory::NoMemory;
use slub_core::local::Known;
use slub_core::worker_local::Local;
use slub_object_layout::name::Name;
use slub_slabinfo_text::text::{LINE_MAX, push_reply_line};
use slub_trace::event::Event;
use slub_trace::reply::Reply;

/// The event's reply line without its end.
#[tactic(auto, unfolding(crate::specs::Answers::answer_words, crate::specs::Labels::event_words))]
fn push_answer_words(
    text: &mut Vec<u8>,
    labels: &Labels,
    event: &Event,
    reply: &Reply,
) -> Result<(), NoMemory>
    requires { IsNamed labels.now.names event.now.act }
    ensures { OnOk result (text.new.items ≡
        text.old.items ++ spec.answer_words labels.now event.now reply.now) }
{
    text.reserve(LINE_MAX)?;
    push_reply_line(text, labels.names(), event, reply);
    text.pop();
    Ok(())
}

/// Where the object stands that was given or freed.
#[tactic(auto, unfolding(crate::specs::Answers::at_text))]
fn push_at(text: &mut Vec<u8>, object: Known, reply: &Reply) -> Result<(), NoMemory>
    ensures { OnOk result (text.new.items ≡ text.old.items ++ spec.at_text object reply.now) }
{
    match reply {
        Reply::Given(_) | Reply::Freed(_) => {
            push_words(text, b" at ")?;
            push_object(text, object.frame, u64::from(object.index))
        }
        _ => Ok(()),
    }
}

/// The line of a reply that the worker's call has. The reply isn't noted yet.
pub fn push_answer(
    text: &mut Vec<u8>,
    labels: &Labels,
    local: &Local,
    reply: &Reply,
) -> Result<(), NoMemory>
    ensures { OnOk result (text.new.items ≡
        text.old.items ++ spec.answer_line labels.now local.now reply.now) }
{
    let worker = local.worker();
    let event = labels.event_at(worker, local.answers().len());
    push_front(text, b"=", labels.workers(), worker)?;
    push_answer_words(text, labels, &event, reply)?;
    push_at(text, local.here(), reply)?;
    push_words(text, b"\n")
}

/// The line of an answer that gives and frees no object.
#[tactic(auto, unfolding(crate::specs::Answers::quiet_line))]
fn push_quiet(
    text: &mut Vec<u8>,
    labels: &Labels,
    worker: u8,
    number: usize,
    reply: &Reply,
) -> Result<(), NoMemory>
    ensures { OnOk result (text.new.items ≡
        text.old.items ++ spec.quiet_line labels.now worker number reply.now) }
{
    let event = labels.event_at(worker, number);
    push_front(text, b"=", labels.workers(), worker)?;
    push_answer_words(text, labels, &event, reply)?;
    push_words(text, b"\n")
}

/// The line of a worker's answer so many behind this one.
#[tactic(auto, using(crate::proofs::Lanes::turned), unfolding(crate::specs::Answers::quiet_at))]
fn push_quiet_at(
    text: &mut Vec<u8>,
    labels: &Labels,
    local: &Local,
    from: usize,
    more: usize,
) -> Result<(), NoMemory>
    requires { from + more < 2 ^ 64 }
    ensures { OnOk result (text.new.items ≡
        text.old.items ++ spec.quiet_at labels.now local.now from more) }
{
    let number = from + more;
    match local.answers().get(number) {
        Some(answered) => push_quiet(text, labels, local.worker(), number, &answered.reply),
        None => Ok(()),
    }
}

/// How many answers a worker has from this number on.
#[tactic(auto, using(crate::proofs::Lanes::turned))]
fn count_from(local: &Local, from: usize) -> usize
    ensures count { result ≡ length local.now.done - from }
    ensures within { 0 < result → from + result < 2 ^ 64 }
{
    local.answers().len().saturating_sub(from)
}

/// The lines of a worker's answers without a step, from this number on.
pub fn push_answers(
    text: &mut Vec<u8>,
    labels: &Labels,
    local: &Local,
    from: usize,
) -> Result<(), NoMemory>
    ensures { OnOk result (text.new.items ≡
        text.old.items ++ spec.quiet_lines labels.now local.now from) }
{
    for more in 0..count_from(local, from) {
        push_quiet_at(text, labels, local, from, more)?;
    }
    Ok(())
}
