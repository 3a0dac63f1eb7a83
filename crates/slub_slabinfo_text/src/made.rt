//! What is made of an item's text before a byte of it is written.

ghost use Rattle.std.specs.Prelude.{◌≡◌, ◌<◌, ◌++◌, length, OnOk};
ghost use Rattle.slub_trace.specs.Sound.{IsSound};
ghost use Rattle.slub_slabinfo_text.specs.Made.{made_before};

use crate::client_text::push_client;
use crate::journal::Done;
use crate::journal_text::{
    created_answer, destroyed_answer, push_answer, push_damages, shrunk_answer, tuned_answer,
};
use crate::names::name_of;
use crate::text::{ItemWord, push_slabinfo};
use slub_common::no_memory::NoMemory;
use slub_trace::trace::{Item, Trace};
use std::alloc::Global;

/// It is put behind a text. Those of the lines that say that all went well only with `replies`.
pub(crate) fn push_made(
    alloc: Global,
    text: &mut Vec<u8>,
    trace: &Trace,
    number: usize,
    done: &Done,
    replies: bool,
) -> Result<(), NoMemory>
    requires sound { IsSound trace.now }
    requires within { number < length trace.now.items }
    ensures { OnOk result (text.new.items ≡
        text.old.items ++ made_before replies trace.now number done.now) }
{
    match (&trace.items.as_slice()[number], done) {
        (Item::Cache { name, spec: _ }, Done::Created(answer)) => {
            let answer = created_answer(answer);
            push_answer(
                text,
                ItemWord::Cache,
                name_of(trace, *name),
                &answer,
                replies,
            )
        }
        (Item::Round(_), Done::Round(outcome)) => push_damages(text, outcome.damages.as_slice()),
        (Item::Shrink { name }, Done::Shrunk(answer)) => {
            let answer = shrunk_answer(answer);
            push_answer(
                text,
                ItemWord::Shrink,
                name_of(trace, *name),
                &answer,
                replies,
            )
        }
        (Item::Destroy { name }, Done::Destroyed(answer)) => {
            let answer = destroyed_answer(answer);
            push_answer(
                text,
                ItemWord::Destroy,
                name_of(trace, *name),
                &answer,
                replies,
            )
        }
        (Item::Slabinfo, Done::Slabinfo(rows)) => push_slabinfo(text, rows.as_slice()),
        (Item::Tune { name, setting: _ }, Done::Tuned(answer)) => {
            let answer = tuned_answer(answer);
            push_answer(
                text,
                ItemWord::Tune,
                name_of(trace, *name),
                &answer,
                replies,
            )
        }
        (Item::Client(client), Done::Client(outcome)) => {
            push_client(alloc, text, client, outcome, replies)
        }
        _ => Ok(()),
    }
}
