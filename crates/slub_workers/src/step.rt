//! One step of a worker, on the table.

ghost use Rattle.std.specs.Prelude.{◌≡◌, ◌<◌};
ghost use Rattle.slub_core.specs.Words.{number_of};
ghost use Rattle.slub_workers.specs.Cells.{cell_of};
ghost use Rattle.slub_workers.specs.Rule.{setup_in};
ghost use Rattle.slub_workers.specs.Sits.{Steps, Made};

use crate::cell::cell;
use crate::rule::{Does, Misses, Naming, Stores};
use crate::shared::{Shared, WorkerSeat};
use slub_core::guarded::Guarded;
use slub_core::step::{Answer, Op, Place, Step};
use slub_schedule::table::{answer, number};
use slub_turns::laws::{picks_fit, turns_keep_ready};
use std::mem::replace;

/// Makes the step of the worker on its word. What a lock guards is in the worker's hand once the lock is won, and in
/// its slot before the lock is given back. Outside of the table a word is 0, and stays so.
#[inline(always)]
pub(crate) fn make<N: Naming>(
    shared: &Shared,
    seat: &mut WorkerSeat,
    values: &mut [Guarded],
    step: Step,
) -> Answer
    requires key { N.key ≡ shared.now.words.shared.key }
    requires seat { seat.old.table_id ≡ shared.now.words.shared.table_id }
    requires steps { Steps N.key N.tries N.standing seat.old.me values.old step }
    ensures seat { (seat.new.table_id ≡ seat.old.table_id) × (seat.new.id ≡ seat.old.id) }
    ensures made { Made N.key N.tries N.standing seat.new.me values.new result }
{
    picks_fit();
    turns_keep_ready();
    let word = cell(number(shared.frames, shared.objects, step.place));
    if word >= shared.words.word_count() {
        shared.words.shared.load::<Misses<N>>(seat, 0);
        return answer(step.op, 0);
    }
    match step.op {
        Op::Load => Answer::Word(shared.words.shared.load::<Does<N>>(seat, word)),
        Op::Store(value) => store::<N>(shared, seat, values, step, word, value),
        Op::Swap(value) => Answer::Word(shared.words.shared.swap::<Does<N>>(seat, word, value)),
        Op::Exchange { from, to } => exchange::<N>(shared, seat, values, step, word, from, to),
    }
}

/// Stores in the word; of a lock, what it guards is put into its slot before.
#[inline(always)]
fn store<N: Naming>(
    shared: &Shared,
    seat: &mut WorkerSeat,
    values: &mut [Guarded],
    step: Step,
    word: usize,
    value: u64,
) -> Answer
    requires key { N.key ≡ shared.now.words.shared.key }
    requires seat { seat.old.table_id ≡ shared.now.words.shared.table_id }
    requires steps { Steps N.key N.tries N.standing seat.old.me values.old step }
    requires op { step.op ≡ Op.Store value }
    requires word { word ≡ cell_of (number_of (setup_in N.key) step.place) }
    requires within { word < shared.now.words.shared.table_id.words }
    ensures seat { (seat.new.table_id ≡ seat.old.table_id) × (seat.new.id ≡ seat.old.id) }
    ensures made { Made N.key N.tries N.standing seat.new.me values.new result }
{
    picks_fit();
    turns_keep_ready();
    if let Place::LockOf(lock) = step.place {
        let given = replace(&mut values[lock as usize], Guarded::Nothing);
        let _ = shared.words.shared.exchange(seat, lock as usize, given);
        shared.words.shared.store::<Stores<N>>(seat, word, value);
        return Answer::Done;
    }
    shared.words.shared.store::<Stores<N>>(seat, word, value);
    Answer::Done
}

/// Compares and exchanges the word; of a lock that is won, what it guards is taken out of its slot then.
#[inline(always)]
fn exchange<N: Naming>(
    shared: &Shared,
    seat: &mut WorkerSeat,
    values: &mut [Guarded],
    step: Step,
    word: usize,
    from: u64,
    to: u64,
) -> Answer
    requires key { N.key ≡ shared.now.words.shared.key }
    requires seat { seat.old.table_id ≡ shared.now.words.shared.table_id }
    requires steps { Steps N.key N.tries N.standing seat.old.me values.old step }
    requires op { step.op ≡ Op.Exchange from to }
    requires word { word ≡ cell_of (number_of (setup_in N.key) step.place) }
    requires within { word < shared.now.words.shared.table_id.words }
    ensures seat { (seat.new.table_id ≡ seat.old.table_id) × (seat.new.id ≡ seat.old.id) }
    ensures made { Made N.key N.tries N.standing seat.new.me values.new result }
{
    picks_fit();
    turns_keep_ready();
    let found = shared
        .words
        .shared
        .compare_exchange::<Does<N>>(seat, word, from, to);
    if found != from {
        return Answer::Lost(found);
    }
    if let Place::LockOf(lock) = step.place {
        values[lock as usize] = shared
            .words
            .shared
            .exchange(seat, lock as usize, Guarded::Nothing);
        return Answer::Won;
    }
    Answer::Won
}
