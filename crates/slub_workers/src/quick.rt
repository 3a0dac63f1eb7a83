//! Turns of the two fast paths (`slab_alloc_node`, `do_slab_free`): one step on the table, whose kind is known where
//! the turn is written, and the worker is set where the answer leads.

ghost use Rattle.std.specs.Prelude.{◌≡◌};
ghost use Rattle.slub_turns.specs.Quick.{spot_of};
ghost use Rattle.slub_workers.specs.Sits.{HasBegun, HasMade};

use crate::rule::Naming;
use crate::shared::{Shared, WorkerSeat};
use crate::standing::Standing;
use crate::step::make;
use slub_core::step::{Answer, Step};
use slub_turns::laws::{picks_fit, turns_keep_ready};
use slub_turns::quick::{Quick, lead, quick_step};

/// The turn of a worker at this spot, which has begun its call. The step, and what it answered.
#[inline(always)]
pub(crate) fn quick_turn<N: Naming>(
    shared: &Shared,
    seat: &mut WorkerSeat,
    standing: &mut Standing,
    spot: Quick,
) -> (Step, Answer)
    requires key { N.key ≡ shared.now.words.shared.key }
    requires seat { seat.old.table_id ≡ shared.now.words.shared.table_id }
    requires begun { HasBegun N.key N.tries N.standing seat.old.me standing.old }
    requires spot { standing.old.local.spot ≡ spot_of spot }
    ensures seat { seat.new.table_id ≡ seat.old.table_id }
    ensures made { HasMade N.key N.tries N.standing seat.new.me result standing.new }
{
    picks_fit();
    turns_keep_ready();
    let step = quick_step(&shared.setup, &standing.local, spot);
    let answer = make::<N>(shared, seat, standing.values.as_mut_slice(), step);
    standing.answer = answer;
    lead(&shared.setup, &mut standing.local, spot, answer);
    (step, answer)
}
