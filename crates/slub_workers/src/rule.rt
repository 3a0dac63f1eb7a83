//! The rule over the table, and what a step tells.

use crate::standing::Fork;
use atomic_table::{Join, Play, Split, TableRule};
use slub_common::sequence::Sequence;
use slub_core::guarded::Guarded;
use slub_turns::machine::StepMachine;
use std::marker::{Brand, Model, PhantomData};
use std::snapshot::Snapshot;

/// What a seat knows: its workers. No value of it is made.
pub type View = Sequence<Fork>;

/// The machine as the round begins. Contracts see it as plain data.
#[derive(Drop)]
pub struct Key {
    pub(crate) machine: Snapshot<StepMachine>,
}

impl Model for Key {
    ghost use Rattle.slub_workers.specs.Begun.{Begun};

    ghost Value = { Begun };

    ghost view = { λ k. record { facts = k.machine.value.setup; table = k.machine.value.table; guards = k.machine.value.values.items; locals = k.machine.value.locals.items } };
}

/// The invariants of the step machine hold of the words, the values and the workers.
pub struct Ruled;

impl TableRule<Guarded, View, Key> for Ruled {
    ghost use Rattle.slub_workers.specs.Rule.{Holds, first_view};

    ghost holds = { Holds };

    ghost first = { first_view };
}

/// How the worker stands that steps, whether a call that begins with the step is a try, and what the round began with.
pub trait Naming {
    ghost use Rattle.std.specs.Prelude.{Bool};
    ghost use Rattle.slub_workers.specs.Standing.{Standing};
    ghost use Rattle.slub_workers.specs.Begun.{Begun};

    ghost standing: { Standing };

    ghost tries: { Bool };

    ghost key: { Begun };
}

impl Naming for Brand {
    ghost use Rattle.std.specs.Prelude.{false};
    ghost use Rattle.slub_workers.specs.Nobody.{nobody, no_key};

    ghost standing = { nobody };

    ghost tries = { false };

    ghost key = { no_key };
}

/// The one play: the step that the worker's spot calls for.
pub struct Does<N> {
    of: PhantomData<N>,
}

impl<N: Naming> Play<Guarded, View> for Does<N> {
    ghost use Rattle.slub_workers.specs.Sits.{told};

    ghost then = { told N.key N.tries N.standing };
}

/// The same, of a store, which tells of no word.
pub struct Stores<N> {
    of: PhantomData<N>,
}

impl<N: Naming> Play<Guarded, View> for Stores<N> {
    ghost use Rattle.slub_workers.specs.Sits.{told_stored};

    ghost then = { told_stored N.key N.tries N.standing };
}

/// The same, of a step outside of the table: a load that tells of no word.
pub struct Misses<N> {
    of: PhantomData<N>,
}

impl<N: Naming> Play<Guarded, View> for Misses<N> {
    ghost use Rattle.slub_workers.specs.Sits.{told_outside};

    ghost then = { told_outside N.key N.tries N.standing };
}

/// The last worker of a view gets a seat of its own.
pub struct Deals;

impl Split<View> for Deals {
    ghost use Rattle.slub_workers.specs.Seats.{all_but_last, last_alone};

    ghost left = { all_but_last };

    ghost right = { last_alone };
}

/// A worker's seat goes back to the first one.
pub struct Returns;

impl Join<View> for Returns {
    ghost use Rattle.std.specs.Prelude.{[], ◌++◌};

    ghost both = { λ view more. view ++ more };

    ghost spent = { [] };
}
