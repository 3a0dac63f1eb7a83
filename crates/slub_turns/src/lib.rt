//! The turn of any worker of a round: its step, and what comes with the answer, whichever path it
//! is in.
//!
//! - What runs: `step`, `advance` and `at_once` join the paths (`slub_alloc_paths`,
//!   `slub_free_paths`, `slub_offline`, `slub_checked_paths`) over the spots of a worker; `begin`
//!   begins a call and gives the replies that take no step. `turn` is all of a turn; at the six
//!   spots of the two fast paths (`slab_alloc_node`, `do_slab_free`) it is made of the parts in
//!   `quick`, in which nothing is left to choose, as the turn of a thread is (`slub_workers`). Of
//!   the other spots those of a free onto the slab's own freelist are named where the turn is made
//!   (`free_turn`), so that the compiler can drop the other cases of the path. `machine` has the
//!   words, the values of the locks and the workers of a round; `seeded` beside it the generator
//!   that draws whose turn comes next, for rounds by seed.
//! - Who watches: a `Watch` (`watch`) says whose turn comes next, and is told what comes about in a
//!   turn while it is made (`watched_turn`); `watched` has it beside a machine.
//!   `specs/Happenings.antt` says what is told, in the order in which it comes about. Of the turns
//!   of a round by seed and those of threads nobody is told.
//! - What the paths ask: that numbers fit into their words, that a hand is free, that a node list
//!   has room, that the frames of a run aren't free already. `specs/Fits.antt` joins this over all
//!   spots (`TurnFits`), and `fit_laws` says that a coherent machine gives it.
//! - Definitions: contracts see a machine by `system_of` of `specs/System.antt`; what they ask of
//!   it is `IsReady` of `specs/Ready.antt`. `laws` says how a round begins with such a machine, and
//!   what it closes into.
//!
//! # What it promises
//!
//! Each call is the definition of its name in the step machine (`Steps` and `Run` of `slub_core`),
//! in every machine of the setup's facts, and what a turn asks it has by `turns_fit`. A turn of a
//! `StepMachine` is `turn` of the definitions, whether memory is refused in it or not, and leaves the
//! machine ready. A `Seeded` makes the turns that the seed draws (`slub_schedule`). A watched turn is
//! a turn too, and the watcher has heard exactly `happenings_of` it; `turns_are_told` says that these
//! tell the turn: its step, and what it leaves.
//!
//! `turns_fit`: in a machine that is coherent (`IsCoherentSystem` of `slub_core`) each turn of each
//! worker is one that the bodies can make, where its counts leave room (`LeavesRoom`) and each node
//! list has room for as many slabs as there are frames but frame 0.
#![tactic(auto)]

pub mod advance;
pub mod at_once;
pub mod begin;
pub mod fit_laws;
pub mod laws;
pub mod machine;
pub mod quick;
pub mod seeded;
pub mod step;
pub mod turn;
pub mod watch;
pub mod watched;
pub mod watched_turn;
