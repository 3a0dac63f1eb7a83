//! How what a trace does is cut into rounds, and which worker does it.

ghost use Rattle.std.specs.Prelude.{◌≡◌, [], ◌∷◌, ◌++◌, IfOk, OnOk};
ghost use Rattle.slub_recorded.specs.declared.rounds.Step.TheVariants.{Does as Done};
ghost use Rattle.slub_recorded.specs.Rounds.{count_workers, cpu_of, cut_at, cuts_of, doer, holders_behind, holders_in, is_due, is_own, left_behind, part_of, steps_of, still_due, worker_of};

use crate::convert::Options;
use crate::turns::Turn;
use indexmap::IndexMap;
use slub_common::limits::ROUNDS_MAX;
use slub_common::no_memory::NoMemory;
use std::alloc::Global;

/// The workers of each round.
#[derive(Clone, Copy, Debug)]
pub enum Workers {
    /// Worker 0 does all.
    One,
    /// Each CPU has a worker, of its number.
    Cpus,
}

impl Workers {
    /// The worker of a CPU.
    fn of(&self, cpu: u32) -> u32
        ensures { result ≡ worker_of self.now cpu }
    {
        match self {
            Workers::One => 0,
            Workers::Cpus => cpu,
        }
    }

    /// How many they are, on so many CPUs.
    pub(crate) fn count(&self, cpus: u32) -> u32
        ensures { result ≡ count_workers self.now cpus }
    {
        match self {
            Workers::One => 1,
            Workers::Cpus => cpus,
        }
    }
}

/// What stands in the rounds of a trace.
#[derive(Clone, Copy, Debug)]
pub enum Step {
    /// A worker does this.
    Does { worker: u32, turn: Turn },
    /// A round ends and another begins, with slabinfo between them or not.
    Cut { slabinfo: bool },
}

/// How a trace is cut.
#[derive(Clone, Copy, Debug)]
pub struct Plan {
    pub workers: Workers,
    /// The parts with slabinfo behind each.
    pub parts: u32,
    /// The turns of all parts.
    pub turns: usize,
}

/// By object that was allocated in this round: the worker that holds it.
type Holders = IndexMap<u32, u32>;

/// The CPU of a turn.
fn cpu_of(turn: &Turn) -> u32
    ensures { result ≡ cpu_of turn.now }
{
    match *turn {
        Turn::Alloc { cpu, .. } | Turn::Free { cpu, .. } => cpu,
    }
}

/// Who does a turn.
fn doer(workers: &Workers, holders: &Holders, turn: &Turn) -> u32
    ensures { result ≡ doer workers.now holders.now.entries turn.now }
{
    match *turn {
        Turn::Alloc { cpu, .. } => workers.of(cpu),
        Turn::Free { cpu, object } => holders.get(&object).copied().unwrap_or(workers.of(cpu)),
    }
}

/// Whether a step is of another worker than that of its CPU.
pub(crate) fn is_by_holder(workers: &Workers, step: &Step) -> bool {
    match step {
        Step::Does { worker, turn } => *worker != workers.of(cpu_of(turn)),
        Step::Cut { .. } => false,
    }
}

/// Whether a turn is no other worker's than that of its CPU.
fn is_own(workers: &Workers, holders: &Holders, turn: &Turn) -> bool
    ensures { result ≡ is_own workers.now holders.now.entries turn.now }
{
    doer(workers, holders, turn) == workers.of(cpu_of(turn))
}

/// The part that the turn at a place is in.
fn part_of(plan: &Plan, place: usize) -> u128
    ensures { result ≡ part_of plan.now place }
{
    if plan.turns == 0 {
        return 0;
    }
    place as u128 * u128::from(plan.parts) / plan.turns as u128
}

/// Whether a part begins at a place.
fn is_due(plan: &Plan, place: usize) -> bool
    ensures { result ≡ is_due plan.now place }
{
    place != 0 && part_of(plan, place - 1) < part_of(plan, place)
}

/// How many parts begin behind a place.
fn still_due(plan: &Plan, place: usize) -> u128
    ensures { result ≡ still_due plan.now place }
{
    u128::from(plan.parts)
        .saturating_sub(1)
        .saturating_sub(part_of(plan, place))
}

/// Whether a round begins before a turn, and with slabinfo before it.
fn cut_at(plan: &Plan, place: usize, left: u32, holders: &Holders, turn: &Turn) -> Option<bool>
    ensures { result ≡ cut_at plan.now place left holders.now.entries turn.now }
{
    if 0 < left && is_due(plan, place) {
        return Some(true);
    }
    if !is_own(&plan.workers, holders, turn) && still_due(plan, place) < u128::from(left) {
        return Some(false);
    }
    None
}

/// How many rounds may begin behind that.
fn left_behind(cut: Option<bool>, left: u32) -> u32
    ensures { result ≡ left_behind cut left }
{
    match cut {
        None => left,
        Some(_) => left.saturating_sub(1),
    }
}

/// Ends the round, where another begins.
fn push_cut(steps: &mut Vec<Step>, holders: &mut Holders, cut: Option<bool>) -> Result<(), NoMemory>
    ensures steps { OnOk result (steps.new.items ≡ steps.old.items ++ cuts_of cut) }
    ensures holders { OnOk result (holders.new.entries ≡ holders_in cut holders.old.entries) }
{
    if let Some(slabinfo) = cut {
        steps.push(Step::Cut { slabinfo })?;
        holders.clear();
    }
    Ok(())
}

/// Notes who holds what behind a turn.
fn hold(workers: &Workers, holders: &mut Holders, turn: &Turn) -> Result<(), NoMemory>
    ensures { OnOk result (holders.new.entries ≡ holders_behind workers.now holders.old.entries turn.now) }
{
    if let Turn::Alloc { cpu, object, .. } = *turn {
        holders.insert(object, workers.of(cpu))?;
    }
    Ok(())
}

/// Puts a turn behind others, and a round before it where one begins.
fn push_steps(
    steps: &mut Vec<Step>,
    holders: &mut Holders,
    workers: &Workers,
    cut: Option<bool>,
    turn: &Turn,
) -> Result<(), NoMemory>
    ensures steps { OnOk result (steps.new.items ≡ steps.old.items
        ++ cuts_of cut ++ Done (doer workers.now (holders_in cut holders.old.entries) turn.now) turn.now ∷ []) }
    ensures holders { OnOk result (holders.new.entries
        ≡ holders_behind workers.now (holders_in cut holders.old.entries) turn.now) }
{
    push_cut(steps, holders, cut)?;
    let worker = doer(workers, holders, turn);
    steps.push(Step::Does {
        worker,
        turn: *turn,
    })?;
    hold(workers, holders, turn)
}

/// What stands in the rounds of a trace that does this.
pub fn steps_of(alloc: Global, options: &Options, turns: &[Turn]) -> Result<Vec<Step>, NoMemory>
    ensures { IfOk result (λ steps. steps.items ≡ steps_of options.now turns.now) }
{
    let plan = Plan {
        workers: options.workers,
        parts: options.parts,
        turns: turns.len(),
    };
    let mut steps = Vec::with_capacity(alloc, turns.len())?;
    let mut holders = IndexMap::new(alloc);
    let mut left = ROUNDS_MAX - 1;
    for (place, turn) in turns.iter().enumerate() {
        let cut = cut_at(&plan, place, left, &holders, turn);
        left = left_behind(cut, left);
        push_steps(&mut steps, &mut holders, &plan.workers, cut, turn)?;
    }
    Ok(steps)
}
