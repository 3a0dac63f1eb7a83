//! What a log keeps while a round is made: all but where it writes to.

ghost use Rattle.std.specs.Prelude.{◌≡◌, ◌++◌, ◌≢◌, None, Some, OnOk, IfErr, IfOk, flat_map};
ghost use Rattle.slub_core.specs.Values.{values_of};
ghost use Rattle.slub_turns.specs.Happenings.{Begins, Steps, Advances, Changing, Changed, Rests};
ghost use Rattle.slub_round_log.specs.Log.{IsAlike, IsNoted, IsPut, Notes, first_lines};
ghost use Rattle.slub_round_log.specs.Told.{reply_line};

use crate::choice::Choice;
use crate::context::{Context, is_wait};
use slub_common::no_memory::NoMemory;
use slub_core::guarded::Guarded;
use slub_core::setup::Setup;
use slub_core::step::{Answer, Step};
use slub_core::worker_local::Local;
use slub_picks::made::Made;
use slub_picks::walk::Misfit;
use slub_trace::reply::Reply;
use slub_turn_text::answers::{push_answer, push_answers};
use slub_turn_text::change::push_change;
use slub_turn_text::hands::push_hands;
use slub_turn_text::labels::Labels;
use slub_turn_text::turns::push_turn;

/// Why nothing more is written.
#[derive(Clone, Copy, Debug, PartialEq, Eq)]
pub enum Fault {
    NoMemory,
    Write,
}

/// Why a round is ended before its time.
#[derive(Clone, Copy, Debug, PartialEq, Eq)]
pub enum Halt {
    Failed(Fault),
    /// The part of the list of picks doesn't fit.
    Unfit(Misfit),
}

/// What a log keeps.
#[derive(Debug, Drop)]
pub struct Kept<'a> {
    pub labels: Labels,
    pub choice: Choice<'a>,
    /// Whether the lines are written.
    pub is_shown: bool,
    /// The lines that aren't written yet.
    pub lines: Vec<u8>,
    pub context: Context,
    pub made: Made,
    /// The turn that is made has lost an exchange of a lock.
    pub waits: bool,
    /// Since this came about nothing is noted, and nothing is written.
    pub fault: Option<Fault>,
}

/// The line of a reply, if there is one.
fn push_reply(
    lines: &mut Vec<u8>,
    labels: &Labels,
    local: &Local,
    reply: Option<Reply>,
) -> Result<(), NoMemory>
    ensures { OnOk result (lines.new.items ≡ lines.old.items ++ reply_line labels.now local.now reply) }
{
    match reply {
        Some(reply) => push_answer(lines, labels, local, &reply),
        None => Ok(()),
    }
}

/// The first answers of each worker.
fn push_first(lines: &mut Vec<u8>, labels: &Labels, locals: &[Local]) -> Result<(), NoMemory>
    ensures { OnOk result (lines.new.items ≡ lines.old.items ++ first_lines labels.now locals.now) }
{
    for local in locals {
        push_answers(lines, labels, local, 0)?;
    }
    Ok(())
}

// ---- what is heard, where there is memory

impl Kept<'_> {
    /// The turn of a worker begins.
    fn note_begin(&mut self, setup: &Setup, local: &Local) -> Result<(), NoMemory>
        requires { self.old.fault ≡ None }
        ensures noted { OnOk result (IsNoted setup.now self.old (Begins local.now) self.new) }
        ensures alike { IsAlike self.old self.new }
        ensures fault { self.new.fault ≡ None }
    {
        self.context.begins(local)?;
        self.made.push(usize::from(local.worker()))?;
        Ok(())
    }

    /// A step is made.
    fn note_step(
        &mut self,
        setup: &Setup,
        values: &[Guarded],
        local: &Local,
        step: Step,
        answer: Answer,
    ) -> Result<(), NoMemory>
        requires { self.old.fault ≡ None }
        ensures noted { OnOk result (IsNoted setup.now self.old (Steps (values_of values.now) local.now step answer) self.new) }
        ensures alike { IsAlike self.old self.new }
        ensures fault { self.new.fault ≡ None }
    {
        let worker = local.worker();
        let seen = self.context.seen_of(worker);
        let number = self.context.next_turn();
        push_turn(
            &mut self.lines,
            &self.labels,
            setup,
            seen,
            number,
            local,
            step,
            answer,
        )?;
        self.context.stepped(worker, step, answer);
        self.waits = is_wait(step, answer);
        Ok(())
    }

    /// The answer has led on.
    fn note_advance(
        &mut self,
        setup: &Setup,
        local: &Local,
        reply: Option<Reply>,
    ) -> Result<(), NoMemory>
        requires { self.old.fault ≡ None }
        ensures noted { OnOk result (IsNoted setup.now self.old (Advances local.now reply) self.new) }
        ensures alike { IsAlike self.old self.new }
        ensures fault { self.new.fault ≡ None }
    {
        push_reply(&mut self.lines, &self.labels, local, reply)
    }

    /// A change is done at once.
    fn note_change(
        &mut self,
        setup: &Setup,
        values: &[Guarded],
        local: &Local,
        reply: Option<Reply>,
    ) -> Result<(), NoMemory>
        requires { self.old.fault ≡ None }
        ensures noted { OnOk result (IsNoted setup.now self.old (Changed (values_of values.now) local.now reply) self.new) }
        ensures alike { IsAlike self.old self.new }
        ensures fault { self.new.fault ≡ None }
    {
        push_change(
            &mut self.lines,
            &self.labels,
            self.context.before(),
            setup,
            values,
            local,
            reply,
        )?;
        push_reply(&mut self.lines, &self.labels, local, reply)
    }

    /// The turn is at its end.
    fn note_rest(
        &mut self,
        setup: &Setup,
        values: &[Guarded],
        before: usize,
        local: &Local,
    ) -> Result<(), NoMemory>
        requires { self.old.fault ≡ None }
        ensures noted { OnOk result (IsNoted setup.now self.old (Rests (values_of values.now) before local.now) self.new) }
        ensures alike { IsAlike self.old self.new }
        ensures fault { self.new.fault ≡ None }
    {
        push_hands(&mut self.lines, &self.labels, self.context.hands(), local)?;
        push_answers(&mut self.lines, &self.labels, local, before)
    }
}

// ---- what is heard

impl Kept<'_> {
    /// Notes whether there was memory.
    fn settle(&mut self, done: Result<(), NoMemory>)
        requires { self.old.fault ≡ None }
        ensures fine { OnOk done (self.new ≡ self.old) }
        ensures rest { self.new ≡ record self.old { fault = self.new.fault } }
        ensures lacking { IfErr done (λ _. self.new.fault ≡ Some Fault.NoMemory) }
    {
        if let Err(NoMemory) = done {
            self.fault = Some(Fault::NoMemory);
        }
    }

    /// A round begins: puts the first answers of each worker behind the lines that aren't written yet.
    pub fn put_first(&mut self, locals: &[Local])
        requires { self.old.fault ≡ None }
        ensures { IsPut self.old (first_lines self.old.labels locals.now) self.new }
    {
        let done = push_first(&mut self.lines, &self.labels, locals);
        self.settle(done);
    }

    /// The turn of a worker begins.
    pub fn begins(&mut self, setup: &Setup, local: &Local)
        ensures { Notes setup.now self.old (Begins local.now) self.new }
    {
        if self.fault.is_none() {
            let done = self.note_begin(setup, local);
            self.settle(done);
        }
    }

    /// A step is made.
    pub fn stepped(
        &mut self,
        setup: &Setup,
        values: &[Guarded],
        local: &Local,
        step: Step,
        answer: Answer,
    )
        ensures { Notes setup.now self.old (Steps (values_of values.now) local.now step answer) self.new }
    {
        if self.fault.is_none() {
            let done = self.note_step(setup, values, local, step, answer);
            self.settle(done);
        }
    }

    /// The answer has led on.
    pub fn advanced(&mut self, setup: &Setup, local: &Local, reply: Option<Reply>)
        ensures { Notes setup.now self.old (Advances local.now reply) self.new }
    {
        if self.fault.is_none() {
            let done = self.note_advance(setup, local, reply);
            self.settle(done);
        }
    }

    /// Something is done at once next.
    pub fn changing(&mut self, setup: &Setup, values: &[Guarded], local: &Local)
        ensures { Notes setup.now self.old (Changing (values_of values.now) local.now) self.new }
    {
        if self.fault.is_none() {
            self.context.changing(values, local);
        }
    }

    /// That is done.
    pub fn changed(
        &mut self,
        setup: &Setup,
        values: &[Guarded],
        local: &Local,
        reply: Option<Reply>,
    )
        ensures { Notes setup.now self.old (Changed (values_of values.now) local.now reply) self.new }
    {
        if self.fault.is_none() {
            let done = self.note_change(setup, values, local, reply);
            self.settle(done);
        }
    }

    /// The turn is at its end.
    pub fn rested(&mut self, setup: &Setup, values: &[Guarded], before: usize, local: &Local)
        ensures { Notes setup.now self.old (Rests (values_of values.now) before local.now) self.new }
    {
        if self.fault.is_none() {
            let done = self.note_rest(setup, values, before, local);
            self.settle(done);
        }
    }
}
