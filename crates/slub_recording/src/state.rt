//! What the lines above say, while a recording is read.

ghost use Rattle.std.specs.Prelude.{◌≡◌, ◌+◌, ◌<◌, ◌≤◌, ◌^◌, length, IfOk, OnOk};
ghost use Rattle.slub_recording.specs.Recording.{recorded, place_of, with_text, steps_back, capped_sum, is_before, act_of, sites_after, names_after, with_event, start, after, time_after, recorded_after};
ghost use Rattle.slub_recording.specs.State.{above, IsModest};

use crate::event::{KmemAct, KmemEvent};
use crate::line::{Said, SaidAct, Time};
use crate::recording::Recording;
use crate::site::Site;
use indexmap::IndexSet;
use slub_common::sequence::Sequence;
use slub_object_layout::name::Name;
use std::alloc::{AllocError, Global};

/// What some lines say.
#[derive(Drop)]
pub(crate) struct State {
    /// How many lines there are.
    pub(crate) lines: u32,
    /// The time of the last event.
    pub(crate) time: Option<Time>,
    pub(crate) recording: Recording,
}

/// Whether one time is before another.
fn precedes(t: Time, u: Time) -> bool
    ensures { result ≡ is_before t u }
{
    t.whole < u.whole || (t.whole == u.whole && t.part < u.part)
}

/// 1 where an event is before the one above it.
fn step_back(time: Time, last: Option<Time>) -> u64
    ensures value { result ≡ steps_back time last }
    ensures small { result ≤ 1 }
{
    match last {
        Some(t) => { if precedes(time, t) { 1 } else { 0 } }
        None => 0,
    }
}

/// Puts a site among others, and answers its place.
fn put_site(sites: &mut IndexSet<Site>, site: Site) -> Result<u32, AllocError>
    requires { length sites.old.keys < 2 ^ 32 }
    ensures keys { OnOk result (sites.new.keys ≡ with_text sites.old.keys site) }
    ensures place { IfOk result (λ place. place ≡ place_of site sites.old.keys) }
{
    let (place, _) = sites.insert_full(site)?;
    Ok(place as u32)
}

/// Puts a name among others, and answers its place.
fn put_name(names: &mut IndexSet<Name>, name: Name) -> Result<u32, AllocError>
    requires { length names.old.keys < 2 ^ 32 }
    ensures keys { OnOk result (names.new.keys ≡ with_text names.old.keys name) }
    ensures place { IfOk result (λ place. place ≡ place_of name names.old.keys) }
{
    let (place, _) = names.insert_full(name)?;
    Ok(place as u32)
}

/// An act with the places of its texts, which are put where they are new.
fn put_act(
    sites: &mut IndexSet<Site>,
    names: &mut IndexSet<Name>,
    act: SaidAct,
) -> Result<KmemAct, AllocError>
    requires sites { length sites.old.keys < 2 ^ 32 }
    requires names { length names.old.keys < 2 ^ 32 }
    ensures act { IfOk result (λ a. a ≡ act_of sites.old.keys names.old.keys act) }
    ensures sites { OnOk result (sites.new.keys ≡ sites_after sites.old.keys act) }
    ensures names { OnOk result (names.new.keys ≡ names_after names.old.keys act) }
{
    match act {
        SaidAct::CacheAlloc { asked, slot, site } => {
            let site = put_site(sites, site)?;
            Ok(KmemAct::CacheAlloc { asked, slot, site })
        }
        SaidAct::Kmalloc { slot, kind } => Ok(KmemAct::Kmalloc { slot, kind }),
        SaidAct::CacheFree { name: None } => Ok(KmemAct::CacheFree { name: None }),
        SaidAct::CacheFree { name: Some(name) } => {
            let name = put_name(names, name)?;
            Ok(KmemAct::CacheFree { name: Some(name) })
        }
        SaidAct::Kfree => Ok(KmemAct::Kfree),
    }
}

/// One event more.
#[tactic(auto, unfolding(crate::specs::Recording::recorded))]
fn put_event(r: &mut Recording, cpu: u32, pointer: u64, act: SaidAct) -> Result<(), AllocError>
    requires sites { length (recorded r.old).sites < 2 ^ 32 }
    requires names { length (recorded r.old).names < 2 ^ 32 }
    ensures { OnOk result (recorded r.new ≡ with_event (recorded r.old) cpu pointer act) }
{
    let act = put_act(&mut r.sites, &mut r.names, act)?;
    r.events.push(KmemEvent { pointer, cpu, act })?;
    r.greatest_cpu = r.greatest_cpu.max(cpu);
    Ok(())
}

/// One step back more, or none.
#[tactic(auto, unfolding(crate::specs::Recording::recorded))]
fn put_back(r: &mut Recording, back: u64)
    requires { (recorded r.old).back + back < 2 ^ 64 }
    ensures { recorded r.new ≡ record (recorded r.old) { back = (recorded r.old).back + back } }
{
    r.back += back;
}

/// One event of another kind more.
#[tactic(auto, unfolding(crate::specs::Recording::recorded))]
fn put_other(r: &mut Recording)
    requires { (recorded r.old).others < 2 ^ 63 }
    ensures { recorded r.new ≡ record (recorded r.old) { others = (recorded r.old).others + 1 } }
{
    r.others += 1;
}

/// The CPUs that a line tells, and the events that were overwritten or lost.
#[tactic(auto, unfolding(crate::specs::Recording::recorded))]
fn put_cpus(r: &mut Recording, cpus: u32)
    ensures { recorded r.new ≡ record (recorded r.old) { told_cpus = Some cpus } }
{
    r.told_cpus = Some(cpus);
}

#[tactic(auto, unfolding(crate::specs::Recording::recorded))]
fn put_overwritten(r: &mut Recording, count: u64)
    ensures { recorded r.new ≡ record (recorded r.old) { overwritten = capped_sum (recorded r.old).overwritten count } }
{
    r.overwritten = r.overwritten.saturating_add(count);
}

#[tactic(auto, unfolding(crate::specs::Recording::recorded))]
fn put_lost(r: &mut Recording, count: u64)
    ensures { recorded r.new ≡ record (recorded r.old) { lost = capped_sum (recorded r.old).lost count } }
{
    r.lost = r.lost.saturating_add(count);
}

impl State {
    /// No lines.
    #[tactic(auto, unfolding(crate::specs::Recording::recorded))]
    pub(crate) fn new(alloc: Global) -> State
        ensures { above result ≡ start }
    {
        State {
            lines: 0,
            time: None,
            recording: Recording {
                events: Sequence::new(alloc),
                sites: IndexSet::new(alloc),
                names: IndexSet::new(alloc),
                told_cpus: None,
                greatest_cpu: 0,
                overwritten: 0,
                lost: 0,
                back: 0,
                others: 0,
            },
        }
    }

    /// Puts what a line says. The line isn't counted yet.
    #[tactic(auto, unfolding(crate::specs::Recording::recorded_after))]
    fn put(&mut self, said: Said) -> Result<(), AllocError>
        requires modest { IsModest (above self.old) }
        ensures lines { self.new.lines ≡ self.old.lines }
        ensures time { OnOk result (self.new.time ≡ time_after self.old.time said) }
        ensures recorded { OnOk result (recorded self.new.recording ≡ recorded_after (above self.old) said) }
    {
        let r = &mut self.recording;
        match said {
            Said::Passed => Ok(()),
            Said::Cpus { cpus } => {
                put_cpus(r, cpus);
                Ok(())
            }
            Said::Buffer { overwritten, cpus } => {
                put_cpus(r, cpus);
                put_overwritten(r, overwritten);
                Ok(())
            }
            Said::Lost { count } => {
                put_lost(r, count);
                Ok(())
            }
            Said::Other { time } => {
                put_back(r, step_back(time, self.time));
                put_other(r);
                self.time = Some(time);
                Ok(())
            }
            Said::Kmem {
                cpu,
                time,
                pointer,
                act,
            } => {
                put_event(r, cpu, pointer, act)?;
                put_back(r, step_back(time, self.time));
                self.time = Some(time);
                Ok(())
            }
        }
    }

    /// Takes a line.
    pub(crate) fn take(&mut self, said: Said) -> Result<(), AllocError>
        requires modest { IsModest (above self.old) }
        requires room { self.old.lines < 2 ^ 28 }
        ensures taken { OnOk result (above self.new ≡ after (above self.old) said) }
        ensures modest { OnOk result (IsModest (above self.new)) }
    {
        self.put(said)?;
        self.lines += 1;
        Ok(())
    }
}
