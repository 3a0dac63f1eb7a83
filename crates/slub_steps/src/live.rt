//! The live names, and what items do to them.

ghost use Rattle.std.specs.Prelude.{◌≡◌, OnOk, option_copied, slice_get};
ghost use Rattle.slub_steps.specs.Live.{live_after, live_all, live_created, live_destroyed, live_served};

use slub_common::no_memory::NoMemory;
use slub_object_layout::name::Name;
use slub_slabinfo_text::client::ClientAnswer;
use slub_slabinfo_text::journal::Done;
use slub_slabinfo_text::names::class_names;
use slub_state_text::names::LiveNames;
use slub_trace::create::{CreateRefusal, Created};
use slub_trace::trace::{Item, Trace};

/// The name at a place of the trace's names.
fn name_at(trace: &Trace, place: u32) -> Option<&Name>
    ensures { option_copied result ≡ slice_get trace.now.names place }
{
    trace.names.as_slice().get(place as usize)
}

/// A creation under a name was answered.
fn created(
    live: &mut LiveNames,
    name: Option<&Name>,
    answer: &Result<Created, CreateRefusal>,
) -> Result<(), NoMemory>
    ensures { OnOk result (live.new ≡ live_created live.old (option_copied name.entry) answer.now) }
{
    match (name, answer) {
        (Some(name), Ok(Created::New(cache) | Created::Merged { cache, title: _ })) => {
            live.add(name, *cache)
        }
        _ => Ok(()),
    }
}

/// Creations under these names were answered, one after the other.
fn all_created(
    live: &mut LiveNames,
    names: &[Name],
    answers: &[Result<Created, CreateRefusal>],
) -> Result<(), NoMemory>
    ensures { OnOk result (live.new ≡ live_all live.old names.now answers.now) }
{
    for (name, answer) in names.iter().zip(answers) {
        created(live, Some(name), answer)?;
    }
    Ok(())
}

/// A client's line was answered: `kmalloc` creates the caches of the classes, in rising order.
fn served(live: &mut LiveNames, answer: &ClientAnswer) -> Result<(), NoMemory>
    ensures { OnOk result (live.new ≡ live_served live.old answer.now) }
{
    match answer {
        ClientAnswer::Created(answers) => all_created(live, &class_names(), answers.as_slice()),
        _ => Ok(()),
    }
}

/// A name was destroyed.
fn destroyed(live: &mut LiveNames, name: Option<&Name>)
    ensures { live.new ≡ live_destroyed live.old (option_copied name.entry) }
{
    if let Some(name) = name {
        live.remove(name);
    }
}

/// An item was done.
pub fn note(live: &mut LiveNames, trace: &Trace, item: &Item, done: &Done) -> Result<(), NoMemory>
    ensures { OnOk result (live.new ≡ live_after trace.now live.old item.now done.now) }
{
    match (item, done) {
        (Item::Cache { name, spec: _ }, Done::Created(answer)) => {
            created(live, name_at(trace, *name), answer)
        }
        (Item::Destroy { name }, Done::Destroyed(Ok(_))) => {
            destroyed(live, name_at(trace, *name));
            Ok(())
        }
        (Item::Client(_), Done::Client(outcome)) => served(live, &outcome.answer),
        _ => Ok(()),
    }
}
