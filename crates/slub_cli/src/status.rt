//! How a run ended, and what it leaves.

ghost use Rattle.std.specs.Prelude.{◌≡◌, not};
ghost use Rattle.std.specs.List.{list_any, zip};
ghost use Rattle.slub_trace.specs.Kinds.{is_no_memory, is_ok_reply};
ghost use Rattle.slub_cli.specs.Run.{answer_status, done_status, has_damage, has_refused, is_err, is_refused_client, items_in, lacks_memory, refuses_client};

use slub_object_layout::layout::{Layout, LayoutRefusal};
use slub_slabinfo_text::client::{ClientAnswer, ClientDone, ClientRound};
use slub_slabinfo_text::client_text::is_ok_client;
use slub_slabinfo_text::journal::{Done, Journal};
use slub_trace::create::{CreateRefusal, Created};
use slub_trace::reply::{Kind, Reply};
use slub_trace::trace::{Client, Item, Trace};

/// How a run ended.
#[derive(Clone, Copy, Debug, PartialEq, Eq)]
pub enum Status {
    /// Everything was done, and nothing was refused or found damaged.
    Fine,
    /// Everything was done, and a creation, a shrink, a destruction, a tune, a client's line or a layout was
    /// refused, a reply isn't Ok, or an object was found damaged.
    Refused,
    /// The words are no command.
    BadWords,
    /// The bytes are no trace, or too many.
    BadTrace,
    /// A read failed.
    ReadFault,
    /// A write failed.
    WriteFault,
    /// Memory ran out, for the run or for one of its replies.
    NoMemory,
    /// All turns of a round were made, and a worker of it was unfinished. The round, or the client's line that made it,
    /// isn't in the journal.
    TurnsSpent,
}

impl Status {
    ghost use Rattle.slub_cli.specs.Run.{status_number};

    /// The number with which the program ends, 0 to 7.
    pub fn number(self) -> u8
        ensures { result ≡ status_number self }
    {
        match self {
            Status::Fine => 0,
            Status::Refused => 1,
            Status::BadWords => 2,
            Status::BadTrace => 3,
            Status::ReadFault => 4,
            Status::WriteFault => 5,
            Status::NoMemory => 6,
            Status::TurnsSpent => 7,
        }
    }
}

/// What a run leaves: how it ended, the trace that it read or made, and what it did.
#[derive(Debug, Drop)]
pub struct Outcome {
    pub status: Status,
    /// None where no trace was read or made.
    pub trace: Option<Trace>,
    /// Empty where no trace was read or made.
    pub journal: Journal,
}

/// Whether one of the replies is that no memory was there.
fn has_no_memory(replies: &[Reply]) -> bool
    ensures { result ≡ list_any is_no_memory replies.now }
{
    replies
        .iter()
        .any(|reply| matches!(reply.kind(), Kind::LacksMemory))
}

/// Whether one of the replies of an item is that no memory was there.
fn lacks_memory(done: &Done) -> bool
    ensures { result ≡ lacks_memory done.now }
{
    match done {
        Done::Round(result) => has_no_memory(result.replies.as_slice()),
        Done::Created(_)
        | Done::Shrunk(_)
        | Done::Destroyed(_)
        | Done::Slabinfo(_)
        | Done::Tuned(_)
        | Done::Client(_) => false,
    }
}

/// Whether one of the replies isn't Ok.
fn has_refusal(replies: &[Reply]) -> bool
    ensures { result ≡ list_any (λ reply. not (is_ok_reply reply)) replies.now }
{
    replies.iter().any(|reply| !reply.is_ok())
}

/// Whether a creation, a shrink, a destruction, a tune or a client's line was refused, a reply isn't Ok, or
/// an object was found damaged.
fn has_refused(item: &Item, done: &Done) -> bool
    ensures { result ≡ has_refused item.now done.now }
{
    match done {
        Done::Created(answer) => answer.is_err(),
        Done::Round(result) => {
            has_refusal(result.replies.as_slice()) || !result.damages.is_empty()
        }
        Done::Shrunk(answer) => answer.is_err(),
        Done::Destroyed(answer) => answer.is_err(),
        Done::Slabinfo(_) => false,
        Done::Tuned(answer) => answer.is_err(),
        Done::Client(outcome) => refuses_client(item, outcome),
    }
}

/// The same of a client's line.
fn refuses_client(item: &Item, outcome: &ClientDone) -> bool
    ensures { result ≡ refuses_client item.now outcome.now }
{
    match item {
        Item::Client(client) => {
            is_refused_client(client, &outcome.answer) || has_damage(outcome.rounds.as_slice())
        }
        _ => false,
    }
}

/// Whether a client's line was refused, or one of the creations of a `kmalloc`.
fn is_refused_client(client: &Client, answer: &ClientAnswer) -> bool
    ensures { result ≡ is_refused_client client.now answer.now }
{
    match answer {
        ClientAnswer::Created(answers) => has_refused_creation(answers.as_slice()),
        _ => !is_ok_client(client, answer),
    }
}

fn has_refused_creation(answers: &[Result<Created, CreateRefusal>]) -> bool
    ensures { result ≡ list_any is_err answers.now }
{
    answers.iter().any(|answer| answer.is_err())
}

/// Whether something was found damaged in one of these rounds.
fn has_damage(rounds: &[ClientRound]) -> bool
    ensures { result ≡ has_damage rounds.now }
{
    rounds.iter().any(|round| !round.result.damages.is_empty())
}

/// Whether one of the items lacks memory.
fn is_wanting(dones: &[Done]) -> bool
    ensures { result ≡ list_any lacks_memory dones.now }
{
    dones.iter().any(|done| lacks_memory(done))
}

/// Whether one of the items was refused.
fn is_refused(items: &[Item], dones: &[Done]) -> bool
    ensures { result ≡ list_any (λ one. has_refused one.0 one.1) (zip items.now dones.now) }
{
    for (item, done) in items.iter().zip(dones) {
        if has_refused(item, done) {
            return true;
        }
    }
    false
}

/// The items of the trace that was read or made, or none.
fn items_in(trace: &Option<Trace>) -> &[Item]
    ensures { result.now ≡ items_in trace.now }
{
    match trace {
        Some(trace) => trace.items.as_slice(),
        None => &[],
    }
}

/// The status of a run that did every item.
pub fn done_status(trace: &Option<Trace>, journal: &Journal) -> Status
    ensures { result ≡ done_status trace.now journal.now }
{
    if is_wanting(journal.items.as_slice()) {
        Status::NoMemory
    } else if is_refused(items_in(trace), journal.items.as_slice()) {
        Status::Refused
    } else {
        Status::Fine
    }
}

/// The status with which a layout is printed, or its refusal.
pub(crate) fn answer_status(answer: &Result<Layout, LayoutRefusal>) -> Status
    ensures { result ≡ answer_status answer.now }
{
    match answer {
        Ok(_) => Status::Fine,
        Err(_) => Status::Refused,
    }
}
