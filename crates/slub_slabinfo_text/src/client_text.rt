//! The text of clients' lines.

ghost use Rattle.std.specs.Prelude.{◌≡◌, ◌++◌, codes, flat_map, IfOk, OnOk};
ghost use Rattle.std.specs.List.{zip};
ghost use Rattle.slub_slabinfo_text.specs.ClientText.{answer_words, answered_text, client_line, client_text, client_words, creation_text, frees_all, is_ok_client, refusal_words};
ghost use Rattle.slub_slabinfo_text.specs.Lines.{found_text};

use crate::client::{CacheRefusal, ClientAnswer, ClientDone, ClientRound};
use crate::journal_text::{self as text, created_answer, push_damages};
use crate::names::class_names;
use crate::text::ItemWord;
use slub_common::no_memory::NoMemory;
use slub_object_layout::name::Name;
use slub_trace::create::{CreateRefusal, Created};
use slub_trace::trace::Client;
use std::alloc::Global;

/// The lines of a client's line: what it is answered, and then what was found damaged in its rounds.
/// Those that say that all went well only with `replies`.
pub fn client_text(
    alloc: Global,
    client: &Client,
    done: &ClientDone,
    replies: bool,
) -> Result<Vec<u8>, NoMemory>
    ensures { IfOk result (λ text. text.items ≡ client_text replies client.now done.now) }
{
    let mut text = answered_text(alloc, client, &done.answer, replies)?;
    let damages = rounds_text(alloc, done.rounds.as_slice())?;
    text.extend_from_slice(damages.as_slice())?;
    Ok(text)
}

/// These lines are put behind a text.
pub fn push_client(
    alloc: Global,
    text: &mut Vec<u8>,
    client: &Client,
    done: &ClientDone,
    replies: bool,
) -> Result<(), NoMemory>
    ensures { OnOk result (text.new.items ≡
        text.old.items ++ client_text replies client.now done.now) }
{
    let lines = client_text(alloc, client, done, replies)?;
    text.extend_from_slice(lines.as_slice())?;
    Ok(())
}

/// What was found damaged in rounds, in their order.
fn rounds_text(alloc: Global, rounds: &[ClientRound]) -> Result<Vec<u8>, NoMemory>
    ensures { IfOk result (λ text. text.items
        ≡ flat_map (λ round. flat_map found_text round.result.damages) rounds.now) }
{
    let mut text = Vec::new(alloc);
    for round in rounds {
        push_damages(&mut text, round.result.damages.as_slice())?;
    }
    Ok(text)
}

/// The lines of an answer: for a `kmalloc` one for each class, in rising order of the classes.
fn answered_text(
    alloc: Global,
    client: &Client,
    answer: &ClientAnswer,
    replies: bool,
) -> Result<Vec<u8>, NoMemory>
    ensures { IfOk result (λ text. text.items ≡ answered_text replies client.now answer.now) }
{
    if let ClientAnswer::Created(answers) = answer {
        return creations_text(alloc, &class_names(), answers.as_slice(), replies);
    }
    if replies || !is_ok_client(client, answer) {
        client_line(alloc, client, answer)
    } else {
        Ok(Vec::new(alloc))
    }
}

/// The lines of the creations of caches of these names.
fn creations_text(
    alloc: Global,
    names: &[Name],
    answers: &[Result<Created, CreateRefusal>],
    replies: bool,
) -> Result<Vec<u8>, NoMemory>
    ensures { IfOk result (λ text. text.items
        ≡ flat_map (creation_text replies) (zip names.now answers.now)) }
{
    let mut text = Vec::new(alloc);
    for (name, made) in names.iter().zip(answers) {
        let line = creation_text(alloc, name, made, replies)?;
        text.extend_from_slice(line.as_slice())?;
    }
    Ok(text)
}

/// The line of a creation, if it is to be written.
fn creation_text(
    alloc: Global,
    name: &Name,
    made: &Result<Created, CreateRefusal>,
    replies: bool,
) -> Result<Vec<u8>, NoMemory>
    ensures { IfOk result (λ text. text.items ≡ creation_text replies (name.now, made.now)) }
{
    let answer = created_answer(made);
    let mut text = Vec::new(alloc);
    text::push_answer(&mut text, ItemWord::Cache, name, &answer, replies)?;
    Ok(text)
}

/// Whether an answer is no refusal: its line is written with `--replies` alone.
pub fn is_ok_client(client: &Client, answer: &ClientAnswer) -> bool
    ensures { result ≡ is_ok_client client.now answer.now }
{
    match answer {
        ClientAnswer::BulkFreed(freed) => frees_all(client, *freed),
        ClientAnswer::Given(_)
        | ClientAnswer::Stays
        | ClientAnswer::Moved(_)
        | ClientAnswer::All
        | ClientAnswer::Made
        | ClientAnswer::Lent { .. }
        | ClientAnswer::Kept
        | ClientAnswer::Freed(_) => true,
        _ => false,
    }
}

/// Whether so many numbers were freed as a `bulkfree` names.
fn frees_all(client: &Client, freed: u32) -> bool
    ensures { result ≡ frees_all client.now freed }
{
    match client {
        Client::Bulkfree { count, .. } => freed == *count,
        _ => false,
    }
}

/// The line of a client's answer, with its line feed.
fn client_line(alloc: Global, client: &Client, answer: &ClientAnswer) -> Result<Vec<u8>, NoMemory>
    ensures { IfOk result (λ text. text.items ≡ client_line client.now answer.now) }
{
    let mut text = client_words(alloc, client)?;
    push_words(&mut text, b": ")?;
    push_answer(alloc, &mut text, answer)?;
    push_words(&mut text, b"\n")?;
    Ok(text)
}

/// What a client's line begins with.
fn client_words(alloc: Global, client: &Client) -> Result<Vec<u8>, NoMemory>
    ensures { IfOk result (λ text. text.items ≡ client_words client.now) }
{
    match client {
        Client::Kmalloc => Ok(Vec::from_slice(alloc, b"kmalloc")?),
        Client::Kget { object, .. } => Ok(format!(in alloc; "kget {object}")?.into_bytes()),
        Client::Krealloc { object, .. } => Ok(format!(in alloc; "krealloc {object}")?.into_bytes()),
        Client::Bulk { first, count, .. } => {
            Ok(format!(in alloc; "bulk {first} {count}")?.into_bytes())
        }
        Client::Bulkfree { first, count, .. } => {
            Ok(format!(in alloc; "bulkfree {first} {count}")?.into_bytes())
        }
        Client::Mempool { pool, .. } => pool_words(alloc, pool),
        Client::Mget { object, .. } => Ok(format!(in alloc; "mget {object}")?.into_bytes()),
        Client::Mput { object, .. } => Ok(format!(in alloc; "mput {object}")?.into_bytes()),
    }
}

/// What the line of a `mempool` begins with.
fn pool_words(alloc: Global, pool: &Name) -> Result<Vec<u8>, NoMemory>
    ensures { IfOk result (λ text. text.items ≡ codes "mempool " ++ pool.now) }
{
    let mut text = Vec::from_slice(alloc, b"mempool ")?;
    push_words(&mut text, pool.as_bytes())?;
    Ok(text)
}

/// What a client's line is answered.
fn push_answer(alloc: Global, text: &mut Vec<u8>, answer: &ClientAnswer) -> Result<(), NoMemory>
    ensures { OnOk result (text.new.items ≡ text.old.items ++ answer_words answer.now) }
{
    match answer {
        ClientAnswer::Created(_) => Ok(()),
        ClientAnswer::TooLarge => push_words(text, b"too large"),
        ClientAnswer::Given(address) => {
            push_words(text, format!(in alloc; "given {address}")?.as_bytes())
        }
        ClientAnswer::Refused(why) => push_refusal(alloc, text, why),
        ClientAnswer::NotHeld => push_words(text, b"not held"),
        ClientAnswer::NotKmalloc => push_words(text, b"not kmalloc"),
        ClientAnswer::Stays => push_words(text, b"stays"),
        ClientAnswer::Moved(address) => {
            push_words(text, format!(in alloc; "moved {address}")?.as_bytes())
        }
        ClientAnswer::All => push_words(text, b"all"),
        ClientAnswer::Nothing(why) => push_none(alloc, text, why),
        ClientAnswer::NotHeldOf(object) => {
            push_words(text, format!(in alloc; "not held {object}")?.as_bytes())
        }
        ClientAnswer::BulkFreed(freed) => {
            push_words(text, format!(in alloc; "freed {freed}")?.as_bytes())
        }
        ClientAnswer::Taken => push_words(text, b"taken"),
        ClientAnswer::TooMany => push_words(text, b"too many"),
        ClientAnswer::Made => push_words(text, b"made"),
        ClientAnswer::NoPool => push_words(text, b"no pool"),
        ClientAnswer::Lent { object, address } => {
            push_words(
                text,
                format!(in alloc; "lent {object} {address}")?.as_bytes(),
            )
        }
        ClientAnswer::WrongCache => push_words(text, b"wrong cache"),
        ClientAnswer::InReserve => push_words(text, b"in reserve"),
        ClientAnswer::Kept => push_words(text, b"kept"),
        ClientAnswer::Freed(address) => {
            push_words(text, format!(in alloc; "freed {address}")?.as_bytes())
        }
        ClientAnswer::Corrupt => push_words(text, b"corrupt"),
    }
}

/// That nothing was given, and why.
fn push_none(alloc: Global, text: &mut Vec<u8>, why: &CacheRefusal) -> Result<(), NoMemory>
    ensures { OnOk result (text.new.items ≡
        text.old.items ++ answer_words (ClientAnswer.Nothing why.now)) }
{
    push_words(text, b"none ")?;
    push_refusal(alloc, text, why)
}

/// Why a cache gave no object.
fn push_refusal(alloc: Global, text: &mut Vec<u8>, why: &CacheRefusal) -> Result<(), NoMemory>
    ensures { OnOk result (text.new.items ≡ text.old.items ++ refusal_words why.now) }
{
    match why {
        CacheRefusal::NoFrames => push_words(text, b"no frames"),
        CacheRefusal::IdsSpent(tid) => {
            push_words(text, format!(in alloc; "ids spent {tid}")?.as_bytes())
        }
        CacheRefusal::NoSuchCache => push_words(text, b"no such cache"),
    }
}

fn push_words(text: &mut Vec<u8>, words: &[u8]) -> Result<(), NoMemory>
    ensures { OnOk result (text.new.items ≡ text.old.items ++ words.now) }
{
    text.extend_from_slice(words)?;
    Ok(())
}
