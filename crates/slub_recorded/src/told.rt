//! What is told of a conversion, in comments at the top of the trace.

ghost use Rattle.std.specs.Prelude.{◌≡◌, ◌∷◌, ◌++◌, [], flat_map, All, IfOk, OnOk};
ghost use Rattle.slub_recorded.specs.Comments.{IsNote};
ghost use Rattle.slub_recorded.specs.declared.told.Note.TheVariants.{Count as Counted, Of as ToldOf};
ghost use Rattle.slub_recorded.specs.Told.{about_text, count_fate, fate_notes, note_text, EndsIn, IsCount, Tells, word_text};

use crate::naming::{Namer, Title};
use crate::pairing::Fate;
use crate::text::{push_numbered, push_words};
use slub_common::no_memory::NoMemory;
use slub_object_layout::name::Name;
use slub_recording::event::{KmemAct, KmemEvent, KmemKind};
use slub_recording::recording::Recording;
use std::alloc::Global;

/// What is counted.
#[derive(Clone, Copy, Debug)]
pub enum Word {
    /// Allocations of objects.
    Given,
    /// Events that were overwritten before the text begins.
    Overwritten,
    /// Events that were lost within.
    Lost,
    /// Events whose time is before that of the event above.
    Back,
    /// Events of other kinds.
    Others,
    /// Objects named by the slot and the kind of their kmalloc, and so on.
    ByKmalloc,
    ByFree,
    BySite,
    BySizes,
    /// Allocations whose pointer is 0.
    Failed,
    PagesGiven,
    Freed,
    /// Frees whose pointer is 0.
    OfNothing,
    PagesFreed,
    CacheUnknown,
    Unknown,
    /// Frees that weren't recorded.
    PutIn,
    /// Objects that live at the end.
    Live,
    /// Allocations and frees of the group's objects, and of all.
    KeptMoves,
    Moves,
    KeptCaches,
    Caches,
    LeftOut,
    Group,
    Groups,
    Cpus,
    /// Events of each kind.
    CacheAllocs,
    Kmallocs,
    CacheFrees,
    Kfrees,
    Rounds,
    /// Frees by another worker than that of their CPU.
    ByHolder,
    /// Settings that are for no cache of the group.
    NoCache,
}

impl Word {
    /// What is counted, in words.
    fn text(&self) -> &'static [u8]
        ensures { result.now ≡ word_text self.now }
    {
        match self {
            Word::Given => b"allocations of objects",
            Word::Overwritten => b"events overwritten before the text begins",
            Word::Lost => b"events lost within",
            Word::Back => b"events whose time goes back",
            Word::Others => b"other events",
            Word::ByKmalloc => b"allocations named by kmalloc size",
            Word::ByFree => b"allocations named by their free",
            Word::BySite => b"allocations named by their call site",
            Word::BySizes => b"allocations of unknown name, called slab-REQ-SLOT",
            Word::Failed => b"allocations that failed",
            Word::PagesGiven => b"kmalloc of whole pages",
            Word::Freed => b"frees matched",
            Word::OfNothing => b"frees of nothing",
            Word::PagesFreed => b"frees of whole pages",
            Word::CacheUnknown => {
                b"kmem_cache_free of a pointer that was not allocated in the recording"
            }
            Word::Unknown => b"kfree of a pointer that was not allocated in the recording",
            Word::PutIn => {
                b"frees that were not recorded, put before the next allocation of the pointer"
            }
            Word::Live => b"objects live at the end of the recording",
            Word::KeptMoves => b"events kept here",
            Word::Moves => b"events of objects",
            Word::KeptCaches => b"caches kept here",
            Word::Caches => b"caches",
            Word::LeftOut => b"caches that fit in no group, left out",
            Word::Group => b"group",
            Word::Groups => b"groups",
            Word::Cpus => b"CPUs, and CPU c is c modulo this",
            Word::CacheAllocs => b"kmem_cache_alloc",
            Word::Kmallocs => b"kmalloc",
            Word::CacheFrees => b"kmem_cache_free",
            Word::Kfrees => b"kfree",
            Word::Rounds => b"rounds",
            Word::ByHolder => {
                b"frees made by the worker that held the object, on the CPU that freed"
            }
            Word::NoCache => b"settings of no cache that is here",
        }
    }
}

/// What is told of a cache.
#[derive(Clone, Copy, Debug)]
pub enum About {
    /// Its frees of what the recording didn't allocate.
    UnknownFrees,
    /// Its slot, where another cache of that slot stands before it.
    Letter,
    /// Its objects, where it is in no group.
    LeftOutCache,
}

impl About {
    /// What is told, in words.
    fn text(&self) -> &'static [u8]
        ensures { result.now ≡ about_text self.now }
    {
        match self {
            About::UnknownFrees => {
                b"frees of pointers that were not allocated in the recording, "
            }
            About::Letter => b"slot of a cache whose R only keeps it from merging with another, ",
            About::LeftOutCache => b"objects of a cache that fits in no group, ",
        }
    }
}

/// A number that is told.
#[derive(Clone, Copy, Debug)]
pub enum Note {
    Count {
        word: Word,
        number: u64,
    },
    /// Of the cache of this name.
    Of {
        about: About,
        name: Name,
        number: u64,
    },
}

/// How much there is of what.
#[derive(Clone, Copy, Debug)]
pub struct Counts {
    pub objects: u64,
    pub moves: u64,
    /// The moves of kept objects.
    pub kept: u64,
    /// The caches of the trace.
    pub rows: u64,
    pub caches: u64,
    pub left_out: u64,
    pub group: u32,
    pub groups: u32,
    pub cpus: u32,
    pub rounds: u64,
    /// Frees by another worker than that of their CPU.
    pub by_holder: u64,
    /// Settings that are for no cache of the trace.
    pub no_cache: u64,
}

/// How many events had this fate.
fn count_fate(fates: &[Fate], fate: Fate) -> u64
    ensures { result ≡ count_fate fates.now fate }
{
    let code = fate.code();
    fates.iter().filter(|f| f.code() == code).count() as u64
}

/// How many objects this gave the names of their caches.
fn count_namer(titles: &[Title], namer: Namer) -> u64 {
    titles.iter().filter(|title| title.namer == namer).count() as u64
}

/// Tells a number.
#[tactic(auto, using(crate::proofs::Only::count_more))]
fn put(notes: &mut Vec<Note>, word: Word, number: u64) -> Result<(), NoMemory>
    ensures is { OnOk result (notes.new.items ≡ notes.old.items ++ Counted word number ∷ []) }
    ensures counts { All IsCount notes.old.items → OnOk result (All IsCount notes.new.items) }
{
    notes.push(Note::Count { word, number })?;
    Ok(())
}

/// Tells what became of events.
fn put_fates(notes: &mut Vec<Note>, fates: &[Fate]) -> Result<(), NoMemory>
    ensures is { OnOk result (notes.new.items ≡ notes.old.items ++ fate_notes fates.now) }
    ensures counts { All IsCount notes.old.items → OnOk result (All IsCount notes.new.items) }
{
    put(notes, Word::Given, count_fate(fates, Fate::Given))?;
    put(notes, Word::Failed, count_fate(fates, Fate::Failed))?;
    put(notes, Word::PagesGiven, count_fate(fates, Fate::PagesGiven))?;
    put(notes, Word::Freed, count_fate(fates, Fate::Freed))?;
    put(notes, Word::OfNothing, count_fate(fates, Fate::OfNothing))?;
    put(notes, Word::PagesFreed, count_fate(fates, Fate::PagesFreed))?;
    put(
        notes,
        Word::CacheUnknown,
        count_fate(fates, Fate::CacheUnknown),
    )?;
    put(notes, Word::Unknown, count_fate(fates, Fate::Unknown))?;
    Ok(())
}

/// Tells what gave names, and how much is kept.
fn put_counts(notes: &mut Vec<Note>, titles: &[Title], counts: &Counts) -> Result<(), NoMemory>
    ensures { All IsCount notes.old.items → OnOk result (All IsCount notes.new.items) }
{
    put(notes, Word::ByKmalloc, count_namer(titles, Namer::Kmalloc))?;
    put(notes, Word::ByFree, count_namer(titles, Namer::Free))?;
    put(notes, Word::BySite, count_namer(titles, Namer::Site))?;
    put(notes, Word::BySizes, count_namer(titles, Namer::Sizes))?;
    put(notes, Word::KeptMoves, counts.kept)?;
    put(notes, Word::Moves, counts.moves)?;
    put(notes, Word::KeptCaches, counts.rows)?;
    put(notes, Word::Caches, counts.caches)?;
    put(notes, Word::LeftOut, counts.left_out)?;
    put(notes, Word::Group, u64::from(counts.group))?;
    put(notes, Word::Groups, u64::from(counts.groups))?;
    put(notes, Word::Rounds, counts.rounds)?;
    put(notes, Word::ByHolder, counts.by_holder)?;
    put(notes, Word::NoCache, counts.no_cache)?;
    put(notes, Word::Cpus, u64::from(counts.cpus))
}

/// How many events there are of a kind.
fn count_kind(events: &[KmemEvent], kind: KmemKind) -> u64 {
    events.iter().filter(|e| kind_of(&e.act) == kind).count() as u64
}

/// The tracepoint of an event.
fn kind_of(act: &KmemAct) -> KmemKind {
    match act {
        KmemAct::CacheAlloc { .. } => KmemKind::CacheAlloc,
        KmemAct::Kmalloc { .. } => KmemKind::Kmalloc,
        KmemAct::CacheFree { .. } => KmemKind::CacheFree,
        KmemAct::Kfree => KmemKind::Kfree,
    }
}

/// Tells how many events there are of each kind.
fn put_kinds(notes: &mut Vec<Note>, events: &[KmemEvent]) -> Result<(), NoMemory>
    ensures { All IsCount notes.old.items → OnOk result (All IsCount notes.new.items) }
{
    put(
        notes,
        Word::CacheAllocs,
        count_kind(events, KmemKind::CacheAlloc),
    )?;
    put(notes, Word::Kmallocs, count_kind(events, KmemKind::Kmalloc))?;
    put(
        notes,
        Word::CacheFrees,
        count_kind(events, KmemKind::CacheFree),
    )?;
    put(notes, Word::Kfrees, count_kind(events, KmemKind::Kfree))
}

/// Tells what the recording says of itself, and what was put in and is left of it.
fn put_rest(
    notes: &mut Vec<Note>,
    recording: &Recording,
    fates: &[Fate],
    counts: &Counts,
) -> Result<(), NoMemory>
    ensures { All IsCount notes.old.items → OnOk result (All IsCount notes.new.items) }
{
    let frees = counts.moves.saturating_sub(counts.objects);
    let matched = count_fate(fates, Fate::Freed);
    put(notes, Word::Overwritten, recording.overwritten)?;
    put(notes, Word::Lost, recording.lost)?;
    put(notes, Word::Back, recording.back)?;
    put(notes, Word::Others, recording.others)?;
    put(notes, Word::PutIn, frees.saturating_sub(matched))?;
    put(notes, Word::Live, counts.objects.saturating_sub(frees))
}

/// What the comments tell.
pub(crate) fn tell(
    alloc: Global,
    recording: &Recording,
    fates: &[Fate],
    titles: &[Title],
    counts: &Counts,
    listed: &[Note],
) -> Result<Vec<Note>, NoMemory>
    ensures fates { IfOk result (λ notes. Tells notes.items fates.now) }
    ensures listed { IfOk result (λ notes. EndsIn notes.items listed.now) }
{
    let mut notes = Vec::new(alloc);
    put_fates(&mut notes, fates)?;
    let mut more = Vec::new(alloc);
    put_kinds(&mut more, recording.events.as_slice())?;
    put_counts(&mut more, titles, counts)?;
    put_rest(&mut more, recording, fates, counts)?;
    more.extend_from_slice(listed)?;
    notes.extend_from_slice(more.as_slice())?;
    Ok(notes)
}

/// Puts a comment that counts behind a text.
fn push_count(text: &mut Vec<u8>, word: &Word, number: u64) -> Result<(), NoMemory>
    ensures text { OnOk result (text.new.items ≡ text.old.items ++ note_text (Counted word.now number)) }
    ensures comment { OnOk result (IsNote (Counted word.now number)) }
{
    push_words(text, b"# ")?;
    push_words(text, word.text())?;
    push_numbered(text, b": ", number)?;
    push_words(text, b"\n")?;
    Ok(())
}

/// Puts a comment on a cache behind a text.
fn push_of(text: &mut Vec<u8>, about: &About, name: &Name, number: u64) -> Result<(), NoMemory>
    ensures text { OnOk result (text.new.items ≡ text.old.items ++ note_text (ToldOf about.now name.now number)) }
    ensures comment { OnOk result (IsNote (ToldOf about.now name.now number)) }
{
    push_words(text, b"# ")?;
    push_words(text, about.text())?;
    push_words(text, name.as_bytes())?;
    push_numbered(text, b": ", number)?;
    push_words(text, b"\n")?;
    Ok(())
}

/// Puts a comment behind a text.
fn push_note(text: &mut Vec<u8>, note: &Note) -> Result<(), NoMemory>
    ensures text { OnOk result (text.new.items ≡ text.old.items ++ note_text note.now) }
    ensures comment { OnOk result (IsNote note.now) }
{
    match note {
        Note::Count { word, number } => push_count(text, word, *number),
        Note::Of {
            about,
            name,
            number,
        } => push_of(text, about, name, *number),
    }
}

/// Puts comments behind a text.
pub(crate) fn push_notes(text: &mut Vec<u8>, notes: &[Note]) -> Result<(), NoMemory>
    ensures text { OnOk result (text.new.items ≡ text.old.items ++ flat_map note_text notes.now) }
    ensures comments { OnOk result (All IsNote notes.now) }
{
    for note in notes {
        push_note(text, note)?;
    }
    Ok(())
}
