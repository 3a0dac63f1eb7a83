//! Which cache each object is of.

ghost use Rattle.std.specs.Prelude.{◌≡◌, ◌+◌, [], ◌∷◌, ◌++◌, ◌≤◌, length, map, slice_index_or, slice_set, All, IfOk, OnOk, codes};
ghost use Rattle.std.specs.Fmt.{decimal};
ghost use Rattle.std.specs.Map.{lookup};
ghost use Rattle.slub_object_layout.specs.Name.{IsName, IsNameByte};
ghost use Rattle.slub_recorded.specs.Naming.{is_slot, kind_text, kmalloc_text, known_objects, name_at, name_slots, only_name, own_after, same_site, site_name, site_names, sites_after, sizes_text, slots_after, title_of, titles_known, titles_of, unnamed};

use crate::pairing::{Born, Move, Origin};
use crate::text::{push_numbered, push_words};
use indexmap::IndexMap;
use slub_common::no_memory::NoMemory;
use slub_object_layout::name::Name;
use slub_recording::event::KmallocKind;
use std::alloc::Global;

/// What gave an object its cache's name.
#[derive(Clone, Copy, Debug, PartialEq, Eq)]
pub enum Namer {
    /// The slot and the kind of its kmalloc.
    Kmalloc,
    /// Its own free.
    Free,
    /// Its call site and its slot, where only one name is known of them.
    Site,
    /// Nothing: the name is of its sizes.
    Sizes,
}

/// The name of an object's cache, and what gave it.
#[derive(Clone, Copy, Debug)]
pub struct Title {
    pub name: Name,
    pub namer: Namer,
}

/// An object, and the name that its own free says, by its place.
#[derive(Clone, Copy, Debug)]
struct Known {
    born: Born,
    own: Option<u32>,
}

/// By call site and slot: the only name of its objects, or None where they have several.
type Sites = IndexMap<(u32, u32), Option<u32>>;

/// The entry at a place, where there is one.
fn entry_at(entries: &[Option<u32>], place: u32) -> Option<u32>
    ensures { result ≡ slice_index_or entries.now place None }
{
    entries.get(place as usize).copied().flatten()
}

/// Puts the slot of a name.
fn put_slot(slots: &mut Vec<Option<u32>>, name: u32, slot: u32)
    ensures { slots.new.items ≡ slice_set slots.old.items name (Some slot) }
{
    let at = name as usize;
    if at < slots.len() {
        slots[at] = Some(slot);
    }
}

/// Notes the slot of the name that a free says, where that name has none yet.
fn note_slot(slots: &mut Vec<Option<u32>>, objects: &[Born], step: &Move)
    ensures { slots.new.items ≡ slots_after objects.now slots.old.items step.now }
{
    let Move::Free {
        object,
        name: Some(name),
        ..
    } = *step
    else {
        return;
    };
    if let Some(born) = objects.get(object).copied() {
        let slot = entry_at(slots.as_slice(), name).unwrap_or(born.slot);
        put_slot(slots, name, slot);
    }
}

/// By name: the slot, in bytes, of the first object whose free says it.
fn name_slots(
    alloc: Global,
    names: usize,
    objects: &[Born],
    moves: &[Move],
) -> Result<Vec<Option<u32>>, NoMemory>
    ensures { IfOk result (λ slots. slots.items ≡ name_slots names objects.now moves.now) }
{
    let mut slots = vec![in alloc; None; names]?;
    for step in moves {
        note_slot(&mut slots, objects, step);
    }
    Ok(slots)
}

/// Whether a slot is known, and this one.
fn is_slot(known: Option<u32>, slot: u32) -> bool
    ensures { result ≡ is_slot known slot }
{
    match known {
        Some(known) => known == slot,
        None => false,
    }
}

/// Puts the name that an object's own free says.
fn put_own(known: &mut Vec<Known>, object: usize, one: &Known, name: u32)
    ensures { known.new.items ≡ slice_set known.old.items object (record one.now { own = Some name }) }
{
    if object < known.len() {
        known[object] = Known {
            own: Some(name),
            ..*one
        };
    }
}

/// Notes the name that a free says, where its slot is that of the object.
fn note_own(known: &mut Vec<Known>, slots: &[Option<u32>], step: &Move)
    ensures { known.new.items ≡ own_after slots.now known.old.items step.now }
{
    let Move::Free {
        object,
        name: Some(name),
        ..
    } = *step
    else {
        return;
    };
    if let Some(one) = known.as_slice().get(object).copied() {
        if is_slot(entry_at(slots, name), one.born.slot) {
            put_own(known, object, &one, name);
        }
    }
}

/// The objects, of which nothing is known yet.
fn unnamed(alloc: Global, objects: &[Born]) -> Result<Vec<Known>, NoMemory>
    ensures { IfOk result (λ known. known.items ≡ map unnamed objects.now) }
{
    let known = objects
        .iter()
        .map(|born| Known {
            born: *born,
            own: None,
        })
        .collect(alloc)?;
    Ok(known)
}

/// The objects with the names that their own frees say.
fn known_objects(
    alloc: Global,
    slots: &[Option<u32>],
    objects: &[Born],
    moves: &[Move],
) -> Result<Vec<Known>, NoMemory>
    ensures { IfOk result (λ known. known.items ≡ known_objects slots.now objects.now moves.now) }
{
    let mut known = unnamed(alloc, objects)?;
    for step in moves {
        note_own(&mut known, slots, step);
    }
    Ok(known)
}

/// The only name, where one more comes to those known.
fn only_name(known: Option<Option<u32>>, name: u32) -> Option<u32>
    ensures { result ≡ only_name known name }
{
    match known {
        None => Some(name),
        Some(Some(only)) if only == name => Some(only),
        Some(_) => None,
    }
}

/// What is known of the names of a call site and a slot.
fn site_at(sites: &Sites, site: u32, slot: u32) -> Option<Option<u32>>
    ensures { result ≡ lookup (same_site (site, slot)) sites.now.entries }
{
    sites.get(&(site, slot)).copied()
}

/// Notes the name of an object for its call site and slot.
fn note_site(sites: &mut Sites, known: &Known) -> Result<(), NoMemory>
    ensures { OnOk result (sites.new.entries ≡ sites_after sites.old.entries known.now) }
{
    let Origin::Cache { site, .. } = known.born.origin else {
        return Ok(());
    };
    let Some(name) = known.own else {
        return Ok(());
    };
    let slot = known.born.slot;
    let only = only_name(site_at(sites, site, slot), name);
    sites.insert((site, slot), only)?;
    Ok(())
}

/// The names by call site and slot.
fn site_names(alloc: Global, known: &[Known]) -> Result<Sites, NoMemory>
    ensures { IfOk result (λ sites. sites.entries ≡ site_names known.now) }
{
    let mut sites: Sites = IndexMap::new(alloc);
    for one in known {
        note_site(&mut sites, one)?;
    }
    Ok(sites)
}

/// Names the cache of each object.
pub fn titles(
    alloc: Global,
    names: &[Name],
    objects: &[Born],
    moves: &[Move],
) -> Result<Vec<Title>, NoMemory>
    ensures { IfOk result (λ titles. titles.items ≡ titles_of names.now objects.now moves.now) }
{
    let slots = name_slots(alloc, names.len(), objects, moves)?;
    let known = known_objects(alloc, slots.as_slice(), objects, moves)?;
    titles_known(alloc, names, known.as_slice())
}

/// Names the cache of each object, by the names that their own frees say.
fn titles_known(alloc: Global, names: &[Name], known: &[Known]) -> Result<Vec<Title>, NoMemory>
    ensures { IfOk result (λ titles. titles.items ≡ titles_known names.now known.now) }
{
    let sites = site_names(alloc, known)?;
    titles_by(alloc, names, &sites, known)
}

/// Names the cache of each object, by the names of call sites too.
fn titles_by(
    alloc: Global,
    names: &[Name],
    sites: &Sites,
    known: &[Known],
) -> Result<Vec<Title>, NoMemory>
    ensures { IfOk result (λ titles. titles.items ≡ map (title_of names.now sites.now.entries) known.now) }
{
    let mut titles = Vec::with_capacity(alloc, known.len())?;
    for one in known {
        titles.push(title_of(alloc, names, sites, one)?)?;
    }
    Ok(titles)
}

/// The name of an object's cache.
fn title_of(alloc: Global, names: &[Name], sites: &Sites, known: &Known) -> Result<Title, NoMemory>
    ensures { IfOk result (λ title. title ≡ title_of names.now sites.now.entries known.now) }
{
    let slot = known.born.slot;
    match known.born.origin {
        Origin::Kmalloc(kind) => Ok(Title {
            name: kmalloc_name(alloc, slot, &kind)?,
            namer: Namer::Kmalloc,
        }),
        Origin::Cache { asked, site } => {
            if let Some(name) = name_at(names, known.own) {
                return Ok(Title {
                    name,
                    namer: Namer::Free,
                });
            }
            if let Some(name) = name_at(names, site_name(sites, site, slot)) {
                return Ok(Title {
                    name,
                    namer: Namer::Site,
                });
            }
            Ok(Title {
                name: sizes_name(alloc, asked, slot)?,
                namer: Namer::Sizes,
            })
        }
    }
}

/// The name at a place.
fn name_at(names: &[Name], place: Option<u32>) -> Option<Name>
    ensures { result ≡ name_at names.now place }
{
    names.get(place? as usize).copied()
}

/// The only name of a call site and a slot.
fn site_name(sites: &Sites, site: u32, slot: u32) -> Option<u32>
    ensures { result ≡ site_name sites.now.entries site slot }
{
    site_at(sites, site, slot).flatten()
}

/// How the names of a kind of kmalloc cache begin.
fn kind_text(kind: &KmallocKind) -> &'static [u8]
    ensures { result.now ≡ kind_text kind.now }
{
    match kind {
        KmallocKind::Normal => b"kmalloc-",
        KmallocKind::Accounted => b"kmalloc-cg-",
        KmallocKind::Reclaimable => b"kmalloc-rcl-",
        KmallocKind::Dma => b"dma-kmalloc-",
    }
}

/// The name of a kmalloc cache (`kmalloc_info`).
#[tactic(auto, using(crate::proofs::Names::kind_is, crate::proofs::Names::kind_short, crate::proofs::Names::k_is))]
fn kmalloc_name(alloc: Global, slot: u32, kind: &KmallocKind) -> Result<Name, NoMemory>
    ensures { IfOk result (λ name. name ≡ kmalloc_text slot kind.now) }
{
    let front = kind_text(kind);
    if slot >= 1024 && slot % 1024 == 0 {
        named(alloc, front, slot / 1024, b"k")
    } else {
        named(alloc, front, slot, b"")
    }
}

/// How the name of a cache begins of which only the sizes are known: with that of its objects.
fn sizes_front(alloc: Global, asked: u32) -> Result<Vec<u8>, NoMemory>
    ensures { IfOk result (λ front. front.items ≡ codes "slab-" ++ decimal asked ++ 45 ∷ []) }
{
    let mut front = Vec::new(alloc);
    push_numbered(&mut front, b"slab-", u64::from(asked))?;
    push_words(&mut front, b"-")?;
    Ok(front)
}

/// The name of a cache of which only the sizes are known (*profile*).
fn sizes_name(alloc: Global, asked: u32, slot: u32) -> Result<Name, NoMemory>
    ensures { IfOk result (λ name. name ≡ sizes_text asked slot) }
{
    let front = sizes_front(alloc, asked)?;
    let name = named(alloc, front.as_slice(), slot, b"")?;
    Ok(name)
}

/// The name of a text and a number between two texts.
fn named(alloc: Global, front: &[u8], n: u32, behind: &[u8]) -> Result<Name, NoMemory>
    requires front { IsName front.now }
    requires behind { All IsNameByte behind.now }
    requires short { length front.now + length behind.now ≤ 21 }
    ensures { IfOk result (λ name. name ≡ front.now ++ decimal n ++ behind.now) }
{
    let mut text = Vec::new(alloc);
    push_numbered(&mut text, front, u64::from(n))?;
    push_words(&mut text, behind)?;
    Ok(sure(text.as_slice()))
}

/// The name of a text that is one.
fn sure(text: &[u8]) -> Name
    requires { IsName text.now }
    ensures { result ≡ text.now }
{
    Name::read_bytes(text).unwrap()
}
