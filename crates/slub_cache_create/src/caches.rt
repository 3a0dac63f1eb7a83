//! The table of live names and caches.

ghost use Rattle.std.specs.Prelude.{All, [], map, slice_index_or, filter, not, ◌==◌, IsOk, IsTrue, MatchOption, OnOk, ℕ, Some, slice_set, position, ◌≡◌, ◌<◌, ◌≤◌, ◌↔◌, length, IsSome, IfSome, IfOk, IsErrOf, OnErr};
ghost use Rattle.std.specs.List.{IsDistinct};
ghost use Rattle.std.specs.Str.{bytes_eq};
ghost use Rattle.slub_object_layout.specs.Layout.{IsAccepted, IsAlign, IsLayout, IsSize, IsSupported};
ghost use Rattle.slub_cache_create.specs.Create.{Creates, IsLeastUnused, IsOpenTo, with_alias, with_cache};
ghost use Rattle.slub_cache_create.specs.Drop.{Drops, without_alias, without_cache};
ghost use Rattle.slub_cache_create.specs.Merging.{FitsAt, IsOldestFit, NoneFits};
ghost use Rattle.slub_cache_create.specs.Sound.{IsLiveLayout, IsSound};
ghost use Rattle.slub_cache_create.specs.Table.{IsTaken, IsTitle, cache_of, name_at, names_of, number_of, opening};
ghost use Rattle.slub_cache_create.specs.Tune.{Takes, with_setting};

use crate::{merging, settings};
use indexmap::{IndexMap, IndexSet};
use slub_common::limits::NAMES_MAX;
use slub_common::no_memory::NoMemory;
use slub_common::no_such_cache::NoSuchCache;
use slub_object_layout::layout::{Flags, Layout, LayoutRefusal, Setting, Spec, layout_of};
use slub_object_layout::name::Name;
use std::alloc::Global;
use std::marker::Model;

/// What a creation did, with the number of the cache that the name names now, 0 to 31.
#[derive(Clone, Copy, Debug, PartialEq, Eq)]
pub enum Created {
    /// It made a cache.
    New(u8),
    /// It gave a live cache one more name.
    Merged(u8),
}

/// Why no cache was created. The causes are tried in this order.
#[derive(Clone, Copy, Debug, PartialEq, Eq)]
pub enum CreateRefusal {
    /// The name is live, or a live cache was made under it.
    NameTaken,
    /// 32 names are live.
    TooMany,
    /// There is no layout for such a cache.
    Layout(LayoutRefusal),
    NoMemory,
}

/// What the end of a name did, with the number of its cache.
#[derive(Clone, Copy, Debug, PartialEq, Eq)]
pub enum Dropped {
    /// The cache has other names and lives on.
    Alias(u8),
    /// It was the cache's last name, and the cache is live no more.
    Last(u8),
}

/// A live cache (`struct kmem_cache`).
#[derive(Clone, Copy, Debug, PartialEq, Eq)]
pub struct Cache {
    /// The name that it was made under.
    pub title: Name,
    pub flags: Flags,
    pub layout: Layout,
    /// How many live names it has (`refcount`).
    pub names: u32,
}

/// The live names and caches of a machine, and the names of its trace.
#[derive(Debug, Drop)]
pub struct Caches {
    /// The trace's names, each once.
    kept: IndexSet<Name>,
    /// For each place of the trace's names, which of those it is.
    places: Vec<usize>,
    /// For each of the trace's names the number of the live cache that it names.
    at: Vec<Option<u8>>,
    /// The live names, in the order of their creation, with the numbers of their caches.
    live: IndexMap<Name, u8>,
    /// The live caches by number, room for 32 of them.
    caches: Vec<Option<Cache>>,
    /// The numbers of the live caches, oldest first.
    ages: Vec<u8>,
}

impl Model for Caches {
    ghost use Rattle.slub_cache_create.specs.Table.{Table};

    ghost Value = { Table };

    ghost use Rattle.slub_cache_create.specs.Fields.{table_of, IsKept};

    ghost view = { table_of };

    ghost invariant = { IsKept };
}

impl From<LayoutRefusal> for CreateRefusal {
    ghost use Rattle.std.specs.Prelude.{◌≡◌};
    ghost use Rattle.slub_cache_create.specs.declared.caches.CreateRefusal.{CreateRefusal};

    ghost from_gives = { λ refusal result. result ≡ CreateRefusal.Layout refusal };

    fn from(refusal: LayoutRefusal) -> CreateRefusal {
        CreateRefusal::Layout(refusal)
    }
}

impl From<NoMemory> for CreateRefusal {
    ghost use Rattle.std.specs.Prelude.{◌≡◌};
    ghost use Rattle.slub_cache_create.specs.declared.caches.CreateRefusal.{CreateRefusal};

    ghost from_gives = { λ _ result. result ≡ CreateRefusal.NoMemory };

    fn from(_want: NoMemory) -> CreateRefusal {
        CreateRefusal::NoMemory
    }
}

impl Caches {
    /// No cache is live. The trace's names are kept in their order; one may stand there twice.
    pub fn open(alloc: Global, names: &[Name]) -> Result<Caches, NoMemory>
        ensures opened { IfOk result (λ caches. caches ≡ opening names.now) }
        ensures sound { IfOk result IsSound }
    {
        let (kept, places) = open_places(alloc, names)?;
        let at = vec![in alloc; None; kept.len()]?;
        let live = IndexMap::with_capacity(alloc, NAMES_MAX)?;
        let caches = vec![in alloc; None; NAMES_MAX]?;
        let ages = Vec::with_capacity(alloc, NAMES_MAX)?;
        Ok(Caches {
            kept,
            places,
            at,
            live,
            caches,
            ages,
        })
    }

    /// How many of the trace's names are kept.
    pub fn kept(&self) -> usize
        ensures { result ≡ length self.now.kept }
    {
        self.places.len()
    }

    /// The number of the live cache that the name at this place of the trace's names names. None
    /// where that name isn't live.
    pub fn at(&self, place: u32) -> Option<u8>
        requires { place < length self.now.kept }
        ensures named { result ≡ number_of self.now (name_at self.now place) }
        ensures sound { IsSound self.now }
    {
        self.at[self.places[place as usize]]
    }

    /// The number of the live cache that a name names. None where it isn't live.
    pub fn find(&self, name: &Name) -> Option<u8>
        ensures named { result ≡ number_of self.now name.now }
        ensures sound { IsSound self.now }
    {
        self.live.get(name).copied()
    }

    /// How the slots of a live cache lie.
    pub fn layout(&self, cache: u8) -> &Layout
        requires live { IsSome (cache_of self.now cache) }
        ensures value { IfSome (cache_of self.now cache) (λ live. result.now ≡ live.layout) }
        ensures sound { IsSound self.now }
    {
        &self.cache(cache).layout
    }

    /// The flags that a live cache was made with.
    pub fn flags(&self, cache: u8) -> Flags
        requires live { IsSome (cache_of self.now cache) }
        ensures value { IfSome (cache_of self.now cache) (λ live. result ≡ live.flags) }
        ensures sound { IsSound self.now }
    {
        self.cache(cache).flags
    }

    /// The name that a live cache was made under, which may have been dropped since.
    pub fn title(&self, cache: u8) -> &Name
        requires live { IsSome (cache_of self.now cache) }
        ensures value { IfSome (cache_of self.now cache) (λ live. result.now ≡ live.title) }
        ensures sound { IsSound self.now }
    {
        &self.cache(cache).title
    }

    /// How many live names a live cache has, 1 to 32.
    pub fn names(&self, cache: u8) -> u32
        requires live { IsSome (cache_of self.now cache) }
        ensures value { result ≡ names_of self.now cache }
        ensures range { (1 ≤ result) × (result ≤ 32) }
        ensures sound { IsSound self.now }
    {
        self.cache(cache).names
    }

    /// The numbers of the live caches, oldest first.
    pub fn in_order(&self) -> &[u8]
        ensures value { result.now ≡ self.now.ages }
        ensures sound { IsSound self.now }
    {
        self.ages.as_slice()
    }

    /// Creates a cache (`kmem_cache_create_usercopy`) on a machine of `cpus` CPUs, 1 to 16: merges it
    /// with the oldest live cache that it fits (`__kmem_cache_alias`), or makes one.
    ///
    /// A new cache takes the least unused of the numbers 0 to 31. The limit of 32 live names is
    /// *profile*, as is that a title is taken while its cache lives.
    pub fn create(&mut self, name: &Name, spec: &Spec, cpus: u32) -> Result<Created, CreateRefusal>
        requires some_cpu { 1 ≤ cpus }
        requires few_cpus { cpus ≤ 16 }
        ensures created { IfOk result (λ created. Creates self.old name.now spec.now cpus created self.new) }
        ensures accepted { IsOk result → (IsOpenTo self.old name.now × IsAccepted spec.now) }
        ensures unchanged { OnErr result (self.new ≡ self.old) }
        ensures kept { self.new.kept ≡ self.old.kept }
        ensures name_taken { IsErrOf result CreateRefusal.NameTaken ↔ IsTaken self.old name.now }
        ensures too_many { IsErrOf result CreateRefusal.TooMany ↔ (¬ IsTaken self.old name.now × length self.old.live ≡ 32) }
        ensures bad_size { IsErrOf result (CreateRefusal.Layout LayoutRefusal.BadSize) ↔ (IsOpenTo self.old name.now × ¬ IsSize spec.now.size) }
        ensures bad_align { IsErrOf result (CreateRefusal.Layout LayoutRefusal.BadAlign) ↔ (IsOpenTo self.old name.now × IsSize spec.now.size × ¬ IsAlign spec.now.align) }
        ensures bad_flags { IsErrOf result (CreateRefusal.Layout LayoutRefusal.BadFlags) ↔ (IsOpenTo self.old name.now × IsSize spec.now.size × IsAlign spec.now.align × ¬ IsSupported spec.now.flags) }
        ensures sound { IsSound self.new }
    {
        let created = self.create_or_refuse(name, spec, cpus);
        let _sound = &self.live;
        created
    }

    /// As `create`.
    fn create_or_refuse(
        &mut self,
        name: &Name,
        spec: &Spec,
        cpus: u32,
    ) -> Result<Created, CreateRefusal>
        requires some_cpu { 1 ≤ cpus }
        requires few_cpus { cpus ≤ 16 }
        ensures created { IfOk result (λ created. Creates self.old name.now spec.now cpus created self.new) }
        ensures accepted { IsOk result → (IsOpenTo self.old name.now × IsAccepted spec.now) }
        ensures unchanged { OnErr result (self.new ≡ self.old) }
        ensures kept { self.new.kept ≡ self.old.kept }
        ensures name_taken { IsErrOf result CreateRefusal.NameTaken ↔ IsTaken self.old name.now }
        ensures too_many { IsErrOf result CreateRefusal.TooMany ↔ (¬ IsTaken self.old name.now × length self.old.live ≡ 32) }
        ensures bad_size { IsErrOf result (CreateRefusal.Layout LayoutRefusal.BadSize) ↔ (IsOpenTo self.old name.now × ¬ IsSize spec.now.size) }
        ensures bad_align { IsErrOf result (CreateRefusal.Layout LayoutRefusal.BadAlign) ↔ (IsOpenTo self.old name.now × IsSize spec.now.size × ¬ IsAlign spec.now.align) }
        ensures bad_flags { IsErrOf result (CreateRefusal.Layout LayoutRefusal.BadFlags) ↔ (IsOpenTo self.old name.now × IsSize spec.now.size × IsAlign spec.now.align × ¬ IsSupported spec.now.flags) }
    {
        if self.is_taken(name) {
            return Err(CreateRefusal::NameTaken);
        }
        if self.live.len() >= NAMES_MAX {
            return Err(CreateRefusal::TooMany);
        }
        let layout = layout_of(spec, cpus)?;
        Ok(self.add(name, spec, &layout)?)
    }

    /// Ends a name (`kmem_cache_destroy`), and with its last name a cache. The cache must be empty
    /// then, which the caller sees to.
    pub fn drop_name(&mut self, name: &Name) -> Result<Dropped, NoSuchCache>
        ensures dropped { Drops self.old name.now result self.new }
        ensures kept { self.new.kept ≡ self.old.kept }
        ensures sound { IsSound self.new }
    {
        let Some(cache) = self.find(name) else {
            return Err(NoSuchCache);
        };
        if self.names(cache) > 1 {
            self.drop_alias(name, cache);
            Ok(Dropped::Alias(cache))
        } else {
            self.drop_last(name, cache);
            Ok(Dropped::Last(cache))
        }
    }

    /// Sets a number of a live cache, under all of its names (`min_partial_store`, `cpu_partial_store`).
    ///
    /// The number is at most 4096 (*profile*), and a checked cache takes no objects above 0 for a CPU's
    /// partial list. What is merged with the cache from now on keeps the setting.
    pub fn tune(&mut self, cache: u8, setting: Setting)
        requires live { IsSome (cache_of self.old cache) }
        requires takes { IfSome (cache_of self.old cache) (λ live. Takes live.flags setting) }
        ensures tuned { self.new ≡ with_setting self.old cache setting }
        ensures sound { IsSound self.new }
    {
        let tuned = settings::tuned(self.cache(cache), setting);
        self.caches[cache as usize] = Some(tuned);
    }

    /// Takes a name off a cache that has others.
    fn drop_alias(&mut self, name: &Name, cache: u8)
        requires named { number_of self.old name.now ≡ Some cache }
        requires others { 1 < names_of self.old cache }
        ensures dropped { self.new ≡ without_alias self.old name.now cache }
        ensures sound { IsSound self.new }
    {
        let rest = merging::less_named(self.cache(cache));
        self.live.shift_remove(name);
        self.caches[cache as usize] = Some(rest);
        note(&mut self.at, &self.kept, name, None);
    }

    /// Takes a cache out with its only name.
    fn drop_last(&mut self, name: &Name, cache: u8)
        requires named { number_of self.old name.now ≡ Some cache }
        requires last { names_of self.old cache ≡ 1 }
        ensures dropped { self.new ≡ without_cache self.old name.now cache }
        ensures sound { IsSound self.new }
    {
        self.live.shift_remove(name);
        self.caches[cache as usize] = None;
        take_out(&mut self.ages, cache);
        note(&mut self.at, &self.kept, name, None);
    }

    /// Merges a new cache with the oldest live one that it fits, or makes it.
    fn add(&mut self, name: &Name, spec: &Spec, layout: &Layout) -> Result<Created, NoMemory>
        requires open { IsOpenTo self.old name.now }
        requires accepted { IsAccepted spec.now }
        requires layout { IsLiveLayout spec.now.flags layout.now }
        ensures created { IfOk result (λ created. (cpus : ℕ) → IsLayout spec.now cpus layout.now → Creates self.old name.now spec.now cpus created self.new) }
        ensures unchanged { OnErr result (self.new ≡ self.old) }
    {
        match self.find_mergeable(spec) {
            Some(cache) => {
                self.merge_into(cache, name, spec)?;
                Ok(Created::Merged(cache))
            }
            None => {
                let cache = self.make(name, spec, layout)?;
                Ok(Created::New(cache))
            }
        }
    }

    /// Gives a live cache one more name.
    fn merge_into(&mut self, cache: u8, name: &Name, spec: &Spec) -> Result<(), NoMemory>
        requires open { IsOpenTo self.old name.now }
        requires accepted { IsAccepted spec.now }
        requires fits { FitsAt self.old spec.now cache }
        ensures merged { OnOk result (self.new ≡ with_alias self.old name.now spec.now cache) }
        ensures unchanged { OnErr result (self.new ≡ self.old) }
    {
        let merged = merging::merged(self.cache(cache), spec);
        self.live.insert(*name, cache)?;
        self.caches[cache as usize] = Some(merged);
        note(&mut self.at, &self.kept, name, Some(cache));
        Ok(())
    }

    /// Makes a cache under the least unused number, which is the answer.
    fn make(&mut self, name: &Name, spec: &Spec, layout: &Layout) -> Result<u8, NoMemory>
        requires open { IsOpenTo self.old name.now }
        requires layout { IsLiveLayout spec.now.flags layout.now }
        ensures unused { IfOk result (IsLeastUnused self.old) }
        ensures made { IfOk result (λ cache. self.new ≡ with_cache self.old name.now spec.now layout.now cache) }
        ensures unchanged { OnErr result (self.new ≡ self.old) }
    {
        let cache = self.unused_number();
        self.ages.reserve(1)?;
        self.live.insert(*name, cache)?;
        self.ages.push_reserved(cache);
        self.caches[cache as usize] = Some(Cache {
            title: *name,
            flags: spec.flags,
            layout: *layout,
            names: 1,
        });
        note(&mut self.at, &self.kept, name, Some(cache));
        Ok(cache)
    }

    /// The live cache of a number.
    fn cache(&self, cache: u8) -> &Cache
        requires live { IsSome (cache_of self.now cache) }
        ensures value { cache_of self.now cache ≡ Some result.now }
        ensures names { (1 ≤ result.now.names) × (result.now.names ≤ 32) }
        ensures sound { IsSound self.now }
    {
        match &self.caches[cache as usize] {
            Some(live) => live,
            None => unreachable!(),
        }
    }

    /// The oldest live cache that a new one can be merged with (`find_mergeable`).
    fn find_mergeable(&self, spec: &Spec) -> Option<u8>
        requires accepted { IsAccepted spec.now }
        ensures { MatchOption result (NoneFits self.now spec.now) (IsOldestFit self.now spec.now) }
    {
        for cache in self.ages.iter() {
            if self.fits_at(spec, *cache) {
                return Some(*cache);
            }
        }
        None
    }

    /// Whether a live cache fits.
    fn fits_at(&self, spec: &Spec, cache: u8) -> bool
        requires accepted { IsAccepted spec.now }
        ensures { IsTrue result ↔ FitsAt self.now spec.now cache }
    {
        match self.caches.get(cache as usize) {
            Some(Some(live)) => merging::fits(live, spec),
            _ => false,
        }
    }

    /// Whether a name is live or a title.
    fn is_taken(&self, name: &Name) -> bool
        ensures { IsTrue result ↔ IsTaken self.now name.now }
    {
        self.live.contains_key(name) || self.is_title(name)
    }

    /// Whether a live cache was made under this name.
    fn is_title(&self, name: &Name) -> bool
        ensures { IsTrue result ↔ IsTitle self.now name.now }
    {
        for cache in self.caches.iter() {
            if let Some(live) = cache {
                if live.title == *name {
                    return true;
                }
            }
        }
        false
    }

    /// The least number that no live cache has. There is one: each live cache has a live name.
    pub(crate) fn unused_number(&self) -> u8
        requires room { length self.now.live < 32 }
        ensures { IsLeastUnused self.now result }
    {
        match self.first_unused() {
            Some(number) => number,
            None => unreachable!(),
        }
    }

    /// The least number that no live cache has. None where all 32 numbers are in use.
    fn first_unused(&self) -> Option<u8>
        ensures unused { MatchOption result (All IsSome self.now.caches) (IsLeastUnused self.now) }
        ensures sound { IsSound self.now }
    {
        let number = self.caches.iter().position(|cache| cache.is_none())?;
        Some(number as u8)
    }
}

/// Notes the number of the cache that a name names, where it is one of the trace's names.
fn note(at: &mut [Option<u8>], kept: &IndexSet<Name>, name: &Name, cache: Option<u8>)
    requires { length at.old ≡ length kept.now.keys }
    ensures { MatchOption (position (bytes_eq name.now) kept.now.keys) (at.new ≡ at.old) (λ place. at.new ≡ slice_set at.old place cache) }
{
    if let Some(place) = kept.get_index_of(name) {
        at[place] = cache;
    }
}

/// The names, each once, and for each place which of those it is.
fn open_places(alloc: Global, names: &[Name]) -> Result<(IndexSet<Name>, Vec<usize>), NoMemory>
    ensures distinct { IfOk result (λ r. IsDistinct bytes_eq r.0.keys) }
    ensures within { IfOk result (λ r. All (λ place. place < length r.0.keys) r.1.items) }
    ensures names { IfOk result (λ r. map (λ place. slice_index_or r.0.keys place []) r.1.items ≡ names.now) }
{
    let mut kept = IndexSet::new(alloc);
    let mut places = Vec::with_capacity(alloc, names.len())?;
    for name in names {
        let (place, _) = kept.insert_full(*name)?;
        places.push(place)?;
    }
    Ok((kept, places))
}

/// Takes a number out of the ages.
fn take_out(ages: &mut Vec<u8>, cache: u8)
    ensures { ages.new.items ≡ filter (λ other. not (other == cache)) ages.old.items }
{
    ages.retain(|other| *other != cache);
}
