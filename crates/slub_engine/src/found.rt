//! What was found damaged in a round.

ghost use Rattle.std.specs.Prelude.{◌≡◌, ℕ, ◌+◌, ◌^◌, ◌<◌, ◌≤◌, ◌++◌, [], is_some, length, map, slice_index_or, vec_capacity, IfOk};
ghost use Rattle.std.specs.List.{list_any};
ghost use Rattle.std.specs.Option.{option_map_or};
ghost use Rattle.slub_lists.specs.Coherent.{IsCoherent};
ghost use Rattle.slub_slabinfo_text.specs.Lawful.{reports_of};
ghost use Rattle.slub_engine.specs.Steps.{found_past, found_since, found_with, most_found, told_in};

use slub_common::no_memory::NoMemory;
use slub_list_machine::lists::Lists;
use slub_object_layout::name::Name;
use slub_red_zone::checked::CheckedSlabs;
use slub_slabinfo_text::journal::Found;
use slub_trace::damage::Report;
use std::alloc::Global;

/// How much was found of each cache so far, by cache number.
pub fn counts_told(alloc: Global, lists: &Lists) -> Result<Vec<usize>, NoMemory>
    ensures { IfOk result (λ counts. counts.items ≡ told_in lists.now) }
{
    let mut counts = Vec::new(alloc);
    for slabs in lists.checked() {
        counts.push(count_told(slabs))?;
    }
    Ok(counts)
}

fn count_told(slabs: &Option<CheckedSlabs>) -> usize
    ensures { result ≡ option_map_or (λ slabs. length slabs.reports) slabs.now 0 }
{
    match slabs {
        Some(slabs) => slabs.reports().len(),
        None => 0,
    }
}

/// How many damages can be found at most while so many events are answered: none where no cache is
/// checked, else one of each slab that is listed, and one of the slab that an event lists.
pub fn room_to_find(lists: &Lists, events: usize) -> usize
    requires coherent { IsCoherent lists.now }
    requires few { events < 2 ^ 63 }
    ensures { result ≡ most_found lists.now events }
{
    let checked = lists.checked();
    if !has_checked(checked) {
        return 0;
    }
    let mut room = events;
    for slabs in checked {
        room += count_listed(slabs);
    }
    room
}

/// Whether one of the caches is checked.
fn has_checked(caches: &[Option<CheckedSlabs>]) -> bool
    ensures { result ≡ list_any is_some caches.now }
{
    caches.iter().any(Option::is_some)
}

fn count_listed(slabs: &Option<CheckedSlabs>) -> usize
    ensures value { result ≡ option_map_or (λ slabs. length slabs.listed) slabs.now 0 }
    ensures few { result ≤ 4096 }
{
    match slabs {
        Some(slabs) => slabs.listed().len(),
        None => 0,
    }
}

/// Puts in what was found of each cache past these counts, by cache number. It takes no memory.
pub fn push_found(lists: &Lists, told: &[usize], damages: &mut Vec<Found>)
    requires coherent { IsCoherent lists.now }
    requires each { length told.now ≡ 32 }
    requires grown { (cache : ℕ) →
        slice_index_or told.now cache 0 ≤ length (reports_of lists.now cache) }
    requires empty { damages.old.items ≡ [] }
    requires room { length (found_since told.now lists.now) ≤ vec_capacity damages.old }
    ensures { damages.new.items ≡ found_since told.now lists.now }
{
    for cache in 0..told.len() {
        push_found_of(lists, cache as u8, told[cache], damages);
    }
}

/// Puts in what was found of a cache past this count.
fn push_found_of(lists: &Lists, cache: u8, told: usize, damages: &mut Vec<Found>)
    requires coherent { IsCoherent lists.now }
    requires number { cache < 32 }
    requires told { told ≤ length (reports_of lists.now cache) }
    requires room { length damages.old.items + length (found_past told lists.now cache)
        ≤ vec_capacity damages.old }
    ensures found { damages.new.items ≡ damages.old.items ++ found_past told lists.now cache }
    ensures capacity { vec_capacity damages.new ≡ vec_capacity damages.old }
{
    if let Some(slabs) = &lists.checked()[cache as usize] {
        let title = lists.caches().title(cache);
        push_reports(title, &slabs.reports()[told..], damages);
    }
}

/// Puts in reports of the cache with this title.
fn push_reports(title: &Name, reports: &[Report], damages: &mut Vec<Found>)
    requires room { length damages.old.items + length reports.now ≤ vec_capacity damages.old }
    ensures found { damages.new.items ≡
        damages.old.items ++ map (found_with title.now) reports.now }
    ensures capacity { vec_capacity damages.new ≡ vec_capacity damages.old }
{
    for report in reports {
        damages.push_reserved(Found {
            title: *title,
            report: *report,
        });
    }
}
