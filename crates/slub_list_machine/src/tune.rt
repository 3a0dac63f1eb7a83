//! `min_partial_store`, `cpu_partial_store`: settings of live caches.

ghost use Rattle.std.specs.Prelude.{◌≡◌, ◌≤◌, None, IsSome, MatchResult};
ghost use Rattle.slub_cache_create.specs.Tune.{IsSetting};
ghost use Rattle.slub_lists.specs.Alloc.{cache_of, checked_of};
ghost use Rattle.slub_lists.specs.Coherent.{IsCoherent, KeepsMachine};
ghost use Rattle.slub_lists.specs.Tune.{IsRefused, Tunes, TunesCache, with_setting};

use crate::lists::Lists;
use slub_object_layout::layout::Setting;
use slub_object_layout::name::Name;
use slub_trace::tune::TuneRefusal;

impl Lists {
    /// Sets a number of a live cache, at most 4096, by one of its names. Where it is how many objects a
    /// CPU's partial list holds, what the CPUs have of the cache goes to the node list first.
    ///
    /// A checked cache takes no such objects above 0. After a refusal nothing has changed. It is asked
    /// between rounds.
    pub fn tune(&mut self, name: &Name, setting: Setting) -> Result<(), TuneRefusal>
        requires coherent { IsCoherent self.old }
        requires number { IsSetting setting }
        ensures tunes { Tunes self.old name.now setting result self.new }
        ensures board { self.new.board ≡ self.old.board }
        ensures kept { KeepsMachine self.old self.new }
        ensures coherent { IsCoherent self.new }
    {
        let Some(cache) = self.table.find(name) else {
            return Err(TuneRefusal::NoSuchCache);
        };
        match setting {
            Setting::MinPartial(slabs) => {
                self.set_min_partial(cache, slabs);
                Ok(())
            }
            Setting::CpuPartial(objects) => self.tune_cpu_partial(cache, objects),
        }
    }

    /// Sets how many objects a CPU's partial list holds, of a cache that has one (`cpu_partial_store`).
    fn tune_cpu_partial(&mut self, cache: u8, objects: u32) -> Result<(), TuneRefusal>
        requires coherent { IsCoherent self.old }
        requires live { IsSome (cache_of self.old cache) }
        requires number { objects ≤ 4096 }
        ensures tunes { MatchResult result (λ done. TunesCache self.old cache (Setting.CpuPartial objects) self.new) (λ refusal. self.new ≡ self.old) }
        ensures refused { MatchResult result (λ done. ¬ IsRefused self.old cache (Setting.CpuPartial objects)) (λ refusal. (refusal ≡ TuneRefusal.Checked) × IsRefused self.old cache (Setting.CpuPartial objects)) }
        ensures board { self.new.board ≡ self.old.board }
        ensures kept { KeepsMachine self.old self.new }
        ensures coherent { IsCoherent self.new }
    {
        if self.checked[cache as usize].is_some() {
            if objects > 0 {
                return Err(TuneRefusal::Checked);
            }
            return Ok(());
        }
        let min_partial = self.table.layout(cache).min_partial;
        self.flush_cpus(cache, min_partial);
        self.set_cpu_partial(cache, objects);
        Ok(())
    }

    /// Sets how many slabs a cache's node list keeps (`min_partial_store`).
    fn set_min_partial(&mut self, cache: u8, slabs: u32)
        requires coherent { IsCoherent self.old }
        requires live { IsSome (cache_of self.old cache) }
        requires number { slabs ≤ 4096 }
        ensures set { self.new ≡ with_setting self.old cache (Setting.MinPartial slabs) }
        ensures coherent { IsCoherent self.new }
    {
        self.table.tune(cache, Setting::MinPartial(slabs));
    }

    /// Sets how many objects a CPU's partial list of a cache holds (`slub_set_cpu_partial`).
    fn set_cpu_partial(&mut self, cache: u8, objects: u32)
        requires coherent { IsCoherent self.old }
        requires live { IsSome (cache_of self.old cache) }
        requires unchecked { checked_of self.old cache ≡ None }
        requires number { objects ≤ 4096 }
        ensures set { self.new ≡ with_setting self.old cache (Setting.CpuPartial objects) }
        ensures coherent { IsCoherent self.new }
    {
        self.table.tune(cache, Setting::CpuPartial(objects));
    }
}
