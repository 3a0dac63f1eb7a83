//! `kmem_cache_create_usercopy`: creating caches.

ghost use Rattle.std.specs.Prelude.{◌≡◌, ◌↔◌, ◌<◌, length, IsOk, IsSome, IfOk, IfSome, IsErrOf, OnErr};
ghost use Rattle.slub_object_layout.specs.Layout.{IsAccepted, IsAlign, IsSize, IsSupported};
ghost use Rattle.slub_cache_create.specs.Create.{IsOpenTo};
ghost use Rattle.slub_cache_create.specs.Sound.{IsSound};
ghost use Rattle.slub_cache_create.specs.Table.{IsTaken};
ghost use Rattle.slub_red_zone.specs.Sound.{IsLayoutFor};
ghost use Rattle.slub_lists.specs.Alloc.{cache_of};
ghost use Rattle.slub_lists.specs.Coherent.{IsCoherent};
ghost use Rattle.slub_lists.specs.Create.{CreatesCache, with_new};

use crate::lists::Lists;
use slub_cache_create::caches::{CreateRefusal, Created};
use slub_common::no_memory::NoMemory;
use slub_object_layout::layout::{LayoutRefusal, Spec};
use slub_object_layout::name::Name;
use slub_red_zone::checked::CheckedSlabs;

impl Lists {
    /// Creates a cache, or gives a live one that it fits one more name (`__kmem_cache_alias`).
    ///
    /// The refusals stand in the order of `CreateRefusal`; after one nothing has changed. A checked
    /// cache takes memory.
    pub fn create(&mut self, name: &Name, spec: &Spec) -> Result<Created, CreateRefusal>
        requires coherent { IsCoherent self.old }
        ensures created { IfOk result (λ created. CreatesCache self.old name.now spec.now created self.new) }
        ensures accepted { IsOk result → (IsOpenTo self.old.table name.now × IsAccepted spec.now) }
        ensures unchanged { OnErr result (self.new ≡ self.old) }
        ensures name_taken { IsErrOf result CreateRefusal.NameTaken ↔ IsTaken self.old.table name.now }
        ensures too_many { IsErrOf result CreateRefusal.TooMany ↔ (¬ IsTaken self.old.table name.now × length self.old.table.live ≡ 32) }
        ensures bad_size { IsErrOf result (CreateRefusal.Layout LayoutRefusal.BadSize) ↔ (IsOpenTo self.old.table name.now × ¬ IsSize spec.now.size) }
        ensures bad_align { IsErrOf result (CreateRefusal.Layout LayoutRefusal.BadAlign) ↔ (IsOpenTo self.old.table name.now × IsSize spec.now.size × ¬ IsAlign spec.now.align) }
        ensures bad_flags { IsErrOf result (CreateRefusal.Layout LayoutRefusal.BadFlags) ↔ (IsOpenTo self.old.table name.now × IsSize spec.now.size × IsAlign spec.now.align × ¬ IsSupported spec.now.flags) }
        ensures coherent { IsCoherent self.new }
    {
        self.create_or_undo(name, spec)
    }

    /// As `create`.
    fn create_or_undo(&mut self, name: &Name, spec: &Spec) -> Result<Created, CreateRefusal>
        requires coherent { IsCoherent self.old }
        ensures created { IfOk result (λ created. CreatesCache self.old name.now spec.now created self.new) }
        ensures accepted { IsOk result → (IsOpenTo self.old.table name.now × IsAccepted spec.now) }
        ensures unchanged { OnErr result (self.new ≡ self.old) }
        ensures name_taken { IsErrOf result CreateRefusal.NameTaken ↔ IsTaken self.old.table name.now }
        ensures too_many { IsErrOf result CreateRefusal.TooMany ↔ (¬ IsTaken self.old.table name.now × length self.old.table.live ≡ 32) }
        ensures bad_size { IsErrOf result (CreateRefusal.Layout LayoutRefusal.BadSize) ↔ (IsOpenTo self.old.table name.now × ¬ IsSize spec.now.size) }
        ensures bad_align { IsErrOf result (CreateRefusal.Layout LayoutRefusal.BadAlign) ↔ (IsOpenTo self.old.table name.now × IsSize spec.now.size × ¬ IsAlign spec.now.align) }
        ensures bad_flags { IsErrOf result (CreateRefusal.Layout LayoutRefusal.BadFlags) ↔ (IsOpenTo self.old.table name.now × IsSize spec.now.size × IsAlign spec.now.align × ¬ IsSupported spec.now.flags) }
        ensures sound { IsSound self.new.table }
    {
        let answer = self.table.create(name, spec, self.cpus);
        let Ok(created) = answer else {
            return answer;
        };
        if let Created::New(cache) = created {
            if self.open_if_checked(cache).is_err() {
                let _dropped = self.table.drop_name(name);
                return Err(CreateRefusal::NoMemory);
            }
        }
        answer
    }

    /// Makes the slabs of a cache that was just made, where it is checked: none yet.
    fn open_if_checked(&mut self, cache: u8) -> Result<(), NoMemory>
        requires cache { cache < 32 }
        requires room { length self.old.checked ≡ 32 }
        requires live { IsSome (cache_of self.old cache) }
        requires layout { IfSome (cache_of self.old cache) (λ live. IsLayoutFor live.flags live.layout) }
        ensures opened { IfOk result (λ done. IfSome (cache_of self.old cache) (λ live. self.new ≡ with_new self.old self.old.table cache live)) }
        ensures unchanged { OnErr result (self.new ≡ self.old) }
    {
        let flags = self.table.flags(cache);
        if flags.is_checked() {
            let layout = self.layout(cache);
            let alloc = *self.slabs.allocator();
            let slabs = CheckedSlabs::open(alloc, &layout, flags, cache)?;
            self.checked[cache as usize] = Some(slabs);
        }
        Ok(())
    }
}
