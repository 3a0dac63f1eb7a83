//! `discard_slab`, `free_slab`: slabs that go.

ghost use Rattle.std.specs.Prelude.{◌≡◌, ◌+◌, ◌<◌, ◌==◌, length, IsSome};
ghost use Rattle.slub_lists.specs.Alloc.{slab_of};
ghost use Rattle.slub_lists.specs.Coherent.{IsConsistent, times_current, times_partial};
ghost use Rattle.slub_lists.specs.Free.{discarded, inuse_of, is_spare};

use crate::lists::Lists;

impl Lists {
    /// Nothing of the slab is in use, and the cache's node list has `min_partial` slabs or more.
    pub(crate) fn is_spare(&self, cache: u8, frame: u16, min_partial: u32) -> bool
        requires slabs { frame < length self.now.slabs }
        requires frees { frame < length self.now.frees }
        requires nodes { cache < length self.now.nodes }
        ensures { result ≡ is_spare self.now min_partial cache frame }
    {
        self.is_unused(frame) && self.nodes[cache as usize].len() >= min_partial as usize
    }

    /// All objects of the slab are on its own freelist.
    pub(crate) fn is_unused(&self, frame: u16) -> bool
        requires slabs { frame < length self.now.slabs }
        requires frees { frame < length self.now.frees }
        ensures { result ≡ (inuse_of self.now frame == 0) }
    {
        let free = self.frees.len_of(frame);
        match &self.slabs[frame as usize] {
            Some(slab) => slab.objects as usize <= free,
            None => true,
        }
    }

    /// The slab is gone, and its run is free. Nothing of it is in use, and it is on no list.
    pub(crate) fn discard(&mut self, frame: u16)
        requires consistent { IsConsistent self.old }
        requires live { IsSome (slab_of self.old frame) }
        requires unlisted { times_current self.old frame + times_partial self.old frame ≡ 0 }
        requires unused { inuse_of self.old frame ≡ 0 }
        ensures discarded { self.new ≡ discarded self.old frame }
        ensures consistent { IsConsistent self.new }
    {
        let Some(slab) = self.slabs[frame as usize].take() else {
            unreachable!()
        };
        self.pool.put(u32::from(frame), slab.order);
        self.frees.clear(frame);
    }
}
