//! Checked caches, byte for byte: red zones, poison and padding, and what is found damaged.
//!
//! A `CheckedSlabs` is what the lock of a checked cache's node guards: the slabs with their bytes,
//! which objects are free, used or set aside, the slabs with a free object in their order, and the
//! reports so far. It gives one object at a time and takes it back, as `mm/slub.c` of Linux 6.1
//! does for a cache with the flags F, Z or P (`alloc_debug_processing`, `free_debug_processing`,
//! `check_object`, `init_object`).
//!
//! Contracts see a `CheckedSlabs` as the record `CheckedState` of `specs/State.antt`. What each call
//! does to it says `specs/Steps.antt`; the parts of a slot, the first damaged byte and what is
//! written when an object is set up say `specs/Zones.antt`; `IsSound` of `specs/Sound.antt` holds
//! between any two calls. What a call leaves of the objects that nobody has, of the slabs and of the
//! reports, whatever their bytes are, says `specs/Objects.antt`. `specs/Kept.antt` has what is
//! private: counts that are kept, and room.
//!
//! `laws` says what these definitions come to, in words of single bytes: `specs/Bytes.antt` has when
//! a slot is whole, what is written and what a damage tells, `specs/Told.antt` what reports tell of
//! the slabs, and `specs/Changes.antt` which bytes each call changes.
//!
//! `zones` has the bytes of one slot, `slab` one slab, `slabs` the table of slabs by frame, and
//! `checked`, `bytes` and `supply` the calls. Only `open`, `add_slab` and `give_new` take memory, and
//! the last two take all of it before anything changes. Giving and taking back cost the bytes of one
//! slot; where a slab is set aside, its free objects are marked one by one, once for good.
//!
//! # What it promises
//!
//! `CheckedSlabs::give` gives the first free object of the first listed slab whose examined bytes
//! are whole, after each damaged one before it was reported and set aside with its slab's free
//! objects (`Gives`); `give_new` adds a slab and gives its first object; `take_back` answers the
//! first damaged byte and changes nothing, exactly where one is, and else sets the object up as
//! free (`TakesBack`); the rest are their definitions (`specs/Steps.antt`). Between any two calls
//! each object is free, used or set aside, and exactly the slabs with a free object are listed.
//! `laws`: no damage exactly where every examined byte is the wanted one; setting up writes its
//! parts and leaves every other byte; a new slab is whole; each report is of a byte as it stood,
//! and only giving sets objects aside, with a report; giving, taking back, poking and writing write
//! one object or place.
#![tactic(auto)]

mod bytes;
pub mod checked;
pub mod laws;
pub mod slab;
mod slabs;
mod supply;
mod totals;
pub mod zones;
