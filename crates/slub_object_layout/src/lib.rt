//! What a cache is made of: its layout and its names.
//!
//! A cache gives objects of one size out of slabs, and a slab is one run of page frames.
//! `layout_of` says how large a slot is, where in it the object, the red zones and the free
//! pointer lie, and how many slots a slab has; it answers to `calculate_sizes` and
//! `calculate_order` of `mm/slub.c`. Its contracts cite `specs/Layout.antt`: `IsLayout` has the
//! equations, one a field, and `IsWithinBounds` what holds of every layout. `laws` has what
//! follows: one layout for a spec, slots apart and within their frames, free pointers within
//! their slots. What a name is says `specs/Name.antt`. No call takes memory.
//!
//! # What it promises
//!
//! `layout_of` answers exactly where there is a layout, with the solution of the equations of
//! `calculate_sizes` and `calculate_order`; the order is that of the greatest number of objects
//! that fits, by the first fraction, and least. `laws`: the layout is unique, slots are apart and
//! lie in their slab, the free pointer lies in its slot and spares the object where the flags say
//! so. `Name::read` takes exactly the names.
#![tactic(auto)]

pub mod laws;
pub mod layout;
pub mod name;
