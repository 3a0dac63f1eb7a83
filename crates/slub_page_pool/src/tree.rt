//! The tree of runs, which finds a block in a few steps.
//!
//! The runs of orders 1 to 10 are the nodes of a tree over the marks: a run's halves are the two
//! runs of the order below. Bit q of a node tells whether its run has a block of order q in it.
//! A whole run has the bit of its own order alone, and any other run the bits of its halves.

ghost use Rattle.std.specs.Prelude.{◌≡◌, ℕ, ◌+◌, ◌-◌, ◌*◌, ◌^◌, ◌<◌, ◌≤◌, ◌↔◌, length, IsTrue, IfSome, IfNone, slice_set, ◌++◌, take, drop, replicate};
ghost use Rattle.std.specs.Int.{bit_at};
ghost use Rattle.slub_page_pool.specs.Block.{IsBlock, IsTaken, HasNoBlock};
ghost use Rattle.slub_page_pool.specs.Marks.{free_of};
ghost use Rattle.slub_page_pool.specs.Orders.{joined, orders_in, slot, kept_of, IsIndex, IsIndexOutside};

use crate::MAX_ORDER;
use crate::marks::{self, run_len};

/// How many nodes the tree has room for: those of 4096 frames.
pub const NODES: usize = 4096;

/// Where the tree keeps the run of this order at this place, counted in runs of the order.
fn slot(order: u32, place: usize) -> usize
    requires known { order ≤ 10 }
    requires within { place < 2 ^ (12 - order) }
    ensures slot { result ≡ slot order place }
    ensures inside { 0 < order → result < 4096 }
{
    (1 << (12 - order)) + place
}

/// The orders of the blocks in a run.
fn kept(marks: &[bool], orders: &[u16], order: u32, place: usize) -> u16
    requires known { order ≤ 10 }
    requires within { place < 2 ^ (12 - order) }
    requires size { length orders.now ≡ 4096 }
    ensures { result ≡ kept_of marks.now orders.now order place }
{
    if order > 0 {
        return orders[slot(order, place)];
    }
    if place < marks.len() && marks[place] {
        1
    } else {
        0
    }
}

/// Whether a run has a block of `wanted` in it.
fn has(marks: &[bool], orders: &[u16], order: u32, place: usize, wanted: u32) -> bool
    requires known { order ≤ 10 }
    requires within { place < 2 ^ (12 - order) }
    requires wanted { wanted ≤ 10 }
    requires index { IsIndex marks.now orders.now }
    ensures { IsTrue result ↔ (bit_at (orders_in marks.now order place) wanted ≡ 1) }
{
    (kept(marks, orders, order, place) >> wanted) & 1 == 1
}

/// The orders of a run by those of its halves, which are of this order.
fn joined(order: u32, left: u16, right: u16) -> u16
    requires { order ≤ 9 }
    ensures { result ≡ joined order left right }
{
    if left == 1 << order && right == 1 << order {
        1 << (order + 1)
    } else {
        left | right
    }
}

/// Joins the halves, which are of this order, of the run at `place`.
fn refresh_run(orders: &mut [u16], marks: &[bool], order: u32, place: usize)
    requires known { order ≤ 9 }
    requires within { place < 2 ^ (11 - order) }
    requires size { length orders.old ≡ 4096 }
    ensures { orders.new ≡ slice_set orders.old (slot (order + 1) place) (joined order (kept_of marks.now orders.old order (2 * place)) (kept_of marks.now orders.old order (2 * place + 1))) }
{
    let left = kept(marks, orders, order, 2 * place);
    let right = kept(marks, orders, order, 2 * place + 1);
    orders[slot(order + 1, place)] = joined(order, left, right);
}

/// Brings the tree up to date where frames from `first` to `last` changed.
pub fn refresh(orders: &mut [u16], marks: &[bool], first: usize, last: usize)
    requires rising { first ≤ last }
    requires few { last < 4096 }
    requires outside { IsIndexOutside marks.now orders.old first last }
    ensures { IsIndex marks.now orders.new }
{
    for order in 0..MAX_ORDER {
        for place in first >> (order + 1)..(last >> (order + 1)) + 1 {
            refresh_run(orders, marks, order, place);
        }
    }
}

/// Marks a run as free or as not free, and brings the tree up to date.
pub fn set_run(marks: &mut [bool], orders: &mut [u16], frame: usize, order: u32, free: bool)
    requires known { order ≤ 10 }
    requires inside { frame + 2 ^ order ≤ length marks.old }
    requires few { length marks.old ≤ 4096 }
    requires index { IsIndex marks.old orders.old }
    ensures marks { marks.new ≡ take frame marks.old ++ replicate (2 ^ order) free ++ drop (frame + 2 ^ order) marks.old }
    ensures index { IsIndex marks.new orders.new }
{
    marks::set_run(marks, frame, order, free);
    refresh(orders, marks, frame, frame + run_len(order) - 1);
}

/// The lowest block of this order in the run of order 10 at `top`.
fn lowest_block_in(marks: &[bool], orders: &[u16], top: usize, order: u32) -> usize
    requires known { order ≤ 10 }
    requires few { top < 4 }
    requires index { IsIndex marks.now orders.now }
    requires found { bit_at (orders_in marks.now 10 top) order ≡ 1 }
    requires none_below { (t : ℕ) → t < top → ¬ (bit_at (orders_in marks.now 10 t) order ≡ 1) }
    ensures block { IsBlock (free_of marks.now) result order }
    ensures lowest { (e : ℕ) → e < result → ¬ IsBlock (free_of marks.now) e order }
{
    let mut level = MAX_ORDER;
    let mut place = top;
    while level > order {
        level -= 1;
        place = 2 * place;
        if !has(marks, orders, level, place, order) {
            place += 1;
        }
    }
    place * run_len(order)
}

/// The lowest block of exactly this order.
fn lowest_block(marks: &[bool], orders: &[u16], order: u32) -> Option<usize>
    requires known { order ≤ 10 }
    requires few { length marks.now ≤ 4096 }
    requires index { IsIndex marks.now orders.now }
    ensures block { IfSome result (λ frame. IsBlock (free_of marks.now) frame order) }
    ensures lowest { IfSome result (λ frame. (e : ℕ) → e < frame → ¬ IsBlock (free_of marks.now) e order) }
    ensures none { IfNone result ((e : ℕ) → ¬ IsBlock (free_of marks.now) e order) }
{
    for top in 0..4 {
        if has(marks, orders, MAX_ORDER, top, order) {
            return Some(lowest_block_in(marks, orders, top, order));
        }
    }
    None
}

/// The lowest block of the least order from `order` on that has one.
pub fn least_block(marks: &[bool], orders: &[u16], order: u32) -> Option<usize>
    requires known { order ≤ 10 }
    requires few { length marks.now ≤ 4096 }
    requires index { IsIndex marks.now orders.now }
    ensures taken { IfSome result (IsTaken (free_of marks.now) order) }
    ensures none { IfNone result (HasNoBlock (free_of marks.now) order) }
{
    for greater in order..MAX_ORDER + 1 {
        if let Some(frame) = lowest_block(marks, orders, greater) {
            return Some(frame);
        }
    }
    None
}
