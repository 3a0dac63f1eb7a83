//! Runs of object numbers.

ghost use Rattle.std.specs.Prelude.{◌≡◌, ◌+◌, ◌++◌, ◌<◌, ◌^◌, ◌↔◌, All, IfOk, IsTrue, OnOk, fold, max, nat_eq, true, false};
ghost use Rattle.std.specs.List.{list_any, range_with_len};
ghost use Rattle.slub_trace_reader.specs.State.{IsMarked};

use crate::objects::Objects;
use std::alloc::AllocError;

/// Puts so many numbers, from the first on, behind the others, and answers the greatest of all.
pub(crate) fn allocate(
    objects: &mut Objects,
    greatest: u32,
    first: u32,
    count: u32,
) -> Result<u32, AllocError>
    requires fits { first + count < 2 ^ 32 }
    requires marked { IsMarked objects.old }
    requires fresh { All (λ object. list_any (nat_eq object) objects.old.keys ≡ false) (range_with_len first count) }
    requires greatest { greatest ≡ fold max 0 objects.old.keys }
    ensures put { OnOk result (objects.new.keys ≡ objects.old.keys ++ range_with_len first count) }
    ensures marked { OnOk result (IsMarked objects.new) }
    ensures greatest { IfOk result (λ greatest. greatest ≡ fold max 0 objects.new.keys) }
{
    let mut most = greatest;
    for object in first..first + count {
        objects.put(object)?;
        most = most.max(object);
    }
    Ok(most)
}

/// Whether none of so many numbers, from the first on, is there.
pub(crate) fn has_none(objects: &Objects, first: u32, count: u32) -> bool
    requires fits { first + count < 2 ^ 32 }
    requires marked { IsMarked objects.now }
    ensures { IsTrue result ↔ All (λ object. list_any (nat_eq object) objects.now.keys ≡ false) (range_with_len first count) }
{
    for object in first..first + count {
        if objects.has(object) {
            return false;
        }
    }
    true
}

/// Whether each of so many numbers, from the first on, is there.
pub(crate) fn has_all(objects: &Objects, first: u32, count: u32) -> bool
    requires fits { first + count < 2 ^ 32 }
    requires marked { IsMarked objects.now }
    ensures { IsTrue result ↔ All (λ object. list_any (nat_eq object) objects.now.keys ≡ true) (range_with_len first count) }
{
    for object in first..first + count {
        if !objects.has(object) {
            return false;
        }
    }
    true
}
