//! The object numbers that lines may allocate.

ghost use Rattle.std.specs.Prelude.{◌≡◌, ◌<◌, ◌∷◌, ◌++◌, [], OnOk, nat_eq, false};
ghost use Rattle.std.specs.List.{list_any};
ghost use Rattle.slub_trace_reader.specs.Above.{with_one};
ghost use Rattle.slub_trace_reader.specs.State.{IsMarked};

use slub_common::sequence::Sequence;
use std::alloc::{AllocError, Global};

/// How many marks are made at a time.
const MARKS: usize = 1024;

/// Object numbers, each once and in the order in which they came. A look takes one step.
#[derive(Drop)]
pub(crate) struct Objects {
    pub(crate) keys: Sequence<u32>,
    /// Which numbers are among them, a mark for each number up to the greatest.
    pub(crate) marks: Vec<bool>,
}

impl Objects {
    /// No numbers. It takes no memory.
    pub(crate) fn new(alloc: Global) -> Objects
        ensures empty { result.keys ≡ [] }
        ensures marked { IsMarked result }
    {
        Objects {
            keys: Sequence::new(alloc),
            marks: Vec::new(alloc),
        }
    }

    /// Whether a number is among them.
    pub(crate) fn has(&self, object: u32) -> bool
        requires { IsMarked self.now }
        ensures { result ≡ list_any (nat_eq object) self.now.keys }
    {
        self.marks.get(object as usize).copied().unwrap_or(false)
    }

    /// Puts a number that is new behind the others.
    pub(crate) fn add(&mut self, object: u32) -> Result<(), AllocError>
        requires marked { IsMarked self.old }
        requires fresh { list_any (nat_eq object) self.old.keys ≡ false }
        ensures put { OnOk result (self.new.keys ≡ self.old.keys ++ object ∷ []) }
        ensures marked { OnOk result (IsMarked self.new) }
    {
        self.keys.push(object)?;
        let at = object as usize;
        if self.marks.len() <= at {
            self.marks.resize(at + MARKS, false)?;
        }
        self.marks[at] = true;
        Ok(())
    }

    /// Puts a number behind the others, where it is new.
    pub(crate) fn put(&mut self, object: u32) -> Result<(), AllocError>
        requires marked { IsMarked self.old }
        ensures put { OnOk result (self.new.keys ≡ with_one nat_eq self.old.keys object) }
        ensures marked { OnOk result (IsMarked self.new) }
    {
        if self.has(object) {
            return Ok(());
        }
        self.add(object)
    }
}
