//! A list field: a vector that contracts see as the list of its elements.

ghost use Rattle.std.specs.Prelude.{◌≡◌, ◌↔◌, List, [], ◌∷◌, ◌++◌, length, IfOk, IsTrue, if◌then◌else◌, is_ok, option_copied, slice_get};

use std::alloc::{AllocError, AllocFailed, Global};
use std::marker::Model;

/// A list. Contracts see its elements in order and nothing else.
#[derive(Debug, Drop)]
pub struct Sequence<T> {
    items: Vec<T>,
}

impl<T> Model for Sequence<T> {
    ghost Value = { List T };

    ghost view = { λ s. s.items.items };
}

impl<T> Sequence<T> {
    /// The empty list. It takes no memory.
    pub fn new(alloc: Global) -> Sequence<T>
        ensures { result ≡ [] }
    {
        Sequence {
            items: Vec::new(alloc),
        }
    }

    /// The empty list, with room for so many elements.
    pub fn with_capacity(alloc: Global, capacity: usize) -> Result<Sequence<T>, AllocError>
        ensures { IfOk result (λ s. s ≡ []) }
    {
        Ok(Sequence {
            items: Vec::with_capacity(alloc, capacity)?,
        })
    }

    /// The list of a vector. It takes no memory.
    pub fn from_vec(items: Vec<T>) -> Sequence<T>
        ensures { result ≡ items.items }
    {
        Sequence { items }
    }

    /// The vector again. It takes no memory.
    pub fn into_vec(self) -> Vec<T>
        ensures { result.items ≡ self }
    {
        self.items
    }

    /// Puts an element at the end.
    pub fn push(&mut self, value: T) -> Result<(), AllocFailed<T>>
        ensures { self.new ≡ (if is_ok result then self.old ++ value ∷ [] else self.old) }
    {
        self.items.push(value)
    }

    /// The elements.
    pub fn as_slice(&self) -> &[T]
        ensures { result.now ≡ self.now }
    {
        self.items.as_slice()
    }

    /// The element at a place; None past the end.
    pub fn get(&self, index: usize) -> Option<&T>
        ensures { option_copied result ≡ slice_get self.now index }
    {
        self.items.as_slice().get(index)
    }

    pub fn is_empty(&self) -> bool
        ensures { IsTrue result ↔ (self.now ≡ []) }
    {
        self.items.is_empty()
    }

    pub fn len(&self) -> usize
        ensures { result ≡ length self.now }
    {
        self.items.len()
    }
}
