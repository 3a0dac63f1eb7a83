//! The live names of a machine.

ghost use Rattle.std.specs.Prelude.{◌≡◌, ℕ, List, [], ◌∷◌, ◌++◌, position, OnErr, OnOk};
ghost use Rattle.std.specs.Map.{remove_entry};
ghost use Rattle.std.specs.Str.{bytes_eq};

use slub_common::no_memory::NoMemory;
use slub_object_layout::name::Name;
use std::alloc::Global;
use std::marker::Model;

/// The live names, each with the number of its cache, in the order in which they were made. Contracts
/// see the list.
#[derive(Debug, Drop)]
pub struct LiveNames {
    named: Vec<(Name, u8)>,
}

impl Model for LiveNames {
    ghost use Rattle.std.specs.Prelude.{ℕ, List};

    ghost Value = { List (List ℕ × ℕ) };

    ghost view = { λ names. names.named.items };
}

impl LiveNames {
    /// No name is live. It takes no memory.
    pub fn new(alloc: Global) -> LiveNames
        ensures { result ≡ [] }
    {
        LiveNames {
            named: Vec::new(alloc),
        }
    }

    /// A name was made, as one of this cache.
    pub fn add(&mut self, name: &Name, cache: u8) -> Result<(), NoMemory>
        ensures added { OnOk result (self.new ≡ self.old ++ (name.now, cache) ∷ []) }
        ensures unchanged { OnErr result (self.new ≡ self.old) }
    {
        self.named.push((*name, cache))?;
        Ok(())
    }

    /// A name was destroyed.
    pub fn remove(&mut self, name: &Name)
        ensures { self.new ≡ remove_entry (bytes_eq name.now) self.old }
    {
        if let Some(place) = place_of(self.named.as_slice(), name) {
            let _removed = self.named.remove(place);
        }
    }

    /// The names, each with the number of its cache.
    pub fn as_slice(&self) -> &[(Name, u8)]
        ensures { result.now ≡ self.now }
    {
        self.named.as_slice()
    }
}

/// Where a name stands.
fn place_of(named: &[(Name, u8)], name: &Name) -> Option<usize>
    ensures { result ≡ position (λ (entry : List ℕ × ℕ). bytes_eq name.now entry.0) named.now }
{
    named.iter().position(|entry| *name == entry.0)
}
