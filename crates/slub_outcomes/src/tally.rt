//! Counting the outcomes of many seeds.

ghost use Rattle.std.specs.Prelude.{◌≡◌, ℕ, ◌+◌, ◌-◌, ◌^◌, ◌<◌, ◌↔◌, [], ◌∷◌, ◌++◌, List, IfOk, IsTrue, OnOk, length, map};
ghost use Rattle.std.proofs.Common.{rules};
ghost use Rattle.std.specs.Cmp.{partial_equiv_from_equiv};
ghost use Rattle.std.specs.Cmp.Lexicographic.{nat_list_eq_equiv};
ghost use Rattle.std.specs.Cmp.Rules.{hashing};
ghost use Rattle.std.specs.Hash as fed;
ghost use Rattle.std.specs.Str.{bytes_eq};
ghost use Rattle.slub_outcomes.specs.Tally.{AreOutcomes};
ghost use Rattle.slub_outcomes.specs.Tallies.{IsTallyOf, counted, outcome_of};

use slub_common::no_memory::NoMemory;
use std::alloc::Global;
use std::cmp::Reverse;
use std::collections::HashMap;
use std::hash::{Hash, Hasher};
use std::marker::Model;

/// The text of an outcome: the lines of its replies. Contracts see its bytes.
#[derive(Debug, Drop)]
pub struct Replies {
    text: Vec<u8>,
}

impl Model for Replies {
    ghost use Rattle.std.specs.Prelude.{ℕ, List};

    ghost Value = { List ℕ };

    ghost view = { λ replies. replies.text.items };
}

impl Replies {
    /// Those with this text. It takes no memory.
    pub fn of(text: Vec<u8>) -> Replies
        ensures { result ≡ text.items }
    {
        Replies { text }
    }

    /// The text.
    pub fn as_bytes(&self) -> &[u8]
        ensures { result.now ≡ self.now }
    {
        self.text.as_slice()
    }
}

impl PartialEq for Replies {
    ghost eq = { bytes_eq };

    ghost laws = { partial_equiv_from_equiv nat_list_eq_equiv };

    /// Whether the texts are equal.
    fn eq(&self, other: &Replies) -> bool
        ensures { IsTrue result ↔ (self.now ≡ other.now) }
    {
        self.as_bytes() == other.as_bytes()
    }
}

impl Eq for Replies {
    ghost laws = { nat_list_eq_equiv };
}

impl Hash for Replies {
    ghost hash_input = { λ n. fed.slice fed.u8 n };

    ghost respects_eq = { Prim.search (hashing, rules) };

    /// Feeds the text.
    fn hash<H: Hasher>(&self, state: &mut H) {
        self.as_bytes().hash(state);
    }
}

/// The seeds that have an outcome: how many, and the least of them.
#[derive(Clone, Copy, Debug, PartialEq, Eq)]
pub struct Seeds {
    /// 1 or more.
    pub count: u64,
    pub least: u64,
}

/// An outcome, and the seeds that have it.
#[derive(Debug, Drop)]
pub struct Outcome {
    pub replies: Replies,
    pub seeds: Seeds,
}

/// The outcomes of the seeds so far, each text once.
#[derive(Drop)]
pub struct Tally {
    pub(crate) seeds: HashMap<Replies, Seeds>,
}

impl Tally {
    /// Of no seed. It takes no memory.
    pub fn new(alloc: Global) -> Tally
        ensures { (from : ℕ) → IsTallyOf from [] result }
    {
        Tally {
            seeds: HashMap::new(alloc),
        }
    }

    /// Counts the outcome of one more seed, a greater one than those before.
    pub fn note(&mut self, replies: Replies, seed: u64) -> Result<(), NoMemory>
        requires { counted self.old < 2 ^ 64 - 1 }
        ensures { OnOk result ((from : ℕ) (texts : List (List ℕ)) → IsTallyOf from texts self.old
            → seed ≡ from + length texts → IsTallyOf from (texts ++ replies ∷ []) self.new) }
    {
        let seeds = match self.seeds.get(&replies) {
            Some(seeds) => Seeds {
                count: seeds.count + 1,
                least: seeds.least,
            },
            None => Seeds {
                count: 1,
                least: seed,
            },
        };
        self.seeds.insert(replies, seeds)?;
        Ok(())
    }

    /// The outcomes, in any order.
    fn unordered(self, alloc: Global) -> Result<Vec<Outcome>, NoMemory>
        ensures { IfOk result (λ outcomes. outcomes.items ≡ map outcome_of self.seeds.entries) }
    {
        let outcomes = self
            .seeds
            .into_iter()
            .map(|(replies, seeds)| Outcome { replies, seeds })
            .collect(alloc)?;
        Ok(outcomes)
    }

    /// The outcomes in their order.
    pub fn into_outcomes(self, alloc: Global) -> Result<Vec<Outcome>, NoMemory>
        ensures { IfOk result (λ outcomes. (from : ℕ) (texts : List (List ℕ))
            → IsTallyOf from texts self → AreOutcomes from texts outcomes.items) }
    {
        let mut outcomes = self.unordered(alloc)?;
        outcomes.sort_unstable_by_key(|outcome| {
            (Reverse(outcome.seeds.count), outcome.seeds.least)
        });
        Ok(outcomes)
    }
}
