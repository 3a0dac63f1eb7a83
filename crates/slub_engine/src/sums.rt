//! The sums of the total line.

ghost use Rattle.std.specs.Prelude.{◌≡◌, ◌+◌, ◌*◌, ◌^◌, ◌<◌, reverse};
ghost use Rattle.slub_lists.specs.Coherent.{IsCoherent};
ghost use Rattle.slub_slabinfo_text.specs.Lawful.{all_freed, all_given, freed_by, freed_in, freed_of, given_by, given_in, given_of};

use crate::counts::cache_counts;
use slub_list_machine::lists::Lists;
use slub_slabinfo_text::client::ClientRound;
use slub_slabinfo_text::counts::Counts;
use slub_slabinfo_text::journal::Done;
use slub_trace::ledger::Ledger;

/// Sums of the counts of caches.
#[derive(Clone, Copy)]
pub(crate) struct CacheSums {
    pub(crate) live: u64,
    pub(crate) free: u64,
    pub(crate) aside: u64,
    pub(crate) frozen: u64,
    pub(crate) slabs: u64,
}

impl CacheSums {
    ghost use Rattle.slub_engine.specs.Sums.{AreAtMost, AreSums, IsAtMost};

    /// The sums over the live caches. It takes no memory.
    pub(crate) fn of(lists: &Lists) -> CacheSums
        requires { IsCoherent lists.now }
        ensures { AreSums lists.now (reverse lists.now.table.ages) result }
    {
        let ages = lists.caches().in_order();
        let mut sums = CacheSums {
            live: 0,
            free: 0,
            aside: 0,
            frozen: 0,
            slabs: 0,
        };
        for cache in ages {
            sums.add(&cache_counts(lists, *cache));
        }
        sums
    }

    /// Adds the counts of one cache.
    fn add(&mut self, counts: &Counts)
        requires room { AreAtMost (32 * 2 ^ 32) self.old }
        requires small { IsAtMost (2 ^ 32) counts.now }
        ensures live { self.new.live ≡ self.old.live + counts.now.live }
        ensures free { self.new.free ≡ self.old.free + counts.now.free }
        ensures aside { self.new.aside ≡ self.old.aside + counts.now.aside }
        ensures frozen { self.new.frozen ≡ self.old.frozen + counts.now.frozen }
        ensures slabs { self.new.slabs ≡ self.old.slabs + counts.now.num_slabs }
    {
        self.live += counts.live;
        self.free += counts.free;
        self.aside += counts.aside;
        self.frozen += counts.frozen;
        self.slabs += counts.num_slabs;
    }
}

/// How many objects were given, by all ledgers.
pub(crate) fn given(items: &[Done]) -> u64
    requires { all_given items.now < 2 ^ 64 }
    ensures { result ≡ all_given items.now }
{
    let mut given = 0;
    for done in items {
        given += given_of(done);
    }
    given
}

/// How many objects were freed, by all ledgers.
pub(crate) fn freed(items: &[Done]) -> u64
    requires { all_freed items.now < 2 ^ 64 }
    ensures { result ≡ all_freed items.now }
{
    let mut freed = 0;
    for done in items {
        freed += freed_of(done);
    }
    freed
}

/// How many objects an item gave.
fn given_of(done: &Done) -> u64
    requires { given_of done.now < 2 ^ 64 }
    ensures { result ≡ given_of done.now }
{
    match done {
        Done::Round(outcome) => given_in(outcome.ledgers.as_slice()),
        Done::Client(outcome) => given_by(outcome.rounds.as_slice()),
        Done::Created(_)
        | Done::Shrunk(_)
        | Done::Destroyed(_)
        | Done::Slabinfo(_)
        | Done::Tuned(_) => 0,
    }
}

/// How many objects an item freed.
fn freed_of(done: &Done) -> u64
    requires { freed_of done.now < 2 ^ 64 }
    ensures { result ≡ freed_of done.now }
{
    match done {
        Done::Round(outcome) => freed_in(outcome.ledgers.as_slice()),
        Done::Client(outcome) => freed_by(outcome.rounds.as_slice()),
        Done::Created(_)
        | Done::Shrunk(_)
        | Done::Destroyed(_)
        | Done::Slabinfo(_)
        | Done::Tuned(_) => 0,
    }
}

/// How many objects a client's rounds gave.
fn given_by(rounds: &[ClientRound]) -> u64
    requires { given_by rounds.now < 2 ^ 64 }
    ensures { result ≡ given_by rounds.now }
{
    let mut given = 0;
    for round in rounds {
        given += given_in(round.result.ledgers.as_slice());
    }
    given
}

/// How many objects a client's rounds freed.
fn freed_by(rounds: &[ClientRound]) -> u64
    requires { freed_by rounds.now < 2 ^ 64 }
    ensures { result ≡ freed_by rounds.now }
{
    let mut freed = 0;
    for round in rounds {
        freed += freed_in(round.result.ledgers.as_slice());
    }
    freed
}

fn given_in(ledgers: &[Ledger]) -> u64
    requires { given_in ledgers.now < 2 ^ 64 }
    ensures { result ≡ given_in ledgers.now }
{
    ledgers.iter().map(|ledger| ledger.given).sum()
}

fn freed_in(ledgers: &[Ledger]) -> u64
    requires { freed_in ledgers.now < 2 ^ 64 }
    ensures { result ≡ freed_in ledgers.now }
{
    ledgers.iter().map(|ledger| ledger.freed).sum()
}
