//! What all workers share: the words, what the locks guard that no worker has, and what stays while a round runs.

ghost use Rattle.std.specs.Prelude.{◌≡◌, ℕ, ◌+◌, ◌*◌, ◌<◌, ◌≤◌, [], false, slice_index_or, IfOk, IfErr, length, vec_capacity};
ghost use Rattle.std.specs.Mem.Slots.{slots_items, slots_filled, slots_len, IsFull};
ghost use Rattle.slub_workers.specs.Cells.{by_number};
ghost use Rattle.slub_workers.specs.Rule.{first_view};
ghost use Rattle.slub_workers.specs.Round.{HasClosed, IsUnchanged, MayWork, begun_by};

use crate::cell::{cell, rearrange};
use crate::rule::{Key, Ruled, View};
use crate::workers::Ended;
use atomic_table::{Closed, Refused, Seat};
use crossbeam_utils::CachePadded;
use slub_common::no_memory::NoMemory;
use slub_core::guarded::Guarded;
use slub_core::setup::Setup;
use slub_core::worker_local::Local;
use slub_schedule::table::Table;
use slub_turns::machine::StepMachine;
use slub_words::words::Words;
use std::alloc::Global;
use std::snapshot::Snapshot;
use std::sync::atomic::AtomicU64;

pub(crate) type Cells = atomic_table::Table<Guarded, View, Key, Ruled, Global>;

pub(crate) type WorkerSeat = Seat<Guarded, View>;

/// The table that the workers of a round share.
pub struct Shared {
    /// What a lock guards lies in the slot of its number.
    pub(crate) words: Cells,
    pub(crate) setup: Setup,
    /// In which the words stood before the round, and stand again after it. Nothing reads it until then.
    table: Table,
    /// Frame 0 counts.
    pub(crate) frames: u32,
    /// Object numbers are below this one; 0 is none.
    pub(crate) objects: u32,
    /// How many sleep, or are about to look whether they are to; apart from what every step reads.
    pub(crate) asleep: CachePadded<AtomicU64>,
    ghost sizes: { (setup.frames ≡ frames) × (setup.objects ≡ objects) },
    ghost many: { 2 ≤ frames },
    ghost words_are: { words.shared.table_id.words ≡ 1056 + 514 * frames + objects },
    ghost slots: { words.shared.table_id.slots ≡ 33 },
    ghost facts: { words.shared.key.facts ≡ setup },
    ghost stood: { words.shared.key.table ≡ table },
    ghost room: { length table.words ≡ words.shared.table_id.words },
}

/// There was no memory: the machine is as it was.
#[derive(Debug, Drop)]
pub struct Unopened {
    pub machine: StepMachine,
}

/// A table that was opened. The seat knows of all workers.
pub(crate) struct Opened {
    pub(crate) shared: Shared,
    pub(crate) root: WorkerSeat,
    /// In rising number.
    pub(crate) locals: Vec<Local>,
}

impl Shared {
    /// Opens a table with the words of the machine, each in its cell, and with what its locks guard in the slots.
    pub(crate) fn open(
        alloc: Global,
        frames: u32,
        objects: u32,
        mut machine: StepMachine,
    ) -> Result<Opened, Unopened>
        requires sizes { (frames ≡ machine.table.frames) × (objects ≡ machine.table.objects) }
        requires work { MayWork machine }
        ensures key { IfOk result (λ o. o.shared.words.shared.key ≡ begun_by machine) }
        ensures root { IfOk result (λ o. (o.root.table_id ≡ o.shared.words.shared.table_id) × (o.root.me ≡ (first_view o.shared.words.shared.key, []))) }
        ensures locals { IfOk result (λ o. o.locals ≡ machine.locals) }
        ensures unopened { IfErr result (λ u. IsUnchanged machine u.machine) }
    {
        let Ok(cells) = cells_of(alloc, &mut machine.table) else {
            return Err(Unopened { machine });
        };
        let key = Key {
            machine: Snapshot::of(&machine),
        };
        let StepMachine {
            setup,
            mut table,
            values,
            locals,
        } = machine;
        let made = Cells::new(alloc, cells.as_slice(), values, &key);
        keep_cells(&mut table, cells);
        match made {
            Ok((words, root)) => Ok(Opened {
                shared: Shared {
                    words,
                    setup,
                    table,
                    frames,
                    objects,
                    asleep: CachePadded::new(AtomicU64::new(0)),
                },
                root,
                locals,
            }),
            Err(Refused { slots: values }) => Err(Unopened {
                machine: StepMachine {
                    setup,
                    table,
                    values,
                    locals,
                },
            }),
        }
    }

    ghost use Rattle.slub_workers.specs.Ends.{AreGathered};

    /// The machine as the last step left it, where all workers have given their seats back. It takes no memory: the
    /// words go into the machine's own table, and there is room for what the locks guard.
    pub fn close(self, ended: Ended) -> StepMachine
        requires ended { AreGathered self.words.shared.table_id (length self.words.shared.key.locals) ended }
        ensures closed { HasClosed self.words.shared.key ended.tried (begun_by result) }
        ensures locals { result.locals ≡ ended.locals }
    {
        let Shared {
            words: cells,
            setup,
            mut table,
            frames: _,
            objects: _,
            asleep: _,
        } = self;
        let Ended {
            root,
            values,
            locals,
            tried: _,
        } = ended;
        let mut closed = cells.close_with(root);
        table.fill(&ByNumber { closed: &closed });
        let values = values_of(&mut closed, values);
        closed.free();
        StepMachine {
            setup,
            table,
            values,
            locals,
        }
    }
}

/// The words of a table, each in its cell, in a row that the table is to get back.
fn cells_of(alloc: Global, table: &mut Table) -> Result<Vec<u64>, NoMemory>
    requires { 1569 ≤ length table.old.words }
    ensures table { table.new ≡ table.old }
    ensures cells { IfOk result (λ cells. cells.items ≡ by_number table.old.words) }
{
    let mut cells = table.lend_row(alloc)?;
    rearrange(cells.as_mut_slice());
    Ok(cells)
}

/// Gives a table its row back, in which its words lie in their cells.
fn keep_cells(table: &mut Table, mut cells: Vec<u64>)
    requires all { 1569 ≤ length table.old.words }
    requires cells { cells.items ≡ by_number table.old.words }
    ensures { table.new ≡ table.old }
{
    rearrange(cells.as_mut_slice());
    table.keep_row(cells);
}

/// The words of a closed table, read in the order of their numbers.
#[derive(Drop)]
struct ByNumber<'a> {
    closed: &'a Closed<Guarded, Global>,
    ghost full: { IsFull closed.now.words },
    ghost all: { 1569 ≤ slots_len closed.now.words },
}

impl Words for ByNumber<'_> {
    ghost use Rattle.std.specs.Mem.Slots.{slots_items};
    ghost use Rattle.slub_workers.specs.Cells.{by_number};

    ghost all = { λ words. by_number (slots_items words.closed.now.words) };

    #[inline(always)]
    fn word(&self, at: usize) -> u64 {
        self.closed.word(cell(at))
    }
}

/// What the locks guard, by the number of the lock. There is room for it.
fn values_of(closed: &mut Closed<Guarded, Global>, mut values: Vec<Guarded>) -> Vec<Guarded>
    requires count { (slots_len closed.old.slots ≡ 33) × IsFull closed.old.slots }
    requires room { (values.items ≡ []) × (33 ≤ vec_capacity values) }
    ensures values { result.items ≡ slots_items closed.old.slots }
    ensures taken { (k : ℕ) → k < slots_len closed.new.slots → slice_index_or (slots_filled closed.new.slots) k false ≡ false }
{
    for lock in 0..33 {
        values.push_reserved(closed.take(lock));
    }
    values
}
