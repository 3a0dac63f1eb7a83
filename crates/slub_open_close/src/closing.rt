//! A machine in words, no worker of which is in a call, closes into plain lists.

ghost use Rattle.slub_core.specs.World.{World};
ghost use Rattle.slub_lists.specs.State.{State};
ghost use Rattle.slub_core.specs.Values.{values_of};
ghost use Rattle.slub_law_opening.specs.Opening as opening;
ghost use Rattle.slub_open_close.specs.Beside.{beside_of};
ghost use Rattle.slub_open_close.specs.Closing.{IsEnded, IsClosed, MayTakeBack, HasSizes, IsWrittenBack, IsPutTogether, system_of};

use crate::beside::Beside;
use crate::board::{close_board, count_live};
use crate::cpus::{close_cpus, close_tids};
use crate::nodes::take_back;
use crate::opened::Rest;
use crate::slabs::{close_frees, close_slabs};
use slub_core::guarded::Guarded;
use slub_core::setup::Setup;
use slub_core::worker_local::Local;
use slub_list_machine::lists::Lists;
use slub_list_machine::parts::Parts;
use slub_schedule::table::Table;
use slub_words::memory::Memory;

/// Closes a machine in words into plain lists and what stands beside them, once no worker is in a call. It takes no
/// memory: all is written into the vectors that opening kept, and what the locks guarded and the words of the frames
/// are moved back.
pub fn close(
    setup: &Setup,
    table: Table,
    values: Vec<Guarded>,
    rest: Rest,
    locals: &[Local],
) -> (Lists, Beside)
    requires { (s : State) × (b : opening.Beside) × (world : World) × IsEnded setup.now table values.items rest locals.now s b world }
    ensures { (s : State) (b : opening.Beside) (world : World) → IsEnded setup.now table values.items rest locals.now s b world → IsClosed s b (system_of table values.items locals.now) result.0 (beside_of result.1 b.means) }
{
    let mut rest = rest;
    write_lists(setup, &table, table.memory(), &values, locals, &mut rest);
    put_together(setup.step(), values, rest, table.into_memory())
}

/// Writes what the words say into the vectors that waited.
fn write_lists(
    setup: &Setup,
    table: &Table,
    memory: &Memory,
    values: &[Guarded],
    locals: &[Local],
    rest: &mut Rest,
)
    requires { HasSizes rest.old }
    ensures { IsWrittenBack setup.now table.now.words memory.now (values_of values.now) locals.now rest.old rest.new }
{
    let board = 1056 + rest.frames as usize;
    let links = board + rest.board.len() + 512 * rest.frames as usize;
    close_slabs(setup, table, values, &mut rest.slabs);
    close_frees(setup, table, memory, rest.frames, &mut rest.frees);
    let cpus = rest.cpus as usize;
    close_cpus(setup, table, memory, links, cpus, &mut rest.cpu_lists);
    close_board(table, board, locals, &mut rest.board);
    rest.gone.fill(None);
    count_live(&rest.board, &mut rest.live);
    close_tids(table, &mut rest.tids);
    rest.links.fill(0);
}

/// Moves back what the locks guarded, and puts the machine together.
pub(crate) fn put_together(
    step: u32,
    values: Vec<Guarded>,
    rest: Rest,
    memory: Memory,
) -> (Lists, Beside)
    requires { MayTakeBack values.items rest }
    ensures { IsPutTogether step (values_of values.items) rest memory result.0 result.1 }
{
    let Rest {
        frames,
        cpus,
        table,
        slabs,
        frees,
        cpu_lists,
        mut nodes,
        kept,
        mut checked,
        board,
        gone,
        live,
        tids,
        links,
    } = rest;
    let pool = take_back(values, kept, &mut nodes, &mut checked);
    let lists = Lists::from_parts(Parts {
        frames,
        cpus,
        pool,
        slabs,
        frees,
        table,
        cpu_lists,
        nodes,
        checked,
        memory,
        board,
        gone,
        live,
    });
    (lists, Beside { tids, links, step })
}
