//! The text of a state.

ghost use Rattle.std.specs.Prelude.{◌≡◌, ◌++◌, OnOk};
ghost use Rattle.slub_lists.specs.Coherent.{IsCoherent};
ghost use Rattle.slub_state_text.specs.State.{state_text};

use crate::board::push_board;
use crate::caches::push_caches;
use crate::pool::push_pool;
use slub_common::no_memory::NoMemory;
use slub_list_machine::lists::Lists;
use slub_object_layout::name::Name;

/// Puts the rows of a state behind a text.
///
/// `first` is the trace's first transaction id, and `ids` has those of the CPU words, by 16 * cache +
/// CPU. `live` has the live names, each with the number of its cache, in the order in which they were
/// made.
///
/// The cost is a pass over the board, one over the CPUs and the frames for each live cache, and one
/// over each list.
#[tactic(auto, unfolding(crate::specs::State::state_text))]
pub fn push_state(
    text: &mut Vec<u8>,
    lists: &Lists,
    first: u32,
    ids: &[u32],
    live: &[(Name, u8)],
) -> Result<(), NoMemory>
    requires coherent { IsCoherent lists.now }
    ensures { OnOk result (text.new.items ≡
        text.old.items ++ state_text lists.now first ids.now live.now) }
{
    push_pool(text, lists)?;
    push_caches(text, lists, first, ids, live)?;
    push_board(text, lists.board())?;
    Ok(())
}
