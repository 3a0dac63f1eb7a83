//! What a round by steps leaves.

use slub_list_machine::lists::Lists;
use slub_open_close::ids::Ids;
use slub_slabinfo_text::journal::RoundResult;

/// What a round leaves.
#[derive(Debug, Drop)]
pub struct Ended {
    pub lists: Lists,
    /// The transaction ids beside them.
    pub ids: Ids,
    pub result: RoundResult,
}
