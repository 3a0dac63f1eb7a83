//! What follows of the ids from item to item, for the crates above. None of these does anything.

ghost use Rattle.slub_open_close.specs.IdLaws.{FirstIdsFit, ItemsKeepIds};

/// The first ids fit the opening machine of a trace that is read.
pub fn first_ids_fit()
    ensures { FirstIdsFit }
{}

/// And what an item other than a round and a client's line leaves of ids that fit fits what it leaves of the lists.
pub fn items_keep_ids()
    ensures { ItemsKeepIds }
{}
