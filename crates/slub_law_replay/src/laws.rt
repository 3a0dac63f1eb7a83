//! What follows from the definitions. None of these does anything.

ghost use Rattle.slub_law_replay.specs.Laws.{ItemsLeaveRoom, LinesLeaveIds, ReadyLinesMayBeServed, ReadyRoundsMayBeDone, RoundsOfAnyWayAreLawful};
ghost use Rattle.slub_law_replay.specs.WordReads.{ReadsFollowWrites};

/// A round that is done by any way is lawful in the words of the text: each reply has its cause, and the board, the
/// want of frames, reports and objects set aside are as the text says.
pub fn rounds_of_any_way_are_lawful()
    ensures { RoundsOfAnyWayAreLawful }
{}

/// A machine that stands before a round of a sound trace can do it: the round's numbers are the machine's, what it
/// allocates isn't there yet, and no counter comes to its end.
pub fn ready_rounds_may_be_done()
    ensures { ReadyRoundsMayBeDone }
{}

/// The heap of a machine that stands before a client's line of a sound trace is such that the line can be served, and
/// that what comes after it may be asked, too.
pub fn ready_lines_may_be_served()
    ensures { ReadyLinesMayBeServed }
{}

/// After a client's line transaction ids stand beside the lists where they stood before it.
pub fn lines_leave_ids()
    ensures { LinesLeaveIds }
{}

/// After an item each count of wanted frames is as far from its end as numbers are still to be allocated.
pub fn items_leave_room()
    ensures { ItemsLeaveRoom }
{}

/// In a lawful round of a sound trace a read is answered with a value only where its worker put each byte of the word
/// since the object was given; or it took the object from the board, by a free that found it damaged.
pub fn reads_follow_writes()
    ensures { ReadsFollowWrites }
{}
