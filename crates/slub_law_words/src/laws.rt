//! What words are, and that changes under a lock end. None of the functions does anything.

ghost use Rattle.slub_law_words.specs.Laws.{TurnsKeepWords, RunsKeepWords, OpenedWordsArePacked, RoundsKeepWords, ChangesEnd, WorkersGoOn};

/// The turn of any worker of a coherent machine leaves words that have no bit beyond their fields, where there were
/// such words before.
pub fn turns_keep_words()
    ensures { TurnsKeepWords }
{}

/// There are such words before each turn of a run and after the last one, in whatever order the workers make them.
pub fn runs_keep_words()
    ensures { RunsKeepWords }
{}

/// Coherent lists open into such words.
pub fn opened_words_are_packed()
    ensures { OpenedWordsArePacked }
{}

/// So a round that begins with coherent lists has such words at each time.
pub fn rounds_keep_words()
    ensures { RoundsKeepWords }
{}

/// After two changes under a lock nothing is left to be done at once, whatever came before.
pub fn changes_end()
    ensures { ChangesEnd }
{}

/// In a round each worker is between two calls or has a step to make, before each turn and after the last one; and no
/// trim and no flush is made under a checked cache's lock.
pub fn workers_go_on()
    ensures { WorkersGoOn }
{}
