//! A machine that was opened is put together again where its round couldn't begin.

ghost use Rattle.std.specs.Prelude.{◌≡◌};
ghost use Rattle.slub_lists.specs.State.{State};
ghost use Rattle.slub_open_close.specs.Undoing.{WasOpened};

use crate::closing::put_together;
use crate::opened::Rest;
use slub_core::guarded::Guarded;
use slub_list_machine::lists::Lists;
use slub_words::memory::Memory;

/// Puts the lists together again that were opened, and on whose words nothing was done: they are as they were.
/// `memory` has the words of the frames from before the opening.
pub fn put_back(values: Vec<Guarded>, rest: Rest, memory: Memory) -> Lists
    requires { (s : State) × WasOpened s values.items rest memory }
    ensures { (s : State) → WasOpened s values.items rest memory → result ≡ s }
{
    let (lists, _beside) = put_together(1, values, rest, memory);
    lists
}
