//! What is written of an item, where it is shown.

ghost use Rattle.std.specs.Prelude.{◌<◌, ◌++◌, true, length};
ghost use Rattle.slub_trace.specs.Sound.{IsSound};
ghost use Rattle.slub_slabinfo_text.specs.Text.{text_at};
ghost use Rattle.slub_steps.specs.Inner.{WritesText};
ghost use Rattle.slub_steps.specs.Rounds.{if_shown};

use slub_asked::stop::Stop;
use slub_edges::edges::Sink;
use slub_edges::pieces::write_lines;
use slub_slabinfo_text::item::ItemText;
use slub_slabinfo_text::journal::Done;
use slub_trace::trace::Trace;
use std::alloc::Global;

/// Writes a text, if it is shown.
pub fn show<K: Sink>(sink: &mut K, is_shown: bool, text: &[u8]) -> Result<(), Stop>
    ensures { WritesText (record { taken = K.taken sink.old; faults = K.faults sink.old }) (record { taken = K.taken sink.new; faults = K.faults sink.new }) (if_shown is_shown text.now) result }
{
    if is_shown {
        write_lines(sink, text)?;
    }
    Ok(())
}

/// Writes a text, and behind it the replies and damages of the item of a number, if it is shown. What takes memory is
/// made before a byte is written.
pub fn write_item<K: Sink>(
    alloc: Global,
    sink: &mut K,
    trace: &Trace,
    number: usize,
    is_shown: bool,
    front: &[u8],
    done: &Done,
) -> Result<(), Stop>
    requires sound { IsSound trace.now }
    requires within { number < length trace.now.items }
    ensures { WritesText (record { taken = K.taken sink.old; faults = K.faults sink.old }) (record { taken = K.taken sink.new; faults = K.faults sink.new }) (if_shown is_shown (front.now ++ text_at true trace.now number done.now)) result }
{
    if is_shown {
        let mut text = ItemText::new(alloc);
        text.make(alloc, trace, number, done, true)?;
        write_lines(sink, front)?;
        text.write(sink, trace, number, done, true)?;
    }
    Ok(())
}
