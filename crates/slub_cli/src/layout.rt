//! Printing the layout of a cache.

ghost use Rattle.std.specs.Prelude.{◌≤◌};
ghost use Rattle.slub_edges.specs.Pieces.{Gives};
ghost use Rattle.slub_slabinfo_text.specs.Given.{AreWholeLines};
ghost use Rattle.slub_cli.specs.Inner.{PrintsLayout, StopsAtWriteFault};

use crate::status::{Status, answer_status};
use crate::stop::Stop;
use slub_edges::edges::Sink;
use slub_edges::pieces::write_lines;
use slub_object_layout::layout::{Spec, layout_of};
use slub_slabinfo_text::text::push_layout;
use std::alloc::Global;

/// Writes the twelve lines of a layout on a machine of `cpus` CPUs, 1 to 16, or the line of its
/// refusal (`calculate_sizes`). Where its text finds no memory, nothing is written.
pub fn print_layout<K: Sink>(
    alloc: Global,
    spec: &Spec,
    cpus: u32,
    sink: &mut K,
) -> Result<Status, Stop>
    requires some_cpu { 1 ≤ cpus }
    requires few_cpus { cpus ≤ 16 }
    ensures printed { PrintsLayout (K.taken sink.old) (K.taken sink.new)
        (K.faults sink.old, K.faults sink.new) spec.now cpus result }
    ensures write_faults { StopsAtWriteFault (K.faults sink.old) (K.faults sink.new) result }
    ensures lines { Gives (K.pieces sink.old) (K.pieces sink.new) AreWholeLines }
    ensures counts { K.faults sink.old ≤ K.faults sink.new }
{
    let answer = layout_of(spec, cpus);
    let mut text = Vec::new(alloc);
    push_layout(&mut text, &answer)?;
    write_lines(sink, &text)?;
    Ok(answer_status(&answer))
}
