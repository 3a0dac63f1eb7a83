//! The text of an item.

ghost use Rattle.std.specs.Prelude.{◌≡◌, ◌<◌, ◌≤◌, length, OnErr, OnOk};
ghost use Rattle.std.specs.Io.KnownBytes.{Appends};
ghost use Rattle.slub_edges.specs.Edges.{AppendsFront, Rose};
ghost use Rattle.slub_edges.specs.Pieces.{Gives};
ghost use Rattle.slub_slabinfo_text.specs.Text.{text_at};
ghost use Rattle.slub_trace.specs.Sound.{IsSound};
ghost use Rattle.slub_slabinfo_text.specs.Made.{made_before};
ghost use Rattle.slub_slabinfo_text.specs.Given.{AreWholeLines};

use crate::journal::Done;
use crate::made::push_made;
use crate::replies::write_replies;
use crate::text::LINE_MAX;
use slub_common::no_memory::NoMemory;
use slub_edges::edges::{Failed, Sink};
use slub_edges::pieces::write_lines;
use slub_trace::trace::Trace;
use std::alloc::Global;
use std::marker::Model;

/// The text of an item, before it is written. Contracts see what was made of it, and the room of a line, in bytes.
#[derive(Debug, Drop)]
pub struct ItemText {
    whole: Vec<u8>,
    /// The room of a line.
    line: Vec<u8>,
}

impl Model for ItemText {
    ghost use Rattle.std.specs.Prelude.{vec_capacity};
    ghost use Rattle.slub_slabinfo_text.specs.Made.{Held};

    ghost Value = { Held };

    ghost view = { λ t. record { made = t.whole.items; room = vec_capacity t.line } };
}

impl ItemText {
    /// No text. It takes no memory.
    pub fn new(alloc: Global) -> ItemText {
        ItemText {
            whole: Vec::new(alloc),
            line: Vec::new(alloc),
        }
    }

    /// Makes what is to be made before a byte of the item is written: its whole text, but of a round that of its
    /// damages alone, and the room of a line. Those of the lines that say that all went well only with `replies`.
    pub fn make(
        &mut self,
        alloc: Global,
        trace: &Trace,
        number: usize,
        done: &Done,
        replies: bool,
    ) -> Result<(), NoMemory>
        requires sound { IsSound trace.now }
        requires within { number < length trace.now.items }
        ensures made { OnOk result (self.new.made ≡ made_before replies trace.now number done.now) }
        ensures room { OnOk result (128 ≤ self.new.room) }
    {
        self.line.clear();
        self.line.reserve(LINE_MAX)?;
        self.whole.clear();
        push_made(alloc, &mut self.whole, trace, number, done, replies)
    }

    /// Writes the item's text; it takes no memory. Each line is one piece. Of a round the line of a reply is made when
    /// those before it are written.
    pub fn write<K: Sink>(
        &mut self,
        sink: &mut K,
        trace: &Trace,
        number: usize,
        done: &Done,
        replies: bool,
    ) -> Result<(), Failed>
        requires sound { IsSound trace.now }
        requires within { number < length trace.now.items }
        requires made { self.old.made ≡ made_before replies trace.now number done.now }
        requires room { 128 ≤ self.old.room }
        ensures ok { OnOk result (Appends (K.taken sink.old) (K.taken sink.new)
            (text_at replies trace.now number done.now)) }
        ensures err { OnErr result (AppendsFront (K.taken sink.old) (K.taken sink.new) 0
            (text_at replies trace.now number done.now)) }
        ensures lines { Gives (K.pieces sink.old) (K.pieces sink.new) AreWholeLines }
        ensures counts { K.faults sink.old ≤ K.faults sink.new }
        ensures still { OnOk result (K.faults sink.new ≡ K.faults sink.old) }
        ensures failed { OnErr result (Rose (K.faults sink.old) (K.faults sink.new)) }
    {
        write_replies(sink, &mut self.line, trace, number, done, replies)?;
        write_lines(sink, self.whole.as_slice())
    }
}
