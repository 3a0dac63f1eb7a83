//! The text of a round, through a sink that takes a few bytes at a time or fails in their midst, and lines that no short
//! run shows.

ghost use Rattle.std.specs.Prelude.{◌<◌};

use slub_common::sequence::Sequence;
use slub_edges::memory::{MemSink, MemSource};
use slub_object_layout::name::Name;
use slub_slabinfo_text::counts::{Counts, InfoRow};
use slub_slabinfo_text::item::ItemText;
use slub_slabinfo_text::journal::{Done, RoundResult};
use slub_slabinfo_text::text::push_slabinfo;
use slub_trace::reply::Reply;
use slub_trace_reader::reading::read_trace;
use std::alloc::Global;
use std::test::Fail;

/// A cache, and a round of five events.
const ROUND: &str =
    "slubtrace 4\nmachine 16 2\ncache dentry 192 8 -\nround 2\nalloc 0 0 dentry 1\nalloc 1 1 dentry 2\nfree 0 0 2\nflush 1 1\nalloc 0 0 dentry 1048576\ndone\nend\n";

/// What a sink takes of the text of that round, three events of which are refused, and whether all was written.
fn taken(
    alloc: Global,
    failing: &[u64],
    most: usize,
    replies: bool,
) -> Result<(Vec<u8>, bool), Fail>
    requires { 0 < most }
{
    let mut source = MemSource::of(alloc, ROUND.as_bytes(), &[])?;
    let trace = read_trace(alloc, &mut source)?;
    if trace.items.len() != 2 {
        return Err("other items".into());
    }
    let answers = [
        Reply::Given(4096),
        Reply::NoFrames,
        Reply::NotHeld,
        Reply::Flushed(3),
        Reply::NoMemory,
    ];
    let done = Done::Round(RoundResult {
        replies: Sequence::from_vec(Vec::from_array(alloc, answers)?),
        damages: Sequence::new(alloc),
        ledgers: Sequence::new(alloc),
    });
    let mut text = ItemText::new(alloc);
    text.make(alloc, &trace, 1, &done, replies)?;
    let mut sink = MemSink::of(alloc, failing, most)?;
    let written = text.write(&mut sink, &trace, 1, &done, replies);
    Ok((sink.bytes().to_vec(alloc)?, written.is_ok()))
}

#[test]
fn lines_before_a_fault_are_written(rt: HostRuntime) -> Result<(), Fail> {
    let (bytes, all) = taken(rt.alloc(), &[2], 100, true)?;
    assert_eq!(&rt;
        bytes.as_slice(),
        b"alloc 1: given 4096\nalloc 2: no frames\n".as_slice()
    );
    assert!(&rt; !all);
    Ok(())
}

/// Replies that aren't Ok are written unasked, a want of memory among them.
#[test]
fn refusals_are_written_unasked(rt: HostRuntime) -> Result<(), Fail> {
    let cases: [(usize, bool, &[u8]); 3] = [
        (
            100,
            true,
            b"alloc 1: given 4096\nalloc 2: no frames\nfree 2: not held\nflush 1: moved 3\nalloc 1048576: no memory\n",
        ),
        (
            100,
            false,
            b"alloc 2: no frames\nfree 2: not held\nalloc 1048576: no memory\n",
        ),
        (
            7,
            false,
            b"alloc 2: no frames\nfree 2: not held\nalloc 1048576: no memory\n",
        ),
    ];
    for (most, replies, want) in cases {
        let (bytes, all) = taken(rt.alloc(), &[], most, replies)?;
        assert_eq!(&rt; bytes.as_slice(), want);
        assert!(&rt; all);
    }
    Ok(())
}

/// Columns of slabinfo that are too narrow are as wide as their numbers.
#[test]
fn wide_rows_of_slabinfo(rt: HostRuntime) -> Result<(), Fail> {
    let rows = [InfoRow {
        title: Name::read("a_title_of_22_letters.").ok_or("a name")?,
        counts: Counts {
            active_objs: 1234567,
            num_objs: 18446744073709551615,
            objsize: 4294967295,
            objperslab: 12345,
            pagesperslab: 67890,
            num_slabs: 7654321,
            live: 0,
            free: 0,
            aside: 0,
            frozen: 0,
        },
    }];
    let want =
        b"a_title_of_22_letters. 1234567 18446744073709551615 4294967295 12345 67890 : tunables    0    0    0 : slabdata 7654321 7654321      0\n";
    let mut text = Vec::new(rt.alloc());
    push_slabinfo(&mut text, &rows)?;
    assert!(&rt; text.as_slice().ends_with(want.as_slice()));
    Ok(())
}
