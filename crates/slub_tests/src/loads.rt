//! The events of small loads, worked out by other means from the numbers that their seeds draw.

use slub_trace::event::{Act, Event, Round};
use slub_trace::trace::{Item, Trace};
use slub_trace_reader::load::load_trace;
use std::test::Fail;

/// The one round of a load.
fn round_of(trace: &Trace) -> Option<&Round> {
    match trace.items.as_slice() {
        [
            Item::Cache { .. },
            Item::Cache { .. },
            Item::Cache { .. },
            Item::Round(round),
            Item::Shrink { name: 0 },
            Item::Shrink { name: 1 },
            Item::Shrink { name: 2 },
        ] => Some(round),
        _ => None,
    }
}

/// An allocation from a cache by a worker on a CPU, or, where no cache stands there, a free.
fn event((worker, cpu, cache, object): (u8, u8, Option<u32>, u32)) -> Event {
    let act = match cache {
        Some(cache) => Act::Alloc { cache, object },
        None => Act::Free { object },
    };
    Event {
        line: 0,
        worker,
        cpu,
        act,
    }
}

/// Seed 1 draws 908834774 1093944153, 1392341196 822192870, 1708211034 1074839795, 1189567130 140486902; seed 3
/// draws 243117059 697555963, 1577179715 743368138, 1329489204 815645603, 1081441375 1040024405, 1188828089
/// 1507887609, 2084545363 1883099442.
#[test]
fn numbers_make_events(rt: HostRuntime) -> Result<(), Fail> {
    let rows: [(u64, u32, [(u8, u8, Option<u32>, u32); 8]); 2] = [
        (
            1,
            4,
            [
                (0, 0, Some(1), 1),
                (0, 0, Some(0), 2),
                (0, 0, Some(0), 3),
                (0, 0, Some(0), 4),
                (0, 0, None, 1),
                (0, 0, None, 2),
                (0, 0, None, 3),
                (0, 0, None, 4),
            ],
        ),
        (
            3,
            6,
            [
                (1, 1, Some(0), 1),
                (1, 3, None, 1),
                (0, 0, Some(0), 2),
                (1, 1, Some(2), 3),
                (1, 2, None, 3),
                (1, 1, Some(2), 4),
                (0, 0, None, 2),
                (1, 1, None, 4),
            ],
        ),
    ];
    for (seed, events, wanted) in rows {
        assert!(rt; events <= 500_000);
        let trace = load_trace(rt.alloc(), seed, events, 2)?;
        let Some(round) = round_of(&trace) else {
            return Err("other items".into());
        };
        assert_eq!(rt; (round.workers, round.events.len()), (2, 8));
        for (made, row) in round.events.as_slice().iter().zip(wanted) {
            assert_eq!(rt; *made, event(row), "seed {seed}");
        }
    }
    Ok(())
}

/// A worker holds 64 objects at most: it holds 77 to 140 when the second number that is drawn is 3 modulo 8.
#[test]
fn a_worker_holds_64_objects_at_most(rt: HostRuntime) -> Result<(), Fail> {
    let trace = load_trace(rt.alloc(), 2, 400, 1)?;
    let Some(round) = round_of(&trace) else {
        return Err("other items".into());
    };
    assert_eq!(rt; (round.events.len(), trace.objects), (464, 232));
    let events = round.events.as_slice();
    assert_eq!(rt; events.get(215).copied(), Some(event((0, 0, Some(1), 140))));
    assert_eq!(rt; events.get(216).copied(), Some(event((0, 3, None, 77))));
    Ok(())
}
