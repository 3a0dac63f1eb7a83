//! Packed words, their numbers, and the numbers of generators, worked out by hand from the bits and the rules.

use slub_core::step::Place;
use slub_cpu_partial::words::{LinkWord, ListWord};
use slub_schedule::draws::Draws;
use slub_schedule::table::number;
use slub_words::board::BoardWord;
use slub_words::cpu::{CpuWord, next_tid, spent};
use slub_words::free::{FreePtr, random};
use slub_words::slab::SlabWord;

/// The words after the first allocation of 21 objects, from a new slab in frame 1 on the first of two CPUs; the word of
/// that slab after the other CPU freed the object, and of the slab on the node list, once its cache was shrunk.
#[test]
fn words_of_cpus_and_slabs(rt: HostRuntime) {
    let cpu = CpuWord {
        tid: 2,
        frame: 1,
        head: 2,
    };
    assert_eq!(rt; cpu.pack(), 0x0000_0002_0001_0002);
    assert_eq!(rt; CpuWord::unpack(0x0000_0002_0001_0002), cpu);
    let slab = SlabWord {
        head: 0,
        inuse: 21,
        objects: 21,
        frozen: true,
        listed: false,
        cache: 0,
    };
    let freed_elsewhere = SlabWord {
        head: 1,
        inuse: 20,
        ..slab
    };
    let listed = SlabWord {
        head: 2,
        inuse: 1,
        objects: 21,
        frozen: false,
        listed: true,
        cache: 0,
    };
    let rows = [
        (slab, 0x0001_0015_0015_0000),
        (freed_elsewhere, 0x0001_0015_0014_0001),
        (listed, 0x0002_0015_0001_0002),
    ];
    for (slab, word) in rows {
        assert_eq!(rt; slab.pack(), word);
        assert_eq!(rt; SlabWord::unpack(word), Some(slab));
    }
    assert_eq!(rt; SlabWord::unpack(0x0006_0015_0001_0002), None);
}

/// The word of an object of cache 3, a partial list of three slabs from frame 5 on, and a link to frame 7.
#[test]
fn words_of_objects_and_lists(rt: HostRuntime) {
    let board = BoardWord {
        frame: 1,
        index: 0,
        cache: 3,
    };
    assert_eq!(rt; board.pack(), 0x0000_0003_0001_0001);
    assert_eq!(rt; BoardWord::unpack(0x0000_0003_0001_0001), Some(board));
    for none in [0, 0x0000_0103_0001_0001] {
        assert_eq!(rt; BoardWord::unpack(none), None);
    }
    let list = ListWord { front: 5, count: 3 };
    assert_eq!(rt; list.pack(), 0x0003_0005);
    assert_eq!(rt; ListWord::unpack(0x0003_0005), Some(list));
    for none in [0x0003_0000, 0x0000_0005, 0x0001_0003_0005] {
        assert_eq!(rt; ListWord::unpack(none), None);
    }
    assert_eq!(rt; LinkWord { next: 7 }.pack(), 7);
    assert_eq!(rt; LinkWord::unpack(0x1_0000), None);
}

/// The second of those 21 objects stands at 4288, its free pointer 96 bytes behind, and leads to the third.
#[test]
fn hardened_pointer(rt: HostRuntime) {
    let secret = 0x6c57_6fac_43fd_007c;
    let word = 0x4c46_6fac_43fd_007f;
    let pointer = FreePtr { next: 3 };
    assert_eq!(rt; random(0), secret);
    assert_eq!(rt; pointer.pack(secret, 4384), word);
    assert_eq!(rt; FreePtr::unpack(word, secret, 4384), pointer);
    assert!(rt; FreePtr::whole(word, secret, 4384));
    assert!(rt; !FreePtr::whole(0x4c46_6fac_43fc_007f, secret, 4384));
}

/// With steps of two an id of 4294967292 is spent.
#[test]
fn last_ids(rt: HostRuntime) {
    assert!(rt; spent(4294967292, 2));
    assert!(rt; !spent(4294967291, 2));
    assert_eq!(rt; next_tid(4294967291, 2), Some(4294967293));
    assert_eq!(rt; next_tid(4294967294, 2), None);
}

/// The first numbers of seed 1, and where words stand in the table of a machine of 16 frames and 8 object numbers.
#[test]
fn draws_and_places(rt: HostRuntime) {
    let mut draws = Draws::open(1);
    for drawn in [908834774, 1093944153, 1392341196, 822192870, 1708211034] {
        assert_eq!(rt; draws.draw(), drawn);
    }
    let rows = [
        (Place::LockOf(32), 32),
        (Place::ListOf(0), 33),
        (Place::CpuOf(511), 1056),
        (Place::SlabOf(15), 1072),
        (Place::BoardOf(1), 1073),
        (Place::MemoryOf(0), 1080),
        (Place::LinkOf(15), 9287),
    ];
    for (place, wanted) in rows {
        assert_eq!(rt; number(16, 8, place), wanted);
    }
}
