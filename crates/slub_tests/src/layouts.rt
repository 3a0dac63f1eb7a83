//! Layouts and addresses of objects.

use slub_object_layout::layout::{Flags, Layout, Spec, address, layout_of};

const PLAIN: Flags = Flags {
    line: false,
    reclaim: false,
    checks: false,
    zones: false,
    poison: false,
    user: false,
    trace: false,
    fail: false,
};

const LINE: Flags = Flags {
    line: true,
    ..PLAIN
};

const RECLAIM: Flags = Flags {
    reclaim: true,
    ..PLAIN
};

const ZONES: Flags = Flags {
    zones: true,
    ..PLAIN
};

const ZONES_AND_POISON: Flags = Flags {
    poison: true,
    ..ZONES
};

const CHECKED: Flags = Flags {
    checks: true,
    ..ZONES_AND_POISON
};

/// The layout of these twelve numbers, in the order of the fields.
fn layout(numbers: [u32; 12]) -> Layout {
    let [
        object_size,
        inuse,
        offset,
        left_pad,
        size,
        align,
        order,
        objects,
        min_order,
        min_objects_slab,
        min_partial,
        cpu_partial_slabs,
    ] = numbers;
    Layout {
        object_size,
        inuse,
        offset,
        left_pad,
        size,
        align,
        order,
        objects,
        min_order,
        min_objects_slab,
        min_partial,
        cpu_partial_slabs,
    }
}

/// A size, an alignment, flags and a number of CPUs, and the layout that they have: of usual caches, then of checked
/// ones, and of those whose order is found under a sixteenth, an eighth, a quarter, and no fraction of waste.
#[test]
fn layouts_of_caches(rt: HostRuntime) {
    let rows: [(u32, u32, Flags, u32, [u32; 12]); 16] = [
        (
            192,
            8,
            PLAIN,
            2,
            [192, 192, 96, 0, 192, 8, 0, 21, 0, 21, 5, 12],
        ),
        (64, 8, PLAIN, 2, [64, 64, 32, 0, 64, 8, 0, 64, 0, 64, 5, 4]),
        (
            1024,
            8,
            PLAIN,
            2,
            [1024, 1024, 512, 0, 1024, 8, 2, 16, 0, 4, 5, 3],
        ),
        (
            16384,
            8,
            PLAIN,
            2,
            [16384, 16384, 8192, 0, 16384, 8, 3, 2, 2, 1, 7, 6],
        ),
        (
            592,
            8,
            RECLAIM,
            4,
            [592, 592, 296, 0, 592, 8, 2, 27, 0, 6, 5, 4],
        ),
        (
            256,
            8,
            LINE,
            4,
            [256, 256, 128, 0, 256, 64, 0, 16, 0, 16, 5, 7],
        ),
        (
            128,
            8,
            LINE,
            4,
            [128, 128, 64, 0, 128, 64, 0, 32, 0, 32, 5, 8],
        ),
        (20, 0, LINE, 2, [20, 24, 8, 0, 32, 32, 0, 128, 0, 128, 5, 2]),
        (
            700,
            8,
            PLAIN,
            16,
            [700, 704, 344, 0, 704, 8, 3, 46, 0, 5, 5, 3],
        ),
        (
            24,
            8,
            CHECKED,
            2,
            [24, 32, 32, 8, 56, 8, 0, 73, 0, 73, 5, 0],
        ),
        (1, 0, ZONES, 1, [1, 8, 8, 8, 32, 8, 0, 128, 0, 128, 5, 0]),
        (
            16384,
            4096,
            ZONES_AND_POISON,
            16,
            [16384, 16392, 16392, 4096, 24576, 4096, 3, 1, 3, 1, 7, 0],
        ),
        (
            464,
            8,
            PLAIN,
            1,
            [464, 464, 232, 0, 464, 8, 1, 17, 0, 8, 5, 7],
        ),
        (
            5000,
            8,
            PLAIN,
            1,
            [5000, 5000, 2496, 0, 5000, 8, 3, 6, 1, 1, 6, 2],
        ),
        (
            9000,
            8,
            PLAIN,
            2,
            [9000, 9000, 4496, 0, 9000, 8, 3, 3, 2, 1, 6, 4],
        ),
        (
            12000,
            8,
            PLAIN,
            2,
            [12000, 12000, 6000, 0, 12000, 8, 2, 1, 2, 1, 6, 12],
        ),
    ];
    for (size, align, flags, cpus, numbers) in rows {
        assert!(rt; 1 <= cpus && cpus <= 16);
        let spec = Spec { size, align, flags };
        assert_eq!(rt; layout_of(&spec, cpus), Ok(layout(numbers)), "size {size}");
    }
}

/// A checked object of 24 bytes stands behind its left red zone.
#[test]
fn addresses(rt: HostRuntime) {
    let node = Layout {
        object_size: 24,
        inuse: 32,
        offset: 32,
        left_pad: 8,
        size: 56,
        align: 8,
        order: 0,
        objects: 73,
        min_order: 0,
        min_objects_slab: 73,
        min_partial: 5,
        cpu_partial_slabs: 0,
    };
    assert_eq!(rt; address(1, 0, &node), 4104);
    assert_eq!(rt; address(2, 72, &node), 12232);
}
