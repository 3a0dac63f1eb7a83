//! The limits of a machine and of a trace (*profile*). Clauses and definitions write these numbers.

/// The most page frames of a machine; frame 0 is never given.
pub const FRAMES_MAX: u32 = 4096;

/// The words, of eight bytes, of a page frame.
pub const FRAME_WORDS: usize = 512;

/// The most slabs of a machine: each has a frame of its own, and none is frame 0.
pub const SLABS_MAX: u32 = 4095;

/// The most objects of a slab.
pub const SLAB_OBJECTS_MAX: usize = 512;

/// The most live caches of a machine. Cache numbers are below it.
pub const CACHES_MAX: usize = 32;

/// The most live names of a machine.
pub const NAMES_MAX: usize = 32;

/// The most CPUs of a machine.
pub const CPUS_MAX: u32 = 16;

/// The most workers of a round.
pub const WORKERS_MAX: u32 = 16;

/// The greatest object number. Object numbers begin at 1.
pub const OBJECTS_MAX: u32 = 1048576;

/// The greatest word of an object, counted in words of eight bytes from its address.
pub const WORD_MAX: u32 = 4095;

/// The most rounds of a trace.
pub const ROUNDS_MAX: u32 = 256;

/// The most bytes of a trace.
pub const INPUT_MAX: usize = 16777216;
