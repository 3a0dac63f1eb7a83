//! The layout of a cache: how large a slot is, what lies in it, and how many slots a slab has.
//!
//! `layout_of` solves the equations of `specs/Layout.antt`. All sizes are in bytes.

ghost use Rattle.std.specs.Prelude.{◌≡◌, ◌+◌, ◌*◌, ◌^◌, ◌<◌, ◌≤◌, ◌↔◌, max, if◌then◌else◌, IsOk, IfOk, IsErrOf, IsTrue, MatchOption};
ghost use Rattle.slub_object_layout.specs.Layout.{IsAccepted, IsSize, IsAlign, IsSupported, IsLayout, IsWithinBounds, IsOrder, IsLeastOrder, IsLeastFit, IsFirstFit, SomeFits, HasOrder, align_up, alignment_of, line_of, inuse_of, offset_of, left_pad_of, slot_of, has_pointer_behind, fls, min_partial_of, cpu_partial_of, cpu_partial_slabs_of, is_checked, address_of};

/// The largest object, in bytes (profile).
const SIZE_MAX: u32 = 16384;

/// The largest alignment, in bytes (profile).
const ALIGN_MAX: u32 = 4096;

/// The bytes of a frame.
const FRAME: u32 = 4096;

/// The bytes of a word, and of a free pointer.
const WORD: u32 = 8;

/// The bytes of a cache line.
const LINE: u32 = 64;

/// The greatest order of a slab (`PAGE_ALLOC_COSTLY_ORDER`).
const ORDER_MAX: u32 = 3;

/// The bytes of a slab of that order.
const SLAB_MAX: u32 = 32768;

/// The flags of a cache, by the letters H, R, F, Z, P, U, T and A.
///
/// A cache is checked where F, Z or P is set. H and R are *profile* letters for the kernel's
/// `SLAB_HWCACHE_ALIGN` and `SLAB_RECLAIM_ACCOUNT`.
#[derive(Clone, Copy, Debug, PartialEq, Eq)]
pub struct Flags {
    /// H: align objects to cache lines.
    pub line: bool,
    /// R: the cache's pages can be reclaimed.
    pub reclaim: bool,
    /// F: examine an object when it is given and when it is taken back.
    pub checks: bool,
    /// Z: red zones.
    pub zones: bool,
    /// P: poison free objects.
    pub poison: bool,
    /// U: user tracking, which this allocator leaves out.
    pub user: bool,
    /// T: tracing, which this allocator leaves out.
    pub trace: bool,
    /// A: failslab, which this allocator leaves out.
    pub fail: bool,
}

impl Flags {
    /// Whether a cache with these flags is checked: F, Z or P is set.
    pub fn is_checked(&self) -> bool
        ensures { result ≡ is_checked self.now }
    {
        self.checks || self.zones || self.poison
    }
}

/// What a cache is asked to be.
#[derive(Clone, Copy, Debug, PartialEq, Eq)]
pub struct Spec {
    /// The size of an object, in bytes.
    pub size: u32,
    /// The alignment of an object, in bytes; 0 for no demand.
    pub align: u32,
    pub flags: Flags,
}

/// How the slots of a cache lie, and how many a slab has (`struct kmem_cache`).
#[derive(Clone, Copy, Debug, PartialEq, Eq)]
pub struct Layout {
    /// The size that was asked for, in bytes.
    pub object_size: u32,
    /// The bytes up to the end of what the object's user and its right red zone take.
    pub inuse: u32,
    /// Where the free pointer lies, in bytes from the object's address.
    pub offset: u32,
    /// The left red zone, in bytes before the object's address.
    pub left_pad: u32,
    /// The size of a slot, in bytes.
    pub size: u32,
    pub align: u32,
    /// The order of a slab: it has 2^order frames.
    pub order: u32,
    /// The objects of a slab of that order.
    pub objects: u32,
    /// The order of a slab where no run of `order` is there.
    pub min_order: u32,
    /// The objects of a slab of `min_order`.
    pub min_objects_slab: u32,
    /// How many slabs the node list keeps before an empty one is discarded.
    pub min_partial: u32,
    /// How many slabs a CPU's partial list takes before it is moved to the node list.
    pub cpu_partial_slabs: u32,
}

/// Why there is no layout.
#[derive(Clone, Copy, Debug, PartialEq, Eq)]
pub enum LayoutRefusal {
    /// The size is 0 or above 16384.
    BadSize,
    /// The alignment is neither 0 nor a power of two up to 4096.
    BadAlign,
    /// U, T or A is set.
    BadFlags,
}

/// What can be set of a live cache.
#[derive(Clone, Copy, Debug, PartialEq, Eq)]
pub enum Setting {
    MinPartial(u32),
    CpuPartial(u32),
}

/// The layout of a cache (`calculate_sizes`), on a machine of `cpus` CPUs, 1 to 16.
///
/// The refusals stand in the order BadSize, BadAlign, BadFlags; the limits are *profile*.
pub fn layout_of(spec: &Spec, cpus: u32) -> Result<Layout, LayoutRefusal>
    requires some_cpu { 1 ≤ cpus }
    requires few_cpus { cpus ≤ 16 }
    ensures solved { IfOk result (IsLayout spec.now cpus) }
    ensures bounds { IfOk result IsWithinBounds }
    ensures accepted { IsOk result ↔ IsAccepted spec.now }
    ensures bad_size { IsErrOf result LayoutRefusal.BadSize ↔ (¬ IsSize spec.now.size) }
    ensures bad_align { IsErrOf result LayoutRefusal.BadAlign ↔ (IsSize spec.now.size × ¬ IsAlign spec.now.align) }
    ensures bad_flags { IsErrOf result LayoutRefusal.BadFlags ↔ (IsSize spec.now.size × IsAlign spec.now.align × ¬ IsSupported spec.now.flags) }
{
    if spec.size == 0 || spec.size > SIZE_MAX {
        return Err(LayoutRefusal::BadSize);
    }
    if !is_align(spec.align) {
        return Err(LayoutRefusal::BadAlign);
    }
    if !is_supported(&spec.flags) {
        return Err(LayoutRefusal::BadFlags);
    }
    Ok(solution_of(spec, cpus))
}

/// Whether an alignment is 0 or a power of two up to 4096.
fn is_align(align: u32) -> bool
    ensures { IsTrue result ↔ IsAlign align }
{
    align == 0 || (align <= ALIGN_MAX && align.is_power_of_two())
}

/// Whether none of U, T and A is set.
fn is_supported(flags: &Flags) -> bool
    ensures { IsTrue result ↔ IsSupported flags.now }
{
    !flags.user && !flags.trace && !flags.fail
}

/// The layout of a spec that is not refused.
fn solution_of(spec: &Spec, cpus: u32) -> Layout
    requires accepted { IsAccepted spec.now }
    requires some_cpu { 1 ≤ cpus }
    requires few_cpus { cpus ≤ 16 }
    ensures solved { IsLayout spec.now cpus result }
    ensures bounds { IsWithinBounds result }
{
    let size = slot_of(spec);
    let order = order_of(size, cpus);
    let objects = bytes_of(order) / size;
    let min_order = get_order(size);
    Layout {
        object_size: spec.size,
        inuse: inuse_of(spec),
        offset: offset_of(spec),
        left_pad: left_pad_of(spec),
        size,
        align: alignment_of(spec),
        order,
        objects,
        min_order,
        min_objects_slab: bytes_of(min_order) / size,
        min_partial: min_partial_of(size),
        cpu_partial_slabs: cpu_partial_slabs(&spec.flags, size, objects),
    }
}

/// The size of a slot (`calculate_sizes`, as are the functions up to `left_pad_of`).
#[tactic(auto, unfolding(crate::specs::Layout::slot_of, crate::specs::Layout::used_of))]
fn slot_of(spec: &Spec) -> u32
    requires { IsAccepted spec.now }
    ensures slot { result ≡ slot_of spec.now }
    ensures from_a_word { 8 ≤ result }
    ensures to_six_frames { result ≤ 24576 }
{
    let pointer = word_if(has_pointer_behind(spec));
    let zone = word_if(spec.flags.zones);
    let used = inuse_of(spec) + pointer + zone + left_pad_of(spec);
    align_up(used, alignment_of(spec))
}

/// The bytes up to the end of the right red zone.
///
/// An object that ends with its last word has no room for a zone there and gets a word more.
#[tactic(auto, unfolding(crate::specs::Layout::inuse_of))]
fn inuse_of(spec: &Spec) -> u32
    requires { IsAccepted spec.now }
    ensures inuse { result ≡ inuse_of spec.now }
    ensures small { result ≤ 16392 }
{
    let words = align_up(spec.size, WORD);
    words + word_if(spec.flags.zones && words == spec.size)
}

/// Whether the free pointer stands behind the object, which then is never overwritten.
fn has_pointer_behind(spec: &Spec) -> bool
    ensures { result ≡ has_pointer_behind spec.now }
{
    spec.flags.poison || (spec.flags.zones && spec.size < WORD)
}

/// Where the free pointer stands, in bytes from the object's address.
#[tactic(auto, unfolding(crate::specs::Layout::offset_of))]
fn offset_of(spec: &Spec) -> u32
    requires { IsAccepted spec.now }
    ensures { result ≡ offset_of spec.now }
{
    if has_pointer_behind(spec) {
        inuse_of(spec)
    } else {
        spec.size / 2 / WORD * WORD
    }
}

/// The left red zone, in bytes, so long that the object keeps its alignment.
#[tactic(auto, unfolding(crate::specs::Layout::left_pad_of))]
fn left_pad_of(spec: &Spec) -> u32
    requires { IsAccepted spec.now }
    ensures left_pad { result ≡ left_pad_of spec.now }
    ensures small { result ≤ 8192 }
{
    if spec.flags.zones {
        align_up(WORD, alignment_of(spec))
    } else {
        0
    }
}

/// A word, or nothing.
fn word_if(wanted: bool) -> u32
    ensures { result ≡ (if wanted then 8 else 0) }
{
    if wanted { WORD } else { 0 }
}

/// The alignment of a cache's objects, in bytes (`calculate_alignment`).
pub fn alignment_of(spec: &Spec) -> u32
    requires { IsAccepted spec.now }
    ensures alignment { result ≡ alignment_of spec.now }
    ensures from_a_word { 8 ≤ result }
    ensures to_a_frame { result ≤ 4096 }
{
    let line = if spec.flags.line {
        line_of(spec.size)
    } else {
        WORD
    };
    align_up(spec.align.max(line).max(WORD), WORD)
}

/// The cache line, halved while the object fits into the half (`calculate_alignment`).
fn line_of(size: u32) -> u32
    requires { 1 ≤ size }
    ensures line { max result 8 ≡ line_of size }
    ensures small { result ≤ 64 }
{
    let mut line = LINE;
    while size <= line / 2 {
        line /= 2;
    }
    line
}

/// The least multiple of `a` that is `x` or more (`ALIGN`).
pub fn align_up(x: u32, a: u32) -> u32
    requires some { 1 ≤ a }
    requires fits { x + a < 2 ^ 32 }
    ensures value { result ≡ align_up x a }
    ensures within { result < x + a }
{
    (x + (a - 1)) / a * a
}

/// The order of a slab of slots of `size` bytes, 8 to 24576, where there are `cpus` CPUs, 1 to 16
/// (`calculate_order`; which order it is, is *profile*).
pub fn order_of(size: u32, cpus: u32) -> u32
    requires from_a_word { 8 ≤ size }
    requires to_six_frames { size ≤ 24576 }
    requires some_cpu { 1 ≤ cpus }
    requires few_cpus { cpus ≤ 16 }
    ensures solved { IsOrder size cpus result }
    ensures small { result ≤ 3 }
{
    let mut objects = (4 * (fls(cpus) + 1)).min(SLAB_MAX / size);
    while objects > 1 {
        if let Some(order) = first_fit(size, objects) {
            return order;
        }
        objects -= 1;
    }
    get_order(size)
}

/// The least order of the first fraction under which one fits.
fn first_fit(size: u32, objects: u32) -> Option<u32>
    requires some { 1 ≤ size }
    requires fit { objects * size ≤ 32768 }
    ensures { MatchOption result (¬ HasOrder size objects) (IsFirstFit size objects) }
{
    if let Some(order) = least_fit(size, objects, 16) {
        return Some(order);
    }
    if let Some(order) = least_fit(size, objects, 8) {
        return Some(order);
    }
    least_fit(size, objects, 4)
}

/// The least order that fits under a fraction (`calc_slab_order`).
fn least_fit(size: u32, objects: u32, fraction: u32) -> Option<u32>
    requires some { 1 ≤ size }
    requires fit { objects * size ≤ 32768 }
    requires part { 1 ≤ fraction }
    ensures { MatchOption result (¬ SomeFits size objects fraction) (IsLeastFit size objects fraction) }
{
    for order in get_order(objects * size)..ORDER_MAX + 1 {
        let bytes = bytes_of(order);
        if bytes % size <= bytes / fraction {
            return Some(order);
        }
    }
    None
}

/// The bytes of 2^order frames.
fn bytes_of(order: u32) -> u32
    requires { order ≤ 3 }
    ensures { result ≡ 4096 * 2 ^ order }
{
    FRAME << order
}

/// The least order whose frames hold so many bytes, at most 32768 (`get_order`).
fn get_order(bytes: u32) -> u32
    requires { bytes ≤ 32768 }
    ensures least { IsLeastOrder bytes result }
    ensures small { result ≤ 3 }
{
    fls(bytes.saturating_sub(1) / FRAME)
}

/// The number of binary digits (`fls`).
fn fls(x: u32) -> u32
    ensures { result ≡ fls x }
{
    u32::BITS - x.leading_zeros()
}

/// How many slabs the node list keeps (`min_partial`, as `kmem_cache_open` sets it).
#[tactic(auto, unfolding(crate::specs::Layout::min_partial_of))]
fn min_partial_of(size: u32) -> u32
    requires { 1 ≤ size }
    ensures { result ≡ min_partial_of size }
{
    ((fls(size) - 1) / 2).min(10).max(5)
}

/// How many slabs a CPU's partial list takes, 0 for a checked cache (`set_cpu_partial`).
#[tactic(auto, unfolding(crate::specs::Layout::cpu_partial_of))]
fn cpu_partial_slabs(flags: &Flags, size: u32, objects: u32) -> u32
    requires { 1 ≤ objects }
    ensures { result ≡ (if is_checked flags.now then 0 else cpu_partial_slabs_of (cpu_partial_of size) objects) }
{
    if flags.is_checked() {
        return 0;
    }
    let held: u32 = match size {
        0..256 => 120,
        256..1024 => 52,
        1024..4096 => 24,
        _ => 6,
    };
    (2 * held).div_ceil(objects)
}

/// The address of an object, in bytes: slot `index` of the slab that begins at `frame`, past the left
/// red zone (`fixup_red_left`).
pub fn address(frame: u32, index: u32, layout: &Layout) -> u32
    requires frame { frame < 4096 }
    requires index { index < layout.now.objects }
    requires small { layout.now.objects * layout.now.size ≤ 32768 }
    requires left_pad { layout.now.left_pad ≤ layout.now.size }
    ensures { result ≡ address_of frame index layout.now }
{
    frame * FRAME + index * layout.size + layout.left_pad
}
