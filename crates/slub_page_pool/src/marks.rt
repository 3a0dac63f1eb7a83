//! The marks of frames: which of them are free.

ghost use Rattle.std.specs.Prelude.{◌≡◌, ◌+◌, ◌^◌, ◌<◌, ◌≤◌, length, count_by, ◌++◌, replicate, take, drop};
ghost use Rattle.slub_page_pool.specs.Marks.{free_of};

/// How many frames a run of this order has.
pub fn run_len(order: u32) -> usize
    requires { order ≤ 10 }
    ensures count { result ≡ 2 ^ order }
    ensures positive { 0 < result }
    ensures small { result ≤ 1024 }
{
    1 << order
}

/// Marks a run as free or as not free.
pub fn set_run(marks: &mut [bool], frame: usize, order: u32, free: bool)
    requires known { order ≤ 10 }
    requires inside { frame + 2 ^ order ≤ length marks.old }
    ensures { marks.new ≡ take frame marks.old ++ replicate (2 ^ order) free ++ drop (frame + 2 ^ order) marks.old }
{
    let end = frame + run_len(order);
    marks[frame..end].fill(free);
}

/// How many frames are marked.
pub fn count(marks: &[bool]) -> usize
    ensures { result ≡ count_by (λ mark. mark) marks.now }
{
    marks.iter().filter(|mark| **mark).count()
}

/// Writes the marked frames, in rising order, at the front of `out`.
pub fn write_marked(marks: &[bool], out: &mut [u16])
    requires few { length marks.now ≤ 4096 }
    requires room { length (free_of marks.now) ≤ length out.old }
    ensures free { take (length (free_of marks.now)) out.new ≡ free_of marks.now }
    ensures rest { drop (length (free_of marks.now)) out.new ≡ drop (length (free_of marks.now)) out.old }
{
    let mut written = 0;
    for (frame, mark) in marks.iter().enumerate() {
        if *mark {
            out[written] = frame as u16;
            written += 1;
        }
    }
}
