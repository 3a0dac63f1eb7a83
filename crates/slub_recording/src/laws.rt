//! What follows from the definitions. None of these does anything.

ghost use Rattle.std.specs.Prelude.{◌≡◌, length, Ok};
ghost use Rattle.slub_recording.specs.Order.{points_in, points_of};
ghost use Rattle.slub_recording.specs.Recording.{Recorded, kmem_lines, reading};
ghost use Rattle.slub_common.specs.Lines.{cut_lines};

/// Every line that is an event of the four kinds is an event of the recording.
pub fn every_kmem_line_is_an_event(bytes: &[u8])
    ensures { (r : Recorded) → reading bytes.now ≡ Ok r → length r.events ≡ kmem_lines (cut_lines bytes.now).0 }
{}

/// Events stand in the order of the lines that say them: with the CPU and the pointer of each.
pub fn events_stand_in_the_order_of_lines(bytes: &[u8])
    ensures { (r : Recorded) → reading bytes.now ≡ Ok r → points_in r.events ≡ points_of (cut_lines bytes.now).0 }
{}
