//! How many turns a round may take (profile).

ghost use Rattle.std.specs.Prelude.{◌≡◌, ◌^◌, ◌<◌, ◌≤◌};
ghost use Rattle.slub_schedule.specs.Turns.{turns_for};

/// How many turns a round of so many events and workers may take.
pub fn turns_for(events: u64, workers: u32) -> u64
    requires few { events < 2 ^ 40 }
    requires workers { workers ≤ 16 }
    ensures { result ≡ turns_for events workers }
{
    8192 * (events + 1) * u64::from(workers)
}
