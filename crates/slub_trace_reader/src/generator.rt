//! The numbers that a seed gives.

ghost use Rattle.std.specs.Prelude.{◌≡◌, ◌<◌, ◌^◌};
ghost use Rattle.slub_trace_reader.specs.Generator.{drawn, next};

/// A linear congruential generator of numbers below 2^31.
#[derive(Clone, Copy, Debug)]
pub(crate) struct Generator {
    pub(crate) state: u64,
}

impl Generator {
    /// Draws a number.
    #[tactic(auto, unfolding(crate::specs::Generator::next, crate::specs::Generator::drawn))]
    pub(crate) fn draw(&mut self) -> u32
        ensures state { self.new.state ≡ next self.old.state }
        ensures number { result ≡ drawn self.new.state }
        ensures small { result < 2 ^ 31 }
    {
        self.state = self
            .state
            .wrapping_mul(6364136223846793005)
            .wrapping_add(1442695040888963407);
        (self.state >> 33) as u32
    }
}
