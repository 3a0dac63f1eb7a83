//! The numbers that a seed draws, one before each turn (profile).

ghost use Rattle.std.specs.Prelude.{◌≡◌};
ghost use Rattle.slub_schedule.specs.Draws.{next, number_from};

use std::marker::Model;

/// The generator of a round. Contracts see it as the number at which it stands.
#[derive(Debug, Drop)]
pub struct Draws {
    x: u64,
}

impl Model for Draws {
    ghost use Rattle.std.specs.Prelude.{ℕ};

    ghost Value = { ℕ };

    ghost view = { λ d. d.x };
}

impl Draws {
    /// The generator of a round, at its seed.
    pub fn open(seed: u64) -> Draws
        ensures { result ≡ seed }
    {
        Draws { x: seed }
    }

    /// Goes on to the next number, and draws it.
    #[inline(always)]
    pub fn draw(&mut self) -> u32
        ensures next { self.new ≡ next self.old }
        ensures number { result ≡ number_from self.old }
    {
        let x = self.x;
        let next = x
            .wrapping_mul(6364136223846793005)
            .wrapping_add(1442695040888963407);
        self.x = next;
        (next >> 33) as u32
    }
}
