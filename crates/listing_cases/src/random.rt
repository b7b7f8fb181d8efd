ghost use Rattle.std.specs.Prelude.{◌-◌, ◌≤◌};

/// Numbers that are the same on every machine: a linear congruential generator.
#[derive(Clone, Copy)]
pub struct Random {
    state: u64,
}

impl Random {
    /// The numbers of a seed.
    pub fn new(seed: u64) -> Random {
        Random {
            state: seed
                .wrapping_mul(2862933555777941757)
                .wrapping_add(3037000493),
        }
    }

    /// A number below a limit, or 0 where the limit is 0.
    pub fn below(&mut self, limit: u64) -> u64
        ensures { result ≤ limit - 1 }
    {
        self.state = self
            .state
            .wrapping_mul(6364136223846793005)
            .wrapping_add(1442695040888963407);
        (self.state >> 33).checked_rem(limit).unwrap_or(0)
    }
}
