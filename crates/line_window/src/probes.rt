//! How many keys searches have compared, counted while they run.

ghost use Rattle.std.specs.Prelude.{◌≡◌, ◌+◌, ◌-◌, ◌^◌, min};

use std::marker::Model;

/// A count of comparisons, which stands still at the greatest `u64`.
#[derive(Debug, Default, Drop)]
pub struct Probes {
    count: u64,
}

impl Model for Probes {
    ghost use Rattle.std.specs.Prelude.{ℕ};

    ghost Value = { ℕ };

    ghost view = { λ p. p.count };
}

impl Probes {
    #[inline]
    pub fn new() -> Probes
        ensures { result ≡ 0 }
    {
        Probes { count: 0 }
    }

    /// Counts one comparison.
    #[inline]
    pub fn tick(&mut self)
        ensures { self.new ≡ min (self.old + 1) u64.MAX }
    {
        self.count = self.count.saturating_add(1);
    }

    /// Counts so many comparisons, for a loop that keeps its own count.
    #[inline]
    pub fn add(&mut self, comparisons: u64)
        ensures { self.new ≡ min (self.old + comparisons) u64.MAX }
    {
        self.count = self.count.saturating_add(comparisons);
    }

    #[inline]
    pub fn count(&self) -> u64
        ensures { result ≡ self.now }
    {
        self.count
    }
}
