// A counter of the entries that searches examined.

ghost use Rattle.std.specs.Prelude.{◌≡◌, ◌+◌, ◌-◌, ◌^◌, min};

use std::marker::Model;

/// A counter of the log entries that searches examined. The count saturates at `u64::MAX`.
#[derive(Clone, Copy, Debug, PartialEq, Eq, Drop)]
pub struct Steps {
    count: u64,
}

impl Model for Steps {
    ghost use Rattle.std.specs.Prelude.{ℕ};

    ghost Value = { ℕ };

    ghost view = { λ s. s.count };

    ghost inverse = { λ n. record { count = n } };
}

impl Steps {
    /// Makes a counter that starts at 0.
    pub fn new() -> Steps
        ensures { result ≡ 0 }
    {
        Steps { count: 0 }
    }

    /// Returns the number of entries counted so far.
    pub fn count(self) -> u64
        ensures { result ≡ self }
    {
        self.count
    }

    // Adds to the count, which saturates at `u64::MAX`.
    pub(crate) fn add(&mut self, entries: u64)
        ensures { self.new ≡ min (self.old + entries) (2 ^ 64 - 1) }
    {
        self.count = self.count.saturating_add(entries);
    }
}
