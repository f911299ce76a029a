//! The states of 64 blocks, stored in two words.

ghost use Rattle.std.specs.Prelude.{◌≡◌, ◌≢◌, ℕ, ◌<◌, ◌≤◌, IfNone, IfSome};
ghost use Rattle.lfs_model.specs.layers.BlockSets.{state_in_flight, is_used};
ghost use Rattle.lfs_model.specs.layers.BlockSets.BlockState.{Free};
ghost use Rattle.lfs_blocks.specs.Marks.{use_view, state_at_bit};

/// The state of a block in the map.
#[derive(Clone, Copy, PartialEq, Eq)]
pub enum BlockUse {
    Free,
    InFlight,
    Used,
}

impl BlockUse {
    pub fn is_used(self) -> bool
        ensures { result ≡ is_used (use_view self) }
    {
        matches!(self, BlockUse::Used)
    }

    pub fn is_in_flight(self) -> bool
        ensures { result ≡ state_in_flight (use_view self) }
    {
        matches!(self, BlockUse::InFlight)
    }
}

/// The states of 64 consecutive blocks. Bit `k` of each word belongs to block `k`, counted from the
/// first of the 64 blocks.
#[derive(Clone, Copy)]
pub struct Marks {
    used: u64,
    in_flight: u64,
}

impl Marks {
    /// Returns the marks of 64 free blocks.
    pub fn all_free() -> Marks
        ensures { (place : ℕ) → state_at_bit result place ≡ Free }
    {
        Marks {
            used: 0,
            in_flight: 0,
        }
    }

    pub fn state(self, place: u32) -> BlockUse
        requires { place < 64 }
        ensures { use_view result ≡ state_at_bit self place }
    {
        let bit = 1u64 << place;
        if self.used & bit != 0 {
            BlockUse::Used
        } else if self.in_flight & bit != 0 {
            BlockUse::InFlight
        } else {
            BlockUse::Free
        }
    }

    /// Returns the marks after the block at bit `place` is set to `state`.
    pub fn with_state(self, place: u32, state: BlockUse) -> Marks
        requires { place < 64 }
        ensures here { state_at_bit result place ≡ use_view state }
        ensures others { (other : ℕ) → other < 64 → other ≢ place → state_at_bit result other ≡ state_at_bit self other }
    {
        let bit = 1u64 << place;
        let used = self.used & !bit;
        let in_flight = self.in_flight & !bit;
        match state {
            BlockUse::Free => Marks { used, in_flight },
            BlockUse::InFlight => Marks {
                used,
                in_flight: in_flight | bit,
            },
            BlockUse::Used => Marks {
                used: used | bit,
                in_flight,
            },
        }
    }

    /// Returns the bit of the first free block at or after bit `start`, or None if no such block is
    /// free.
    pub fn first_free(self, start: u32) -> Option<u32>
        requires { start < 64 }
        ensures found { IfSome result (λ place. state_at_bit self place ≡ Free) }
        ensures within { IfSome result (λ place. (start ≤ place) × (place < 64)) }
        ensures first { IfSome result (λ found. (place : ℕ) → start ≤ place → place < found → state_at_bit self place ≢ Free) }
        ensures none { IfNone result ((place : ℕ) → start ≤ place → place < 64 → state_at_bit self place ≢ Free) }
    {
        let passed = (1u64 << start) - 1;
        let taken = self.used | self.in_flight | passed;
        if taken == u64::MAX {
            None
        } else {
            Some(taken.trailing_ones())
        }
    }
}
