ghost use Rattle.std.specs.Prelude.{◌≡◌, ℕ, MatchResult};
ghost use Rattle.seg_io.specs.InMemory.{CallsMade, no_calls, is_due, counted, told, one_more};

use agglo_model::Memory;
use std::alloc::Global;
use std::marker::Model;

/// The calls of one kind that were made, and those that are to fail.
#[derive(Drop)]
pub struct CallCount {
    made: u64,
    failing: Vec<u64>,
}

impl Model for CallCount {
    ghost use Rattle.seg_io.specs.InMemory.{CallsMade};

    ghost Value = { CallsMade };

    ghost view = { λ c. record { made = c.made; failing = c.failing.items } };
}

impl CallCount {
    /// No call was made, and none is to fail.
    pub fn new(alloc: Global) -> CallCount
        ensures { result ≡ no_calls }
    {
        CallCount {
            made: 0,
            failing: Vec::new(alloc),
        }
    }

    /// Counts one call, and answers whether it was told to fail.
    pub fn count(&mut self) -> bool
        ensures due { result ≡ is_due self.old }
        ensures counts { self.new ≡ counted self.old }
    {
        let due = self.failing.contains(&self.made);
        self.made = risen(self.made);
        due
    }

    /// Tells the call of this number, from 1, to fail. Where memory runs out nothing changes.
    pub fn tell(&mut self, nth: u64) -> Result<(), Memory>
        ensures { MatchResult result (λ _. self.new ≡ told nth self.old) (λ _. self.new ≡ self.old) }
    {
        if nth > 0 {
            self.failing.push(nth - 1)?;
        }
        Ok(())
    }
}

/// One more, where the count is not at its last value.
pub fn risen(count: u64) -> u64
    ensures { result ≡ one_more count }
{
    count.saturating_add(1)
}
