// A counter of steps.
ghost use Rattle.std.specs.Prelude.{◌≡◌, ◌+◌, ◌-◌, ◌^◌, min};

use std::marker::{Model, PhantomData};

/// Marks the counter that a program makes.
#[derive(Clone, Copy, Debug, PartialEq, Eq)]
pub struct Top;

/// Counts steps, at most 2^64 - 1 of them. A call that is generic over the mark `L` counts on what
/// its caller hands in, since only a `Steps<Top>` can be made. Contracts see the count.
#[derive(Debug, Drop)]
pub struct Steps<L> {
    count: u64,
    mark: PhantomData<L>,
}

impl<L> Model for Steps<L> {
    ghost use Rattle.std.specs.Prelude.{ℕ};

    ghost Value = { ℕ };

    ghost view = { λ s. s.count };
}

impl Steps<Top> {
    /// A counter that stands at 0.
    pub fn top() -> Self
        ensures { result ≡ 0 }
    {
        Steps {
            count: 0,
            mark: PhantomData,
        }
    }
}

impl<L> Steps<L> {
    /// Counts one step. A count of 2^64 - 1 stays.
    pub fn tick(&mut self)
        ensures { self.new ≡ min (self.old + 1) (2 ^ 64 - 1) }
    {
        self.count = self.count.saturating_add(1);
    }

    /// The steps so far.
    pub fn count(&self) -> u64
        ensures { result ≡ self.now }
    {
        self.count
    }
}
