// The moment.
ghost use Rattle.std.specs.Prelude.{◌≡◌, ℕ};

/// A clock. A moment is a number of milliseconds since the start of 1970.
pub trait Clock {
    /// What a call may give, and what it leaves. A clock that doesn't tell may give anything.
    ghost gives: { Self → ℕ → Self → Type 0 };

    /// The moment, in milliseconds. A clock cannot fail.
    fn now(&mut self) -> u64
        ensures { gives self.old result self.new };
}

/// A clock that stands at one moment.
#[derive(Clone, Copy, Debug, PartialEq, Eq)]
pub struct FixedClock(pub u64);

impl Clock for FixedClock {
    ghost gives = { λ before moment after. (moment ≡ before.0) × (after ≡ before) };

    fn now(&mut self) -> u64 {
        self.0
    }
}
