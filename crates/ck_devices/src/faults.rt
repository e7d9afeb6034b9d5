// Counts of faults and of uses, and which calls of a device in memory fail.
ghost use Rattle.std.specs.Prelude.{◌≡◌, ◌≤◌, is_err, true};
ghost use Rattle.ck_devices.specs.Causes.{one_more, unused, used, HasCause};
ghost use Rattle.ck_devices.specs.Plans.{fresh, fails_next, counted};

use std::marker::Model;

/// A device failed, and its count of faults rose.
#[derive(Clone, Copy, Debug, PartialEq, Eq)]
pub struct Failed;

/// Counts the faults of a device, at most 2^64 - 1 of them. Contracts see the count.
#[derive(Drop)]
pub struct FaultCount {
    count: u64,
}

impl Model for FaultCount {
    ghost use Rattle.std.specs.Prelude.{ℕ};

    ghost Value = { ℕ };

    ghost view = { λ f. f.count };
}

impl FaultCount {
    /// A count that stands at 0.
    pub fn new() -> Self
        ensures { result ≡ 0 }
    {
        FaultCount { count: 0 }
    }

    /// Counts one fault, and gives what the device then answers.
    pub fn raise(&mut self) -> Failed
        ensures count { self.new ≡ one_more self.old }
        ensures later { self.old ≤ self.new }
    {
        self.count = self.count.saturating_add(1);
        Failed
    }

    /// The faults so far.
    pub fn count(&self) -> u64
        ensures { result ≡ self.now }
    {
        self.count
    }
}

/// Counts the uses of a device that failed, and those since the last of them, each at most 2^64 - 1.
#[derive(Drop)]
pub struct UseCount {
    failures: u64,
    since: u64,
}

impl Model for UseCount {
    ghost use Rattle.ck_devices.specs.Causes.{Failures};

    ghost Value = { Failures };

    ghost view = { λ u. record { count = u.failures; since = u.since } };
}

impl UseCount {
    /// No use was made yet.
    pub fn new() -> Self
        ensures { result ≡ unused }
    {
        UseCount {
            failures: 0,
            since: 0,
        }
    }

    /// Counts one use, which failed or did not.
    pub fn count(&mut self, failed: bool)
        ensures { self.new ≡ used self.old failed }
    {
        if failed {
            self.failures = self.failures.saturating_add(1);
            self.since = 0;
        } else {
            self.since = self.since.saturating_add(1);
        }
    }

    /// The uses that failed so far.
    pub fn failures(&self) -> u64
        ensures { result ≡ self.now.count }
    {
        self.failures
    }
}

/// Which calls of a device in memory fail, with counts of its calls and of their failures.
#[derive(Drop)]
pub struct FaultPlan {
    fails: Vec<u64>,
    calls: u64,
    uses: UseCount,
}

impl Model for FaultPlan {
    ghost use Rattle.ck_devices.specs.Plans.{Plan};

    ghost Value = { Plan };

    ghost view = { λ p. record { fails = p.fails.items; calls = p.calls; failures = p.uses } };
}

impl FaultPlan {
    /// The calls whose numbers, counted from 1, are listed fail. No call was made yet.
    pub fn new(fails: Vec<u64>) -> Self
        ensures { result ≡ fresh fails.items }
    {
        FaultPlan {
            fails,
            calls: 0,
            uses: UseCount::new(),
        }
    }

    /// Counts one more call, and refuses it where its number is listed. From the call 2^64 - 1 on
    /// each call has that number.
    pub fn start_call(&mut self) -> Result<(), Failed>
        ensures listed { is_err result ≡ fails_next self.old }
        ensures after { self.new ≡ counted self.old (is_err result) }
        ensures cause { HasCause self.old.failures.count self.new.failures.count result }
    {
        self.calls = self.calls.saturating_add(1);
        let failed = self.fails.contains(&self.calls);
        self.uses.count(failed);
        if failed {
            return Err(Failed);
        }
        Ok(())
    }

    /// Says of the call at hand, which no list names, that it failed all the same, as for want of room.
    pub fn raise(&mut self) -> Failed
        ensures { self.new ≡ record self.old { failures = used self.old.failures true } }
    {
        self.uses.count(true);
        Failed
    }

    /// The faults so far.
    pub fn faults(&self) -> u64
        ensures { result ≡ self.now.failures.count }
    {
        self.uses.failures()
    }
}
