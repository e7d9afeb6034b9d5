// Random words.
ghost use Rattle.std.specs.Prelude.{◌≡◌, ℕ, List, Result};
ghost use Rattle.ck_devices.specs.Causes.{HasCause};
ghost use Rattle.ck_devices.specs.Draws.{Draws};
ghost use Rattle.ck_devices.specs.Plans.{fresh};
ghost use Rattle.ck_devices.specs.declared.faults.Failed.{Failed};

use crate::{Failed, FaultPlan};
use std::marker::Model;

/// A source of random words. A word is 16 bytes.
pub trait Words {
    /// What a draw may give, and what it leaves. Where the words don't tell, it may give anything.
    ghost gives: { Self → Result (List ℕ) Failed → Self → Type 0 };

    /// How often a draw failed.
    ghost fault_count: { Self → ℕ };

    /// How often a draw failed, at most 2^64 - 1.
    fn faults(&self) -> u64
        ensures { result ≡ fault_count self.now };

    /// Draws the next word.
    fn draw(&mut self) -> Result<[u8; 16], Failed>
        ensures gives { gives self.old result self.new }
        ensures cause { HasCause (fault_count self.old) (fault_count self.new) result };
}

/// Words that count up from a number.
#[derive(Drop)]
pub struct CountWords {
    next: u128,
    plan: FaultPlan,
}

impl Model for CountWords {
    ghost use Rattle.ck_devices.specs.Memory.{WordsState};

    ghost Value = { WordsState };

    ghost view = { λ w. record { next = w.next; plan = w.plan } };
}

impl CountWords {
    /// Words that begin with `next`, the highest byte first, and go on by one, with 0 after 2^128 - 1.
    /// The draws whose numbers, from 1, are in `fails` fail.
    pub fn new(next: u128, fails: Vec<u64>) -> Self
        ensures { result ≡ record { next = next; plan = fresh fails.items } }
    {
        CountWords {
            next,
            plan: FaultPlan::new(fails),
        }
    }
}

impl Words for CountWords {
    ghost gives = { Draws };

    ghost fault_count = { λ w. w.plan.failures.count };

    fn faults(&self) -> u64 {
        self.plan.faults()
    }

    fn draw(&mut self) -> Result<[u8; 16], Failed> {
        self.plan.start_call()?;
        let word = self.next.to_be_bytes();
        self.next = self.next.wrapping_add(1);
        Ok(word)
    }
}
