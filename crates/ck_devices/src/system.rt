// The adapters over the system's clock and random device. They don't tell what they give.
ghost use Rattle.std.specs.Prelude.{◌≡◌, ⊤};

use crate::{Clock, Failed, FaultCount, Words};
use std::io::Read;
use std::marker::Model;
use std::rt::Files;
use std::time::{SystemTime, UNIX_EPOCH};
use std::{fs, io};

/// The system's clock. Where it cannot be read, it answers its last moment, at first 0. Contracts see
/// that moment.
#[derive(Drop)]
pub struct SystemClock<R> {
    rt: R,
    last: u64,
}

impl<R> Model for SystemClock<R> {
    ghost use Rattle.std.specs.Prelude.{ℕ};

    ghost Value = { ℕ };

    ghost view = { λ c. c.last };
}

impl<R> SystemClock<R> {
    /// The clock of that system.
    pub fn new(rt: R) -> Self
        ensures { result ≡ 0 }
    {
        SystemClock { rt, last: 0 }
    }
}

impl<R: std::rt::Clock> Clock for SystemClock<R> {
    ghost gives = { λ _ moment after. after ≡ moment };

    fn now(&mut self) -> u64 {
        if let Ok(time) = SystemTime::now(&self.rt)
            && let Ok(since) = time.duration_since(UNIX_EPOCH)
        {
            self.last = u64::try_from(since.as_millis()).unwrap_or(u64::MAX);
        }
        self.last
    }
}

/// The system's random device, which is opened at the first draw. Contracts see its count of faults.
#[derive(Drop)]
pub struct RandomDevice<R: Files> {
    rt: R,
    device: Option<R::File>,
    faults: FaultCount,
}

impl<R: Files> Model for RandomDevice<R> {
    ghost use Rattle.std.specs.Prelude.{ℕ};

    ghost Value = { ℕ };

    ghost view = { λ d. d.faults };
}

impl<R: Files> RandomDevice<R> {
    /// The random device of that system.
    pub fn new(rt: R) -> Self
        ensures { result ≡ 0 }
    {
        RandomDevice {
            rt,
            device: None,
            faults: FaultCount::new(),
        }
    }

    // The next word. A device that failed is opened again at the next draw.
    fn read_word(&mut self) -> io::Result<[u8; 16]>
        ensures { self.new ≡ self.old }
    {
        let mut device = match self.device.take() {
            Some(device) => device,
            None => fs::open(&self.rt, "/dev/urandom")?,
        };
        let mut word = [0; 16];
        device.read_exact(&mut word)?;
        self.device = Some(device);
        Ok(word)
    }
}

impl<R: Files> Words for RandomDevice<R> {
    ghost gives = { λ _ _ _. ⊤ };

    ghost fault_count = { λ faults. faults };

    fn faults(&self) -> u64 {
        self.faults.count()
    }

    fn draw(&mut self) -> Result<[u8; 16], Failed> {
        match self.read_word() {
            Ok(word) => Ok(word),
            Err(_) => Err(self.faults.raise()),
        }
    }
}
