// Devices that count their uses.
ghost use Rattle.std.specs.Prelude.{⊤, None};

use ck_devices::{Clock, Failed, MemSink, MemSource, Sink, Source, UseCount, Words};
use std::cell::Cell;

// Counts one use more, and says which it is.
fn next_use(uses: &Cell<u64>) -> u64 {
    let count = uses.get().saturating_add(1);
    uses.set(count);
    count
}

/// A clock that gives which use of the devices it is, counted from 1.
#[derive(Drop)]
pub(crate) struct CountedClock<'a> {
    pub uses: &'a Cell<u64>,
}

impl Clock for CountedClock<'_> {
    ghost gives = { λ _ _ _. ⊤ };

    fn now(&mut self) -> u64 {
        next_use(self.uses)
    }
}

/// Words that are which use of the devices they are.
#[derive(Drop)]
pub(crate) struct CountedWords<'a> {
    pub uses: &'a Cell<u64>,
}

impl Words for CountedWords<'_> {
    ghost gives = { λ _ _ _. ⊤ };

    ghost fault_count = { λ _. 0 };

    fn faults(&self) -> u64 {
        0
    }

    fn draw(&mut self) -> Result<[u8; 16], Failed> {
        Ok(u128::from(next_use(self.uses)).to_be_bytes())
    }
}

/// A source that gives what stands second only once so many bytes of replies were written.
#[derive(Drop)]
pub(crate) struct PatientSource<'a> {
    pub first: MemSource,
    pub second: MemSource,
    pub written: &'a Cell<u64>,
    pub wanted: u64,
    pub reads: &'a Cell<u64>,
    pub counted: UseCount,
}

impl Source for PatientSource<'_> {
    ghost left = { λ _. None };

    ghost failures = { λ s. s.counted };

    fn faults(&self) -> u64 {
        self.counted.failures()
    }

    fn read(&mut self, into: &mut [u8]) -> Result<usize, Failed> {
        next_use(self.reads);
        self.counted.count(false);
        match self.first.read(into) {
            Ok(count) if count > 0 => Ok(count),
            _ if self.written.get() >= self.wanted => Ok(self.second.read(into).unwrap_or(0)),
            _ => Ok(0),
        }
    }
}

/// A sink that counts the bytes, and keeps them.
#[derive(Drop)]
pub(crate) struct CountingSink<'a> {
    pub bytes: MemSink,
    pub written: &'a Cell<u64>,
    pub counted: UseCount,
}

impl Sink for CountingSink<'_> {
    ghost held = { λ _. None };

    ghost failures = { λ s. s.counted };

    fn faults(&self) -> u64 {
        self.counted.failures()
    }

    fn write(&mut self, piece: &[u8]) -> Result<usize, Failed> {
        let _ = self.bytes.write(piece);
        self.counted.count(false);
        let count = u64::try_from(piece.len()).unwrap_or(u64::MAX);
        self.written.set(self.written.get().saturating_add(count));
        Ok(piece.len())
    }
}
