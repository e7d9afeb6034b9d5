// The adapters over std's readers and writers, as standard input, output and error. They tell what
// the reader or writer tells.

use crate::{Failed, Sink, Source, UseCount};
use std::io::{Read, Write};

/// A source over a reader.
#[derive(Drop)]
pub struct ReaderSource<R> {
    inner: R,
    uses: UseCount,
}

impl<R> ReaderSource<R> {
    ghost use Rattle.std.specs.Prelude.{◌≡◌};
    ghost use Rattle.ck_devices.specs.Adapters.{reader_of, read_failures};
    ghost use Rattle.ck_devices.specs.Causes.{unused};

    /// A source of what the reader has left.
    pub fn new(reader: R) -> Self
        ensures reader { reader_of result ≡ reader }
        ensures failures { read_failures result ≡ unused }
    {
        ReaderSource {
            inner: reader,
            uses: UseCount::new(),
        }
    }
}

impl<R: Read> Source for ReaderSource<R> {
    ghost left = { λ s. R.remaining s.inner };

    ghost failures = { λ s. s.uses };

    fn faults(&self) -> u64 {
        self.uses.failures()
    }

    fn read(&mut self, into: &mut [u8]) -> Result<usize, Failed> {
        match self.inner.read(into) {
            Ok(count) => {
                self.uses.count(false);
                Ok(count)
            }
            Err(_) => {
                self.uses.count(true);
                Err(Failed)
            }
        }
    }
}

/// A sink over a writer. A write that takes nothing is a fault.
#[derive(Drop)]
pub struct WriterSink<W> {
    inner: W,
    uses: UseCount,
}

impl<W> WriterSink<W> {
    ghost use Rattle.std.specs.Prelude.{◌≡◌};
    ghost use Rattle.ck_devices.specs.Adapters.{writer_of, write_failures};
    ghost use Rattle.ck_devices.specs.Causes.{unused};

    /// A sink that writes to the writer.
    pub fn new(writer: W) -> Self
        ensures writer { writer_of result ≡ writer }
        ensures failures { write_failures result ≡ unused }
    {
        WriterSink {
            inner: writer,
            uses: UseCount::new(),
        }
    }
}

impl<W: Write> Sink for WriterSink<W> {
    ghost held = { λ s. W.contents s.inner };

    ghost failures = { λ s. s.uses };

    fn faults(&self) -> u64 {
        self.uses.failures()
    }

    fn write(&mut self, piece: &[u8]) -> Result<usize, Failed> {
        match self.inner.write(piece) {
            Ok(0) | Err(_) => {
                self.uses.count(true);
                Err(Failed)
            }
            Ok(count) => {
                self.uses.count(false);
                Ok(count)
            }
        }
    }
}
