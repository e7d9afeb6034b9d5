// What was read from a source and not yet taken.
ghost use Rattle.std.specs.Prelude.{◌≡◌, ◌≤◌, ◌<◌, [], length, drop, vec_len, IfErr};
ghost use Rattle.ck_devices.specs.Causes.{StopsAt};
ghost use Rattle.http_front.specs.Reading.{Fills, IsReadError};

use crate::FrontFault;
use ck_devices::Source;
use std::alloc::Global;
use std::marker::Model;

/// The most bytes that one read takes.
const PIECE: usize = 4096;

/// The bytes that were read from a source and not yet taken. Those that were taken stay in front
/// until the next read.
#[derive(Drop)]
pub struct Buffer {
    bytes: Vec<u8>,
    taken: usize,
}

impl Model for Buffer {
    ghost use Rattle.std.specs.Prelude.{◌≤◌, List, ℕ, drop, vec_len};

    ghost Value = { List ℕ };

    ghost view = { λ b. drop b.taken b.bytes.items };

    ghost invariant = { λ b. b.taken ≤ vec_len b.bytes };
}

impl Buffer {
    /// A buffer of no bytes.
    pub fn new(alloc: Global) -> Self
        ensures { result ≡ [] }
    {
        Buffer {
            bytes: Vec::new(alloc),
            taken: 0,
        }
    }

    /// The bytes, borrowed.
    pub fn as_slice(&self) -> &[u8]
        ensures { result.now ≡ self.now }
    {
        &self.bytes[self.taken..]
    }

    /// Takes so many bytes off the front.
    pub(crate) fn drop_front(&mut self, count: usize)
        requires { count ≤ length self.old }
        ensures { self.new ≡ drop count self.old }
    {
        self.taken += count;
    }

    /// Reads the next piece behind the bytes, and says how long it is. 0 is the end of the source.
    pub(crate) fn fill<S: Source>(&mut self, source: &mut S) -> Result<usize, FrontFault>
        ensures more { Fills (S.left source.old) (S.left source.new) self.old self.new result }
        ensures cause { StopsAt FrontFault.ReadFault (S.failures source.old) (S.failures source.new) result }
        ensures read { IfErr result IsReadError }
    {
        remove_front(&mut self.bytes, self.taken);
        self.taken = 0;
        read_more(source, &mut self.bytes)
    }
}

// Removes so many bytes from the front.
fn remove_front(bytes: &mut Vec<u8>, count: usize)
    requires { count ≤ vec_len bytes.old }
    ensures { bytes.new.items ≡ drop count bytes.old.items }
{
    if count > 0 {
        let rest = bytes.len() - count;
        bytes.rotate_left(count);
        bytes.truncate(rest);
    }
}

// Reads the next piece behind the bytes. Its room is made before, so nothing that was read is lost.
fn read_more<S: Source>(source: &mut S, bytes: &mut Vec<u8>) -> Result<usize, FrontFault>
    ensures more { Fills (S.left source.old) (S.left source.new) bytes.old.items bytes.new.items result }
    ensures cause { StopsAt FrontFault.ReadFault (S.failures source.old) (S.failures source.new) result }
    ensures read { IfErr result IsReadError }
{
    let mut piece = [0u8; PIECE];
    bytes.reserve(PIECE)?;
    match source.read(&mut piece) {
        Err(_) => Err(FrontFault::ReadFault),
        Ok(count) => {
            bytes.extend_from_slice(&piece[..count]).unwrap();
            Ok(count)
        }
    }
}
