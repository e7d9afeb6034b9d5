// The adapter over a folder of files on disk. It doesn't tell its files.
ghost use Rattle.std.specs.Prelude.{◌≡◌, None, IfOk, false};

use crate::{FaultCount, Shelf, ShelfFault};
use ck_base::Text;
use std::io::{ErrorKind, Read};
use std::marker::Model;
use std::path::Path;
use std::rt::Files;
use std::{fs, io};

/// The files of a folder on disk. A name that is absolute stands for itself. Contracts see the count
/// of faults.
#[derive(Drop)]
pub struct FolderShelf<R> {
    rt: R,
    folder: Text,
    faults: FaultCount,
}

impl<R> Model for FolderShelf<R> {
    ghost use Rattle.std.specs.Prelude.{ℕ};

    ghost Value = { ℕ };

    ghost view = { λ s. s.faults };
}

impl<R> FolderShelf<R> {
    /// The files of that folder, where "" and "." are the current folder.
    pub fn new(rt: R, folder: Text) -> Self
        ensures { result ≡ 0 }
    {
        FolderShelf {
            rt,
            folder,
            faults: FaultCount::new(),
        }
    }
}

impl<R: Files> Shelf for FolderShelf<R> {
    ghost files = { λ _. None };

    ghost fault_count = { λ faults. faults };

    fn faults(&self) -> u64 {
        self.faults.count()
    }

    fn read(&mut self, name: &str, into: &mut Vec<u8>) -> Result<bool, ShelfFault> {
        into.clear();
        match append_file(&self.rt, self.folder.as_str(), name, into) {
            Ok(found) => Ok(found),
            Err(error) => {
                into.clear();
                match error.kind() {
                    ErrorKind::OutOfMemory => Err(ShelfFault::NoMemory),
                    _ => Err(ShelfFault::from(self.faults.raise())),
                }
            }
        }
    }
}

// Appends the file's bytes, or answers `false` where there is no such file.
fn append_file(rt: &impl Files, folder: &str, name: &str, into: &mut Vec<u8>) -> io::Result<bool>
    ensures { IfOk result (λ found. found ≡ false → into.new.items ≡ into.old.items) }
{
    let path = Path::new(folder).join(*into.allocator(), name)?;
    match fs::open(rt, path) {
        Ok(mut file) => {
            file.read_to_end(into)?;
            Ok(true)
        }
        Err(error) if error.kind() == ErrorKind::NotFound => Ok(false),
        Err(error) => Err(error),
    }
}
