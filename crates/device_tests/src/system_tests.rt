// The adapters over readers and writers, and over the system's files, clock and random device.
use ck_base::Text;
use ck_devices::{
    Clock, Failed, FolderShelf, RandomDevice, ReaderSource, Shelf, ShelfFault, Sink, Source,
    SystemClock, Words, WriterSink,
};
use std::cell::Cell;
use std::io::Read;
use std::os::unix::fs::symlink;
use std::test::Fail;
use std::time::Duration;
use std::{env, fs, io, process};

/// A reader that can't be read.
#[derive(Drop)]
struct Broken;

impl Read for Broken {
    fn read(&mut self, _buf: &mut [u8]) -> io::Result<usize> {
        Err(io::Error::from(io::ErrorKind::Other))
    }
}

#[test]
fn readers_are_read_to_their_end_or_their_fault(rt: HostRuntime) {
    let mut source = ReaderSource::new(b"hello".as_slice());
    let mut into = [0u8; 4];
    for (want, front) in [(4, b"hell"), (1, b"oell"), (0, b"oell")] {
        assert_eq!(rt; source.read(&mut into), Ok(want));
        assert_eq!(rt; into.as_slice(), front.as_slice());
    }
    assert_eq!(rt; source.faults(), 0);

    let mut source = ReaderSource::new(b"hi".as_slice().chain(Broken));
    for want in [Ok(2), Err(Failed), Err(Failed)] {
        assert_eq!(rt; source.read(&mut into), want);
    }
    assert_eq!(rt; source.faults(), 2);
}

#[test]
fn writers_are_written_to_and_a_write_that_takes_nothing_is_a_fault(rt: HostRuntime) {
    let mut bytes = Vec::new(rt.alloc());
    let mut sink = WriterSink::new(&mut bytes);
    assert_eq!(rt; sink.write(b"hel"), Ok(3));
    assert_eq!(rt; sink.write(b"lo"), Ok(2));
    assert_eq!(rt; sink.faults(), 0);
    assert_eq!(rt; bytes.as_slice(), b"hello".as_slice());

    let mut room = [0u8; 2];
    let mut sink = WriterSink::new(room.as_mut_slice());
    assert_eq!(rt; sink.write(b"hello"), Ok(2));
    assert_eq!(rt; sink.write(b"llo"), Err(Failed));
    assert_eq!(rt; sink.faults(), 1);
    assert_eq!(rt; room.as_slice(), b"he".as_slice());
}

#[test]
fn folders_give_their_files_and_tell_what_cannot_be_read(rt: HostRuntime) -> Result<(), Fail> {
    let alloc = rt.alloc();
    let folder = env::temp_dir(&rt)?;
    let name = format!(in alloc; "device_tests-{}", process::id(rt.process()))?;
    let path = folder.join(alloc, name.as_str())?;
    fs::write(&rt, path.as_path(), "hello")?;
    // A link to itself is there, and cannot be opened.
    let looped = format!(in alloc; "{name}-loop")?;
    let link = folder.join(alloc, looped.as_str())?;
    symlink(&rt, looped.as_str(), link.as_path())?;
    env::set_current_dir(&rt, folder.as_path())?;
    let mut into = Vec::new(alloc);
    // A folder opens, and cannot be read.
    for (folder, name, answer, bytes, faults) in [
        (folder.as_str(), name.as_str(), Ok(true), "hello", 0),
        (".", name.as_str(), Ok(true), "hello", 0),
        ("", name.as_str(), Ok(true), "hello", 0),
        ("no such folder", path.as_str(), Ok(true), "hello", 0),
        ("/", "no such file", Ok(false), "", 0),
        ("/", "tmp", Err(ShelfFault::Failed), "", 1),
        ("", looped.as_str(), Err(ShelfFault::Failed), "", 1),
    ] {
        into.extend_from_slice(b"old")?;
        let mut shelf = FolderShelf::new(rt, Text::from_str(alloc, folder)?);
        assert_eq!(rt; shelf.read(name, &mut into), answer, "{name} in {folder}");
        assert_eq!(rt; into.as_slice(), bytes.as_bytes(), "{name} in {folder}");
        assert_eq!(rt; shelf.faults(), faults, "{name} in {folder}");
    }
    fs::remove_file(&rt, path.as_path())?;
    fs::remove_file(&rt, link.as_path())?;
    Ok(())
}

/// A clock that can be read once.
#[derive(Drop)]
struct Stopping {
    was_read: Cell<bool>,
}

impl std::rt::Clock for Stopping {
    fn monotonic(&self) -> io::Result<Duration> {
        self.since_1970()
    }

    fn since_1970(&self) -> io::Result<Duration> {
        if self.was_read.replace(true) {
            return Err(io::Error::from(io::ErrorKind::Other));
        }
        Ok(Duration::from_micros(1_234_567))
    }
}

#[test]
fn clocks_tell_milliseconds_and_words_differ(rt: HostRuntime) {
    // The start of 2020.
    let least = 1_577_836_800_000;
    assert!(rt; SystemClock::new(rt).now() >= least);
    // Where a clock stops, its last moment is told.
    for (was_read, moment) in [(false, 1_234), (true, 0)] {
        let was_read = Cell::new(was_read);
        let mut clock = SystemClock::new(Stopping { was_read });
        assert_eq!(rt; (clock.now(), clock.now()), (moment, moment));
    }

    let mut device = RandomDevice::new(rt);
    let (first, second) = (device.draw(), device.draw());
    assert!(rt; first.is_ok() && second.is_ok());
    assert_ne!(rt; first, second);
    assert_eq!(rt; device.faults(), 0);
}
