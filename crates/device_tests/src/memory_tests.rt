// The devices in memory, and which of their calls fail.
use ck_base::{Bytes, Text};
use ck_devices::{
    Clock, CountWords, Failed, FixedClock, MemShelf, MemSink, MemSource, Shelf, ShelfFault, Sink,
    Source, Words, write_whole,
};
use std::alloc::{AllocError, Global};
use std::test::Fail;

#[test]
fn sources_give_their_bytes_in_pieces_and_fail_where_listed(rt: HostRuntime) -> Result<(), Fail> {
    let alloc = rt.alloc();
    let bytes = Vec::from_slice(alloc, b"hello")?;
    let mut source = MemSource::new(bytes, 2, vec![in alloc; 2]?);
    let mut into = [0u8; 4];
    let mut got = Vec::new(alloc);
    for want in [Ok(2), Err(Failed), Ok(2), Ok(1), Ok(0)] {
        let answer = source.read(&mut into);
        if let Ok(count) = answer {
            got.extend_from_slice(&into[..count])?;
        }
        assert_eq!(rt; answer, want);
    }
    assert_eq!(rt; got.as_slice(), b"hello".as_slice());
    assert_eq!(rt; source.faults(), 1);
    Ok(())
}

#[test]
fn sinks_keep_what_they_take_and_fail_where_listed(rt: HostRuntime) -> Result<(), Fail> {
    let alloc = rt.alloc();
    let mut sink = MemSink::new(alloc, 3, vec![in alloc; 1, 3]?);
    assert_eq!(rt; sink.write(b"hello"), Err(Failed));
    assert_eq!(rt; sink.write(b"hello"), Ok(3));
    assert_eq!(rt; sink.write(b"lo"), Err(Failed));
    assert_eq!(rt; sink.write(b"lo"), Ok(2));
    assert_eq!(rt; sink.bytes(), b"hello".as_slice());
    assert_eq!(rt; sink.faults(), 2);

    // Whole texts: a byte at a time, and up to the write that fails.
    let mut sink = MemSink::new(alloc, 1, Vec::new(alloc));
    assert_eq!(rt; write_whole(&mut sink, b"hello"), Ok(()));
    assert_eq!(rt; sink.bytes(), b"hello".as_slice());
    let mut sink = MemSink::new(alloc, 2, vec![in alloc; 3]?);
    assert_eq!(rt; write_whole(&mut sink, b"hello"), Err(Failed));
    assert_eq!(rt; sink.bytes(), b"hell".as_slice());
    assert_eq!(rt; sink.faults(), 1);
    Ok(())
}

fn named(alloc: Global, name: &str, bytes: &[u8]) -> Result<(Text, Bytes), AllocError> {
    Ok((
        Text::from_str(alloc, name)?,
        Bytes::from_slice(alloc, bytes)?,
    ))
}

#[test]
fn shelves_find_the_first_of_a_name_and_fail_where_listed(rt: HostRuntime) -> Result<(), Fail> {
    let alloc = rt.alloc();
    let mut files = Vec::new(alloc);
    for (name, bytes) in [("a", "first"), ("b", ""), ("a", "second")] {
        files.push(named(alloc, name, bytes.as_bytes())?)?;
    }
    let mut shelf = MemShelf::new(files, vec![in alloc; 3]?);
    let mut into = Vec::from_slice(alloc, b"old")?;
    for (name, answer, bytes) in [
        ("a", Ok(true), "first"),
        ("c", Ok(false), ""),
        ("a", Err(ShelfFault::Failed), ""),
        ("b", Ok(true), ""),
    ] {
        assert_eq!(rt; shelf.read(name, &mut into), answer, "at {name}");
        assert_eq!(rt; into.as_slice(), bytes.as_bytes(), "at {name}");
    }
    assert_eq!(rt; shelf.faults(), 1);
    Ok(())
}

#[test]
fn clocks_stand_and_words_count_up_and_fail_where_listed(rt: HostRuntime) -> Result<(), Fail> {
    let mut clock = FixedClock(7);
    assert_eq!(rt; (clock.now(), clock.now()), (7, 7));
    // Past the last word.
    let mut words = CountWords::new(u128::MAX, vec![in rt.alloc(); 2]?);
    let (zero, one) = (0u128.to_be_bytes(), 1u128.to_be_bytes());
    for want in [Ok([255; 16]), Err(Failed), Ok(zero), Ok(one)] {
        assert_eq!(rt; words.draw(), want);
    }
    assert_eq!(rt; words.faults(), 1);
    Ok(())
}
