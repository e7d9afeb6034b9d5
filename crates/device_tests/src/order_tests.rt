// In which order a conversation uses its devices. They are several, so no contract tells it.
use crate::order_devices::{CountedClock, CountedWords, CountingSink, PatientSource};
use ck_devices::{MemSink, MemSource, UseCount};
use ck_server::{End, converse};
use http_front::read_users;
use std::alloc::{AllocError, Global};
use std::cell::Cell;
use std::test::Fail;
use zone_board::Solo;

const USERS: &[u8] = b"iCloud.test development api\nwa ann\n";

/// A create whose record is named by a word.
const CREATE: &[u8] =
    b"POST /database/1/iCloud.test/development/private/records/modify?ckAPIToken=api&ckWebAuthToken=wa HTTP/1.1\r\nhost: h\r\ncontent-length: 71\r\n\r\n{\"operations\":[{\"operationType\":\"create\",\"record\":{\"recordType\":\"T\"}}]}";

/// Another, that asks to close.
const CREATE_AND_CLOSE: &[u8] =
    b"POST /database/1/iCloud.test/development/private/records/modify?ckAPIToken=api&ckWebAuthToken=wa HTTP/1.1\r\nhost: h\r\nconnection: close\r\ncontent-length: 71\r\n\r\n{\"operations\":[{\"operationType\":\"create\",\"record\":{\"recordType\":\"T\"}}]}";

/// The replies where the clock is used first and third, and the words second and fourth.
const FIRST_AND_SECOND: &str =
    "HTTP/1.1 200 OK\r\ncontent-type: application/json\r\ncontent-length: 217\r\n\r\n{\"records\":[{\"created\":{\"timestamp\":1,\"userRecordName\":\"ann\"},\"fields\":{},\"modified\":{\"timestamp\":1,\"userRecordName\":\"ann\"},\"recordChangeTag\":\"1\",\"recordName\":\"00000000-0000-4000-8000-000000000002\",\"recordType\":\"T\"}]}";

const THIRD_AND_FOURTH: &str =
    "HTTP/1.1 200 OK\r\ncontent-type: application/json\r\ncontent-length: 217\r\nconnection: close\r\n\r\n{\"records\":[{\"created\":{\"timestamp\":3,\"userRecordName\":\"ann\"},\"fields\":{},\"modified\":{\"timestamp\":3,\"userRecordName\":\"ann\"},\"recordChangeTag\":\"1\",\"recordName\":\"00000000-0000-4000-8000-000000000004\",\"recordType\":\"T\"}]}";

fn whole(alloc: Global, bytes: &[u8]) -> Result<MemSource, AllocError> {
    Ok(MemSource::new(bytes.to_vec(alloc)?, 65_536, Vec::new(alloc)))
}

// The clock is read before words are drawn, a reply is written before more is read, and nothing is read
// behind a request that asks to close.
#[test]
fn devices_are_used_in_order(rt: HostRuntime) -> Result<(), Fail> {
    let alloc = rt.alloc();
    let (uses, written, reads) = (Cell::new(0), Cell::new(0), Cell::new(0));
    let mut source = PatientSource {
        first: whole(alloc, CREATE)?,
        second: whole(alloc, CREATE_AND_CLOSE)?,
        written: &written,
        wanted: FIRST_AND_SECOND.len() as u64,
        reads: &reads,
        counted: UseCount::new(),
    };
    let mut sink = CountingSink {
        bytes: MemSink::new(alloc, 65_536, Vec::new(alloc)),
        written: &written,
        counted: UseCount::new(),
    };
    let talk = converse(
        alloc,
        &mut Solo::new(alloc),
        &read_users(alloc, USERS)?,
        &mut source,
        &mut sink,
        &mut CountedClock { uses: &uses },
        &mut CountedWords { uses: &uses },
    );
    assert_eq!(rt; talk.ok().map(|talk| talk.end), Some(End::CloseAsked));
    assert_eq!(rt; (uses.get(), reads.get()), (4, 2));
    let replies = sink.bytes.bytes().strip_prefix(FIRST_AND_SECOND.as_bytes());
    assert_eq!(rt; replies, Some(THIRD_AND_FOURTH.as_bytes()));
    Ok(())
}
