// A board behind the zone lock answers connections, and a board that follows it finds what was made.
use crate::locked_boards::{LOCK, LockedBoard, lock_board};
use ck_devices::{CountWords, FixedClock, MemSink, MemSource};
use ck_server::{End, converse};
use http_front::read_users;
use std::alloc::Global;
use std::test::Fail;
use talk_model::At;
use zone_board::Board;

const USERS: &[u8] = b"iCloud.test development api\nwa ann\n";

const CREATE: &[u8] =
    b"POST /database/1/iCloud.test/development/private/records/modify?ckAPIToken=api&ckWebAuthToken=wa HTTP/1.1\r\nhost: h\r\ncontent-length: 88\r\n\r\n{\"operations\":[{\"operationType\":\"create\",\"record\":{\"recordName\":\"a\",\"recordType\":\"T\"}}]}";

const LOOKUP: &[u8] =
    b"POST /database/1/iCloud.test/development/private/records/lookup?ckAPIToken=api&ckWebAuthToken=wa HTTP/1.1\r\nhost: h\r\ncontent-length: 32\r\n\r\n{\"records\":[{\"recordName\":\"a\"}]}";

/// The reply to either: the record as it was made.
const RECORD: &[u8] =
    b"HTTP/1.1 200 OK\r\ncontent-type: application/json\r\ncontent-length: 188\r\n\r\n{\"records\":[{\"created\":{\"timestamp\":1000,\"userRecordName\":\"ann\"},\"fields\":{},\"modified\":{\"timestamp\":1000,\"userRecordName\":\"ann\"},\"recordChangeTag\":\"1\",\"recordName\":\"a\",\"recordType\":\"T\"}]}";

/// What a connection came to: its end, its asks, and the bytes that were written.
#[derive(Drop)]
struct Outcome {
    end: Option<End>,
    asks: Vec<At>,
    written: Vec<u8>,
}

fn talk_to<B: Board>(alloc: Global, board: &mut B, request: &[u8]) -> Result<Outcome, Fail> {
    let mut source = MemSource::new(request.to_vec(alloc)?, 65_536, Vec::new(alloc));
    let mut sink = MemSink::new(alloc, 65_536, Vec::new(alloc));
    let talk = converse(
        alloc,
        board,
        &read_users(alloc, USERS)?,
        &mut source,
        &mut sink,
        &mut FixedClock(1000),
        &mut CountWords::new(1, Vec::new(alloc)),
    );
    let mut asks = Vec::new(alloc);
    let mut end = None;
    if let Ok(talk) = talk {
        end = Some(talk.end);
        for mark in talk.marks.iter() {
            asks.extend_from_slice(mark.asks.as_slice())?;
        }
    }
    let written = sink.bytes().to_vec(alloc)?;
    Ok(Outcome { end, asks, written })
}

#[test]
fn a_board_that_follows_finds_what_was_made(rt: HostRuntime) -> Result<(), Fail> {
    let alloc = rt.alloc();
    let (lock, pass) = lock_board(alloc)?;
    let mut first = LockedBoard::first(alloc, &rt, &lock, pass);
    let made = talk_to(alloc, &mut first, CREATE)?;
    assert_eq!(rt; made.end, Some(End::Closed));
    assert_eq!(rt;
        made.asks.as_slice(),
        [At {
            lock: LOCK,
            len: 1,
            event: true
        }]
        .as_slice()
    );
    assert_eq!(rt; made.written.as_slice(), RECORD);
    let mut second = first.follow(alloc);
    let found = talk_to(alloc, &mut second, LOOKUP)?;
    assert_eq!(rt; found.end, Some(End::Closed));
    assert_eq!(rt;
        found.asks.as_slice(),
        [At {
            lock: LOCK,
            len: 1,
            event: false
        }]
        .as_slice()
    );
    assert_eq!(rt; found.written.as_slice(), RECORD);
    Ok(())
}
