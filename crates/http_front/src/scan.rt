// The line feeds of a head, counted as they come.
ghost use Rattle.std.specs.Prelude.{◌≡◌, ◌≤◌};
ghost use Rattle.http_front.specs.Scans.{IsScanned, IsDone};

use ck_base::limits::{HEAD_BYTES, HEAD_LINES};

/// How far the bytes of a head were looked at.
#[derive(Clone, Copy)]
pub(crate) struct Scan {
    /// How many bytes were looked at.
    pub seen: usize,
    /// How many line feeds stand in them.
    pub feeds: usize,
    /// The place behind the last line feed.
    pub lines: usize,
}

/// Nothing was looked at yet.
pub(crate) const UNSEEN: Scan = Scan {
    seen: 0,
    feeds: 0,
    lines: 0,
};

/// Looks at the bytes that have come since, within the limits of a head.
pub(crate) fn scan_on(bytes: &[u8], scan: Scan) -> Scan
    requires { IsScanned bytes.now scan }
    ensures scanned { IsScanned bytes.now result }
    ensures done { IsDone bytes.now result }
    ensures later { scan.lines ≤ result.lines }
{
    let mut now = scan;
    while now.seen < bytes.len() && now.seen < HEAD_BYTES && now.feeds < HEAD_LINES {
        let byte = bytes[now.seen];
        now.seen += 1;
        if byte == b'\n' {
            now.feeds += 1;
            now.lines = now.seen;
        }
    }
    now
}
