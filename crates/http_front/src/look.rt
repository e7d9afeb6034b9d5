// The head at the front of what was read, as far as it came.
ghost use Rattle.http_front.specs.Scans.{IsScanned, IsDone, IsOpen, Looks};

use crate::FrontFault;
use crate::head::{HeadRead, Parsed, parse_lines};
use crate::scan::{Scan, scan_on};
use ck_base::limits::{HEAD_BYTES, HEAD_LINES};

/// What was found at the front.
#[derive(Clone, Copy)]
pub(crate) enum Look {
    Head(HeadRead),
    /// No head yet, as far as was looked.
    More(Scan),
}

// Where no head ended, more may come, unless a limit is reached.
fn wait_for_more(bytes: &[u8], scan: Scan) -> Result<Look, FrontFault>
    requires scanned { IsScanned bytes.now scan }
    requires done { IsDone bytes.now scan }
    requires unended { IsOpen bytes.now scan.lines }
    ensures { Looks bytes.now result }
{
    if scan.seen == HEAD_BYTES || scan.feeds == HEAD_LINES {
        Err(FrontFault::HeadTooLong)
    } else {
        Ok(Look::More(scan))
    }
}

/// Looks at the bytes that have come since. The head is read anew only where a further line ended,
/// so at most once for each of its lines.
pub(crate) fn look_on(bytes: &[u8], scan: Scan) -> Result<Look, FrontFault>
    requires scanned { IsScanned bytes.now scan }
    requires unended { IsOpen bytes.now scan.lines }
    ensures { Looks bytes.now result }
{
    let now = scan_on(bytes, scan);
    if now.lines == scan.lines {
        return wait_for_more(bytes, now);
    }
    match parse_lines(&bytes[..now.lines]) {
        Parsed::Head(head) => Ok(Look::Head(head)),
        Parsed::Never => Err(FrontFault::BadHead),
        Parsed::NotYet => wait_for_more(bytes, now),
    }
}
