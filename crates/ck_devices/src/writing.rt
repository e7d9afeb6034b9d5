// Writing whole texts.
ghost use Rattle.std.specs.Prelude.{◌≡◌, ◌≤◌, OnOk, OnErr};
ghost use Rattle.std.specs.Io.KnownBytes.{Appends};
ghost use Rattle.ck_devices.specs.Causes.{Stops};
ghost use Rattle.ck_devices.specs.Fronts.{WritesFront};

use crate::{Failed, Sink};

/// Writes all of the bytes. After a fault a front of them was written, and not all, and the write
/// that failed was the last.
pub fn write_whole<W: Sink>(sink: &mut W, bytes: &[u8]) -> Result<(), Failed>
    ensures ok { OnOk result (Appends (W.held sink.old) (W.held sink.new) bytes.now) }
    ensures err { OnErr result (WritesFront (W.held sink.old) (W.held sink.new) bytes.now) }
    ensures cause { Stops (W.failures sink.old) (W.failures sink.new) result }
{
    let mut done = 0;
    while done < bytes.len() {
        done += sink.write(&bytes[done..])?;
    }
    Ok(())
}
