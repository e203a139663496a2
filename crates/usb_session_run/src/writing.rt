//! Writing to a sink.

ghost use Rattle.std.specs.Prelude.{◌≡◌, OnOk, OnErr};
ghost use Rattle.std.specs.Io.KnownBytes.{Appends};
ghost use Rattle.usb_session_run.specs.Causes.{CountsFaults, FailedLast, WrotePrefix, WrotePart};

use crate::outside::{Failed, Sink};

/// Writes bytes to a sink, and again what it did not take.
pub fn offer<K: Sink>(sink: &mut K, bytes: &[u8]) -> Result<(), Failed>
    ensures ok { OnOk result (Appends (K.written sink.old) (K.written sink.new) bytes.now) }
    ensures err { OnErr result (WrotePrefix (K.written sink.old) (K.written sink.new) bytes.now) }
    ensures part { OnErr result (WrotePart (K.written sink.old) (K.written sink.new) bytes.now) }
    ensures cause { CountsFaults (K.faults sink.old) (K.faults sink.new) result }
    // After a write that failed nothing more is offered.
    ensures stops { OnErr result
        (FailedLast (K.faults sink.old) (K.faults sink.new) (K.has_failed sink.new)) }
{
    let mut rest = bytes;
    while !rest.is_empty() {
        let count = sink.write(rest)?;
        let (_, after) = rest.split_at(count);
        rest = after;
    }
    Ok(())
}
