//! How a frame is sent.

ghost use Rattle.std.specs.Prelude.{◌≡◌, ◌+◌, ◌≤◌, length, unwrap_or, [], IfErr, OnOk};
ghost use Rattle.usb_device_endpoint.specs.Handles.{Stands};
ghost use Rattle.usb_io.specs.Along.{WritesAlong};
ghost use Rattle.usb_io.specs.Writers.{writing, KeepsWriter};
ghost use Rattle.usb_msg.specs.Clients.{request_need};
ghost use Rattle.usb_msg.specs.Sending.{FrameSent, SendFails, TellsSent, LeavesNone};

use usb_desc::Fail;
use usb_device_endpoint::Bus;
use usb_io::{EndpointWrite, WriteFault};
use usb_xfer::BulkOrInterrupt;

/// Why a frame was not sent.
#[derive(Clone, Copy, Debug, PartialEq, Eq, Drop)]
pub(crate) enum SendFault {
    /// The write failed, and accepted nothing.
    NotWritten(WriteFault),
    /// There was no memory for the write, which accepted nothing.
    NoWrite,
    /// The frame was accepted, and there was no memory for its end.
    NoEnd,
}

/// Writes a frame by one write, and ends its message.
pub(crate) fn send<T: BulkOrInterrupt, B: Bus>(
    writer: &mut EndpointWrite<T>,
    bus: &mut B,
    frame: &[u8],
) -> Result<(), SendFault>
    requires empty { unwrap_or writer.old.buffer [] ≡ [] }
    requires short { length frame.now ≤ 4100 }
    requires holds { 4160 ≤ writer.old.size }
    requires few { length writer.old.endpoint.pending
        + request_need writer.old.endpoint.maximum (length frame.now) ≤ 64 }
    requires stands { Stands (B.calls.state bus.old) writer.old.endpoint }
    ensures sent { OnOk result
        (FrameSent B.calls frame.now (writing bus.old writer.old) (writing bus.new writer.new)) }
    ensures failed { IfErr result
        (SendFails B.calls frame.now (writing bus.old writer.old) (writing bus.new writer.new)) }
    ensures tells { TellsSent (B.calls.state bus.old) (B.calls.state bus.new) writer.old writer.new
        frame.now result }
    ensures nothing { LeavesNone writer.new result }
    ensures settings { KeepsWriter writer.old writer.new }
    ensures goes { WritesAlong (B.calls.state bus.old) (B.calls.state bus.new) writer.old.endpoint
        writer.new.endpoint }
{
    match writer.write(bus, frame) {
        Ok(_) => match writer.submit_end(bus) {
            Ok(()) => Ok(()),
            Err(_) => Err(SendFault::NoEnd),
        },
        Err(Fail::Cause(fault)) => Err(SendFault::NotWritten(fault)),
        Err(Fail::Memory) => Err(SendFault::NoWrite),
    }
}
