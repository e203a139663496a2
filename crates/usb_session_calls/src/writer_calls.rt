//! Calls on a writer.

ghost use Rattle.usb_device_endpoint.specs.Handles.{Stands};
ghost use Rattle.usb_device_host.specs.HostBus.{bus_of};
ghost use Rattle.usb_session_calls.specs.WriterCalls.{WriterAnswers};
ghost use Rattle.usb_session_calls.specs.CalledWriters.{writer_called};
ghost use Rattle.usb_session_calls.specs.OpenCalls.{CallKeeps};

use crate::call::WriterCall;
use crate::writer_settings::{timeout_open, transfers_open};
use usb_desc::NoMemory;
use usb_device::Host;
use usb_io::EndpointWrite;
use usb_xfer::Any;

/// Calls a writer that is open.
pub fn call_writer(
    writer: &mut EndpointWrite<Any>,
    host: &mut Host,
    line: &mut String,
    call: WriterCall,
) -> Result<(), NoMemory>
    requires stands { Stands (bus_of host.old) writer.old.endpoint }
    ensures keeps { CallKeeps host.old host.new writer.old.endpoint
        writer.new.endpoint }
    ensures answered { WriterAnswers host.old host.new writer.old
        writer.new line.old line.new result (writer_called call) }
{
    match call {
        WriterCall::Write(bytes) => {
            usb_session_streams::write(writer, host, line, bytes.as_slice())
        }
        WriterCall::PollWrite(bytes) => {
            usb_session_streams::poll_write(writer, host, line, bytes.as_slice())
        }
        WriterCall::Submit => usb_session_streams::submit(writer, host, line),
        WriterCall::SubmitEnd => usb_session_streams::submit_end(writer, host, line),
        WriterCall::Flush => usb_session_streams::flush(writer, host, line),
        WriterCall::PollFlush => usb_session_streams::poll_flush(writer, host, line),
        WriterCall::FlushEnd => usb_session_streams::flush_end(writer, host, line),
        WriterCall::PollFlushEnd => usb_session_streams::poll_flush_end(writer, host, line),
        WriterCall::SetNumTransfers(count) => transfers_open(writer, line, count),
        WriterCall::SetWriteTimeout(timeout) => timeout_open(writer, line, timeout),
    }
}
