//! Calls on a reader.

ghost use Rattle.usb_device_endpoint.specs.Handles.{Stands};
ghost use Rattle.usb_device_host.specs.HostBus.{bus_of};
ghost use Rattle.usb_session_calls.specs.ReaderCalls.{ReaderAnswers};
ghost use Rattle.usb_session_calls.specs.CalledReaders.{reader_called};
ghost use Rattle.usb_session_calls.specs.OpenCalls.{CallKeeps};

use crate::call::ReaderCall;
use crate::filling::{fill_open, poll_fill_open};
use crate::halting::clear_reader_open;
use crate::reader_settings::{
    cancel_reader_open, consume_end_open, consume_open, is_end_open, num_open, timeout_open,
};
use crate::reading::{poll_read_open, read_open};
use usb_desc::NoMemory;
use usb_device::Host;
use usb_io::EndpointRead;
use usb_xfer::Any;

/// Calls a reader that is open.
pub fn call_reader(
    reader: &mut EndpointRead<Any>,
    host: &mut Host,
    line: &mut String,
    call: ReaderCall,
) -> Result<(), NoMemory>
    requires stands { Stands (bus_of host.old) reader.old.endpoint }
    ensures keeps { CallKeeps host.old host.new reader.old.endpoint
        reader.new.endpoint }
    ensures answered { ReaderAnswers host.old host.new reader.old
        reader.new line.old line.new result (reader_called call) }
{
    match call {
        ReaderCall::Read(framing, most) => read_open(reader, host, line, framing, most),
        ReaderCall::PollRead(framing, most) => poll_read_open(reader, host, line, framing, most),
        ReaderCall::FillBuf(framing) => fill_open(reader, host, line, framing),
        ReaderCall::PollFillBuf(framing) => poll_fill_open(reader, host, line, framing),
        ReaderCall::Consume(framing, count) => consume_open(reader, line, framing, count),
        ReaderCall::IsEnd => is_end_open(reader, line),
        ReaderCall::ConsumeEnd => consume_end_open(reader, line),
        ReaderCall::SetNumTransfers(count) => num_open(reader, host, line, count),
        ReaderCall::SetReadTimeout(timeout) => timeout_open(reader, line, timeout),
        ReaderCall::Cancel => cancel_reader_open(reader, host, line),
        ReaderCall::ClearHalt => clear_reader_open(reader, host, line),
    }
}
