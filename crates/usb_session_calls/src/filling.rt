//! `fill`, `sfill`, `pollfill` and `pollsfill`: the bytes that stand in a reader are shown.

ghost use Rattle.std.specs.Borrow.{sem};
ghost use Rattle.std.specs.Io.BufRead.{Rests};
ghost use Rattle.usb_device_endpoint.specs.Handles.{Stands};
ghost use Rattle.usb_device_host.specs.HostBus.{bus_of};
ghost use Rattle.usb_device_host.specs.HostCalls.{host_calls};
ghost use Rattle.usb_io.specs.Along.{ReadsAlong};
ghost use Rattle.usb_io.specs.Reads.{reading, KeepsSettings};
ghost use Rattle.usb_io.specs.contracts.reader.EndpointRead.{the_row};
ghost use Rattle.usb_io.specs.Lent.{Filled, PollFilled};
ghost use Rattle.usb_session_streams.specs.ReaderCalls.{ReaderGoesOn};
ghost use Rattle.usb_session_streams.specs.Reads.{buffer_line};
ghost use Rattle.usb_session_calls.specs.Reads.{is_until_short, given_line, polled_given_line, fill_on};
ghost use Rattle.usb_session_calls.specs.OpenCalls.{CallKeeps};
ghost use Rattle.usb_session_calls.specs.ReaderCalls.{ReaderAnswers};

use crate::reading::bars_read;
use futures::task::Poll;
use usb_desc::{Fail, NoMemory};
use usb_device::Host;
use usb_io::{EndpointRead, ReadFault};
use usb_script_lines::Framing;
use usb_session_streams::{write_buffer, write_read_fault};
use usb_session_text::{write_condition, write_pending};
use usb_xfer::{Any, BulkOrInterrupt};

/// The bytes that stand in a reader, by the call of this framing.
fn fill_bytes<'a, T: BulkOrInterrupt>(
    reader: &'a mut EndpointRead<T>,
    host: &mut Host,
    framing: Framing,
) -> Result<&'a [u8], Fail<ReadFault>>
    requires stands { Stands (bus_of host.old) reader.old.endpoint }
    ensures* lent { sem 𝓛
        (Rests (the_row T.row T.EndpointType) reader.entry
        (λ new. Filled host_calls (is_until_short framing) reader.old.timeout
        (reading host.old reader.old) (reading host.new new) result
        × ReaderGoesOn (reading host.old reader.old) (reading host.new new)
        × ReadsAlong (bus_of host.old) (bus_of host.new) reader.old.endpoint new.endpoint
        × KeepsSettings reader.old new)) }
{
    match framing {
        Framing::Plain => reader.fill_buf(host),
        Framing::UntilShort => reader.fill_until_short(host),
    }
}

/// Shows the bytes that stand in a reader that is open.
pub(crate) fn fill_open(
    reader: &mut EndpointRead<Any>,
    host: &mut Host,
    line: &mut String,
    framing: Framing,
) -> Result<(), NoMemory>
    requires stands { Stands (bus_of host.old) reader.old.endpoint }
    ensures keeps { CallKeeps host.old host.new reader.old.endpoint
        reader.new.endpoint }
    ensures answered { ReaderAnswers host.old host.new reader.old
        reader.new line.old line.new result
        (λ state r at. fill_on state framing r at.state.timeout
        (given_line buffer_line) at) }
{
    if bars_read(host, framing, reader) {
        return write_condition(line);
    }
    let alloc = *line.allocator();
    match fill_bytes(reader, host, framing) {
        Ok(bytes) => write_buffer(line, bytes),
        Err(Fail::Cause(fault)) => write_read_fault(alloc, line, fault),
        Err(Fail::Memory) => Err(NoMemory),
    }
}

/// The bytes that stand in a reader, by the call of this framing that does not wait.
fn poll_fill_bytes<'a, T: BulkOrInterrupt>(
    reader: &'a mut EndpointRead<T>,
    host: &mut Host,
    framing: Framing,
) -> Poll<Result<&'a [u8], Fail<ReadFault>>>
    requires stands { Stands (bus_of host.old) reader.old.endpoint }
    ensures* lent { sem 𝓛
        (Rests (the_row T.row T.EndpointType) reader.entry
        (λ new. PollFilled host_calls (is_until_short framing)
        (reading host.old reader.old) (reading host.new new) result
        × ReaderGoesOn (reading host.old reader.old) (reading host.new new)
        × ReadsAlong (bus_of host.old) (bus_of host.new) reader.old.endpoint new.endpoint
        × KeepsSettings reader.old new)) }
{
    match framing {
        Framing::Plain => reader.poll_fill_buf(host),
        Framing::UntilShort => reader.poll_fill_until_short(host),
    }
}

/// Shows the bytes that stand in a reader that is open, with no wait.
pub(crate) fn poll_fill_open(
    reader: &mut EndpointRead<Any>,
    host: &mut Host,
    line: &mut String,
    framing: Framing,
) -> Result<(), NoMemory>
    requires stands { Stands (bus_of host.old) reader.old.endpoint }
    ensures keeps { CallKeeps host.old host.new reader.old.endpoint
        reader.new.endpoint }
    ensures answered { ReaderAnswers host.old host.new reader.old
        reader.new line.old line.new result
        (λ state r at. fill_on state framing r 0 (polled_given_line buffer_line) at) }
{
    if bars_read(host, framing, reader) {
        return write_condition(line);
    }
    let alloc = *line.allocator();
    match poll_fill_bytes(reader, host, framing) {
        Poll::Ready(Ok(bytes)) => write_buffer(line, bytes),
        Poll::Ready(Err(Fail::Cause(fault))) => write_read_fault(alloc, line, fault),
        Poll::Ready(Err(Fail::Memory)) => Err(NoMemory),
        Poll::Pending => write_pending(line),
    }
}
