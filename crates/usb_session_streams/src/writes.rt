//! The lines of writes: how many bytes a writer accepts.

ghost use Rattle.std.specs.Prelude.{◌≡◌, OnErr};
ghost use Rattle.usb_device_endpoint.specs.Handles.{Stands};
ghost use Rattle.usb_device_host.specs.HostBus.{bus_of};
ghost use Rattle.usb_device_host.specs.HostCalls.{host_calls};
ghost use Rattle.usb_io.specs.Writers.{writing};
ghost use Rattle.usb_io.specs.WriteAnswers.{write_came, WriteShort};
ghost use Rattle.usb_session_streams.specs.Needs.{bars_call, write_need};
ghost use Rattle.usb_session_streams.specs.Printed.{written_line, poll_line, Prints, CallKeeps};
ghost use Rattle.usb_session_streams.specs.Short.{LeftShort};

use crate::needs::{bars_call, write_need};
use crate::{write_write_fault, write_wrote};
use futures::task::Poll;
use usb_desc::{Fail, NoMemory};
use usb_device::Host;
use usb_io::EndpointWrite;
use usb_session_text::{write_condition, write_pending};
use usb_xfer::Any;

/// Writes bytes, of which the writer accepts what fits, and waits where no buffer is free:
/// `wrote N`, or the fault.
///
/// # Errors
///
/// Want of memory. A barred call changed nothing. Any other lacked it for its line alone, or it
/// took its fronts and accepted no byte.
pub fn write(
    writer: &mut EndpointWrite<Any>,
    host: &mut Host,
    line: &mut String,
    bytes: &[u8],
) -> Result<(), NoMemory>
    requires stands { Stands (bus_of host.old) writer.old.endpoint }
    ensures printed { Prints
        (bars_call (writing host.old writer.old) (write_need writer.old))
        written_line
        (write_came host_calls writer.old.timeout bytes.now
        (writing host.old writer.old))
        line.old line.new
        (writing host.old writer.old) (writing host.new writer.new) result }
    ensures short { OnErr result
        (LeftShort
        (bars_call (writing host.old writer.old) (write_need writer.old))
        (write_came host_calls writer.old.timeout bytes.now
        (writing host.old writer.old)).left
        (WriteShort host_calls writer.old.timeout bytes.now)
        (writing host.old writer.old) (writing host.new writer.new)) }
    ensures keeps { CallKeeps
        (writing host.old writer.old) (writing host.new writer.new) }
{
    if bars_call(host, writer, write_need(writer)) {
        return write_condition(line);
    }
    let alloc = *line.allocator();
    match writer.write(host, bytes) {
        Ok(count) => write_wrote(line, count),
        Err(Fail::Cause(fault)) => write_write_fault(alloc, line, fault),
        Err(Fail::Memory) => Err(NoMemory),
    }
}

/// Writes bytes, and does not wait: `pending` where no buffer is free.
///
/// # Errors
///
/// Want of memory. A barred call changed nothing. Any other lacked it for its line alone, or it
/// took its fronts and accepted no byte.
pub fn poll_write(
    writer: &mut EndpointWrite<Any>,
    host: &mut Host,
    line: &mut String,
    bytes: &[u8],
) -> Result<(), NoMemory>
    requires stands { Stands (bus_of host.old) writer.old.endpoint }
    ensures printed { Prints
        (bars_call (writing host.old writer.old) (write_need writer.old))
        (poll_line written_line)
        (write_came host_calls 0 bytes.now (writing host.old writer.old))
        line.old line.new
        (writing host.old writer.old) (writing host.new writer.new) result }
    ensures short { OnErr result
        (LeftShort
        (bars_call (writing host.old writer.old) (write_need writer.old))
        (write_came host_calls 0 bytes.now (writing host.old writer.old)).left
        (WriteShort host_calls 0 bytes.now)
        (writing host.old writer.old) (writing host.new writer.new)) }
    ensures keeps { CallKeeps
        (writing host.old writer.old) (writing host.new writer.new) }
{
    if bars_call(host, writer, write_need(writer)) {
        return write_condition(line);
    }
    let alloc = *line.allocator();
    match writer.poll_write(host, bytes) {
        Poll::Ready(Ok(count)) => write_wrote(line, count),
        Poll::Ready(Err(Fail::Cause(fault))) => write_write_fault(alloc, line, fault),
        Poll::Ready(Err(Fail::Memory)) => Err(NoMemory),
        Poll::Pending => write_pending(line),
    }
}
