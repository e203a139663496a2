//! The lines of flushes: what stands is submitted, and all that is pending is taken.

ghost use Rattle.std.specs.Prelude.{◌≡◌, OnErr};
ghost use Rattle.usb_device_endpoint.specs.Handles.{Stands};
ghost use Rattle.usb_device_host.specs.HostBus.{bus_of};
ghost use Rattle.usb_device_host.specs.HostCalls.{host_calls};
ghost use Rattle.usb_io.specs.Writers.{writing};
ghost use Rattle.usb_io.specs.WriteAnswers.{flush_came, flush_end_came, poll_flush_end_came, SubmitShort, SubmitEndShort, PolledEndShort};
ghost use Rattle.usb_session_streams.specs.Needs.{bars_call, flush_need, finish_need, poll_finish_need};
ghost use Rattle.usb_session_streams.specs.Printed.{flushed_line, poll_line, Prints, CallKeeps};
ghost use Rattle.usb_session_streams.specs.Short.{LeftShort};

use crate::needs::{bars_call, flush_need, poll_finish_need};
use crate::write_write_fault;
use futures::task::Poll;
use usb_desc::{Fail, NoMemory};
use usb_device::Host;
use usb_io::EndpointWrite;
use usb_session_text::{write_condition, write_ok, write_pending};
use usb_xfer::Any;

/// Flushes, and waits for what is pending: `ok`, or the first fault.
///
/// # Errors
///
/// Want of memory. A barred call changed nothing. Any other lacked it for its line alone, or it
/// submitted nothing, and no end has begun.
pub fn flush(
    writer: &mut EndpointWrite<Any>,
    host: &mut Host,
    line: &mut String,
) -> Result<(), NoMemory>
    requires stands { Stands (bus_of host.old) writer.old.endpoint }
    ensures printed { Prints
        (bars_call (writing host.old writer.old) (flush_need writer.old))
        flushed_line
        (flush_came host_calls writer.old.timeout
        (writing host.old writer.old))
        line.old line.new
        (writing host.old writer.old) (writing host.new writer.new) result }
    ensures short { OnErr result
        (LeftShort
        (bars_call (writing host.old writer.old) (flush_need writer.old))
        (flush_came host_calls writer.old.timeout
        (writing host.old writer.old)).left
        SubmitShort
        (writing host.old writer.old) (writing host.new writer.new)) }
    ensures keeps { CallKeeps
        (writing host.old writer.old) (writing host.new writer.new) }
{
    if bars_call(host, writer, flush_need(writer)) {
        return write_condition(line);
    }
    let alloc = *line.allocator();
    match writer.flush(host) {
        Ok(()) => write_ok(line),
        Err(Fail::Cause(fault)) => write_write_fault(alloc, line, fault),
        Err(Fail::Memory) => Err(NoMemory),
    }
}

/// Flushes, and does not wait: `pending` where something is.
///
/// # Errors
///
/// Want of memory. A barred call changed nothing. Any other lacked it for its line alone, or it
/// submitted nothing, and no end has begun.
pub fn poll_flush(
    writer: &mut EndpointWrite<Any>,
    host: &mut Host,
    line: &mut String,
) -> Result<(), NoMemory>
    requires stands { Stands (bus_of host.old) writer.old.endpoint }
    ensures printed { Prints
        (bars_call (writing host.old writer.old) (flush_need writer.old))
        (poll_line flushed_line)
        (flush_came host_calls 0 (writing host.old writer.old))
        line.old line.new
        (writing host.old writer.old) (writing host.new writer.new) result }
    ensures short { OnErr result
        (LeftShort
        (bars_call (writing host.old writer.old) (flush_need writer.old))
        (flush_came host_calls 0 (writing host.old writer.old)).left
        SubmitShort
        (writing host.old writer.old) (writing host.new writer.new)) }
    ensures keeps { CallKeeps
        (writing host.old writer.old) (writing host.new writer.new) }
{
    if bars_call(host, writer, flush_need(writer)) {
        return write_condition(line);
    }
    let alloc = *line.allocator();
    match writer.poll_flush(host) {
        Poll::Ready(Ok(())) => write_ok(line),
        Poll::Ready(Err(Fail::Cause(fault))) => write_write_fault(alloc, line, fault),
        Poll::Ready(Err(Fail::Memory)) => Err(NoMemory),
        Poll::Pending => write_pending(line),
    }
}

/// Ends a message, and waits for what is pending: `ok`, or the first fault.
///
/// # Errors
///
/// Want of memory. A barred call changed nothing. Any other lacked it for its line alone, or it
/// submitted nothing, or the buffer without the empty transfer, and no end has begun.
pub fn flush_end(
    writer: &mut EndpointWrite<Any>,
    host: &mut Host,
    line: &mut String,
) -> Result<(), NoMemory>
    requires stands { Stands (bus_of host.old) writer.old.endpoint }
    ensures printed { Prints
        (bars_call (writing host.old writer.old) (finish_need writer.old))
        flushed_line
        (flush_end_came host_calls writer.old.timeout
        (writing host.old writer.old))
        line.old line.new
        (writing host.old writer.old) (writing host.new writer.new) result }
    ensures short { OnErr result
        (LeftShort
        (bars_call (writing host.old writer.old) (finish_need writer.old))
        (flush_end_came host_calls writer.old.timeout
        (writing host.old writer.old)).left
        (SubmitEndShort host_calls)
        (writing host.old writer.old) (writing host.new writer.new)) }
    ensures keeps { CallKeeps
        (writing host.old writer.old) (writing host.new writer.new) }
{
    if bars_call(host, writer, writer.end_need()) {
        return write_condition(line);
    }
    let alloc = *line.allocator();
    match writer.flush_end(host) {
        Ok(()) => write_ok(line),
        Err(Fail::Cause(fault)) => write_write_fault(alloc, line, fault),
        Err(Fail::Memory) => Err(NoMemory),
    }
}

/// Ends a message where no end has begun, and does not wait: `pending` where something is.
///
/// # Errors
///
/// Want of memory. A barred call changed nothing. Any other lacked it for its line alone, or it
/// submitted nothing, or the buffer without the empty transfer, and no end has begun.
pub fn poll_flush_end(
    writer: &mut EndpointWrite<Any>,
    host: &mut Host,
    line: &mut String,
) -> Result<(), NoMemory>
    requires stands { Stands (bus_of host.old) writer.old.endpoint }
    ensures printed { Prints
        (bars_call (writing host.old writer.old)
        (poll_finish_need writer.old))
        (poll_line flushed_line)
        (poll_flush_end_came host_calls (writing host.old writer.old))
        line.old line.new
        (writing host.old writer.old) (writing host.new writer.new) result }
    ensures short { OnErr result
        (LeftShort
        (bars_call (writing host.old writer.old)
        (poll_finish_need writer.old))
        (poll_flush_end_came host_calls (writing host.old writer.old)).left
        (PolledEndShort host_calls)
        (writing host.old writer.old) (writing host.new writer.new)) }
    ensures keeps { CallKeeps
        (writing host.old writer.old) (writing host.new writer.new) }
{
    if bars_call(host, writer, poll_finish_need(writer)) {
        return write_condition(line);
    }
    let alloc = *line.allocator();
    match writer.poll_flush_end(host) {
        Poll::Ready(Ok(())) => write_ok(line),
        Poll::Ready(Err(Fail::Cause(fault))) => write_write_fault(alloc, line, fault),
        Poll::Ready(Err(Fail::Memory)) => Err(NoMemory),
        Poll::Pending => write_pending(line),
    }
}
