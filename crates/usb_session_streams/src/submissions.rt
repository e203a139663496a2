//! The lines of submissions, which wait for nothing.

ghost use Rattle.std.specs.Prelude.{◌≡◌, OnErr};
ghost use Rattle.usb_device_endpoint.specs.Handles.{Stands};
ghost use Rattle.usb_device_host.specs.HostBus.{bus_of};
ghost use Rattle.usb_device_host.specs.HostCalls.{host_calls};
ghost use Rattle.usb_io.specs.Writers.{writing};
ghost use Rattle.usb_io.specs.WriteAnswers.{submit_came, SubmitShort, submit_end_came, SubmitEndShort};
ghost use Rattle.usb_session_streams.specs.Needs.{bars_call, flush_need, finish_need};
ghost use Rattle.usb_session_streams.specs.Printed.{flushed_line, submitted_to, Prints, CallKeeps};
ghost use Rattle.usb_session_streams.specs.Short.{LeftShort};

use crate::needs::{bars_call, flush_need};
use usb_desc::NoMemory;
use usb_device::Host;
use usb_io::EndpointWrite;
use usb_session_text::{write_condition, write_ok};
use usb_xfer::Any;

/// Submits the bytes that stand, if any do: `ok`.
///
/// # Errors
///
/// Want of memory. A barred call changed nothing. Any other lacked it for its line alone, or it
/// submitted nothing, and no end has begun.
pub fn submit(
    writer: &mut EndpointWrite<Any>,
    host: &mut Host,
    line: &mut String,
) -> Result<(), NoMemory>
    requires stands { Stands (bus_of host.old) writer.old.endpoint }
    ensures printed { Prints
        (bars_call (writing host.old writer.old) (flush_need writer.old))
        flushed_line
        (submitted_to (submit_came host_calls (writing host.old writer.old)))
        line.old line.new
        (writing host.old writer.old) (writing host.new writer.new) result }
    ensures short { OnErr result
        (LeftShort
        (bars_call (writing host.old writer.old) (flush_need writer.old))
        (submit_came host_calls (writing host.old writer.old))
        SubmitShort
        (writing host.old writer.old) (writing host.new writer.new)) }
    ensures keeps { CallKeeps
        (writing host.old writer.old) (writing host.new writer.new) }
{
    if bars_call(host, writer, flush_need(writer)) {
        return write_condition(line);
    }
    writer.submit(host)?;
    write_ok(line)
}

/// Ends a message: `ok`.
///
/// # Errors
///
/// Want of memory. A barred call changed nothing. Any other lacked it for its line alone, or it
/// submitted nothing, or the buffer without the empty transfer, and no end has begun.
pub fn submit_end(
    writer: &mut EndpointWrite<Any>,
    host: &mut Host,
    line: &mut String,
) -> Result<(), NoMemory>
    requires stands { Stands (bus_of host.old) writer.old.endpoint }
    ensures printed { Prints
        (bars_call (writing host.old writer.old) (finish_need writer.old))
        flushed_line
        (submitted_to (submit_end_came host_calls (writing host.old writer.old)))
        line.old line.new
        (writing host.old writer.old) (writing host.new writer.new) result }
    ensures short { OnErr result
        (LeftShort
        (bars_call (writing host.old writer.old) (finish_need writer.old))
        (submit_end_came host_calls (writing host.old writer.old))
        (SubmitEndShort host_calls)
        (writing host.old writer.old) (writing host.new writer.new)) }
    ensures keeps { CallKeeps
        (writing host.old writer.old) (writing host.new writer.new) }
{
    if bars_call(host, writer, writer.end_need()) {
        return write_condition(line);
    }
    writer.submit_end(host)?;
    write_ok(line)
}
