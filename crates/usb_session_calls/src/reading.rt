//! `read`, `sread`, `pollread` and `pollsread`: bytes are read from a reader.

ghost use Rattle.std.specs.Prelude.{◌≡◌, ◌≤◌, true, take, length, Ok, IfOk, IfErr};
ghost use Rattle.usb_device_endpoint.specs.Handles.{Stands};
ghost use Rattle.usb_device_host.specs.HostBus.{bus_of};
ghost use Rattle.usb_device_host.specs.HostCalls.{host_calls};
ghost use Rattle.usb_io.specs.Answers.{read_came, ReadFails};
ghost use Rattle.usb_io.specs.Along.{ReadsAlong};
ghost use Rattle.usb_io.specs.Reads.{reading};
ghost use Rattle.usb_io.specs.Answered.{answered, as_wait, InTime};
ghost use Rattle.usb_session_streams.specs.ReaderCalls.{ReaderGoesOn};
ghost use Rattle.usb_session_streams.specs.Reads.{read_line};
ghost use Rattle.usb_session_streams.specs.Needs.{bars_need};
ghost use Rattle.usb_session_calls.specs.Reads.{is_until_short, need_of, given_line, polled_given_line, read_on};
ghost use Rattle.usb_session_calls.specs.OpenCalls.{CallKeeps};
ghost use Rattle.usb_session_calls.specs.ReaderCalls.{ReaderAnswers};

use futures::task::Poll;
use usb_desc::{Fail, NoMemory};
use usb_device::Host;
use usb_io::{EndpointRead, ReadFault};
use usb_script_lines::{Framing, ReadLength};
use usb_session_streams::{bars_need, read_need, write_read, write_read_fault};
use usb_session_text::{write_condition, write_pending};
use usb_xfer::Any;

/// Whether a call stops at a short packet.
fn is_until_short(framing: Framing) -> bool
    ensures value { result ≡ is_until_short framing }
{
    match framing {
        Framing::Plain => false,
        Framing::UntilShort => true,
    }
}

/// Whether a call on a reader is barred: the submissions that it may need are.
pub fn bars_read(host: &Host, framing: Framing, reader: &EndpointRead<Any>) -> bool
    ensures barred { result ≡ bars_need host.now.kernel.past
        (length reader.now.endpoint.pending) (need_of framing reader.now) }
{
    let need = read_need(reader, is_until_short(framing));
    bars_need(host, reader.pending(), need)
}

/// Reads as many bytes as fit, up to the end of a message.
fn read_message(
    reader: &mut EndpointRead<Any>,
    host: &mut Host,
    dest: &mut [u8],
) -> Result<usize, Fail<ReadFault>>
    requires stands { Stands (bus_of host.old) reader.old.endpoint }
    ensures few { IfOk result (λ n. n ≤ length dest.old) }
    ensures read { IfOk result
        (λ n. read_came host_calls true reader.old.timeout (length dest.old)
        (reading host.old reader.old)
        ≡ answered (Ok (take n dest.new)) (reading host.new reader.new)) }
    ensures failed { IfErr result
        (ReadFails host_calls true reader.old.timeout (length dest.old)
        (reading host.old reader.old) (reading host.new reader.new)) }
    ensures goes { ReadsAlong (bus_of host.old) (bus_of host.new) reader.old.endpoint
        reader.new.endpoint }
{
    reader.until_short_packet().read(host, dest)
}

/// Reads as many bytes as fit, by the call of this framing.
fn read_bytes(
    reader: &mut EndpointRead<Any>,
    host: &mut Host,
    framing: Framing,
    dest: &mut [u8],
) -> Result<usize, Fail<ReadFault>>
    requires stands { Stands (bus_of host.old) reader.old.endpoint }
    ensures few { IfOk result (λ n. n ≤ length dest.old) }
    ensures read { IfOk result
        (λ n. read_came host_calls (is_until_short framing) reader.old.timeout
        (length dest.old) (reading host.old reader.old)
        ≡ answered (Ok (take n dest.new)) (reading host.new reader.new)) }
    ensures failed { IfErr result
        (ReadFails host_calls (is_until_short framing) reader.old.timeout
        (length dest.old) (reading host.old reader.old)
        (reading host.new reader.new)) }
    ensures goes_on { ReaderGoesOn (reading host.old reader.old) (reading host.new reader.new) }
    ensures goes { ReadsAlong (bus_of host.old) (bus_of host.new) reader.old.endpoint
        reader.new.endpoint }
{
    match framing {
        Framing::Plain => reader.read(host, dest),
        Framing::UntilShort => read_message(reader, host, dest),
    }
}

/// Reads from a reader that is open.
pub(crate) fn read_open(
    reader: &mut EndpointRead<Any>,
    host: &mut Host,
    line: &mut String,
    framing: Framing,
    most: ReadLength,
) -> Result<(), NoMemory>
    requires stands { Stands (bus_of host.old) reader.old.endpoint }
    ensures keeps { CallKeeps host.old host.new reader.old.endpoint
        reader.new.endpoint }
    ensures answered { ReaderAnswers host.old host.new reader.old
        reader.new line.old line.new result
        (λ state r at. read_on state framing r most at.state.timeout
        (given_line read_line) at) }
{
    if bars_read(host, framing, reader) {
        return write_condition(line);
    }
    let alloc = *line.allocator();
    let mut bytes = vec![in alloc; 0; most.bytes() as usize]?;
    match read_bytes(reader, host, framing, &mut bytes) {
        Ok(count) => write_read(line, &bytes[..count]),
        Err(Fail::Cause(fault)) => write_read_fault(alloc, line, fault),
        Err(Fail::Memory) => Err(NoMemory),
    }
}

/// Reads as many bytes as fit, by the call of this framing that does not wait.
fn poll_bytes(
    reader: &mut EndpointRead<Any>,
    host: &mut Host,
    framing: Framing,
    dest: &mut [u8],
) -> Poll<Result<usize, Fail<ReadFault>>>
    requires stands { Stands (bus_of host.old) reader.old.endpoint }
    ensures few { IfOk (as_wait ReadFault.TimedOut result) (λ n. n ≤ length dest.old) }
    ensures read { IfOk (as_wait ReadFault.TimedOut result)
        (λ n. read_came host_calls (is_until_short framing) 0 (length dest.old)
        (reading host.old reader.old)
        ≡ answered (Ok (take n dest.new)) (reading host.new reader.new)) }
    ensures failed { IfErr (as_wait ReadFault.TimedOut result)
        (ReadFails host_calls (is_until_short framing) 0 (length dest.old)
        (reading host.old reader.old) (reading host.new reader.new)) }
    ensures in_time { InTime ReadFault.TimedOut result }
    ensures goes_on { ReaderGoesOn (reading host.old reader.old) (reading host.new reader.new) }
    ensures goes { ReadsAlong (bus_of host.old) (bus_of host.new) reader.old.endpoint
        reader.new.endpoint }
{
    match framing {
        Framing::Plain => reader.poll_read(host, dest),
        Framing::UntilShort => reader.until_short_packet().poll_read(host, dest),
    }
}

/// Reads from a reader that is open, with no wait.
pub(crate) fn poll_read_open(
    reader: &mut EndpointRead<Any>,
    host: &mut Host,
    line: &mut String,
    framing: Framing,
    most: ReadLength,
) -> Result<(), NoMemory>
    requires stands { Stands (bus_of host.old) reader.old.endpoint }
    ensures keeps { CallKeeps host.old host.new reader.old.endpoint
        reader.new.endpoint }
    ensures answered { ReaderAnswers host.old host.new reader.old
        reader.new line.old line.new result
        (λ state r at. read_on state framing r most 0 (polled_given_line read_line) at) }
{
    if bars_read(host, framing, reader) {
        return write_condition(line);
    }
    let alloc = *line.allocator();
    let mut bytes = vec![in alloc; 0; most.bytes() as usize]?;
    match poll_bytes(reader, host, framing, &mut bytes) {
        Poll::Ready(Ok(count)) => write_read(line, &bytes[..count]),
        Poll::Ready(Err(Fail::Cause(fault))) => write_read_fault(alloc, line, fault),
        Poll::Ready(Err(Fail::Memory)) => Err(NoMemory),
        Poll::Pending => write_pending(line),
    }
}
