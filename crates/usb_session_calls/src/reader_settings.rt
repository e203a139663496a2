//! `num`, `timeout` and `cancel` of a reader, and what it does without the host: `consume`,
//! `sconsume`, `isend` and `endmsg`.

ghost use Rattle.std.specs.Prelude.{◌≡◌, ◌≤◌, ◌-◌, ◌||◌, true, false, nat_lt, length, OnOk, OnErr};
ghost use Rattle.usb_device_endpoint.specs.Handles.{Stands};
ghost use Rattle.usb_device_host.specs.HostState.{HostState};
ghost use Rattle.usb_device_host.specs.HostBus.{bus_of};
ghost use Rattle.usb_device_host.specs.HostCalls.{host_calls};
ghost use Rattle.usb_io.specs.Along.{ReadsAlong};
ghost use Rattle.usb_io.specs.Readers.{with_read, without_end, is_end};
ghost use Rattle.usb_io.specs.Reads.{reading, filled_to, FilledShort};
ghost use Rattle.usb_session_streams.specs.Reads.{is_end_line};
ghost use Rattle.usb_session_streams.specs.Needs.{bars_need};
ghost use Rattle.usb_session_calls.specs.Readers.{num_on, timeout_on, cancel_reader_on};
ghost use Rattle.usb_session_calls.specs.Reads.{consume_on, consume_end_on};
ghost use Rattle.usb_session_calls.specs.Answer.{answer_with};
ghost use Rattle.usb_session_calls.specs.OpenCalls.{CallKeeps};
ghost use Rattle.usb_session_calls.specs.ReaderCalls.{ReaderAnswers};

use usb_desc::NoMemory;
use usb_device::Host;
use usb_io::{EndpointRead, ExpectedShortPacket};
use usb_script_lines::{Framing, Length, Timeout};
use usb_session_streams::{MOST_PENDING, bars_need, write_consumed_end, write_is_end};
use usb_session_text::{write_condition, write_ok};
use usb_xfer::Any;

/// Whether a number of transfers can't be set: it is too large, or the submissions that are missing
/// of one less are barred.
fn bars_count(host: &Host, reader: &EndpointRead<Any>, count: u32) -> bool
    ensures barred { result ≡ (nat_lt 64 count || bars_need host.now.kernel.past
        (length reader.now.endpoint.pending)
        (count - 1 - length reader.now.endpoint.pending)) }
{
    let count = count as usize;
    let pending = reader.pending();
    let need = count.saturating_sub(1).saturating_sub(pending);
    count > MOST_PENDING || bars_need(host, pending, need)
}

/// Sets a number of transfers, and submits until one less is pending.
fn set_count(reader: &mut EndpointRead<Any>, host: &mut Host, count: u32) -> Result<(), NoMemory>
    requires few { count ≤ 64 }
    requires stands { Stands (bus_of host.old) reader.old.endpoint }
    ensures ok { OnOk result
        (reading host.new reader.new
        ≡ filled_to host_calls
        (count - 1) (reading host.old (record reader.old { n = count }))) }
    ensures err { OnErr result
        (FilledShort host_calls (count - 1)
        (reading host.old (record reader.old { n = count })) (reading host.new reader.new)) }
    ensures goes { ReadsAlong (bus_of host.old) (bus_of host.new) reader.old.endpoint
        reader.new.endpoint }
{
    reader.set_num_transfers(host, count as usize)
}

/// Sets how many transfers of a reader that is open are to be pending.
pub(crate) fn num_open(
    reader: &mut EndpointRead<Any>,
    host: &mut Host,
    line: &mut String,
    count: u32,
) -> Result<(), NoMemory>
    requires stands { Stands (bus_of host.old) reader.old.endpoint }
    ensures keeps { CallKeeps host.old host.new reader.old.endpoint
        reader.new.endpoint }
    ensures answered { ReaderAnswers host.old host.new reader.old
        reader.new line.old line.new result
        (λ state r at. num_on state r count at) }
{
    if bars_count(host, reader, count) {
        return write_condition(line);
    }
    set_count(reader, host, count)?;
    write_ok(line)
}

/// Sets the timeout of the waits of a reader that is open.
pub(crate) fn timeout_open(
    reader: &mut EndpointRead<Any>,
    line: &mut String,
    timeout: Timeout,
) -> Result<(), NoMemory>
    ensures endpoint { reader.new.endpoint ≡ reader.old.endpoint }
    ensures answered { (host : HostState) → ReaderAnswers host host reader.old
        reader.new line.old line.new result
        (λ state r at. timeout_on state r timeout) }
{
    reader.set_read_timeout(timeout.nanoseconds());
    write_ok(line)
}

/// Discards the pending transfers of a reader that is open, which keeps none pending from then on.
pub(crate) fn cancel_reader_open(
    reader: &mut EndpointRead<Any>,
    host: &mut Host,
    line: &mut String,
) -> Result<(), NoMemory>
    requires stands { Stands (bus_of host.old) reader.old.endpoint }
    ensures keeps { CallKeeps host.old host.new reader.old.endpoint
        reader.new.endpoint }
    ensures answered { ReaderAnswers host.old host.new reader.old
        reader.new line.old line.new result
        (λ state r at. cancel_reader_on state r at) }
{
    reader.cancel_all(host);
    write_ok(line)
}

/// Takes bytes off, by the call of this framing.
fn take_off(reader: &mut EndpointRead<Any>, framing: Framing, count: usize)
    requires within { count ≤ length reader.old.unread }
    ensures read { reader.new ≡ with_read count reader.old }
{
    match framing {
        Framing::Plain => reader.consume(count),
        Framing::UntilShort => reader.until_short_packet().consume(count),
    }
}

/// Takes bytes off a reader that is open, of those that stand.
pub(crate) fn consume_open(
    reader: &mut EndpointRead<Any>,
    line: &mut String,
    framing: Framing,
    count: Length,
) -> Result<(), NoMemory>
    ensures endpoint { reader.new.endpoint ≡ reader.old.endpoint }
    ensures answered { (host : HostState) → ReaderAnswers host host reader.old
        reader.new line.old line.new result
        (λ state r at. consume_on state framing r count at) }
{
    let count = count.bytes() as usize;
    if count > reader.available() {
        return write_condition(line);
    }
    take_off(reader, framing, count);
    write_ok(line)
}

/// Takes the end off, where it is next.
fn take_end_off(reader: &mut EndpointRead<Any>) -> Result<(), ExpectedShortPacket>
    ensures ok { OnOk result
        ((is_end reader.old ≡ true) × (reader.new ≡ without_end reader.old)) }
    ensures err { OnErr result ((is_end reader.old ≡ false) × (reader.new ≡ reader.old)) }
{
    reader.until_short_packet().consume_end()
}

/// Takes the end off a reader that is open, where it is next.
pub(crate) fn consume_end_open(
    reader: &mut EndpointRead<Any>,
    line: &mut String,
) -> Result<(), NoMemory>
    ensures endpoint { reader.new.endpoint ≡ reader.old.endpoint }
    ensures answered { (host : HostState) → ReaderAnswers host host reader.old
        reader.new line.old line.new result
        (λ state r at. consume_end_on state r at) }
{
    let answer = take_end_off(reader);
    write_consumed_end(line, &answer)
}

/// Whether no byte stands in a reader and an end does.
fn is_at_end(reader: &EndpointRead<Any>) -> bool
    ensures end { result ≡ is_end reader.now }
{
    reader.available() == 0 && reader.has_end()
}

/// Says whether the end of a message is next in a reader that is open.
pub(crate) fn is_end_open(reader: &EndpointRead<Any>, line: &mut String) -> Result<(), NoMemory>
    ensures answered { (host : HostState) → ReaderAnswers host host reader.now
        reader.now line.old line.new result
        (λ state r at. answer_with state (is_end_line (is_end at.state))) }
{
    write_is_end(line, is_at_end(reader))
}
