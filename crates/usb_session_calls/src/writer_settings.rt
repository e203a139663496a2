//! `num` and `timeout` of a writer.

ghost use Rattle.std.specs.Prelude.{◌≡◌};
ghost use Rattle.usb_device_host.specs.HostState.{HostState};
ghost use Rattle.usb_session_calls.specs.Writers.{transfers_on, write_timeout_on};
ghost use Rattle.usb_session_calls.specs.WriterCalls.{WriterAnswers};

use usb_desc::NoMemory;
use usb_io::EndpointWrite;
use usb_script_lines::Timeout;
use usb_session_streams::bars_transfers;
use usb_session_text::{write_condition, write_ok};
use usb_xfer::Any;

/// Sets how many transfers of a writer that is open are to be pending: one at least.
pub(crate) fn transfers_open(
    writer: &mut EndpointWrite<Any>,
    line: &mut String,
    count: u32,
) -> Result<(), NoMemory>
    ensures endpoint { writer.new.endpoint ≡ writer.old.endpoint }
    ensures answered { (host : HostState) → WriterAnswers host host writer.old
        writer.new line.old line.new result (λ state w at. transfers_on state w count) }
{
    let count = count as usize;
    if bars_transfers(count) {
        return write_condition(line);
    }
    writer.set_num_transfers(count);
    write_ok(line)
}

/// Sets the timeout of the waits of a writer that is open.
pub(crate) fn timeout_open(
    writer: &mut EndpointWrite<Any>,
    line: &mut String,
    timeout: Timeout,
) -> Result<(), NoMemory>
    ensures endpoint { writer.new.endpoint ≡ writer.old.endpoint }
    ensures answered { (host : HostState) → WriterAnswers host host writer.old
        writer.new line.old line.new result (λ state w at. write_timeout_on state w timeout) }
{
    writer.set_write_timeout(timeout.nanoseconds());
    write_ok(line)
}
