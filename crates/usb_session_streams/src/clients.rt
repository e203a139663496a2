//! The lines of a client of messages.

ghost use Rattle.std.specs.Prelude.{◌≡◌, ◌++◌, OnOk, OnErr, string_bytes};
ghost use Rattle.usb_device_host.specs.HostBus.{bus_of};
ghost use Rattle.usb_device_host.specs.HostCalls.{host_calls};
ghost use Rattle.usb_io.specs.Writers.{KeepsWriter};
ghost use Rattle.usb_io.specs.Reads.{KeepsSettings};
ghost use Rattle.usb_msg.specs.Clients.{StandBoth};
ghost use Rattle.usb_msg.specs.Requests.{messaging, requested, RequestShort};
ghost use Rattle.usb_msg.specs.Responses.{responded, ResponseShort};
ghost use Rattle.usb_session_streams.specs.ClientLines.{request_line, response_line, outstanding_line};
ghost use Rattle.usb_session_streams.specs.ClientNeeds.{bars_request, bars_response};
ghost use Rattle.usb_session_streams.specs.Clients.{ClientPrints, ClientShort, ClientKeeps};

use crate::client_lines::{write_body, write_message_error, write_tag};
use crate::client_needs::{bars_request, bars_response};
use usb_desc::NoMemory;
use usb_device::Host;
use usb_msg::MsgClient;
use usb_session_text::write_condition;
use usb_xfer::Any;

/// Sends a request with a body: `request T`, which is its tag, or why it was not accepted.
///
/// # Errors
///
/// Want of memory. A barred call changed nothing. Any other lacked it for its line alone; or it
/// accepted nothing, or the frame without its end, which ends the client.
pub fn request(
    client: &mut MsgClient<Any, Any>,
    host: &mut Host,
    line: &mut String,
    body: &[u8],
) -> Result<(), NoMemory>
    requires stand { StandBoth (bus_of host.old) client.old }
    ensures printed { ClientPrints
        (bars_request body.now (messaging host.old client.old))
        request_line
        (requested host_calls body.now (messaging host.old client.old))
        line.old line.new
        (messaging host.old client.old) (messaging host.new client.new) result }
    ensures short { OnErr result
        (ClientShort
        (bars_request body.now (messaging host.old client.old))
        (requested host_calls body.now (messaging host.old client.old)).left
        (RequestShort host_calls body.now)
        (messaging host.old client.old) (messaging host.new client.new)) }
    ensures keeps { ClientKeeps
        (messaging host.old client.old) (messaging host.new client.new)
        client.old.writer.endpoint client.new.writer.endpoint }
    ensures settings { KeepsWriter client.old.writer client.new.writer }
    ensures reader { client.new.reader ≡ client.old.reader }
{
    if bars_request(host, client, body) {
        return write_condition(line);
    }
    match client.request(host, body) {
        Ok(tag) => write_tag(line, tag),
        Err(error) => write_message_error(line, &error),
    }
}

/// Waits for the next response: `response HEX`, which is its body, or why there is none.
///
/// # Errors
///
/// Want of memory. A barred call changed nothing. Any other lacked it for its line alone; or no byte
/// is lost, and no response is counted.
pub fn response(
    client: &mut MsgClient<Any, Any>,
    host: &mut Host,
    line: &mut String,
) -> Result<(), NoMemory>
    requires stand { StandBoth (bus_of host.old) client.old }
    ensures printed { ClientPrints
        (bars_response (messaging host.old client.old))
        response_line
        (responded host_calls (messaging host.old client.old))
        line.old line.new
        (messaging host.old client.old) (messaging host.new client.new) result }
    ensures short { OnErr result
        (ClientShort
        (bars_response (messaging host.old client.old))
        (responded host_calls (messaging host.old client.old)).left
        (ResponseShort host_calls)
        (messaging host.old client.old) (messaging host.new client.new)) }
    ensures keeps { ClientKeeps
        (messaging host.old client.old) (messaging host.new client.new)
        client.old.reader.endpoint client.new.reader.endpoint }
    ensures settings { KeepsSettings client.old.reader client.new.reader }
    ensures writer { client.new.writer ≡ client.old.writer }
{
    if bars_response(host, client) {
        return write_condition(line);
    }
    match client.response(host) {
        Ok(body) => write_body(line, body.as_slice()),
        Err(error) => write_message_error(line, &error),
    }
}

/// Appends how many requests were accepted whose responses are to come: `count N`.
pub fn write_count(line: &mut String, client: &MsgClient<Any, Any>) -> Result<(), NoMemory>
    ensures text { OnOk result
        (string_bytes line.new ≡ string_bytes line.old ++ outstanding_line client.now) }
{
    usb_session_text::write_count(line, client.outstanding())
}
