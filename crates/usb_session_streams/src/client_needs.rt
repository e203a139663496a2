//! When a call on a client of messages is barred.

ghost use Rattle.std.specs.Prelude.{◌≡◌};
ghost use Rattle.usb_msg.specs.Requests.{messaging};
ghost use Rattle.usb_session_streams.specs.ClientNeeds.{bars_body, bars_request, bars_response};

use crate::needs::bars_need;
use crate::read_needs::read_need;
use usb_device::Host;
use usb_msg::MsgClient;
use usb_xfer::Any;

/// The most bytes that the body of a message has.
const LONGEST_BODY: usize = 4096;

/// How many responses may be to come.
const MOST_OUTSTANDING: usize = 16;

/// Whether a body can't be asked now: it is too long, too many responses are to come, or no tag is
/// left.
fn bars_body(client: &MsgClient<Any, Any>, body: &[u8]) -> bool
    ensures barred { result ≡ bars_body body.now client.now }
{
    body.len() > LONGEST_BODY
        || client.outstanding() >= MOST_OUTSTANDING
        || client.requests() == u32::MAX
}

/// Whether a request with this body is barred.
pub(crate) fn bars_request(host: &Host, client: &MsgClient<Any, Any>, body: &[u8]) -> bool
    ensures barred { result ≡ bars_request body.now (messaging host.now client.now) }
{
    bars_body(client, body) || bars_need(host, client.writer().pending(), client.request_need(body))
}

/// Whether a response is barred.
pub(crate) fn bars_response(host: &Host, client: &MsgClient<Any, Any>) -> bool
    ensures barred { result ≡ bars_response (messaging host.now client.now) }
{
    let reader = client.reader();
    client.outstanding() == 0 || bars_need(host, reader.pending(), read_need(reader, true))
}
