//! Calls on a client of messages.

ghost use Rattle.usb_device_host.specs.HostBus.{bus_of};
ghost use Rattle.usb_msg.specs.Clients.{StandBoth};
ghost use Rattle.usb_session_calls.specs.ClientCalls.{ClientCallKeeps, ClientAnswers};
ghost use Rattle.usb_session_calls.specs.CalledClients.{client_called};

use crate::call::ClientCall;
use usb_desc::NoMemory;
use usb_device::Host;
use usb_msg::MsgClient;
use usb_xfer::Any;

/// Calls a client of messages that is open.
pub fn call_client(
    client: &mut MsgClient<Any, Any>,
    host: &mut Host,
    line: &mut String,
    call: ClientCall,
) -> Result<(), NoMemory>
    requires stand { StandBoth (bus_of host.old) client.old }
    ensures keeps { ClientCallKeeps call host.old host.new client.old client.new }
    ensures answered { ClientAnswers host.old host.new client.old
        client.new line.old line.new result (client_called call) }
{
    match call {
        ClientCall::Request(body) => {
            usb_session_streams::request(client, host, line, body.as_slice())
        }
        ClientCall::Response => usb_session_streams::response(client, host, line),
        ClientCall::Outstanding => usb_session_streams::write_count(line, client),
    }
}
