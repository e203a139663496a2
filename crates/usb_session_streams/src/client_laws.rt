//! Laws of calls on a client of messages at a host. Each is the contract of a function that does
//! nothing.

ghost use Rattle.usb_session_streams.specs.ClientCalls.{ClientCallsGoOn};
ghost use Rattle.usb_session_streams.specs.ClientTickets.{FreshClientsKeep, LaterClientsKeep, ClientCallsKeep};

/// A request goes on as a call on the client's writer does, and leaves the reader alone; a response
/// goes on as one on the reader does, and leaves the writer.
pub fn client_calls_go_on()
    ensures law { ClientCallsGoOn }
{}

/// What a client's tickets say of its requests and responses: they say it of a new client, whatever
/// comes, and behind each call with the tickets that this took. These are the first of those that
/// were pending and then of each that came to the journal: a call leaves none out.
pub fn client_calls_keep()
    ensures fresh { FreshClientsKeep }
    ensures later { LaterClientsKeep }
    ensures law { ClientCallsKeep }
{}
