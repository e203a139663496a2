//! Laws of calls on a writer at a host. Each is the contract of a function that does nothing.

ghost use Rattle.usb_session_streams.specs.Told.{CallsTell};
ghost use Rattle.usb_session_streams.specs.WriterCalls.{WriterCallsGoOn};

/// A call on a writer takes steps of the host's line from its front alone, and keeps what is open.
pub fn writer_calls_go_on()
    ensures law { WriterCallsGoOn }
{}

/// Behind each call on a writer at a host its tickets are those that were pending and those that it
/// submitted, of which it took the first; these failed as the call answered; and the tickets carry
/// the transfers of the writer's accepted calls, this one among them.
pub fn calls_tell()
    ensures law { CallsTell }
{}
