//! Laws of calls on a reader at a host. Each is the contract of a function that does nothing.

ghost use Rattle.usb_session_streams.specs.Framed.{FramedCallsFollow, EmptyCallsLeaveEnd};
ghost use Rattle.usb_session_streams.specs.Handed.{CallsHandOver};
ghost use Rattle.usb_session_streams.specs.ReaderCalls.{ReaderCallsGoOn};

/// A call on a reader takes steps of the host's line from its front alone, and keeps what is open.
pub fn reader_calls_go_on()
    ensures law { ReaderCallsGoOn }
{}

/// A framed reader (one that ends at each short packet) that followed its stream does so behind a
/// call until a short packet, with the bytes consumed that the call handed over. A call that asks
/// for a byte and gives none leaves an end that stands.
pub fn framed_calls_follow()
    ensures law { FramedCallsFollow }
    ensures empty { EmptyCallsLeaveEnd }
{}

/// Of each transfer that a call on a reader takes, the bytes of its completion come in order behind
/// those that were unread: no byte of it is skipped, and none is handed over twice.
pub fn calls_hand_over()
    ensures law { CallsHandOver }
{}
