//! Laws of echoed messages. Each is the contract of a function that does nothing.

ghost use Rattle.usb_io.specs.MessageLaws.{EchoesComeInOrder, MessagesAreFirst};

/// On two endpoints of a device nothing happens but submissions by a handle on each, with one
/// maximum packet size, reaps, and echoes from the one to the other. Then, where that size is not
/// 0, the packets that came to the IN handle are the first of those into which the OUT handle's
/// transfers are cut.
pub fn echoes_come_in_order()
    ensures law { EchoesComeInOrder }
{}

/// There, whatever that size is, the messages that a framed reader (one that ends at each short
/// packet) of the IN handle read to their ends are the first of those that a writer of the OUT
/// handle ended, where no flush found bytes that were not submitted yet.
pub fn messages_are_first()
    ensures law { MessagesAreFirst }
{}
