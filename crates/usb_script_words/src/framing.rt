//! Whether a call on a reader goes over the ends of messages.

/// Whether a call on a reader goes over the ends of messages, or stops at them.
#[derive(Clone, Copy, Debug, PartialEq, Eq)]
pub enum Framing {
    /// It goes over them: the reader's own call.
    Plain,
    /// It stops at them: the call of the adapter that reads until a short packet.
    UntilShort,
}
