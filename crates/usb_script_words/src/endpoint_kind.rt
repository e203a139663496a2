//! The kinds of endpoints that a script opens.

ghost use Rattle.std.specs.Prelude.{◌≡◌};
ghost use Rattle.usb_script_words.specs.EndpointKinds.{transfer_type_of, direction_of};
ghost use Rattle.usb_script_words.specs.Outcome.{Gives};
ghost use Rattle.usb_script_words.specs.Words.{kind_of};

use crate::line_error::LineError;
use crate::words::reads;
use usb_desc::{Direction, TransferType};

/// The transfer type and the direction of an endpoint that a script opens.
#[derive(Clone, Copy, Debug, PartialEq, Eq)]
pub enum EndpointKind {
    BulkIn,
    BulkOut,
    InterruptIn,
    InterruptOut,
}

impl EndpointKind {
    /// The type of its transfers.
    pub fn transfer_type(self) -> TransferType
        ensures value { result ≡ transfer_type_of self }
    {
        match self {
            EndpointKind::BulkIn | EndpointKind::BulkOut => TransferType::Bulk,
            EndpointKind::InterruptIn | EndpointKind::InterruptOut => TransferType::Interrupt,
        }
    }

    /// The direction of its transfers.
    pub fn direction(self) -> Direction
        ensures value { result ≡ direction_of self }
    {
        match self {
            EndpointKind::BulkIn | EndpointKind::InterruptIn => Direction::In,
            EndpointKind::BulkOut | EndpointKind::InterruptOut => Direction::Out,
        }
    }

    /// The kind that a word spells: `bulk-in`, `bulk-out`, `int-in` or `int-out`.
    #[tactic(auto, unfolding(crate::specs::Words::kind_of))]
    pub fn parse(word: &[u8]) -> Result<EndpointKind, LineError>
        ensures value { Gives (λ kind. kind) result (kind_of word.now) }
    {
        if reads(word, b"bulk-in") {
            Ok(EndpointKind::BulkIn)
        } else if reads(word, b"bulk-out") {
            Ok(EndpointKind::BulkOut)
        } else if reads(word, b"int-in") {
            Ok(EndpointKind::InterruptIn)
        } else if reads(word, b"int-out") {
            Ok(EndpointKind::InterruptOut)
        } else {
            Err(LineError::Malformed)
        }
    }
}
