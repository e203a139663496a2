//! What a status says of its command.

ghost use Rattle.std.specs.Prelude.{◌≡◌};
ghost use Rattle.usb_bot.specs.Statuses.{status_error, error_by};

use crate::error::BotError;
use crate::wrapper::{Command, Status};

impl Command {
    /// The error that a status is to this command, of whose data so many bytes moved.
    fn error_by(self, moved: u32, status: Status) -> Option<BotError>
        ensures error { result ≡ error_by self moved status }
    {
        if status.tag != self.tag || status.outcome > 2 {
            return Some(BotError::BadStatus);
        }
        let residue = status.residue;
        if status.outcome == 1 {
            return Some(BotError::Failed { residue });
        }
        if status.outcome == 2 {
            return Some(BotError::Phase);
        }
        if moved == self.data_length() && residue == 0 {
            None
        } else {
            Some(BotError::Length {
                got: moved,
                residue,
            })
        }
    }

    /// The error that the bytes of a status are to this command.
    pub(crate) fn status_error(self, moved: u32, bytes: &[u8]) -> Option<BotError>
        ensures error { result ≡ status_error self moved bytes.now }
    {
        match Status::from_bytes(bytes) {
            Some(status) => self.error_by(moved, status),
            None => Some(BotError::BadStatus),
        }
    }
}
