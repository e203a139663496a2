//! What commands at a disk come to, counted.

ghost use Rattle.std.specs.Prelude.{◌≡◌, ◌+◌, ◌*◌, ◌<◌, ◌^◌, ◌≤◌, length, IfErr, IfSome};
ghost use Rattle.std.specs.Option.{option_map};
ghost use Rattle.std.specs.List.{sum};
ghost use Rattle.usb_bot_rounds.specs.Runs.{IsRefusal, Passes, written_answer, read_answer, counted};

use usb_bot::BotError;
use usb_desc::NoMemory;

/// How many commands passed and failed, and the sum of all bytes that were read.
#[derive(Clone, Copy, Debug, PartialEq, Eq, Drop)]
pub struct Tally {
    pub writes: u32,
    pub reads: u32,
    pub failed: u32,
    pub sum: u64,
}

/// The sum of bytes.
fn sum_of(bytes: &[u8]) -> u64
    requires few { length bytes.now ≤ 32768 }
    ensures sum { result ≡ sum bytes.now }
    ensures small { result ≤ 255 * length bytes.now }
{
    bytes.iter().map(|byte| u64::from(*byte)).sum()
}

/// What a command at a disk passed with, or nothing, where it failed.
pub(crate) fn passed<T: Drop>(answer: Result<T, BotError>) -> Result<Option<T>, NoMemory>
    requires known { IfErr answer IsRefusal }
    ensures passes { Passes answer result }
{
    match answer {
        Ok(done) => Ok(Some(done)),
        Err(BotError::Failed { residue: _ }) => Ok(None),
        Err(BotError::Memory) => Err(NoMemory),
        Err(_) => unreachable!(),
    }
}

impl Tally {
    /// Of no command.
    pub(crate) fn new() -> Tally
        ensures none { result ≡ record { writes = 0; reads = 0; failed = 0; sum = 0 } }
    {
        Tally {
            writes: 0,
            reads: 0,
            failed: 0,
            sum: 0,
        }
    }

    /// With one more command that failed.
    fn with_failed(self) -> Tally
        requires few { self.failed < 2 ^ 31 }
        ensures counted { result ≡ record self { failed = self.failed + 1 } }
    {
        Tally {
            failed: self.failed + 1,
            ..self
        }
    }

    /// With one more write, which passed or failed.
    pub(crate) fn with_write(self, is_written: bool) -> Tally
        requires few { self.writes + self.failed < 2 ^ 31 }
        ensures counted { result ≡ counted (written_answer is_written) self }
    {
        if !is_written {
            return self.with_failed();
        }
        Tally {
            writes: self.writes + 1,
            ..self
        }
    }

    /// With one more read, which gave these bytes or failed.
    pub(crate) fn with_read(self, read: Option<Vec<u8>>) -> Tally
        requires few { self.reads + self.failed < 2 ^ 31 }
        requires small { self.sum < 2 ^ 63 }
        requires short { IfSome read (λ bytes. length bytes.items ≤ 32768) }
        ensures counted { result
            ≡ counted (read_answer (option_map (λ bytes. bytes.items) read)) self }
        ensures small { result.sum ≤ self.sum + 255 * 32768 }
    {
        let Some(bytes) = read else {
            return self.with_failed();
        };
        Tally {
            reads: self.reads + 1,
            sum: self.sum + sum_of(bytes.as_slice()),
            ..self
        }
    }
}
