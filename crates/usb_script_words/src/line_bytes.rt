//! The bytes of a line.

ghost use Rattle.std.specs.Prelude.{◌≡◌, ◌≤◌, length, IfOk};
ghost use Rattle.usb_script_words.specs.Controls.{control_bytes_of};
ghost use Rattle.usb_script_words.specs.Words.{at_most_bytes, bytes_of};
ghost use Rattle.usb_script_words.specs.Outcome.{Gives};

use crate::line_error::LineError;
use crate::words::reads;
use std::alloc::Global;
use std::marker::Model;
use usb_desc::NoMemory;
use usb_kernel::Bytes;

/// The most bytes that one word gives.
const MAX_BYTES: usize = 65536;

/// The most bytes of a data stage. USB 2.0, table 9-2, `wLength`.
const MAX_CONTROL_BYTES: usize = 65535;

/// The bytes of a transfer, or the descriptors of a device: at most 65536 bytes. A contract sees
/// the list of them.
#[derive(Clone, Drop)]
pub struct Data {
    bytes: Bytes,
}

impl Model for Data {
    ghost use Rattle.std.specs.Prelude.{ℕ, ◌≤◌, List, length};

    ghost Value = { List ℕ };

    ghost view = { λ held. held.bytes };

    ghost invariant = { λ held. length held.bytes ≤ 65536 };
}

impl Data {
    /// The same bytes once more.
    pub fn clone(&self) -> Result<Data, NoMemory>
        ensures same { IfOk result (λ copy. copy ≡ self.now) }
    {
        Ok(Clone::clone(self)?)
    }

    /// Takes the bytes over, where there are at most 65536.
    pub fn from_vec(bytes: Vec<u8>) -> Option<Data>
        ensures value { result ≡ at_most_bytes 65536 bytes.items }
    {
        if bytes.len() > MAX_BYTES {
            return None;
        }
        Some(Data {
            bytes: Bytes::from_vec(bytes),
        })
    }

    /// The bytes.
    pub fn as_slice(&self) -> &[u8]
        ensures value { result.now ≡ self.now }
        ensures few { length result.now ≤ 65536 }
    {
        self.bytes.as_slice()
    }

    /// The bytes, given back.
    pub fn into_bytes(self) -> Bytes
        ensures value { result ≡ self }
        ensures few { length result ≤ 65536 }
    {
        self.bytes
    }

    /// The bytes of a word of hexadecimal digits, or of a dash.
    #[tactic(auto, unfolding(crate::specs::Words::bytes_of))]
    pub fn parse(alloc: Global, word: &[u8]) -> Result<Data, LineError>
        ensures value { Gives (λ held. held) result (bytes_of word.now) }
    {
        if reads(word, b"-") {
            return Ok(Data {
                bytes: Bytes::from_vec(Vec::new(alloc)),
            });
        }
        match hex::decode(alloc, word) {
            Ok(bytes) => Data::from_vec(bytes).ok_or(LineError::Malformed),
            Err(hex::FromHexError::OutOfMemory) => Err(LineError::Memory),
            Err(_) => Err(LineError::Malformed),
        }
    }
}

/// The bytes of a control transfer's data stage: at most 65535 bytes. A contract sees the list of
/// them.
#[derive(Clone, Drop)]
pub struct ControlData {
    bytes: Bytes,
}

impl Model for ControlData {
    ghost use Rattle.std.specs.Prelude.{ℕ, ◌≤◌, List, length};

    ghost Value = { List ℕ };

    ghost view = { λ held. held.bytes };

    ghost invariant = { λ held. length held.bytes ≤ 65535 };
}

impl ControlData {
    /// The same bytes once more.
    pub fn clone(&self) -> Result<ControlData, NoMemory>
        ensures same { IfOk result (λ copy. copy ≡ self.now) }
    {
        Ok(Clone::clone(self)?)
    }

    /// The bytes.
    pub fn as_slice(&self) -> &[u8]
        ensures value { result.now ≡ self.now }
        ensures few { length result.now ≤ 65535 }
    {
        self.bytes.as_slice()
    }

    /// The bytes of a word of hexadecimal digits, or of a dash.
    #[tactic(auto, unfolding(crate::specs::Controls::control_bytes_of))]
    pub fn parse(alloc: Global, word: &[u8]) -> Result<ControlData, LineError>
        ensures value { Gives (λ held. held) result (control_bytes_of word.now) }
    {
        let bytes = Data::parse(alloc, word)?.into_bytes();
        if bytes.as_slice().len() > MAX_CONTROL_BYTES {
            return Err(LineError::Malformed);
        }
        Ok(ControlData { bytes })
    }
}
