//! Faults of input and output.

ghost use Rattle.std.specs.Prelude.{◌≡◌, IfOk};

use crate::active::ActiveConfigurationError;
use crate::descriptor_error::GetDescriptorError;
use crate::error::Error;
use crate::io_kind::IoKind;
use std::alloc::Global;
use std::fmt;
use std::marker::Model;
use usb_desc::NoMemory;
use usb_xfer::TransferError;

/// Why input or output failed, in the place of a `std::io::Error`: its kind, and its text.
#[derive(Debug, Drop)]
pub struct IoFault {
    /// What it is about.
    pub kind: IoKind,
    /// What it prints: the text of the error that it comes from.
    pub text: String,
}

impl Model for IoFault {
    ghost use Rattle.std.specs.Prelude.{string_bytes};
    ghost use Rattle.usb_error.specs.FaultState.{FaultState};

    ghost Value = { FaultState };

    ghost view = { λ f. record { kind = f.kind; text = string_bytes f.text } };
}

impl IoFault {
    ghost use Rattle.usb_error.specs.Faults.{transfer_fault, error_fault, active_fault, descriptor_fault};

    /// The fault of a transfer that failed.
    pub fn from_transfer(alloc: Global, error: TransferError) -> Result<IoFault, NoMemory>
        ensures fault { IfOk result (λ fault. fault ≡ transfer_fault error) }
    {
        let text = error.to_string(alloc)?;
        let kind = IoKind::of_transfer(error);
        Ok(IoFault { kind, text })
    }

    /// The fault of a call that failed.
    pub fn from_error(alloc: Global, error: Error) -> Result<IoFault, NoMemory>
        ensures fault { IfOk result (λ fault. fault ≡ error_fault error) }
    {
        let text = error.to_string(alloc)?;
        let kind = IoKind::of_kind(error.kind());
        Ok(IoFault { kind, text })
    }

    /// The fault of an active configuration that has no descriptor.
    pub fn from_active(alloc: Global, error: ActiveConfigurationError) -> Result<IoFault, NoMemory>
        ensures fault { IfOk result (λ fault. fault ≡ active_fault error) }
    {
        let text = error.to_string(alloc)?;
        let kind = IoKind::Other;
        Ok(IoFault { kind, text })
    }

    /// The fault of a descriptor that was not read.
    pub fn from_descriptor(alloc: Global, error: GetDescriptorError) -> Result<IoFault, NoMemory>
        ensures fault { IfOk result (λ fault. fault ≡ descriptor_fault error) }
    {
        let text = error.to_string(alloc)?;
        let kind = IoKind::of_descriptor(error);
        Ok(IoFault { kind, text })
    }

    /// The same once more, with a text of its own.
    pub fn clone(&self) -> Result<IoFault, NoMemory>
        ensures same { IfOk result (λ copy. copy ≡ self.now) }
    {
        let text = self.text.clone()?;
        Ok(IoFault {
            kind: self.kind,
            text,
        })
    }
}

impl fmt::Display for IoFault {
    ghost use Rattle.std.specs.Prelude.{Some};

    ghost output = { λ f. Some f.text };

    fn fmt<W: fmt::Write>(&self, f: &mut fmt::Formatter<W>) -> fmt::Result {
        f.write_str(self.text.as_str())
    }
}

impl std::error::Error for IoFault {}
