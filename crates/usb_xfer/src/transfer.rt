//! A transfer on its way: with nothing yet, filled with a buffer, or complete.

ghost use Rattle.std.specs.Prelude.{◌≡◌, ◌<◌, ◌^◌, length, IfOk};
ghost use Rattle.usb_xfer.specs.Transfers.{IsFilled, IsRequest, IsComplete, empty_transfer, request_in, request_out, outcome_of, status_in, bytes_in};

use crate::buffer::Buffer;
use crate::error::TransferError;
use std::alloc::Global;
use std::mem;
use usb_desc::{ControlIn, ControlOut, NoMemory, TransferType};

/// A transfer that ended. Bytes may have gone over also where it failed.
#[derive(Debug, Drop)]
pub struct Completion {
    /// The bytes that were sent, or those that came.
    pub buffer: Buffer,
    /// How many bytes went over.
    pub actual_len: usize,
    /// Why it failed, if it did.
    pub status: Result<(), TransferError>,
}

impl Completion {
    /// The buffer where the transfer went well, else the error alone.
    pub fn into_result(self) -> Result<Buffer, TransferError>
        ensures outcome { result ≡ outcome_of self }
    {
        match self.status {
            Ok(()) => Ok(self.buffer),
            Err(error) => Err(error),
        }
    }

    /// The same once more, with a buffer of its own.
    pub fn clone(&self) -> Result<Completion, NoMemory>
        ensures same { IfOk result (λ copy. copy ≡ self.now) }
    {
        let buffer = self.buffer.clone()?;
        Ok(Completion {
            buffer,
            actual_len: self.actual_len,
            status: self.status,
        })
    }
}

/// What a transfer holds.
#[derive(Debug, Drop)]
pub enum Held {
    Nothing,
    /// A buffer to be submitted.
    Filled(Buffer),
    /// A control transfer to be submitted: its setup packet (USB 2.0, section 9.3), and the buffer
    /// that its data come to or stand in.
    Request([u8; 8], Buffer),
    /// What became of the buffer that was submitted.
    Complete(Completion),
}

impl Held {
    /// The same once more, with a buffer of its own.
    pub fn clone(&self) -> Result<Held, NoMemory>
        ensures same { IfOk result (λ copy. copy ≡ self.now) }
    {
        match self {
            Held::Nothing => Ok(Held::Nothing),
            Held::Filled(buffer) => Ok(Held::Filled(buffer.clone()?)),
            Held::Request(setup, buffer) => Ok(Held::Request(*setup, buffer.clone()?)),
            Held::Complete(completion) => Ok(Held::Complete(completion.clone()?)),
        }
    }
}

/// A transfer of an endpoint.
#[derive(Drop)]
pub struct TransferData {
    /// The address of the endpoint: USB 2.0, table 9-13, `bEndpointAddress`.
    pub endpoint: u8,
    /// The transfer type of the endpoint.
    pub kind: TransferType,
    pub held: Held,
}

impl TransferData {
    /// A transfer that holds nothing.
    pub fn new(endpoint: u8, kind: TransferType) -> Self
        ensures empty { result ≡ empty_transfer endpoint kind }
    {
        TransferData {
            endpoint,
            kind,
            held: Held::Nothing,
        }
    }

    /// A control transfer on endpoint 0 (USB 2.0, section 9.3) whose data come from the device, with
    /// an empty buffer.
    pub fn new_control_in(alloc: Global, setup: ControlIn) -> Result<Self, NoMemory>
        ensures request { IfOk result (λ t. t ≡ request_in setup) }
    {
        let buffer = Buffer::new(alloc, usize::from(setup.length))?;
        Ok(TransferData {
            endpoint: 0x80,
            kind: TransferType::Control,
            held: Held::Request(setup.setup_packet(), buffer),
        })
    }

    /// One that sends data, of which there are at most 65535 bytes. They are copied.
    pub fn new_control_out(alloc: Global, setup: ControlOut<'_>) -> Result<Self, NoMemory>
        requires short { length setup.bytes.now < 2 ^ 16 }
        ensures request { IfOk result (λ t. t ≡ request_out setup.entry) }
    {
        let buffer = Buffer::from_slice(alloc, setup.bytes)?;
        Ok(TransferData {
            endpoint: 0x00,
            kind: TransferType::Control,
            held: Held::Request(setup.setup_packet(), buffer),
        })
    }

    /// The same once more, with a buffer of its own.
    pub fn clone(&self) -> Result<TransferData, NoMemory>
        ensures same { IfOk result (λ copy. copy ≡ self.now) }
    {
        let held = self.held.clone()?;
        Ok(TransferData {
            endpoint: self.endpoint,
            kind: self.kind,
            held,
        })
    }

    /// Fills the transfer with a buffer. It must hold none.
    pub fn set_buffer(&mut self, b: Buffer)
        requires none { self.old.held ≡ Held.Nothing }
        ensures filled { self.new ≡ record self.old { held = Held.Filled b } }
    {
        self.held = Held::Filled(b);
    }

    /// Takes the buffer that is to be submitted.
    pub fn take_buffer(&mut self) -> Buffer
        requires filled { IsFilled self.old }
        ensures value { self.old.held ≡ Held.Filled result }
        ensures rest { self.new ≡ record self.old { held = Held.Nothing } }
    {
        match mem::replace(&mut self.held, Held::Nothing) {
            Held::Filled(buffer) => buffer,
            _ => unreachable!(),
        }
    }

    /// Takes the setup packet and the buffer of a control transfer that is to be submitted.
    pub fn take_request(&mut self) -> ([u8; 8], Buffer)
        requires request { IsRequest self.old }
        ensures value { self.old.held ≡ Held.Request result.0 result.1 }
        ensures rest { self.new ≡ record self.old { held = Held.Nothing } }
    {
        match mem::replace(&mut self.held, Held::Nothing) {
            Held::Request(setup, buffer) => (setup, buffer),
            _ => unreachable!(),
        }
    }

    /// Completes the transfer, whose buffer was taken.
    pub fn set_completion(&mut self, c: Completion)
        requires none { self.old.held ≡ Held.Nothing }
        ensures complete { self.new ≡ record self.old { held = Held.Complete c } }
    {
        self.held = Held::Complete(c);
    }

    /// Takes what became of the transfer. It must be complete.
    pub fn take_completion(&mut self) -> Completion
        requires complete { IsComplete self.old }
        ensures value { self.old.held ≡ Held.Complete result }
        ensures rest { self.new ≡ record self.old { held = Held.Nothing } }
    {
        match mem::replace(&mut self.held, Held::Nothing) {
            Held::Complete(completion) => completion,
            _ => unreachable!(),
        }
    }

    /// The status of a complete transfer. Nothing failed so far where it is not complete.
    pub fn status(&self) -> Result<(), TransferError>
        ensures status { result ≡ status_in self.now }
    {
        match &self.held {
            Held::Complete(completion) => completion.status,
            _ => Ok(()),
        }
    }

    /// The bytes of the buffer that the transfer holds, complete or not. None where it holds none.
    pub fn control_in_data(&self) -> &[u8]
        ensures bytes { result.now ≡ bytes_in self.now }
    {
        match &self.held {
            Held::Nothing => &[],
            Held::Filled(buffer) | Held::Request(_, buffer) => buffer.as_slice(),
            Held::Complete(completion) => completion.buffer.as_slice(),
        }
    }
}
