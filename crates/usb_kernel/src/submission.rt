//! Transfers that are handed in, and what the kernel answers of them.

ghost use Rattle.std.specs.Prelude.{◌≡◌, IfOk};
ghost use Rattle.usb_kernel.specs.Submissions.{body_of, submit_event, refuse_event};

use crate::event::{Body, Event};
use std::alloc::Global;
use usb_desc::{NoMemory, TransferType};
use usb_kernel_devices::Bytes;
use usb_xfer::Buffer;

/// A transfer that is handed in. A control transfer uses endpoint 0x00 or 0x80 and has its setup
/// packet (USB 2.0, 9.3).
#[derive(Drop)]
pub struct Submission {
    pub device: u8,
    pub endpoint: u8,
    pub kind: TransferType,
    pub maximum: usize,
    pub deadline: Option<u64>,
    pub setup: Option<[u8; 8]>,
    pub buffer: Buffer,
}

/// A completion. The status is an errno, 0 where all went well; the count is that of the bytes
/// received or acknowledged.
#[derive(Drop)]
pub struct Done {
    pub ticket: u64,
    pub status: u16,
    pub refused: bool,
    pub count: usize,
    pub buffer: Buffer,
}

/// What becomes of a submission: a ticket, or a refused ticket with its completion.
#[derive(Drop)]
pub enum Submitted {
    Queued(u64),
    Refused(Done),
}

/// What is known of a ticket. The status is the errno of a finished ticket.
#[derive(Drop)]
pub struct TicketInfo {
    pub device: u8,
    pub endpoint: u8,
    pub status: Option<u16>,
    pub refused: bool,
    pub reaped: bool,
    pub count: usize,
}

impl Submission {
    /// The same submission once more, with a buffer of its own.
    pub fn clone(&self) -> Result<Submission, NoMemory>
        ensures same { IfOk result (λ copy. copy ≡ self.now) }
    {
        let buffer = self.buffer.clone()?;
        Ok(Submission {
            device: self.device,
            endpoint: self.endpoint,
            kind: self.kind,
            maximum: self.maximum,
            deadline: self.deadline,
            setup: self.setup,
            buffer,
        })
    }

    /// What it sends or wants.
    pub(crate) fn body(&self, alloc: Global) -> Result<Body, NoMemory>
        ensures body { IfOk result (λ b. b ≡ body_of self.now.endpoint self.now.buffer) }
    {
        if self.endpoint < 128 {
            Ok(Body::Sent(Bytes::from_slice(alloc, self.buffer.as_slice())?))
        } else {
            Ok(Body::Wanted(self.buffer.requested_len()))
        }
    }

    /// The event that it became a ticket, where this is what it sends or wants.
    pub(crate) fn queued(&self, ticket: u64, body: Body) -> Event
        requires body { body ≡ body_of self.now.endpoint self.now.buffer }
        ensures event { result ≡ submit_event ticket self.now }
    {
        Event::Submit {
            ticket,
            device: self.device,
            endpoint: self.endpoint,
            maximum: self.maximum,
            body,
            capacity: self.buffer.capacity(),
            deadline: self.deadline,
        }
    }

    /// The event that it became a ticket that is refused with an errno.
    pub(crate) fn refused(&self, alloc: Global, ticket: u64, errno: u16) -> Result<Event, NoMemory>
        ensures event { IfOk result (λ event. event ≡ refuse_event ticket self.now errno) }
    {
        Ok(Event::Refuse {
            ticket,
            device: self.device,
            endpoint: self.endpoint,
            maximum: self.maximum,
            body: self.body(alloc)?,
            capacity: self.buffer.capacity(),
            errno,
        })
    }
}

impl Done {
    /// The same completion once more, with a buffer of its own.
    pub fn clone(&self) -> Result<Done, NoMemory>
        ensures same { IfOk result (λ copy. copy ≡ self.now) }
    {
        let buffer = self.buffer.clone()?;
        Ok(Done {
            ticket: self.ticket,
            status: self.status,
            refused: self.refused,
            count: self.count,
            buffer,
        })
    }
}

impl Submitted {
    /// The same once more, with a buffer of its own.
    pub fn clone(&self) -> Result<Submitted, NoMemory>
        ensures same { IfOk result (λ copy. copy ≡ self.now) }
    {
        match self {
            Submitted::Queued(ticket) => Ok(Submitted::Queued(*ticket)),
            Submitted::Refused(done) => Ok(Submitted::Refused(done.clone()?)),
        }
    }
}
