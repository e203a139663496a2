//! A ticket as the kernel keeps it.

ghost use Rattle.std.specs.Prelude.{◌≡◌, ◌+◌, ◌<◌, ◌≤◌, IsSome, Some, None, []};
ghost use Rattle.usb_kernel.specs.Fates.{fresh, refused_fate};
ghost use Rattle.usb_kernel.specs.Submissions.{body_of, ticket_of, refused_of, IsWhole};
ghost use Rattle.usb_kernel.specs.Completions.{buffer_for, refused_done};
ghost use Rattle.std.specs.Option.{option_map};
ghost use Rattle.usb_kernel.specs.Passing.{row_taken};
ghost use Rattle.usb_kernel.specs.Rows.{IsRoomy, is_reapable_row, row_info, owed, row_with_packet, row_with_ack, row_done, row_of};

use crate::errno;
use crate::submission::{Done, Submission, TicketInfo};
use usb_xfer::Buffer;

/// A ticket. The count is that of the bytes so far, and the buffer is there until the reap.
#[derive(Drop)]
pub(crate) struct TicketRow {
    pub(crate) device: u8,
    pub(crate) endpoint: u8,
    pub(crate) refused: bool,
    pub(crate) status: Option<u16>,
    pub(crate) maximum: usize,
    pub(crate) count: usize,
    pub(crate) deadline: Option<u64>,
    pub(crate) buffer: Option<Buffer>,
}

/// A submitted buffer as its ticket begins with it: for IN it is empty, for OUT it asks for its own
/// bytes.
fn prepared(endpoint: u8, mut buffer: Buffer) -> Buffer
    ensures buffer { result ≡ buffer_for (body_of endpoint buffer) buffer.room [] }
{
    if endpoint < 128 {
        let len = buffer.len();
        buffer.set_requested_len(len);
    } else {
        buffer.clear();
    }
    buffer
}

impl TicketRow {
    /// The ticket of a submission that is queued.
    pub(crate) fn queued(s: Submission) -> TicketRow
        requires whole { IsWhole s }
        ensures row { result ≡ row_of (ticket_of s) fresh }
        ensures roomy { IsRoomy result }
        ensures places { owed result ≡ 2 }
    {
        TicketRow {
            device: s.device,
            endpoint: s.endpoint,
            maximum: s.maximum,
            refused: false,
            count: 0,
            status: None,
            deadline: s.deadline,
            buffer: Some(prepared(s.endpoint, s.buffer)),
        }
    }

    /// A ticket that is refused, and its completion.
    pub(crate) fn refused(ticket: u64, s: Submission, errno: u16) -> (TicketRow, Done)
        ensures row { result.0 ≡ row_of (refused_of s) (refused_fate errno) }
        ensures places { owed result.0 ≡ 0 }
        ensures done { result.1 ≡ refused_done ticket s errno }
    {
        let slot = TicketRow {
            device: s.device,
            endpoint: s.endpoint,
            maximum: s.maximum,
            refused: true,
            count: 0,
            status: Some(errno),
            deadline: None,
            buffer: None,
        };
        let done = Done {
            ticket,
            status: errno,
            refused: true,
            count: 0,
            buffer: prepared(s.endpoint, s.buffer),
        };
        (slot, done)
    }

    /// How many places in the journal it may still need.
    pub(crate) fn places(&self) -> usize
        ensures places { result ≡ owed self.now }
        ensures few { result ≤ 2 }
    {
        if self.buffer.is_none() {
            0
        } else if self.status.is_none() {
            2
        } else {
            1
        }
    }

    /// Whether it is finished and not reaped.
    pub(crate) fn is_reapable(&self) -> bool
        ensures reapable { result ≡ is_reapable_row self.now }
    {
        self.status.is_some() && self.buffer.is_some()
    }

    /// Gives the buffer away.
    pub(crate) fn take_done(&mut self, ticket: u64) -> Done
        requires finished { IsSome self.old.status }
        requires waiting { IsSome self.old.buffer }
        ensures done { row_done ticket self.old ≡ Some result }
        ensures row { self.new ≡ record self.old { buffer = None } }
    {
        let status = self.status.unwrap();
        let buffer = self.buffer.take().unwrap();
        Done {
            ticket,
            status,
            refused: self.refused,
            count: self.count,
            buffer,
        }
    }

    /// Takes a packet of its own.
    pub(crate) fn take_packet(&mut self, bytes: &[u8])
        requires input { 128 ≤ self.old.endpoint }
        requires unfinished { self.old.status ≡ None }
        requires roomy { IsRoomy self.old }
        ensures row { self.new ≡ row_with_packet self.old bytes.now }
        ensures roomy { IsRoomy self.new }
    {
        if bytes.len() > self.maximum {
            self.status = Some(errno::OVERFLOW);
            return;
        }
        if let Some(buffer) = &mut self.buffer {
            let wanted = buffer.requested_len();
            buffer.extend_from_slice(bytes);
            self.count += bytes.len();
            if bytes.len() < self.maximum || self.count >= wanted {
                self.status = Some(0);
            }
        }
    }

    /// The next packet of it is acknowledged.
    pub(crate) fn take_ack(&mut self)
        requires output { self.old.endpoint < 128 }
        requires unfinished { self.old.status ≡ None }
        requires roomy { IsRoomy self.old }
        ensures row { self.new ≡ row_with_ack self.old }
        ensures roomy { IsRoomy self.new }
    {
        if let Some(buffer) = &self.buffer {
            let len = buffer.len();
            self.count += self.maximum.min(len - self.count);
            if self.count >= len {
                self.status = Some(0);
            }
        }
    }

    /// The packet that its next acknowledgement takes.
    pub(crate) fn next_packet(&self) -> Option<&[u8]>
        requires output { self.now.endpoint < 128 }
        requires unfinished { self.now.status ≡ None }
        requires roomy { IsRoomy self.now }
        ensures packet { option_map (λ bytes. bytes.now) result ≡ Some (row_taken self.now) }
    {
        match &self.buffer {
            Some(buffer) => {
                let start = self.count;
                let end = start + self.maximum.min(buffer.len() - start);
                Some(&buffer.as_slice()[start..end])
            }
            None => None,
        }
    }

    /// It fails with an errno.
    pub(crate) fn fail(&mut self, errno: u16)
        requires unfinished { self.old.status ≡ None }
        requires roomy { IsRoomy self.old }
        ensures row { self.new ≡ record self.old { status = Some errno } }
        ensures places { owed self.new + 1 ≡ owed self.old }
    {
        self.status = Some(errno);
    }

    /// What is known of it.
    pub(crate) fn info(&self) -> TicketInfo
        ensures info { result ≡ row_info self.now }
    {
        TicketInfo {
            device: self.device,
            endpoint: self.endpoint,
            status: self.status,
            refused: self.refused,
            reaped: self.buffer.is_none(),
            count: self.count,
        }
    }
}
