//! Control transfers on their way.

ghost use Rattle.std.specs.Prelude.{◌≡◌, true, Some, None, Ok, IsSome};
ghost use Rattle.usb_kernel.specs.TransferCompletions.{transfer_completion};
ghost use Rattle.usb_error.specs.Outcomes.{result_map};
ghost use Rattle.usb_device_endpoint.specs.Polls.{IfReady, IfPending};
ghost use Rattle.usb_device_host.specs.HostBus.{owner_at, key_at};
ghost use Rattle.usb_device_host.specs.HostCalls.{host_left};
ghost use Rattle.usb_device_host.specs.TicketEnds.{host_taken};
ghost use Rattle.usb_device.specs.Futures.{FutureState, StandsFuture, spent_future, future_taken, future_closed, future_awaited, future_answer, control_answer};
ghost use Rattle.usb_device.specs.KeptHandles.{StandBesideKey};

use futures::task::Poll;
use std::marker::Model;
use usb_desc::Direction;
use usb_device_host::{Host, StartedControl};
use usb_device_ledger::TicketEnd;
use usb_xfer::{Completion, MaybeFuture, Pending, TransferData, TransferError};

/// A control transfer on its way (USB 2.0, section 9.3). It has its answer once: by `wait`, or by
/// the poll that is ready. `wait` or `close` spends it.
pub struct TransferFuture {
    key: usize,
    deadline: u64,
    direction: Direction,
    pending: Option<Pending<TransferData>>,
}

impl Model for TransferFuture {
    ghost use Rattle.usb_device.specs.Futures.{FutureState};

    ghost Value = { FutureState };

    ghost view = { λ f. record {
      key = f.key;
      ticket = f.pending;
      deadline = f.deadline;
      direction = f.direction;
    } };
}

/// A future with the host that it is waited for on.
pub struct OnHost<'a> {
    /// The future.
    pub future: TransferFuture,
    /// The host on which its transfer started.
    pub host: &'a mut Host,
}

/// What a control transfer answers: the bytes that came, and none where bytes were sent.
fn answer_of(direction: Direction, completion: Completion) -> Result<Vec<u8>, TransferError>
    ensures answer { result_map (λ bytes. bytes.items) result
        ≡ control_answer direction completion }
{
    let mut buffer = completion.into_result()?;
    if direction == Direction::Out {
        buffer.clear();
    }
    Ok(buffer.into_vec())
}

impl TransferFuture {
    /// The future of a control transfer that was handed in.
    pub(crate) fn new(started: StartedControl, direction: Direction) -> TransferFuture
        ensures future { result ≡ record {
          key = started.key;
          ticket = Some started.ticket;
          deadline = started.deadline;
          direction = direction;
        } }
    {
        TransferFuture {
            key: started.key,
            deadline: started.deadline,
            direction,
            pending: Some(Pending::new(started.ticket)),
        }
    }

    /// The answer, where the transfer is complete: the bytes that came, and none where bytes were
    /// sent. The future has no answer any more then, and its `close` changes nothing. While it is
    /// pending nothing changes.
    ///
    /// # Errors
    ///
    /// The status of the transfer, where that is one.
    pub fn poll(&mut self, host: &mut Host) -> Poll<Result<Vec<u8>, TransferError>>
        requires unanswered { IsSome self.old.ticket }
        requires stands { StandsFuture host.old self.old }
        ensures answer { IfReady result (λ r.
            future_answer host.old self.old ≡ Some (result_map (λ bytes. bytes.items) r)) }
        ensures taken { IfReady result (λ _. host.new ≡ future_taken host.old self.old) }
        ensures spent { IfReady result (λ _. self.new ≡ spent_future self.old) }
        ensures waits { IfPending result (future_answer host.old self.old ≡ None) }
        ensures same_host { IfPending result (host.new ≡ host.old) }
        ensures same { IfPending result (self.new ≡ self.old) }
        ensures stands { StandsFuture host.new self.new }
        ensures handles { StandBesideKey host.old host.new self.old.key }
    {
        match host.poll_control(self.key, &mut self.pending) {
            Some(completion) => Poll::Ready(answer_of(self.direction, completion)),
            None => Poll::Pending,
        }
    }

    /// Waits until the transfer is complete, and gives the bytes that came, and none where bytes
    /// were sent. It takes the steps of the line that are left, then reaps; where time is up the
    /// clock is raised to the deadline, at which the timer discards what is not finished.
    ///
    /// # Errors
    ///
    /// The status of the transfer, where that is one.
    pub fn wait(self, host: &mut Host) -> Result<Vec<u8>, TransferError>
        requires unanswered { IsSome self.ticket }
        requires stands { StandsFuture host.old self }
        ensures host { host.new ≡ future_taken (future_awaited host.old self) self }
        ensures answer { future_answer (future_awaited host.old self) self
            ≡ Some (result_map (λ bytes. bytes.items) result) }
        ensures handles { StandBesideKey host.old host.new self.key }
    {
        let TransferFuture {
            key,
            deadline,
            direction,
            pending,
        } = self;
        let ticket = pending.unwrap().spend();
        host.await_ticket(ticket, deadline);
        answer_of(direction, host.take_control(key, ticket))
    }

    /// The future with the host that it is to be waited for on.
    pub fn on(self, host: &mut Host) -> OnHost<'_>
        ensures future { result.future ≡ self }
        ensures host { result.host.now ≡ host.old }
        ensures same_host { result.host.ghost_name ≡ host.entry.ghost_name }
    {
        OnHost { future: self, host }
    }

    /// Closes the future. The transfer goes on, and is dropped where it was reaped, else reclaimed
    /// at its reap. Nothing changes where the future has given its answer.
    pub fn close(self, host: &mut Host)
        requires stands { StandsFuture host.old self }
        ensures host { host.new ≡ future_closed host.old self }
        ensures handles { StandBesideKey host.old host.new self.key }
    {
        let TransferFuture {
            key,
            deadline: _,
            direction: _,
            pending,
        } = self;
        if let Some(pending) = pending {
            host.abandon_ticket(pending.spend());
            host.leave_endpoint(key);
        }
    }
}

impl<'a> MaybeFuture for OnHost<'a> {
    ghost use Rattle.std.specs.Prelude.{◌≡◌, Some, IsSome};
    ghost use Rattle.usb_error.specs.Outcomes.{result_map};
    ghost use Rattle.usb_device.specs.Futures.{StandsFuture, future_taken, future_awaited, future_answer};
    ghost use Rattle.usb_device.specs.KeptHandles.{StandBesideKey};

    type Output = Result<Vec<u8>, TransferError>;

    ghost can_wait = { λ f. IsSome f.future.ticket × StandsFuture f.host.now f.future };

    ghost gives = { λ f r. future_answer (future_awaited f.host.now f.future) f.future
        ≡ Some (result_map (λ bytes. bytes.items) r) };

    fn wait(self) -> Result<Vec<u8>, TransferError>
        requires unanswered { IsSome self.future.ticket }
        requires stands { StandsFuture self.host.now self.future }
        ensures gives { future_answer (future_awaited self.entry.host.now self.entry.future)
            self.entry.future ≡ Some (result_map (λ bytes. bytes.items) result) }
        ensures host { self.exit.1.0.now
            ≡ future_taken (future_awaited self.entry.host.now self.entry.future)
            self.entry.future }
        ensures handles { StandBesideKey self.entry.host.now self.exit.1.0.now
            self.entry.future.key }
    {
        let OnHost { future, host } = self;
        future.wait(host)
    }
}
