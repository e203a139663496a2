//! The queue of an endpoint.

ghost use Rattle.std.specs.Prelude.{◌≡◌, ◌<◌, ◌≤◌, ◌^◌, ◌++◌, ◌∷◌, [], length, Some, None, IfOk, OnOk, OnErr, IfErr};
ghost use Rattle.usb_desc.specs.Fields.{direction_of_address};
ghost use Rattle.usb_kernel.specs.Tickets.{tickets};
ghost use Rattle.usb_kernel.specs.Steps.{after_discard};
ghost use Rattle.usb_kernel.specs.Timers.{deadline_after};
ghost use Rattle.usb_device_endpoint.specs.BusState.{without_owner, without_key};
ghost use Rattle.usb_device_endpoint.specs.Later.{GoesOn};
ghost use Rattle.usb_error.specs.Errors.{clear_halt_error};
ghost use Rattle.usb_device_endpoint.specs.CallErrors.{or_error};
ghost use Rattle.usb_device_endpoint.specs.EndpointState.{route_of};
ghost use Rattle.usb_device_endpoint.specs.Polls.{in_poll};
ghost use Rattle.usb_device_endpoint.specs.Handles.{Stands, KeepsOthers};
ghost use Rattle.usb_device_endpoint.specs.Waits.{polled, front_found};
ghost use Rattle.usb_device_endpoint.specs.Submits.{is_valid, entered, Enters};
ghost use Rattle.usb_device_endpoint.specs.Closes.{all_discarded, all_abandoned, after_close};

use crate::enter::{completion_in, enter, is_whole_length};
use crate::{Bus, Route};
use futures::task::Poll;
use std::alloc::Global;
use std::collections::VecDeque;
use std::fmt;
use std::marker::{Model, PhantomData};
use usb_desc::{Direction, NoMemory, TransferType};
use usb_error::Error;
use usb_kernel::deadline_after;
use usb_xfer::{
    Any, Buffer, Completion, EndpointDirection, EndpointType, KnownDirection, KnownType, Pending,
    TransferData, take_completed_from_queue,
};

/// An open endpoint of type `T` and direction `D` (USB 2.0, section 9.6.6), with the transfers that
/// were submitted to it.
///
/// It is never dropped: `close` spends it.
///
/// ```
/// let mut endpoint = interface.into_endpoint::<Bulk, In>(host, 0x81)?;
/// let done = match endpoint.submit(host, buffer) {
///     Ok(()) => endpoint.wait_next_complete(host, 1_000_000_000),
///     Err(_) => None,
/// };
/// endpoint.close(host);
/// ```
pub struct Endpoint<T: EndpointType, D: EndpointDirection> {
    device: u8,
    address: u8,
    kind: TransferType,
    maximum: usize,
    key: usize,
    pending: VecDeque<Pending<TransferData>>,
    of: PhantomData<(T, D)>,
}

impl<T: EndpointType, D: EndpointDirection> Model for Endpoint<T, D> {
    ghost use Rattle.usb_device_endpoint.specs.EndpointState.{EndpointState, IsOf};

    ghost Value = { EndpointState };

    ghost view = { λ e. record {
      device = e.device;
      address = e.address;
      kind = e.kind;
      maximum = e.maximum;
      key = e.key;
      pending = e.pending.items;
    } };

    ghost invariant = { λ e. IsOf T.admits D.admits e.kind e.address e.maximum };
}

impl<T: EndpointType, D: EndpointDirection> fmt::Debug for Endpoint<T, D> {
    fn fmt<W: fmt::Write>(&self, f: &mut fmt::Formatter<W>) -> fmt::Result {
        f.debug_struct("Endpoint")
            .field("address", &format_args!("0x{:02x}", self.address))
            .field("type", &self.kind)
            .field("direction", &Direction::from_address(self.address))
            .finish()
    }
}

impl<T: KnownType, D: KnownDirection> Endpoint<T, D> {
    /// An endpoint with nothing pending. The maximum packet size is in bytes.
    pub fn new(alloc: Global, device: u8, address: u8, maximum: usize, key: usize) -> Self
        requires packets { 0 < maximum }
        requires small { maximum < 2 ^ 11 }
        requires direction { direction_of_address address ≡ D.DIR }
        ensures fresh { result ≡ record {
          device = device;
          address = address;
          kind = T.TYPE;
          maximum = maximum;
          key = key;
          pending = [];
        } }
    {
        Endpoint {
            device,
            address,
            kind: T::TYPE,
            maximum,
            key,
            pending: VecDeque::new(alloc),
            of: PhantomData,
        }
    }
}

impl<T: EndpointType, D: EndpointDirection> Endpoint<T, D> {
    /// The endpoint as one of this type and direction, where it is one.
    ///
    /// # Errors
    ///
    /// The endpoint, where its type or its direction is another.
    pub fn narrow<U: EndpointType, E: EndpointDirection>(self) -> Result<Endpoint<U, E>, Self>
        ensures same { IfOk result (λ e. e ≡ self) }
        ensures is { OnOk result (U.admits self.kind
            × E.admits (direction_of_address self.address)) }
        ensures back { IfErr result (λ e. e ≡ self) }
        ensures other { OnErr result (U.admits self.kind
            → E.admits (direction_of_address self.address) → ⊥) }
    {
        let is_of = U::admits(self.kind) && E::admits(Direction::from_address(self.address));
        if !is_of {
            return Err(self);
        }
        let Endpoint {
            device,
            address,
            kind,
            maximum,
            key,
            pending,
            of: _,
        } = self;
        Ok(Endpoint {
            device,
            address,
            kind,
            maximum,
            key,
            pending,
            of: PhantomData,
        })
    }

    /// The endpoint as one of any type and direction.
    pub fn widen(self) -> Endpoint<Any, Any>
        ensures same { result ≡ self }
    {
        let Endpoint {
            device,
            address,
            kind,
            maximum,
            key,
            pending,
            of: _,
        } = self;
        Endpoint {
            device,
            address,
            kind,
            maximum,
            key,
            pending,
            of: PhantomData,
        }
    }

    /// The address: USB 2.0, table 9-13, `bEndpointAddress`.
    pub fn endpoint_address(&self) -> u8
        ensures address { result ≡ self.now.address }
        ensures direction { D.admits (direction_of_address result) }
    {
        self.address
    }

    /// The maximum packet size in bytes: USB 2.0, table 9-13, `wMaxPacketSize`, bits 10 to 0.
    pub fn max_packet_size(&self) -> usize
        ensures maximum { result ≡ self.now.maximum }
        ensures packets { 0 < result }
        ensures small { result < 2 ^ 11 }
    {
        self.maximum
    }

    /// How many transfers were submitted and not taken.
    pub fn pending(&self) -> usize
        ensures count { result ≡ length self.now.pending }
    {
        self.pending.len()
    }

    /// An empty buffer of this capacity, which asks for as many bytes: it rounds nothing up to whole
    /// packets, which a submission to an IN endpoint needs.
    pub fn allocate(&self, len: usize) -> Result<Buffer, NoMemory>
        requires small { len < 2 ^ 31 }
        ensures empty { IfOk result (λ b. b ≡ record { bytes = []; requested = len; room = len }) }
    {
        Buffer::new(*self.pending.allocator(), len)
    }

    /// Where submissions go.
    fn route(&self) -> Route
        ensures route { result ≡ route_of self.now }
    {
        Route {
            device: self.device,
            endpoint: self.address,
            kind: self.kind,
            maximum: self.maximum,
            key: self.key,
        }
    }

    /// Whether a buffer can be submitted: an IN endpoint is asked for whole packets, at least one.
    fn accepts(&self, buf: &Buffer) -> bool
        ensures valid { result ≡ is_valid self.now buf.now }
    {
        self.address < 128 || is_whole_length(self.maximum, buf.requested_len())
    }

    /// Submits a buffer with a deadline or none. An `Err` is want of memory: the buffer comes back
    /// and nothing has changed.
    fn submit_as<B: Bus>(
        &mut self,
        bus: &mut B,
        deadline: Option<u64>,
        buf: Buffer,
    ) -> Result<(), Buffer>
        requires few { length self.old.pending < 64 }
        requires stands { Stands (B.calls.state bus.old) self.old }
        ensures pending { OnOk result (self.new ≡ record self.old {
          pending = self.old.pending ++ length (tickets (B.calls.state bus.old).past) ∷ [];
        }) }
        ensures bus { OnOk result (bus.new ≡ entered B.calls bus.old self.old deadline buf) }
        ensures enters { OnOk result
            (Enters (B.calls.state bus.old) (B.calls.state bus.new) (route_of self.old) deadline buf
            (is_valid self.old buf)) }
        ensures left { 128 ≤ self.old.address
            → (B.calls.state bus.new).turns_left ≤ (B.calls.state bus.old).turns_left }
        ensures stands { Stands (B.calls.state bus.new) self.new }
        ensures others { KeepsOthers (B.calls.state bus.old) (B.calls.state bus.new) self.old.key }
        ensures handles { B.handles_stand bus.old bus.new }
        ensures rest { self.new ≡ record self.old { pending = self.new.pending } }
        ensures err { OnErr result ((self.new ≡ self.old) × (bus.new ≡ bus.old)) }
        ensures back { IfErr result (λ back. back ≡ buf) }
    {
        B::calls_keep_handles();
        let to = self.route();
        let is_accepted = self.accepts(&buf);
        if self.pending.reserve(1).is_err() {
            return Err(buf);
        }
        match enter(bus, to, deadline, buf, is_accepted) {
            Ok(ticket) => {
                self.pending.push_back_reserved(ticket);
                Ok(())
            }
            Err(back) => Err(back),
        }
    }

    /// Submits a buffer, which becomes a pending transfer with no deadline. An IN endpoint is asked
    /// for whole packets, at least one; any other requested length is refused with 22 (EINVAL), and
    /// the completion says so.
    ///
    /// # Errors
    ///
    /// The buffer, where memory is wanted. Nothing has changed.
    pub fn submit<B: Bus>(&mut self, bus: &mut B, buf: Buffer) -> Result<(), Buffer>
        requires few { length self.old.pending < 64 }
        requires stands { Stands (B.calls.state bus.old) self.old }
        ensures pending { OnOk result (self.new ≡ record self.old {
          pending = self.old.pending ++ length (tickets (B.calls.state bus.old).past) ∷ [];
        }) }
        ensures bus { OnOk result (bus.new ≡ entered B.calls bus.old self.old None buf) }
        ensures enters { OnOk result
            (Enters (B.calls.state bus.old) (B.calls.state bus.new) (route_of self.old) None buf
            (is_valid self.old buf)) }
        ensures left { 128 ≤ self.old.address
            → (B.calls.state bus.new).turns_left ≤ (B.calls.state bus.old).turns_left }
        ensures stands { Stands (B.calls.state bus.new) self.new }
        ensures others { KeepsOthers (B.calls.state bus.old) (B.calls.state bus.new) self.old.key }
        ensures handles { B.handles_stand bus.old bus.new }
        ensures rest { self.new ≡ record self.old { pending = self.new.pending } }
        ensures err { OnErr result ((self.new ≡ self.old) × (bus.new ≡ bus.old)) }
        ensures back { IfErr result (λ back. back ≡ buf) }
    {
        self.submit_as(bus, None, buf)
    }

    /// `submit` with a deadline: the clock and `timeout` nanoseconds more, of which a day counts at
    /// most. A refused transfer has no deadline.
    ///
    /// Nothing but the turn of the timer (`Bus::idle`, or a step `KernelStep::Timer`) discards the
    /// transfer: the first turn at the deadline or later, where the transfer is not finished. The
    /// bytes that came stay. A wait on an endpoint moves no clock.
    ///
    /// # Errors
    ///
    /// The buffer, where memory is wanted. Nothing has changed.
    pub fn submit_with_deadline<B: Bus>(
        &mut self,
        bus: &mut B,
        buf: Buffer,
        timeout: u64,
    ) -> Result<(), Buffer>
        requires few { length self.old.pending < 64 }
        requires stands { Stands (B.calls.state bus.old) self.old }
        ensures pending { OnOk result (self.new ≡ record self.old {
          pending = self.old.pending ++ length (tickets (B.calls.state bus.old).past) ∷ [];
        }) }
        ensures bus { OnOk result (bus.new ≡ entered B.calls bus.old self.old
            (Some (deadline_after (B.calls.state bus.old).clock timeout)) buf) }
        ensures enters { OnOk result
            (Enters (B.calls.state bus.old) (B.calls.state bus.new) (route_of self.old)
            (Some (deadline_after (B.calls.state bus.old).clock timeout)) buf
            (is_valid self.old buf)) }
        ensures left { 128 ≤ self.old.address
            → (B.calls.state bus.new).turns_left ≤ (B.calls.state bus.old).turns_left }
        ensures stands { Stands (B.calls.state bus.new) self.new }
        ensures others { KeepsOthers (B.calls.state bus.old) (B.calls.state bus.new) self.old.key }
        ensures handles { B.handles_stand bus.old bus.new }
        ensures rest { self.new ≡ record self.old { pending = self.new.pending } }
        ensures err { OnErr result ((self.new ≡ self.old) × (bus.new ≡ bus.old)) }
        ensures back { IfErr result (λ back. back ≡ buf) }
    {
        let deadline = deadline_after(bus.now(), timeout);
        self.submit_as(bus, Some(deadline), buf)
    }

    /// The completion of the first pending transfer, which is taken, where it is there. The
    /// transfers behind it wait, also those that were finished before it.
    pub fn poll_next_complete<B: Bus>(&mut self, bus: &mut B) -> Poll<Completion>
        requires some { 0 < length self.old.pending }
        requires stands { Stands (B.calls.state bus.old) self.old }
        ensures polled { polled B.calls bus.old self.old
            ≡ front_found (in_poll result) bus.new self.new }
        ensures goes_on { GoesOn (B.calls.state bus.old) (B.calls.state bus.new) }
        ensures stands { Stands (B.calls.state bus.new) self.new }
        ensures others { KeepsOthers (B.calls.state bus.old) (B.calls.state bus.new) self.old.key }
        ensures handles { B.handles_stand bus.old bus.new }
        ensures rest { self.new ≡ record self.old { pending = self.new.pending } }
    {
        B::calls_keep_handles();
        match take_completed_from_queue(&mut self.pending, bus) {
            Some(transfer) => Poll::Ready(completion_in(transfer)),
            None => Poll::Pending,
        }
    }

    /// Discards the pending transfers that are not finished, from the last to the first. They stay
    /// pending.
    pub fn cancel_all<B: Bus>(&mut self, bus: &mut B)
        requires stands { Stands (B.calls.state bus.old) self.old }
        ensures bus { bus.new ≡ all_discarded B.calls.discarded bus.old self.old.pending }
        ensures state { B.calls.state bus.new ≡ record (B.calls.state bus.old) {
          past = all_discarded after_discard (B.calls.state bus.old).past self.old.pending;
          turns_left = (B.calls.state bus.new).turns_left;
        } }
        ensures stands { Stands (B.calls.state bus.new) self.new }
        ensures others { KeepsOthers (B.calls.state bus.old) (B.calls.state bus.new) self.old.key }
        ensures handles { B.handles_stand bus.old bus.new }
        ensures rest { self.new ≡ self.old }
    {
        B::calls_keep_handles();
        'tickets: for i in (0..self.pending.len()).rev() {
            bus.discard(&self.pending[i]);
        }
    }

    /// Clears the halt of the endpoint (USB 2.0, section 9.4.1: ENDPOINT_HALT). What is pending stays
    /// so. A refusal of the kernel is the error.
    pub fn clear_halt<B: Bus>(&mut self, bus: &mut B) -> Result<(), Error>
        requires stands { Stands (B.calls.state bus.old) self.old }
        ensures result { result ≡ or_error clear_halt_error
            (B.calls.halt_result bus.old self.old.device self.old.address) }
        ensures bus { bus.new ≡ B.calls.halt_cleared bus.old self.old.device self.old.address }
        ensures state { B.calls.state bus.new ≡ B.calls.state bus.old }
        ensures stands { Stands (B.calls.state bus.new) self.new }
        ensures others { KeepsOthers (B.calls.state bus.old) (B.calls.state bus.new) self.old.key }
        ensures handles { B.handles_stand bus.old bus.new }
        ensures rest { self.new ≡ self.old }
    {
        B::calls_keep_handles();
        match bus.clear_halt(self.device, self.address) {
            Ok(()) => Ok(()),
            Err(errno) => Err(Error::clear_halt(errno)),
        }
    }

    /// Cancels the pending transfers, gives them up and leaves the bus.
    #[tactic(auto, using(crate::proofs::HandleLemmas::others_in_turn))]
    pub fn close<B: Bus>(mut self, bus: &mut B)
        requires stands { Stands (B.calls.state bus.old) self }
        ensures bus { bus.new ≡ after_close B.calls bus.old self }
        ensures state { B.calls.state bus.new ≡ record (B.calls.state bus.old) {
          past = all_discarded after_discard (B.calls.state bus.old).past self.pending;
          owner = all_abandoned without_owner (B.calls.state bus.old).owner self.pending;
          keys = without_key (B.calls.state bus.old).keys self.key;
          turns_left = (B.calls.state bus.new).turns_left;
        } }
        ensures others { KeepsOthers (B.calls.state bus.old) (B.calls.state bus.new) self.key }
        ensures handles { B.handles_stand bus.old bus.new }
    {
        self.cancel_all(bus);
        self.give_up(bus);
    }

    /// Gives the pending transfers up, from the first on, and leaves the bus.
    fn give_up<B: Bus>(self, bus: &mut B)
        requires stands { Stands (B.calls.state bus.old) self }
        ensures bus { bus.new
            ≡ B.calls.closed (all_abandoned B.calls.abandoned bus.old self.pending) self.key }
        ensures state { B.calls.state bus.new ≡ record (B.calls.state bus.old) {
          owner = all_abandoned without_owner (B.calls.state bus.old).owner self.pending;
          keys = without_key (B.calls.state bus.old).keys self.key;
        } }
        ensures others { KeepsOthers (B.calls.state bus.old) (B.calls.state bus.new) self.key }
        ensures handles { B.handles_stand bus.old bus.new }
    {
        B::calls_keep_handles();
        let Endpoint {
            device: _,
            address: _,
            kind: _,
            maximum: _,
            key,
            mut pending,
            of: _,
        } = self;
        'tickets: while let Some(ticket) = pending.pop_front() {
            bus.abandon(ticket);
        }
        pending.destroy_empty();
        bus.leave(key);
    }
}
