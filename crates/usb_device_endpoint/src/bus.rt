//! The contract of a bus.

ghost use Rattle.std.specs.Prelude.{◌≡◌, ◌≤◌, ℕ, true, max, length, Some, None, is_some, IsSome, IsTrue, IfOk, OnOk, OnErr, IfErr};
ghost use Rattle.usb_kernel.specs.Tickets.{tickets};
ghost use Rattle.usb_kernel_devices.specs.Errnos.{IsErrno};
ghost use Rattle.usb_kernel.specs.Completions.{lowest};
ghost use Rattle.usb_kernel.specs.Timers.{timer_turned};
ghost use Rattle.usb_kernel.specs.Steps.{after_discard};
ghost use Rattle.usb_xfer.specs.declared.transfer.TransferData.{TransferData};
ghost use Rattle.usb_device_endpoint.specs.declared.route.Route.{Route};
ghost use Rattle.usb_device_endpoint.specs.declared.route.Turn.{Turn};
ghost use Rattle.usb_device_endpoint.specs.BusState.{without_owner, without_key};
ghost use Rattle.usb_device_endpoint.specs.BusCalls.{BusCalls};
ghost use Rattle.usb_device_endpoint.specs.BusHandles.{KeepsHandles};
ghost use Rattle.usb_device_endpoint.specs.Routes.{GoesBy, AsksWhole};
ghost use Rattle.usb_device_endpoint.specs.Submitted.{IsSubmitted, IsRefused};
ghost use Rattle.usb_device_endpoint.specs.Later.{IsLater};
ghost use Rattle.usb_device_endpoint.specs.Turns.{Falls};
ghost use Rattle.usb_device_endpoint.specs.Values.{HoldsCompletion};

use crate::route::{Route, Turn};
use usb_xfer::{Idle, Pending, Slots, TransferData};

/// What endpoints stand on: a kernel with slots for the transfers that open endpoints hold.
///
/// `calls` says what a bus is to an endpoint, and what each call leaves of the whole bus.
pub trait Bus: Slots<TransferData> {
    // What a bus is to the endpoints on it, and what calls leave of it.
    ghost calls: { BusCalls Self };

    // What its user has on the bus beside endpoints goes on standing: of the bus before and after.
    ghost handles_stand: { Self → Self → Type 0 };

    /// Submits the buffer of a transfer, which becomes the next ticket: queued with no deadline, or
    /// refused by the kernel. The endpoint of the route's key, which must be open, holds the ticket
    /// from then on. An `Err` is want of memory: the transfer comes back and nothing has changed.
    fn submit(
        &mut self,
        to: Route,
        t: Idle<TransferData>,
    ) -> Result<Pending<TransferData>, Idle<TransferData>>
        requires key { (calls.state self.old).keys to.key ≡ true }
        requires goes { GoesBy t to }
        requires whole { AsksWhole t to }
        ensures ticket { IfOk result (λ p. p ≡ length (tickets (calls.state self.old).past)) }
        ensures fresh { OnOk result
            ((calls.state self.old).owner (length (tickets (calls.state self.old).past)) ≡ None) }
        ensures state { OnOk result (IsSubmitted (calls.state self.old)
            (calls.state self.new) to None t.held) }
        ensures left { OnOk result
            (128 ≤ to.endpoint → (calls.state self.new).turns_left
            ≤ (calls.state self.old).turns_left) }
        ensures ok { OnOk result (self.new ≡ calls.submitted self.old to None t) }
        ensures err { OnErr result (self.new ≡ self.old) }
        ensures back { IfErr result (λ back. back ≡ t) };

    /// `submit` with a deadline in nanoseconds of the clock. The first turn of the timer (`idle`) at
    /// this time or later discards the ticket where it is not finished. A refused ticket has no
    /// deadline.
    fn submit_by(
        &mut self,
        to: Route,
        t: Idle<TransferData>,
        deadline: u64,
    ) -> Result<Pending<TransferData>, Idle<TransferData>>
        requires key { (calls.state self.old).keys to.key ≡ true }
        requires goes { GoesBy t to }
        requires whole { AsksWhole t to }
        ensures ticket { IfOk result (λ p. p ≡ length (tickets (calls.state self.old).past)) }
        ensures fresh { OnOk result
            ((calls.state self.old).owner (length (tickets (calls.state self.old).past)) ≡ None) }
        ensures state { OnOk result (IsSubmitted (calls.state self.old)
            (calls.state self.new) to (Some deadline) t.held) }
        ensures left { OnOk result
            (128 ≤ to.endpoint → (calls.state self.new).turns_left
            ≤ (calls.state self.old).turns_left) }
        ensures ok { OnOk result (self.new ≡ calls.submitted self.old to (Some deadline) t) }
        ensures err { OnErr result (self.new ≡ self.old) }
        ensures back { IfErr result (λ back. back ≡ t) };

    /// The buffer of a transfer becomes the next ticket, which is refused with this errno whatever
    /// the kernel would answer. An `Err` is want of memory: the transfer comes back and nothing has
    /// changed.
    fn refuse(
        &mut self,
        to: Route,
        t: Idle<TransferData>,
        errno: u16,
    ) -> Result<Pending<TransferData>, Idle<TransferData>>
        requires key { (calls.state self.old).keys to.key ≡ true }
        requires goes { GoesBy t to }
        requires errno { IsErrno errno }
        ensures ticket { IfOk result (λ p. p ≡ length (tickets (calls.state self.old).past)) }
        ensures fresh { OnOk result
            ((calls.state self.old).owner (length (tickets (calls.state self.old).past)) ≡ None) }
        ensures state { OnOk result (IsRefused (calls.state self.old)
            (calls.state self.new) to t.held errno) }
        ensures left { OnOk result ((calls.state self.new).turns_left
            ≤ (calls.state self.old).turns_left) }
        ensures ok { OnOk result (self.new ≡ calls.refused self.old to t errno) }
        ensures err { OnErr result (self.new ≡ self.old) }
        ensures back { IfErr result (λ back. back ≡ t) };

    /// Discards the ticket where it is not finished. Its endpoint holds it all the same.
    fn discard(&mut self, p: &Pending<TransferData>)
        requires stands { IsTrue (Self.stands self.old p.now) }
        ensures state { calls.state self.new ≡ record (calls.state self.old) {
          past = after_discard (calls.state self.old).past p.now;
          turns_left = (calls.state self.new).turns_left;
        } }
        ensures ok { self.new ≡ calls.discarded self.old p.now };

    /// Gives up a ticket: it is dropped where it is reaped, and else reclaimed when it is.
    fn abandon(&mut self, p: Pending<TransferData>)
        requires stands { IsTrue (Self.stands self.old p) }
        ensures state { calls.state self.new
            ≡ record (calls.state self.old) {
              owner = without_owner (calls.state self.old).owner p;
            } }
        ensures ok { self.new ≡ calls.abandoned self.old p };

    /// The endpoint of this key, which must be open, is gone.
    fn leave(&mut self, endpoint_key: usize)
        requires key { (calls.state self.old).keys endpoint_key ≡ true }
        ensures state { calls.state self.new
            ≡ record (calls.state self.old) {
              keys = without_key (calls.state self.old).keys endpoint_key;
            } }
        ensures ok { self.new ≡ calls.closed self.old endpoint_key };

    /// Goes on by one turn. Time is up only where no ticket is finished and unreaped, and then
    /// nothing has changed.
    fn turn(&mut self) -> Turn
        ensures state { IsLater (calls.state self.old) (calls.state self.new) }
        ensures falls { Falls result (calls.state self.old).turns_left
            (calls.state self.new).turns_left }
        ensures time_up { result ≡ Turn.TimeUp → lowest (calls.state self.old).past ≡ None }
        ensures still { result ≡ Turn.TimeUp → calls.state self.new ≡ calls.state self.old }
        ensures turn { result ≡ calls.turn_of self.old }
        ensures ok { self.new ≡ calls.turned self.old };

    /// Raises the clock to a time in nanoseconds, where that is later, and then gives the timer its
    /// turn.
    fn idle(&mut self, until: u64)
        ensures state { IsLater (calls.state self.old) (calls.state self.new) }
        ensures clock { (calls.state self.new).clock ≡ max (calls.state self.old).clock until }
        ensures timer { (calls.state self.new).past
            ≡ timer_turned (calls.state self.new).clock (calls.state self.old).past }
        ensures ok { self.new ≡ calls.idled self.old until };

    /// The clock in nanoseconds.
    fn now(&self) -> u64
        ensures clock { result ≡ (calls.state self.now).clock };

    /// Clears the halt of an endpoint of a device (USB 2.0, section 9.4.1). An `Err` is the
    /// kernel's errno. It brings no event.
    fn clear_halt(&mut self, device: u8, endpoint: u8) -> Result<(), u16>
        ensures result { result ≡ calls.halt_result self.old device endpoint }
        ensures state { calls.state self.new ≡ calls.state self.old }
        ensures ok { self.new ≡ calls.halt_cleared self.old device endpoint };

    /// No call on a bus ends a handle that is not an endpoint. It does nothing.
    fn calls_keep_handles()
        ensures law { KeepsHandles calls handles_stand };

    // A ticket stands in the slots as long as an endpoint holds it.
    ghost stands_is: { (x : Self) (t : ℕ) → Self.stands x t ≡ is_some ((calls.state x).owner t) };

    // The value of a ticket that stands has come exactly where the ticket is reaped, and holds the
    // journal's completion of it.
    ghost value_is: { (x : Self) (t : ℕ) → IsSome ((calls.state x).owner t)
        → HoldsCompletion (calls.state x).past t (Self.value x t) };

    // What is left after the value was taken.
    ghost taken_is: { (x : Self) (t : ℕ) → Self.taken x t ≡ calls.taken x t };

    // To take it ends the ticket, and changes nothing else.
    ghost state_taken: { (x : Self) (t : ℕ) → calls.state (Self.taken x t)
        ≡ record (calls.state x) { owner = without_owner (calls.state x).owner t } };

    // Handles stand over no call, and over calls in a row.
    ghost handles_same: { (x : Self) → handles_stand x x };

    ghost handles_in_turn: { (x y z : Self) → handles_stand x y → handles_stand y z
        → handles_stand x z };
}
