//! Values that are at hand or pending, as types, and the slots in which the pending ones are.

ghost use Rattle.std.specs.Prelude.{◌≡◌, ℕ, Bool, Option, Some, IsTrue, IsSome, is_some, IfSome, IfNone, All, ◌<◌};
ghost use Rattle.std.specs.Option.{ForSome};
ghost use Rattle.std.specs.VecDeque.{deque_len};
ghost use Rattle.usb_xfer.specs.Slots.{TookFront, LeftFront, TookOption, LeftOption};

use std::collections::VecDeque;
use std::marker::{Model, PhantomData};
use std::ops::{Deref, DerefMut};

/// A value that is at hand: nobody else has it.
#[derive(Drop)]
pub struct Idle<P> {
    value: P,
}

impl<P> Model for Idle<P> {
    ghost Value = { P };

    ghost view = { λ idle. idle.value };
}

impl<P> Idle<P> {
    /// Holds a value.
    pub fn new(value: P) -> Self
        ensures value { result ≡ value }
    {
        Idle { value }
    }

    /// The value.
    pub fn into_inner(self) -> P
        ensures value { result ≡ self }
    {
        let Idle { value } = self;
        value
    }
}

impl<P> Deref for Idle<P> {
    type Target = P;

    ghost deref_gives = { λ idle value. value ≡ idle };

    fn deref(&self) -> &P {
        &self.value
    }
}

impl<P> DerefMut for Idle<P> {
    ghost use Rattle.std.specs.Borrow.{sem};
    ghost use Rattle.usb_xfer.specs.IdleLends.{LendsValue};

    ghost deref_mut_gives = { λ idle value. value ≡ idle };

    fn deref_mut(&mut self) -> &mut P
        ensures* writes_back { sem 𝓛 (LendsValue P.row self.entry result) }
        ensures value { result.now ≡ self.old }
    {
        &mut self.value
    }
}

/// The ticket of a value that was handed away. What takes the ticket spends it: it is never
/// dropped.
pub struct Pending<P> {
    ticket: u64,
    of: PhantomData<P>,
}

impl<P> Model for Pending<P> {
    ghost use Rattle.std.specs.Prelude.{ℕ};

    ghost Value = { ℕ };

    ghost view = { λ pending. pending.ticket };
}

impl<P> Pending<P> {
    /// The ticket of this number. Slots make one when a value is handed to them.
    pub fn new(ticket: u64) -> Self
        ensures ticket { result ≡ ticket }
    {
        Pending {
            ticket,
            of: PhantomData,
        }
    }

    /// The number.
    pub fn ticket(&self) -> u64
        ensures ticket { result ≡ self.now }
    {
        self.ticket
    }

    /// Spends the ticket. Slots do so when they give its value back.
    pub fn spend(self) -> u64
        ensures ticket { result ≡ self }
    {
        let Pending { ticket, of: _ } = self;
        ticket
    }
}

/// Where values are while they are pending.
pub trait Slots<P> {
    // The ticket stands here: its value was handed in and was not given back.
    ghost stands: { Self → ℕ → Bool };

    // Its value, once it has come.
    ghost value: { Self → ℕ → Option P };

    // What is left when the value of a ticket was given back.
    ghost taken: { Self → ℕ → Self };

    /// Whether the value of a ticket that stands here has come.
    fn is_complete(&self, p: &Pending<P>) -> bool
        requires stands { IsTrue (stands self.now p.now) }
        ensures complete { result ≡ is_some (value self.now p.now) };

    /// Gives back the value of a ticket that stands here, which must have come.
    fn into_idle(&mut self, p: Pending<P>) -> Idle<P>
        requires stands { IsTrue (stands self.old p) }
        requires complete { IsSome (value self.old p) }
        ensures value { value self.old p ≡ Some result }
        ensures rest { self.new ≡ taken self.old p };
}

/// Takes the front of a queue where its value has come, and else nothing. The tickets behind the
/// front are not looked at.
pub fn take_completed_from_queue<P, S: Slots<P>>(
    q: &mut VecDeque<Pending<P>>,
    s: &mut S,
) -> Option<Idle<P>>
    requires some { 0 < deque_len q.old }
    requires stands { All (λ p. IsTrue (S.stands s.old p)) q.old.items }
    ensures taken { IfSome result
        (λ idle. TookFront S.value S.taken s.old q.old.items idle q.new.items s.new) }
    ensures left { IfNone result (LeftFront S.value s.old q.old.items q.new.items s.new) }
{
    if !s.is_complete(&q[0]) {
        return None;
    }
    let front = q.pop_front().unwrap();
    Some(s.into_idle(front))
}

/// Takes the one ticket that stands in an option, where its value has come, and else nothing.
pub fn take_completed_from_option<P, S: Slots<P>>(
    o: &mut Option<Pending<P>>,
    s: &mut S,
) -> Option<Idle<P>>
    requires stands { ForSome o.old (λ p. IsTrue (S.stands s.old p)) }
    ensures taken { IfSome result
        (λ idle. TookOption S.value S.taken s.old o.old idle o.new s.new) }
    ensures left { IfNone result (LeftOption S.value s.old o.old o.new s.new) }
{
    match o {
        Some(pending) if s.is_complete(pending) => {}
        _ => return None,
    }
    let pending = o.take().unwrap();
    Some(s.into_idle(pending))
}
