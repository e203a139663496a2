//! Transfers: tickets that are submitted, refused, discarded and reaped.

ghost use Rattle.std.specs.Prelude.{◌≡◌, ◌+◌, ◌*◌, ◌^◌, ◌<◌, ◌≤◌, ◌∷◌, length, max, true, vec_len, vec_capacity, Some, List, OnOk, OnErr, IfOk, IfErr, IfSome};
ghost use Rattle.usb_kernel.specs.Tickets.{tickets};
ghost use Rattle.usb_kernel_devices.specs.Errnos.{IsErrno};
ghost use Rattle.usb_kernel.specs.Submissions.{submit_event, IsWhole};
ghost use Rattle.usb_kernel.specs.declared.event.Event.{Event};
ghost use Rattle.usb_kernel.specs.Deadlines.{KeepsDeadlines};
ghost use Rattle.usb_kernel.specs.Completions.{reapable};
ghost use Rattle.usb_kernel.specs.Submits.{submit_refusal, submit_result, after_submit, armed_after_submit, refuse_result, after_refuse, number_of};
ghost use Rattle.usb_kernel.specs.Steps.{after_reap, after_discard};
ghost use Rattle.usb_kernel.specs.Timers.{timer_turned};
ghost use Rattle.usb_kernel.specs.Overdue.{overdue_count};
ghost use Rattle.usb_kernel.specs.TableState.{has_entry};

use crate::errno;
use crate::event::Event;
use crate::journal::put;
use crate::kernel::Kernel;
use crate::looks::Steps;
use crate::once::{discard_with, reap_with, submit_with, timer_turn_with};
use crate::submission::{Done, Submission, Submitted};
use crate::table::TicketTable;
use crate::timer::{add_deadline, discard_due, discard_ticket, forget_deadline};
use std::alloc::Global;
use std::collections::BTreeSet;
use std::marker::Brand;
use std::sync::ledger::{Blank, Ledger};
use usb_desc::NoMemory;
use usb_kernel_devices::{KernelCall, plugged};

/// Makes room for these places and three more, and for four places per ticket with one more ticket.
fn make_room(journal: &mut Vec<Event>, places: usize, count: usize) -> Result<(), NoMemory>
    ensures items { journal.new.items ≡ journal.old.items }
    ensures len { vec_len journal.new ≡ vec_len journal.old }
    ensures capacity { vec_capacity journal.old ≤ vec_capacity journal.new }
    ensures room { OnOk result (vec_len journal.new + places + 3 ≤ vec_capacity journal.new) }
    ensures four { OnOk result (4 * (count + 1) ≤ vec_capacity journal.new) }
    ensures small { OnOk result (4 * (count + 1) < 2 ^ 64) }
{
    let Some(more) = places.checked_add(3) else {
        return Err(NoMemory);
    };
    let Some(next) = count.checked_add(1) else {
        return Err(NoMemory);
    };
    let Some(four) = next.checked_mul(4) else {
        return Err(NoMemory);
    };
    let more = more.max(four.saturating_sub(journal.len()));
    if journal.reserve(more).is_err() {
        return Err(NoMemory);
    }
    Ok(())
}

/// Makes room for these places and three more, and for the ticket of a submission.
fn make_place(
    journal: &mut Vec<Event>,
    tickets: &mut TicketTable,
    places: usize,
    s: &Submission,
) -> Result<(), NoMemory>
    ensures items { journal.new.items ≡ journal.old.items }
    ensures len { vec_len journal.new ≡ vec_len journal.old }
    ensures capacity { vec_capacity journal.old ≤ vec_capacity journal.new }
    ensures rows { tickets.new.rows ≡ tickets.old.rows }
    ensures ticket { OnOk result (1 ≤ tickets.new.room) }
    ensures opened { OnOk result
        (has_entry tickets.new s.now.device s.now.endpoint ≡ true) }
    ensures room { OnOk result (vec_len journal.new + places + 3 ≤ vec_capacity journal.new) }
    ensures four { OnOk result (4 * (length tickets.old.rows + 1) ≤ vec_capacity journal.new) }
    ensures small { OnOk result (4 * (length tickets.old.rows + 1) < 2 ^ 64) }
{
    make_room(journal, places, tickets.len())?;
    tickets.reserve(s.device, s.endpoint)
}

/// The event of a submission, whose deadline is added.
fn submitted(
    alloc: Global,
    deadlines: &mut BTreeSet<(u64, u64)>,
    s: &Submission,
    ticket: u64,
) -> Result<Event, NoMemory>
    ensures event { IfOk result (λ event. event ≡ submit_event ticket s.now) }
    ensures kept { OnOk result ((past : List Event) → ticket ≡ length (tickets past)
        → KeepsDeadlines past deadlines.old.keys
        → KeepsDeadlines (submit_event (length (tickets past)) s.now ∷ past) deadlines.new.keys) }
    ensures err { OnErr result (deadlines.new.keys ≡ deadlines.old.keys) }
{
    let body = s.body(alloc)?;
    add_deadline(deadlines, s.deadline, ticket)?;
    Ok(s.queued(ticket, body))
}

impl Kernel {
    /// A submission becomes the next ticket, which is refused with 19 where no plugged device has
    /// the number, and else by the first refusal that is armed for it, which is used up. Four times
    /// the ticket's number, plus 3, is a 64-bit number, and so the word of a cell (usb_live) is
    /// one. An `Err` is want of memory, and then nothing has changed.
    pub fn submit(&mut self, s: Submission) -> Result<Submitted, Submission>
        requires whole { IsWhole s }
        ensures submitted { IfOk result
            (λ r. r ≡ submit_result self.old.devices self.old.armed self.old.past s) }
        ensures number { IfOk result (λ r. 4 * number_of r + 3 < 2 ^ 64) }
        ensures past { OnOk result
            (self.new.past ≡ after_submit self.old.devices self.old.armed self.old.past s) }
        ensures armed { OnOk result
            (self.new.armed ≡ armed_after_submit self.old.devices self.old.armed s) }
        ensures known { OnOk result
            (IfSome (submit_refusal self.old.devices self.old.armed s.device) IsErrno) }
        ensures rest { self.new ≡ record self.old { past = self.new.past; armed = self.new.armed } }
        ensures err { OnErr result (self.new ≡ self.old) }
        ensures back { IfErr result (λ back. back ≡ s) }
    {
        submit_with::<Brand>(self, s, Blank::new(1))
    }

    /// A submission becomes the next ticket, refused as above or not.
    pub(crate) fn submit_counted<L: Ledger>(
        &mut self,
        s: Submission,
        steps: &mut Steps<L>,
    ) -> Result<Submitted, Submission>
        requires whole { IsWhole s }
        ensures submitted { IfOk result
            (λ r. r ≡ submit_result self.old.devices self.old.armed self.old.past s) }
        ensures number { IfOk result (λ r. 4 * number_of r + 3 < 2 ^ 64) }
        ensures past { OnOk result
            (self.new.past ≡ after_submit self.old.devices self.old.armed self.old.past s) }
        ensures armed { OnOk result
            (self.new.armed ≡ armed_after_submit self.old.devices self.old.armed s) }
        ensures known { OnOk result
            (IfSome (submit_refusal self.old.devices self.old.armed s.device) IsErrno) }
        ensures rest { self.new ≡ record self.old { past = self.new.past; armed = self.new.armed } }
        ensures err { OnErr result (self.new ≡ self.old) }
        ensures back { IfErr result (λ back. back ≡ s) }
    {
        if plugged(&self.devices, s.device).is_none() {
            return self.refuse(s, errno::NODEV);
        }
        let device = s.device;
        if let Some(errno) = self.armed.errno(device, KernelCall::Submit) {
            let refused = self.refuse(s, errno);
            if refused.is_ok() {
                self.armed.disarm(device, KernelCall::Submit);
            }
            return refused;
        }
        let places = self.spare + self.owed;
        let Ok(()) = make_place(&mut self.journal, &mut self.tickets, places, &s) else {
            return Err(s);
        };
        let next = self.tickets.len() as u64;
        let Ok(event) = submitted(*self.journal.allocator(), &mut self.deadlines, &s, next) else {
            return Err(s);
        };
        let ticket = self.tickets.add(s, steps);
        self.owed += 2;
        put(&mut self.journal, event);
        Ok(Submitted::Queued(ticket))
    }

    /// A submission becomes the next ticket, and is refused at once. Its number is bounded as
    /// that of `submit` is. An `Err` is want of memory, and then nothing has changed.
    pub fn refuse(&mut self, s: Submission, errno: u16) -> Result<Submitted, Submission>
        requires errno { IsErrno errno }
        ensures submitted { IfOk result (λ r. r ≡ refuse_result self.old.past s errno) }
        ensures number { IfOk result (λ r. 4 * number_of r + 3 < 2 ^ 64) }
        ensures past { OnOk result (self.new.past ≡ after_refuse self.old.past s errno) }
        ensures rest { self.new ≡ record self.old { past = self.new.past } }
        ensures err { OnErr result (self.new ≡ self.old) }
        ensures back { IfErr result (λ back. back ≡ s) }
    {
        let places = self.spare + self.owed;
        let Ok(()) = make_place(&mut self.journal, &mut self.tickets, places, &s) else {
            return Err(s);
        };
        let next = self.tickets.len() as u64;
        let Ok(event) = s.refused(*self.journal.allocator(), next, errno) else {
            return Err(s);
        };
        let done = self.tickets.add_refused(s, errno);
        put(&mut self.journal, event);
        Ok(Submitted::Refused(done))
    }

    /// Discards a ticket that is not finished, with errno 2.
    pub fn discard(&mut self, ticket: u64)
        ensures past { self.new.past ≡ after_discard self.old.past ticket }
        ensures rest { self.new ≡ record self.old { past = self.new.past } }
    {
        discard_with::<Brand>(self, ticket, Blank::new(1));
    }

    /// The turn of the timer: it discards the tickets that are not finished and whose deadline is
    /// at most the clock, in the order of their deadlines and then of their numbers. It takes no
    /// memory.
    pub fn timer_turn(&mut self)
        ensures past { self.new.past ≡ timer_turned self.old.clock self.old.past }
        ensures rest { self.new ≡ record self.old { past = self.new.past } }
    {
        timer_turn_with::<Brand>(self, Blank::new(1));
    }

    /// The turn of the timer, with three look-ups for each ticket that it may have to look at.
    pub(crate) fn turn_timer<L: Ledger>(&mut self, steps: &mut Steps<L>)
        ensures past { self.new.past ≡ timer_turned self.old.clock self.old.past }
        ensures rest { self.new ≡ record self.old { past = self.new.past } }
        ensures looks { steps.new ≤ steps.old + 3 * overdue_count self.old.clock self.old.past }
    {
        self.owed -= discard_due(
            &mut self.journal,
            &mut self.tickets,
            &mut self.deadlines,
            self.clock,
            steps,
        );
    }

    /// Discards a ticket that is not finished, with three look-ups.
    pub(crate) fn discard_counted<L: Ledger>(&mut self, ticket: u64, steps: &mut Steps<L>)
        ensures past { self.new.past ≡ after_discard self.old.past ticket }
        ensures rest { self.new ≡ record self.old { past = self.new.past } }
        ensures looks { steps.new ≤ steps.old + 3 }
    {
        self.owed -= discard_ticket(
            &mut self.journal,
            &mut self.tickets,
            &mut self.deadlines,
            ticket,
            steps,
        );
    }

    /// The completion of a ticket that is finished and not reaped.
    pub fn reap(&mut self, ticket: u64) -> Option<Done>
        ensures done { result ≡ reapable self.old.past ticket }
        ensures past { self.new.past ≡ after_reap self.old.past ticket }
        ensures rest { self.new ≡ record self.old { past = self.new.past } }
    {
        reap_with::<Brand>(self, ticket, Blank::new(1))
    }

    /// The completion of a ticket that is finished and not reaped, with three look-ups.
    pub(crate) fn reap_ticket<L: Ledger>(
        &mut self,
        ticket: u64,
        steps: &mut Steps<L>,
    ) -> Option<Done>
        ensures done { result ≡ reapable self.old.past ticket }
        ensures past { self.new.past ≡ after_reap self.old.past ticket }
        ensures rest { self.new ≡ record self.old { past = self.new.past } }
        ensures looks { steps.new ≤ steps.old + 3 }
    {
        let (done, deadline) = self.tickets.take_finished(ticket, steps)?;
        forget_deadline(&mut self.deadlines, deadline, ticket);
        self.owed -= 1;
        put(&mut self.journal, Event::Reap { ticket });
        Some(done)
    }
}
