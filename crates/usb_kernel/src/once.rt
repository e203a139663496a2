//! Calls that promise no count of look-ups: each makes a counter of its own, which nobody reads.

ghost use Rattle.std.specs.Prelude.{◌≡◌, ◌+◌, ◌*◌, ◌^◌, ◌<◌, ◌≤◌, List, length, Some, OnOk, OnErr, IfOk, IfErr, IfSome};
ghost use Rattle.usb_kernel.specs.declared.event.Event.{Event};
ghost use Rattle.usb_kernel.specs.Rows.{Agrees};
ghost use Rattle.usb_kernel.specs.Info.{info_of};
ghost use Rattle.usb_kernel.specs.Submissions.{IsWhole};
ghost use Rattle.usb_kernel.specs.Submits.{submit_refusal, submit_result, after_submit, armed_after_submit, number_of};
ghost use Rattle.usb_kernel.specs.Completions.{reapable};
ghost use Rattle.usb_kernel.specs.Timers.{timer_turned};
ghost use Rattle.usb_kernel_devices.specs.Devices.{devices_unplugged};
ghost use Rattle.usb_kernel_devices.specs.Errnos.{IsErrno};
ghost use Rattle.usb_kernel.specs.Steps.{after_discard, after_reap, after_unplug, stepped, step_done, devices_stepped, clock_stepped, armed_stepped, HasErrno};

use crate::kernel::Kernel;
use crate::looks::Steps;
use crate::submission::{Done, Submission, Submitted, TicketInfo};
use crate::table::TicketTable;
use std::marker::Brand;
use std::sync::ledger::{Blank, Ledger};
use usb_kernel_devices::KernelStep;

impl Kernel {
    /// Applies a step as `step` does, for a caller that counts no look-ups.
    pub fn step_once(&mut self, step: KernelStep) -> Option<Done>
        requires spare { 1 ≤ self.old.spare }
        requires errno { HasErrno step }
        ensures past { self.new.past ≡ stepped self.old.devices self.old.clock self.old.past step }
        ensures done { result ≡ step_done self.old.past step }
        ensures devices { self.new.devices ≡ devices_stepped self.old.devices step }
        ensures clock { self.new.clock ≡ clock_stepped self.old.clock step }
        ensures armed { self.new.armed ≡ armed_stepped self.old.armed step }
        ensures spare { self.new.spare + 1 ≡ self.old.spare }
    {
        step_with::<Brand>(self, step, Blank::new(1))
    }
}

/// A step.
fn step_with<L: Ledger>(kernel: &mut Kernel, step: KernelStep, blank: Blank) -> Option<Done>
    requires name { blank.name ≡ L.name }
    requires parts { blank.parts ≡ L.parts }
    requires some { 0 < blank.parts }
    requires spare { 1 ≤ kernel.old.spare }
    requires errno { HasErrno step }
    ensures past { kernel.new.past
        ≡ stepped kernel.old.devices kernel.old.clock kernel.old.past step }
    ensures done { result ≡ step_done kernel.old.past step }
    ensures devices { kernel.new.devices ≡ devices_stepped kernel.old.devices step }
    ensures clock { kernel.new.clock ≡ clock_stepped kernel.old.clock step }
    ensures armed { kernel.new.armed ≡ armed_stepped kernel.old.armed step }
    ensures spare { kernel.new.spare + 1 ≡ kernel.old.spare }
{
    let mut steps = Steps::<L>::new(blank);
    kernel.step(step, &mut steps)
}

/// A device is gone.
pub(crate) fn unplug_with<L: Ledger>(kernel: &mut Kernel, device: u8, blank: Blank)
    requires name { blank.name ≡ L.name }
    requires parts { blank.parts ≡ L.parts }
    requires some { 0 < blank.parts }
    requires spare { 1 ≤ kernel.old.spare }
    ensures past { kernel.new.past ≡ after_unplug kernel.old.devices kernel.old.past device }
    ensures devices { kernel.new.devices ≡ devices_unplugged kernel.old.devices device }
    ensures spare { kernel.new.spare + 1 ≡ kernel.old.spare }
    ensures rest { kernel.new ≡ record kernel.old
        { past = kernel.new.past; devices = kernel.new.devices; spare = kernel.new.spare } }
{
    let mut steps = Steps::<L>::new(blank);
    kernel.unplug(device, &mut steps);
}

/// A submission becomes the next ticket.
pub(crate) fn submit_with<L: Ledger>(
    kernel: &mut Kernel,
    s: Submission,
    blank: Blank,
) -> Result<Submitted, Submission>
    requires name { blank.name ≡ L.name }
    requires parts { blank.parts ≡ L.parts }
    requires some { 0 < blank.parts }
    requires whole { IsWhole s }
    ensures submitted { IfOk result
        (λ r. r ≡ submit_result kernel.old.devices kernel.old.armed kernel.old.past s) }
    ensures number { IfOk result (λ r. 4 * number_of r + 3 < 2 ^ 64) }
    ensures past { OnOk result (kernel.new.past
        ≡ after_submit kernel.old.devices kernel.old.armed kernel.old.past s) }
    ensures armed { OnOk result
        (kernel.new.armed ≡ armed_after_submit kernel.old.devices kernel.old.armed s) }
    ensures known { OnOk result
        (IfSome (submit_refusal kernel.old.devices kernel.old.armed s.device) IsErrno) }
    ensures rest { kernel.new
        ≡ record kernel.old { past = kernel.new.past; armed = kernel.new.armed } }
    ensures err { OnErr result (kernel.new ≡ kernel.old) }
    ensures back { IfErr result (λ back. back ≡ s) }
{
    let mut steps = Steps::<L>::new(blank);
    kernel.submit_counted(s, &mut steps)
}

/// A ticket is discarded.
pub(crate) fn discard_with<L: Ledger>(kernel: &mut Kernel, ticket: u64, blank: Blank)
    requires name { blank.name ≡ L.name }
    requires parts { blank.parts ≡ L.parts }
    requires some { 0 < blank.parts }
    ensures past { kernel.new.past ≡ after_discard kernel.old.past ticket }
    ensures rest { kernel.new ≡ record kernel.old { past = kernel.new.past } }
{
    let mut steps = Steps::<L>::new(blank);
    kernel.discard_counted(ticket, &mut steps);
}

/// The timer has its turn.
pub(crate) fn timer_turn_with<L: Ledger>(kernel: &mut Kernel, blank: Blank)
    requires name { blank.name ≡ L.name }
    requires parts { blank.parts ≡ L.parts }
    requires some { 0 < blank.parts }
    ensures past { kernel.new.past ≡ timer_turned kernel.old.clock kernel.old.past }
    ensures rest { kernel.new ≡ record kernel.old { past = kernel.new.past } }
{
    let mut steps = Steps::<L>::new(blank);
    kernel.turn_timer(&mut steps);
}

/// A ticket is reaped.
pub(crate) fn reap_with<L: Ledger>(kernel: &mut Kernel, ticket: u64, blank: Blank) -> Option<Done>
    requires name { blank.name ≡ L.name }
    requires parts { blank.parts ≡ L.parts }
    requires some { 0 < blank.parts }
    ensures done { result ≡ reapable kernel.old.past ticket }
    ensures past { kernel.new.past ≡ after_reap kernel.old.past ticket }
    ensures rest { kernel.new ≡ record kernel.old { past = kernel.new.past } }
{
    let mut steps = Steps::<L>::new(blank);
    kernel.reap_ticket(ticket, &mut steps)
}

/// What is known of a ticket.
pub(crate) fn info_with<L: Ledger>(table: &TicketTable, ticket: u64, blank: Blank) -> TicketInfo
    requires name { blank.name ≡ L.name }
    requires parts { blank.parts ≡ L.parts }
    requires some { 0 < blank.parts }
    requires below { ticket < length table.now.rows }
    ensures info { (past : List Event) → Agrees past table.now.rows
        → info_of past ticket ≡ Some result }
{
    let mut steps = Steps::<L>::new(blank);
    table.info_at(ticket, &mut steps)
}
