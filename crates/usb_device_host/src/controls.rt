//! Control transfers at a host: USB 2.0, section 9.3.

ghost use Rattle.std.specs.Prelude.{◌≡◌, ◌<◌, ◌^◌, length, true, Some, None, IfOk, IfSome, IfNone, OnOk, OnErr, IsSome};
ghost use Rattle.std.specs.Option.{ForSome};
ghost use Rattle.usb_desc.specs.declared.types.TransferType.TheVariants.{Control};
ghost use Rattle.usb_xfer.specs.declared.transfer.Held.{Held};
ghost use Rattle.usb_xfer.specs.Transfers.{IsRequest, setup_held, data_held};
ghost use Rattle.usb_kernel.specs.Tickets.{tickets};
ghost use Rattle.usb_device_tables.specs.History.{value_at};
ghost use Rattle.usb_kernel.specs.TransferCompletions.{transfer_completion};
ghost use Rattle.usb_kernel.specs.Timers.{deadline_after};
ghost use Rattle.usb_device_host.specs.HostBus.{owner_at, key_at};
ghost use Rattle.usb_device_host.specs.HostCalls.{host_left};
ghost use Rattle.usb_device_host.specs.TicketEnds.{host_taken};
ghost use Rattle.usb_device_host.specs.Controls.{request_started};

use crate::host::{Host, ticket_from};
use usb_desc::NoMemory;
use usb_device_tables::Key;
use usb_kernel::{Submission, deadline_after};
use usb_xfer::{Completion, Pending, TransferData, take_completed_from_option};

/// What is handed in to the kernel of a control transfer, which holds nothing then.
fn submission_from(request: &mut TransferData, device: u8, deadline: u64) -> Submission
    requires request { IsRequest request.old }
    ensures submission { result ≡ record {
      device = device;
      endpoint = request.old.endpoint;
      kind = request.old.kind;
      maximum = (data_held request.old.held).requested;
      deadline = Some deadline;
      setup = setup_held request.old.held;
      buffer = data_held request.old.held;
    } }
    ensures rest { request.new ≡ record request.old { held = Held.Nothing } }
{
    let (setup, buffer) = request.take_request();
    Submission {
        device,
        endpoint: request.endpoint,
        kind: request.kind,
        maximum: buffer.requested_len(),
        deadline: Some(deadline),
        setup: Some(setup),
        buffer,
    }
}

/// A control transfer that was handed in: the key of its endpoint, its ticket and its deadline.
#[derive(Clone, Copy)]
pub struct StartedControl {
    pub key: usize,
    pub ticket: u64,
    pub deadline: u64,
}

impl Host {
    /// The number of an open device at the kernel.
    pub fn device_number(&self, device: Key) -> u8
        requires device { IsSome (value_at self.now.devices device.serial) }
        ensures number { ForSome (value_at self.now.devices device.serial) (λ o.
            result ≡ o.device) }
    {
        self.devices.get(device).device
    }

    /// That of the device of a claimed interface.
    pub fn device_number_of(&self, interface: Key) -> u8
        requires interface { IsSome (value_at self.now.interfaces interface.serial) }
        ensures number { ForSome (value_at self.now.interfaces interface.serial) (λ c.
            result ≡ c.device) }
    {
        self.ledger.device(interface)
    }

    /// Hands a control transfer in to a device. It has a control endpoint of its own, of no
    /// interface, which has the next key and holds its ticket, refused or not. A ticket that is not
    /// refused has the deadline. An `Err` is want of memory, and then nothing has changed.
    pub fn start_control(
        &mut self,
        device: u8,
        request: TransferData,
        timeout: u64,
    ) -> Result<StartedControl, NoMemory>
        requires request { IsRequest request }
        requires kind { request.kind ≡ Control }
        ensures control { IfOk result (λ control. control ≡ record {
          key = length self.old.endpoints;
          ticket = length (tickets self.old.kernel.past);
          deadline = deadline_after self.old.kernel.clock timeout;
        }) }
        ensures count { length self.old.tickets ≡ length (tickets self.old.kernel.past) }
        ensures ok { OnOk result (self.new ≡ request_started self.old device request timeout) }
        ensures err { OnErr result (self.new ≡ self.old) }
    {
        let mut transfer = request;
        let deadline = deadline_after(self.kernel.now(), timeout);
        self.ledger.reserve()?;
        let key = self.ledger.open_control(transfer.endpoint)?;
        let submission = submission_from(&mut transfer, device, deadline);
        match self.kernel.submit(submission) {
            Ok(submitted) => {
                let entry = ticket_from(submitted);
                transfer.held = entry.held;
                self.ledger.hold(key, transfer);
                Ok(StartedControl {
                    key,
                    ticket: entry.ticket,
                    deadline,
                })
            }
            Err(_) => {
                self.ledger.take_control_back();
                Err(NoMemory)
            }
        }
    }

    /// Takes the completion of a control transfer, where it is there, and closes its endpoint.
    pub fn poll_control(
        &mut self,
        key: usize,
        pending: &mut Option<Pending<TransferData>>,
    ) -> Option<Completion>
        requires some { IsSome pending.old }
        requires held { ForSome pending.old (λ t. owner_at self.old.tickets t ≡ Some key) }
        requires key { key_at self.old.endpoints key ≡ true }
        ensures came { ForSome pending.old (λ t.
            result ≡ transfer_completion self.old.kernel.past t) }
        ensures taken { IfSome result (λ _. ForSome pending.old (λ t.
            self.new ≡ host_left (host_taken self.old t) key)) }
        ensures spent { IfSome result (λ _. pending.new ≡ None) }
        ensures same { IfNone result (self.new ≡ self.old) }
        ensures waits { IfNone result (pending.new ≡ pending.old) }
    {
        let taken = take_completed_from_option(pending, self)?;
        self.leave_endpoint(key);
        let mut transfer = taken.into_inner();
        Some(transfer.take_completion())
    }
}
