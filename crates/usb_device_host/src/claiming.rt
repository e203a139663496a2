//! Interfaces of open devices are claimed, and their handles cloned, closed and released.

ghost use Rattle.std.specs.Prelude.{◌≡◌, ◌-◌, ◌^◌, ◌<◌, length, IsSome, OnOk, OnErr};
ghost use Rattle.std.specs.Option.{ForSome};
ghost use Rattle.usb_kernel_devices.specs.Claims.{ok_unless};
ghost use Rattle.usb_device_host.specs.HostState.{HostState};
ghost use Rattle.usb_device_host.specs.Handles.{handle_cloned, handle_closed};
ghost use Rattle.usb_device_host.specs.InterfaceClaims.{claim_errno, kernel_claimed, claim_tried, claimed_key, host_claimed};
ghost use Rattle.usb_device_host.specs.Owners.{is_shared};
ghost use Rattle.usb_device_host.specs.CallErrors.{Leaves};
ghost use Rattle.usb_error.specs.Outcomes.{Tried, result_map};
ghost use Rattle.usb_device_tables.specs.History.{value_at};
ghost use Rattle.usb_device_tables.specs.declared.registry.Key.{Key};

use crate::host::{Host, release};
use usb_desc::{Fail, NoMemory};
use usb_device_ledger::OpenDevice;
use usb_device_tables::Key;
use usb_error::Error;
use usb_kernel::Kernel;

/// Claims an interface of an open device at the kernel, with its driver detached or as it is.
fn claim_at(kernel: &mut Kernel, opened: &OpenDevice, number: u8, reattach: bool) -> Result<(), u16>
    ensures result { result ≡ ok_unless (claim_errno kernel.old opened.now number reattach) }
    ensures kernel { kernel.new ≡ kernel_claimed kernel.old opened.now number reattach }
{
    if reattach {
        kernel.detach_and_claim(opened.device, number)
    } else {
        kernel.claim(opened.device, number)
    }
}

impl Host {
    /// Claims an interface of an open device (USB 2.0, section 9.2.3), with its driver detached and
    /// to be attached again when the claim ends, or as it is. It has the next key, one handle, and
    /// the setting 0. Its memory is taken before the kernel is asked: where it is wanting nothing
    /// has changed, and where the kernel refuses nothing but that an armed refusal is used up.
    pub fn claim(&mut self, device: Key, number: u8, reattach: bool) -> Result<Key, Fail<Error>>
        requires device { IsSome (value_at self.old.devices device.serial) }
        ensures tried { ForSome (value_at self.old.devices device.serial) (λ o.
            Tried (result_map (λ (key : Key). key.serial) result)
            (claimed_key (length self.old.interfaces) (claim_tried self.old o number reattach))) }
        ensures host { Leaves result self.new (host_claimed self.old device.serial number reattach)
            self.old }
    {
        if !self.devices.has_room(device) {
            return Err(Fail::Memory);
        }
        if self.ledger.reserve_claim().is_err() {
            return Err(Fail::Memory);
        }
        let opened = self.devices.get(device);
        if let Err(errno) = claim_at(&mut self.kernel, opened, number, reattach) {
            return Err(Fail::Cause(Error::claim(errno)));
        }
        let at_kernel = opened.device;
        self.devices.add_interface(device);
        Ok(
            self.ledger
                .open_interface(device, at_kernel, number, reattach),
        )
    }

    /// One more handle of a claimed interface is open, and one more owner. It takes no memory: want
    /// of memory is the answer only where the count of its handles is at its end.
    pub fn clone_handle(&mut self, interface: Key) -> Result<(), NoMemory>
        requires interface { IsSome (value_at self.old.interfaces interface.serial) }
        ensures ok { OnOk result (self.new ≡ handle_cloned self.old interface.serial) }
        ensures err { OnErr result (self.new ≡ self.old) }
        ensures full { OnErr result (ForSome (value_at self.old.interfaces interface.serial) (λ c.
            c.handles ≡ 2 ^ 64 - 1)) }
    {
        self.ledger.add_handle(interface)
    }

    /// A handle of a claimed interface is closed. With the last one it holds its open device no
    /// more, and with the last owner the claim ends.
    pub fn close_handle(&mut self, interface: Key)
        requires interface { IsSome (value_at self.old.interfaces interface.serial) }
        requires open { ForSome (value_at self.old.interfaces interface.serial)
            (λ c. 0 < c.handles) }
        ensures closed { self.new ≡ handle_closed self.old interface.serial }
    {
        let claim = self.ledger.interface(interface);
        self.devices.leave_interface(claim.opened, claim.handles);
        let ended = self.ledger.close_handle(interface);
        release(&mut self.kernel, ended);
    }

    /// Whether a claimed interface has an owner beside one of its handles: another, or an endpoint
    /// that lives.
    pub fn is_shared(&self, interface: Key) -> bool
        requires interface { IsSome (value_at self.now.interfaces interface.serial) }
        ensures shared { ForSome (value_at self.now.interfaces interface.serial) (λ c.
            result ≡ is_shared self.now interface.serial c) }
    {
        self.ledger.is_shared(interface)
    }
}
