//! The LEDs of a boot keyboard, set by a control transfer: a driver to be copied.
#![tactic(auto)]

ghost use Rattle.std.specs.Prelude.{true, IfOk, []};
ghost use Rattle.std.specs.Option.{ForSome};
ghost use Rattle.usb_error.specs.Outcomes.{Tried, result_map};
ghost use Rattle.usb_device_tables.specs.History.{value_at};
ghost use Rattle.usb_device.specs.ControlCalls.{Answers, control_answered};
ghost use Rattle.usb_device.specs.InterfaceAnswers.{interface_answer};
ghost use Rattle.usb_device_host.specs.HandleStates.{StandsInterface};
ghost use Rattle.example_leds.specs.Leds.{led_request};

use std::marker::Model;
use usb_device::{
    ControlOut, ControlType, Device, Error, Fail, Host, Interface, Recipient, TransferError,
};

#[cfg(test)]
mod tests;

/// A boot keyboard that is open. `close` spends it.
pub struct Keyboard {
    interface: Interface,
}

impl Model for Keyboard {
    ghost use Rattle.usb_device_host.specs.HandleStates.{InterfaceState};

    ghost Value = { InterfaceState };

    ghost view = { λ k. k.interface };
}

impl Keyboard {
    /// Opens the keyboard at an address of a bus.
    ///
    /// # Errors
    ///
    /// The first refusal, of the device or of the claim of its interface; want of memory.
    pub fn open(host: &mut Host, bus: u8, address: u8) -> Result<Keyboard, Fail<Error>>
        ensures tried { Tried (result_map (λ _. tt) result)
            (interface_answer host.old bus address 0 true) }
        ensures stands { IfOk result (StandsInterface host.new) }
    {
        let device = Device::open_at(host, bus, address)?;
        let interface = device.detach_and_into_interface(host, 0)?;
        Ok(Keyboard { interface })
    }

    /// Lights the LEDs of these bits, and puts out the others.
    pub fn set_leds(&self, host: &mut Host, leds: u8) -> Result<(), Fail<TransferError>>
        requires stands { StandsInterface host.old self.now }
        ensures answer { ForSome (value_at host.old.interfaces self.now.key) (λ c.
            Answers (result_map (λ _. []) result)
            (control_answered host.old c.device (led_request leds) 1000000000)) }
        ensures stands { StandsInterface host.new self.now }
    {
        let setup = ControlOut {
            control_type: ControlType::Class,
            recipient: Recipient::Interface,
            request: 9,
            value: 0x0200,
            index: 0,
            bytes: &[leds],
        };
        self.interface.control_out(host, setup, 1_000_000_000)
    }

    /// Closes the keyboard.
    pub fn close(self, host: &mut Host)
        requires stands { StandsInterface host.old self }
    {
        let Keyboard { interface } = self;
        interface.close(host);
    }
}
