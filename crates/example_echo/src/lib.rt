//! A driver that keeps two endpoints, of a device that sends back what it is sent: to be copied.
#![tactic(auto)]

ghost use Rattle.std.specs.Prelude.{◌≡◌, ◌<◌, ◌^◌, false, [], length, IfOk, OnOk};
ghost use Rattle.std.specs.Option.{ForSome};
ghost use Rattle.usb_error.specs.Outcomes.{Tried, result_map};
ghost use Rattle.usb_device_endpoint.specs.Handles.{Stands};
ghost use Rattle.usb_device_endpoint.specs.Closes.{after_close};
ghost use Rattle.usb_device_tables.specs.History.{value_at};
ghost use Rattle.usb_device_host.specs.HostBus.{bus_of};
ghost use Rattle.usb_device_host.specs.HandleStates.{StandsInterface};
ghost use Rattle.usb_device_host.specs.HostCalls.{host_calls};
ghost use Rattle.usb_device.specs.InterfaceAnswers.{interface_answer};
ghost use Rattle.example_echo.specs.Claims.{claimed, claimed_as};
ghost use Rattle.example_echo.specs.Exchanges.{Exchanges};
ghost use Rattle.example_echo.specs.Opening.{echo_answer, endpoints_answer, out_answer};
ghost use Rattle.example_echo.specs.Pipes.{BothStand};

mod packet;

pub use packet::read_packet;
use std::marker::Model;
use usb_device::{
    Buffer, Bulk, Device, Endpoint, Error, Fail, Host, In, Interface, Out, TransferError,
};

#[cfg(test)]
mod tests;

/// A second in nanoseconds.
const SECOND: u64 = 1_000_000_000;

/// A device that is open. `close` spends it.
pub struct Echo {
    input: Endpoint<Bulk, In>,
    output: Endpoint<Bulk, Out>,
}

impl Model for Echo {
    ghost use Rattle.usb_device_host.specs.HandleStates.{StandsInterface};
    ghost use Rattle.example_echo.specs.Pipes.{EchoState};

    ghost Value = { EchoState };

    ghost view = { λ e. record { input = e.input; output = e.output } };
}

/// Opens the device at an address of a bus, and claims its interface 0.
fn claim(host: &mut Host, bus: u8, address: u8) -> Result<Interface, Fail<Error>>
    ensures tried { Tried (result_map (λ _. tt) result)
        (interface_answer host.old bus address 0 false) }
    ensures host { OnOk result (host.new ≡ claimed host.old bus address) }
    ensures key { IfOk result (λ i. i.key ≡ claimed_as host.old bus address) }
    ensures stands { IfOk result (StandsInterface host.new) }
{
    let device = Device::open_at(host, bus, address)?;
    let interface = device.into_interface(host, 0)?;
    Ok(interface)
}

impl Echo {
    /// Opens the device at an address of a bus, and both of its endpoints.
    ///
    /// # Errors
    ///
    /// The first refusal: of the device, of the claim of its interface, or of an endpoint. Want of
    /// memory.
    pub fn open(host: &mut Host, bus: u8, address: u8) -> Result<Echo, Fail<Error>>
        ensures tried { Tried (result_map (λ _. tt) result) (echo_answer host.old bus address) }
        ensures stand { IfOk result (BothStand (bus_of host.new)) }
    {
        let interface = claim(host, bus, address)?;
        Echo::with_interface(host, interface)
    }

    /// Opens both endpoints of an interface.
    fn with_interface(host: &mut Host, interface: Interface) -> Result<Echo, Fail<Error>>
        requires interface { StandsInterface host.old interface }
        ensures tried { Tried (result_map (λ _. tt) result)
            (endpoints_answer host.old interface.key (value_at host.old.interfaces interface.key)) }
        ensures stand { IfOk result (BothStand (bus_of host.new)) }
    {
        match interface.endpoint::<Bulk, In>(host, 0x81) {
            Ok(input) => Echo::with_input(host, interface, input),
            Err(error) => {
                interface.close(host);
                Err(error)
            }
        }
    }

    /// Opens the OUT endpoint beside the IN endpoint.
    fn with_input(
        host: &mut Host,
        interface: Interface,
        input: Endpoint<Bulk, In>,
    ) -> Result<Echo, Fail<Error>>
        requires interface { StandsInterface host.old interface }
        requires input { Stands (bus_of host.old) input }
        requires none { input.pending ≡ [] }
        ensures tried { ForSome (value_at host.old.interfaces interface.key) (λ c.
            Tried (result_map (λ e. e.output.maximum) result)
            (out_answer host.old interface.key c)) }
        ensures stand { IfOk result (BothStand (bus_of host.new)) }
    {
        match interface.into_endpoint::<Bulk, Out>(host, 0x02) {
            Ok(output) => Ok(Echo { input, output }),
            Err(error) => {
                input.close(host);
                Err(error)
            }
        }
    }

    /// Sends a packet, and gives the one that comes back.
    ///
    /// # Errors
    ///
    /// The error of the first transfer that fails. One that isn't done after a second is cancelled.
    /// Want of memory, with nothing sent or with the packet sent.
    pub fn exchange(
        &mut self,
        host: &mut Host,
        packet: &[u8],
    ) -> Result<Vec<u8>, Fail<TransferError>>
        requires small { length packet.now < 2 ^ 31 }
        requires stand { BothStand (bus_of host.old) self.old }
        ensures exchanges { Exchanges host.old host.new self.old packet.now
            (result_map (λ bytes. bytes.items) result) }
        ensures stand { BothStand (bus_of host.new) self.new }
        ensures rest { self.new ≡ self.old }
    {
        let packet = Buffer::from_slice(host.allocator(), packet)?;
        let room = self.input.allocate(self.input.max_packet_size())?;
        let Ok(sent) = self.output.transfer_blocking(host, packet, SECOND) else {
            return Err(Fail::Memory);
        };
        if let Err(error) = sent.status {
            return Err(Fail::Cause(error));
        }
        match self.input.transfer_blocking(host, room, SECOND) {
            Ok(answer) => match answer.status {
                Ok(()) => Ok(answer.buffer.into_vec()),
                Err(error) => Err(Fail::Cause(error)),
            },
            Err(_) => Err(Fail::Memory),
        }
    }

    /// Closes both endpoints.
    pub fn close(self, host: &mut Host)
        requires stand { BothStand (bus_of host.old) self }
        ensures closed { host.new ≡ after_close host_calls
            (after_close host_calls host.old self.input) self.output }
    {
        let Echo { input, output } = self;
        input.close(host);
        output.close(host);
    }
}
