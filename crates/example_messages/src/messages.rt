//! The endpoints of a device that answers messages.

ghost use Rattle.std.specs.Prelude.{◌≡◌, [], IfOk, IfErr, OnOk, OnErr};
ghost use Rattle.usb_device_endpoint.specs.Handles.{Stands, KeepsOthers};
ghost use Rattle.usb_device_host.specs.HostBus.{bus_of};
ghost use Rattle.usb_device_host.specs.HandleStates.{StandsInterface};
ghost use Rattle.example_messages.specs.Restarts.{ClearsHalt, BothCleared, OneRefused};
ghost use Rattle.example_messages.specs.Endpoints.{fresh_messages, IsFresh, IsSettled, IsOpen, BothStand, IsClosed, BothClosed, IsSame, KeepsEndpoints, OthersStand, StandBeside};

use std::marker::Model;
use usb_device::{
    Bulk, Device, Endpoint, EndpointDirection, Error, Fail, Host, In, Interface, Out,
};
use usb_io::{EndpointRead, EndpointWrite};

/// The interface of the device.
const INTERFACE: u8 = 0;

/// The endpoint that requests go to.
const OUTPUT: u8 = 0x02;

/// The endpoint that answers come from.
const INPUT: u8 = 0x81;

/// The bytes of a transfer, which is rounded up to whole packets.
const TRANSFER_SIZE: usize = 512;

/// How long a transfer is waited for, in nanoseconds.
const TIMEOUT: u64 = 10_000_000_000;

/// A device that answers messages: a writer of its bulk OUT endpoint and a reader of its bulk IN
/// endpoint. The two own the claim of its interface.
///
/// ```
/// let mut messages = Messages::open(host, 1, 6)?;
/// let answer = messages.ask(host, request);
/// messages.close(host);
/// ```
pub struct Messages {
    pub(crate) reader: EndpointRead<Bulk>,
    pub(crate) writer: EndpointWrite<Bulk>,
}

impl Model for Messages {
    ghost use Rattle.example_messages.specs.Endpoints.{MessagesState};

    ghost Value = { MessagesState };

    ghost view = { λ m. record { reader = m.reader; writer = m.writer } };
}

impl Messages {
    /// Opens the device at an address of a bus, claims its interface, and opens both endpoints.
    ///
    /// # Errors
    ///
    /// Those of opening the device, its interface and its endpoints, and want of memory. What was
    /// opened before is closed then. (No clause says so, nor which error comes. The compiler refuses
    /// a path that leaves a handle.)
    pub fn open(host: &mut Host, bus: u8, address: u8) -> Result<Messages, Fail<Error>>
        ensures fresh { IfOk result IsFresh }
        ensures settled { IfOk result IsSettled }
        ensures stands { IfOk result (IsOpen (bus_of host.new)) }
    {
        let interface = Device::open_at(host, bus, address)?.into_interface(host, INTERFACE)?;
        match interface.endpoint::<Bulk, In>(host, INPUT) {
            Ok(input) => Messages::with_input(host, interface, input),
            Err(error) => {
                interface.close(host);
                Err(error)
            }
        }
    }

    /// Opens the OUT endpoint beside the IN endpoint.
    fn with_input(
        host: &mut Host,
        interface: Interface,
        input: Endpoint<Bulk, In>,
    ) -> Result<Messages, Fail<Error>>
        requires interface { StandsInterface host.old interface }
        requires input { Stands (bus_of host.old) input }
        requires none { input.pending ≡ [] }
        ensures fresh { IfOk result IsFresh }
        ensures settled { IfOk result IsSettled }
        ensures stands { IfOk result (IsOpen (bus_of host.new)) }
    {
        match interface.into_endpoint::<Bulk, Out>(host, OUTPUT) {
            Ok(output) => Ok(Messages::over(input, output)),
            Err(error) => {
                input.close(host);
                Err(error)
            }
        }
    }

    /// A reader and a writer over these endpoints.
    fn over(input: Endpoint<Bulk, In>, output: Endpoint<Bulk, Out>) -> Messages
        ensures fresh { result ≡ fresh_messages input output }
    {
        Messages {
            reader: EndpointRead::new(input, TRANSFER_SIZE).with_read_timeout(TIMEOUT),
            writer: EndpointWrite::new(output, TRANSFER_SIZE).with_write_timeout(TIMEOUT),
        }
    }

    /// Begins anew after a fault: cancels what is on its way, drops what came of an answer, and
    /// clears the halts of both endpoints.
    ///
    /// # Errors
    ///
    /// A halt is not cleared, as that of a device that is gone. Both endpoints are closed then.
    ///
    /// # Not claimed
    ///
    /// That each transfer that was cancelled comes back within `TIMEOUT`. While one is pending
    /// requests are refused with `Fault::Unsettled`.
    pub fn restart(self, host: &mut Host) -> Result<Messages, Error>
        requires stands { IsOpen (bus_of host.old) self }
        ensures fresh { IfOk result IsFresh }
        ensures same { IfOk result (KeepsEndpoints self) }
        ensures stands { IfOk result (IsOpen (bus_of host.new)) }
        ensures cleared { OnOk result
            (BothCleared host.new self.reader.endpoint self.writer.endpoint) }
        ensures refused { IfErr result
            (OneRefused self.reader.endpoint self.writer.endpoint) }
        ensures closed { OnErr result (IsClosed host.new self) }
        ensures others { StandBeside (bus_of host.old) (bus_of host.new) self }
    {
        let Messages { reader, writer } = self;
        let mut input = reader.into_inner();
        let mut output = writer.into_inner();
        match restart_both(host, &mut input, &mut output) {
            Ok(()) => Ok(Messages::over(input, output)),
            Err(error) => {
                close_both(host, input, output);
                Err(error)
            }
        }
    }

    /// Closes both endpoints, and with them ends the claim of the interface.
    pub fn close(self, host: &mut Host)
        requires stands { IsOpen (bus_of host.old) self }
        ensures closed { IsClosed host.new self }
        ensures others { StandBeside (bus_of host.old) (bus_of host.new) self }
    {
        let Messages { reader, writer } = self;
        close_both(host, reader.into_inner(), writer.into_inner());
    }
}

/// Closes both endpoints.
fn close_both(host: &mut Host, input: Endpoint<Bulk, In>, output: Endpoint<Bulk, Out>)
    requires stand { BothStand (bus_of host.old) input output }
    ensures closed { BothClosed host.new input output }
    ensures others { OthersStand (bus_of host.old) (bus_of host.new) input output }
{
    input.close(host);
    output.close(host);
}

/// Restarts both endpoints.
fn restart_both(
    host: &mut Host,
    input: &mut Endpoint<Bulk, In>,
    output: &mut Endpoint<Bulk, Out>,
) -> Result<(), Error>
    requires stand { BothStand (bus_of host.old) input.old output.old }
    ensures stand { BothStand (bus_of host.new) input.new output.new }
    ensures input { IsSame input.old input.new }
    ensures output { IsSame output.old output.new }
    ensures cleared { OnOk result (BothCleared host.new input.old output.old) }
    ensures refused { IfErr result (OneRefused input.old output.old) }
    ensures others { OthersStand (bus_of host.old) (bus_of host.new) input.old output.old }
{
    restart_endpoint(host, input)?;
    restart_endpoint(host, output)
}

/// Cancels and takes what is pending at an endpoint, and clears its halt.
fn restart_endpoint<D: EndpointDirection>(
    host: &mut Host,
    endpoint: &mut Endpoint<Bulk, D>,
) -> Result<(), Error>
    requires stands { Stands (bus_of host.old) endpoint.old }
    ensures stands { Stands (bus_of host.new) endpoint.new }
    ensures same { IsSame endpoint.old endpoint.new }
    ensures clears { ClearsHalt host.new endpoint.old result }
    ensures others { KeepsOthers (bus_of host.old) (bus_of host.new) endpoint.old.key }
{
    endpoint.cancel_all(host);
    'tickets: while endpoint.pending() > 0 {
        if endpoint.wait_next_complete(host, TIMEOUT).is_none() {
            break;
        }
    }
    endpoint.clear_halt(host)
}
