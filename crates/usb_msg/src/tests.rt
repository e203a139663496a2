//! A client over a simulated bus, of which device 0 has bulk endpoints with packets of 64 bytes.
//! Expected values come from the rules of frames and of the simulation.

ghost use Rattle.std.specs.Prelude.{◌≡◌, ◌≤◌, ◌+◌, ◌∷◌, [], IfOk, OnOk};
ghost use Rattle.usb_kernel.specs.Tickets.{tickets};
ghost use Rattle.usb_device_endpoint.specs.KernelBusCalls.{bus_of};
ghost use Rattle.usb_msg.specs.Clients.{StandBoth};

use crate::{MsgClient, MsgError};
use std::alloc::Global;
use std::process::Abort;
use std::test::Fail;
use usb_desc::NoMemory;
use usb_device_endpoint::{Endpoint, KernelBus};
use usb_error::IoKind;
use usb_kernel::{Bytes, Descriptors, Kernel, KernelStep, SimDevice};
use usb_xfer::{Bulk, In, Out};

/// A bus over a kernel with device 0, at address 6 of bus 1, which has no descriptors.
fn new_bus(alloc: Global) -> Result<KernelBus, NoMemory> {
    let device = SimDevice {
        bus: 1,
        address: 6,
        speed: 3,
        config: 1,
        bytes: Descriptors::from_slice(alloc, &[])?,
        drivers: Bytes::from_vec(Vec::new(alloc)),
    };
    match vec![in alloc; (0, device.clone()?)] {
        Ok(devices) => Ok(KernelBus::new(alloc, Kernel::new(alloc, devices)?)),
        Err(_) => Err(NoMemory),
    }
}

/// A client of the bulk endpoints 0x02 and 0x81 of device 0.
fn new_client(alloc: Global, bus: &mut KernelBus) -> Result<MsgClient<Bulk, Bulk>, NoMemory>
    ensures stand { IfOk result (λ c. StandBoth (bus_of bus.new) c) }
    ensures none { IfOk result (λ c. c.requests ≡ 0) }
{
    let out_key = bus.open()?;
    let in_key = bus.open()?;
    let out: Endpoint<Bulk, Out> = Endpoint::new(alloc, 0, 0x02, 64, out_key);
    let inp: Endpoint<Bulk, In> = Endpoint::new(alloc, 0, 0x81, 64, in_key);
    match MsgClient::new(out, inp) {
        Ok(client) => Ok(client),
        Err((out, inp)) => {
            out.close(bus);
            inp.close(bus);
            Err(NoMemory)
        }
    }
}

/// A packet comes to endpoint 0x81. The client's endpoints stand as before.
fn receive(alloc: Global, bus: &mut KernelBus, client: &MsgClient<Bulk, Bulk>, bytes: &[u8]) -> bool
    requires stand { StandBoth (bus_of bus.old) client.now }
    ensures stand { StandBoth (bus_of bus.new) client.now }
{
    let Ok(bytes) = Bytes::from_slice(alloc, bytes) else {
        return false;
    };
    if bus.reserve(1).is_err() {
        return false;
    }
    bus.step(KernelStep::Packet {
        device: 0,
        endpoint: 0x81,
        bytes,
    });
    client.outstanding() > 0
}

/// What a call answers.
#[derive(Clone, Copy, PartialEq, Eq)]
enum Told {
    Tag(u32),
    Body(usize, u8),
    Short(u32),
    WrongTag(u32, u32),
    TimedOut,
    Other,
}

/// The error that a call answers.
fn error_told(error: MsgError) -> Told {
    match error {
        MsgError::Short { len } => Told::Short(len),
        MsgError::WrongTag { expected, got } => Told::WrongTag(expected, got),
        MsgError::Io(fault) if fault.kind == IoKind::TimedOut => Told::TimedOut,
        _ => Told::Other,
    }
}

/// Asks with a body, where few requests were made.
fn ask(bus: &mut KernelBus, client: &mut MsgClient<Bulk, Bulk>, body: &[u8; 2]) -> Told
    requires few { client.old.requests ≤ 1000 }
    requires stand { StandBoth (bus_of bus.old) client.old }
    ensures stand { StandBoth (bus_of bus.new) client.new }
    ensures one { client.new.requests ≤ client.old.requests + 1 }
{
    if client.outstanding() > 2 || client.writer().pending() > 8 {
        return Told::Other;
    }
    match client.request(bus, body) {
        Ok(tag) => Told::Tag(tag),
        Err(error) => error_told(error),
    }
}

/// The length of the next body and its first byte, or 0.
fn next(bus: &mut KernelBus, client: &mut MsgClient<Bulk, Bulk>) -> Told
    requires stand { StandBoth (bus_of bus.old) client.old }
    ensures stand { StandBoth (bus_of bus.new) client.new }
    ensures same { client.new.requests ≡ client.old.requests }
{
    if client.outstanding() == 0 {
        return Told::Other;
    }
    match client.response(bus) {
        Ok(body) => Told::Body(body.len(), body.first().copied().unwrap_or(0)),
        Err(error) => error_told(error),
    }
}

/// Whether two requests are answered in order. A response that has not come is waited for again.
fn are_answered(alloc: Global, bus: &mut KernelBus, client: &mut MsgClient<Bulk, Bulk>) -> bool
    requires none { client.old.requests ≡ 0 }
    requires stand { StandBoth (bus_of bus.old) client.old }
    ensures stand { StandBoth (bus_of bus.new) client.new }
{
    ask(bus, client, &[0xaa, 0xbb]) == Told::Tag(0)
        && ask(bus, client, &[1, 2]) == Told::Tag(1)
        && next(bus, client) == Told::TimedOut
        && receive(alloc, bus, client, &[0, 0, 0, 0, 0xcc])
        && next(bus, client) == Told::Body(1, 0xcc)
        && next(bus, client) == Told::TimedOut
        && receive(alloc, bus, client, &[1, 0, 0, 0])
        && next(bus, client) == Told::Body(0, 0)
        && client.outstanding() == 0
}

/// A message that ends a client, and the error that each call answers from then on.
#[derive(Drop)]
struct End {
    message: &'static [u8],
    told: Told,
}

/// Whether the client ends so.
fn is_ended(
    alloc: Global,
    bus: &mut KernelBus,
    client: &mut MsgClient<Bulk, Bulk>,
    end: &End,
) -> bool
    requires none { client.old.requests ≡ 0 }
    requires stand { StandBoth (bus_of bus.old) client.old }
    ensures stand { StandBoth (bus_of bus.new) client.new }
{
    ask(bus, client, &[0xaa, 0xbb]) == Told::Tag(0)
        && next(bus, client) == Told::TimedOut
        && receive(alloc, bus, client, end.message)
        && next(bus, client) == end.told
        && next(bus, client) == end.told
        && ask(bus, client, &[1, 2]) == end.told
}

/// Compares what a new client on a new bus answers: two responses, or its end.
fn expect(rt: &impl Abort, alloc: Global, end: Option<&End>) -> Result<(), Fail> {
    let mut bus = new_bus(alloc)?;
    let mut client = new_client(alloc, &mut bus)?;
    let is_right = match end {
        None => are_answered(alloc, &mut bus, &mut client),
        Some(end) => is_ended(alloc, &mut bus, &mut client, end),
    };
    client.close(&mut bus);
    assert!(rt; is_right);
    Ok(())
}

#[test]
fn responses_come_in_order(rt: HostRuntime) -> Result<(), Fail> {
    expect(&rt, rt.alloc(), None)
}

#[test]
fn strange_tag_ends_a_client(rt: HostRuntime) -> Result<(), Fail> {
    let end = End {
        message: &[5, 0, 0, 0],
        told: Told::WrongTag(0, 5),
    };
    expect(&rt, rt.alloc(), Some(&end))
}

#[test]
fn short_message_ends_a_client(rt: HostRuntime) -> Result<(), Fail> {
    let end = End {
        message: &[1, 2],
        told: Told::Short(2),
    };
    expect(&rt, rt.alloc(), Some(&end))
}
