//! The driver.

ghost use Rattle.std.specs.Prelude.{◌≡◌, ◌≤◌, ◌<◌, ◌++◌, [], length, vec_len, vec_capacity, IfOk, IfSome, OnOk, OnErr};
ghost use Rattle.usb_error.specs.Outcomes.{Tried, result_map};
ghost use Rattle.usb_kernel.specs.Tickets.{tickets};
ghost use Rattle.usb_device_endpoint.specs.Handles.{Stands};
ghost use Rattle.usb_device_host.specs.HostBus.{bus_of};
ghost use Rattle.example_keyboard.specs.Closing.{LeavesNoneOpen, LeavesOneOpen};
ghost use Rattle.example_keyboard.specs.Opening.{keyboard_answer};
ghost use Rattle.example_keyboard.specs.Reports.{report_of};
ghost use Rattle.example_keyboard.specs.Reading.{brought, last_completion, listed, EndsBy, BringsOne};

use crate::end::End;
use crate::report::Report;
use usb_device::{
    Completion, Device, Endpoint, Error, Fail, Host, In, Interrupt, NoMemory, TransferError,
};

/// The interface of the keyboard.
const INTERFACE: u8 = 0;

/// Its interrupt endpoint.
const ENDPOINT: u8 = 0x81;

/// The bytes of a report.
const REPORT_SIZE: usize = 8;

/// How long a report is waited for, in nanoseconds.
const TIMEOUT: u64 = 10_000_000_000;

/// Reads the reports of the boot keyboard at an address of a bus until it is unplugged, or fails, or
/// says nothing for ten seconds. They come behind those that are there. A packet that is no report is
/// skipped.
///
/// # Errors
///
/// The first refusal: of the device, of the claim of its interface, or of its endpoint. Where nothing
/// is refused, want of memory alone is an error. No report that came is lost then either.
pub fn read_reports(
    host: &mut Host,
    bus: u8,
    address: u8,
    reports: &mut Vec<Report>,
) -> Result<End, Fail<Error>>
    ensures reports { reports.new.items ≡ reports.old.items
        ++ brought host.old.kernel.past host.new.kernel.past }
    ensures end { IfOk result (λ end. EndsBy end (last_completion host.new.kernel.past)) }
    ensures asked { OnOk result
        (length (tickets host.old.kernel.past) < length (tickets host.new.kernel.past)) }
    ensures tried { Tried (result_map (λ _. tt) result) (keyboard_answer host.old bus address) }
    ensures closed { LeavesNoneOpen host.old host.new }
{
    let mut endpoint = open(host, bus, address)?;
    let end = read_all(host, &mut endpoint, reports);
    endpoint.close(host);
    Ok(end?)
}

/// Opens the keyboard's endpoint. Nothing else is left open.
fn open(host: &mut Host, bus: u8, address: u8) -> Result<Endpoint<Interrupt, In>, Fail<Error>>
    ensures past { host.new.kernel.past ≡ host.old.kernel.past }
    ensures tried { Tried (result_map (λ _. tt) result) (keyboard_answer host.old bus address) }
    ensures stands { IfOk result (Stands (bus_of host.new)) }
    ensures fresh { IfOk result (λ e. e.pending ≡ []) }
    ensures input { IfOk result (λ e. 128 ≤ e.address) }
    ensures open { IfOk result (λ e. LeavesOneOpen host.old host.new e.key) }
    ensures refused { OnErr result (LeavesNoneOpen host.old host.new) }
{
    Device::open_at(host, bus, address)?
        .detach_and_into_interface(host, INTERFACE)?
        .into_endpoint(host, ENDPOINT)
}

/// Reads reports, one after another.
fn read_all(
    host: &mut Host,
    endpoint: &mut Endpoint<Interrupt, In>,
    reports: &mut Vec<Report>,
) -> Result<End, NoMemory>
    requires none { endpoint.old.pending ≡ [] }
    requires stands { Stands (bus_of host.old) endpoint.old }
    requires input { 128 ≤ endpoint.old.address }
    ensures reports { reports.new.items ≡ reports.old.items
        ++ brought host.old.kernel.past host.new.kernel.past }
    ensures end { IfOk result (λ end. EndsBy end (last_completion host.new.kernel.past)) }
    ensures asked { OnOk result
        (length (tickets host.old.kernel.past) < length (tickets host.new.kernel.past)) }
    ensures stands { Stands (bus_of host.new) endpoint.new }
    ensures key { endpoint.new.key ≡ endpoint.old.key }
    ensures closed { LeavesNoneOpen host.old host.new }
{
    'reports: loop {
        reports.reserve(1)?;
        let Some(packet) = next_packet(host, endpoint)? else {
            return Ok(End::Silent);
        };
        match packet.status {
            Ok(()) => add_report(packet.buffer.as_slice(), reports),
            Err(TransferError::Disconnected) => return Ok(End::Unplugged),
            Err(error) => return Ok(End::Failed(error)),
        }
    }
}

/// Asks for a packet, and waits for it.
fn next_packet(
    host: &mut Host,
    endpoint: &mut Endpoint<Interrupt, In>,
) -> Result<Option<Completion>, NoMemory>
    requires none { endpoint.old.pending ≡ [] }
    requires stands { Stands (bus_of host.old) endpoint.old }
    requires input { 128 ≤ endpoint.old.address }
    ensures packet { IfOk result (BringsOne host.old host.new) }
    ensures stands { Stands (bus_of host.new) endpoint.new }
    ensures taken { IfOk result (λ found. IfSome found (λ _. endpoint.new ≡ endpoint.old)) }
    ensures key { endpoint.new.key ≡ endpoint.old.key }
    ensures closed { LeavesNoneOpen host.old host.new }
    ensures err { OnErr result (host.new ≡ host.old) }
{
    let buffer = endpoint.allocate(REPORT_SIZE)?;
    let Ok(()) = endpoint.submit(host, buffer) else {
        return Err(NoMemory);
    };
    Ok(endpoint.wait_next_complete(host, TIMEOUT))
}

/// Adds the report that a packet is, if it is one. There is room for it.
fn add_report(packet: &[u8], reports: &mut Vec<Report>)
    requires room { vec_len reports.old < vec_capacity reports.old }
    ensures added { reports.new.items ≡ reports.old.items ++ listed (report_of packet.now) }
{
    if let Some(report) = Report::from_packet(packet) {
        reports.push_reserved(report);
    }
}
