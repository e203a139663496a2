//! The stages of a command, and the buffers of their transfers.

ghost use Rattle.std.specs.Prelude.{◌≡◌, ◌<◌, ◌≤◌, ◌^◌, [], length, Ok, IfOk, IfErr};
ghost use Rattle.usb_device_endpoint.specs.Handles.{Stands, KeepsOthers};
ghost use Rattle.usb_bot.specs.Commands.{asks, sends, staged, outcome};
ghost use Rattle.usb_bot.specs.Commands.{status_length as length_of};
ghost use Rattle.usb_bot.specs.Shortages.{StageFails};

use crate::error::BotError;
use usb_device_endpoint::{Bus, Endpoint};
use usb_xfer::{Buffer, Bulk, Completion, EndpointDirection};

/// The greatest timeout, in nanoseconds.
const LONGEST: u64 = 0xffff_ffff_ffff_ffff;

/// A stage: one blocking transfer, without an end in time.
pub(crate) fn stage<D: EndpointDirection, B: Bus>(
    endpoint: &mut Endpoint<Bulk, D>,
    bus: &mut B,
    buf: Buffer,
) -> Result<Completion, BotError>
    requires idle { endpoint.old.pending ≡ [] }
    requires stands { Stands (B.calls.state bus.old) endpoint.old }
    ensures went { IfOk result
        (λ c. staged B.calls endpoint.old buf bus.old ≡ outcome (Ok c) bus.new) }
    ensures failed { IfErr result (StageFails B.calls endpoint.old buf bus.old bus.new) }
    ensures within { IfOk result (λ c. c.actual_len ≤ length c.buffer.bytes) }
    ensures stands { Stands (B.calls.state bus.new) endpoint.new }
    ensures others { KeepsOthers (B.calls.state bus.old) (B.calls.state bus.new) endpoint.old.key }
    ensures handles { B.handles_stand bus.old bus.new }
    ensures rest { endpoint.new ≡ endpoint.old }
{
    match endpoint.transfer_blocking(bus, buf, LONGEST) {
        Ok(done) => match done.status {
            Ok(()) => Ok(done),
            Err(error) => Err(BotError::Transfer(error)),
        },
        Err(_) => Err(BotError::Memory),
    }
}

/// A buffer that asks for so many bytes.
pub(crate) fn asking<D: EndpointDirection>(
    endpoint: &Endpoint<Bulk, D>,
    len: usize,
) -> Result<Buffer, BotError>
    requires small { len < 2 ^ 31 }
    ensures asks { IfOk result (λ b. b ≡ asks len) }
    ensures memory { IfErr result (λ e. e ≡ BotError.Memory) }
{
    match endpoint.allocate(len) {
        Ok(buf) => Ok(buf),
        Err(_) => Err(BotError::Memory),
    }
}

/// A buffer that sends a copy of these bytes.
pub(crate) fn sending<D: EndpointDirection>(
    endpoint: &Endpoint<Bulk, D>,
    bytes: &[u8],
) -> Result<Buffer, BotError>
    requires small { length bytes.now < 2 ^ 31 }
    ensures sends { IfOk result (λ b. b ≡ sends bytes.now) }
    ensures memory { IfErr result (λ e. e ≡ BotError.Memory) }
{
    let mut buf = asking(endpoint, bytes.len())?;
    buf.extend_from_slice(bytes);
    Ok(buf)
}

/// How many bytes the transfer of a status asks for: 13, rounded up to whole packets.
#[tactic(auto, using(crate::proofs::Lengths::status_small))]
pub(crate) fn status_length(maximum: usize) -> usize
    requires packets { 0 < maximum }
    requires small { maximum < 2 ^ 11 }
    ensures length { result ≡ length_of maximum }
    ensures small { result < 2 ^ 31 }
{
    (12 / maximum + 1) * maximum
}
