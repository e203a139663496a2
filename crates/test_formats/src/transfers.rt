//! Texts, values of tables from outside, and that allocating calls succeed.

ghost use Rattle.std.specs.Prelude.{◌≡◌};

mod future;
mod notify;

use crate::answers::check;
use std::alloc::AllocError;
use std::test::Fail;
use usb_desc::{ControlIn, ControlOut, ControlType, Direction, NoMemory, Recipient, TransferType};
use usb_xfer::{
    Buffer, Bulk, Completion, Idle, In, Interrupt, KnownDirection, KnownType, Out, TransferData,
    TransferError, buffer_is_send_and_sync,
};

/// Whether a buffer has room for six bytes, of which four are asked for, and holds these five.
fn is_filled(buffer: &Buffer) -> bool {
    buffer.as_slice() == [9, 2, 7, 8, 7].as_slice()
        && buffer.requested_len() == 4
        && buffer.capacity() == 6
        && buffer.remaining_capacity() == 1
        && !buffer.is_empty()
        && !buffer.is_zero_copy()
}

#[test]
fn a_buffer_is_filled_copied_and_cut(rt: HostRuntime) -> Result<(), Fail> {
    let mut buffer = Buffer::new(rt.alloc(), 6)?;
    buffer_is_send_and_sync(&buffer);
    assert!(rt; buffer.is_empty() && !buffer.is_zero_copy());
    buffer.extend_from_slice(&[1, 2]);
    let filled = buffer.extend_fill(3, 7);
    assert!(rt; filled.len() == 3);
    filled[1] = 8;
    buffer.as_mut_slice()[0] = 9;
    buffer.set_requested_len(4);
    let mut copy = buffer.clone()?;
    assert!(rt; is_filled(&copy));
    copy.truncate(2);
    assert!(rt; copy.into_vec().as_slice() == [9, 2].as_slice());
    Ok(())
}

#[test]
fn a_buffer_of_bytes_is_full(rt: HostRuntime) -> Result<(), Fail> {
    let buffer = Buffer::from_slice(rt.alloc(), &[0, 255])?;
    assert!(rt; buffer.capacity() == 2);
    let shown = format!(in rt.alloc(); "{buffer:?}")?;
    assert!(rt; shown.as_str() == "Buffer { len: 2, requested_len: 2, data: [0, 255] }");
    Ok(())
}

/// Errnos, their words and their texts; the same of refused submissions, which nobody cancelled;
/// and an error code that is appended.
const ERRNOS: &str = "\
status 0 = ok
status 2 = cancelled, transfer was cancelled
status 104 = cancelled, transfer was cancelled
status 110 = cancelled, transfer was cancelled
status 32 = stall, endpoint stalled
status 19 = disconnected, device disconnected
status 108 = disconnected, device disconnected
status 71 = fault, hardware fault or protocol violation
status 84 = fault, hardware fault or protocol violation
status 75 = fault, hardware fault or protocol violation
status 70 = fault, hardware fault or protocol violation
status 62 = fault, hardware fault or protocol violation
status 22 = invalid, invalid or unsupported argument
status 12 = unknown:12, unknown (errno 12)
status 4095 = unknown:4095, unknown (errno 4095)
refusal 2 = unknown:2, unknown (errno 2)
refusal 104 = unknown:104, unknown (errno 104)
refusal 110 = unknown:110, unknown (errno 110)
refusal 12 = unknown:12, unknown (errno 12)
refusal 32 = stall, endpoint stalled
refusal 19 = disconnected, device disconnected
refusal 75 = fault, hardware fault or protocol violation
refusal 22 = invalid, invalid or unsupported argument
code 4095 = refused: errno 4095";

#[test]
fn errnos_have_their_errors_and_texts(rt: HostRuntime) -> Result<(), AllocError> {
    check(&rt, ERRNOS)
}

fn shape_of<T: KnownType, D: KnownDirection>() -> (TransferType, Direction)
    ensures kind { result.0 ≡ T.TYPE }
    ensures direction { result.1 ≡ D.DIR }
{
    (T::TYPE, D::DIR)
}

#[test]
fn types_of_endpoints_have_their_values(rt: HostRuntime) {
    assert!(rt; shape_of::<Bulk, In>() == (TransferType::Bulk, Direction::In));
    assert!(rt; shape_of::<Interrupt, Out>() == (TransferType::Interrupt, Direction::Out));
}

fn is_stalled(status: Result<(), TransferError>) -> bool {
    matches!(status, Err(TransferError::Stall))
}

fn is_whole(bytes: &[u8]) -> bool {
    bytes == [1, 2].as_slice()
}

#[test]
fn a_completed_transfer_tells_its_bytes_and_its_error(rt: HostRuntime) -> Result<(), Fail> {
    let buffer = Buffer::from_slice(rt.alloc(), &[1, 2])?;
    let mut idle = Idle::new(TransferData::new(0x02, TransferType::Bulk));
    idle.set_buffer(buffer);
    assert!(rt; is_whole(idle.control_in_data()));
    let buffer = idle.take_buffer();
    idle.set_completion(Completion {
        buffer,
        actual_len: 1,
        status: Err(TransferError::Stall),
    });
    assert!(rt; is_whole(idle.control_in_data()) && is_stalled(idle.status()));
    let completion = idle.into_inner().take_completion();
    assert!(rt; matches!(completion.into_result(), Err(TransferError::Stall)));
    Ok(())
}

/// Whether copies of a transfer hold these bytes: while it is filled, and when it is complete.
fn copies_transfer(buffer: Buffer) -> Result<bool, NoMemory> {
    let mut transfer = TransferData::new(0x02, TransferType::Bulk);
    transfer.set_buffer(buffer);
    let mut filled = transfer.clone()?;
    let is_same = filled.endpoint == 0x02 && filled.kind == TransferType::Bulk;
    let buffer = filled.take_buffer();
    let is_filled = is_same && is_whole(buffer.as_slice());
    filled.set_completion(Completion {
        buffer,
        actual_len: 1,
        status: Err(TransferError::Stall),
    });
    let mut complete = filled.clone()?;
    let copy = complete.take_completion().clone()?;
    let is_complete = is_whole(copy.buffer.as_slice()) && copy.actual_len == 1;
    Ok(is_filled && is_complete && is_stalled(copy.status))
}

#[test]
fn copies_of_a_transfer_hold_its_bytes(rt: HostRuntime) -> Result<(), Fail> {
    let buffer = Buffer::from_slice(rt.alloc(), &[1, 2])?;
    assert!(rt; copies_transfer(buffer)?);
    Ok(())
}

#[test]
fn a_control_transfer_in_asks_by_its_setup_packet(rt: HostRuntime) -> Result<(), Fail> {
    let setup = ControlIn {
        control_type: ControlType::Vendor,
        recipient: Recipient::Device,
        request: 0x30,
        value: 0,
        index: 0,
        length: 64,
    };
    let mut transfer = TransferData::new_control_in(rt.alloc(), setup)?;
    assert!(rt; transfer.endpoint == 0x80 && transfer.kind == TransferType::Control);
    let (packet, buffer) = transfer.take_request();
    assert!(rt; packet == [0xc0, 0x30, 0, 0, 0, 0, 0x40, 0]);
    assert!(rt; buffer.is_empty() && buffer.requested_len() == 64);
    Ok(())
}

#[test]
fn a_control_transfer_out_sends_a_copy_of_its_data(rt: HostRuntime) -> Result<(), Fail> {
    let setup = ControlOut {
        control_type: ControlType::Vendor,
        recipient: Recipient::Device,
        request: 0x32,
        value: 0,
        index: 0,
        bytes: &[1, 2, 3, 4],
    };
    let mut transfer = TransferData::new_control_out(rt.alloc(), setup)?;
    assert!(rt; transfer.endpoint == 0x00 && transfer.kind == TransferType::Control);
    assert!(rt; transfer.control_in_data() == [1, 2, 3, 4].as_slice());
    let (packet, buffer) = transfer.take_request();
    assert!(rt; packet == [0x40, 0x32, 0, 0, 0, 0, 4, 0]);
    assert!(rt; buffer.as_slice() == [1, 2, 3, 4].as_slice());
    Ok(())
}
