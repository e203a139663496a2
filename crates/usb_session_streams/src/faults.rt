//! The lines of faults.

ghost use Rattle.std.specs.Prelude.{◌≡◌, ◌++◌, OnOk, string_bytes};
ghost use Rattle.usb_session_streams.specs.Faults.{kind_name, io_line, read_fault_line, write_fault_line};

use std::alloc::Global;
use usb_desc::NoMemory;
use usb_error::{IoFault, IoKind};
use usb_io::{ReadFault, WriteFault};
use usb_session_text::{end_line, push_space};

/// The name of a kind.
fn kind_name(kind: IoKind) -> &'static str
    ensures name { result.now ≡ kind_name kind }
{
    match kind {
        IoKind::Interrupted => "Interrupted",
        IoKind::ConnectionReset => "ConnectionReset",
        IoKind::ConnectionAborted => "ConnectionAborted",
        IoKind::NotConnected => "NotConnected",
        IoKind::InvalidInput => "InvalidInput",
        IoKind::InvalidData => "InvalidData",
        IoKind::PermissionDenied => "PermissionDenied",
        IoKind::NotFound => "NotFound",
        IoKind::Unsupported => "Unsupported",
        IoKind::TimedOut => "TimedOut",
        IoKind::UnexpectedEof => "UnexpectedEof",
        IoKind::Other => "Other",
    }
}

/// Appends a fault of input or output: its kind and the text, as `io TimedOut write timeout`.
#[tactic(auto, unfolding(crate::specs::Faults::io_line))]
pub fn write_io_fault(out: &mut String, fault: &IoFault) -> Result<(), NoMemory>
    ensures text { OnOk result (string_bytes out.new ≡ string_bytes out.old ++ io_line fault.now) }
{
    out.push_str("io ")?;
    out.push_str(kind_name(fault.kind))?;
    push_space(out)?;
    out.push_str(fault.text.as_str())?;
    end_line(out)
}

/// Appends why a read failed.
pub fn write_read_fault(alloc: Global, out: &mut String, fault: ReadFault) -> Result<(), NoMemory>
    ensures text { OnOk result
        (string_bytes out.new ≡ string_bytes out.old ++ read_fault_line fault) }
{
    let fault = fault.to_io_fault(alloc)?;
    write_io_fault(out, &fault)
}

/// Appends why a write or a flush failed.
pub fn write_write_fault(alloc: Global, out: &mut String, fault: WriteFault) -> Result<(), NoMemory>
    ensures text { OnOk result
        (string_bytes out.new ≡ string_bytes out.old ++ write_fault_line fault) }
{
    let fault = fault.to_io_fault(alloc)?;
    write_io_fault(out, &fault)
}
