//! Laws of traces that are written.

ghost use Rattle.std.specs.Prelude.{◌≡◌, ◌≤◌, ◌^◌, length, reverse};
ghost use Rattle.std.specs.List.{All};
ghost use Rattle.usb_trace_lines.specs.Directions.{IsDirected};
ghost use Rattle.usb_trace_lines.specs.Forms.{IsSized};
ghost use Rattle.usb_trace_lines.specs.Texts.{trace};
ghost use Rattle.usb_trace.specs.Laws.{WrittenIsTrace, TypedIsTrace, IsYesOrMemory};

use crate::check::{Verdict, check_trace};
use crate::error::TraceError;
use std::alloc::Global;
use usb_kernel::Kernel;
use usb_trace_lines::journal_is_typed;

/// What `write_trace` writes of a kernel is the trace of a journal in which each event acts. Its
/// events must be sized, which `write_trace` asks for, and typed, which it says, and their bodies
/// go with the direction of their endpoints.
pub fn typed_is_trace(kernel: &Kernel)
    ensures law { TypedIsTrace kernel.now.past }
{
    let _journal = kernel.journal();
}

/// The same, by a pass over the journal, which says that its events are typed.
pub fn written_is_trace(kernel: &Kernel)
    ensures law { WrittenIsTrace kernel.now.past }
{
    journal_is_typed(kernel);
    typed_is_trace(kernel);
}

/// Checks what `write_trace` wrote of a kernel whose events are sized, which `write_trace` asks for,
/// and whose bodies go with the direction of their endpoints. The verdict is `Yes`, unless memory
/// runs out.
pub fn check_written(alloc: Global, kernel: &Kernel, bytes: &[u8]) -> Result<Verdict, TraceError>
    requires few { length bytes.now ≤ 2 ^ 24 }
    requires sized { All IsSized (reverse kernel.now.past) }
    requires directed { All IsDirected kernel.now.past }
    requires written { bytes.now ≡ trace kernel.now.past }
    ensures yes { IsYesOrMemory result }
{
    written_is_trace(kernel);
    check_trace(alloc, bytes)
}
