//! The check of a trace.

ghost use Rattle.std.specs.Prelude.{◌≡◌, ◌≤◌, ◌^◌, ◌⊎◌, ◌≢◌, ℕ, List, length, slice_get, false, Ok, Err, Some, None, OnOk, IfSome, IsTrue};
ghost use Rattle.usb_trace_lines.specs.Fates.{fates_of};
ghost use Rattle.usb_trace.specs.Begins.{IsForm};
ghost use Rattle.usb_trace.specs.Fails.{FailsFirstAt};
ghost use Rattle.usb_trace.specs.FirstOther.{IsFirstOther};
ghost use Rattle.usb_trace.specs.Read.{HasText};
ghost use Rattle.usb_trace.specs.Verdicts.{IsTrace};

use crate::error::TraceError;
use crate::replay::Replay;
use crate::text::{TraceText, read_text};
use std::alloc::Global;
use usb_kernel::Kernel;
use usb_trace_lines::FateLine;

/// Whether a text of the form of a trace is one. If not, it is told by the first line that no trace
/// can have there, counted from 1.
#[derive(Clone, Copy, Debug, PartialEq, Eq)]
pub enum Verdict {
    Yes,
    No { line: u32 },
}

/// Whether a fate line tells this fate.
fn is_fate(told: FateLine, fate: FateLine) -> bool
    ensures same { IsTrue result → told ≡ fate }
    ensures other { result ≡ false → told ≢ fate }
{
    told == fate
}

/// Whether this fate stands at a place.
fn is_at(fates: &[FateLine], place: usize, fate: FateLine) -> bool
    ensures at { IsTrue result → slice_get fates.now place ≡ Some fate }
    ensures other { result ≡ false → slice_get fates.now place ≢ Some fate }
{
    match fates.get(place) {
        Some(told) => is_fate(*told, fate),
        None => false,
    }
}

/// The first place at which fates are not those of a kernel's tickets, if there is one.
fn first_other_fate(kernel: &Kernel, fates: &[FateLine]) -> Option<usize>
    ensures none { result ≡ None → fates.now ≡ fates_of kernel.now.past }
    ensures some { IfSome result (IsFirstOther fates.now (fates_of kernel.now.past)) }
{
    let tickets = kernel.tickets();
    for ticket in 0..tickets {
        let fate = FateLine::of(ticket, &kernel.ticket(ticket));
        if !is_at(fates, ticket as usize, fate) {
            return Some(ticket as usize);
        }
    }
    if fates.len() > tickets as usize {
        return Some(tickets as usize);
    }
    None
}

/// The verdict on the text of which this was read.
fn judge(text: &TraceText) -> Verdict
    requires text { (bytes : List ℕ) × HasText bytes text.now }
    ensures yes { result ≡ Verdict.Yes → (bytes : List ℕ) → HasText bytes text.now →
        IsTrace bytes }
    ensures no { (line : ℕ) → result ≡ Verdict.No line → (bytes : List ℕ) →
        HasText bytes text.now → FailsFirstAt IsTrace bytes line }
{
    match &text.replay {
        Replay::Going(kernel) => match first_other_fate(kernel, text.fates.as_slice()) {
            Some(place) => Verdict::No {
                line: (kernel.journal().len() + place) as u32 + 2,
            },
            None => Verdict::Yes,
        },
        Replay::Stopped { place } => Verdict::No {
            line: *place as u32 + 2,
        },
    }
}

/// Whether a text of at most 2^24 bytes is the trace of a journal in which each event acts. Where
/// it is outside the form of a trace, the error tells the first line that is.
pub fn check_trace(alloc: Global, bytes: &[u8]) -> Result<Verdict, TraceError>
    requires few { length bytes.now ≤ 2 ^ 24 }
    ensures yes { result ≡ Ok Verdict.Yes → IsTrace bytes.now }
    ensures form { OnOk result (IsForm bytes.now) }
    ensures no { (line : ℕ) → result ≡ Ok (Verdict.No line)
        → FailsFirstAt IsTrace bytes.now line }
    ensures malformed { (line : ℕ) → result ≡ Err (TraceError.Malformed line)
        → FailsFirstAt IsForm bytes.now line }
    ensures complete { IsTrace bytes.now
        → (result ≡ Ok Verdict.Yes) ⊎ (result ≡ Err TraceError.Memory) }
{
    let text = read_text(alloc, bytes)?;
    Ok(judge(&text))
}
