//! The loop that makes the handler's rounds.
ghost use Rattle.std.specs.Prelude.{◌≡◌, true};
ghost use Rattle.usb_live.specs.Runs.{CountsReclaims};

use crate::entry::Tally;
use crate::gates::Gate;
use crate::locked::LiveKernel;
use crate::seats::HandlerSeat;
use std::sync::Wait;
use std::thread::yield_now;
use usb_xfer::Notify;

/// Makes rounds until the gate answers false, each under the lock. Where a round finished a transfer, those that wait are woken, and
/// else another thread may go first. Hands the seat back, and a tally that counts what the rounds reclaimed.
pub fn event_loop<R: Wait, G: Gate>(
    rt: &R,
    kernel: &LiveKernel,
    mut handler: HandlerSeat,
    notify: &Notify,
    gate: &mut G,
    mut tally: Tally,
) -> (HandlerSeat, Tally)
    ensures gate { G.is_closed gate.new ≡ true }
    ensures row { result.0.row ≡ handler.row }
    ensures count { CountsReclaims handler.view tally result.0.view result.1 }
{
    'rounds: for _ in rt.forever() {
        if !gate.pass() {
            return (handler, tally);
        }
        let round = handler.round(&mut *kernel.lock(rt));
        tally.reclaimed = tally.reclaimed.saturating_add(round.reclaimed);
        if round.finished > 0 {
            notify.notify(rt);
        } else {
            yield_now();
        }
    }
    unreachable!()
}
