//! What a `Notify` does for a thread.

ghost use Rattle.std.specs.Prelude.{◌≡◌};

use std::sync::Wait;
use usb_xfer::{Notify, notify_is_send_and_sync};

fn waited_for(notify: &Notify, rt: &impl Wait, value: u8) -> u8
    ensures { result ≡ value }
{
    notify.wait(rt, || Some(value))
}

#[test]
fn a_thread_waits_until_there_is_a_value(rt: HostRuntime) {
    let notify = Notify::new();
    notify_is_send_and_sync(&notify);
    let seen = notify.moves(&rt);
    notify.as_ref().notify(&rt);
    notify.wait_past(&rt, seen);
    assert!(rt; waited_for(&notify, &rt, 7) == 7);
}
