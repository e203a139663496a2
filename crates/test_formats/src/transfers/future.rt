//! What futures of values that are there give.

ghost use Rattle.std.specs.Prelude.{◌≡◌, ◌*◌, Ok, Err, MatchResult};

use usb_xfer::{MapFuture, MapResult, MaybeFuture, Ready};

fn doubled(x: u8) -> u16
    ensures { result ≡ x * 2 }
{
    Ready(x).map(|x| u16::from(x) * 2).wait()
}

fn doubled_error(x: Result<bool, u8>) -> Result<bool, u16>
    ensures { MatchResult x (λ value. result ≡ Ok value) (λ error. result ≡ Err (error * 2)) }
{
    Ready(x).map_err(|x| u16::from(x) * 2).wait()
}

#[test]
fn a_wait_gives_what_the_function_answers(rt: HostRuntime) {
    assert!(rt;
        doubled(255) == 510
            && doubled_error(Ok(true)) == Ok(true)
            && doubled_error(Err(255)) == Err(510)
    );
}
