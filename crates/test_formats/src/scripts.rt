//! Scripts that are read, and lines that are outside the grammar.

mod generated;
mod malformed;
mod read;

use crate::answers::{check, check_each};
use std::alloc::AllocError;

#[test]
fn takes_each_form_of_line_within_its_bounds(rt: HostRuntime) -> Result<(), AllocError> {
    check_each(&rt, "script", read::CALLS, "call")?;
    check_each(&rt, "script", read::SETUP, "setup")?;
    check(&rt, read::SCRIPTS)
}

#[test]
fn tells_the_first_line_outside_the_grammar(rt: HostRuntime) -> Result<(), AllocError> {
    check_each(&rt, "script", malformed::LINES, "malformed line 1")?;
    check(&rt, malformed::SCRIPTS)
}

/// What the fields of some lines come to; the limits of bytes, 65536 in a packet and in a request and 65535 in a
/// control transfer; and how many items generated scripts have.
const FIELDS: &str = "\
fields ctlin i0 class endpoint 30 0102 0304 1541 0 = interface a230020104030506
fields fout f0 d0 vendor other 32 0a0b 0c0d 010203 0 = device 43320b0a0d0c0300
fields string d0 255 0409 0 = 255
fields endpoint e0 i0 81 bulk-in = Bulk In
fields endpoint e0 i0 02 bulk-out = Bulk Out
fields endpoint e0 i0 81 int-in = Interrupt In
fields endpoint e0 i0 02 int-out = Interrupt Out
script ! pkt k0 81 *65536 = steps 1
script ! pkt k0 81 *65537 = malformed line 1
script mreq m0 *65536 = call
script mreq m0 *65537 = malformed line 1
script ctlout d0 vendor device 30 0000 0000 *65535 0 = call
script ctlout d0 vendor device 30 0000 0000 *65536 0 = malformed line 1
# numbers of messages, and of the items of the scripts that are generated for them
generated 1 = 14
generated 3 = 29
generated 2000 = 16929";

#[test]
fn hands_fields_on_and_takes_long_scripts(rt: HostRuntime) -> Result<(), AllocError> {
    check(&rt, FIELDS)
}
