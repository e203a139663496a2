//! Lines that clear the halt of a reader's endpoint.

use super::{OPENED, expect_rows};
use std::test::Fail;

/// A reader whose transfer stalled goes on once the halt was cleared.
const CLEARED: [(&str, &str, &str); 4] = [
    (
        "a reader goes on after its halt was cleared",
        "reader r0 e0 128\n\
         sread r0 100 : pkt k0 81 11111111111111111111111111111111111111111111111111111111111111111111111111111111111111111111111111111111111111111111111111111111 ; fail k0 81 32\n\
         sread r0 100\n\
         halt r0\n\
         isend r0\n\
         sread r0 100 : pkt k0 81 222222\n\
         sread r0 100\n\
         endmsg r0\n",
        "ok\n\
         read 64 11111111111111111111111111111111111111111111111111111111111111111111111111111111111111111111111111111111111111111111111111111111\n\
         io ConnectionReset endpoint stalled\n\
         ok\n\
         end false\n\
         read 3 222222\n\
         read 0 -\n\
         ok\n\
         ticket 0 k0 81 stall 64 taken\n\
         ticket 1 k0 81 ok 3 taken\n",
    ),
    (
        "unread bytes stay",
        "reader r0 e0 128\n\
         sread r0 10 : pkt k0 81 11111111111111111111111111111111111111111111111111111111111111111111111111111111111111111111111111111111111111111111111111111111 ; fail k0 81 32\n\
         halt r0\n\
         sread r0 100\n\
         pollsread r0 5\n",
        "ok\n\
         read 10 11111111111111111111\n\
         ok\n\
         read 54 111111111111111111111111111111111111111111111111111111111111111111111111111111111111111111111111111111111111\n\
         pending\n\
         ticket 0 k0 81 stall 64 taken\n\
         ticket 1 k0 81 cancelled 0 reclaimed\n",
    ),
    (
        "where the kernel refuses the error lasts",
        "reader r0 e0 128\n\
         sread r0 100 : pkt k0 81 11111111111111111111111111111111111111111111111111111111111111111111111111111111111111111111111111111111111111111111111111111111 ; fail k0 81 32\n\
         sread r0 100\n\
         ! refuse k0 halt 71\n\
         halt r0\n\
         sread r0 100\n",
        "ok\n\
         read 64 11111111111111111111111111111111111111111111111111111111111111111111111111111111111111111111111111111111111111111111111111111111\n\
         io ConnectionReset endpoint stalled\n\
         error Other failed to clear halt (errno 71)\n\
         io ConnectionReset endpoint stalled\n\
         ticket 0 k0 81 stall 64 taken\n",
    ),
    (
        "no reader is open under the name",
        "halt r0\n\
         reader r0 e0 64\n\
         halt r1\n\
         close r0\n\
         halt r0\n",
        "condition\n\
         ok\n\
         condition\n\
         ok\n\
         condition\n",
    ),
];

#[test]
fn goes_on_after_a_halt_was_cleared(rt: HostRuntime) -> Result<(), Fail> {
    expect_rows(&rt, rt.alloc(), &[], OPENED, CLEARED.as_slice())
}
