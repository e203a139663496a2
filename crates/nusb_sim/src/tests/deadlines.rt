//! Lines that hand transfers in with deadlines.

use super::{OPENED, expect_rows};
use std::test::Fail;

/// A turn of the timer, or of a wait for a control transfer, discards each transfer that is due.
const DUE: [(&str, &str, &str); 5] = [
    (
        "deadline on a bulk transfer",
        "dsubmitin e0 128 100\n\
         submitin e0 64\n\
         ! pkt k0 81 11111111111111111111111111111111111111111111111111111111111111111111111111111111111111111111111111111111111111111111111111111111 ; clock 99 ; timer\n\
         poll e0\n\
         ! clock 100 ; timer ; reap 0\n\
         poll e0\n\
         poll e0\n",
        "ok\n\
         ok\n\
         pending\n\
         done cancelled 64 128 11111111111111111111111111111111111111111111111111111111111111111111111111111111111111111111111111111111111111111111111111111111\n\
         pending\n\
         ticket 0 k0 81 cancelled 64 taken\n\
         ticket 1 k0 81 cancelled 0 reclaimed\n",
    ),
    (
        "the wait for a control transfer serves a bulk deadline",
        "dsubmitin e0 64 50\n\
         ctlin d0 vendor device 30 0000 0000 64 100\n\
         poll e0\n\
         now\n",
        "ok\n\
         failed cancelled\n\
         done cancelled 0 64 -\n\
         now 100\n\
         ticket 0 k0 81 cancelled 0 taken\n\
         ticket 1 k0 80 cancelled 0 taken\n",
    ),
    (
        "a refused transfer has no deadline",
        "! refuse k0 submit 12\n\
         dsubmitin e0 64 10\n\
         ! clock 10 ; timer\n\
         poll e0\n\
         dsubmitin e0 63 10\n\
         ! clock 30 ; timer\n\
         poll e0\n",
        "ok\n\
         done unknown:12 0 64 -\n\
         ok\n\
         done invalid 0 63 -\n\
         ticket 0 k0 81 unknown:12 0 taken\n\
         ticket 1 k0 81 invalid 0 taken\n",
    ),
    (
        "an OUT transfer with a deadline, from the time at which it is handed in",
        "endpoint e1 i0 02 bulk-out\n\
         ! clock 5\n\
         dsubmitout e1 0102 10\n\
         dsubmitout e1 03 0\n\
         ! timer ; clock 14 ; timer ; reap 1\n\
         poll e1\n\
         ! clock 15 ; timer ; reap\n\
         poll e1\n\
         poll e1\n",
        "ok\n\
         ok\n\
         ok\n\
         pending\n\
         done cancelled 0 2 0102\n\
         done cancelled 0 1 03\n\
         ticket 0 k0 02 cancelled 0 taken\n\
         ticket 1 k0 02 cancelled 0 taken\n",
    ),
    (
        "barred as without a deadline",
        "dsubmitin e1 64 10\n\
         endpoint e1 i0 02 bulk-out\n\
         dsubmitin e1 64 10\n\
         dsubmitout e0 01 10\n",
        "condition\n\
         ok\n\
         condition\n\
         condition\n",
    ),
];

#[test]
fn discards_what_is_due(rt: HostRuntime) -> Result<(), Fail> {
    expect_rows(&rt, rt.alloc(), &[], OPENED, DUE.as_slice())
}
