//! What faults of reads and writes print. Their kinds are asked by scripts.

use crate::outcomes::prints;
use usb_io::{ExpectedShortPacket, ReadFault, WriteFault};
use usb_xfer::TransferError;

#[test]
fn faults_of_reads_and_writes_print_their_texts(rt: HostRuntime) {
    let stall = ReadFault::Transfer(TransferError::Stall);
    assert!(rt; prints(rt.alloc(), &stall, "endpoint stalled"));
    assert!(rt; prints(rt.alloc(), &ReadFault::TimedOut, "timeout waiting for read"));
    assert!(rt;
        prints(
            rt.alloc(),
            &ReadFault::UnexpectedEof,
            "ended without short packet"
        )
    );
    let gone = WriteFault::Transfer(TransferError::Disconnected);
    assert!(rt; prints(rt.alloc(), &gone, "device disconnected"));
    assert!(rt; prints(rt.alloc(), &WriteFault::TimedOut, "write timeout"));
    assert!(rt; prints(rt.alloc(), &ExpectedShortPacket, "expected short packet"));
}
