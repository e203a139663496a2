//! Generated scripts: the lines of one message.

use std::test::Fail;
use usb_script::generate;

/// The lines of the second message: its 37 bytes go in one call and in one packet.
const SECOND: &str =
    "write w0 0102030405060708090a0b0c0d0e0f101112131415161718191a1b1c1d1e1f202122232425\nwend w0\n! echo k0 02 81\nflush w0\nsread r0 200\nsread r0 200\nendmsg r0\n";

/// The lines of the 28th message: its 199 bytes go in two calls and in four packets.
const LONGEST: &str =
    "write w0 1b1c1d1e1f202122232425262728292a2b2c2d2e2f303132333435363738393a3b3c3d3e3f404142434445464748494a4b4c4d4e4f505152535455565758595a5b5c5d5e5f606162636465666768696a6b6c6d6e6f707172737475767778797a7b7c7d7e7f808182838485868788898a8b8c8d8e8f909192939495969798999a\nwrite w0 9b9c9d9e9fa0a1a2a3a4a5a6a7a8a9aaabacadaeafb0b1b2b3b4b5b6b7b8b9babbbcbdbebfc0c1c2c3c4c5c6c7c8c9cacbcccdcecfd0d1d2d3d4d5d6d7d8d9dadbdcdddedfe0e1\nwend w0\n! echo k0 02 81\n! echo k0 02 81\n! echo k0 02 81\n! echo k0 02 81\nflush w0\nsread r0 200\nsread r0 200\nsread r0 200\nendmsg r0\n";

/// Whether a script begins with its device and ends with these lines.
fn frames(script: &[u8], lines: &str) -> bool {
    script.starts_with(b"device k0 1 6 3 1 12") && script.ends_with(lines.as_bytes())
}

#[test]
fn generates_the_lines_of_each_message(rt: HostRuntime) -> Result<(), Fail> {
    assert!(rt; frames(&generate(rt.alloc(), 2)?, SECOND));
    let longest = generate(rt.alloc(), 28)?;
    assert!(rt; frames(&longest, LONGEST) && longest.len() == 8620);
    assert!(rt; generate(rt.alloc(), 2000)?.len() == 598590);
    Ok(())
}
