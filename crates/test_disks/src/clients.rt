//! A client of Bulk-Only Transport at a host, whose device makes the steps of a table. What a
//! command answers comes from Bulk-Only Transport, sections 5.2, 5.3 and 6.3, and from the rules of
//! the client: the first error that fits counts, and each but `Failed` breaks it.

ghost use Rattle.std.specs.Prelude.{◌≡◌, ◌≢◌, []};
ghost use Rattle.usb_device_endpoint.specs.Handles.{Stands};
ghost use Rattle.usb_device_host.specs.HostBus.{bus_of};
ghost use Rattle.usb_bot.specs.Clients.{StandBoth};

use std::alloc::Global;
use std::process::Abort;
use std::test;
use usb_bot::{BotClient, BotError};
use usb_desc::NoMemory;
use usb_device::{Bulk, Device, Endpoint, Error, Fail, Host, In, Out};
use usb_device_bench::{SimBench, sent};
use usb_xfer::TransferError;

/// A device of one configuration of value 1 with interface 0, which has bulk IN endpoint 0x81 and
/// bulk OUT endpoint 0x02 of packets of 512 bytes, so that a block is one packet.
const DISK: [u8; 50] = [
    0x12, 0x01, 0x00, 0x02, 0x00, 0x00, 0x00, 0x40, 0xaa, 0xaa, 0xbb, 0xbb, 0x00, 0x01, 0x00, 0x00,
    0x00, 0x01, 0x09, 0x02, 0x20, 0x00, 0x01, 0x01, 0x00, 0x80, 0x32, 0x09, 0x04, 0x00, 0x00, 0x02,
    0x08, 0x06, 0x50, 0x00, 0x07, 0x05, 0x81, 0x02, 0x00, 0x02, 0x00, 0x07, 0x05, 0x02, 0x02, 0x00,
    0x02, 0x00,
];

/// The bytes of a block, and fewer.
const BLOCK: [u8; 512] = [7; 512];

const FEWER: [u8; 100] = [7; 100];

/// The wrappers of a read of block 5 with the tags 0 and 1.
const READ_0: [u8; 31] = [
    0x55, 0x53, 0x42, 0x43, 0, 0, 0, 0, 0, 2, 0, 0, 0x80, 0, 10, 0x28, 0, 0, 0, 0, 5, 0, 0, 1, 0,
    0, 0, 0, 0, 0, 0,
];

const READ_1: [u8; 31] = [
    0x55, 0x53, 0x42, 0x43, 1, 0, 0, 0, 0, 2, 0, 0, 0x80, 0, 10, 0x28, 0, 0, 0, 0, 5, 0, 0, 1, 0,
    0, 0, 0, 0, 0, 0,
];

/// Statuses: that the command with this tag passed, that the first one failed or has a phase error,
/// and such as fit no first one.
const PASSED_0: [u8; 13] = [0x55, 0x53, 0x42, 0x53, 0, 0, 0, 0, 0, 0, 0, 0, 0];

const PASSED_1: [u8; 13] = [0x55, 0x53, 0x42, 0x53, 1, 0, 0, 0, 0, 0, 0, 0, 0];

const FAILED: [u8; 13] = [0x55, 0x53, 0x42, 0x53, 0, 0, 0, 0, 0, 2, 0, 0, 1];

const PHASE: [u8; 13] = [0x55, 0x53, 0x42, 0x53, 0, 0, 0, 0, 0, 0, 0, 0, 2];

const THREE: [u8; 13] = [0x55, 0x53, 0x42, 0x53, 0, 0, 0, 0, 0, 0, 0, 0, 3];

const RESIDUE: [u8; 13] = [0x55, 0x53, 0x42, 0x53, 0, 0, 0, 0, 1, 0, 0, 0, 0];

const SIGNATURE: [u8; 13] = [0x55, 0x53, 0x42, 0x43, 0, 0, 0, 0, 0, 0, 0, 0, 0];

/// A step of the device: it takes a packet, sends the block or another packet, or stalls an endpoint.
enum Step {
    Accept,
    Block,
    Packet(&'static [u8]),
    Stall(u8),
}

/// A call of the client, of block 5.
#[derive(Clone, Copy)]
enum Call {
    Read,
    Write,
}

/// What a call answers: the bytes of the block, that it is written, or an error.
#[derive(Clone, Copy, PartialEq, Eq)]
enum Answer {
    Block,
    Written,
    Failed(BotError),
    Other,
}

/// Calls with their answers, over the steps of the device, and the wrapper of the last one, where
/// that is a read.
struct Case {
    name: &'static str,
    steps: &'static [Step],
    calls: &'static [(Call, Answer)],
    sent: Option<&'static [u8]>,
}

/// A read that fails so, and breaks the client.
struct Break {
    name: &'static str,
    steps: &'static [Step],
    error: BotError,
}

const CASES: [Case; 4] = [
    Case {
        name: "a read that passed",
        steps: &[Step::Accept, Step::Block, Step::Packet(&PASSED_0)],
        calls: &[(Call::Read, Answer::Block)],
        sent: Some(&READ_0),
    },
    Case {
        name: "a write that passed",
        steps: &[Step::Accept, Step::Accept, Step::Packet(&PASSED_0)],
        calls: &[(Call::Write, Answer::Written)],
        sent: None,
    },
    Case {
        name: "a read behind a write",
        steps: &[
            Step::Accept,
            Step::Accept,
            Step::Packet(&PASSED_0),
            Step::Accept,
            Step::Block,
            Step::Packet(&PASSED_1),
        ],
        calls: &[(Call::Write, Answer::Written), (Call::Read, Answer::Block)],
        sent: Some(&READ_1),
    },
    Case {
        name: "a read behind one that failed",
        steps: &[
            Step::Accept,
            Step::Packet(&[]),
            Step::Packet(&FAILED),
            Step::Accept,
            Step::Block,
            Step::Packet(&PASSED_1),
        ],
        calls: &[
            (
                Call::Read,
                Answer::Failed(BotError::Failed { residue: 512 }),
            ),
            (Call::Read, Answer::Block),
        ],
        sent: Some(&READ_1),
    },
];

const BREAKS: [Break; 11] = [
    Break {
        name: "phase error",
        steps: &[Step::Accept, Step::Block, Step::Packet(&PHASE)],
        error: BotError::Phase,
    },
    Break {
        name: "status of another outcome",
        steps: &[Step::Accept, Step::Block, Step::Packet(&THREE)],
        error: BotError::BadStatus,
    },
    Break {
        name: "status of another signature",
        steps: &[Step::Accept, Step::Block, Step::Packet(&SIGNATURE)],
        error: BotError::BadStatus,
    },
    Break {
        name: "status of another tag",
        steps: &[Step::Accept, Step::Block, Step::Packet(&PASSED_1)],
        error: BotError::BadStatus,
    },
    Break {
        name: "status of one byte",
        steps: &[Step::Accept, Step::Block, Step::Packet(&[0x55])],
        error: BotError::BadStatus,
    },
    Break {
        name: "fewer bytes",
        steps: &[Step::Accept, Step::Packet(&FEWER), Step::Packet(&PASSED_0)],
        error: BotError::Length {
            got: 100,
            residue: 0,
        },
    },
    Break {
        name: "all bytes and a residue",
        steps: &[Step::Accept, Step::Block, Step::Packet(&RESIDUE)],
        error: BotError::Length {
            got: 512,
            residue: 1,
        },
    },
    Break {
        name: "stall of the wrapper",
        steps: &[Step::Stall(0x02)],
        error: BotError::Transfer(TransferError::Stall),
    },
    Break {
        name: "stall of the data",
        steps: &[Step::Accept, Step::Stall(0x81)],
        error: BotError::Transfer(TransferError::Stall),
    },
    Break {
        name: "stall of the status",
        steps: &[Step::Accept, Step::Block, Step::Stall(0x81)],
        error: BotError::Transfer(TransferError::Stall),
    },
    Break {
        name: "a device that does nothing",
        steps: &[],
        error: BotError::Transfer(TransferError::Cancelled),
    },
];

/// A bench of a disk with these steps.
fn new_bench(alloc: Global, steps: &[Step]) -> Result<SimBench, NoMemory> {
    let mut bench = SimBench::new(alloc, &DISK)?;
    for step in steps {
        bench = match step {
            Step::Accept => bench.accept(0x02)?,
            Step::Block => bench.packet(0x81, &BLOCK)?,
            Step::Packet(bytes) => bench.packet(0x81, *bytes)?,
            Step::Stall(endpoint) => bench.stall(*endpoint)?,
        };
    }
    Ok(bench)
}

/// What a call answers.
fn answer_of(host: &mut Host, client: &mut BotClient, call: Call) -> Answer
    requires stand { StandBoth (bus_of host.old) client.old }
    ensures stand { StandBoth (bus_of host.new) client.new }
{
    match call {
        Call::Read => match client.read(host, 5, 1) {
            Ok(bytes) if bytes.as_slice() == &BLOCK[..] => Answer::Block,
            Ok(_) => Answer::Other,
            Err(error) => Answer::Failed(error),
        },
        Call::Write => match client.write(host, 5, &BLOCK) {
            Ok(()) => Answer::Written,
            Err(error) => Answer::Failed(error),
        },
    }
}

/// Whether calls answer so, one after another.
fn answer_so(host: &mut Host, client: &mut BotClient, calls: &[(Call, Answer)]) -> bool
    requires stand { StandBoth (bus_of host.old) client.old }
    ensures stand { StandBoth (bus_of host.new) client.new }
{
    let mut all = true;
    'calls: for (call, answer) in calls {
        let found = answer_of(host, client, *call);
        all &= found == *answer;
    }
    all
}

/// Whether a client over two endpoints answers so.
fn client_answers(
    host: &mut Host,
    out: Endpoint<Bulk, Out>,
    inp: Endpoint<Bulk, In>,
    calls: &[(Call, Answer)],
) -> bool
    requires out { Stands (bus_of host.old) out }
    requires inp { Stands (bus_of host.old) inp }
    requires apart { out.key ≢ inp.key }
    requires out_idle { out.pending ≡ [] }
    requires in_idle { inp.pending ≡ [] }
{
    if 512 % inp.max_packet_size() != 0 {
        out.close(host);
        inp.close(host);
        return false;
    }
    let mut client = BotClient::new(out, inp);
    let all = answer_so(host, &mut client, calls);
    client.close(host);
    all
}

/// Whether a client of the device at address 6 of bus 1 answers so.
fn disk_answers(host: &mut Host, calls: &[(Call, Answer)]) -> Result<bool, Fail<Error>> {
    let interface = Device::open_at(host, 1, 6)?.into_interface(host, 0)?;
    match interface.endpoint::<Bulk, In>(host, 0x81) {
        Ok(inp) => match interface.into_endpoint::<Bulk, Out>(host, 0x02) {
            Ok(out) => Ok(client_answers(host, out, inp, calls)),
            Err(error) => {
                inp.close(host);
                Err(error)
            }
        },
        Err(error) => {
            interface.close(host);
            Err(error)
        }
    }
}

/// Whether a client answers so at a new host, nothing is left open, and this was sent last, or the
/// block.
fn is_so(
    alloc: Global,
    steps: &[Step],
    calls: &[(Call, Answer)],
    last: Option<&[u8]>,
) -> Result<bool, Fail<Error>> {
    let mut host = new_bench(alloc, steps)?.host()?;
    let all = disk_answers(&mut host, calls)?;
    let is_sent = match sent(&host, 0x02) {
        Some(bytes) => bytes == last.unwrap_or(&BLOCK),
        None => false,
    };
    Ok(all && is_sent && host.endpoint_count() == 0)
}

#[test]
fn commands_pass_or_fail_and_the_tags_count(rt: HostRuntime) -> Result<(), test::Fail> {
    for case in &CASES {
        let is_so = is_so(rt.alloc(), case.steps, case.calls, case.sent)?;
        assert!(&rt; is_so, "{}", case.name);
    }
    Ok(())
}

#[test]
fn a_broken_client_answers_the_error_that_broke_it(rt: HostRuntime) -> Result<(), test::Fail> {
    for case in &BREAKS {
        let failed = Answer::Failed(case.error);
        let calls = [
            (Call::Read, failed),
            (Call::Write, failed),
            (Call::Read, failed),
        ];
        let is_so = is_so(rt.alloc(), case.steps, &calls, Some(&READ_0))?;
        assert!(&rt; is_so, "{}", case.name);
    }
    Ok(())
}
