//! Rounds one after another.

ghost use Rattle.std.specs.Prelude.{◌≡◌, ◌≤◌, ◌<◌, ◌+◌, IfOk, IfSome, OnOk, is_some, length};
ghost use Rattle.std.specs.Option.{option_map};
ghost use Rattle.usb_bot.specs.Clients.{StandBoth};
ghost use Rattle.usb_bot_disk.specs.DiskCalls.{disk_bus_of};
ghost use Rattle.usb_bot_law.specs.Serving.{Serves};
ghost use Rattle.usb_bot_rounds.specs.Plain.{Writes, Reads, plain_answer, plain_answers, list_behind, list_behind_all};
ghost use Rattle.usb_bot_rounds.specs.Rounds.{zeros, round_block, round_count, round_bytes, round_commands, tally_of, added, rounds_tally};
ghost use Rattle.usb_bot_rounds.specs.Runs.{written_answer, read_answer, IsWithin};

use crate::disk::new_disk;
use crate::round::Round;
use crate::tally::{Tally, passed};
use std::alloc::Global;
use usb_bot::BotClient;
use usb_bot_disk::DiskBus;
use usb_desc::NoMemory;

/// Writes the blocks of a round, and says whether that passed.
fn write_round(
    alloc: Global,
    bus: &mut DiskBus,
    client: &mut BotClient,
    round: Round,
) -> Result<bool, NoMemory>
    requires serves { Serves bus.old client.old bus.old.machine.disk }
    requires stand { StandBoth (disk_bus_of bus.old) client.old }
    ensures answer { IfOk result (λ written. written_answer written
        ≡ plain_answer bus.old.machine.disk
        (Writes (round_block round.number) (round_bytes round.number))) }
    ensures blocks { OnOk result (Serves bus.new client.new (list_behind bus.old.machine.disk
        (Writes (round_block round.number) (round_bytes round.number)))) }
    ensures stand { StandBoth (disk_bus_of bus.new) client.new }
{
    let bytes = round.bytes(alloc)?;
    let answer = client.write(bus, round.block(), bytes.as_slice());
    Ok(passed(answer)?.is_some())
}

/// Reads the blocks of a round, which gives nothing where that failed.
fn read_round(
    bus: &mut DiskBus,
    client: &mut BotClient,
    round: Round,
) -> Result<Option<Vec<u8>>, NoMemory>
    requires serves { Serves bus.old client.old bus.old.machine.disk }
    requires stand { StandBoth (disk_bus_of bus.old) client.old }
    ensures answer { IfOk result (λ read. read_answer (option_map (λ bytes. bytes.items) read)
        ≡ plain_answer bus.old.machine.disk
        (Reads (round_block round.number) (round_count round.number))) }
    ensures short { IfOk result (λ read. IfSome read (λ bytes. length bytes.items ≤ 32768)) }
    ensures blocks { OnOk result (Serves bus.new client.new bus.old.machine.disk) }
    ensures stand { StandBoth (disk_bus_of bus.new) client.new }
{
    passed(client.read(bus, round.block(), round.count()))
}

/// Writes the blocks of a round, reads them again, and adds this to a tally.
fn run_round(
    alloc: Global,
    bus: &mut DiskBus,
    client: &mut BotClient,
    round: Round,
    tally: Tally,
) -> Result<Tally, NoMemory>
    requires serves { Serves bus.old client.old bus.old.machine.disk }
    requires stand { StandBoth (disk_bus_of bus.old) client.old }
    requires few { round.number < 500 }
    requires within { IsWithin round.number tally }
    ensures answers { IfOk result (λ new. new ≡ added tally
        (tally_of (plain_answers bus.old.machine.disk (round_commands round.number)))) }
    ensures within { IfOk result (IsWithin (round.number + 1)) }
    ensures blocks { OnOk result (Serves bus.new client.new
        (list_behind_all bus.old.machine.disk (round_commands round.number))) }
    ensures stand { StandBoth (disk_bus_of bus.new) client.new }
{
    let written = write_round(alloc, bus, client, round)?;
    let tally = tally.with_write(written);
    let read = read_round(bus, client, round)?;
    Ok(tally.with_read(read))
}

/// So many rounds.
fn run_all(
    alloc: Global,
    bus: &mut DiskBus,
    client: &mut BotClient,
    rounds: u32,
) -> Result<Tally, NoMemory>
    requires serves { Serves bus.old client.old zeros }
    requires stand { StandBoth (disk_bus_of bus.old) client.old }
    requires few { rounds ≤ 500 }
    ensures tally { IfOk result (λ tally. tally ≡ rounds_tally rounds) }
    ensures stand { StandBoth (disk_bus_of bus.new) client.new }
{
    let mut tally = Tally::new();
    for number in 0..rounds {
        tally = run_round(alloc, bus, client, Round { number }, tally)?;
    }
    Ok(tally)
}

/// Runs so many rounds at a new disk of 256 blocks, and tallies what its commands came to: the
/// answers of a plain list of blocks.
///
/// # Errors
///
/// Want of memory.
pub fn run_rounds(alloc: Global, rounds: u32) -> Result<Tally, NoMemory>
    requires few { rounds ≤ 500 }
    ensures tally { IfOk result (λ tally. tally ≡ rounds_tally rounds) }
{
    let (mut bus, mut client) = new_disk(alloc)?;
    let tally = run_all(alloc, &mut bus, &mut client, rounds);
    client.close(&mut bus);
    tally
}
