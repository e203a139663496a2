//! The bytes that a reader on its bus lends, by std's trait.

ghost use Rattle.std.specs.Borrow.{sem};
ghost use Rattle.std.specs.Io.BufRead.{Rests, DropsConsumable};
ghost use mir.Syntax.{named};
ghost use Rattle.std.specs.Prelude.{◌≡◌, IfOk, OnErr, None, [], true};
ghost use Rattle.usb_io.specs.Answers.{answer as answer_of};
ghost use Rattle.usb_io.specs.Following.{FollowsOn};
ghost use Rattle.usb_io.specs.Lent.{Filled, StdFilled};
ghost use Rattle.usb_io.specs.Readers.{with_read};
ghost use Rattle.usb_io.specs.Along.{ReadsAlong};
ghost use Rattle.usb_io.specs.Reads.{reading, KeepsSettings, turned, TurnedShort};
ghost use Rattle.usb_io.specs.Slices.{IfOkBytes};
ghost use Rattle.usb_io.specs.contracts.read_on.ReadOn.{the_row};

use crate::fault::ReadFault;
use crate::read_on::{ReadOn, std_error};
use crate::turned::Turned;
use std::io::{self, BufRead};
use usb_desc::{Fail, NoMemory};
use usb_device_endpoint::Bus;
use usb_xfer::BulkOrInterrupt;

impl<'a, T: BulkOrInterrupt, B: Bus> ReadOn<'a, T, B> {
    /// Turns, as a read does.
    fn turn(&mut self) -> Result<Turned, NoMemory>
        ensures same_reader { self.new.reader.ghost_name ≡ self.old.reader.ghost_name }
        ensures same_bus { self.new.bus.ghost_name ≡ self.old.bus.ghost_name }
        ensures until_short { self.new.until_short ≡ self.old.until_short }
        ensures came { IfOk result
            (λ o. turned B.calls self.old.until_short self.old.reader.now.timeout
            (reading self.old.bus.now self.old.reader.now)
            ≡ (o, reading self.new.bus.now self.new.reader.now)) }
        ensures err { OnErr result
            (TurnedShort B.calls self.old.until_short self.old.reader.now.timeout
            (reading self.old.bus.now self.old.reader.now)
            (reading self.new.bus.now self.new.reader.now)) }
        ensures goes { ReadsAlong (B.calls.state self.old.bus.now) (B.calls.state self.new.bus.now)
            self.old.reader.now.endpoint self.new.reader.now.endpoint }
        ensures follows { self.old.until_short ≡ true
            → FollowsOn (B.calls.state self.old.bus.now) (B.calls.state self.new.bus.now)
            self.old.reader.now self.new.reader.now }
        ensures settings { KeepsSettings self.old.reader.now self.new.reader.now }
    {
        let timeout = self.reader.read_timeout();
        self.reader.turn(&mut *self.bus, self.until_short, timeout)
    }

    /// What a read answers once it has turned.
    fn answer(&self, turned: Turned) -> Result<&[u8], ReadFault>
        ensures answer { IfOkBytes result
            (answer_of self.now.until_short turned self.now.reader.now) }
    {
        self.reader.answer(turned, self.until_short)
    }

    /// The bytes that stand, after turns where there are none.
    #[tactic(auto, using(crate::proofs::AnswerLemmas::fill_is))]
    fn fill_some(&mut self) -> Result<&[u8], Fail<ReadFault>>
        ensures* lent { sem 𝓛
            (Rests (the_row (record { mir = named 0; lft = [] }) T.row B.row _ _ _) self.entry
            (λ new. (new.reader.ghost_name ≡ self.old.reader.ghost_name)
            × (new.bus.ghost_name ≡ self.old.bus.ghost_name)
            × (new.until_short ≡ self.old.until_short)
            × Filled B.calls self.old.until_short self.old.reader.now.timeout
            (reading self.old.bus.now self.old.reader.now)
            (reading new.bus.now new.reader.now) result
            × ReadsAlong (B.calls.state self.old.bus.now) (B.calls.state new.bus.now)
            self.old.reader.now.endpoint new.reader.now.endpoint
            × KeepsSettings self.old.reader.now new.reader.now
            × (self.old.until_short ≡ true
            → FollowsOn (B.calls.state self.old.bus.now) (B.calls.state new.bus.now)
            self.old.reader.now new.reader.now))) }
    {
        let turned = match self.turn() {
            Ok(turned) => turned,
            Err(_) => return Err(Fail::Memory),
        };
        match self.answer(turned) {
            Ok(bytes) => Ok(bytes),
            Err(fault) => Err(Fail::Cause(fault)),
        }
    }
}

impl<'a, T: BulkOrInterrupt, B: Bus> BufRead for ReadOn<'a, T, B> {
    fn fill_buf(&mut self) -> io::Result<&[u8]>
        ensures* after_borrow { sem 𝓛
            (Rests (the_row (record { mir = named 1; lft = [] }) T.row B.row _ _ _)
            self.entry
            (λ new. (new.reader.ghost_name ≡ self.old.reader.ghost_name)
            × (new.bus.ghost_name ≡ self.old.bus.ghost_name)
            × (new.until_short ≡ self.old.until_short)
            × StdFilled B.calls self.old.until_short self.old.reader.now.timeout
            (reading self.old.bus.now self.old.reader.now)
            (reading new.bus.now new.reader.now) result
            × ReadsAlong (B.calls.state self.old.bus.now) (B.calls.state new.bus.now)
            self.old.reader.now.endpoint new.reader.now.endpoint
            × KeepsSettings self.old.reader.now new.reader.now
            × (self.old.until_short ≡ true
            → FollowsOn (B.calls.state self.old.bus.now) (B.calls.state new.bus.now)
            self.old.reader.now new.reader.now))) }
    {
        match self.fill_some() {
            Ok(bytes) => Ok(bytes),
            Err(fail) => Err(std_error(fail)),
        }
    }

    fn consume(&mut self, amount: usize)
        ensures bytes { DropsConsumable None None None amount }
        ensures same_reader { self.new.reader.ghost_name ≡ self.old.reader.ghost_name }
        ensures same_bus { self.new.bus.ghost_name ≡ self.old.bus.ghost_name }
        ensures until_short { self.new.until_short ≡ self.old.until_short }
        ensures read { self.new.reader.now ≡ with_read amount self.old.reader.now }
        ensures kept { self.new.bus.now ≡ self.old.bus.now }
    {
        self.reader.consume_most(amount);
    }
}
