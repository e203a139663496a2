//! `reader`, `inner` and `close` of a reader: an endpoint becomes a reader's, comes back, or is
//! closed with it.

ghost use Rattle.std.specs.Prelude.{◌≡◌, is_some};
ghost use Rattle.usb_kernel.specs.Extends.{Extends};
ghost use Rattle.usb_session_calls.specs.State.{State};
ghost use Rattle.usb_session_calls.specs.Names.{named, freed};
ghost use Rattle.usb_session_calls.specs.Readers.{reader_answer, inner_answer, reader_closed, close_reader_answer};
ghost use Rattle.usb_session_calls.specs.Relation.{Represents};
ghost use Rattle.usb_session_calls.specs.Answered.{Answers};

use crate::session::Session;
use usb_desc::NoMemory;
use usb_io::EndpointRead;
use usb_script_lines::{Length, Name};
use usb_session_calls::{is_free, put_at, take_at};
use usb_session_text::{write_condition, write_ok};
use usb_xfer::{Any, In};

impl Session {
    /// `reader`: a reader is made of an IN endpoint under a name that is free, and the endpoint's
    /// name is free then.
    pub(crate) fn reader(
        &mut self,
        line: &mut String,
        reader: Name,
        endpoint: Name,
        transfer_size: Length,
    ) -> Result<(), NoMemory>
        ensures answered { Answers self.old self.new line.old line.new result
            (λ state. reader_answer state reader endpoint transfer_size) }
        ensures spare { self.new.host.kernel.spare ≡ self.old.host.kernel.spare }
        ensures later { Extends self.old.host.kernel.past self.new.host.kernel.past }
    {
        let name = reader.number();
        if !is_free(&self.readers, name) {
            return write_condition(line);
        }
        let number = endpoint.number();
        let Some(endpoint) = take_at(&mut self.endpoints, number) else {
            return write_condition(line);
        };
        match endpoint.narrow::<Any, In>() {
            Ok(endpoint) => {
                let made = EndpointRead::new(endpoint, transfer_size.bytes() as usize);
                put_at(&mut self.readers, name, made);
                write_ok(line)
            }
            Err(endpoint) => {
                put_at(&mut self.endpoints, number, endpoint);
                write_condition(line)
            }
        }
    }

    /// `inner`: the endpoint of a reader comes back under a name that is free, and the reader's name
    /// is free then.
    pub(crate) fn inner(
        &mut self,
        line: &mut String,
        endpoint: Name,
        reader: Name,
    ) -> Result<(), NoMemory>
        ensures answered { Answers self.old self.new line.old line.new result
            (λ state. inner_answer state endpoint reader) }
        ensures spare { self.new.host.kernel.spare ≡ self.old.host.kernel.spare }
        ensures later { Extends self.old.host.kernel.past self.new.host.kernel.past }
    {
        let name = endpoint.number();
        if !is_free(&self.endpoints, name) {
            return write_condition(line);
        }
        let number = reader.number();
        let Some(reader) = take_at(&mut self.readers, number) else {
            return write_condition(line);
        };
        put_at(&mut self.endpoints, name, reader.into_inner().widen());
        write_ok(line)
    }

    /// Closes what is open under a reader's name, and says whether anything was.
    pub(crate) fn close_reader_at(&mut self, name: Name) -> bool
        ensures was_open { result ≡ is_some (named self.old.readers name) }
        ensures stands { (state : State) → Represents self.old state →
            Represents self.new (reader_closed state name) }
        ensures freed { self.new.readers ≡ freed self.old.readers name }
        ensures clients { self.new.clients ≡ self.old.clients }
        ensures spare { self.new.host.kernel.spare ≡ self.old.host.kernel.spare }
    {
        let Some(reader) = take_at(&mut self.readers, name.number()) else {
            return false;
        };
        reader.close(&mut self.host);
        true
    }

    /// `close`: a reader is closed with its endpoint, as an endpoint is.
    pub(crate) fn close_reader(&mut self, line: &mut String, name: Name) -> Result<(), NoMemory>
        ensures answered { Answers self.old self.new line.old line.new result
            (λ state. close_reader_answer state name) }
        ensures spare { self.new.host.kernel.spare ≡ self.old.host.kernel.spare }
        ensures later { Extends self.old.host.kernel.past self.new.host.kernel.past }
    {
        if self.close_reader_at(name) {
            write_ok(line)
        } else {
            write_condition(line)
        }
    }
}
