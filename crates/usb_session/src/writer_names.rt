//! `writer`, `inner` and `close` of a writer: an endpoint becomes a writer's, comes back, or is
//! closed with it.

ghost use Rattle.std.specs.Prelude.{◌≡◌, is_some};
ghost use Rattle.usb_kernel.specs.Extends.{Extends};
ghost use Rattle.usb_session_calls.specs.State.{State};
ghost use Rattle.usb_session_calls.specs.Names.{named, freed};
ghost use Rattle.usb_session_calls.specs.Writers.{writer_answer, writer_inner_answer, writer_closed, close_writer_answer};
ghost use Rattle.usb_session_calls.specs.Relation.{Represents};
ghost use Rattle.usb_session_calls.specs.Answered.{Answers};

use crate::session::Session;
use usb_desc::NoMemory;
use usb_io::EndpointWrite;
use usb_script_lines::{Length, Name};
use usb_session_calls::{is_free, put_at, take_at};
use usb_session_text::{write_condition, write_ok};
use usb_xfer::{Any, Out};

impl Session {
    /// `writer`: a writer is made of an OUT endpoint under a name that is free, and the endpoint's
    /// name is free then.
    pub(crate) fn writer(
        &mut self,
        line: &mut String,
        writer: Name,
        endpoint: Name,
        transfer_size: Length,
    ) -> Result<(), NoMemory>
        ensures answered { Answers self.old self.new line.old line.new result
            (λ state. writer_answer state writer endpoint transfer_size) }
        ensures spare { self.new.host.kernel.spare ≡ self.old.host.kernel.spare }
        ensures later { Extends self.old.host.kernel.past self.new.host.kernel.past }
    {
        let name = writer.number();
        if !is_free(&self.writers, name) {
            return write_condition(line);
        }
        let number = endpoint.number();
        let Some(endpoint) = take_at(&mut self.endpoints, number) else {
            return write_condition(line);
        };
        match endpoint.narrow::<Any, Out>() {
            Ok(endpoint) => {
                let made = EndpointWrite::new(endpoint, transfer_size.bytes() as usize);
                put_at(&mut self.writers, name, made);
                write_ok(line)
            }
            Err(endpoint) => {
                put_at(&mut self.endpoints, number, endpoint);
                write_condition(line)
            }
        }
    }

    /// `inner`: the endpoint of a writer comes back under a name that is free, and the writer's name
    /// is free then.
    pub(crate) fn writer_inner(
        &mut self,
        line: &mut String,
        endpoint: Name,
        writer: Name,
    ) -> Result<(), NoMemory>
        ensures answered { Answers self.old self.new line.old line.new result
            (λ state. writer_inner_answer state endpoint writer) }
        ensures spare { self.new.host.kernel.spare ≡ self.old.host.kernel.spare }
        ensures later { Extends self.old.host.kernel.past self.new.host.kernel.past }
    {
        let name = endpoint.number();
        if !is_free(&self.endpoints, name) {
            return write_condition(line);
        }
        let number = writer.number();
        let Some(writer) = take_at(&mut self.writers, number) else {
            return write_condition(line);
        };
        put_at(&mut self.endpoints, name, writer.into_inner().widen());
        write_ok(line)
    }

    /// Closes what is open under a writer's name, and says whether anything was.
    pub(crate) fn close_writer_at(&mut self, name: Name) -> bool
        ensures was_open { result ≡ is_some (named self.old.writers name) }
        ensures stands { (state : State) → Represents self.old state →
            Represents self.new (writer_closed state name) }
        ensures freed { self.new.writers ≡ freed self.old.writers name }
        ensures readers { self.new.readers ≡ self.old.readers }
        ensures clients { self.new.clients ≡ self.old.clients }
        ensures spare { self.new.host.kernel.spare ≡ self.old.host.kernel.spare }
    {
        let Some(writer) = take_at(&mut self.writers, name.number()) else {
            return false;
        };
        writer.close(&mut self.host);
        true
    }

    /// `close`: a writer is closed with its endpoint, as an endpoint is.
    pub(crate) fn close_writer(&mut self, line: &mut String, name: Name) -> Result<(), NoMemory>
        ensures answered { Answers self.old self.new line.old line.new result
            (λ state. close_writer_answer state name) }
        ensures spare { self.new.host.kernel.spare ≡ self.old.host.kernel.spare }
        ensures later { Extends self.old.host.kernel.past self.new.host.kernel.past }
    {
        if self.close_writer_at(name) {
            write_ok(line)
        } else {
            write_condition(line)
        }
    }
}
