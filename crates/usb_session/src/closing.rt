//! `close` and `release`.

ghost use Rattle.std.specs.Prelude.{◌≡◌, is_some};
ghost use Rattle.usb_kernel.specs.Extends.{Extends};
ghost use Rattle.usb_session_calls.specs.State.{State};
ghost use Rattle.usb_session_calls.specs.Names.{named, freed};
ghost use Rattle.usb_session_calls.specs.Closes.{closed, close_answer, close_future_answer, close_device_answer, close_interface_answer, release_answer};
ghost use Rattle.usb_session.specs.Ends.{future_closed_under, interface_closed, name_closed};
ghost use Rattle.usb_session_calls.specs.Relation.{Represents};
ghost use Rattle.usb_session_calls.specs.SessionState.{open_under};
ghost use Rattle.usb_session_calls.specs.Answered.{Answers};

use crate::session::Session;
use usb_desc::NoMemory;
use usb_script_lines::Name;
use usb_session_calls::{put_at, take_at};
use usb_session_text::{write_condition, write_error, write_ok};

impl Session {
    /// Closes what is open under the number of an endpoint's name, and says whether anything was.
    pub(crate) fn close_endpoint(&mut self, number: u8) -> bool
        ensures was_open { result ≡ is_some (named self.old.endpoints number) }
        ensures stands { (state : State) → Represents self.old state →
            Represents self.new (closed state number) }
        ensures freed { self.new.endpoints ≡ freed self.old.endpoints number }
        ensures readers { self.new.readers ≡ self.old.readers }
        ensures writers { self.new.writers ≡ self.old.writers }
        ensures clients { self.new.clients ≡ self.old.clients }
        ensures spare { self.new.host.kernel.spare ≡ self.old.host.kernel.spare }
    {
        let Some(endpoint) = take_at(&mut self.endpoints, number) else {
            return false;
        };
        endpoint.close(&mut self.host);
        true
    }

    /// `close`: the pending transfers of an endpoint are discarded and given up, and its key is
    /// open no more.
    pub(crate) fn close(&mut self, line: &mut String, name: Name) -> Result<(), NoMemory>
        ensures answered { Answers self.old self.new line.old line.new result
            (λ state. close_answer state name) }
        ensures spare { self.new.host.kernel.spare ≡ self.old.host.kernel.spare }
        ensures later { Extends self.old.host.kernel.past self.new.host.kernel.past }
    {
        if self.close_endpoint(name.number()) {
            write_ok(line)
        } else {
            write_condition(line)
        }
    }

    /// Closes what is open under the number of a future's name, and says whether anything was.
    pub(crate) fn close_future_at(&mut self, number: u8) -> bool
        ensures was_open { result ≡ is_some (named self.old.futures number) }
        ensures stands { (state : State) → Represents self.old state →
            Represents self.new (future_closed_under state number) }
        ensures freed { self.new.futures ≡ freed self.old.futures number }
        ensures endpoints { open_under self.new ≡ open_under self.old }
        ensures spare { self.new.host.kernel.spare ≡ self.old.host.kernel.spare }
    {
        let Some(future) = take_at(&mut self.futures, number) else {
            return false;
        };
        future.close(&mut self.host);
        true
    }

    /// `close`: a future is closed. Its transfer goes on, and nobody can take it any more.
    pub(crate) fn close_future(&mut self, line: &mut String, name: Name) -> Result<(), NoMemory>
        ensures answered { Answers self.old self.new line.old line.new result
            (λ state. close_future_answer state name) }
        ensures spare { self.new.host.kernel.spare ≡ self.old.host.kernel.spare }
        ensures later { Extends self.old.host.kernel.past self.new.host.kernel.past }
    {
        if self.close_future_at(name.number()) {
            write_ok(line)
        } else {
            write_condition(line)
        }
    }

    /// Closes what is open under the number of a device's name, and says whether anything was.
    pub(crate) fn close_name(&mut self, number: u8) -> bool
        ensures was_open { result ≡ is_some (named self.old.devices number) }
        ensures stands { (state : State) → Represents self.old state →
            Represents self.new (name_closed state number) }
        ensures freed { self.new.devices ≡ freed self.old.devices number }
        ensures interfaces { self.new.interfaces ≡ self.old.interfaces }
        ensures endpoints { open_under self.new ≡ open_under self.old }
        ensures futures { self.new.futures ≡ self.old.futures }
        ensures spare { self.new.host.kernel.spare ≡ self.old.host.kernel.spare }
    {
        let Some(device) = take_at(&mut self.devices, number) else {
            return false;
        };
        device.close(&mut self.host);
        true
    }

    /// `close`: a handle of a device is closed.
    pub(crate) fn close_device(&mut self, line: &mut String, name: Name) -> Result<(), NoMemory>
        ensures answered { Answers self.old self.new line.old line.new result
            (λ state. close_device_answer state name) }
        ensures spare { self.new.host.kernel.spare ≡ self.old.host.kernel.spare }
        ensures later { Extends self.old.host.kernel.past self.new.host.kernel.past }
    {
        if self.close_name(name.number()) {
            write_ok(line)
        } else {
            write_condition(line)
        }
    }

    /// Closes what is open under the number of an interface's name, and says whether anything was.
    pub(crate) fn close_handle(&mut self, number: u8) -> bool
        ensures was_open { result ≡ is_some (named self.old.interfaces number) }
        ensures stands { (state : State) → Represents self.old state →
            Represents self.new (interface_closed state number) }
        ensures freed { self.new.interfaces ≡ freed self.old.interfaces number }
        ensures endpoints { open_under self.new ≡ open_under self.old }
        ensures futures { self.new.futures ≡ self.old.futures }
        ensures spare { self.new.host.kernel.spare ≡ self.old.host.kernel.spare }
    {
        let Some(interface) = take_at(&mut self.interfaces, number) else {
            return false;
        };
        interface.close(&mut self.host);
        true
    }

    /// `close`: a handle of an interface is closed.
    pub(crate) fn close_interface(&mut self, line: &mut String, name: Name) -> Result<(), NoMemory>
        ensures answered { Answers self.old self.new line.old line.new result
            (λ state. close_interface_answer state name) }
        ensures spare { self.new.host.kernel.spare ≡ self.old.host.kernel.spare }
        ensures later { Extends self.old.host.kernel.past self.new.host.kernel.past }
    {
        if self.close_handle(name.number()) {
            write_ok(line)
        } else {
            write_condition(line)
        }
    }

    /// `release`: the claim of an interface ends. The name stays where it has another owner.
    pub(crate) fn release(&mut self, line: &mut String, name: Name) -> Result<(), NoMemory>
        ensures answered { Answers self.old self.new line.old line.new result
            (λ state. release_answer state name) }
        ensures spare { self.new.host.kernel.spare ≡ self.old.host.kernel.spare }
        ensures later { Extends self.old.host.kernel.past self.new.host.kernel.past }
    {
        let number = name.number();
        let Some(interface) = take_at(&mut self.interfaces, number) else {
            return write_condition(line);
        };
        match interface.release(&mut self.host) {
            Ok(()) => write_ok(line),
            Err((interface, error)) => {
                put_at(&mut self.interfaces, number, interface);
                write_error(line, &error)
            }
        }
    }
}
