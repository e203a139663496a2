//! `msg` and `close` of a client of messages: two endpoints become a client's, or are closed with
//! it.

ghost use Rattle.std.specs.Prelude.{◌≡◌, [], Some, is_some, IfSome, OnSome, IfNone};
ghost use Rattle.usb_kernel.specs.Extends.{Extends};
ghost use Rattle.usb_desc.specs.Fields.{direction_of_address};
ghost use Rattle.usb_device_endpoint.specs.EndpointState.{EndpointState};
ghost use Rattle.usb_session_calls.specs.State.{State};
ghost use Rattle.usb_session_calls.specs.Names.{named, freed};
ghost use Rattle.usb_session_calls.specs.Clients.{client_answer, client_closed, close_client_answer};
ghost use Rattle.usb_session_calls.specs.Relation.{Represents};
ghost use Rattle.usb_session_calls.specs.Answered.{Answers};

use crate::session::Session;
use usb_desc::NoMemory;
use usb_device_endpoint::Endpoint;
use usb_msg::MsgClient;
use usb_script_lines::Name;
use usb_session_calls::{is_free, put_at, take_at};
use usb_session_text::{write_condition, write_ok};
use usb_xfer::{Any, EndpointDirection, In, Out};

/// Takes the endpoint of a name out, where one of this direction is open with nothing pending.
fn take_idle<D: EndpointDirection>(
    endpoints: &mut Vec<Option<Endpoint<Any, Any>>>,
    number: u8,
) -> Option<Endpoint<Any, D>>
    ensures taken { IfSome result (λ e. named endpoints.old.items number ≡ Some e) }
    ensures idle { IfSome result (λ e. e.pending ≡ []) }
    ensures admitted { IfSome result (λ e. D.admits (direction_of_address e.address)) }
    ensures rest { OnSome result (endpoints.new.items ≡ freed endpoints.old.items number) }
    ensures stays { IfNone result (endpoints.new.items ≡ endpoints.old.items) }
    ensures other { IfNone result ((e : EndpointState) → named endpoints.old.items number ≡ Some e →
        e.pending ≡ [] → D.admits (direction_of_address e.address) → ⊥) }
{
    let Some(endpoint) = take_at(endpoints, number) else {
        return None;
    };
    if endpoint.pending() > 0 {
        put_at(endpoints, number, endpoint);
        return None;
    }
    match endpoint.narrow::<Any, D>() {
        Ok(endpoint) => Some(endpoint),
        Err(endpoint) => {
            put_at(endpoints, number, endpoint);
            None
        }
    }
}

impl Session {
    /// `msg`: a client is made of an OUT endpoint and an IN endpoint with nothing pending, under a
    /// name that is free, and the endpoints' names are free then.
    pub(crate) fn client(
        &mut self,
        line: &mut String,
        client: Name,
        out: Name,
        inp: Name,
    ) -> Result<(), NoMemory>
        ensures answered { Answers self.old self.new line.old line.new result
            (λ state. client_answer state client out inp) }
        ensures spare { self.new.host.kernel.spare ≡ self.old.host.kernel.spare }
        ensures later { Extends self.old.host.kernel.past self.new.host.kernel.past }
    {
        let name = client.number();
        if !is_free(&self.clients, name) {
            return write_condition(line);
        }
        let first = out.number();
        let second = inp.number();
        let Some(sent) = take_idle::<Out>(&mut self.endpoints, first) else {
            return write_condition(line);
        };
        let Some(received) = take_idle::<In>(&mut self.endpoints, second) else {
            put_at(&mut self.endpoints, first, sent.widen());
            return write_condition(line);
        };
        match MsgClient::new(sent, received) {
            Ok(made) => {
                put_at(&mut self.clients, name, made);
                write_ok(line)
            }
            Err((sent, received)) => {
                put_at(&mut self.endpoints, second, received.widen());
                put_at(&mut self.endpoints, first, sent.widen());
                Err(NoMemory)
            }
        }
    }

    /// Closes what is open under a client's name, and says whether anything was.
    pub(crate) fn close_client_at(&mut self, name: Name) -> bool
        ensures was_open { result ≡ is_some (named self.old.clients name) }
        ensures stands { (state : State) → Represents self.old state →
            Represents self.new (client_closed state name) }
        ensures freed { self.new.clients ≡ freed self.old.clients name }
        ensures spare { self.new.host.kernel.spare ≡ self.old.host.kernel.spare }
    {
        let Some(client) = take_at(&mut self.clients, name.number()) else {
            return false;
        };
        client.close(&mut self.host);
        true
    }

    /// `close`: a client is closed with both endpoints, its writer's and then its reader's.
    pub(crate) fn close_client(&mut self, line: &mut String, name: Name) -> Result<(), NoMemory>
        ensures answered { Answers self.old self.new line.old line.new result
            (λ state. close_client_answer state name) }
        ensures spare { self.new.host.kernel.spare ≡ self.old.host.kernel.spare }
        ensures later { Extends self.old.host.kernel.past self.new.host.kernel.past }
    {
        if self.close_client_at(name) {
            write_ok(line)
        } else {
            write_condition(line)
        }
    }
}
