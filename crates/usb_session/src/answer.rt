//! The answer to a line of a script.

ghost use Rattle.std.specs.Prelude.{◌≡◌, ◌≤◌, ◌+◌, OnOk, length, string_bytes};
ghost use Rattle.usb_kernel.specs.Extends.{Extends};
ghost use Rattle.usb_script_lines.specs.ItemKinds.{steps_in, places_in};
ghost use Rattle.usb_session_calls.specs.State.{State};
ghost use Rattle.usb_session_calls.specs.Answer.{condition_answer};
ghost use Rattle.usb_session_calls.specs.Steps.{stepped_all};
ghost use Rattle.usb_session_calls.specs.Calls.{places_of};
ghost use Rattle.usb_session.specs.TreeCalls.{on_tree};
ghost use Rattle.usb_session.specs.NameCalls.{on_open, on_close};
ghost use Rattle.usb_session.specs.Futures.{on_future};
ghost use Rattle.usb_session.specs.CallAnswers.{call_answer};
ghost use Rattle.usb_session.specs.Crowded.{bars_line};
ghost use Rattle.usb_session.specs.Answers.{answer};
ghost use Rattle.usb_session_calls.specs.Answered.{Answers};
ghost use Rattle.usb_session_calls.specs.Relation.{Represents};

use crate::session::Session;
use usb_desc::NoMemory;
use usb_script_lines::{Item, Name};
use usb_session_calls::{Call, CloseCall, FutureCall, OpenCall, TreeCall, call_of};
use usb_session_streams::MOST_UNREAPED;
use usb_session_text::write_condition;

impl Session {
    /// The answer to what is asked of the tree of attributes, or of the packets of udev.
    fn on_tree(&mut self, line: &mut String, call: TreeCall) -> Result<(), NoMemory>
        ensures answered { Answers self.old self.new line.old line.new result
            (λ state. on_tree state call) }
        ensures spare { self.new.host.kernel.spare ≡ self.old.host.kernel.spare }
        ensures later { Extends self.old.host.kernel.past self.new.host.kernel.past }
    {
        match call {
            TreeCall::List => self.list(line),
            TreeCall::Buses => self.buses(line),
            TreeCall::Probe(path) => self.probe(line, &path),
            TreeCall::Match(path, selector) => self.match_device(line, &path, &selector),
            TreeCall::Hotplug => self.hotplug(line),
        }
    }

    /// The answer to a call that opens something under a name that is free.
    fn on_open(&mut self, line: &mut String, call: OpenCall) -> Result<(), NoMemory>
        ensures answered { Answers self.old self.new line.old line.new result
            (λ state. on_open state call) }
        ensures spare { self.new.host.kernel.spare ≡ self.old.host.kernel.spare }
        ensures later { Extends self.old.host.kernel.past self.new.host.kernel.past }
    {
        match call {
            OpenCall::Device {
                device,
                bus,
                address,
            } => self.open(line, device, bus, address),
            OpenCall::Path { device, path } => self.open_path(line, device, &path),
            OpenCall::CloneDevice { name, device } => self.clone_device(line, name, device),
            OpenCall::Claim {
                device,
                number,
                interface,
                detach,
            } => self.claim(line, device, number, interface, detach),
            OpenCall::CloneInterface { name, interface } => {
                self.clone_interface(line, name, interface)
            }
            OpenCall::Endpoint {
                endpoint,
                interface,
                address,
                kind,
            } => self.endpoint(line, endpoint, interface, address, kind),
            OpenCall::Reader {
                reader,
                endpoint,
                transfer_size,
            } => self.reader(line, reader, endpoint, transfer_size),
            OpenCall::ReaderInner { endpoint, reader } => self.inner(line, endpoint, reader),
            OpenCall::Writer {
                writer,
                endpoint,
                transfer_size,
            } => self.writer(line, writer, endpoint, transfer_size),
            OpenCall::WriterInner { endpoint, writer } => self.writer_inner(line, endpoint, writer),
            OpenCall::Client { client, out, inp } => self.client(line, client, out, inp),
            OpenCall::ControlIn {
                future,
                target,
                setup,
                length,
                timeout,
            } => self.start_control_in(line, future, target, setup, length, timeout),
            OpenCall::ControlOut {
                future,
                target,
                setup,
                bytes,
                timeout,
            } => self.start_control_out(line, future, target, setup, bytes, timeout),
        }
    }

    /// The answer to a call that closes what is open under a name.
    fn on_close(&mut self, line: &mut String, call: CloseCall) -> Result<(), NoMemory>
        ensures answered { Answers self.old self.new line.old line.new result
            (λ state. on_close state call) }
        ensures spare { self.new.host.kernel.spare ≡ self.old.host.kernel.spare }
        ensures later { Extends self.old.host.kernel.past self.new.host.kernel.past }
    {
        match call {
            CloseCall::Device(name) => self.close_device(line, name),
            CloseCall::Interface(name) => self.close_interface(line, name),
            CloseCall::Release(name) => self.release(line, name),
            CloseCall::Endpoint(name) => self.close(line, name),
            CloseCall::Reader(name) => self.close_reader(line, name),
            CloseCall::Writer(name) => self.close_writer(line, name),
            CloseCall::Client(name) => self.close_client(line, name),
            CloseCall::Future(name) => self.close_future(line, name),
        }
    }

    /// The answer to a call on the control transfer on its way that has this name.
    fn on_future(&mut self, line: &mut String, name: Name, call: FutureCall) -> Result<(), NoMemory>
        requires room { places_of (Call.Future name call) ≤ self.old.host.kernel.spare }
        ensures answered { Answers self.old self.new line.old line.new result
            (λ state. on_future state name call) }
        ensures spare { self.new.host.kernel.spare + places_of (Call.Future name call)
            ≡ self.old.host.kernel.spare }
        ensures later { Extends self.old.host.kernel.past self.new.host.kernel.past }
    {
        match call {
            FutureCall::Poll => self.poll_future(line, name),
            FutureCall::Wait(steps) => self.wait_future(line, name, steps),
        }
    }

    /// The answer to a call while the session is not crowded.
    #[tactic(auto, unfolding(crate::specs::CallAnswers::call_answer))]
    fn call(&mut self, line: &mut String, call: Call) -> Result<(), NoMemory>
        requires spare { places_of call ≤ self.old.host.kernel.spare }
        ensures answered { Answers self.old self.new line.old line.new result
            (λ state. call_answer state call) }
        ensures spare { self.old.host.kernel.spare
            ≤ self.new.host.kernel.spare + places_of call }
        ensures later { Extends self.old.host.kernel.past self.new.host.kernel.past }
    {
        match call {
            Call::Setup => Ok(()),
            Call::Steps(steps) => {
                self.step_all(steps);
                Ok(())
            }
            Call::Now => self.now(line),
            Call::Tree(call) => self.on_tree(line, call),
            Call::Open(call) => self.on_open(line, call),
            Call::Close(call) => self.on_close(line, call),
            Call::Device(name, call) => self.on_device(line, name, call),
            Call::Interface(name, call) => self.on_interface(line, name, call),
            Call::Endpoint(name, call, steps) => self.on_endpoint(line, name, call, steps),
            Call::Reader(name, call, steps) => self.on_reader(line, name, call, steps),
            Call::Writer(name, call, steps) => self.on_writer(line, name, call, steps),
            Call::Client(name, call, steps) => self.on_client(line, name, call, steps),
            Call::Control(call, steps) => self.on_control(line, call, steps),
            Call::Future(name, call) => self.on_future(line, name, call),
        }
    }

    /// Whether a line is a call in a crowded session: more tickets are unreaped than calls may hand in.
    fn bars_line(&self, item: &Item) -> bool
        ensures value { (state : State) → Represents self.now state →
            result ≡ bars_line state item.now }
    {
        if !item.is_call() {
            return false;
        }
        self.host.kernel().unreaped() > MOST_UNREAPED
    }

    /// The answer to such a line: it is barred, and its steps are applied.
    fn answer_barred(&mut self, line: &mut String, item: Item) -> Result<(), NoMemory>
        requires spare { places_in item ≤ self.old.host.kernel.spare }
        ensures answered { Answers self.old self.new line.old line.new result
            (λ state. condition_answer (stepped_all state (steps_in item))) }
        ensures spare { self.old.host.kernel.spare ≤ self.new.host.kernel.spare + places_in item }
        ensures later { Extends self.old.host.kernel.past self.new.host.kernel.past }
    {
        let steps = item.into_steps(*line.allocator());
        self.step_all(steps);
        write_condition(line)
    }

    /// Appends the line that answers an item of a script, with its LF, and nothing where the item has no answer.
    pub fn answer(&mut self, line: &mut String, item: Item) -> Result<(), NoMemory>
        requires spare { places_in item ≤ self.old.host.kernel.spare }
        ensures answered { Answers self.old self.new line.old line.new result
            (λ state. answer state item) }
        ensures spare { OnOk result
            (self.old.host.kernel.spare ≤ self.new.host.kernel.spare + places_in item) }
        ensures later { Extends self.old.host.kernel.past self.new.host.kernel.past }
    {
        if self.bars_line(&item) {
            return self.answer_barred(line, item);
        }
        self.call(line, call_of(*line.allocator(), item))
    }
}
