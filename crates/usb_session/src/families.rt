//! Calls on what is open under a name, a method for each family.

ghost use Rattle.std.specs.Prelude.{◌≡◌, ◌≤◌, ◌+◌, length};
ghost use Rattle.usb_kernel.specs.Extends.{Extends};
ghost use Rattle.usb_session_calls.specs.Answered.{Answers};
ghost use Rattle.usb_session_calls.specs.DeviceCalls.{device_places, on_device};
ghost use Rattle.usb_session_calls.specs.InterfaceCalls.{on_interface};
ghost use Rattle.usb_session_calls.specs.Steps.{along_steps};
ghost use Rattle.usb_session_calls.specs.EndpointCalls.{on_endpoint};
ghost use Rattle.usb_session_calls.specs.CalledReaders.{on_reader};
ghost use Rattle.usb_session_calls.specs.CalledWriters.{on_writer};
ghost use Rattle.usb_session_calls.specs.CalledClients.{on_client};
ghost use Rattle.usb_session_calls.specs.Controls.{on_control};

use crate::session::Session;
use usb_desc::NoMemory;
use usb_script_lines::{Name, Steps};
use usb_session_calls::{
    ClientCall, ControlCall, DeviceCall, EndpointCall, InterfaceCall, ReaderCall, WriterCall,
    call_client, call_control, call_device, call_endpoint, call_interface, call_reader,
    call_writer, open_at, put_at, take_at,
};
use usb_session_text::write_condition;

impl Session {
    /// A call on the open device of this name. For a reset the kernel must have a place.
    pub(crate) fn on_device(
        &mut self,
        line: &mut String,
        name: Name,
        call: DeviceCall,
    ) -> Result<(), NoMemory>
        requires room { device_places call ≤ self.old.host.kernel.spare }
        ensures answered { Answers self.old self.new line.old line.new result
            (λ state. on_device state name call) }
        ensures spare { self.old.host.kernel.spare
            ≤ self.new.host.kernel.spare + device_places call }
        ensures later { Extends self.old.host.kernel.past self.new.host.kernel.past }
    {
        let Some(device) = open_at(&self.devices, name.number()) else {
            return write_condition(line);
        };
        call_device(device, &mut self.host, line, call)
    }

    /// A call on the claimed interface of this name.
    pub(crate) fn on_interface(
        &mut self,
        line: &mut String,
        name: Name,
        call: InterfaceCall,
    ) -> Result<(), NoMemory>
        ensures answered { Answers self.old self.new line.old line.new result
            (λ state. on_interface state name call) }
        ensures spare { self.new.host.kernel.spare ≡ self.old.host.kernel.spare }
        ensures later { Extends self.old.host.kernel.past self.new.host.kernel.past }
    {
        let Some(interface) = open_at(&self.interfaces, name.number()) else {
            return write_condition(line);
        };
        call_interface(interface, &mut self.host, line, call)
    }

    /// A call on the open endpoint of this name. The steps are applied while it waits, and those that are left right
    /// after it.
    pub(crate) fn on_endpoint(
        &mut self,
        line: &mut String,
        name: Name,
        call: EndpointCall,
        steps: Steps,
    ) -> Result<(), NoMemory>
        requires room { length steps ≤ self.old.host.kernel.spare }
        ensures answered { Answers self.old self.new line.old line.new result
            (λ state. along_steps state steps (λ s. on_endpoint s name call)) }
        ensures spare { self.new.host.kernel.spare + length steps ≡ self.old.host.kernel.spare }
        ensures later { Extends self.old.host.kernel.past self.new.host.kernel.past }
    {
        let number = name.number();
        self.host.lend_steps(steps.into_vec());
        let Some(mut endpoint) = take_at(&mut self.endpoints, number) else {
            self.host.rest();
            return write_condition(line);
        };
        let called = call_endpoint(&mut endpoint, &mut self.host, line, call);
        put_at(&mut self.endpoints, number, endpoint);
        self.host.rest();
        called
    }

    /// A call on the reader of this name. The steps are applied while it waits, and those that are left right after it.
    pub(crate) fn on_reader(
        &mut self,
        line: &mut String,
        name: Name,
        call: ReaderCall,
        steps: Steps,
    ) -> Result<(), NoMemory>
        requires room { length steps ≤ self.old.host.kernel.spare }
        ensures answered { Answers self.old self.new line.old line.new result
            (λ state. along_steps state steps (λ s. on_reader s name call)) }
        ensures spare { self.new.host.kernel.spare + length steps ≡ self.old.host.kernel.spare }
        ensures later { Extends self.old.host.kernel.past self.new.host.kernel.past }
    {
        let number = name.number();
        self.host.lend_steps(steps.into_vec());
        let Some(mut reader) = take_at(&mut self.readers, number) else {
            self.host.rest();
            return write_condition(line);
        };
        let called = call_reader(&mut reader, &mut self.host, line, call);
        put_at(&mut self.readers, number, reader);
        self.host.rest();
        called
    }

    /// A call on the writer of this name. The steps are applied while it waits, and those that are left right after it.
    pub(crate) fn on_writer(
        &mut self,
        line: &mut String,
        name: Name,
        call: WriterCall,
        steps: Steps,
    ) -> Result<(), NoMemory>
        requires room { length steps ≤ self.old.host.kernel.spare }
        ensures answered { Answers self.old self.new line.old line.new result
            (λ state. along_steps state steps (λ s. on_writer s name call)) }
        ensures spare { self.new.host.kernel.spare + length steps ≡ self.old.host.kernel.spare }
        ensures later { Extends self.old.host.kernel.past self.new.host.kernel.past }
    {
        let number = name.number();
        self.host.lend_steps(steps.into_vec());
        let Some(mut writer) = take_at(&mut self.writers, number) else {
            self.host.rest();
            return write_condition(line);
        };
        let called = call_writer(&mut writer, &mut self.host, line, call);
        put_at(&mut self.writers, number, writer);
        self.host.rest();
        called
    }

    /// A call on the client of this name. The steps are applied while it waits, and those that are left right after it.
    pub(crate) fn on_client(
        &mut self,
        line: &mut String,
        name: Name,
        call: ClientCall,
        steps: Steps,
    ) -> Result<(), NoMemory>
        requires room { length steps ≤ self.old.host.kernel.spare }
        ensures answered { Answers self.old self.new line.old line.new result
            (λ state. along_steps state steps (λ s. on_client s name call)) }
        ensures spare { self.new.host.kernel.spare + length steps ≡ self.old.host.kernel.spare }
        ensures later { Extends self.old.host.kernel.past self.new.host.kernel.past }
    {
        let number = name.number();
        self.host.lend_steps(steps.into_vec());
        let Some(mut client) = take_at(&mut self.clients, number) else {
            self.host.rest();
            return write_condition(line);
        };
        let called = call_client(&mut client, &mut self.host, line, call);
        put_at(&mut self.clients, number, client);
        self.host.rest();
        called
    }

    /// A control transfer that is awaited. The steps are applied while it is, and those that are left right after it.
    pub(crate) fn on_control(
        &mut self,
        line: &mut String,
        call: ControlCall,
        steps: Steps,
    ) -> Result<(), NoMemory>
        requires room { length steps ≤ self.old.host.kernel.spare }
        ensures answered { Answers self.old self.new line.old line.new result
            (λ state. along_steps state steps (λ s. on_control s call)) }
        ensures spare { self.new.host.kernel.spare + length steps ≡ self.old.host.kernel.spare }
        ensures later { Extends self.old.host.kernel.past self.new.host.kernel.past }
    {
        self.host.lend_steps(steps.into_vec());
        let called = call_control(&self.devices, &self.interfaces, &mut self.host, line, call);
        self.host.rest();
        called
    }
}
