//! The call of a line.

ghost use Rattle.std.specs.Prelude.{◌≡◌, []};
ghost use Rattle.usb_script_lines.specs.ItemKinds.{places_in};
ghost use Rattle.usb_session_calls.specs.Calls.{call_of, places_of};

use crate::call::{
    Call, ClientCall, CloseCall, ControlCall, DeviceCall, EndpointCall, FutureCall, InterfaceCall,
    OpenCall, ReaderCall, TreeCall, WriterCall,
};
use std::alloc::Global;
use usb_script_lines::{Item, Steps};

// The call of an item, by a row for each of its forms.
macro_rules! call_by_form {
    ($item:expr; $($variant:ident $fields:tt => $call:expr;)*) => {
        match $item {
            $(Item::$variant $fields => $call,)*
        }
    };
}

/// The steps of a line that has none.
fn no_steps(alloc: Global) -> Steps
    ensures none { result ≡ [] }
{
    Steps::from_vec(Vec::new(alloc))
}

/// The call of a line.
#[tactic(auto, unfolding(crate::specs::Calls::call_of))]
pub fn call_of(alloc: Global, item: Item) -> Call
    ensures call { result ≡ call_of item }
    ensures places { places_of result ≡ places_in item }
{
    call_by_form! {
        item;
        Device { .. } => Call::Setup;
        Driver { .. } => Call::Setup;
        Attribute { .. } => Call::Setup;
        Denied { .. } => Call::Setup;
        Child { .. } => Call::Setup;
        Link { .. } => Call::Setup;
        Entry { .. } => Call::Setup;
        Root { .. } => Call::Setup;
        Uevent { .. } => Call::Setup;
        Steps (steps) => Call::Steps(steps);
        Now {} => Call::Now;
        List {} => Call::Tree(TreeCall::List);
        Buses {} => Call::Tree(TreeCall::Buses);
        Probe { path } => Call::Tree(TreeCall::Probe(path));
        Match { path, selector } => Call::Tree(TreeCall::Match(path, selector));
        Hotplug {} => Call::Tree(TreeCall::Hotplug);
        Open { device, bus, address } => Call::Open(OpenCall::Device { device, bus, address });
        OpenPath { device, path } => Call::Open(OpenCall::Path { device, path });
        CloneDevice { name, device } => Call::Open(OpenCall::CloneDevice { name, device });
        Claim { device, number, interface } =>
            Call::Open(OpenCall::Claim { device, number, interface, detach: false });
        DetachAndClaim { device, number, interface } =>
            Call::Open(OpenCall::Claim { device, number, interface, detach: true });
        CloneInterface { name, interface } =>
            Call::Open(OpenCall::CloneInterface { name, interface });
        Endpoint { endpoint, interface, address, kind } =>
            Call::Open(OpenCall::Endpoint { endpoint, interface, address, kind });
        Reader { reader, endpoint, transfer_size } =>
            Call::Open(OpenCall::Reader { reader, endpoint, transfer_size });
        IntoInner { endpoint, reader } => Call::Open(OpenCall::ReaderInner { endpoint, reader });
        Writer { writer, endpoint, transfer_size } =>
            Call::Open(OpenCall::Writer { writer, endpoint, transfer_size });
        WriterIntoInner { endpoint, writer } =>
            Call::Open(OpenCall::WriterInner { endpoint, writer });
        Client { client, out, inp } => Call::Open(OpenCall::Client { client, out, inp });
        StartControlIn { future, target, setup, length, timeout } =>
            Call::Open(OpenCall::ControlIn { future, target, setup, length, timeout });
        StartControlOut { future, target, setup, bytes, timeout } =>
            Call::Open(OpenCall::ControlOut { future, target, setup, bytes, timeout });
        CloseDevice { device } => Call::Close(CloseCall::Device(device));
        CloseInterface { interface } => Call::Close(CloseCall::Interface(interface));
        Release { interface } => Call::Close(CloseCall::Release(interface));
        CloseEndpoint { endpoint } => Call::Close(CloseCall::Endpoint(endpoint));
        CloseReader { reader } => Call::Close(CloseCall::Reader(reader));
        CloseWriter { writer } => Call::Close(CloseCall::Writer(writer));
        CloseClient { client } => Call::Close(CloseCall::Client(client));
        CloseFuture { future } => Call::Close(CloseCall::Future(future));
        DeviceDescriptor { device } => Call::Device(device, DeviceCall::Descriptor);
        Descriptors { device } => Call::Device(device, DeviceCall::Descriptors);
        ActiveConfiguration { device } => Call::Device(device, DeviceCall::ActiveConfiguration);
        Speed { device } => Call::Device(device, DeviceCall::Speed);
        Reset { device } => Call::Device(device, DeviceCall::Reset);
        SetConfiguration { device, value } =>
            Call::Device(device, DeviceCall::SetConfiguration(value));
        DetachDriver { device, number } => Call::Device(device, DeviceCall::DetachDriver(number));
        AttachDriver { device, number } => Call::Device(device, DeviceCall::AttachDriver(number));
        SetAltSetting { interface, setting } =>
            Call::Interface(interface, InterfaceCall::SetAltSetting(setting));
        GetAltSetting { interface } => Call::Interface(interface, InterfaceCall::GetAltSetting);
        InterfaceDescriptor { interface } => Call::Interface(interface, InterfaceCall::Descriptor);
        SubmitIn { endpoint, length } =>
            Call::Endpoint(endpoint, EndpointCall::SubmitIn(length, None), no_steps(alloc));
        SubmitOut { endpoint, bytes } =>
            Call::Endpoint(endpoint, EndpointCall::SubmitOut(bytes, None), no_steps(alloc));
        SubmitInWithDeadline { endpoint, length, timeout } =>
            Call::Endpoint(endpoint, EndpointCall::SubmitIn(length, Some(timeout)), no_steps(alloc));
        SubmitOutWithDeadline { endpoint, bytes, timeout } =>
            Call::Endpoint(endpoint, EndpointCall::SubmitOut(bytes, Some(timeout)), no_steps(alloc));
        Pending { endpoint } => Call::Endpoint(endpoint, EndpointCall::Pending, no_steps(alloc));
        Poll { endpoint } => Call::Endpoint(endpoint, EndpointCall::Poll, no_steps(alloc));
        Wait { endpoint, timeout, steps } =>
            Call::Endpoint(endpoint, EndpointCall::Wait(timeout), steps);
        TransferIn { endpoint, length, timeout, steps } =>
            Call::Endpoint(endpoint, EndpointCall::TransferIn(length, timeout), steps);
        TransferOut { endpoint, bytes, timeout, steps } =>
            Call::Endpoint(endpoint, EndpointCall::TransferOut(bytes, timeout), steps);
        Cancel { endpoint } => Call::Endpoint(endpoint, EndpointCall::Cancel, no_steps(alloc));
        ClearHalt { endpoint } =>
            Call::Endpoint(endpoint, EndpointCall::ClearHalt, no_steps(alloc));
        Read { framing, reader, length, steps } =>
            Call::Reader(reader, ReaderCall::Read(framing, length), steps);
        PollRead { framing, reader, length } =>
            Call::Reader(reader, ReaderCall::PollRead(framing, length), no_steps(alloc));
        FillBuf { framing, reader, steps } =>
            Call::Reader(reader, ReaderCall::FillBuf(framing), steps);
        PollFillBuf { framing, reader } =>
            Call::Reader(reader, ReaderCall::PollFillBuf(framing), no_steps(alloc));
        Consume { framing, reader, count } =>
            Call::Reader(reader, ReaderCall::Consume(framing, count), no_steps(alloc));
        IsEnd { reader } => Call::Reader(reader, ReaderCall::IsEnd, no_steps(alloc));
        ConsumeEnd { reader } => Call::Reader(reader, ReaderCall::ConsumeEnd, no_steps(alloc));
        SetNumTransfers { reader, count } =>
            Call::Reader(reader, ReaderCall::SetNumTransfers(count), no_steps(alloc));
        SetReadTimeout { reader, timeout } =>
            Call::Reader(reader, ReaderCall::SetReadTimeout(timeout), no_steps(alloc));
        CancelReader { reader } => Call::Reader(reader, ReaderCall::Cancel, no_steps(alloc));
        ClearReaderHalt { reader } => Call::Reader(reader, ReaderCall::ClearHalt, no_steps(alloc));
        Write { writer, bytes, steps } => Call::Writer(writer, WriterCall::Write(bytes), steps);
        PollWrite { writer, bytes } =>
            Call::Writer(writer, WriterCall::PollWrite(bytes), no_steps(alloc));
        Submit { writer } => Call::Writer(writer, WriterCall::Submit, no_steps(alloc));
        SubmitEnd { writer } => Call::Writer(writer, WriterCall::SubmitEnd, no_steps(alloc));
        Flush { writer, steps } => Call::Writer(writer, WriterCall::Flush, steps);
        PollFlush { writer } => Call::Writer(writer, WriterCall::PollFlush, no_steps(alloc));
        FlushEnd { writer, steps } => Call::Writer(writer, WriterCall::FlushEnd, steps);
        PollFlushEnd { writer } => Call::Writer(writer, WriterCall::PollFlushEnd, no_steps(alloc));
        SetWriterTransfers { writer, count } =>
            Call::Writer(writer, WriterCall::SetNumTransfers(count), no_steps(alloc));
        SetWriteTimeout { writer, timeout } =>
            Call::Writer(writer, WriterCall::SetWriteTimeout(timeout), no_steps(alloc));
        Request { client, body, steps } =>
            Call::Client(client, ClientCall::Request(body), steps);
        Response { client, steps } => Call::Client(client, ClientCall::Response, steps);
        Outstanding { client } =>
            Call::Client(client, ClientCall::Outstanding, no_steps(alloc));
        ControlIn { target, setup, length, timeout, steps } =>
            Call::Control(ControlCall::In(target, setup, length, timeout), steps);
        ControlOut { target, setup, bytes, timeout, steps } =>
            Call::Control(ControlCall::Out(target, setup, bytes, timeout), steps);
        GetDescriptor { device, descriptor_type, index, language, timeout, steps } =>
            Call::Control(ControlCall::Descriptor { device, descriptor_type, index, language, timeout }, steps);
        SupportedLanguages { device, timeout, steps } =>
            Call::Control(ControlCall::Languages(device, timeout), steps);
        StringDescriptor { device, index, language, timeout, steps } =>
            Call::Control(ControlCall::Text(device, index, language, timeout), steps);
        PollFuture { future } => Call::Future(future, FutureCall::Poll);
        WaitFuture { future, steps } => Call::Future(future, FutureCall::Wait(steps));
    }
}
