//! Calls, by what they are made on.

use usb_script_lines::{
    ControlData, ControlTarget, Data, EndpointKind, Framing, Length, Name, Path, ReadLength,
    Selector, Setup, Steps, StringIndex, Timeout,
};

/// What a line asks for, with its steps where it may wait.
#[derive(Drop)]
pub enum Call {
    /// Nothing: a setup line took effect before the first call.
    Setup,
    /// That its steps are applied.
    Steps(Steps),
    /// The time on the clock.
    Now,
    /// What the tree of attributes or the packets of udev tell.
    Tree(TreeCall),
    /// That something is opened under a name that is free.
    Open(OpenCall),
    /// That what is open under a name is closed.
    Close(CloseCall),
    /// A call on the open device of this name.
    Device(Name, DeviceCall),
    /// A call on the claimed interface of this name.
    Interface(Name, InterfaceCall),
    /// A call on the open endpoint of this name.
    Endpoint(Name, EndpointCall, Steps),
    /// A call on the reader of this name.
    Reader(Name, ReaderCall, Steps),
    /// A call on the writer of this name.
    Writer(Name, WriterCall, Steps),
    /// A call on the client of messages of this name.
    Client(Name, ClientCall, Steps),
    /// A control transfer, which is awaited.
    Control(ControlCall, Steps),
    /// A call on the control transfer on its way that has this name.
    Future(Name, FutureCall),
}

/// What is asked of the tree of attributes, or of the packets of udev.
#[derive(Drop)]
pub enum TreeCall {
    /// The devices of the listing.
    List,
    /// The buses.
    Buses,
    /// What this folder tells of a device.
    Probe(Path),
    /// Whether the device of this folder is one that is looked for.
    Match(Path, Selector),
    /// What the next packet of udev tells.
    Hotplug,
}

/// What is opened under a name that is free.
#[derive(Drop)]
pub enum OpenCall {
    /// The first plugged device at an address of a bus.
    Device {
        device: Name,
        bus: u8,
        address: u8,
    },
    /// The device that this folder tells of.
    Path {
        device: Name,
        path: Path,
    },
    /// One more handle of an open device.
    CloneDevice {
        name: Name,
        device: Name,
    },
    /// An interface of an open device, with its kernel driver detached where `detach` says so.
    Claim {
        device: Name,
        number: u8,
        interface: Name,
        detach: bool,
    },
    /// One more handle of a claimed interface.
    CloneInterface {
        name: Name,
        interface: Name,
    },
    /// An endpoint of a claimed interface.
    Endpoint {
        endpoint: Name,
        interface: Name,
        address: u8,
        kind: EndpointKind,
    },
    /// A reader, of an endpoint whose name is free then.
    Reader {
        reader: Name,
        endpoint: Name,
        transfer_size: Length,
    },
    /// The endpoint of a reader, whose name is free then.
    ReaderInner {
        endpoint: Name,
        reader: Name,
    },
    /// A writer, of an endpoint whose name is free then.
    Writer {
        writer: Name,
        endpoint: Name,
        transfer_size: Length,
    },
    /// The endpoint of a writer, whose name is free then.
    WriterInner {
        endpoint: Name,
        writer: Name,
    },
    /// A client of messages, of an OUT and of an IN endpoint whose names are free then.
    Client {
        client: Name,
        out: Name,
        inp: Name,
    },
    /// A control transfer on its way, which asks for so many bytes.
    ControlIn {
        future: Name,
        target: ControlTarget,
        setup: Setup,
        length: u16,
        timeout: Timeout,
    },
    /// A control transfer on its way, which sends these bytes.
    ControlOut {
        future: Name,
        target: ControlTarget,
        setup: Setup,
        bytes: ControlData,
        timeout: Timeout,
    },
}

/// What is closed, by its name.
#[derive(Clone, Copy)]
pub enum CloseCall {
    /// A handle of a device.
    Device(Name),
    /// A handle of an interface.
    Interface(Name),
    /// The claim of an interface, which is refused where it has another owner.
    Release(Name),
    /// An endpoint.
    Endpoint(Name),
    /// A reader, with its endpoint.
    Reader(Name),
    /// A writer, with its endpoint.
    Writer(Name),
    /// A client of messages, with both of its endpoints.
    Client(Name),
    /// A control transfer on its way, which goes on, and which nobody can take any more.
    Future(Name),
}

/// A call on an open device.
#[derive(Clone, Copy)]
pub enum DeviceCall {
    /// Its device descriptor.
    Descriptor,
    /// Its configurations, with their interfaces and endpoints.
    Descriptors,
    /// The value of its active configuration.
    ActiveConfiguration,
    /// Its speed.
    Speed,
    /// Its configuration is set.
    SetConfiguration(u8),
    /// It is reset.
    Reset,
    /// The kernel driver of this interface is detached.
    DetachDriver(u8),
    /// The kernel driver of this interface is attached.
    AttachDriver(u8),
}

/// A call on a claimed interface.
#[derive(Clone, Copy)]
pub enum InterfaceCall {
    /// Its alternate setting is set.
    SetAltSetting(u8),
    /// Its current alternate setting.
    GetAltSetting,
    /// The descriptor of its current setting, with its endpoints.
    Descriptor,
}

/// A call on an open endpoint.
#[derive(Drop)]
pub enum EndpointCall {
    /// A transfer that asks for so many bytes is handed in, with a deadline where a timeout is given.
    SubmitIn(Length, Option<Timeout>),
    /// A transfer of these bytes is handed in, with a deadline where a timeout is given.
    SubmitOut(Data, Option<Timeout>),
    /// How many transfers are pending.
    Pending,
    /// The oldest pending transfer is taken, where it is reaped.
    Poll,
    /// It is waited for, and taken where it is reaped.
    Wait(Timeout),
    /// A transfer that asks for so many bytes is handed in, waited for and taken.
    TransferIn(Length, Timeout),
    /// A transfer of these bytes is handed in, waited for and taken.
    TransferOut(Data, Timeout),
    /// The pending transfers are discarded, from the last to the first.
    Cancel,
    /// The halt is cleared.
    ClearHalt,
}

/// A call on a reader.
#[derive(Clone, Copy)]
pub enum ReaderCall {
    /// At most so many bytes are read, with a wait where there are none.
    Read(Framing, ReadLength),
    /// The same, of those that are there.
    PollRead(Framing, ReadLength),
    /// The bytes that stand are shown, with a wait where there are none.
    FillBuf(Framing),
    /// The same, of those that are there.
    PollFillBuf(Framing),
    /// So many of the bytes that stand are taken off.
    Consume(Framing, Length),
    /// Whether the end of a message is next.
    IsEnd,
    /// The end of a message is taken off, where it is next.
    ConsumeEnd,
    /// How many transfers are to be pending is set, and as many are handed in as are missing of one
    /// less.
    SetNumTransfers(u32),
    /// The timeout of its waits is set.
    SetReadTimeout(Timeout),
    /// The pending transfers are discarded, from the last to the first.
    Cancel,
    /// The halt of its endpoint is cleared, and with it the error that lasted.
    ClearHalt,
}

/// A call on a writer.
#[derive(Drop)]
pub enum WriterCall {
    /// Bytes are handed over, of which the writer accepts what fits; it waits where no buffer is free.
    Write(Data),
    /// The same, with no wait.
    PollWrite(Data),
    /// What stands is submitted.
    Submit,
    /// The message is ended.
    SubmitEnd,
    /// What stands is submitted, and each transfer is awaited and taken.
    Flush,
    /// What stands is submitted, and each transfer taken that is over.
    PollFlush,
    /// The message is ended, and each transfer is awaited and taken.
    FlushEnd,
    /// The message is ended where no end has begun, and each transfer taken that is over.
    PollFlushEnd,
    /// How many transfers are to be pending is set: one at least.
    SetNumTransfers(u32),
    /// The timeout of its waits is set.
    SetWriteTimeout(Timeout),
}

/// A call on a client of messages.
#[derive(Drop)]
pub enum ClientCall {
    /// A request with this body is sent.
    Request(Data),
    /// The next response is waited for and taken.
    Response,
    /// How many requests are outstanding.
    Outstanding,
}

/// A control transfer that is awaited.
#[derive(Drop)]
pub enum ControlCall {
    /// A device or an interface is asked for so many bytes.
    In(ControlTarget, Setup, u16, Timeout),
    /// These bytes are sent to a device or to an interface.
    Out(ControlTarget, Setup, ControlData, Timeout),
    /// A device is asked for a descriptor, by its type, index and language.
    Descriptor {
        device: Name,
        descriptor_type: u8,
        index: u8,
        language: u16,
        timeout: Timeout,
    },
    /// A device is asked for the languages of its strings.
    Languages(Name, Timeout),
    /// A device is asked for a string in a language.
    Text(Name, StringIndex, u16, Timeout),
}

/// A call on a control transfer on its way.
#[derive(Drop)]
pub enum FutureCall {
    /// Its answer is taken, where the transfer is reaped, and its name is free then.
    Poll,
    /// Its answer is waited for and taken, and its name is free.
    Wait(Steps),
}
