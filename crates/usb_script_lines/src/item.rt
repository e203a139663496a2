//! The items of a script.

ghost use Rattle.std.specs.Prelude.{◌≡◌, ◌≤◌, length};
ghost use Rattle.usb_script_lines.specs.ItemKinds.{is_setup, is_call, steps_in, places_in};

use std::alloc::Global;
use usb_kernel::Bytes;
use usb_script_words::{
    ControlData, ControlTarget, Data, EndpointKind, Errno, FileName, Framing, Length, Name, Path,
    ReadLength, Selector, Setup, Steps, StringIndex, Target, Timeout,
};

/// A line of a script: its form, and its words as fields. A contract sees numbers and lists of them.
#[derive(Drop)]
pub enum Item {
    /// `device k B B B B BYTES`: a simulated device is there from the beginning.
    Device {
        /// The number of its name `k`.
        device: Name,
        bus: u8,
        address: u8,
        /// The code of its speed, as the kernel answers it.
        speed: u8,
        /// The value of its active configuration, `bConfigurationValue`, or 0 for none.
        configuration: u8,
        /// Its device descriptor, and its configurations behind it. USB 2.0, section 9.5.
        descriptors: Data,
    },
    /// `driver k B`: a kernel driver is bound to the interface with this `bInterfaceNumber`.
    Driver {
        /// The number of the name `k` of its simulated device.
        device: Name,
        number: u8,
    },
    /// `attr PATH NAME VALUE`: the attribute of this folder holds these bytes.
    Attribute {
        path: Path,
        name: FileName,
        value: Bytes,
    },
    /// `deny PATH NAME ERRNO`: reading the attribute of this folder fails so.
    Denied {
        path: Path,
        name: FileName,
        errno: Errno,
    },
    /// `child PATH NAME`: the folder has a sub-folder of this name.
    Child {
        path: Path,
        name: FileName,
    },
    /// `link PATH NAME TEXT`: the folder has a symbolic link of this name, with this target.
    Link {
        path: Path,
        name: FileName,
        target: Target,
    },
    /// `entry NAME PATH`: the listing of devices holds this name, which leads to the folder.
    Entry {
        name: FileName,
        path: Path,
    },
    /// `root ERRNO`: the listing of devices fails so.
    Root {
        errno: Errno,
    },
    /// `uevent T VALUE`: a packet of udev, with the groups that its sender sent it to.
    Uevent {
        groups: u32,
        bytes: Bytes,
    },
    /// `list`: asks for the devices of the listing.
    List,
    /// `buses`: asks for the buses.
    Buses,
    /// `probe PATH`: asks what the folder tells of a device.
    Probe {
        path: Path,
    },
    /// `match PATH SEL`: asks whether the device of the folder is one that is looked for.
    Match {
        path: Path,
        selector: Selector,
    },
    /// `hotplug`: looks at the next packet of udev.
    Hotplug,
    /// `openpath d PATH`: opens the device of the folder.
    OpenPath {
        device: Name,
        path: Path,
    },
    /// `now`: asks for the time on the clock.
    Now,
    /// `open d B B`: opens the device with this bus and address.
    Open {
        device: Name,
        bus: u8,
        address: u8,
    },
    /// `devdesc d`: asks for the device descriptor. USB 2.0, section 9.6.1.
    DeviceDescriptor {
        device: Name,
    },
    /// `descriptors d`: asks for the configurations with their interfaces and endpoints. USB 2.0,
    /// section 9.6.3.
    Descriptors {
        device: Name,
    },
    /// `clone d d`: a further name of an open device.
    CloneDevice {
        /// The new name.
        name: Name,
        device: Name,
    },
    /// `close d`: closes this handle of the device, and frees its name.
    CloseDevice {
        device: Name,
    },
    /// `active d`: asks for the active configuration.
    ActiveConfiguration {
        device: Name,
    },
    /// `speed d`: asks for the speed.
    Speed {
        device: Name,
    },
    /// `setconfig d B`: makes the configuration with this `bConfigurationValue` the active one.
    /// USB 2.0, section 9.4.7.
    SetConfiguration {
        device: Name,
        value: u8,
    },
    /// `reset d`: resets the device. USB 2.0, section 7.1.7.5.
    Reset {
        device: Name,
    },
    /// `detach d B`: takes the interface with this `bInterfaceNumber` from its kernel driver.
    DetachDriver {
        device: Name,
        number: u8,
    },
    /// `attach d B`: gives the interface with this `bInterfaceNumber` to its kernel driver.
    AttachDriver {
        device: Name,
        number: u8,
    },
    /// `claim d B i`: claims the interface with this `bInterfaceNumber`.
    Claim {
        device: Name,
        number: u8,
        interface: Name,
    },
    /// `detachclaim d B i`: takes the interface with this `bInterfaceNumber` from its kernel
    /// driver, and claims it.
    DetachAndClaim {
        device: Name,
        number: u8,
        interface: Name,
    },
    /// `clone i i`: a further name of a claimed interface.
    CloneInterface {
        /// The new name.
        name: Name,
        interface: Name,
    },
    /// `close i`: closes this handle of the interface, and frees its name.
    CloseInterface {
        interface: Name,
    },
    /// `alt i B`: chooses the setting with this `bAlternateSetting`. USB 2.0, section 9.4.10.
    SetAltSetting {
        interface: Name,
        setting: u8,
    },
    /// `getalt i`: asks for the number of the chosen setting.
    GetAltSetting {
        interface: Name,
    },
    /// `ifdesc i`: asks for the interface descriptor of the chosen setting. USB 2.0,
    /// section 9.6.5.
    InterfaceDescriptor {
        interface: Name,
    },
    /// `release i`: gives the claim back, where nothing else needs it.
    Release {
        interface: Name,
    },
    /// `endpoint e i HH KIND`: opens the endpoint with this `bEndpointAddress`.
    Endpoint {
        endpoint: Name,
        interface: Name,
        address: u8,
        kind: EndpointKind,
    },
    /// `submitin e N`: submits a transfer that wants this many bytes.
    SubmitIn {
        endpoint: Name,
        length: Length,
    },
    /// `submitout e BYTES`: submits a transfer of these bytes.
    SubmitOut {
        endpoint: Name,
        bytes: Data,
    },
    /// `dsubmitin e N TIME`: submits a transfer that wants this many bytes, with a deadline.
    SubmitInWithDeadline {
        endpoint: Name,
        length: Length,
        timeout: Timeout,
    },
    /// `dsubmitout e BYTES TIME`: submits a transfer of these bytes, with a deadline.
    SubmitOutWithDeadline {
        endpoint: Name,
        bytes: Data,
        timeout: Timeout,
    },
    /// `pending e`: asks how many transfers are pending.
    Pending {
        endpoint: Name,
    },
    /// `poll e`: asks for the next completion.
    Poll {
        endpoint: Name,
    },
    /// `wait e TIME : STEP ; ..`: waits for the next completion.
    Wait {
        endpoint: Name,
        timeout: Timeout,
        /// What happens while it waits.
        steps: Steps,
    },
    /// `xferin e N TIME : STEP ; ..`: makes a transfer that wants this many bytes, and waits
    /// for it.
    TransferIn {
        endpoint: Name,
        length: Length,
        timeout: Timeout,
        /// What happens while it waits.
        steps: Steps,
    },
    /// `xferout e BYTES TIME : STEP ; ..`: makes a transfer of these bytes, and waits for it.
    TransferOut {
        endpoint: Name,
        bytes: Data,
        timeout: Timeout,
        /// What happens while it waits.
        steps: Steps,
    },
    /// `cancel e`: cancels all pending transfers.
    Cancel {
        endpoint: Name,
    },
    /// `halt e`: clears the endpoint's halt. USB 2.0, section 9.4.5.
    ClearHalt {
        endpoint: Name,
    },
    /// `close e`: closes the endpoint.
    CloseEndpoint {
        endpoint: Name,
    },
    /// `reader r e N`: makes a reader of the endpoint, whose transfers want this many bytes at
    /// least.
    Reader {
        reader: Name,
        endpoint: Name,
        transfer_size: Length,
    },
    /// `inner e r`: takes the endpoint back out of the reader, under this name.
    IntoInner {
        endpoint: Name,
        reader: Name,
    },
    /// `num r N`: sets how many transfers of the reader are to be pending.
    SetNumTransfers {
        reader: Name,
        count: u32,
    },
    /// `timeout r TIME`: sets for how long the calls on the reader wait.
    SetReadTimeout {
        reader: Name,
        timeout: Timeout,
    },
    /// `cancel r`: cancels the pending transfers of the reader, and keeps none pending from then
    /// on.
    CancelReader {
        reader: Name,
    },
    /// `halt r`: clears the halt of the reader's endpoint, and the error that the reader kept.
    /// USB 2.0, section 9.4.5.
    ClearReaderHalt {
        reader: Name,
    },
    /// `close r`: closes the reader with its endpoint.
    CloseReader {
        reader: Name,
    },
    /// `read r R : STEP ; ..`, and `sread` until a short packet: reads up to this many bytes, and
    /// waits where there are none.
    Read {
        framing: Framing,
        reader: Name,
        length: ReadLength,
        /// What happens while it waits.
        steps: Steps,
    },
    /// `pollread r R`, and `pollsread` until a short packet: reads up to this many bytes, and does
    /// not wait.
    PollRead {
        framing: Framing,
        reader: Name,
        length: ReadLength,
    },
    /// `fill r : STEP ; ..`, and `sfill` until a short packet: asks for the unread bytes that are
    /// there, and waits where there are none.
    FillBuf {
        framing: Framing,
        reader: Name,
        /// What happens while it waits.
        steps: Steps,
    },
    /// `pollfill r`, and `pollsfill` until a short packet: asks for the unread bytes that are
    /// there, and does not wait.
    PollFillBuf {
        framing: Framing,
        reader: Name,
    },
    /// `consume r N`, and `sconsume` until a short packet: takes this many of the unread bytes as
    /// read.
    Consume {
        framing: Framing,
        reader: Name,
        count: Length,
    },
    /// `isend r`: asks whether the end of a message is next.
    IsEnd {
        reader: Name,
    },
    /// `endmsg r`: goes over the end of a message.
    ConsumeEnd {
        reader: Name,
    },
    /// `writer w e N`: makes a writer of the endpoint, whose transfers hold this many bytes at
    /// least.
    Writer {
        writer: Name,
        endpoint: Name,
        transfer_size: Length,
    },
    /// `inner e w`: takes the endpoint back out of the writer, under this name.
    WriterIntoInner {
        endpoint: Name,
        writer: Name,
    },
    /// `num w N`: sets how many transfers of the writer may be pending before a write waits.
    SetWriterTransfers {
        writer: Name,
        count: u32,
    },
    /// `timeout w TIME`: sets for how long the calls on the writer wait.
    SetWriteTimeout {
        writer: Name,
        timeout: Timeout,
    },
    /// `close w`: closes the writer with its endpoint.
    CloseWriter {
        writer: Name,
    },
    /// `write w BYTES : STEP ; ..`: accepts as many of these bytes as fit, and waits where none
    /// fits.
    Write {
        writer: Name,
        bytes: Data,
        /// What happens while it waits.
        steps: Steps,
    },
    /// `pollwrite w BYTES`: accepts as many of these bytes as fit, and does not wait.
    PollWrite {
        writer: Name,
        bytes: Data,
    },
    /// `wsubmit w`: submits the bytes that were accepted.
    Submit {
        writer: Name,
    },
    /// `wend w`: submits the bytes that were accepted, and ends the message.
    SubmitEnd {
        writer: Name,
    },
    /// `flush w : STEP ; ..`: submits the bytes that were accepted, and waits for all that is
    /// pending.
    Flush {
        writer: Name,
        /// What happens while it waits.
        steps: Steps,
    },
    /// `pollflush w`: submits the bytes that were accepted, and does not wait.
    PollFlush {
        writer: Name,
    },
    /// `flushend w : STEP ; ..`: submits the bytes that were accepted, ends the message, and waits
    /// for all that is pending.
    FlushEnd {
        writer: Name,
        /// What happens while it waits.
        steps: Steps,
    },
    /// `pollflushend w`: submits the bytes that were accepted, ends the message, and does not
    /// wait.
    PollFlushEnd {
        writer: Name,
    },
    /// `msg m e e`: makes a client of messages of an OUT and of an IN endpoint.
    Client {
        client: Name,
        /// The endpoint of its requests.
        out: Name,
        /// The endpoint of its responses.
        inp: Name,
    },
    /// `mreq m BYTES : STEP ; ..`: sends a request with this body, and waits where it has to.
    Request {
        client: Name,
        body: Data,
        /// What happens while it waits.
        steps: Steps,
    },
    /// `mresp m : STEP ; ..`: takes the next response, and waits where it is not there.
    Response {
        client: Name,
        /// What happens while it waits.
        steps: Steps,
    },
    /// `mcount m`: asks how many requests are outstanding.
    Outstanding {
        client: Name,
    },
    /// `close m`: closes the client with its endpoints.
    CloseClient {
        client: Name,
    },
    /// `ctlin X CTL N TIME : STEP ; ..`: makes a control transfer that wants this many bytes, and
    /// waits for it. USB 2.0, section 9.3.
    ControlIn {
        target: ControlTarget,
        setup: Setup,
        length: u16,
        timeout: Timeout,
        /// What happens while it waits.
        steps: Steps,
    },
    /// `ctlout X CTL BYTES TIME : STEP ; ..`: makes a control transfer of these bytes, and waits
    /// for it. USB 2.0, section 9.3.
    ControlOut {
        target: ControlTarget,
        setup: Setup,
        bytes: ControlData,
        timeout: Timeout,
        /// What happens while it waits.
        steps: Steps,
    },
    /// `fin f X CTL N TIME`: starts a control transfer that wants this many bytes.
    StartControlIn {
        future: Name,
        target: ControlTarget,
        setup: Setup,
        length: u16,
        timeout: Timeout,
    },
    /// `fout f X CTL BYTES TIME`: starts a control transfer of these bytes.
    StartControlOut {
        future: Name,
        target: ControlTarget,
        setup: Setup,
        bytes: ControlData,
        timeout: Timeout,
    },
    /// `fpoll f`: asks for the completion of a control transfer on its way.
    PollFuture {
        future: Name,
    },
    /// `fwait f : STEP ; ..`: waits for the completion of a control transfer on its way.
    WaitFuture {
        future: Name,
        /// What happens while it waits.
        steps: Steps,
    },
    /// `getdesc d B B HHHH TIME : STEP ; ..`: asks the device for a descriptor. USB 2.0,
    /// section 9.4.3.
    GetDescriptor {
        device: Name,
        descriptor_type: u8,
        index: u8,
        language: u16,
        timeout: Timeout,
        /// What happens while it waits.
        steps: Steps,
    },
    /// `langs d TIME : STEP ; ..`: asks the device for the languages of its strings. USB 2.0,
    /// section 9.6.7.
    SupportedLanguages {
        device: Name,
        timeout: Timeout,
        /// What happens while it waits.
        steps: Steps,
    },
    /// `string d B HHHH TIME : STEP ; ..`: asks the device for a string. USB 2.0, section 9.6.7.
    StringDescriptor {
        device: Name,
        index: StringIndex,
        language: u16,
        timeout: Timeout,
        /// What happens while it waits.
        steps: Steps,
    },
    /// `close f`: gives up a control transfer on its way.
    CloseFuture {
        future: Name,
    },
    /// `! STEP ; ..`: steps of the simulation.
    Steps(Steps),
}

impl Item {
    /// Whether this is a setup line, which stands before all calls and steps.
    pub fn is_setup(&self) -> bool
        ensures value { result ≡ is_setup self.now }
    {
        matches!(
            self,
            Item::Device { .. }
                | Item::Driver { .. }
                | Item::Attribute { .. }
                | Item::Denied { .. }
                | Item::Child { .. }
                | Item::Link { .. }
                | Item::Entry { .. }
                | Item::Root { .. }
                | Item::Uevent { .. }
        )
    }

    /// Whether this is a call, which has an answer: neither a setup line nor steps.
    pub fn is_call(&self) -> bool
        ensures value { result ≡ is_call self.now }
    {
        !self.is_setup() && !matches!(self, Item::Steps(_))
    }

    /// How many places of the kernel this may use: one for each of its steps, and one
    /// for a reset.
    pub fn place_count(&self) -> usize
        ensures value { result ≡ places_in self.now }
    {
        match self {
            Item::Wait { steps, .. }
            | Item::TransferIn { steps, .. }
            | Item::TransferOut { steps, .. }
            | Item::Read { steps, .. }
            | Item::FillBuf { steps, .. }
            | Item::Write { steps, .. }
            | Item::Flush { steps, .. }
            | Item::FlushEnd { steps, .. }
            | Item::Request { steps, .. }
            | Item::Response { steps, .. }
            | Item::ControlIn { steps, .. }
            | Item::ControlOut { steps, .. }
            | Item::WaitFuture { steps, .. }
            | Item::GetDescriptor { steps, .. }
            | Item::SupportedLanguages { steps, .. }
            | Item::StringDescriptor { steps, .. }
            | Item::Steps(steps) => steps.as_slice().len(),
            Item::Reset { .. } => 1,
            _ => 0,
        }
    }

    /// Its steps, in order: none where it has none.
    pub fn into_steps(self, alloc: Global) -> Steps
        ensures value { result ≡ steps_in self }
        ensures few { length result ≤ places_in self }
    {
        match self {
            Item::Wait { steps, .. } => steps,
            Item::TransferIn { steps, .. } => steps,
            Item::TransferOut { steps, .. } => steps,
            Item::Read { steps, .. } => steps,
            Item::FillBuf { steps, .. } => steps,
            Item::Write { steps, .. } => steps,
            Item::Flush { steps, .. } => steps,
            Item::FlushEnd { steps, .. } => steps,
            Item::Request { steps, .. } => steps,
            Item::Response { steps, .. } => steps,
            Item::ControlIn { steps, .. } => steps,
            Item::ControlOut { steps, .. } => steps,
            Item::WaitFuture { steps, .. } => steps,
            Item::GetDescriptor { steps, .. } => steps,
            Item::SupportedLanguages { steps, .. } => steps,
            Item::StringDescriptor { steps, .. } => steps,
            Item::Steps(steps) => steps,
            _ => Steps::from_vec(Vec::new(alloc)),
        }
    }
}
