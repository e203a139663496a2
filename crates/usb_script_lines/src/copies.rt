//! Copies of items.

ghost use Rattle.std.specs.Prelude.{◌≡◌, IfOk, IsTrue};
ghost use Rattle.usb_script_lines.specs.ItemKinds.{is_setup};
ghost use Rattle.usb_script_lines.specs.Kinds.{is_of_endpoint, is_of_interface, is_of_handle, is_of_reader, sets_reader, is_of_writer, sets_writer, is_of_client, is_of_control, asks_descriptor, is_of_tree};

use crate::item::Item;
use std::alloc::AllocError;
use usb_desc::NoMemory;

// A copy of an item of one of these forms, or else what is behind `_`. The fields behind a
// semicolon own memory.
macro_rules! copy {
    (
        $item:expr;
        $($variant:ident { $($field:ident),* $(; $($owned:ident),*)? })*
        _ => $otherwise:expr
    ) => {
        match $item {
            $(
                Item::$variant { $($field,)* $($($owned,)*)? } => Ok(Item::$variant {
                    $($field: *$field,)*
                    $($($owned: $owned.clone()?,)*)?
                }),
            )*
            _ => $otherwise,
        }
    };
}

// The copy of an item by the method for its form, or else by the arm that it matches.
macro_rules! copy_by_kind {
    (
        $item:expr;
        $($($variant:ident)+ => $copied:ident;)*
        $(| $pattern:pat => $copy:expr,)*
    ) => {
        match $item {
            $($(Item::$variant { .. })|+ => $item.$copied(),)*
            $($pattern => $copy,)*
        }
    };
}

impl Clone for Item {
    ghost is_clone = { λ item copy. copy ≡ item };

    fn clone(&self) -> Result<Item, AllocError> {
        match Item::clone(self) {
            Ok(copy) => Ok(copy),
            Err(NoMemory) => Err(AllocError),
        }
    }
}

impl Item {
    /// The same item once more, with bytes, text and steps of its own.
    pub fn clone(&self) -> Result<Item, NoMemory>
        ensures same { IfOk result (λ copy. copy ≡ self.now) }
    {
        copy_by_kind! {
            self;
            Device Driver Attribute Denied Child Link Entry Root Uevent => copied_setup;
            List Buses Probe Match Hotplug OpenPath => copied_tree_call;
            Open DeviceDescriptor Descriptors CloneDevice CloseDevice ActiveConfiguration Speed
            SetConfiguration Reset DetachDriver AttachDriver Claim DetachAndClaim
            CloneInterface CloseInterface SetAltSetting GetAltSetting InterfaceDescriptor Release
            Endpoint SubmitIn SubmitOut SubmitInWithDeadline SubmitOutWithDeadline Pending Poll Wait TransferIn TransferOut Cancel ClearHalt
            CloseEndpoint => copied_device_call;
            ControlIn ControlOut GetDescriptor SupportedLanguages StringDescriptor
            StartControlIn StartControlOut PollFuture WaitFuture CloseFuture
            => copied_control_call;
            Reader IntoInner SetNumTransfers SetReadTimeout CancelReader ClearReaderHalt CloseReader
            Read PollRead FillBuf PollFillBuf Consume IsEnd ConsumeEnd => copied_reader_call;
            Writer WriterIntoInner SetWriterTransfers SetWriteTimeout CloseWriter
            Write PollWrite Submit SubmitEnd Flush PollFlush FlushEnd PollFlushEnd
            => copied_writer_call;
            Client Request Response Outstanding CloseClient => copied_client_call;
            | Item::Now => Ok(Item::Now),
            | Item::Steps(steps) => Ok(Item::Steps(steps.clone()?)),
        }
    }

    /// The same setup line once more.
    fn copied_setup(&self) -> Result<Item, NoMemory>
        requires kind { IsTrue (is_setup self.now) }
        ensures same { IfOk result (λ copy. copy ≡ self.now) }
    {
        copy! {
            self;
            Device { device, bus, address, speed, configuration; descriptors }
            Driver { device, number }
            Attribute { ; path, name, value }
            Denied { errno; path, name }
            Child { ; path, name }
            Link { ; path, name, target }
            Entry { ; name, path }
            Root { errno }
            Uevent { groups; bytes }
            _ => unreachable!()
        }
    }

    /// The same call on the tree or on packets of udev once more.
    fn copied_tree_call(&self) -> Result<Item, NoMemory>
        requires kind { IsTrue (is_of_tree self.now) }
        ensures same { IfOk result (λ copy. copy ≡ self.now) }
    {
        match self {
            Item::List => Ok(Item::List),
            Item::Buses => Ok(Item::Buses),
            Item::Hotplug => Ok(Item::Hotplug),
            _ => copy! {
                self;
                Probe { ; path }
                Match { ; path, selector }
                OpenPath { device; path }
                _ => unreachable!()
            },
        }
    }

    /// The same call on a device, on an interface or on an endpoint once more.
    fn copied_device_call(&self) -> Result<Item, NoMemory>
        requires kind { IsTrue (is_of_handle self.now) }
        ensures same { IfOk result (λ copy. copy ≡ self.now) }
    {
        copy! {
            self;
            Open { device, bus, address }
            DeviceDescriptor { device }
            Descriptors { device }
            CloneDevice { name, device }
            CloseDevice { device }
            ActiveConfiguration { device }
            Speed { device }
            SetConfiguration { device, value }
            Reset { device }
            DetachDriver { device, number }
            AttachDriver { device, number }
            Claim { device, number, interface }
            DetachAndClaim { device, number, interface }
            _ => self.copied_interface_call()
        }
    }

    /// The same call on an interface or on an endpoint once more.
    fn copied_interface_call(&self) -> Result<Item, NoMemory>
        requires kind { IsTrue (is_of_interface self.now) }
        ensures same { IfOk result (λ copy. copy ≡ self.now) }
    {
        copy! {
            self;
            CloneInterface { name, interface }
            CloseInterface { interface }
            SetAltSetting { interface, setting }
            GetAltSetting { interface }
            InterfaceDescriptor { interface }
            Release { interface }
            Endpoint { endpoint, interface, address, kind }
            _ => self.copied_endpoint_call()
        }
    }

    /// The same call on an endpoint once more.
    fn copied_endpoint_call(&self) -> Result<Item, NoMemory>
        requires kind { IsTrue (is_of_endpoint self.now) }
        ensures same { IfOk result (λ copy. copy ≡ self.now) }
    {
        copy! {
            self;
            SubmitIn { endpoint, length }
            SubmitOut { endpoint; bytes }
            SubmitInWithDeadline { endpoint, length, timeout }
            SubmitOutWithDeadline { endpoint, timeout; bytes }
            Pending { endpoint }
            Poll { endpoint }
            Wait { endpoint, timeout; steps }
            TransferIn { endpoint, length, timeout; steps }
            TransferOut { endpoint, timeout; bytes, steps }
            Cancel { endpoint }
            ClearHalt { endpoint }
            CloseEndpoint { endpoint }
            _ => unreachable!()
        }
    }

    /// The same call on a reader once more.
    fn copied_reader_call(&self) -> Result<Item, NoMemory>
        requires kind { IsTrue (is_of_reader self.now) }
        ensures same { IfOk result (λ copy. copy ≡ self.now) }
    {
        copy! {
            self;
            Read { framing, reader, length; steps }
            PollRead { framing, reader, length }
            FillBuf { framing, reader; steps }
            PollFillBuf { framing, reader }
            Consume { framing, reader, count }
            IsEnd { reader }
            ConsumeEnd { reader }
            _ => self.copied_reader_setting()
        }
    }

    /// The same call by which a reader is made of an endpoint, set, cancelled or closed once more.
    fn copied_reader_setting(&self) -> Result<Item, NoMemory>
        requires kind { IsTrue (sets_reader self.now) }
        ensures same { IfOk result (λ copy. copy ≡ self.now) }
    {
        copy! {
            self;
            Reader { reader, endpoint, transfer_size }
            IntoInner { endpoint, reader }
            SetNumTransfers { reader, count }
            SetReadTimeout { reader, timeout }
            CancelReader { reader }
            ClearReaderHalt { reader }
            CloseReader { reader }
            _ => unreachable!()
        }
    }

    /// The same call on a writer once more.
    fn copied_writer_call(&self) -> Result<Item, NoMemory>
        requires kind { IsTrue (is_of_writer self.now) }
        ensures same { IfOk result (λ copy. copy ≡ self.now) }
    {
        copy! {
            self;
            Write { writer; bytes, steps }
            PollWrite { writer; bytes }
            Submit { writer }
            SubmitEnd { writer }
            Flush { writer; steps }
            PollFlush { writer }
            FlushEnd { writer; steps }
            PollFlushEnd { writer }
            _ => self.copied_writer_setting()
        }
    }

    /// The same call by which a writer is made of an endpoint, set or closed once more.
    fn copied_writer_setting(&self) -> Result<Item, NoMemory>
        requires kind { IsTrue (sets_writer self.now) }
        ensures same { IfOk result (λ copy. copy ≡ self.now) }
    {
        copy! {
            self;
            Writer { writer, endpoint, transfer_size }
            WriterIntoInner { endpoint, writer }
            SetWriterTransfers { writer, count }
            SetWriteTimeout { writer, timeout }
            CloseWriter { writer }
            _ => unreachable!()
        }
    }

    /// The same call on a client of messages once more.
    fn copied_client_call(&self) -> Result<Item, NoMemory>
        requires kind { IsTrue (is_of_client self.now) }
        ensures same { IfOk result (λ copy. copy ≡ self.now) }
    {
        copy! {
            self;
            Client { client, out, inp }
            Request { client; body, steps }
            Response { client; steps }
            Outstanding { client }
            CloseClient { client }
            _ => unreachable!()
        }
    }

    /// The same call of a control transfer once more.
    fn copied_control_call(&self) -> Result<Item, NoMemory>
        requires kind { IsTrue (is_of_control self.now) }
        ensures same { IfOk result (λ copy. copy ≡ self.now) }
    {
        copy! {
            self;
            ControlIn { target, setup, length, timeout; steps }
            ControlOut { target, setup, timeout; bytes, steps }
            StartControlIn { future, target, setup, length, timeout }
            StartControlOut { future, target, setup, timeout; bytes }
            PollFuture { future }
            WaitFuture { future; steps }
            CloseFuture { future }
            _ => self.copied_request()
        }
    }

    /// The same request for a descriptor once more.
    fn copied_request(&self) -> Result<Item, NoMemory>
        requires kind { IsTrue (asks_descriptor self.now) }
        ensures same { IfOk result (λ copy. copy ≡ self.now) }
    {
        copy! {
            self;
            GetDescriptor { device, descriptor_type, index, language, timeout; steps }
            SupportedLanguages { device, timeout; steps }
            StringDescriptor { device, language, timeout; index, steps }
            _ => unreachable!()
        }
    }
}
