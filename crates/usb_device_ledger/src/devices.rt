//! The open devices of a host.

ghost use Rattle.std.specs.Prelude.{◌≡◌, ◌+◌, ◌-◌, ◌^◌, ◌<◌, ◌≤◌, ◌++◌, ◌∷◌, [], length, set, true, false, nat_lt, if◌then◌else◌, Some, IsSome, IfOk, OnOk, OnErr};
ghost use Rattle.std.specs.Option.{ForSome};
ghost use Rattle.usb_device_tables.specs.History.{value_at, live_count};
ghost use Rattle.usb_device_ledger.specs.Devices.{device_changed, handle_more, handle_less, interface_more, interface_less};

use crate::opened::OpenDevice;
use std::alloc::Global;
use std::marker::Model;
use usb_desc::NoMemory;
use usb_device_tables::{Key, Registry};

/// The open devices, each by its key. One that is held no more goes, and its memory with it. A
/// contract sees the list of all that were opened, with nothing where one has gone.
#[derive(Drop)]
pub struct Devices {
    entries: Registry<OpenDevice>,
}

impl Model for Devices {
    ghost use Rattle.std.specs.Prelude.{List, Option};
    ghost use Rattle.usb_device_ledger.specs.declared.opened.OpenDevice.{OpenDevice};

    ghost Value = { List (Option OpenDevice) };

    ghost view = { λ d. d.entries.values };
}

impl Devices {
    /// No device.
    pub fn new(alloc: Global) -> Devices
        ensures empty { result ≡ [] }
    {
        Devices {
            entries: Registry::new(alloc),
        }
    }

    /// Keeps an open device under the next key.
    pub fn open(&mut self, opened: OpenDevice) -> Result<Key, NoMemory>
        ensures key { IfOk result (λ key. key.serial ≡ length self.old) }
        ensures ok { OnOk result (self.new ≡ self.old ++ Some opened ∷ []) }
        ensures err { OnErr result (self.new ≡ self.old) }
    {
        match self.entries.insert(opened) {
            Ok(key) => Ok(key),
            Err(_) => Err(NoMemory),
        }
    }

    /// An open device.
    pub fn get(&self, key: Key) -> &OpenDevice
        requires there { IsSome (value_at self.now key.serial) }
        ensures device { value_at self.now key.serial ≡ Some result.now }
    {
        self.entries.get(key).unwrap()
    }

    /// An open device keeps another value of its active configuration.
    pub fn set_configuration(&mut self, key: Key, value: u8)
        requires there { IsSome (value_at self.old key.serial) }
        ensures kept { ForSome (value_at self.old key.serial) (λ o.
            self.new ≡ set self.old key.serial (Some (record o { configuration = value }))) }
    {
        if let Some(opened) = self.entries.get_mut(key) {
            opened.configuration = value;
        }
    }

    /// One more handle of an open device is open. An `Err` is a count at its end.
    pub fn add_handle(&mut self, key: Key) -> Result<(), NoMemory>
        ensures ok { OnOk result (self.new ≡ device_changed self.old key.serial handle_more) }
        ensures err { OnErr result (self.new ≡ self.old) }
        ensures full { OnErr result (ForSome (value_at self.old key.serial) (λ o.
            o.handles ≡ 2 ^ 64 - 1)) }
    {
        let Some(opened) = self.entries.get_mut(key) else {
            return Ok(());
        };
        if opened.handles == usize::MAX {
            return Err(NoMemory);
        }
        opened.handles += 1;
        Ok(())
    }

    /// A handle of an open device is closed.
    pub fn close_handle(&mut self, key: Key)
        ensures closed { self.new ≡ device_changed self.old key.serial handle_less }
    {
        let Some(opened) = self.entries.get_mut(key) else {
            return;
        };
        opened.handles = opened.handles.saturating_sub(1);
        let is_held = opened.is_held();
        if !is_held {
            let _ = self.entries.remove(key);
        }
    }

    /// Whether one more interface of an open device can be counted.
    pub fn has_room(&self, key: Key) -> bool
        ensures room { ForSome (value_at self.now key.serial) (λ o.
            result ≡ true → o.interfaces + 1 < 2 ^ 64) }
        ensures full { ForSome (value_at self.now key.serial) (λ o.
            result ≡ false → 2 ^ 64 ≤ o.interfaces + 1) }
    {
        match self.entries.get(key) {
            Some(opened) => opened.interfaces < usize::MAX,
            None => false,
        }
    }

    /// One more interface of an open device has handles.
    pub fn add_interface(&mut self, key: Key)
        requires room { ForSome (value_at self.old key.serial) (λ o. o.interfaces + 1 < 2 ^ 64) }
        ensures added { self.new ≡ device_changed self.old key.serial interface_more }
    {
        if let Some(opened) = self.entries.get_mut(key) {
            opened.interfaces += 1;
        }
    }

    /// An interface of an open device has no handle any more.
    fn close_interface(&mut self, key: Key)
        ensures closed { self.new ≡ device_changed self.old key.serial interface_less }
    {
        let Some(opened) = self.entries.get_mut(key) else {
            return;
        };
        opened.interfaces = opened.interfaces.saturating_sub(1);
        let is_held = opened.is_held();
        if !is_held {
            let _ = self.entries.remove(key);
        }
    }

    /// A handle of an interface of an open device is closed, of this many.
    pub fn leave_interface(&mut self, key: Key, handles: usize)
        ensures left { self.new ≡ (if nat_lt 1 handles then self.old
            else device_changed self.old key.serial interface_less) }
    {
        if handles > 1 {
            return;
        }
        self.close_interface(key);
    }

    /// How many open devices there is memory for.
    pub fn capacity(&self) -> usize
        ensures holds_all { live_count self.now ≤ result }
    {
        self.entries.capacity()
    }
}
