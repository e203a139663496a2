//! Devices that come and go.

ghost use Rattle.std.specs.Prelude.{◌≡◌, ◌++◌, IfOk, OnOk, OnErr, drop, string_bytes};
ghost use Rattle.usb_enum.specs.Hotplug.{hotplug_polled, event_of, connected, folder_below_sys, without_slashes};

use crate::device::{DeviceId, DeviceInfo};
use crate::probe::probe_device;
use crate::udev::notice_in;
use futures::task::Poll;
use std::alloc::Global;
use std::collections::VecDeque;
use std::marker::Model;
use usb_desc::{Fail, NoMemory};
use usb_enum_sysfs::{AttrTree, SysfsPath};
use usb_kernel::Bytes;

/// A device that came or went.
#[derive(Debug, Drop)]
pub enum HotplugEvent {
    /// This device came.
    Connected(DeviceInfo),
    /// The device that was there went.
    Disconnected(DeviceId),
}

impl HotplugEvent {
    /// The same event once more.
    pub fn clone(&self) -> Result<HotplugEvent, NoMemory>
        ensures same { IfOk result (λ copy. copy ≡ self.now) }
    {
        match self {
            HotplugEvent::Connected(device) => Ok(HotplugEvent::Connected(device.clone()?)),
            HotplugEvent::Disconnected(id) => Ok(HotplugEvent::Disconnected(*id)),
        }
    }
}

/// A packet of udev, with the groups that its sender sent it to.
#[derive(Clone, Drop)]
pub struct UdevPacket {
    /// The groups, one bit each: udev sends to 2.
    pub groups: u32,
    /// What the packet holds.
    pub bytes: Bytes,
}

impl UdevPacket {
    /// The same packet once more.
    pub fn clone(&self) -> Result<UdevPacket, NoMemory>
        ensures same { IfOk result (λ copy. copy ≡ self.now) }
    {
        Ok(Clone::clone(self)?)
    }
}

/// The packets that are still to be looked at, seen as the list of them.
#[derive(Drop)]
pub struct HotplugWatch {
    alloc: Global,
    packets: VecDeque<UdevPacket>,
}

impl Model for HotplugWatch {
    ghost use Rattle.std.specs.Prelude.{List};
    ghost use Rattle.usb_enum.specs.declared.hotplug.UdevPacket.{UdevPacket};

    ghost Value = { List UdevPacket };

    ghost view = { λ w. w.packets.items };
}

/// Watches these packets.
pub fn watch_devices(alloc: Global, packets: VecDeque<UdevPacket>) -> HotplugWatch
    ensures packets { result ≡ packets.items }
{
    HotplugWatch { alloc, packets }
}

impl HotplugWatch {
    /// Looks at the next packet. It is pending where there is none, or where the packet gave no
    /// event. Where memory is wanting, the packet stays.
    pub fn poll_next(&mut self, tree: &AttrTree) -> Result<Poll<HotplugEvent>, NoMemory>
        ensures event { IfOk result (λ p. p ≡ hotplug_polled tree.now self.old) }
        ensures ok { OnOk result (self.new ≡ drop 1 self.old) }
        ensures err { OnErr result (self.new ≡ self.old) }
    {
        let Some(packet) = self.packets.front() else {
            return Ok(Poll::Pending);
        };
        let event = event_of(self.alloc, tree, packet)?;
        let _ = self.packets.pop_front();
        match event {
            Some(event) => Ok(Poll::Ready(event)),
            None => Ok(Poll::Pending),
        }
    }
}

/// The event that a packet tells of, if any. Only packets to the group of udev count.
fn event_of(
    alloc: Global,
    tree: &AttrTree,
    packet: &UdevPacket,
) -> Result<Option<HotplugEvent>, NoMemory>
    ensures event { IfOk result (λ e. e ≡ event_of tree.now packet.now) }
{
    if packet.groups != 2 {
        return Ok(None);
    }
    let Some(notice) = notice_in(packet.bytes.as_slice()) else {
        return Ok(None);
    };
    if notice.added {
        return connected(alloc, tree, notice.path);
    }
    Ok(Some(HotplugEvent::Disconnected(DeviceId {
        bus: notice.busnum,
        address: notice.address,
    })))
}

/// The device with this folder below `/sys`, where probing it succeeds.
fn connected(alloc: Global, tree: &AttrTree, path: &str) -> Result<Option<HotplugEvent>, NoMemory>
    ensures event { IfOk result (λ e. e ≡ connected tree.now path.now) }
{
    let folder = folder_below_sys(alloc, path)?;
    match probe_device(alloc, tree, SysfsPath::new(folder)) {
        Ok(device) => Ok(Some(HotplugEvent::Connected(device))),
        Err(Fail::Cause(_)) => Ok(None),
        Err(Fail::Memory) => Err(NoMemory),
    }
}

fn folder_below_sys(alloc: Global, path: &str) -> Result<String, NoMemory>
    ensures folder { IfOk result (λ f. string_bytes f ≡ folder_below_sys path.now) }
{
    let Ok(mut folder) = String::from_str(alloc, "/sys/") else {
        return Err(NoMemory);
    };
    match folder.push_str(without_slashes(path)) {
        Ok(()) => Ok(folder),
        Err(_) => Err(NoMemory),
    }
}

/// The text without the slashes at its start.
fn without_slashes(path: &str) -> &str
    ensures text { result.now ≡ without_slashes path.now }
{
    let mut rest = path;
    while let Some(after) = rest.strip_prefix('/') {
        rest = after;
    }
    rest
}
