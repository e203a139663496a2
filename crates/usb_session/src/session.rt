//! The session.

ghost use Rattle.std.specs.Prelude.{◌≡◌, IfOk, replicate, None};
ghost use Rattle.std.specs.List.{filter_map};
ghost use Rattle.usb_script_lines.specs.ItemKinds.{place_count};
ghost use Rattle.usb_session_tree.specs.Packets.{packets_of};
ghost use Rattle.usb_session_tree.specs.Trees.{tree_of};
ghost use Rattle.usb_session.specs.Output.{driver_of_item, device_of_item, devices_of, start};
ghost use Rattle.usb_session_calls.specs.Relation.{Represents};
ghost use Rattle.usb_session_calls.specs.SessionState.{IsSound};
ghost use Rattle.usb_session_calls.specs.SessionParts.{session_made};

use std::alloc::Global;
use std::marker::Model;
use usb_desc::NoMemory;
use usb_device::{Device, Host, Interface, TransferFuture};
use usb_device_endpoint::Endpoint;
use usb_enum::{AttrTree, HotplugWatch, watch_devices};
use usb_io::{EndpointRead, EndpointWrite};
use usb_kernel::{Bytes, Descriptors, Kernel, SimDevice};
use usb_msg::MsgClient;
use usb_script_lines::Item;
use usb_session_calls::{drop_names, no_names};
use usb_session_tree::{packets_of, tree_of};
use usb_xfer::Any;

/// A host, what is open under each name (devices, claimed interfaces, endpoints, readers, writers,
/// clients of messages and control transfers on their way), the tree of attributes, and the packets
/// of udev that are left.
///
/// It can't be dropped: `end` has to spend it.
pub struct Session {
    pub(crate) host: Host,
    pub(crate) devices: Vec<Option<Device>>,
    pub(crate) interfaces: Vec<Option<Interface>>,
    pub(crate) endpoints: Vec<Option<Endpoint<Any, Any>>>,
    pub(crate) readers: Vec<Option<EndpointRead<Any>>>,
    pub(crate) writers: Vec<Option<EndpointWrite<Any>>>,
    pub(crate) clients: Vec<Option<MsgClient<Any, Any>>>,
    pub(crate) futures: Vec<Option<TransferFuture>>,
    pub(crate) tree: AttrTree,
    pub(crate) watch: HotplugWatch,
}

impl Model for Session {
    ghost use Rattle.usb_session_calls.specs.SessionState.{SessionState};
    ghost use Rattle.usb_session.specs.SessionFacts.{IsSoundInside};

    ghost Value = { SessionState };

    ghost view = { λ s. record {
      host = s.host;
      devices = s.devices.items;
      interfaces = s.interfaces.items;
      endpoints = s.endpoints.items;
      readers = s.readers.items;
      writers = s.writers.items;
      clients = s.clients.items;
      futures = s.futures.items;
      tree = s.tree;
      packets = s.watch;
    } };

    ghost invariant = { IsSoundInside };
}

/// The interface to which a line binds a kernel driver, where it is one of this device.
fn driver_of_item(device: u8, item: &Item) -> Option<u8>
    ensures value { result ≡ driver_of_item device item.now }
{
    match item {
        Item::Driver {
            device: name,
            number,
        } if name.number() == device => Some(*number),
        _ => None,
    }
}

/// The interfaces to which these lines bind kernel drivers of a device, in order.
fn drivers_of(alloc: Global, device: u8, items: &[Item]) -> Result<Vec<u8>, NoMemory>
    ensures value { IfOk result (λ v. v.items ≡ filter_map (driver_of_item device) items.now) }
{
    let mut drivers = Vec::new(alloc);
    for item in items {
        if let Some(number) = driver_of_item(device, item) {
            let Ok(()) = drivers.push(number) else {
                return Err(NoMemory);
            };
        }
    }
    Ok(drivers)
}

/// The simulated device of a line, where it declares one, with the drivers that the lines behind it
/// bind.
fn device_of_item(
    alloc: Global,
    item: &Item,
    rest: &[Item],
) -> Result<Option<(u8, SimDevice)>, NoMemory>
    ensures value { IfOk result (λ o. o ≡ device_of_item item.now rest.now) }
{
    match item {
        Item::Device {
            device,
            bus,
            address,
            speed,
            configuration,
            descriptors,
        } => {
            let bytes = Descriptors::from_slice(alloc, descriptors.as_slice())?;
            let drivers = drivers_of(alloc, device.number(), rest)?;
            let simulated = SimDevice {
                bus: *bus,
                address: *address,
                speed: *speed,
                config: *configuration,
                bytes,
                drivers: Bytes::from_vec(drivers),
            };
            Ok(Some((device.number(), simulated)))
        }
        _ => Ok(None),
    }
}

/// The simulated devices that a script declares, in order.
fn devices_of(alloc: Global, items: &[Item]) -> Result<Vec<(u8, SimDevice)>, NoMemory>
    ensures value { IfOk result (λ v. v.items ≡ devices_of items.now) }
{
    let mut devices = Vec::new(alloc);
    for place in 0..items.len() {
        if let Some(device) = device_of_item(alloc, &items[place], &items[place + 1..])? {
            let Ok(()) = devices.push(device) else {
                return Err(NoMemory);
            };
        }
    }
    Ok(devices)
}

/// A host over the devices that these items declare, with room for so many steps and resets.
fn host_with(alloc: Global, items: &[Item], places: usize) -> Result<Host, NoMemory>
    ensures host { IfOk result (λ h. places ≡ place_count items.now → h ≡ (start items.now).host) }
{
    let mut kernel = Kernel::new(alloc, devices_of(alloc, items)?)?;
    kernel.reserve(places)?;
    Ok(Host::new(alloc, kernel))
}

/// What is open under each name, by the kind of name.
struct Names {
    devices: Vec<Option<Device>>,
    interfaces: Vec<Option<Interface>>,
    endpoints: Vec<Option<Endpoint<Any, Any>>>,
    readers: Vec<Option<EndpointRead<Any>>>,
    writers: Vec<Option<EndpointWrite<Any>>>,
    clients: Vec<Option<MsgClient<Any, Any>>>,
    futures: Vec<Option<TransferFuture>>,
}

/// What is open under the names of readers, of writers and of clients.
struct StreamNames {
    readers: Vec<Option<EndpointRead<Any>>>,
    writers: Vec<Option<EndpointWrite<Any>>>,
    clients: Vec<Option<MsgClient<Any, Any>>>,
}

/// Names of two kinds under which nothing is open.
fn two_names<A, B>(alloc: Global) -> Result<(Vec<Option<A>>, Vec<Option<B>>), NoMemory>
    ensures first { IfOk result (λ n. n.0.items ≡ replicate 64 None) }
    ensures second { IfOk result (λ n. n.1.items ≡ replicate 64 None) }
{
    let first = no_names(alloc)?;
    match no_names(alloc) {
        Ok(second) => Ok((first, second)),
        Err(error) => {
            drop_names(first);
            Err(error)
        }
    }
}

/// Names of readers, writers and clients under which nothing is open.
fn stream_names(alloc: Global) -> Result<StreamNames, NoMemory>
    ensures readers { IfOk result (λ n. n.readers.items ≡ replicate 64 None) }
    ensures writers { IfOk result (λ n. n.writers.items ≡ replicate 64 None) }
    ensures clients { IfOk result (λ n. n.clients.items ≡ replicate 64 None) }
{
    let (readers, writers) = two_names(alloc)?;
    match no_names(alloc) {
        Ok(clients) => Ok(StreamNames {
            readers,
            writers,
            clients,
        }),
        Err(error) => {
            drop_names(readers);
            drop_names(writers);
            Err(error)
        }
    }
}

/// Names of each kind under which nothing is open.
fn all_names(alloc: Global) -> Result<Names, NoMemory>
    ensures devices { IfOk result (λ n. n.devices.items ≡ replicate 64 None) }
    ensures interfaces { IfOk result (λ n. n.interfaces.items ≡ replicate 64 None) }
    ensures endpoints { IfOk result (λ n. n.endpoints.items ≡ replicate 64 None) }
    ensures readers { IfOk result (λ n. n.readers.items ≡ replicate 64 None) }
    ensures writers { IfOk result (λ n. n.writers.items ≡ replicate 64 None) }
    ensures clients { IfOk result (λ n. n.clients.items ≡ replicate 64 None) }
    ensures futures { IfOk result (λ n. n.futures.items ≡ replicate 64 None) }
{
    let (devices, interfaces) = two_names(alloc)?;
    let (endpoints, futures) = match two_names(alloc) {
        Ok(names) => names,
        Err(error) => {
            drop_names(devices);
            drop_names(interfaces);
            return Err(error);
        }
    };
    match stream_names(alloc) {
        Ok(
            StreamNames {
                readers,
                writers,
                clients,
            },
        ) => Ok(Names {
            devices,
            interfaces,
            endpoints,
            readers,
            writers,
            clients,
            futures,
        }),
        Err(error) => {
            drop_names(devices);
            drop_names(interfaces);
            drop_names(endpoints);
            drop_names(futures);
            Err(error)
        }
    }
}

/// Drops names under which nothing is open, of each kind.
fn drop_all(names: Names)
    requires devices { names.devices.items ≡ replicate 64 None }
    requires interfaces { names.interfaces.items ≡ replicate 64 None }
    requires endpoints { names.endpoints.items ≡ replicate 64 None }
    requires readers { names.readers.items ≡ replicate 64 None }
    requires writers { names.writers.items ≡ replicate 64 None }
    requires clients { names.clients.items ≡ replicate 64 None }
    requires futures { names.futures.items ≡ replicate 64 None }
{
    let Names {
        devices,
        interfaces,
        endpoints,
        readers,
        writers,
        clients,
        futures,
    } = names;
    drop_names(devices);
    drop_names(interfaces);
    drop_names(endpoints);
    drop_names(readers);
    drop_names(writers);
    drop_names(clients);
    drop_names(futures);
}

/// A host as `host_with` makes it, and names of each kind under which nothing is open.
fn host_and_names(alloc: Global, items: &[Item], places: usize) -> Result<(Host, Names), NoMemory>
    ensures host { IfOk result (λ h. places ≡ place_count items.now → h.0
        ≡ (start items.now).host) }
    ensures devices { IfOk result (λ h. h.1.devices.items ≡ replicate 64 None) }
    ensures interfaces { IfOk result (λ h. h.1.interfaces.items ≡ replicate 64 None) }
    ensures endpoints { IfOk result (λ h. h.1.endpoints.items ≡ replicate 64 None) }
    ensures readers { IfOk result (λ h. h.1.readers.items ≡ replicate 64 None) }
    ensures writers { IfOk result (λ h. h.1.writers.items ≡ replicate 64 None) }
    ensures clients { IfOk result (λ h. h.1.clients.items ≡ replicate 64 None) }
    ensures futures { IfOk result (λ h. h.1.futures.items ≡ replicate 64 None) }
{
    let names = all_names(alloc)?;
    match host_with(alloc, items, places) {
        Ok(host) => Ok((host, names)),
        Err(error) => {
            drop_all(names);
            Err(error)
        }
    }
}

/// The tree of attributes and the packets of udev that these items declare.
fn tree_and_watch(alloc: Global, items: &[Item]) -> Result<(AttrTree, HotplugWatch), NoMemory>
    ensures tree { IfOk result (λ t. t.0 ≡ tree_of items.now) }
    ensures packets { IfOk result (λ t. t.1 ≡ packets_of items.now) }
{
    let packets = packets_of(alloc, items)?;
    let tree = tree_of(alloc, items)?;
    Ok((tree, watch_devices(alloc, packets)))
}

/// The session of these parts.
fn session_of(host: Host, names: Names, tree: AttrTree, watch: HotplugWatch) -> Session
    requires sound { IsSound (session_made tree watch host names.devices.items
        names.interfaces.items names.endpoints.items names.readers.items names.writers.items
        names.clients.items names.futures.items) }
    ensures parts { result ≡ session_made tree watch host names.devices.items
        names.interfaces.items names.endpoints.items names.readers.items names.writers.items
        names.clients.items names.futures.items }
{
    let Names {
        devices,
        interfaces,
        endpoints,
        readers,
        writers,
        clients,
        futures,
    } = names;
    Session {
        host,
        devices,
        interfaces,
        endpoints,
        readers,
        writers,
        clients,
        futures,
        tree,
        watch,
    }
}

impl Session {
    /// A session over the devices that these items declare, with room for their steps and resets, of which there are so many.
    pub fn new(alloc: Global, items: &[Item], places: usize) -> Result<Session, NoMemory>
        requires places { places ≡ place_count items.now }
        ensures stands { IfOk result (λ s. Represents s (start items.now)) }
        ensures spare { IfOk result (λ s. s.host.kernel.spare ≡ places) }
    {
        let (tree, watch) = tree_and_watch(alloc, items)?;
        let (host, names) = host_and_names(alloc, items, places)?;
        Ok(session_of(host, names, tree, watch))
    }
}
