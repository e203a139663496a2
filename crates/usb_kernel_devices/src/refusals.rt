//! Armed refusals: one queue for each device and call, in a log of all that were ever armed.

ghost use Rattle.std.specs.Prelude.{◌≡◌, ◌+◌, ◌*◌, ◌<◌, ◌≤◌, ◌++◌, ◌∷◌, [], replicate, Some, None, IsSome, IfSome, IfNone, IfOk, OnOk, vec_len, vec_capacity};
ghost use Rattle.std.specs.List.{All};
ghost use Rattle.usb_kernel_devices.specs.Errnos.{IsErrno};
ghost use Rattle.usb_kernel_devices.specs.Refusals.{call_number, armed_errno, disarmed, HasArmedErrno};
ghost use Rattle.usb_kernel_devices.specs.Queues.{unused, fresh_arming, linked_behind, IsLinked};

use crate::step::{Armed, KernelCall};
use std::alloc::Global;
use std::marker::Model;
use usb_desc::NoMemory;

/// A refusal that was armed, whether it is used, and the place of the next one that is armed for
/// the same call on the same device.
#[derive(Clone, Copy)]
struct Arming {
    refusal: Armed,
    is_used: bool,
    next: Option<usize>,
}

/// The refusals that are armed for one call on one device: the places of the first and of the last.
#[derive(Clone, Copy)]
struct Queue {
    first: Option<usize>,
    last: usize,
}

/// The refusals that are armed. Each keeps its place in the log, and the queue of its device and
/// call leads to it.
#[derive(Drop)]
pub struct Refusals {
    log: Vec<Arming>,
    queues: Vec<Queue>,
}

impl Model for Refusals {
    ghost use Rattle.std.specs.Prelude.{vec_len, vec_capacity, ◌-◌};
    ghost use Rattle.usb_kernel_devices.specs.RefusalsState.{RefusalsState};

    ghost Value = { RefusalsState };

    ghost use Rattle.usb_kernel_devices.specs.Queues.{unused, IsLinked};

    ghost view = { λ r.
        record { armed = unused r.log.items; room = vec_capacity r.log - vec_len r.log } };

    ghost invariant = { λ r. IsLinked r.queues.items r.log.items };
}

/// The place of the queue of a call on a device.
fn kind(device: u8, call: KernelCall) -> usize
    ensures kind { result ≡ device * 13 + call_number call }
    ensures small { result < 3328 }
{
    device as usize * 13 + call.number() as usize
}

/// The queues at the start, one for each call on each device.
fn empty_queues(alloc: Global) -> Result<Vec<Queue>, NoMemory>
    ensures empty { IfOk result
        (λ queues. queues.items ≡ replicate 3328 (record { first = None; last = 0 })) }
{
    let mut queues = Vec::new(alloc);
    let empty = Queue {
        first: None,
        last: 0,
    };
    match queues.resize(3328, empty) {
        Ok(()) => Ok(queues),
        Err(_) => Err(NoMemory),
    }
}

/// The last refusal of a queue, where it has one, names the next.
fn link(log: &mut Vec<Arming>, queue: Queue, place: usize)
    requires last { IsSome queue.first → queue.last < vec_len log.old }
    ensures items { log.new.items ≡ linked_behind log.old.items queue.first queue.last place }
    ensures len { vec_len log.new ≡ vec_len log.old }
    ensures capacity { vec_capacity log.new ≡ vec_capacity log.old }
{
    if queue.first.is_some() {
        let arming = &mut log[queue.last];
        arming.next = Some(place);
    }
}

/// Appends a refusal, for which there is room.
fn append(log: &mut Vec<Arming>, refusal: Armed)
    requires room { vec_len log.old < vec_capacity log.old }
    ensures items { log.new.items ≡ log.old.items ++ fresh_arming refusal ∷ [] }
    ensures len { vec_len log.new ≡ vec_len log.old + 1 }
    ensures capacity { vec_capacity log.old ≤ vec_capacity log.new }
{
    let _ = log.push(Arming {
        refusal,
        is_used: false,
        next: None,
    });
}

/// Puts a refusal at the end of its queue.
fn enqueue(queues: &mut Vec<Queue>, log: &mut Vec<Arming>, refusal: Armed)
    requires linked { IsLinked queues.old.items log.old.items }
    requires room { vec_len log.old < vec_capacity log.old }
    ensures linked { IsLinked queues.new.items log.new.items }
    ensures unused { unused log.new.items ≡ unused log.old.items ++ refusal ∷ [] }
    ensures len { vec_len log.new ≡ vec_len log.old + 1 }
    ensures capacity { vec_capacity log.old ≤ vec_capacity log.new }
{
    let at = kind(refusal.device, refusal.call);
    let place = log.len();
    let queue = queues[at];
    link(log, queue, place);
    append(log, refusal);
    queues[at] = Queue {
        first: Some(queue.first.unwrap_or(place)),
        last: place,
    };
}

/// Uses up the first refusal of a queue.
fn dequeue(queues: &mut Vec<Queue>, log: &mut Vec<Arming>, device: u8, call: KernelCall)
    requires linked { IsLinked queues.old.items log.old.items }
    ensures linked { IsLinked queues.new.items log.new.items }
    ensures unused { unused log.new.items ≡ disarmed (unused log.old.items) device call }
    ensures len { vec_len log.new ≡ vec_len log.old }
    ensures capacity { vec_capacity log.new ≡ vec_capacity log.old }
{
    let at = kind(device, call);
    let queue = queues[at];
    let Some(first) = queue.first else {
        return;
    };
    let arming = &mut log[first];
    arming.is_used = true;
    queues[at] = Queue {
        first: arming.next,
        last: queue.last,
    };
}

impl Refusals {
    /// No refusal is armed.
    pub fn new(alloc: Global) -> Result<Refusals, NoMemory>
        ensures none { IfOk result (λ r. r.armed ≡ []) }
    {
        Ok(Refusals {
            log: Vec::new(alloc),
            queues: empty_queues(alloc)?,
        })
    }

    /// Makes room for at least n more refusals.
    pub fn reserve(&mut self, n: usize) -> Result<(), NoMemory>
        ensures room { OnOk result (n ≤ self.new.room) }
        ensures kept { self.old.room ≤ self.new.room }
        ensures rest { self.new ≡ record self.old { room = self.new.room } }
    {
        match self.log.reserve(n) {
            Ok(()) => Ok(()),
            Err(_) => Err(NoMemory),
        }
    }

    /// Arms a refusal, for which there is room.
    pub fn arm(&mut self, refusal: Armed)
        requires room { 1 ≤ self.old.room }
        ensures armed { self.new.armed ≡ self.old.armed ++ refusal ∷ [] }
        ensures room { self.old.room ≤ self.new.room + 1 }
    {
        enqueue(&mut self.queues, &mut self.log, refusal);
    }

    /// The errno of the first refusal that is armed for a call on a device.
    pub fn errno(&self, device: u8, call: KernelCall) -> Option<u16>
        ensures errno { result ≡ armed_errno self.now.armed device call }
        ensures known { All HasArmedErrno self.now.armed → IfSome result IsErrno }
        ensures none { IfNone result (disarmed self.now.armed device call ≡ self.now.armed) }
    {
        let queue = self.queues[kind(device, call)];
        match queue.first {
            Some(first) => {
                let arming = &self.log[first];
                Some(arming.refusal.errno)
            }
            None => None,
        }
    }

    /// Uses up the first refusal that is armed for a call on a device.
    pub fn disarm(&mut self, device: u8, call: KernelCall)
        ensures armed { self.new.armed ≡ disarmed self.old.armed device call }
        ensures errnos { All HasArmedErrno self.old.armed → All HasArmedErrno self.new.armed }
        ensures room { self.new.room ≡ self.old.room }
    {
        dequeue(&mut self.queues, &mut self.log, device, call);
    }
}
