//! The empty packets that are ready for what the disk sends.

ghost use Rattle.std.specs.Prelude.{◌≡◌, ◌+◌, ◌<◌, ◌≤◌, ◌^◌, ◌++◌, ◌∷◌, [], length, take, drop, replicate, Some, OnOk, OnErr};
ghost use Rattle.std.specs.List.{slice_get};

use crate::blank::Blank;
use std::alloc::Global;
use std::collections::VecDeque;
use std::marker::Model;
use usb_desc::NoMemory;

/// Empty packets in a row: seen as their sizes. A submission makes them ready, so that the disk
/// sends without taking memory.
#[derive(Drop)]
pub(crate) struct Blanks {
    queue: VecDeque<Blank>,
}

impl Model for Blanks {
    ghost use Rattle.std.specs.Prelude.{ℕ, List};

    ghost Value = { List ℕ };

    ghost view = { λ b. b.queue.items };
}

impl Blanks {
    /// None.
    pub(crate) fn new(alloc: Global) -> Blanks
        ensures none { result ≡ [] }
    {
        Blanks {
            queue: VecDeque::new(alloc),
        }
    }

    /// How many there are.
    pub(crate) fn len(&self) -> usize
        ensures len { result ≡ length self.now }
    {
        self.queue.len()
    }

    /// The size of the first one.
    pub(crate) fn first(&self) -> Option<usize>
        ensures first { result ≡ slice_get self.now 0 }
    {
        let blank = self.queue.front()?;
        Some(blank.size())
    }

    /// Takes the first one. There must be one.
    pub(crate) fn take_first(&mut self) -> Blank
        requires some { 0 < length self.old }
        ensures first { self.old ≡ result ∷ self.new }
    {
        self.queue.pop_front().unwrap()
    }

    /// Adds so many of this size.
    ///
    /// # Errors
    ///
    /// Want of memory. Nothing has changed.
    pub(crate) fn add(&mut self, count: usize, size: usize) -> Result<(), NoMemory>
        requires small { 0 < count → size < 2 ^ 31 }
        ensures ok { OnOk result (self.new ≡ self.old ++ replicate count size) }
        ensures err { OnErr result (self.new ≡ self.old) }
    {
        let had = self.queue.len();
        let alloc = *self.queue.allocator();
        for _ in 0..count {
            let added = add_one(&mut self.queue, alloc, size);
            if added.is_err() {
                self.queue.truncate(had);
                return added;
            }
        }
        Ok(())
    }

    /// Keeps so many of them.
    pub(crate) fn truncate(&mut self, count: usize)
        ensures kept { self.new ≡ take count self.old }
    {
        self.queue.truncate(count);
    }

    /// Drops so many of them.
    pub(crate) fn forget(&mut self, count: usize)
        ensures left { self.new ≡ drop count self.old }
    {
        for _ in 0..count {
            let _ = self.queue.pop_front();
        }
    }
}

/// Adds one of this size at the end. An `Err` is want of memory, and then nothing has changed.
fn add_one(queue: &mut VecDeque<Blank>, alloc: Global, size: usize) -> Result<(), NoMemory>
    requires small { size < 2 ^ 31 }
    ensures ok { OnOk result (queue.new.items ≡ queue.old.items ++ size ∷ []) }
    ensures err { OnErr result (queue.new.items ≡ queue.old.items) }
{
    let blank = Blank::new(alloc, size)?;
    match queue.push_back(blank) {
        Ok(()) => Ok(()),
        Err(_) => Err(NoMemory),
    }
}
