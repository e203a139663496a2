//! The buffer of a transfer.

ghost use Rattle.std.specs.Prelude.{◌≡◌, ◌+◌, ◌-◌, ◌<◌, ◌≤◌, ◌^◌, ◌++◌, ◌==◌, [], false, length, take, drop, replicate, IfOk, vec_len, vec_capacity};
ghost use Rattle.std.specs.Borrow.{sem};

use std::alloc::Global;
use std::fmt;
use std::marker::Model;
use usb_desc::NoMemory;

/// The bytes that a transfer sends or receives, in memory of a fixed capacity.
///
/// An OUT transfer sends the bytes that stand in the buffer. An IN transfer asks the device for
/// the requested length, and then the buffer has the bytes that came.
#[derive(Drop)]
pub struct Buffer {
    items: Vec<u8>,
    asked: usize,
    fits: usize,
}

impl Model for Buffer {
    ghost use Rattle.std.specs.Prelude.{◌≤◌, ◌<◌, ◌^◌, vec_len, vec_capacity};
    ghost use Rattle.usb_xfer.specs.BufferState.{BufferState};

    ghost Value = { BufferState };

    ghost view = { λ b. record { bytes = b.items.items; requested = b.asked; room = b.fits } };

    ghost use Rattle.usb_xfer.specs.BufferFacts.{IsFitting};

    ghost invariant = { IsFitting };
}

impl Buffer {
    ghost use Rattle.usb_xfer.specs.BufferLends.{LendsBytes, LendsMore, LendsTail};

    /// An empty buffer. Its capacity and its requested length are as given.
    pub fn new(alloc: Global, requested_len: usize) -> Result<Self, NoMemory>
        requires small { requested_len < 2 ^ 31 }
        ensures empty { IfOk result
            (λ b. b ≡ record { bytes = []; requested = requested_len; room = requested_len }) }
    {
        match Vec::with_capacity(alloc, requested_len) {
            Ok(items) => Ok(Buffer {
                items,
                asked: requested_len,
                fits: requested_len,
            }),
            Err(_) => Err(NoMemory),
        }
    }

    /// A buffer of these bytes. Their number is its capacity and its requested length.
    pub fn from_vec(v: Vec<u8>) -> Buffer
        requires small { vec_len v < 2 ^ 31 }
        ensures whole { result
            ≡ record { bytes = v.items; requested = length v.items; room = length v.items } }
    {
        let len = v.len();
        Buffer {
            items: v,
            asked: len,
            fits: len,
        }
    }

    /// A buffer of a copy of these bytes. Their number is its capacity and its requested length.
    pub fn from_slice(alloc: Global, s: &[u8]) -> Result<Buffer, NoMemory>
        requires small { length s.now < 2 ^ 31 }
        ensures whole { IfOk result
            (λ b. b ≡ record { bytes = s.now; requested = length s.now; room = length s.now }) }
    {
        match Vec::from_slice(alloc, s) {
            Ok(items) => Ok(Buffer::from_vec(items)),
            Err(_) => Err(NoMemory),
        }
    }

    /// A buffer with the same bytes, requested length and capacity.
    pub fn clone(&self) -> Result<Buffer, NoMemory>
        ensures same { IfOk result (λ b. b ≡ self.now) }
    {
        let mut copy = Buffer::new(*self.items.allocator(), self.fits)?;
        copy.extend_from_slice(self.items.as_slice());
        copy.set_requested_len(self.asked);
        Ok(copy)
    }

    /// How many bytes stand in the buffer.
    pub fn len(&self) -> usize
        ensures len { result ≡ length self.now.bytes }
        ensures fits { result ≤ self.now.room }
        ensures small { self.now.room < 2 ^ 31 }
    {
        self.items.len()
    }

    /// Whether no byte stands in the buffer.
    pub fn is_empty(&self) -> bool
        ensures empty { result ≡ (length self.now.bytes == 0) }
    {
        self.items.is_empty()
    }

    /// How many bytes an IN transfer asks for.
    pub fn requested_len(&self) -> usize
        ensures len { result ≡ self.now.requested }
        ensures fits { result ≤ self.now.room }
    {
        self.asked
    }

    /// How many bytes the buffer takes in all.
    pub fn capacity(&self) -> usize
        ensures room { result ≡ self.now.room }
    {
        self.fits
    }

    /// How many more bytes fit.
    pub fn remaining_capacity(&self) -> usize
        ensures free { result ≡ self.now.room - length self.now.bytes }
        ensures fits { length self.now.bytes + result ≡ self.now.room }
    {
        self.fits - self.items.len()
    }

    /// Whether the device reads and writes the memory of the buffer itself. It never does.
    pub fn is_zero_copy(&self) -> bool
        ensures never { result ≡ false }
    {
        false
    }

    /// The bytes.
    pub fn as_slice(&self) -> &[u8]
        ensures bytes { result.now ≡ self.now.bytes }
    {
        self.items.as_slice()
    }

    /// The bytes, for writing.
    pub fn as_mut_slice(&mut self) -> &mut [u8]
        ensures* writes_back { sem 𝓛 (LendsBytes self.entry result) }
        ensures value { result.now ≡ self.old.bytes }
    {
        self.items.as_mut_slice()
    }

    /// The bytes alone.
    pub fn into_vec(self) -> Vec<u8>
        ensures bytes { result.items ≡ self.bytes }
    {
        let Buffer {
            items,
            asked: _,
            fits: _,
        } = self;
        items
    }

    /// Appends bytes that fit.
    pub fn extend_from_slice(&mut self, more: &[u8])
        requires fits { length self.old.bytes + length more.now ≤ self.old.room }
        ensures appended { self.new ≡ record self.old { bytes = self.old.bytes ++ more.now } }
    {
        let _ = self.items.extend_from_slice(more);
    }

    /// Appends `len` times the same byte, which fit, and lends these bytes for writing.
    pub fn extend_fill(&mut self, len: usize, value: u8) -> &mut [u8]
        requires fits { length self.old.bytes + len ≤ self.old.room }
        ensures* writes_back { sem 𝓛 (LendsMore self.entry len value result) }
        ensures value { result.now ≡ replicate len value }
    {
        let start = self.items.len();
        self.append_copies(len, value);
        self.tail_mut(start)
    }

    fn append_copies(&mut self, len: usize, value: u8)
        requires fits { length self.old.bytes + len ≤ self.old.room }
        ensures appended { self.new
            ≡ record self.old { bytes = self.old.bytes ++ replicate len value } }
    {
        append_copies_to(&mut self.items, len, value);
    }

    fn tail_mut(&mut self, start: usize) -> &mut [u8]
        requires within { start ≤ length self.old.bytes }
        ensures* writes_back { sem 𝓛 (LendsTail self.entry start result) }
        ensures value { result.now ≡ drop start self.old.bytes }
    {
        self.items.slice_mut(start..)
    }

    /// Takes all bytes away. The capacity and the requested length stay.
    pub fn clear(&mut self)
        ensures emptied { self.new ≡ record self.old { bytes = [] } }
    {
        self.items.clear();
    }

    /// Keeps the first `len` bytes. The capacity and the requested length stay.
    pub fn truncate(&mut self, len: usize)
        requires within { len ≤ length self.old.bytes }
        ensures kept { self.new ≡ record self.old { bytes = take len self.old.bytes } }
    {
        self.items.truncate(len);
    }

    /// Asks for another length of an IN transfer.
    pub fn set_requested_len(&mut self, len: usize)
        requires fits { len ≤ self.old.room }
        ensures requested { self.new ≡ record self.old { requested = len } }
    {
        self.asked = len;
    }
}

impl fmt::Debug for Buffer {
    fn fmt<W: fmt::Write>(&self, f: &mut fmt::Formatter<W>) -> fmt::Result {
        f.debug_struct("Buffer")
            .field("len", &self.len())
            .field("requested_len", &self.requested_len())
            .field("data", &self.as_slice())
            .finish()
    }
}

// Appends copies of a byte, for which there is room.
fn append_copies_to(items: &mut Vec<u8>, count: usize, value: u8)
    requires room { vec_len items.old + count ≤ vec_capacity items.old }
    ensures items { items.new.items ≡ items.old.items ++ replicate count value }
    ensures len { vec_len items.new ≡ vec_len items.old + count }
    ensures capacity { vec_capacity items.old ≤ vec_capacity items.new }
{
    for _ in 0..count {
        items.push_reserved(value);
    }
}

fn needs_both<T: Send + Sync>(_x: &T) {}

/// A buffer may be lent to another thread, and moved there.
pub fn buffer_is_send_and_sync(buffer: &Buffer) {
    needs_both(buffer);
}
