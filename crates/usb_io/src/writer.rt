//! A writer of an OUT endpoint.

ghost use Rattle.std.specs.Prelude.{◌≡◌, ◌<◌, ◌≤◌, ◌^◌, length};
ghost use Rattle.usb_device_endpoint.specs.Handles.{Stands, KeepsOthers};
ghost use Rattle.usb_device_endpoint.specs.Closes.{after_close};
ghost use Rattle.usb_io.specs.Readers.{FitsRounded};
ghost use Rattle.usb_io.specs.Writers.{fresh_writer, standing_count};

use crate::reader::round_up;
use std::marker::Model;
use usb_device_endpoint::{Bus, Endpoint};
use usb_xfer::{Buffer, BulkOrInterrupt, Out};

/// A writer of an OUT endpoint, which gathers bytes into transfers of one size.
///
/// It is never dropped: `close` and `into_inner` spend it.
///
/// ```
/// let mut writer = EndpointWrite::new(endpoint, 512);
/// let wrote = writer.write(host, &[1, 2, 3]);
/// let flushed = writer.flush(host);
/// writer.close(host);
/// ```
pub struct EndpointWrite<T: BulkOrInterrupt> {
    pub(crate) endpoint: Endpoint<T, Out>,
    pub(crate) num_transfers: usize,
    pub(crate) transfer_size: usize,
    pub(crate) timeout: u64,
    pub(crate) buffer: Option<Buffer>,
    pub(crate) begun: bool,
}

impl<T: BulkOrInterrupt> Model for EndpointWrite<T> {
    ghost use Rattle.usb_io.specs.Writers.{WriterState, IsWriting, bytes_of};

    ghost Value = { WriterState };

    ghost view = { λ w. record {
      endpoint = w.endpoint;
      n = w.num_transfers;
      size = w.transfer_size;
      timeout = w.timeout;
      buffer = bytes_of w.buffer;
      begun = w.begun;
    } };

    ghost invariant = { λ w. IsWriting w.endpoint w.num_transfers w.transfer_size w.buffer };
}

impl<T: BulkOrInterrupt> EndpointWrite<T> {
    /// A writer that keeps one transfer pending, of a size that is rounded up to whole packets. Its
    /// waits have no end in time.
    pub fn new(endpoint: Endpoint<T, Out>, transfer_size: usize) -> Self
        requires fits { FitsRounded endpoint.maximum transfer_size }
        ensures fresh { result ≡ fresh_writer endpoint transfer_size }
    {
        let size = round_up(transfer_size, endpoint.max_packet_size());
        let _ = endpoint.endpoint_address();
        EndpointWrite {
            endpoint,
            num_transfers: 1,
            transfer_size: size,
            timeout: u64::MAX,
            buffer: None,
            begun: false,
        }
    }

    /// Sets how many transfers may be pending before a write without a buffer waits: at least 1.
    pub fn set_num_transfers(&mut self, n: usize)
        requires some { 1 ≤ n }
        requires few { n ≤ 64 }
        ensures set { self.new ≡ record self.old { n = n } }
    {
        self.num_transfers = n;
    }

    /// The writer with this number of transfers.
    pub fn with_num_transfers(mut self, n: usize) -> Self
        requires some { 1 ≤ n }
        requires few { n ≤ 64 }
        ensures set { result ≡ record self { n = n } }
    {
        self.set_num_transfers(n);
        self
    }

    /// Sets the timeout of a wait in nanoseconds.
    pub fn set_write_timeout(&mut self, t: u64)
        ensures set { self.new ≡ record self.old { timeout = t } }
    {
        self.timeout = t;
    }

    /// The writer with this timeout.
    pub fn with_write_timeout(mut self, t: u64) -> Self
        ensures set { result ≡ record self { timeout = t } }
    {
        self.set_write_timeout(t);
        self
    }

    /// How many transfers were submitted and not taken.
    pub fn pending(&self) -> usize
        ensures count { result ≡ length self.now.endpoint.pending }
    {
        self.endpoint.pending()
    }

    /// How many transfers may be pending before a write without a buffer waits.
    pub fn num_transfers(&self) -> usize
        ensures count { result ≡ self.now.n }
    {
        self.num_transfers
    }

    /// The endpoint's maximum packet size in bytes.
    pub fn max_packet_size(&self) -> usize
        ensures maximum { result ≡ self.now.endpoint.maximum }
        ensures packets { 0 < result }
        ensures small { result < 2 ^ 11 }
    {
        self.endpoint.max_packet_size()
    }

    /// How many bytes the buffer that stands has, where one does.
    pub fn buffered(&self) -> Option<usize>
        ensures count { result ≡ standing_count self.now }
    {
        self.buffer.as_ref().map(|buffer| buffer.len())
    }

    /// Whether an end has begun: the next `poll_flush_end` submits none.
    pub fn end_begun(&self) -> bool
        ensures begun { result ≡ self.now.begun }
    {
        self.begun
    }

    /// The endpoint, with its pending transfers. Bytes that were accepted and not submitted are
    /// gone.
    pub fn into_inner(self) -> Endpoint<T, Out>
        ensures endpoint { result ≡ self.endpoint }
    {
        let EndpointWrite {
            endpoint,
            num_transfers: _,
            transfer_size: _,
            timeout: _,
            buffer: _,
            begun: _,
        } = self;
        endpoint
    }

    /// Closes the endpoint: pending transfers are cancelled, and bytes that were accepted and not
    /// submitted are gone.
    pub fn close<B: Bus>(self, bus: &mut B)
        requires stands { Stands (B.calls.state bus.old) self.endpoint }
        ensures bus { bus.new ≡ after_close B.calls bus.old self.endpoint }
        ensures others { KeepsOthers (B.calls.state bus.old) (B.calls.state bus.new)
            self.endpoint.key }
        ensures handles { B.handles_stand bus.old bus.new }
    {
        self.into_inner().close(bus);
    }
}
