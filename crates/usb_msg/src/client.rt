//! A client of messages.

ghost use Rattle.std.specs.Prelude.{◌≡◌, ◌-◌, ◌<◌, ◌^◌, [], IfOk, IfErr};
ghost use Rattle.usb_device_endpoint.specs.Closes.{after_close};
ghost use Rattle.usb_msg.specs.Clients.{fresh_client, StandBoth};

use crate::error::Ending;
use std::alloc::Global;
use std::marker::Model;
use usb_device_endpoint::{Bus, Endpoint};
use usb_io::{EndpointRead, EndpointWrite};
use usb_xfer::{BulkOrInterrupt, In, Out};

/// The size of a writer's transfer in bytes, which holds a frame.
const SENT_SIZE: usize = 4160;

/// The size of a reader's transfer in bytes.
const READ_SIZE: usize = 512;

/// A client that sends requests to a device over an OUT endpoint, and reads its responses from an
/// IN endpoint. A request is one message of the writer, and a response is one of the reader: a tag,
/// four bytes with the lowest first, and a body of at most 4096 bytes. The tags count from 0.
///
/// It is never dropped: `close` spends it.
///
/// ```
/// match MsgClient::new(out, inp) {
///     Ok(mut client) => {
///         let tag = client.request(host, &[1, 2, 3]);
///         client.close(host);
///     }
///     Err((out, inp)) => {
///         out.close(host);
///         inp.close(host);
///     }
/// }
/// ```
pub struct MsgClient<O: BulkOrInterrupt, I: BulkOrInterrupt> {
    pub(crate) writer: EndpointWrite<O>,
    pub(crate) reader: EndpointRead<I>,
    pub(crate) requests: u32,
    pub(crate) responses: u32,
    pub(crate) frame: Vec<u8>,
    pub(crate) filled: usize,
    pub(crate) ended: Option<Ending>,
}

impl<O: BulkOrInterrupt, I: BulkOrInterrupt> Model for MsgClient<O, I> {
    ghost use Rattle.std.specs.Prelude.{take, length};
    ghost use Rattle.usb_msg.specs.Clients.{ClientState, IsClient};

    ghost Value = { ClientState };

    ghost view = { λ c. record {
      writer = c.writer;
      reader = c.reader;
      requests = c.requests;
      responses = c.responses;
      frame = take c.filled c.frame.items;
      ended = c.ended;
    } };

    ghost invariant = { λ c. IsClient c.writer c.reader c.requests c.responses
        (length c.frame.items) c.filled c.ended };
}

impl<O: BulkOrInterrupt, I: BulkOrInterrupt> MsgClient<O, I> {
    /// A client over two endpoints with nothing pending. Its writer has transfers of 4160 bytes, of
    /// which 4 may be pending before a write waits, its reader one of 512 bytes, each size rounded
    /// up to whole packets. Waits have no end in time. It takes the memory for one frame.
    ///
    /// # Errors
    ///
    /// The endpoints, where memory is wanted.
    pub fn new(
        out: Endpoint<O, Out>,
        inp: Endpoint<I, In>,
    ) -> Result<Self, (Endpoint<O, Out>, Endpoint<I, In>)>
        requires out_idle { out.pending ≡ [] }
        requires in_idle { inp.pending ≡ [] }
        ensures fresh { IfOk result (λ c. c ≡ fresh_client out inp) }
        ensures back { IfErr result (λ back. (back.0 ≡ out) × (back.1 ≡ inp)) }
    {
        let _ = out.max_packet_size();
        let Ok(mut room) = inp.allocate(4101) else {
            return Err((out, inp));
        };
        let _ = room.extend_fill(4101, 0);
        Ok(MsgClient {
            writer: EndpointWrite::new(out, SENT_SIZE).with_num_transfers(4),
            reader: EndpointRead::new(inp, READ_SIZE),
            requests: 0,
            responses: 0,
            frame: room.into_vec(),
            filled: 0,
            ended: None,
        })
    }

    /// What takes memory, takes it from here.
    pub(crate) fn allocator(&self) -> Global {
        *self.frame.allocator()
    }

    /// How many requests were accepted.
    pub fn requests(&self) -> u32
        ensures count { result ≡ self.now.requests }
    {
        self.requests
    }

    /// How many requests were accepted whose responses are to come.
    pub fn outstanding(&self) -> usize
        ensures count { result ≡ self.now.requests - self.now.responses }
    {
        (self.requests - self.responses) as usize
    }

    /// The reader of the responses.
    pub fn reader(&self) -> &EndpointRead<I>
        ensures reader { result.now ≡ self.now.reader }
    {
        &self.reader
    }

    /// The writer of the requests.
    pub fn writer(&self) -> &EndpointWrite<O>
        ensures writer { result.now ≡ self.now.writer }
    {
        &self.writer
    }

    /// Closes the writer, and then the reader.
    pub fn close<B: Bus>(self, bus: &mut B)
        requires stand { StandBoth (B.calls.state bus.old) self }
        ensures bus { bus.new
            ≡ after_close B.calls (after_close B.calls bus.old self.writer.endpoint)
            self.reader.endpoint }
    {
        let MsgClient {
            writer,
            reader,
            requests: _,
            responses: _,
            frame: _,
            filled: _,
            ended: _,
        } = self;
        writer.close(bus);
        reader.close(bus);
    }
}
