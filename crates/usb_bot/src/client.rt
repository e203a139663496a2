//! A client of Bulk-Only Transport.

ghost use Rattle.std.specs.Prelude.{◌≡◌, ◌%◌, []};
ghost use Rattle.usb_device_endpoint.specs.Closes.{after_close};
ghost use Rattle.usb_bot.specs.Clients.{fresh_client, StandBoth, KeepsFurther};

use crate::error::BotError;
use std::marker::Model;
use usb_device_endpoint::{Bus, Endpoint};
use usb_xfer::{Bulk, In, Out};

/// A client that reads and writes blocks of 512 bytes at a device, over its two bulk endpoints:
/// Bulk-Only Transport. A command is three blocking transfers: a wrapper, data and a status. Tags
/// count the commands from 0 on.
///
/// It is never dropped: `close` spends it. The crate `example_disk` has a driver over it.
pub struct BotClient {
    pub(crate) out: Endpoint<Bulk, Out>,
    pub(crate) inp: Endpoint<Bulk, In>,
    pub(crate) next_tag: u32,
    pub(crate) ended: Option<BotError>,
}

impl Model for BotClient {
    ghost use Rattle.usb_bot.specs.Clients.{ClientState, IsClient};

    ghost Value = { ClientState };

    ghost view = { λ c. record {
      out = c.out;
      inp = c.inp;
      next_tag = c.next_tag;
      ended = c.ended;
    } };

    ghost invariant = { λ c. IsClient c.out c.inp };
}

impl BotClient {
    /// A client over two endpoints with nothing pending. A block is whole packets of the IN
    /// endpoint.
    pub fn new(out: Endpoint<Bulk, Out>, inp: Endpoint<Bulk, In>) -> BotClient
        requires out_idle { out.pending ≡ [] }
        requires in_idle { inp.pending ≡ [] }
        requires whole_blocks { 512 % inp.maximum ≡ 0 }
        ensures fresh { result ≡ fresh_client out inp }
    {
        BotClient {
            out,
            inp,
            next_tag: 0,
            ended: None,
        }
    }

    /// Closes the OUT endpoint, and then the IN endpoint.
    pub fn close<B: Bus>(self, bus: &mut B)
        requires stand { StandBoth (B.calls.state bus.old) self }
        ensures bus { bus.new
            ≡ after_close B.calls (after_close B.calls bus.old self.out) self.inp }
        ensures others { KeepsFurther (B.calls.state bus.old) (B.calls.state bus.new) self }
        ensures handles { B.handles_stand bus.old bus.new }
    {
        B::calls_keep_handles();
        let BotClient {
            out,
            inp,
            next_tag: _,
            ended: _,
        } = self;
        out.close(bus);
        inp.close(bus);
    }
}
