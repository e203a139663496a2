//! What ends the event loop.
ghost use Rattle.std.specs.Prelude.{◌≡◌, Bool, not, true, false};

use std::sync::atomic::{AtomicBool, Ordering};

/// Is asked before each round of the event loop. It is closed from its first false on.
pub trait Gate: Drop {
    ghost is_closed: { Self → Bool };

    /// Whether a further round may be made. False exactly where the gate is then closed.
    fn pass(&mut self) -> bool
        ensures passed { result ≡ not (is_closed self.new) }
        ensures closed { is_closed self.old ≡ true → is_closed self.new ≡ true };
}

/// A gate that never closes.
#[derive(Drop)]
pub struct OpenGate;

impl Gate for OpenGate {
    ghost is_closed = { λ _. false };

    fn pass(&mut self) -> bool {
        true
    }
}

/// A flag that threads share, which is set once and for all.
#[derive(Drop)]
pub struct Seen {
    flag: AtomicBool,
}

impl Seen {
    /// Nothing was seen yet.
    pub fn new() -> Seen {
        Seen {
            flag: AtomicBool::new(false),
        }
    }

    /// From now on `get` answers true.
    pub fn set(&self) {
        self.flag.store(true, Ordering::SeqCst);
    }

    /// Whether it was set.
    pub fn get(&self) -> bool {
        self.flag.load(Ordering::SeqCst)
    }
}

/// A gate that a flag closes, or the gate inside.
#[derive(Drop)]
pub(crate) struct StopGate<'a, G> {
    stop: &'a Seen,
    inner: G,
    closed: bool,
}

impl<'a, G: Gate> StopGate<'a, G> {
    /// Passes while the flag is not set and the gate passes.
    pub(crate) fn new(stop: &'a Seen, inner: G) -> StopGate<'a, G> {
        StopGate {
            stop,
            inner,
            closed: false,
        }
    }
}

impl<'a, G: Gate> Gate for StopGate<'a, G> {
    ghost is_closed = { λ g. g.closed };

    // It passes only where the gate inside did.
    fn pass(&mut self) -> bool
        ensures passed { result ≡ not self.new.closed }
        ensures closed { self.old.closed ≡ true → self.new.closed ≡ true }
        ensures inner { result ≡ true → G.is_closed self.new.inner ≡ false }
    {
        if !self.closed {
            self.closed = self.stop.get() || !self.inner.pass();
        }
        !self.closed
    }
}

fn needs_both<T: Send + Sync>(_x: &T) {}

/// A flag may be moved to another thread, and lent to one.
pub fn seen_is_send_and_sync(seen: &Seen) {
    needs_both(seen);
}

fn needs_send<T: Send>(_x: &T) {}

/// An open gate may be moved to another thread.
pub fn open_gate_is_send(gate: &OpenGate) {
    needs_send(gate);
}
