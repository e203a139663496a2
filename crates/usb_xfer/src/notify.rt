//! Waking those that wait for a transfer.

ghost use Rattle.std.specs.Prelude.{◌≡◌, Some};
ghost use Rattle.std.specs.Iterator.Runs.{CallKeepsClosure};
ghost use Rattle.futures.specs.Task.{Hears, IsArmed, Keeps};

use futures::task::{Context, Poll, Source, Waker};
use std::marker::Model;
use std::sync::{Condvar, Mutex, Wait};

/// What a `Notify` keeps under its lock: how often it notified, and the task that is registered.
#[derive(Drop)]
pub struct NotifyState {
    moves: u64,
    waker: Option<Waker>,
}

/// Where tasks and threads wait until something has moved, as a transfer that ended. Contracts see
/// the number of its source.
#[derive(Drop)]
pub struct Notify {
    source: Source,
    state: Mutex<NotifyState>,
    moved: Condvar,
}

impl Model for Notify {
    ghost use Rattle.std.specs.Prelude.{ℕ};

    ghost Value = { ℕ };

    ghost view = { λ n. n.source.id };
}

impl Notify {
    /// Nobody waits yet.
    pub fn new() -> Notify {
        let state = Mutex::new(NotifyState {
            moves: 0,
            waker: None,
        });
        Notify {
            source: Source::new(),
            state,
            moved: Condvar::new(),
        }
    }

    /// Registers the task with the source: it is polled again after the next `notify`. A task that
    /// was registered before is polled again at once.
    pub fn subscribe(&self, rt: &impl Wait, cx: &mut Context<'_>)
        ensures armed { IsArmed cx.new }
        ensures heard { Hears cx.new self.now }
        ensures kept { Keeps cx.old cx.new }
    {
        let mut guard = self.state.lock(rt);
        let state = &mut *guard;
        let _: Poll<()> = cx.register(&self.source, &mut state.waker);
    }

    /// Wakes those that are registered or wait.
    pub fn notify(&self, rt: &impl Wait) {
        let mut guard = self.state.lock(rt);
        let state = &mut *guard;
        state.moves = state.moves.wrapping_add(1);
        state.waker = None;
        self.moved.notify_all();
    }

    /// How often it notified, from 0 again after 2^64 times. A thread asks before it tries, for
    /// `wait_past`.
    pub fn moves(&self, rt: &impl Wait) -> u64 {
        self.state.lock(rt).moves
    }

    /// Waits while the number of moves is the one that was seen.
    pub fn wait_past(&self, rt: &impl Wait, seen: u64) {
        let _guard = self
            .moved
            .wait_while(rt, self.state.lock(rt), |s| s.moves == seen);
    }

    /// Calls `check` until it gives a value, which is the answer, and waits for a `notify` between
    /// two calls.
    pub fn wait<T, F: FnMut() -> Option<T>>(&self, rt: &impl Wait, mut check: F) -> T
        requires callable { F.IsAlwaysCallable check }

        // A call gave it: one of `check` itself, where calls leave the closure as it was.
        ensures given { (f : F) × (g : F) × F.step f (Some result) g
            × (CallKeepsClosure F.FnMut check → f ≡ check) }
    {
        for _ in rt.forever() {
            let seen = self.moves(rt);
            if let Some(value) = check() {
                return value;
            }
            self.wait_past(rt, seen);
        }
        unreachable!()
    }
}

impl AsRef<Notify> for Notify {
    fn as_ref(&self) -> &Notify
        ensures itself { result.now ≡ self.now }
    {
        self
    }
}

fn needs_both<T: Send + Sync>(_x: &T) {}

/// A `Notify` may be lent to another thread, and moved there.
pub fn notify_is_send_and_sync(notify: &Notify) {
    needs_both(notify);
}
