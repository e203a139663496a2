//! A kernel that threads share.
ghost use Rattle.std.specs.Prelude.{IsOk};

use std::sync::{Mutex, MutexGuard, Wait};
use usb_desc::NoMemory;
use usb_kernel::Kernel;

/// A kernel under a lock. The rule of `Kernel`, by which its journal replays to its table of tickets, is that of its type, so it holds
/// each time the lock is taken.
#[derive(Drop)]
pub struct LiveKernel {
    kernel: Mutex<Kernel>,
}

impl LiveKernel {
    /// The kernel under a lock. An `Err` is want of memory, which this lock never asks for.
    pub fn new(kernel: Kernel) -> Result<LiveKernel, NoMemory>
        ensures ok { IsOk result }
    {
        Ok(LiveKernel {
            kernel: Mutex::new(kernel),
        })
    }

    /// The kernel, once no other thread has it.
    pub fn lock<R: Wait>(&self, rt: &R) -> MutexGuard<'_, Kernel> {
        self.kernel.lock(rt)
    }

    /// The kernel, once nobody borrows this.
    pub fn into_kernel(self) -> Kernel {
        let LiveKernel { kernel } = self;
        kernel.into_inner()
    }
}

fn needs_both<T: Send + Sync>(_x: &T) {}

/// A locked kernel may be moved to another thread, and lent to one.
pub fn live_kernel_is_send_and_sync(kernel: &LiveKernel) {
    needs_both(kernel);
}
