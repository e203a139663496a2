//! The room for steps beside those of the line that are left.

ghost use Rattle.std.specs.Prelude.{◌≡◌, ◌+◌, ◌-◌, length, max, min, OnOk, OnErr};

use crate::host::Host;
use usb_desc::NoMemory;

impl Host {
    /// Makes room for at least n steps beside those of the line that are left.
    ///
    /// # Errors
    ///
    /// Want of memory. Nothing has changed.
    pub fn reserve(&mut self, n: usize) -> Result<(), NoMemory>
        ensures ok { OnOk result (self.new ≡ record self.old {
          kernel = record self.old.kernel
              { spare = max self.old.kernel.spare (length self.old.steps + n) };
        }) }
        ensures err { OnErr result (self.new ≡ self.old) }
    {
        let Some(places) = self.steps.len().checked_add(n) else {
            return Err(NoMemory);
        };
        self.kernel.reserve(places)
    }

    /// How many steps there is room for beside those of the line that are left.
    pub fn room(&self) -> usize
        ensures room { result ≡ self.now.kernel.spare - length self.now.steps }
        ensures whole { result + length self.now.steps ≡ self.now.kernel.spare }
    {
        self.kernel.room() - self.steps.len()
    }

    /// Gives up the room for all but n steps beside those of the line that are left.
    pub fn give_up_room(&mut self, n: usize)
        ensures host { self.new ≡ record self.old {
          kernel = record self.old.kernel
              { spare = min self.old.kernel.spare (length self.old.steps + n) };
        } }
    {
        let left = self.steps.len();
        if n < self.kernel.room() - left {
            self.kernel.give_up_room(left + n);
        }
    }
}
