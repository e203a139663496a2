//! Sets of interface numbers.

ghost use Rattle.std.specs.Prelude.{◌≡◌, []};
ghost use Rattle.usb_kernel_devices.specs.Interfaces.{contains, is_empty, insert, remove, set_of};

use std::marker::Model;

/// A set of interface numbers (USB 2.0, 9.6.5, `bInterfaceNumber`).
#[derive(Drop)]
pub struct InterfaceSet {
    flags: [bool; 256],
}

impl Model for InterfaceSet {
    ghost use Rattle.std.specs.Prelude.{ℕ, List};
    ghost use Rattle.usb_kernel_devices.specs.Flags.{numbers_from};

    ghost Value = { List ℕ };

    ghost view = { λ s. numbers_from 0 s.flags };
}

impl InterfaceSet {
    /// The empty set.
    pub fn new() -> InterfaceSet
        ensures none { result ≡ [] }
    {
        InterfaceSet {
            flags: [false; 256],
        }
    }

    /// The set of these numbers.
    pub fn from_slice(numbers: &[u8]) -> InterfaceSet
        ensures numbers { result ≡ set_of numbers.now }
    {
        let mut interfaces = InterfaceSet::new();
        for number in numbers {
            interfaces.insert(*number);
        }
        interfaces
    }

    /// Whether a number is in the set.
    pub fn contains(&self, number: u8) -> bool
        ensures contains { result ≡ contains self.now number }
    {
        self.flags[number as usize]
    }

    /// Whether no number is in the set.
    pub fn is_empty(&self) -> bool
        ensures empty { result ≡ is_empty self.now }
    {
        !self.flags.iter().any(|flag| *flag)
    }

    /// Puts a number in. One that is there stays there.
    pub fn insert(&mut self, number: u8)
        ensures numbers { self.new ≡ insert self.old number }
    {
        self.flags[number as usize] = true;
    }

    /// Takes a number out, if it is there.
    pub fn remove(&mut self, number: u8)
        ensures numbers { self.new ≡ remove self.old number }
    {
        self.flags[number as usize] = false;
    }
}
