//! Kinds of host controllers.

ghost use Rattle.std.specs.Prelude.{◌≡◌, ◌==◌, nat_eq, map, codes};
ghost use Rattle.std.specs.Char.{to_ascii_lowercase};
ghost use Rattle.std.specs.List.{starts_with};
ghost use Rattle.usb_enum.specs.Controllers.{controller_of, controller_with};

/// The interface of a host controller.
#[derive(Clone, Copy, PartialEq, Eq, PartialOrd, Ord, Hash, Debug)]
pub enum UsbControllerType {
    /// USB 3 and older.
    XHCI,
    /// USB 2.0.
    EHCI,
    /// USB 1.1.
    OHCI,
    /// USB 1.x, of another kind.
    UHCI,
    /// Virtual.
    VHCI,
}

impl UsbControllerType {
    /// The kind of controller that a driver's name tells: by the letter before the first `hci`, in
    /// either case.
    pub fn from_str(name: &str) -> Option<UsbControllerType>
        ensures controller { result ≡ controller_of name.now }
    {
        let mut before = None;
        let mut rest = name.as_bytes();
        while let [first, after @ ..] = rest {
            if begins_hci(rest) {
                return controller_with(before?);
            }
            before = Some(first.to_ascii_lowercase());
            rest = after;
        }
        None
    }
}

/// Whether a name begins with `hci`, in either case.
fn begins_hci(name: &[u8]) -> bool
    ensures value { result ≡ starts_with nat_eq (map to_ascii_lowercase name.now) (codes "hci") }
{
    match name {
        [h, c, i, ..] => {
            h.to_ascii_lowercase() == b'h'
                && c.to_ascii_lowercase() == b'c'
                && i.to_ascii_lowercase() == b'i'
        }
        _ => false,
    }
}

/// The kind that the letter before `hci` tells.
fn controller_with(letter: u8) -> Option<UsbControllerType>
    ensures controller { result ≡ controller_with letter }
{
    match letter {
        b'x' => Some(UsbControllerType::XHCI),
        b'e' => Some(UsbControllerType::EHCI),
        b'o' => Some(UsbControllerType::OHCI),
        b'u' => Some(UsbControllerType::UHCI),
        b'v' => Some(UsbControllerType::VHCI),
        _ => None,
    }
}
