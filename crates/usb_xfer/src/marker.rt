//! Directions and types of endpoints as types.

ghost use Rattle.std.specs.Prelude.{◌≡◌, true};

use usb_desc::{Direction, TransferType};

/// A direction of an endpoint, as a type: `In` or `Out`, or `Any` where only the endpoint knows it.
pub trait EndpointDirection {
    ghost use Rattle.usb_desc.specs.declared.types.Direction.{Direction};

    // What an endpoint of this direction can be.
    ghost admits: { Direction → Type 0 };

    /// Whether an endpoint of this direction can be one.
    fn admits(direction: Direction) -> bool
        ensures sound { result ≡ true → admits direction }
        ensures complete { admits direction → result ≡ true };
}

/// A direction that the type alone tells.
pub trait KnownDirection: EndpointDirection {
    ghost use Rattle.usb_desc.specs.declared.types.Direction.{Direction};

    ghost DIR: { Direction };

    // It is one that the type admits.
    ghost is_admitted: { Self.admits DIR };

    /// The direction as a value.
    const DIR: Direction;
}

/// From the device to the host.
pub enum In {}

impl EndpointDirection for In {
    ghost use Rattle.std.specs.Prelude.{◌≡◌};
    ghost use Rattle.usb_desc.specs.declared.types.Direction.TheVariants.{In as to_host};

    ghost admits = { λ d. d ≡ to_host };

    fn admits(direction: Direction) -> bool {
        matches!(direction, Direction::In)
    }
}

impl KnownDirection for In {
    ghost use Rattle.std.specs.Prelude.{refl};
    ghost use Rattle.usb_desc.specs.declared.types.Direction.TheVariants.{In as to_host};

    ghost DIR = { to_host };

    ghost is_admitted = { refl };

    const DIR: Direction = Direction::In;
}

/// From the host to the device.
pub enum Out {}

impl EndpointDirection for Out {
    ghost use Rattle.std.specs.Prelude.{◌≡◌};
    ghost use Rattle.usb_desc.specs.declared.types.Direction.TheVariants.{Out as to_device};

    ghost admits = { λ d. d ≡ to_device };

    fn admits(direction: Direction) -> bool {
        matches!(direction, Direction::Out)
    }
}

impl KnownDirection for Out {
    ghost use Rattle.std.specs.Prelude.{refl};
    ghost use Rattle.usb_desc.specs.declared.types.Direction.TheVariants.{Out as to_device};

    ghost DIR = { to_device };

    ghost is_admitted = { refl };

    const DIR: Direction = Direction::Out;
}

/// A transfer type of an endpoint, as a type: `Bulk` or `Interrupt`, or `Any` where only the
/// endpoint knows it.
pub trait EndpointType {
    ghost use Rattle.usb_desc.specs.declared.types.TransferType.{TransferType};

    // What an endpoint of this type can be.
    ghost admits: { TransferType → Type 0 };

    /// Whether an endpoint of this type can be one.
    fn admits(kind: TransferType) -> bool
        ensures sound { result ≡ true → admits kind }
        ensures complete { admits kind → result ≡ true };
}

/// A transfer type that the type alone tells.
pub trait KnownType: EndpointType {
    ghost use Rattle.usb_desc.specs.declared.types.TransferType.{TransferType};

    ghost TYPE: { TransferType };

    // It is one that the type admits.
    ghost is_admitted: { Self.admits TYPE };

    /// The transfer type as a value.
    const TYPE: TransferType;
}

/// An endpoint that sends or receives bytes in packets, with no setup stage and no fixed times.
pub trait BulkOrInterrupt: EndpointType {}

/// USB 2.0, section 5.8.
pub enum Bulk {}

impl EndpointType for Bulk {
    ghost use Rattle.std.specs.Prelude.{◌≡◌};
    ghost use Rattle.usb_desc.specs.declared.types.TransferType.TheVariants.{Bulk as bulk};

    ghost admits = { λ k. k ≡ bulk };

    fn admits(kind: TransferType) -> bool {
        matches!(kind, TransferType::Bulk)
    }
}

impl KnownType for Bulk {
    ghost use Rattle.std.specs.Prelude.{refl};
    ghost use Rattle.usb_desc.specs.declared.types.TransferType.TheVariants.{Bulk as bulk};

    ghost TYPE = { bulk };

    ghost is_admitted = { refl };

    const TYPE: TransferType = TransferType::Bulk;
}

impl BulkOrInterrupt for Bulk {}

/// USB 2.0, section 5.7.
pub enum Interrupt {}

impl EndpointType for Interrupt {
    ghost use Rattle.std.specs.Prelude.{◌≡◌};
    ghost use Rattle.usb_desc.specs.declared.types.TransferType.TheVariants.{Interrupt as interrupt};

    ghost admits = { λ k. k ≡ interrupt };

    fn admits(kind: TransferType) -> bool {
        matches!(kind, TransferType::Interrupt)
    }
}

impl KnownType for Interrupt {
    ghost use Rattle.std.specs.Prelude.{refl};
    ghost use Rattle.usb_desc.specs.declared.types.TransferType.TheVariants.{Interrupt as interrupt};

    ghost TYPE = { interrupt };

    ghost is_admitted = { refl };

    const TYPE: TransferType = TransferType::Interrupt;
}

impl BulkOrInterrupt for Interrupt {}

/// A type or a direction that the endpoint alone knows.
pub enum Any {}

impl EndpointDirection for Any {
    ghost admits = { λ _. Unit {0} };

    fn admits(_direction: Direction) -> bool {
        true
    }
}

impl EndpointType for Any {
    ghost admits = { λ _. Unit {0} };

    fn admits(_kind: TransferType) -> bool {
        true
    }
}

impl BulkOrInterrupt for Any {}
