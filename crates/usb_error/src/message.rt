//! The messages of errors.

ghost use Rattle.std.specs.Prelude.{◌≡◌};
ghost use Rattle.usb_error.specs.Messages.{message_text};

/// What an error says. `as_str` is its text.
#[derive(Clone, Copy, PartialEq, Eq, Debug)]
pub enum Message {
    /// No plugged device has the address.
    DeviceNotFound,
    /// The device was unplugged.
    DeviceDisconnected,
    PermissionDenied,
    FailedToOpenDevice,
    FailedToReadDescriptors,
    /// The device's own descriptor is not one of USB 2.0, section 9.6.1.
    InvalidDeviceDescriptor,
    FailedToReadConfigurationValue,
    /// The device has no configuration of the value.
    ConfigurationNotFound,
    /// The device is in use.
    DeviceIsBusy,
    FailedToSetConfiguration,
    FailedToResetDevice,
    InterfaceNotFound,
    InterfaceIsBusy,
    FailedToClaimInterface,
    NoKernelDriverAttached,
    FailedToDetachKernelDriver,
    KernelDriverAlreadyAttached,
    FailedToAttachKernelDriver,
    /// The interface has no setting of the number.
    AlternateSettingNotFound,
    FailedToSetAlternateSetting,
    FailedToClearHalt,
    /// The alternate setting stays while an endpoint of the interface lives.
    EndpointsAreInUse,
    /// The interface has another owner.
    InterfaceStillInUse,
    /// The device has no active configuration.
    DeviceIsNotConfigured,
    /// No configuration that was read has the active value.
    NoActiveDescriptor,
    /// The current setting of the interface has no endpoint of the address.
    NoSuchEndpoint,
    IncorrectEndpointDirection,
    IncorrectEndpointType,
    EndpointHasNoPacketSize,
    EndpointAlreadyInUse,
    /// There is no listing of devices.
    ListingNotFound,
    ListingDenied,
    FailedToOpenListing,
}

impl Message {
    /// The text of the message.
    pub fn as_str(&self) -> &'static str
        ensures text { result.now ≡ message_text self.now }
    {
        match self {
            Message::DeviceNotFound => "device not found",
            Message::DeviceDisconnected => "device disconnected",
            Message::PermissionDenied => "permission denied",
            Message::FailedToOpenDevice => "failed to open device",
            Message::FailedToReadDescriptors => "failed to read descriptors",
            Message::InvalidDeviceDescriptor => "invalid device descriptor",
            Message::FailedToReadConfigurationValue => "failed to read sysfs bConfigurationValue",
            Message::ConfigurationNotFound => "configuration not found",
            Message::DeviceIsBusy => "device is busy",
            Message::FailedToSetConfiguration => "failed to set configuration",
            Message::FailedToResetDevice => "failed to reset device",
            Message::InterfaceNotFound => "interface not found",
            Message::InterfaceIsBusy => "interface is busy",
            Message::FailedToClaimInterface => "failed to claim interface",
            Message::NoKernelDriverAttached => "no kernel driver attached",
            Message::FailedToDetachKernelDriver => "failed to detach kernel driver",
            Message::KernelDriverAlreadyAttached => "kernel driver already attached",
            Message::FailedToAttachKernelDriver => "failed to attach kernel driver",
            Message::AlternateSettingNotFound => "alternate setting not found",
            Message::FailedToSetAlternateSetting => "failed to set alternate setting",
            Message::FailedToClearHalt => "failed to clear halt",
            Message::EndpointsAreInUse =>
                "can't change alternate setting while endpoints are in use",
            Message::InterfaceStillInUse => "interface is still in use",
            Message::DeviceIsNotConfigured => "device is not configured",
            Message::NoActiveDescriptor => "no descriptor found for active configuration",
            Message::NoSuchEndpoint => "specified endpoint does not exist on this interface",
            Message::IncorrectEndpointDirection => "incorrect endpoint direction",
            Message::IncorrectEndpointType => "incorrect endpoint type",
            Message::EndpointHasNoPacketSize => "endpoint has max packet size 0",
            Message::EndpointAlreadyInUse => "endpoint already in use",
            Message::ListingNotFound => "/sys/bus/usb/devices/ not found",
            Message::ListingDenied => "/sys/bus/usb/devices/ permission denied",
            Message::FailedToOpenListing => "failed to open /sys/bus/usb/devices/",
        }
    }
}
