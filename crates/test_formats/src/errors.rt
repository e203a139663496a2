//! Kinds, codes and texts of errors and faults, with values from outside.

use crate::answers::check;
use std::alloc::AllocError;
use usb_desc::{Fail as OwnFail, NoMemory};

/// Calls and their errnos, with the kinds, the codes and the texts of their errors; errors without
/// a code; and faults, with their kinds and texts.
const ERRORS: &str = "\
# calls that open, set up and reset a device
error open 2 = Disconnected Some(2) device not found (errno 2)
error open 1 = PermissionDenied Some(1) permission denied (errno 1)
error open 13 = PermissionDenied Some(13) permission denied (errno 13)
error open 19 = Other Some(19) failed to open device (errno 19)
error open 4095 = Other Some(4095) failed to open device (errno 4095)
error read_descriptors 19 = Other Some(19) failed to read descriptors (errno 19)
error set_configuration 19 = Disconnected Some(19) device disconnected (errno 19)
error set_configuration 22 = NotFound Some(22) configuration not found (errno 22)
error set_configuration 16 = Busy Some(16) device is busy (errno 16)
error set_configuration 2 = Other Some(2) failed to set configuration (errno 2)
error reset 19 = Disconnected Some(19) device disconnected (errno 19)
error reset 16 = Busy Some(16) device is busy (errno 16)
error reset 22 = Other Some(22) failed to reset device (errno 22)
# claims, and calls that move drivers
error claim 19 = Disconnected Some(19) device disconnected (errno 19)
error claim 22 = NotFound Some(22) interface not found (errno 22)
error claim 2 = NotFound Some(2) interface not found (errno 2)
error claim 16 = Busy Some(16) interface is busy (errno 16)
error claim 61 = Other Some(61) failed to claim interface (errno 61)
error detach 19 = Disconnected Some(19) device disconnected (errno 19)
error detach 22 = NotFound Some(22) interface not found (errno 22)
error detach 61 = Other Some(61) no kernel driver attached (errno 61)
error detach 16 = Other Some(16) failed to detach kernel driver (errno 16)
error attach 19 = Disconnected Some(19) device disconnected (errno 19)
error attach 22 = NotFound Some(22) interface not found (errno 22)
error attach 16 = Busy Some(16) kernel driver already attached (errno 16)
error attach 61 = Other Some(61) failed to attach kernel driver (errno 61)
# settings, halts and listings
error set_alt_setting 19 = Disconnected Some(19) device disconnected (errno 19)
error set_alt_setting 22 = NotFound Some(22) alternate setting not found (errno 22)
error set_alt_setting 16 = Other Some(16) failed to set alternate setting (errno 16)
error clear_halt 19 = Disconnected Some(19) device disconnected (errno 19)
error clear_halt 22 = Other Some(22) failed to clear halt (errno 22)
error listing 2 = Other Some(2) /sys/bus/usb/devices/ not found (errno 2)
error listing 1 = PermissionDenied Some(1) /sys/bus/usb/devices/ permission denied (errno 1)
error listing 13 = PermissionDenied Some(13) /sys/bus/usb/devices/ permission denied (errno 13)
error listing 12 = Other Some(12) failed to open /sys/bus/usb/devices/ (errno 12)
# devices and interfaces, without a code
error invalid_device_descriptor = Other None invalid device descriptor
error configuration = Other None failed to read sysfs bConfigurationValue
error settings_in_use = Busy None can't change alternate setting while endpoints are in use
error interface_in_use = Busy None interface is still in use
error not_configured = Other None device is not configured
error no_descriptor = Other None no descriptor found for active configuration
# endpoints, without a code
error no_endpoint = NotFound None specified endpoint does not exist on this interface
error wrong_direction = Other None incorrect endpoint direction
error wrong_type = Other None incorrect endpoint type
error no_packet_size = Other None endpoint has max packet size 0
error endpoint_in_use = Busy None endpoint already in use
# faults of transfers that ended with an errno, and of descriptors whose transfers did
fault transfer 2 = Interrupted transfer was cancelled
fault descriptor 2 = Interrupted transfer was cancelled
fault transfer 32 = ConnectionReset endpoint stalled
fault descriptor 32 = ConnectionReset endpoint stalled
fault transfer 19 = ConnectionAborted device disconnected
fault descriptor 19 = ConnectionAborted device disconnected
fault transfer 71 = Other hardware fault or protocol violation
fault descriptor 71 = Other hardware fault or protocol violation
fault transfer 22 = InvalidInput invalid or unsupported argument
fault descriptor 22 = InvalidInput invalid or unsupported argument
fault transfer 5 = Other unknown (errno 5)
fault descriptor 5 = Other unknown (errno 5)
# faults of calls that are refused with an errno
fault open 2 = NotConnected device not found (errno 2)
fault open 13 = PermissionDenied permission denied (errno 13)
fault open 5 = Other failed to open device (errno 5)
fault claim 22 = NotFound interface not found (errno 22)
fault claim 16 = Other interface is busy (errno 16)
# other faults
fault invalid_descriptor = InvalidData invalid descriptor
fault not_configured = Other device is not configured
fault no_descriptor = Other no descriptor found for active configuration 17
# texts and kinds of which no call above tells
text no_memory = out of memory
text invalid_string = invalid string descriptor
text memory_of_string = out of memory
text unsupported = Unsupported
text too_long = script too long
text read_fault = read fault
text write_fault = write fault
text memory_of_session = out of memory";

#[test]
fn errors_and_faults_have_their_kinds_codes_and_texts(rt: HostRuntime) -> Result<(), AllocError> {
    check(&rt, ERRORS)?;
    assert!(rt; OwnFail::Cause(NoMemory) != OwnFail::Memory);
    Ok(())
}
