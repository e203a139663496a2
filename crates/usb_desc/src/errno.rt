//! The error numbers of Linux that have a meaning of their own here.

/// `EPERM`: it is not allowed.
pub const PERM: u16 = 1;
/// `ENOENT`: nothing has this name. A discarded transfer has it as its status.
pub const NOENT: u16 = 2;
/// `EACCES`: the file's mode does not allow it.
pub const ACCES: u16 = 13;
/// `EBUSY`: someone else has it.
pub const BUSY: u16 = 16;
/// `ENODEV`: there is no such device.
pub const NODEV: u16 = 19;
/// `EINVAL`: what was asked for is not allowed.
pub const INVAL: u16 = 22;
/// `EPIPE`: the endpoint is halted.
pub const PIPE: u16 = 32;
/// `ENODATA`: there is nothing to take away.
pub const NODATA: u16 = 61;
/// `ETIME`: the device did not answer in time.
pub const TIME: u16 = 62;
/// `ECOMM`: the host could not store what came as fast as it came.
pub const COMM: u16 = 70;
/// `EPROTO`: a violation of the protocol, as a bit that was not stuffed.
pub const PROTO: u16 = 71;
/// `EOVERFLOW`: more came than was asked for.
pub const OVERFLOW: u16 = 75;
/// `EILSEQ`: a checksum was wrong.
pub const ILSEQ: u16 = 84;
/// `ECONNRESET`: the transfer was unlinked while it ran.
pub const CONNRESET: u16 = 104;
/// `ESHUTDOWN`: the device is gone.
pub const SHUTDOWN: u16 = 108;
/// `ETIMEDOUT`: the time was up.
pub const TIMEDOUT: u16 = 110;
