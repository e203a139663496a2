//! Readers and writers made of endpoints.

ghost use Rattle.std.specs.Prelude.{◌≡◌};
ghost use Rattle.usb_device_endpoint.specs.EndpointState.{EndpointState};
ghost use Rattle.usb_io.specs.Readers.{fresh_reader, FitsRounded};
ghost use Rattle.usb_io.specs.Writers.{fresh_writer};

use crate::reader::EndpointRead;
use crate::writer::EndpointWrite;
use usb_device_endpoint::Endpoint;
use usb_xfer::{BulkOrInterrupt, In, Out};

/// What a reader can be made of.
pub trait IntoReader<T: BulkOrInterrupt> {
    // The endpoint that is read.
    ghost input: { Self → EndpointState };

    /// A reader, as `EndpointRead::new` makes it.
    fn reader(self, transfer_size: usize) -> EndpointRead<T>
        requires fits { FitsRounded (input self).maximum transfer_size }
        ensures fresh { result ≡ fresh_reader (input self) transfer_size };
}

impl<T: BulkOrInterrupt> IntoReader<T> for Endpoint<T, In> {
    ghost input = { λ e. e };

    fn reader(self, transfer_size: usize) -> EndpointRead<T> {
        EndpointRead::new(self, transfer_size)
    }
}

/// What a writer can be made of.
pub trait IntoWriter<T: BulkOrInterrupt> {
    // The endpoint that is written to.
    ghost output: { Self → EndpointState };

    /// A writer, as `EndpointWrite::new` makes it.
    fn writer(self, transfer_size: usize) -> EndpointWrite<T>
        requires fits { FitsRounded (output self).maximum transfer_size }
        ensures fresh { result ≡ fresh_writer (output self) transfer_size };
}

impl<T: BulkOrInterrupt> IntoWriter<T> for Endpoint<T, Out> {
    ghost output = { λ e. e };

    fn writer(self, transfer_size: usize) -> EndpointWrite<T> {
        EndpointWrite::new(self, transfer_size)
    }
}
