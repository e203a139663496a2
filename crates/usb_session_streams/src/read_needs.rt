//! How many submissions a call on a reader may need.

ghost use Rattle.std.specs.Prelude.{◌≡◌};
ghost use Rattle.usb_io.specs.Readers.{turns};
ghost use Rattle.usb_session_streams.specs.ReadNeeds.{read_need};

use usb_io::EndpointRead;
use usb_xfer::BulkOrInterrupt;

/// Whether a call on a reader turns: no byte stands and no error lasts, and where it stops at a
/// short packet no end stands.
fn turns<T: BulkOrInterrupt>(reader: &EndpointRead<T>, until_short: bool) -> bool
    ensures turns { result ≡ turns until_short reader.now }
{
    reader.available() == 0 && !reader.has_error() && !(until_short && reader.has_end())
}

/// How many submissions a call on a reader may need, which stops at a short packet or doesn't:
/// those that are missing, where it turns.
pub fn read_need<T: BulkOrInterrupt>(reader: &EndpointRead<T>, until_short: bool) -> usize
    ensures need { result ≡ read_need until_short reader.now }
{
    if turns(reader, until_short) {
        reader.num_transfers().saturating_sub(reader.pending())
    } else {
        0
    }
}
