//! Why nothing is decided.

ghost use Rattle.std.specs.Prelude.{◌≡◌};
ghost use Rattle.tl_check_verdict.specs.Stops.{unmapped, unread};

use crate::fault::{CertFault, MapFault};
use tl_cert::CertStop;
use tl_cert_output::Stop;
use tl_map_rules::MapStop;

/// What is answered where records have no map: their fault, or why they aren't read.
pub fn fault_of_records(stop: MapStop) -> Result<MapFault, Stop>
    ensures { result ≡ unmapped stop }
{
    match stop {
        MapStop::Refused { line, cause } => Err(Stop::Record { line, cause }),
        MapStop::Device => Err(Stop::Device),
        MapStop::Memory => Err(Stop::Memory),
        MapStop::Fault(fault) => Ok(MapFault::Records(fault)),
        MapStop::NoRecords(lacking) => Ok(MapFault::NoRecords(lacking)),
    }
}

/// What is answered where a certificate can't be read on: the fault of its text, or why it isn't read.
pub fn fault_of_text(stop: CertStop) -> Result<CertFault, Stop>
    ensures { result ≡ unread stop }
{
    match stop {
        CertStop::Text { line } => Ok(CertFault::Text { line }),
        CertStop::Memory => Err(Stop::Memory),
        CertStop::Device => Err(Stop::Device),
    }
}
