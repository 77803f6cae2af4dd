//! Answers.

ghost use Rattle.std.specs.Prelude.{◌≡◌};
ghost use Rattle.tl_check.specs.Keeping.Answers.{answer_of, stop_of};

use crate::state::Halt;
use tl_cert::CertStop;
use tl_cert_output::Stop;
use tl_check_verdict::{Verdict, fault_of_text};

/// The answer where no further part is looked at.
pub fn answer(halt: Halt) -> Result<Verdict, Stop>
    ensures { result ≡ answer_of halt }
{
    match halt {
        Halt::Fault(fault) => Ok(Verdict::MapFault(fault)),
        Halt::Memory => Err(Stop::Memory),
        Halt::Budget => Err(Stop::Budget),
    }
}

/// The answer where the certificate can't be read on.
pub fn stopped(stop: CertStop) -> Result<Verdict, Stop>
    ensures { result ≡ stop_of stop }
{
    Ok(Verdict::CertFault(fault_of_text(stop)?))
}
