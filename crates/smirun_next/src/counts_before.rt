//! The counts of the logs before a log.
ghost use Rattle.std.specs.Prelude.{IfOk};
ghost use Rattle.smirun_next.specs.NextLogs.{AreCountsBefore};

use smi_carried::{Carried, CarriedCounts};
use smi_log_begin::log_version;
use smi_log_front::{Front, FrontFault, LogVersion, read_front};
use smirun_commands::{Fault, LogRefusal};
use sml_domain::Domain;
use std::alloc::Global;

/// The counts of the logs before a log of a domain, as the front of the log says them: none where it follows no other.
///
/// The cost is that of `read_front`. The faults are `Log` with `BadOutset` if a log that follows another has no front of
/// the domain, and out of memory.
pub(crate) fn counts_before<'a>(
    alloc: Global,
    path: &'a str,
    declared: &Domain,
    log: &[u8],
) -> Result<Vec<CarriedCounts>, Fault<'a>>
    ensures { IfOk result (λ counts. AreCountsBefore declared.now log.now counts.items) }
{
    match log_version(log) {
        LogVersion::One => Ok(Vec::new(alloc)),
        LogVersion::Two => match read_front(alloc, declared, log) {
            Ok((front, _)) => {
                let Front { carried, .. } = front;
                let Carried { counts, .. } = carried;
                Ok(counts)
            }
            Err(FrontFault::BadLine(number)) => {
                Err(Fault::Log(path, LogRefusal::BadOutset(number as u64)))
            }
            Err(FrontFault::Memory) => Err(Fault::Memory),
        },
    }
}
