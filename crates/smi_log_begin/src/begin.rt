//! The domain of a log that follows another, as it begins there.
ghost use Rattle.std.specs.Prelude.{◌≡◌, IfErr, IfOk};
ghost use Rattle.std.specs.Arc.{arc_value};
ghost use Rattle.sml_outset.specs.Standing.{StandsAs};
ghost use Rattle.smi_log_front.specs.Faults.{FrontFaultIs};
ghost use Rattle.smi_log_front.specs.Front.{FrontView};
ghost use Rattle.smi_log_front.specs.Suits.{FrontSuits};
ghost use Rattle.smi_log_begin.specs.Begins.{HasFront};

use smi_carried::Carried;
use smi_log_front::{Front, FrontFault, read_front};
use sml_domain::Domain;
use sml_outset::{standing, standing_rows};
use std::alloc::{AllocError, Global};
use std::sync::Arc;

/// With what a log that follows another begins.
#[derive(Drop)]
pub struct LogBegin {
    /// The domain, which begins as the front says.
    pub domain: Arc<Domain>,
    /// What goes along from the logs before.
    pub carried: Carried,
}

// A domain that begins as a front says, and what goes along.
fn begin_as(alloc: Global, domain: Domain, front: Front) -> Result<LogBegin, AllocError>
    requires { FrontSuits domain front }
    ensures domain { IfOk result (λ b. StandsAs domain front.outset (arc_value b.domain)) }
    ensures carried { IfOk result (λ b. b.carried ≡ front.carried) }
{
    let Front {
        outset,
        carried,
        ..
    } = front;
    let rows = standing_rows(alloc, &domain, &outset)?;
    let domain = Arc::new(alloc, standing(domain, &outset, rows))?;
    Ok(LogBegin { domain, carried })
}

/// The domain, which is as its text declares, as it begins in a log that follows another, and what goes along. Of the
/// log its front alone is looked at.
///
/// The cost is that of `smi_log_front::read_front`, and the count of objects times that of the rows of a class. The
/// error is that of `read_front`.
pub fn begin_of_log(alloc: Global, domain: Domain, log: &[u8]) -> Result<LogBegin, FrontFault>
    ensures begun { IfOk result (λ b. (f : FrontView) × HasFront domain f log.now
        × StandsAs domain f.outset (arc_value b.domain) × (b.carried ≡ f.carried)) }
    ensures fault { IfErr result (FrontFaultIs domain log.now) }
{
    let front = match read_front(alloc, &domain, log) {
        Ok(read) => read.0,
        Err(fault) => return Err(fault),
    };
    match begin_as(alloc, domain, front) {
        Ok(begin) => Ok(begin),
        Err(_) => Err(FrontFault::Memory),
    }
}
