//! What the logs before left, read from the lines in front of a text.
ghost use Rattle.std.specs.Prelude.{IfOk};
ghost use Rattle.smi_log_front.specs.Faults.{PastIsRead};

use crate::front::FrontKill;
use crate::kills::read_kills;
use smi_carried::{Carried, read_carried};
use sml_domain::Domain;
use std::alloc::{AllocError, Global};

/// What goes along, and which objects are dead.
#[derive(Drop)]
pub(crate) struct Past {
    pub(crate) carried: Carried,
    pub(crate) kills: Vec<FrontKill>,
}

/// What the logs before left by the lines in front, and what comes after them. The error is out of memory.
pub(crate) fn read_past<'a>(
    alloc: Global,
    domain: &Domain,
    text: &'a [u8],
) -> Result<(Past, &'a [u8]), AllocError>
    ensures { IfOk result (λ x. PastIsRead domain.now text.now x.0.carried x.0.kills.items x.1.now) }
{
    let Ok(carried) = read_carried(alloc, domain, text) else {
        return Err(AllocError);
    };
    let Ok(kills) = read_kills(alloc, domain, carried.1) else {
        return Err(AllocError);
    };
    let past = Past {
        carried: carried.0,
        kills: kills.0,
    };
    Ok((past, kills.1))
}
