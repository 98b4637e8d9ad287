//! Runtimes that are not opened.
ghost use Rattle.std.specs.Prelude.{◌≡◌};
ghost use Rattle.std.specs.Arc.{arc_value};

use crate::devices::supplies;
use smi_mail::{MailNames, Mailboxes, ruled};
use smi_run::{Config, OpenError, Runtime};
use sml_domain::Domain;
use sml_load::domain_of;
use std::alloc::Global;
use std::marker::Brand;
use std::sync::{Arc, Wait};
use test_domains::SUPPLIES;

const SESSIONS: usize = 2;

// Numbers with which a runtime is opened.
const GOOD: Config = Config {
    workers: 1,
    max_starts: 1,
};

/// How many devices are given, the numbers of the run, why no runtime is opened, and the name of it all.
pub type Opening = (usize, Config, OpenError, &'static str);

// Whether mail is refused so, and comes back with its ends and the devices. Over what came back, with both devices and
// good numbers, a runtime must then be opened, with a session for each end.
fn is_refused<K: MailNames, R: Wait + Copy + Send>(
    alloc: Global,
    domain: &Arc<Domain>,
    boxes: Mailboxes<R>,
    opening: &Opening,
) -> Option<bool>
    requires named { K.names ≡ boxes }
    requires domain { boxes.domain ≡ arc_value domain.now }
{
    let first = Arc::try_clone(domain).ok()?;
    let second = Arc::try_clone(domain).ok()?;
    let both = supplies(alloc, 1)?;
    let mut devices = supplies(alloc, 1)?;
    devices.truncate(opening.0);
    let Ok((mail, ends)) = ruled::<K, R>(alloc, boxes) else {
        return None;
    };
    let Err((error, mail, ends, devices)) = Runtime::open(
        alloc, first, mail, ends, devices, opening.1,
    ) else {
        return None;
    };
    if error != opening.2 || devices.len() != opening.0 || ends.len() != SESSIONS {
        return Some(false);
    }
    match Runtime::open(alloc, second, mail, ends, both, GOOD) {
        Ok((_runtime, sessions)) => Some(sessions.len() == SESSIONS),
        Err(_) => Some(false),
    }
}

/// Whether no runtime of the supplies is opened, for this cause.
pub fn refuses<R: Wait + Copy + Send + Drop>(rt: R, alloc: Global, opening: &Opening) -> bool {
    let Ok(domain) = domain_of(alloc, SUPPLIES) else {
        return false;
    };
    let Ok(shared) = Arc::try_clone(&domain) else {
        return false;
    };
    match Mailboxes::new(rt, alloc, shared, 1, SESSIONS) {
        Ok(boxes) => is_refused::<Brand, _>(alloc, &domain, boxes, opening) == Some(true),
        Err(_) => false,
    }
}
