//! Two runtimes in one body, each under its own name.
ghost use Rattle.std.specs.Prelude.{◌≡◌};
ghost use Rattle.std.specs.Arc.{arc_value};

use crate::devices::{Supply, supplies};
use smi_mail::{MailNames, Mailboxes, ruled};
use smi_run::{Config, Runtime, ServeEnd, Session};
use sml_domain::Domain;
use sml_load::domain_of;
use std::alloc::Global;
use std::marker::Brand;
use std::sync::{Arc, Wait};
use test_domains::SUPPLIES;

const CONFIG: Config = Config {
    workers: 1,
    max_starts: 1,
};

// A runtime over mailboxes, and its session.
fn open<K: MailNames, R: Wait + Copy + Send>(
    alloc: Global,
    domain: &Arc<Domain>,
    boxes: Mailboxes<R>,
) -> Option<(Runtime<R, K, Supply>, Session<K>)>
    requires named { K.names ≡ boxes }
    requires domain { boxes.domain ≡ arc_value domain.now }
{
    let Ok((mail, ends)) = ruled::<K, R>(alloc, boxes) else {
        return None;
    };
    let shared = Arc::try_clone(domain).ok()?;
    let devices = supplies(alloc, 1)?;
    match Runtime::open(alloc, shared, mail, ends, devices, CONFIG) {
        Ok((runtime, mut sessions)) => {
            let session = sessions.pop()?;
            Some((runtime, session))
        }
        Err(_) => None,
    }
}

// Whether a runtime is finished with its own session. Only a session of the same name compiles here.
fn finishes<K: MailNames, R: Wait + Copy + Send>(
    rt: &R,
    alloc: Global,
    runtime: Runtime<R, K, Supply>,
    session: Session<K>,
) -> bool {
    let mut closed = Vec::new(alloc);
    if closed.push(runtime.leave(rt, session)).is_err() || runtime.serve(rt) != ServeEnd::Quiet {
        return false;
    }
    runtime.finish(alloc, closed).is_ok()
}

// Whether two runtimes are finished, each with its own. Refused by the compiler, since the names differ:
//     finishes(&rt, alloc, one, second)
//     two.leave(&rt, first)
fn finishes_both<K: MailNames, L: MailNames, R: Wait + Copy + Send>(
    rt: R,
    alloc: Global,
    domain: &Arc<Domain>,
    boxes: Mailboxes<R>,
    others: Mailboxes<R>,
) -> Option<bool>
    requires named { K.names ≡ boxes }
    requires other { L.names ≡ others }
    requires domain { boxes.domain ≡ arc_value domain.now }
    requires domain_too { others.domain ≡ arc_value domain.now }
{
    let (one, first) = open::<K, R>(alloc, domain, boxes)?;
    let (two, second) = open::<L, R>(alloc, domain, others)?;
    Some(finishes(&rt, alloc, two, second) && finishes(&rt, alloc, one, first))
}

/// Whether two runtimes under two names are finished, each with its own session.
pub fn finishes_two<R: Wait + Copy + Send + Drop>(rt: R, alloc: Global) -> bool {
    let Ok(domain) = domain_of(alloc, SUPPLIES) else {
        return false;
    };
    let (Ok(shared), Ok(again)) = (Arc::try_clone(&domain), Arc::try_clone(&domain)) else {
        return false;
    };
    let Ok(boxes) = Mailboxes::new(rt, alloc, shared, 1, 1) else {
        return false;
    };
    let Ok(others) = Mailboxes::new(rt, alloc, again, 1, 1) else {
        return false;
    };
    finishes_both::<Brand, Brand, _>(rt, alloc, &domain, boxes, others) == Some(true)
}
