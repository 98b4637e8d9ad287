//! Domains and mailboxes, asked for a second time where they are refused.
ghost use Rattle.std.specs.Prelude.{◌≡◌, IfSome};
ghost use Rattle.std.specs.Arc.{arc_value};

use smi_mail::Mailboxes;
use sml_domain::Domain;
use sml_load::domain_of;
use std::alloc::Global;
use std::sync::{Arc, Wait};

/// The domain of a text, asked for a second time if it was refused.
pub fn domain_at_last(alloc: Global, text: &[u8]) -> Option<Arc<Domain>> {
    match domain_of(alloc, text) {
        Ok(domain) => Some(domain),
        Err(_) => domain_of(alloc, text).ok(),
    }
}

/// Mailboxes of a capacity for some sessions, asked for a second time if they were refused.
pub fn boxes_at_last<R: Wait + Copy + Send + Drop>(
    rt: R,
    alloc: Global,
    domain: &Arc<Domain>,
    capacity: usize,
    sessions: usize,
) -> Option<Mailboxes<R>>
    ensures { IfSome result (λ boxes. boxes.domain ≡ arc_value domain.now) }
{
    match Mailboxes::new(rt, alloc, Arc::try_clone(domain).ok()?, capacity, sessions) {
        Ok(boxes) => Some(boxes),
        Err(_) => Mailboxes::new(rt, alloc, Arc::try_clone(domain).ok()?, capacity, sessions).ok(),
    }
}
