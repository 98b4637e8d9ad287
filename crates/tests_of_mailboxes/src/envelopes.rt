//! Requests on their way.
ghost use Rattle.std.specs.Prelude.{◌≡◌, IfSome, true};
ghost use Rattle.smi_journal_entries.specs.Fits.{letter_fits};

use smi_journal::{Args, Envelope, Sender};
use sml_domain::{ActionId, Domain, ObjId};
use std::alloc::Global;

/// A request without arguments for an action, by its number. None if it does not fit the object, or without memory.
pub fn request_by(
    alloc: Global,
    domain: &Domain,
    by: &Sender,
    action: usize,
    o: ObjId,
) -> Option<Envelope>
    ensures sender { IfSome result (λ e. e.sender ≡ by.now) }
    ensures fits { IfSome result (λ e. letter_fits domain.now o e ≡ true) }
{
    let args = Args::new(alloc, Vec::new(alloc)).ok()?;
    let envelope = Envelope::new(*by, ActionId::new(action), args).ok()?;
    if !envelope.fits(domain, o) {
        return None;
    }
    Some(envelope)
}
