//! The members of sets, as others change them.
ghost use Rattle.std.specs.Prelude.{◌≡◌, IfSome};
ghost use Rattle.smi_journal_entries.specs.Sets.{AreOf, unchanged};
ghost use Rattle.smi_audit_follower.specs.Following.{MayTell};

use smi_journal::{Format, Members, laws_of_members};
use sml_domain::{Domain, ObjId, SetId};
use std::alloc::Global;

/// An object that is put into a set (true) or taken out of it. All go by number.
pub type Change = (bool, usize, usize);

/// The declared members of sets.
pub fn declared(alloc: Global, domain: &Domain) -> Option<Members>
    ensures is { IfSome result (λ m. m ≡ unchanged domain.now) }
    ensures are { IfSome result (AreOf domain.now) }
{
    laws_of_members();
    let _sound = domain.objects();
    Members::declared(alloc, domain).ok()
}

/// The members of sets after a change by an object of the domain.
pub fn changed(alloc: Global, domain: &Domain, members: &Members, change: Change) -> Option<Members>
    requires { AreOf domain.now members.now }
    ensures { IfSome result (AreOf domain.now) }
{
    laws_of_members();
    let (add, object, set) = change;
    let object = ObjId::new(object);
    if domain.has(object) {
        match members.with_change(alloc, domain, add, object, SetId::new(set)) {
            Ok(changed) => Some(changed),
            Err(_) => None,
        }
    } else {
        None
    }
}

/// The members of sets after changes.
pub fn members_of(alloc: Global, domain: &Domain, changes: &[Change]) -> Option<Members>
    ensures { IfSome result (AreOf domain.now) }
{
    let mut members = declared(alloc, domain)?;
    for change in changes {
        members = changed(alloc, domain, &members, *change)?;
    }
    Some(members)
}

/// Members of which a journal of a format may tell: in the first format no set is changed.
pub fn members_for(
    alloc: Global,
    domain: &Domain,
    format: Format,
    changes: &[Change],
) -> Option<Members>
    ensures are { IfSome result (AreOf domain.now) }
    ensures tells { IfSome result (MayTell format domain.now) }
{
    match format {
        Format::One => {
            laws_of_members();
            declared(alloc, domain)
        }
        Format::Two => members_of(alloc, domain, changes),
    }
}

/// Whether sets have the members that they have after changes.
pub fn are_members(alloc: Global, domain: &Domain, members: &Members, changes: &[Change]) -> bool {
    match members_of(alloc, domain, changes) {
        Some(others) => members.is(&others),
        None => false,
    }
}
