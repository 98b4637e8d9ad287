//! The members of sets, as changes leave them.

use crate::rows::are_objects;
use smi_journal::Members;
use sml_domain::{Domain, ObjId, SetId};
use sml_load::domain_of;
use std::alloc::Global;

/// Two lamps and their boss, a set of both lamps, and one of none.
pub const LAMPS: &[u8] = b"class: LAMP
  state: OFF
    action: LIGHT
      move_to ON
  state: ON
class: BOSS
  state: IDLE
    action: GO
      do LIGHT all_in G
object: A is_of_class LAMP
object: B is_of_class LAMP
object: X is_of_class BOSS
objectset: G { A, B }
objectset: E { }
";

/// The first lamp.
pub const A: usize = 0;

/// The second lamp.
pub const B: usize = 1;

/// The boss.
pub const X: usize = 2;

/// The set of both lamps.
pub const G: usize = 0;

/// The set of none.
pub const E: usize = 1;

// An object that is put into a set (true) or taken out of it.
type Change = (bool, usize, usize);

// The members of sets after these changes.
fn members_after(alloc: Global, domain: &Domain, changes: &[Change]) -> Option<Members> {
    let mut members = Members::declared(alloc, domain).ok()?;
    for (add, object, set) in changes {
        let object = ObjId::new(*object);
        let set = SetId::new(*set);
        members = members.with_change(alloc, domain, *add, object, set).ok()?;
    }
    Some(members)
}

// A name, changes, and the members of the two sets after them.
type Row = (
    &'static str,
    &'static [Change],
    &'static [usize],
    &'static [usize],
);

const ROWS: &[Row] = &[
    ("no change", &[], &[A, B], &[]),
    (
        "what is inserted comes last",
        &[(true, X, G)],
        &[A, B, X],
        &[],
    ),
    ("a member stays where it is", &[(true, A, G)], &[A, B], &[]),
    (
        "members are inserted again",
        &[(true, X, G), (true, A, G), (true, X, G)],
        &[A, B, X],
        &[],
    ),
    (
        "members of a set of none",
        &[(true, B, E), (true, A, E)],
        &[A, B],
        &[B, A],
    ),
    ("the others close up", &[(false, A, G)], &[B], &[]),
    (
        "what is no member is taken out",
        &[(false, X, G)],
        &[A, B],
        &[],
    ),
    (
        "a member of another set is taken out",
        &[(false, A, E)],
        &[A, B],
        &[],
    ),
    (
        "a member is taken out twice",
        &[(true, X, G), (false, B, G), (false, B, G)],
        &[A, X],
        &[],
    ),
    (
        "all are taken out",
        &[(false, A, G), (false, B, G)],
        &[],
        &[],
    ),
    (
        "what is inserted again comes last",
        &[(false, A, G), (true, A, G)],
        &[B, A],
        &[],
    ),
    (
        "each set has its own members",
        &[(true, A, E), (false, A, G)],
        &[B],
        &[A],
    ),
    (
        "there is no third set",
        &[(true, X, 2), (false, A, 2)],
        &[A, B],
        &[],
    ),
];

fn is_so(alloc: Global, domain: &Domain, row: Row) -> bool {
    let (_, changes, first, second) = row;
    match members_after(alloc, domain, changes) {
        Some(members) => {
            are_objects(members.of(domain, SetId::new(G)), first)
                && are_objects(members.of(domain, SetId::new(E)), second)
                && members.of(domain, SetId::new(2)).is_empty()
        }
        None => false,
    }
}

// The name of the first row that is not so.
fn wrong_row(alloc: Global, domain: &Domain) -> Option<&'static str> {
    for row in ROWS {
        if !is_so(alloc, domain, *row) {
            return Some(row.0);
        }
    }
    None
}

#[test]
fn members_as_changes_leave_them(rt: HostRuntime) {
    let domain = domain_of(rt.alloc(), LAMPS).ok();
    let wrong = match &domain {
        Some(domain) => wrong_row(rt.alloc(), domain),
        None => Some("the domain"),
    };
    assert!(rt; wrong.is_none(), "{wrong:?}");
}

// A name, two lists of changes, and whether sets have been changed to the same members by them.
const PAIRS: &[(&str, &[Change], &[Change], bool)] = &[
    ("no changes", &[], &[], true),
    ("the same change", &[(true, A, E)], &[(true, A, E)], true),
    (
        "a member that was inserted and taken out",
        &[(true, A, E), (true, B, E), (false, A, E)],
        &[(true, B, E)],
        true,
    ),
    (
        "changes that leave all members",
        &[(true, A, G)],
        &[(false, X, G)],
        true,
    ),
    (
        "another order of members",
        &[(true, A, E), (true, B, E)],
        &[(true, B, E), (true, A, E)],
        false,
    ),
    ("another set", &[(true, A, E)], &[(true, A, G)], false),
    ("another member", &[(true, A, E)], &[(true, B, E)], false),
    (
        "a member more",
        &[(true, A, E)],
        &[(true, A, E), (true, B, E)],
        false,
    ),
    // It has the same members.
    (
        "a set that was changed, and one that was not",
        &[(false, A, G)],
        &[],
        false,
    ),
    (
        "a set that was changed to what it was",
        &[(true, A, G)],
        &[],
        true,
    ),
];

// Whether members are the same as others, and as a share of themselves, where a pair says so.
fn is_compared(members: &Members, others: &Members, same: bool) -> bool {
    match members.share() {
        Ok(shared) => {
            members.is(others) == same && others.is(members) == same && members.is(&shared)
        }
        Err(_) => false,
    }
}

fn are_compared(
    alloc: Global,
    domain: &Domain,
    first: &[Change],
    second: &[Change],
    same: bool,
) -> bool {
    let Some(members) = members_after(alloc, domain, first) else {
        return false;
    };
    match members_after(alloc, domain, second) {
        Some(others) => is_compared(&members, &others, same),
        None => false,
    }
}

// The name of the first pair that is not so.
fn wrong_pair(alloc: Global, domain: &Domain) -> Option<&'static str> {
    for (name, first, second, same) in PAIRS {
        if !are_compared(alloc, domain, *first, *second, *same) {
            return Some(*name);
        }
    }
    None
}

#[test]
fn same_members_are_told_from_others(rt: HostRuntime) {
    let domain = domain_of(rt.alloc(), LAMPS).ok();
    let wrong = match &domain {
        Some(domain) => wrong_pair(rt.alloc(), domain),
        None => Some("the domain"),
    };
    assert!(rt; wrong.is_none(), "{wrong:?}");
}
