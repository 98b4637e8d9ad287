//! Domains that begin otherwise than their classes declare.

use crate::cores::written;
use crate::domain_of::checked;
use crate::tables::are_tables;
use smi_core::Core;
use sml_domain::{Domain, ObjId, Param, StateId, Text, Value};
use sml_outset::{Outset, SetMembers, Stand, standing, standing_rows, suits};
use sml_tree::Kind;
use std::alloc::{AllocError, Global};
use std::sync::Arc;

// Two of a class with parameters, a device, and two sets, of which one may come to have more.
const TEXT: &[u8] = b"class: K
  parameters: int N = 5, string P = \"x\"
  state: OFF
    action: PUT (int T = 1)
      set N = T
      insert C in G
      move_to ON
  state: ON
    action: GO
      do GO all_in G
class: L /associated
  state: IDLE
    action: GO
object: A is_of_class K
object: B is_of_class K
object: C is_of_class L
objectset: G { A, B }
objectset: H { C }
";

// Its tables, where A stands in ON with 7 and \"y\", B is dead, and the sets have other members.
const TABLES: &[u8] = b"objects: 3, blocks: 3
objects 0:A 1:B 2:C A=0 B=1 C=2
classes 0:A 1:B 2:C A=0 B=1 C=2
sets 0:G 1:H G=0 H=1
states 0:OFF 1:ON 2:IDLE 3:DEAD DEAD=3 IDLE=2 OFF=0 ON=1 Dead=3
actions 0:PUT 1:GO GO=1 PUT=0
class A with states: 3
class B with states: 3
class C with states: 2, associated
set G of 2 { C A } may { A B C }
set H of 0 { } may { C }
A is A, begins ON, dies DEAD (int N = 7) (string P = \"y\")
A takes PUT (int T = 1)
A takes GO
A in OFF, PUT does 0
A in ON, GO does 1
A in DEAD
B is B, begins DEAD, dies DEAD (int N = 5) (string P = \"x\")
B takes PUT (int T = 1)
B takes GO
B in OFF, PUT does 0
B in ON, GO does 1
B in DEAD
C is C, begins IDLE, dies DEAD, associated
C takes GO
C in IDLE, GO does 2
C in DEAD
0.0 set 0 = given 0
0.1 insert C in G
0.2 move_to ON
1.0 do GO all_in G";

// What differs from the outset of the tables.
#[derive(Clone, Copy)]
enum Change {
    Nothing,
    StateOfAnother,
    NoSuchState,
    OtherName,
    OtherKind,
    ValueOfAnotherKind,
    NoValue,
    OneParameter,
    MemberTwice,
    MemberThatMayNot,
    NoSuchMember,
    OneStandLess,
    OneSetMore,
}

// The parameters of A or B: a number and a text, of which a change leaves something out or makes it another.
fn params(
    alloc: Global,
    domain: &Domain,
    number: i64,
    text: &'static [u8],
    change: Change,
) -> Option<Vec<Param>> {
    let declared = domain.class_parameters(ObjId::new(0));
    let (first, second) = (declared.first()?, declared.get(1)?);
    let quoted = Value::Text(Text::new(alloc, text).ok()?);
    let mut made = Vec::new(alloc);
    let name = match change {
        Change::OtherName => second.name,
        _ => first.name,
    };
    let kind = match change {
        Change::OtherKind => Kind::Str,
        _ => Kind::Int,
    };
    let value = match change {
        Change::ValueOfAnotherKind => Some(quoted.share().ok()?),
        Change::NoValue => None,
        _ => Some(Value::Int(number)),
    };
    made.push(Param { name, kind, value }).ok()?;
    if !matches!(change, Change::OneParameter) {
        made.push(Param {
            name: second.name,
            kind: Kind::Str,
            value: Some(quoted),
        })
        .ok()?;
    }
    Some(made)
}

// How A, B and C stand.
fn stands(alloc: Global, domain: &Domain, change: Change) -> Option<Vec<Stand>> {
    let mut made = Vec::new(alloc);
    let state = match change {
        Change::StateOfAnother => 2,
        Change::NoSuchState => 4,
        _ => 1,
    };
    made.push(Stand {
        state: StateId::new(state),
        params: params(alloc, domain, 7, b"y", change)?,
    })
    .ok()?;
    made.push(Stand {
        state: StateId::new(3),
        params: params(alloc, domain, 5, b"x", Change::Nothing)?,
    })
    .ok()?;
    if !matches!(change, Change::OneStandLess) {
        made.push(Stand {
            state: StateId::new(2),
            params: Vec::new(alloc),
        })
        .ok()?;
    }
    Some(made)
}

// Adds a set with the members of these numbers.
fn add_set(alloc: Global, sets: &mut Vec<SetMembers>, numbers: &[usize]) -> Result<(), AllocError> {
    let mut objects = Vec::new(alloc);
    for number in numbers {
        objects.push(ObjId::new(*number))?;
    }
    sets.push(SetMembers { objects })?;
    Ok(())
}

// The members of G and of H, and of a set that there is not.
fn members(alloc: Global, change: Change) -> Option<Vec<SetMembers>> {
    let first: &[usize] = match change {
        Change::MemberTwice => &[2, 0, 2],
        Change::NoSuchMember => &[2, 3],
        _ => &[2, 0],
    };
    let second: &[usize] = match change {
        Change::MemberThatMayNot => &[0],
        _ => &[],
    };
    let mut made = Vec::new(alloc);
    add_set(alloc, &mut made, first).ok()?;
    add_set(alloc, &mut made, second).ok()?;
    if matches!(change, Change::OneSetMore) {
        add_set(alloc, &mut made, second).ok()?;
    }
    Some(made)
}

fn outset(alloc: Global, domain: &Domain, change: Change) -> Option<Outset> {
    Some(Outset {
        stands: stands(alloc, domain, change)?,
        members: members(alloc, change)?,
    })
}

const CHANGES: &[(Change, bool)] = &[
    (Change::Nothing, true),
    (Change::StateOfAnother, false),
    (Change::NoSuchState, false),
    (Change::OtherName, false),
    (Change::OtherKind, false),
    (Change::ValueOfAnotherKind, false),
    (Change::NoValue, false),
    (Change::OneParameter, false),
    (Change::MemberTwice, false),
    (Change::MemberThatMayNot, false),
    (Change::NoSuchMember, false),
    (Change::OneStandLess, false),
    (Change::OneSetMore, false),
];

// Whether the outset with a change suits the domain, or None if memory runs out.
fn does_suit(alloc: Global, change: Change) -> Option<bool> {
    let domain = checked(alloc, TEXT)?.ok()?;
    let outset = outset(alloc, &domain, change)?;
    Some(suits(&domain, &outset))
}

#[test]
fn outsets_that_do_not_suit(rt: HostRuntime) {
    for (change, is_good) in CHANGES {
        assert!(rt; does_suit(rt.alloc(), *change) == Some(*is_good));
    }
}

// The domain that begins as the outset says.
fn begun(alloc: Global) -> Option<Domain> {
    let domain = checked(alloc, TEXT)?.ok()?;
    let outset = outset(alloc, &domain, Change::Nothing)?;
    if !suits(&domain, &outset) {
        return None;
    }
    match standing_rows(alloc, &domain, &outset) {
        Ok(rows) => Some(standing(domain, &outset, rows)),
        Err(_) => None,
    }
}

fn has_its_tables(alloc: Global) -> bool {
    match begun(alloc) {
        Some(domain) => {
            are_tables(alloc, &domain, TABLES, false) && are_tables(alloc, &domain, TABLES, true)
        }
        None => false,
    }
}

// Whether a core of that domain goes on from there: A sends to C, and then to itself.
fn goes_on(alloc: Global) -> Option<bool> {
    let domain = Arc::new(alloc, begun(alloc)?).ok()?;
    let mut core = Core::new(alloc, domain, 16, 1_000_000).ok()?;
    let told = written(alloc, &mut core, "request @1 A GO\nstart A\ngo A\ngo A\n")?;
    Some(told.as_slice() == WRITTEN)
}

const WRITTEN: &[u8] = b"accept @1 A 0 GO
start A @1 0 GO
post A C 0 GO
post A A 0 GO
end A ON
";

#[test]
fn domains_that_begin_otherwise(rt: HostRuntime) {
    assert!(rt; has_its_tables(rt.alloc()));
    assert!(rt; goes_on(rt.alloc()) == Some(true));
}
