//! What values passed by name make for the actions of a counter and of its sink.

use crate::rows::{Plain, are_values, value_of};
use smi_journal::{Args, Passed, complete};
use sml_domain::{ActionId, Domain, ObjId};
use sml_load::domain_of;
use sml_text::{Lexeme, Source, next_token};
use sml_tree::Name;
use std::alloc::{AllocError, Global};
use std::test::*;
use test_domains::COUNTER;

/// The sink.
pub const OUT: usize = 0;

/// The counter.
pub const C: usize = 1;

/// The action of the sink.
pub const TAKE: usize = 0;

/// The action of the counter that has parameters.
pub const PUT: usize = 1;

/// The action of the counter that has none.
pub const SHOW: usize = 2;

// Values that are passed by name, what they make for an object's action, and the name of it all.
#[derive(Clone, Copy)]
struct Row {
    name: &'static str,
    object: usize,
    action: usize,
    passed: &'static [(&'static [u8], Plain)],
    made: Option<&'static [Plain]>,
}

const ROWS: &[Row] = &[
    Row {
        name: "a default is used",
        object: C,
        action: PUT,
        passed: &[(b"M", Plain::Str(b"a"))],
        made: Some(&[Plain::Int(5), Plain::Str(b"a")]),
    },
    Row {
        name: "what is passed goes before the default",
        object: C,
        action: PUT,
        passed: &[(b"T", Plain::Int(-7)), (b"M", Plain::Str(b""))],
        made: Some(&[Plain::Int(-7), Plain::Str(b"")]),
    },
    Row {
        name: "the order is that of the parameters",
        object: OUT,
        action: TAKE,
        passed: &[(b"W", Plain::Str(b"a")), (b"V", Plain::Int(5))],
        made: Some(&[Plain::Int(5), Plain::Str(b"a")]),
    },
    Row {
        name: "a default that is a string is used",
        object: OUT,
        action: TAKE,
        passed: &[(b"V", Plain::Int(3))],
        made: Some(&[Plain::Int(3), Plain::Str(b"none")]),
    },
    Row {
        name: "an action without parameters takes nothing",
        object: C,
        action: SHOW,
        passed: &[],
        made: Some(&[]),
    },
    Row {
        name: "nothing is passed for a parameter without a default",
        object: C,
        action: PUT,
        passed: &[],
        made: None,
    },
    Row {
        name: "a parameter with a default is passed alone",
        object: C,
        action: PUT,
        passed: &[(b"T", Plain::Int(7))],
        made: None,
    },
    Row {
        name: "the parameter with a default is the last, and is passed alone",
        object: OUT,
        action: TAKE,
        passed: &[(b"W", Plain::Str(b"a"))],
        made: None,
    },
    Row {
        name: "a name is unknown",
        object: C,
        action: PUT,
        passed: &[(b"M", Plain::Str(b"a")), (b"X", Plain::Int(1))],
        made: None,
    },
    Row {
        name: "a name is that of a parameter of the class",
        object: C,
        action: SHOW,
        passed: &[(b"N", Plain::Int(1))],
        made: None,
    },
    Row {
        name: "a name is repeated",
        object: C,
        action: PUT,
        passed: &[(b"M", Plain::Str(b"a")), (b"M", Plain::Str(b"a"))],
        made: None,
    },
    Row {
        name: "a name is repeated behind another",
        object: C,
        action: PUT,
        passed: &[
            (b"T", Plain::Int(1)),
            (b"M", Plain::Str(b"a")),
            (b"T", Plain::Int(1)),
        ],
        made: None,
    },
    Row {
        name: "an int is passed for a string",
        object: C,
        action: PUT,
        passed: &[(b"M", Plain::Int(1))],
        made: None,
    },
    Row {
        name: "a string is passed for an int",
        object: C,
        action: PUT,
        passed: &[(b"M", Plain::Str(b"a")), (b"T", Plain::Str(b"5"))],
        made: None,
    },
];

fn name_of(word: &[u8]) -> Option<Name> {
    match next_token(Source::Domain, word, 0)?.0.lexeme {
        Lexeme::Word(word) => Some(Name::from_word(word)),
        _ => None,
    }
}

// What a row passes.
fn passed_of(alloc: Global, row: Row) -> Option<Vec<Passed>> {
    let mut passed = Vec::new(alloc);
    for (word, plain) in row.passed {
        let name = name_of(word)?;
        let value = value_of(alloc, *plain)?;
        passed.push(Passed { name, value }).ok()?;
    }
    Some(passed)
}

// Whether what was made is this.
fn is_made(made: &Result<Option<Args>, AllocError>, wanted: Option<&[Plain]>) -> bool {
    match (made, wanted) {
        (Ok(Some(args)), Some(values)) => are_values(args.values(), values),
        (Ok(None), None) => true,
        _ => false,
    }
}

// Whether what a row passes makes what it says.
fn makes(alloc: Global, domain: &Domain, row: Row) -> bool {
    let Some(params) = domain.parameters(ObjId::new(row.object), ActionId::new(row.action)) else {
        return false;
    };
    match passed_of(alloc, row) {
        Some(passed) => is_made(&complete(alloc, params, &passed), row.made),
        None => false,
    }
}

// What is passed in another order than that of the sink's parameters.
const TURNED: Row = Row {
    name: "the order is another than that of the parameters",
    object: OUT,
    action: TAKE,
    passed: &[(b"W", Plain::Str(b"a")), (b"V", Plain::Int(5))],
    made: Some(&[Plain::Int(5), Plain::Str(b"a")]),
};

/// Whether the sink's arguments are completed, at the second time at the latest.
pub fn completes_at_last(alloc: Global, domain: &Domain) -> bool {
    makes(alloc, domain, TURNED) || makes(alloc, domain, TURNED)
}

// The name of the first row that makes something else.
fn wrong_row(alloc: Global, domain: &Domain) -> Option<&'static str> {
    for row in ROWS {
        if !makes(alloc, domain, *row) {
            return Some(row.name);
        }
    }
    None
}

#[test]
fn completes_by_name(rt: HostRuntime) {
    let domain = domain_of(rt.alloc(), COUNTER).ok();
    let wrong = match &domain {
        Some(domain) => wrong_row(rt.alloc(), domain),
        None => Some("the domain"),
    };
    assert!(rt; wrong.is_none(), "{wrong:?}");
}
