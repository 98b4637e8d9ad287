//! What sessions do.

use crate::scripts::{ON, RUN_BETWEEN_SUPPLIES};
use smi_run::{Line, Script};
use smi_run_plan::{Plan, read_script};
use sml_load::domain_of;
use std::alloc::Global;
use std::sync::Arc;
use std::test::*;

/// What a line of a session is, as a row writes it: an object, and the action that is asked for, or None if the
/// object is killed.
type Asked = (&'static [u8], Option<&'static [u8]>);

const CONFIGURE: Asked = (b"RUN", Some(b"CONFIGURE"));

const KILL: Asked = (b"RUN", None);

// Whether a line is that of a row.
fn is_line(line: &Line, row: &Asked) -> bool {
    let (name, asked) = row;
    match line {
        Line::Post { object, action, .. } => {
            object.as_bytes() == *name && Some(action.as_bytes()) == *asked
        }
        Line::Kill { object } => object.as_bytes() == *name && asked.is_none(),
    }
}

// Whether a script has the lines of a row.
fn is_script(script: &Script, row: &[Asked]) -> bool {
    let lines = script.lines();
    lines.len() == row.len()
        && lines
            .iter()
            .zip(row.iter())
            .all(|(line, one)| is_line(line, one))
}

// The plan of a text over the domain of the scripts, or None if it has none.
fn plan_of(alloc: Global, text: &[u8]) -> Option<Plan> {
    let domain = domain_of(alloc, RUN_BETWEEN_SUPPLIES).ok()?;
    read_script(alloc, &domain, text).ok()
}

// Whether a text has the scripts of a row.
fn asks(alloc: Global, text: &[u8], rows: &[&[Asked]]) -> bool {
    let Some(plan) = plan_of(alloc, text) else {
        return false;
    };
    let (scripts, _answers) = plan.into_parts();
    scripts.len() == rows.len()
        && scripts
            .iter()
            .zip(rows.iter())
            .all(|(script, row)| is_script(script, row))
}

// A name, a script, and what each of its sessions asks.
const ROWS: &[(&str, &[u8], &[&[Asked]])] = &[
    ("no line", b"", &[&[]]),
    (
        "comments and blanks alone",
        b"! nothing\n\n   \t! and more\n",
        &[&[]],
    ),
    ("a request behind lines of devices", ON, &[&[CONFIGURE]]),
    (
        "a line of a device alone",
        b"device HV1 SWITCH_ON ON",
        &[&[]],
    ),
    (
        "two lines of one session, and one in other letters",
        b"kill RUN @1\nREQUEST @1 run configure",
        &[&[KILL, CONFIGURE]],
    ),
    (
        "the second session first, without blanks",
        b"request@2RUN CONFIGURE ! by the second\nkill RUN @1",
        &[&[KILL], &[CONFIGURE]],
    ),
    (
        "two sessions that ask nothing",
        b"kill RUN @4\nrequest @2 RUN CONFIGURE\r\n",
        &[&[], &[CONFIGURE], &[], &[KILL]],
    ),
    (
        "names that the domain does not have",
        b"kill NOBODY @1\nrequest @1 RUN NOTHING",
        &[&[(b"NOBODY", None), (b"RUN", Some(b"NOTHING"))]],
    ),
    (
        "eight sessions, and the first one again",
        b"kill RUN@1\nkill RUN@2\nkill RUN@3\nkill RUN@4\nkill RUN@5\nkill RUN@6\nkill RUN@7\nkill RUN@8\nkill RUN@1",
        &[
            &[KILL, KILL],
            &[KILL],
            &[KILL],
            &[KILL],
            &[KILL],
            &[KILL],
            &[KILL],
            &[KILL],
        ],
    ),
];

#[test]
fn each_session_asks_what_its_lines_say(rt: HostRuntime) {
    for (name, text, rows) in ROWS {
        assert!(rt; asks(rt.alloc(), *text, *rows), "{name}");
    }
}

// How many lines share the name of the object of the first line, that one counted; 0 if there is no line.
fn sharers(alloc: Global, text: &[u8]) -> Option<usize> {
    let plan = plan_of(alloc, text)?;
    let (scripts, _answers) = plan.into_parts();
    let script = scripts.first()?;
    match script.lines().first() {
        Some(Line::Post { object, .. }) => Some(Arc::strong_count(object)),
        Some(Line::Kill { object }) => Some(Arc::strong_count(object)),
        None => Some(0),
    }
}

// A name, a script, and how many lines share the name of the object of its first line.
const SHARED: &[(&str, &[u8], usize)] = &[
    ("no line", b"", 0),
    ("two names", b"kill RUN @1\nkill HV1 @1", 1),
    (
        "one name in three lines of two sessions",
        b"kill NOBODY @1\nrequest @2 nobody CONFIGURE\nkill NOBODY @1",
        3,
    ),
    (
        "an action that has the name of its object",
        b"request @1 RUN RUN\nkill HV1 @1\nkill HV2 @2",
        2,
    ),
];

#[test]
fn a_name_of_several_lines_is_kept_once(rt: HostRuntime) {
    for (name, text, count) in SHARED {
        assert!(rt; sharers(rt.alloc(), *text) == Some(*count), "{name}");
    }
}
