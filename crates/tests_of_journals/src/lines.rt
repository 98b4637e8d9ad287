//! Lines of schedules: what they ask, and what answers write.

use crate::completing::C;
use crate::rows::{Plain, args_of, value_of};
use smi_journal::{ActionEnd, Entry, Passed};
use smi_lines::{LineError, read_step, tell_answer};
use smi_world::{Answer, Step, StepError};
use sml_domain::{Domain, ObjId, ParamId, StateId};
use sml_load::domain_of;
use std::alloc::Global;
use std::test::*;
use test_domains::COUNTER;

/// What a line asks, as a row writes it.
#[derive(Clone, Copy)]
enum Asked {
    Nothing,
    Bad,
    Request(u8, &'static [u8], &'static [u8], &'static [(&'static [u8], Plain)]),
    Start(&'static [u8]),
    Go(&'static [u8]),
    Answer(&'static [u8], &'static [u8]),
    Fault(&'static [u8]),
    Kill(&'static [u8], u8),
}

/// Whether what is passed is a name with its value.
fn is_passed(alloc: Global, passed: &Passed, name: &[u8], plain: Plain) -> bool {
    match value_of(alloc, plain) {
        Some(value) => passed.name.as_bytes() == name && passed.value == value,
        None => false,
    }
}

/// Whether values that are passed are those of a row.
fn are_passed(alloc: Global, passed: &[Passed], row: &[(&[u8], Plain)]) -> bool {
    passed.len() == row.len()
        && passed
            .iter()
            .zip(row.iter())
            .all(|(one, (name, plain))| is_passed(alloc, one, name, *plain))
}

/// Whether a step is that of a row.
fn is_step(alloc: Global, step: &Step, asked: Asked) -> bool {
    match step {
        Step::Request {
            sender,
            object,
            action,
            args,
        } => match asked {
            Asked::Request(k, o, a, row) => {
                sender.get() == k
                    && object.as_bytes() == o
                    && action.as_bytes() == a
                    && are_passed(alloc, args.list(), row)
            }
            _ => false,
        },
        Step::Start(object) => matches!(asked, Asked::Start(o) if object.as_bytes() == o),
        Step::Go(object) => matches!(asked, Asked::Go(o) if object.as_bytes() == o),
        Step::Answer { object, state } => {
            matches!(asked, Asked::Answer(o, s) if object.as_bytes() == o && state.as_bytes() == s)
        }
        Step::Fault(object) => matches!(asked, Asked::Fault(o) if object.as_bytes() == o),
        Step::Kill { object, session } => {
            matches!(asked, Asked::Kill(o, k) if object.as_bytes() == o && session.get() == k)
        }
    }
}

/// Whether a line asks what its row says.
fn asks(alloc: Global, line: &[u8], asked: Asked) -> bool {
    match read_step(alloc, line) {
        Ok(Some(step)) => is_step(alloc, &step, asked),
        Ok(None) => matches!(asked, Asked::Nothing),
        Err(LineError::BadLine) => matches!(asked, Asked::Bad),
        Err(LineError::Memory) => false,
    }
}

const ONE: &[(&[u8], Plain)] = &[(b"M", Plain::Str(b"a"))];

const TWO: &[(&[u8], Plain)] = &[
    (b"T", Plain::Int(-9223372036854775808)),
    (b"M", Plain::Str(b"b c")),
];

const TWICE: &[(&[u8], Plain)] = &[(b"T", Plain::Int(1)), (b"T", Plain::Int(1))];

// A name, a line, and what it asks.
const LINES: &[(&str, &[u8], Asked)] = &[
    ("an empty line", b"", Asked::Nothing),
    ("a comment alone", b"  \t ! a comment", Asked::Nothing),
    (
        "a request",
        b"request @1 RUN CONFIGURE",
        Asked::Request(1, b"RUN", b"CONFIGURE", &[]),
    ),
    (
        "a keyword and names in small letters",
        b"REQUEST @8 run configure\r",
        Asked::Request(8, b"RUN", b"CONFIGURE", &[]),
    ),
    (
        "a session without blanks round it",
        b"request@1RUN CONFIGURE",
        Asked::Request(1, b"RUN", b"CONFIGURE", &[]),
    ),
    (
        "a request with one argument",
        b"request @1 C PUT (M = \"a\")",
        Asked::Request(1, b"C", b"PUT", ONE),
    ),
    (
        "a request with two arguments, without blanks",
        b"request @1 C PUT(T=-9223372036854775808,M=\"b c\")",
        Asked::Request(1, b"C", b"PUT", TWO),
    ),
    // Which names an action has is not asked yet.
    (
        "an argument that is repeated",
        b"request @1 C PUT (T = 1, T = 1)",
        Asked::Request(1, b"C", b"PUT", TWICE),
    ),
    ("a start", b"start RUN", Asked::Start(b"RUN")),
    ("a go with a comment", b"go RUN ! on", Asked::Go(b"RUN")),
    ("an answer", b"answer HV1 ON", Asked::Answer(b"HV1", b"ON")),
    ("a fault", b"fault HV1", Asked::Fault(b"HV1")),
    ("a kill", b"kill RUN @1", Asked::Kill(b"RUN", 1)),
    ("an unknown word", b"begin RUN", Asked::Bad),
    ("the session 9", b"request @9 RUN CONFIGURE", Asked::Bad),
    (
        "a session of two digits",
        b"request @12 RUN CONFIGURE",
        Asked::Bad,
    ),
    (
        "a request without its action",
        b"request @1 RUN",
        Asked::Bad,
    ),
    ("empty brackets", b"request @1 C PUT ()", Asked::Bad),
    (
        "no closing bracket",
        b"request @1 C PUT (M = \"a\"",
        Asked::Bad,
    ),
    (
        "a comma before the closing bracket",
        b"request @1 C PUT (M = \"a\",)",
        Asked::Bad,
    ),
    (
        "a word behind the arguments",
        b"request @1 C PUT (M = \"a\") x",
        Asked::Bad,
    ),
    (
        "a name for a value",
        b"request @1 C PUT (M = N)",
        Asked::Bad,
    ),
    (
        "a colon for the sign of an argument",
        b"request @1 C PUT (M : \"a\")",
        Asked::Bad,
    ),
    (
        "an int above the greatest",
        b"request @1 C PUT (M = \"b\", T = 9223372036854775808)",
        Asked::Bad,
    ),
    ("a start of two objects", b"start RUN RUN", Asked::Bad),
    ("a reserved word for an object", b"start SET", Asked::Bad),
    ("a start of nothing", b"start", Asked::Bad),
    ("an answer without its state", b"answer HV1", Asked::Bad),
    ("an answer with two states", b"answer HV1 ON ON", Asked::Bad),
    ("a fault with a state", b"fault HV1 ON", Asked::Bad),
    ("a kill without its session", b"kill RUN", Asked::Bad),
    ("a kill whose object comes last", b"kill @1 RUN", Asked::Bad),
    ("a kill by two sessions", b"kill RUN @1 @1", Asked::Bad),
    ("two lines", b"go RUN\ngo RUN", Asked::Bad),
    (
        "a byte beyond ASCII in a comment",
        b"go RUN ! \x80",
        Asked::Bad,
    ),
];

#[test]
fn lines_ask_for_steps(rt: HostRuntime) {
    for (name, line, asked) in LINES {
        assert!(rt; asks(rt.alloc(), *line, *asked), "{name}");
    }
}

/// A request with `count` arguments, each a number.
fn request_of(alloc: Global, count: usize) -> Option<Vec<u8>> {
    let mut line = Vec::new(alloc);
    line.extend_from_slice(b"request @1 C PUT (A = 0").ok()?;
    for _ in 1..count {
        line.extend_from_slice(b", A = 0").ok()?;
    }
    line.extend_from_slice(b")").ok()?;
    Some(line)
}

/// Whether a step is a request with `count` arguments.
fn has_arguments(step: &Step, count: usize) -> bool {
    match step {
        Step::Request { args, .. } => args.list().len() == count,
        _ => false,
    }
}

/// Whether a request with `count` arguments is a step.
fn is_step_of(alloc: Global, count: usize) -> Option<bool> {
    let line = request_of(alloc, count)?;
    match read_step(alloc, &line) {
        Ok(Some(step)) => Some(has_arguments(&step, count)),
        _ => Some(false),
    }
}

#[test]
fn sixteen_arguments_and_no_more(rt: HostRuntime) {
    let rows: [(usize, bool); 4] = [(1, true), (16, true), (17, false), (1000, false)];
    for (count, step) in &rows {
        assert!(rt;
            is_step_of(rt.alloc(), *count) == Some(*step),
            "{count} arguments"
        );
    }
}

/// The answer to a step, as a row writes it.
#[derive(Clone, Copy)]
enum Told {
    Accepted(u64, &'static [Plain]),
    /// The action of the object of this number ended in the state of that number.
    Ended(usize, usize),
    Changed(usize, Plain),
    Still,
    Refused(StepError),
}

/// The entries that the answer of a row adds.
fn added_of(alloc: Global, told: Told) -> Option<Vec<Entry>> {
    let mut added = Vec::new(alloc);
    if let Told::Ended(object, state) = told {
        added
            .push(Entry::End {
                object: ObjId::new(object),
                result: ActionEnd::State(StateId::new(state)),
            })
            .ok()?;
    }
    Some(added)
}

/// The answer of a row.
fn answer_of(alloc: Global, told: Told) -> Option<Result<Answer, StepError>> {
    match told {
        Told::Accepted(number, row) => {
            let args = args_of(alloc, row)?;
            Some(Ok(Answer::Accepted { number, args }))
        }
        Told::Ended(_, _) => Some(Ok(Answer::Entries { first: 7, count: 1 })),
        Told::Changed(param, plain) => {
            let value = value_of(alloc, plain)?;
            Some(Ok(Answer::Changed {
                param: ParamId::new(param),
                value,
            }))
        }
        Told::Still => Some(Ok(Answer::Still)),
        Told::Refused(error) => Some(Err(error)),
    }
}

/// What an answer with the entries that it adds writes.
fn text_of(
    alloc: Global,
    domain: &Domain,
    step: &Step,
    answer: &Result<Answer, StepError>,
    added: &[Entry],
) -> Option<Vec<u8>> {
    let mut written = Vec::new(alloc);
    let mut failed = false;
    tell_answer(&mut written, &mut failed, domain, step, answer, added);
    if failed {
        return None;
    }
    Some(written)
}

/// What the answer to a step writes.
fn written(alloc: Global, domain: &Domain, step: &Step, told: Told) -> Option<Vec<u8>> {
    let added = added_of(alloc, told)?;
    let answer = answer_of(alloc, told)?;
    text_of(alloc, domain, step, &answer, &added)
}

/// Whether the answer to a step writes this.
fn is_written(alloc: Global, domain: &Domain, step: &Step, told: Told, text: &[u8]) -> bool {
    match written(alloc, domain, step, told) {
        Some(written) => written.as_slice() == text,
        None => false,
    }
}

/// Whether the answer to the step of a line writes this.
fn writes(alloc: Global, domain: &Domain, line: &[u8], told: Told, text: &[u8]) -> bool {
    match read_step(alloc, line) {
        Ok(Some(step)) => is_written(alloc, domain, &step, told, text),
        _ => false,
    }
}

/// The name of the first answer that writes something else.
fn wrong_answer(alloc: Global, domain: &Domain) -> Option<&'static str> {
    for (name, line, told, text) in ANSWERS {
        if !writes(alloc, domain, *line, *told, *text) {
            return Some(*name);
        }
    }
    None
}

const FULL_ARGS: &[Plain] = &[Plain::Int(5), Plain::Str(b"a")];

// A name, the line of a step, its answer, and what that writes.
const ANSWERS: &[(&str, &[u8], Told, &[u8])] = &[
    (
        "a request with arguments is accepted",
        b"request @1 C PUT (M = \"a\")",
        Told::Accepted(0, FULL_ARGS),
        b"accept @1 C 0 PUT (T = 5, M = \"a\")\n",
    ),
    (
        "the greatest number of a request",
        b"request @8 C SHOW",
        Told::Accepted(18446744073709551615, &[]),
        b"accept @8 C 18446744073709551615 SHOW\n",
    ),
    (
        "an int is set",
        b"go C",
        Told::Changed(0, Plain::Int(-9223372036854775808)),
        b"set C N=-9223372036854775808\n",
    ),
    (
        "a string is set",
        b"go C",
        Told::Changed(1, Plain::Str(b"a")),
        b"set C P=\"a\"\n",
    ),
    (
        "an action ends",
        b"go C",
        Told::Ended(C, 1),
        b"end C IDLE\n",
    ),
    ("nothing has changed", b"go C", Told::Still, b"still C\n"),
    (
        "an unknown object",
        b"start XX",
        Told::Refused(StepError::UnknownObject),
        b"refused UnknownObject\n",
    ),
    (
        "an unknown action",
        b"request @1 C NOPE",
        Told::Refused(StepError::UnknownAction),
        b"refused UnknownAction\n",
    ),
    (
        "arguments that are missing",
        b"request @1 C PUT",
        Told::Refused(StepError::BadArgs),
        b"refused BadArgs\n",
    ),
    (
        "no memory",
        b"start C",
        Told::Refused(StepError::Memory),
        b"refused Memory\n",
    ),
    (
        "a dead object",
        b"start C",
        Told::Refused(StepError::Dead),
        b"refused Dead\n",
    ),
    (
        "a full mailbox",
        b"request @1 C SHOW",
        Told::Refused(StepError::Full),
        b"refused Full\n",
    ),
    (
        "a limit",
        b"start C",
        Told::Refused(StepError::Limit),
        b"refused Limit\n",
    ),
    (
        "an open object",
        b"start C",
        Told::Refused(StepError::AlreadyOpen),
        b"refused AlreadyOpen\n",
    ),
    (
        "nothing waits",
        b"start C",
        Told::Refused(StepError::Empty),
        b"refused Empty\n",
    ),
    (
        "a go of an associated object",
        b"go OUT",
        Told::Refused(StepError::Associated),
        b"refused Associated\n",
    ),
    (
        "an answer of one that is not associated",
        b"answer C IDLE",
        Told::Refused(StepError::NotAssociated),
        b"refused NotAssociated\n",
    ),
    (
        "an answer of one that is not open",
        b"answer OUT READY",
        Told::Refused(StepError::NotOpen),
        b"refused NotOpen\n",
    ),
    (
        "a state of another class",
        b"answer OUT IDLE",
        Told::Refused(StepError::NotAState),
        b"refused NotAState\n",
    ),
    (
        "a kill of a dead object",
        b"kill C @2",
        Told::Refused(StepError::AlreadyDead(3)),
        b"refused AlreadyDead\n",
    ),
];

#[test]
fn answers_write_their_lines(rt: HostRuntime) {
    let domain = domain_of(rt.alloc(), COUNTER).ok();
    let wrong = match &domain {
        Some(domain) => wrong_answer(rt.alloc(), domain),
        None => Some("the domain"),
    };
    assert!(rt; wrong.is_none(), "{wrong:?}");
}
