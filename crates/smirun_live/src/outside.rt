//! Why lines are refused that a schedule may have, and only a live manager refuses when they come from outside.

use crate::lines::END_OF_INPUT;
use explain_lines::SourceLine;
use smi_live_once::{is_reserved_line, read_mark};
use sml_writer::Out;

// Whether a line begins with the word of a request that is made once, in any case.
fn begins_with_once(text: &[u8]) -> bool {
    match text {
        [o, n, c, e, ..] => [*o, *n, *c, *e].eq_ignore_ascii_case(b"once"),
        _ => false,
    }
}

const CUT_OFF: &str = "the input ended before the end of this line, so that it was not executed";

const FIRST_LINE: &str = "`! smirun live` begins the first line of a log, which the manager writes";

const BAD_BYTE: &str = "a line may have no byte below 0x20 other than a tab and a carriage return";

const MARKED: &str = "what is to be made once is a request, written `once NAME K request ..`; \
`! once NAME K` is the manager's own mark";

const BAD_FORM: &str =
    "it is `once NAME K request ..`, with one blank between its parts: NAME is 1 to 64 upper-case \
letters, digits and `_`, and K a number below 2^64 without a zero in front";

// Why a line is refused, if it is one of those.
fn reason(text: &[u8]) -> Option<&'static str> {
    if text.ends_with(&[END_OF_INPUT]) {
        return Some(CUT_OFF);
    }
    if text.starts_with(b"! smirun live ".as_slice()) {
        return Some(FIRST_LINE);
    }
    if is_reserved_line(text) {
        return Some(BAD_BYTE);
    }
    if read_mark(text).is_some() {
        return Some(MARKED);
    }
    if begins_with_once(text) {
        return Some(BAD_FORM);
    }
    None
}

/// Writes why a line is refused, if it is one of those. Whether it is. If memory runs out, less is written.
pub(crate) fn explain_outside(line: &SourceLine<'_>, why: &mut Vec<u8>) -> bool {
    let Some(reason) = reason(line.text) else {
        return false;
    };
    let mut out = Out::new(why);
    out.say(line.file.as_bytes());
    out.say(b":");
    out.number(line.number as u64);
    out.say(b": ");
    out.say(reason.as_bytes());
    out.say(b"\n");
    true
}
