//! Tokens, and the writing of bytes and numbers.

use crate::one_byte::one_byte_writer;
use crate::texts::repeated;
use sml_text::{
    Front, Lexeme, Sign, Source, Token, WriteFault, first_bad, front_at, next_token, put, tell,
    tell_i64, tell_u64,
};
use std::alloc::Global;
use std::test::Fail;

// A name, a text, and what is at its front.
type Row = (&'static str, &'static [u8], Front);

// The name of the first of these rows whose text has something else at its front.
fn other_front(source: Source, rows: &[Row]) -> Option<&'static str> {
    for (name, text, front) in rows {
        if front_at(source, *text) != *front {
            return Some(*name);
        }
    }
    None
}

// Whether this is at the front of a string of `length` bytes between its quotes.
fn is_at_string(alloc: Global, length: usize, front: Front) -> bool {
    match repeated(alloc, b"\"", b"x", length, b"\"") {
        Ok(text) => front_at(Source::Domain, &text) == front,
        Err(_) => false,
    }
}

const SKIPS: &[Row] = &[
    ("the end", b"", Front::End),
    ("blanks", b"  A", Front::Skip(1)),
    ("a tab", b"\t", Front::Skip(1)),
    ("a carriage return", b"\r", Front::Skip(1)),
    ("a line feed", b"\n", Front::Skip(1)),
    (
        "a comment with quotes",
        b"! a \"comment\"\nA",
        Front::Skip(13),
    ),
    ("a comment at the end", b"! to the end", Front::Skip(12)),
    (
        "a comment with a carriage return",
        b"!\rA\nB",
        Front::Skip(3),
    ),
    (
        "a comment of bytes of no token",
        b"!\x00\xff",
        Front::Skip(3),
    ),
];

#[test]
fn skips_blanks_and_comments(rt: HostRuntime) {
    let wrong = other_front(Source::Domain, SKIPS);
    assert!(rt; wrong.is_none(), "{wrong:?}");
}

const LONGEST: &[u8] = &[b'w'; 64];

const TOO_LONG: &[u8] = &[b'w'; 65];

const WORDS: &[Row] = &[
    ("letters", b"class:", Front::Word(5)),
    ("a letter before a minus", b"A-5", Front::Word(1)),
    (
        "letters, digits and signs below the line",
        b"z_9Z",
        Front::Word(4),
    ),
    ("a sign below the line in front", b"_A", Front::Bad),
    ("a word of sixty-four letters", LONGEST, Front::Word(64)),
    ("a word of sixty-five letters", TOO_LONG, Front::Bad),
];

#[test]
fn reads_words(rt: HostRuntime) {
    let wrong = other_front(Source::Domain, WORDS);
    assert!(rt; wrong.is_none(), "{wrong:?}");
    assert!(rt; first_bad(Source::Domain, TOO_LONG) == Some(0));
}

const INTS: &[Row] = &[
    (
        "zero",
        b"0",
        Front::Int {
            value: 0,
            length: 1,
        },
    ),
    (
        "a negative zero",
        b"-0",
        Front::Int {
            value: 0,
            length: 2,
        },
    ),
    (
        "zeros in front",
        b"007 ",
        Front::Int {
            value: 7,
            length: 3,
        },
    ),
    (
        "a number before a minus",
        b"5-3",
        Front::Int {
            value: 5,
            length: 1,
        },
    ),
    (
        "a negative number",
        b"-3",
        Front::Int {
            value: -3,
            length: 2,
        },
    ),
    (
        "the greatest int",
        b"9223372036854775807",
        Front::Int {
            value: i64::MAX,
            length: 19,
        },
    ),
    (
        "the least int",
        b"-9223372036854775808",
        Front::Int {
            value: i64::MIN,
            length: 20,
        },
    ),
    (
        "a number of forty digits",
        b"0000000000000000000000000000000000000042",
        Front::Int {
            value: 42,
            length: 40,
        },
    ),
    (
        "one above the greatest int",
        b"9223372036854775808",
        Front::Bad,
    ),
    (
        "one below the least int",
        b"-9223372036854775809",
        Front::Bad,
    ),
    (
        "a number that would be zero in sixty-four bits",
        b"18446744073709551616",
        Front::Bad,
    ),
    (
        "a number of twenty-three digits",
        b"99999999999999999999999",
        Front::Bad,
    ),
    ("a minus alone", b"-", Front::Bad),
    ("two minuses", b"--5", Front::Bad),
    ("a letter behind a number", b"5a", Front::Bad),
    ("a sign below the line behind a number", b"5_", Front::Bad),
    ("a letter behind a negative number", b"-5a", Front::Bad),
];

#[test]
fn reads_ints(rt: HostRuntime) {
    let wrong = other_front(Source::Domain, INTS);
    assert!(rt; wrong.is_none(), "{wrong:?}");
}

const STRINGS: &[Row] = &[
    ("the empty string", b"\"\"", Front::Str(0)),
    ("a letter", b"\"a\"b", Front::Str(1)),
    (
        "the first sign, a blank and the last sign",
        b"\"! ~\"",
        Front::Str(3),
    ),
    ("no closing quote", b"\"abc", Front::Bad),
    ("a line feed", b"\"a\nb\"", Front::Bad),
    ("a delete byte", b"\"\x7f\"", Front::Bad),
    ("a byte beyond ASCII", b"\"\x80\"", Front::Bad),
];

const STRING_LENGTHS: &[(usize, Front)] = &[
    (255, Front::Str(255)),
    (256, Front::Bad),
    (300, Front::Bad),
];

#[test]
fn reads_strings(rt: HostRuntime) {
    let wrong = other_front(Source::Domain, STRINGS);
    assert!(rt; wrong.is_none(), "{wrong:?}");
    for (length, front) in STRING_LENGTHS {
        assert!(rt;
            is_at_string(rt.alloc(), *length, *front),
            "of {length} bytes"
        );
    }
}

const SIGNS: &[Row] = &[
    ("a colon", b":", Front::Sign(Sign::Colon)),
    ("two commas", b",,", Front::Sign(Sign::Comma)),
    ("an equals sign", b"=", Front::Sign(Sign::Equals)),
    ("an opening bracket", b"(", Front::Sign(Sign::OpenBracket)),
    ("a closing bracket", b")", Front::Sign(Sign::CloseBracket)),
    ("an opening brace", b"{", Front::Sign(Sign::OpenBrace)),
    ("a closing brace", b"}", Front::Sign(Sign::CloseBrace)),
    ("a slash", b"/", Front::Sign(Sign::Slash)),
    ("a semicolon", b";", Front::Bad),
    ("a NUL", b"\x00", Front::Bad),
];

#[test]
fn reads_signs(rt: HostRuntime) {
    let wrong = other_front(Source::Domain, SIGNS);
    assert!(rt; wrong.is_none(), "{wrong:?}");
}

const SESSIONS: &[Row] = &[
    ("the first session", b"@1", Front::Session(1)),
    (
        "the last session before a word",
        b"@8RUN",
        Front::Session(8),
    ),
    ("a digit behind a session", b"@12", Front::Session(1)),
    ("the session 0", b"@0", Front::Bad),
    ("the session 9", b"@9", Front::Bad),
    ("no number", b"@", Front::Bad),
];

#[test]
fn sessions_stand_in_lines_alone(rt: HostRuntime) {
    let wrong = other_front(Source::Line, SESSIONS);
    assert!(rt; wrong.is_none(), "{wrong:?}");
    assert!(rt; front_at(Source::Domain, b"@1") == Front::Bad);
}

// The place behind the first token of a line.
fn behind_token(text: &[u8]) -> Option<usize> {
    let (_, _, place) = next_token(Source::Line, text, 0)?;
    Some(place)
}

// A name, a text, the place behind the first token of it as a line, and that of the first thing that is no token.
type Place = (&'static str, &'static [u8], Option<usize>, Option<usize>);

const PLACES: &[Place] = &[
    ("nothing", b"", None, None),
    ("a byte of no token", b";", None, Some(0)),
    ("a blank before a word", b" A", Some(2), None),
    ("a string", b"\"abc\"", Some(5), None),
    ("a negative number", b"-7", Some(2), None),
    ("a session", b"@1", Some(2), None),
];

fn stands_so((_, text, behind, bad): Place) -> bool {
    behind_token(text) == behind && first_bad(Source::Line, text) == bad
}

#[test]
fn knows_what_stands_and_its_size(rt: HostRuntime) {
    for row in PLACES {
        assert!(rt; stands_so(*row), "{}", row.0);
    }
}

#[test]
fn gives_one_token_after_another(rt: HostRuntime) -> Result<(), Fail> {
    let wanted = [
        (Lexeme::Word(b"start"), 100),
        (Lexeme::Session(1), 106),
        (Lexeme::Int(2), 108),
        (Lexeme::Int(-4), 110),
        (Lexeme::Str(b"a b"), 120),
        (Lexeme::Sign(Sign::Slash), 125),
    ];
    let mut rest = b"start @12 -4 ! rest\n\"a b\"/".as_slice();
    let mut place = 100;
    for (lexeme, at) in wanted {
        let Some((token, after, behind)) = next_token(Source::Line, rest, place) else {
            panic!(rt; "a token stands at {at}");
        };
        assert!(rt; token == Token { lexeme, at }, "at {at}");
        rest = after;
        place = behind;
    }
    assert!(rt; next_token(Source::Line, rest, place).is_none());
    assert!(rt; next_token(Source::Domain, b"@1", 0).is_none());
    Ok(())
}

// A name, a text of a source, and the place of the first thing that is no token.
const BAD: &[(&str, Source, &[u8], Option<usize>)] = &[
    ("nothing", Source::Domain, b"", None),
    (
        "tokens, and a byte beyond ASCII in a comment",
        Source::Domain,
        b"class:A state:S 0 \"x\" ! \xff",
        None,
    ),
    (
        "a word that begins with a digit",
        Source::Domain,
        b"A 9A",
        Some(2),
    ),
    (
        "a string that does not end",
        Source::Domain,
        b"A  \"abc",
        Some(3),
    ),
    ("two minuses", Source::Domain, b"5--3", Some(1)),
    ("a minus between numbers", Source::Domain, b"5-3", None),
    (
        "a letter behind a number",
        Source::Domain,
        b"5 -5a",
        Some(2),
    ),
    ("a session in a domain", Source::Domain, b"\n@1", Some(1)),
    ("a session in a line", Source::Line, b"\n@1", None),
    (
        "a session 9 behind another",
        Source::Line,
        b"@12@9",
        Some(3),
    ),
    (
        "a comment that goes on behind a carriage return",
        Source::Domain,
        b"!\r;\n;",
        Some(4),
    ),
];

#[test]
fn finds_the_first_bad_place(rt: HostRuntime) {
    for (name, source, text, bad) in BAD {
        assert!(rt; first_bad(*source, *text) == *bad, "{name}");
    }
}

// Whether a writer that is good for `good_calls` calls takes as many bytes, and is not called after it fails.
fn takes_a_front(alloc: Global, good_calls: usize, by_error: bool) -> bool {
    let bytes = b"journal".as_slice();
    let mut writer = one_byte_writer(alloc, good_calls, by_error);
    let result = put(&mut writer, bytes);
    let taken = good_calls.min(7);
    let wanted = if good_calls >= 7 {
        Ok(())
    } else {
        Err(WriteFault)
    };
    result == wanted
        && writer.taken.as_slice() == bytes.split_at(taken).0
        && writer.calls == (taken + 1).min(7)
}

#[test]
fn puts_all_or_a_front(rt: HostRuntime) {
    for good_calls in 0..9usize {
        assert!(rt;
            takes_a_front(rt.alloc(), good_calls, true),
            "an error after {good_calls}"
        );
        assert!(rt;
            takes_a_front(rt.alloc(), good_calls, false),
            "no byte after {good_calls}"
        );
    }
}

#[test]
fn a_fault_stays(rt: HostRuntime) {
    let mut writer = one_byte_writer(rt.alloc(), 3, true);
    let mut failed = false;
    tell(&mut writer, &mut failed, b"ab");
    assert!(rt; !failed);
    tell(&mut writer, &mut failed, b"cd");
    assert!(rt; failed);
    tell(&mut writer, &mut failed, b"ef");
    tell_u64(&mut writer, &mut failed, 7);
    tell_i64(&mut writer, &mut failed, -7);
    assert!(rt; failed && writer.taken.as_slice() == b"abc".as_slice());
    assert_eq!(rt; writer.calls, 4);
}

#[test]
fn writes_numbers(rt: HostRuntime) {
    let mut text = Vec::new(rt.alloc());
    let mut failed = false;
    for number in [0, 10, u64::MAX] {
        tell_u64(&mut text, &mut failed, number);
        tell(&mut text, &mut failed, b" ");
    }
    for number in [0, -1, i64::MIN, i64::MAX] {
        tell_i64(&mut text, &mut failed, number);
        tell(&mut text, &mut failed, b" ");
    }
    let wanted = b"0 10 18446744073709551615 0 -1 -9223372036854775808 9223372036854775807 ";
    assert!(rt; !failed && text.as_slice() == wanted.as_slice());
}
