//! Words and signs of other languages, each with what to write instead.

use crate::advice::Advice;
use crate::trail::Trail;
use sml_tree::TokenKind;

/// A sign of other languages: how many bytes it has, and what to write instead.
#[derive(Clone, Copy)]
pub(crate) struct ForeignSign {
    pub length: usize,
    pub sentence: &'static [u8],
}

pub(crate) const NO_TIMES: &[u8] =
    b"there are no times, and `wait ( X )` waits until object X is not busy";

pub(crate) const NO_ARITHMETIC: &[u8] =
    b"there is no arithmetic, and behind `=` stands a value or a parameter";

pub(crate) const NO_COMPARISON: &[u8] =
    b"a condition asks for states alone, and compares no values";

pub(crate) const ONE_EQUALS: &[u8] = b"write `=`";

const NO_LOOPS: &[u8] =
    b"there are no loops, and `do ACTION all_in SET` sends to each member of a set";

const ENDS: &[u8] =
    b"an action ends by `move_to STATE`, and one that runs off its end leaves the state as it was";

const NO_END: &[u8] = b"an action, a state or a class ends where the next one begins";

const NO_ESCAPES: &[u8] = b"a string has no escapes, and ends at the first `\"`";

const NO_PLUS: &[u8] = b"an int stands without it";

const NO_SEMICOLON: &[u8] = b"an instruction ends without one";

/// What to write in place of a word where an instruction could be.
pub(crate) fn in_action(word: &[u8], is_in_if: bool) -> Option<Advice> {
    match word {
        b"END" | b"END_IF" | b"FI" if is_in_if => Some(Advice::Write(b"endif")),
        b"END" | b"BEGIN" => Some(Advice::Say(NO_END)),
        b"GOTO" | b"GO_TO" | b"MOVE" => Some(Advice::Write(b"move_to")),
        b"TERMINATE" => Some(Advice::Write(b"terminate_action")),
        b"RETURN" | b"EXIT" | b"BREAK" => Some(Advice::Say(ENDS)),
        b"WAIT_FOR" | b"WAITFOR" | b"AWAIT" => Some(Advice::Write(b"wait")),
        b"SLEEP" | b"DELAY" | b"AFTER" | b"TIMEOUT" => Some(Advice::Say(NO_TIMES)),
        b"FOR" | b"FOREACH" | b"WHILE" | b"REPEAT" | b"UNTIL" => Some(Advice::Say(NO_LOOPS)),
        b"LET" | b"ASSIGN" => Some(Advice::Write(b"set")),
        b"SEND" | b"CALL" | b"EXECUTE" => Some(Advice::Write(b"do")),
        _ => None,
    }
}

/// What to write in place of a word where another token could be.
pub(crate) fn elsewhere(word: &[u8]) -> Option<Advice> {
    match word {
        b"END" => Some(Advice::Say(NO_END)),
        _ => None,
    }
}

/// What to write in place of a word between an object and its states.
pub(crate) fn in_test(word: &[u8], is_before_not: bool) -> Option<Advice> {
    match word {
        b"IS" | b"EQ" if !is_before_not => Some(Advice::Write(b"in_state")),
        b"IS" | b"ISNT" | b"IS_NOT" | b"NE" => Some(Advice::Write(b"not_in_state")),
        _ => None,
    }
}

/// What to write in place of a word that was taken as an object: `all_in`, or `any_in`.
pub(crate) fn quantifier(word: &[u8]) -> Option<&'static [u8]> {
    match word {
        b"ALL" | b"ALLIN" | b"AL_IN" | b"ALL_OF" | b"EACH" | b"EVERY" => Some(b"all_in"),
        b"ANY" | b"ANYIN" | b"ANY_OF" | b"SOME" | b"SOME_IN" | b"SOMEIN" => Some(b"any_in"),
        _ => None,
    }
}

/// Whether a word is one that other languages have in front of an object.
pub(crate) fn is_preposition(word: &[u8]) -> bool {
    matches!(word, b"TO" | b"AT" | b"ON" | b"OF" | b"WITH")
}

/// The sign of another language that begins bytes which are no token.
pub(crate) fn sign_of(bytes: &[u8], trail: &Trail) -> Option<ForeignSign> {
    let (length, sentence): (usize, &'static [u8]) = match bytes {
        [b'&', b'&', ..] => (2, b"write `and`"),
        [b'|', b'|', ..] => (2, b"write `or`"),
        [b'<', b'>', ..] => (2, b"write `not_in_state`"),
        [b'<' | b'>', b'=', ..] => (2, NO_COMPARISON),
        [b'\\', ..] => (1, NO_ESCAPES),
        [b';', ..] => (1, NO_SEMICOLON),
        [first, ..] => return one_sign(*first, trail),
        [] => return None,
    };
    Some(ForeignSign { length, sentence })
}

// The sign of one byte that stands at the place of a trail.
fn one_sign(byte: u8, trail: &Trail) -> Option<ForeignSign> {
    let is_condition = matches!(trail.head.kind, TokenKind::If);
    let sentence: &'static [u8] = match byte {
        b'<' | b'>' if is_condition => NO_COMPARISON,
        b'&' if is_condition => b"write `and`",
        b'|' if is_condition => b"write `or`",
        b'+' if matches!(trail.last.kind, TokenKind::Equals) => NO_PLUS,
        b'+' | b'*' | b'%' if matches!(trail.before.kind, TokenKind::Equals) => NO_ARITHMETIC,
        _ => return None,
    };
    Some(ForeignSign {
        length: 1,
        sentence,
    })
}
