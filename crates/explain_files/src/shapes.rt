//! Forms that are nearly right, or right in another language, at the place of a trail.

use crate::advice::{Advice, tell_advice};
use crate::expected::Expected;
use crate::foreign::{
    NO_ARITHMETIC, NO_COMPARISON, NO_TIMES, ONE_EQUALS, in_action, in_test, is_preposition,
    quantifier,
};
use crate::teller::Teller;
use crate::tokens::{name_of, on_one_line};
use crate::trail::Trail;
use sml_text::Sink;
use sml_tree::{Name, TokenKind};

const OTHER_OBJECT: &[u8] =
    b"an action ends in a state of its own object, and sends to another one by `do`";

const WAIT_ASKS: &[u8] = b"a `wait` names objects alone; `if` asks for their states, and waits too";

const ONE_TARGET: &[u8] = b"a `do` has one object or one set";

const SETS_HAVE_NAMES: &[u8] = b"a set has a name, from an item `objectset: NAME { .. }`";

const ONE_OBJECT: &[u8] = b"each object has an item of its own";

const CLASS_MARK: &[u8] = b"`/associated` stands behind the name of the class";

const STATE_MARK: &[u8] = b"a mark of a state stands behind the name of the state";

const ONE_LIST: &[u8] = b"a class has one `parameters:`, with commas between them";

const BEFORE_STATES: &[u8] = b"`parameters:` stands before the first state of a class";

const MOVES: &[u8] = b"a state is reached by `move_to`";

const NO_QUOTES: &[u8] = b"a name stands without quotes";

const IN_BRACES: &[u8] = b"a list of states stands in braces";

/// What to write in place of the name at the place, where an instruction could be: a word of another language, or a
/// `set` or an object's state that is written otherwise there.
pub(crate) fn in_place_of_instruction(text: &[u8], trail: &Trail, name: &Name) -> Option<Advice> {
    let foreign = in_action(name.as_bytes(), trail.open_if_there().is_some());
    if foreign.is_some() {
        return foreign;
    }
    if matches!(trail.after.kind, TokenKind::Equals) {
        return Some(Advice::Set(trail.found));
    }
    if matches!(trail.head.kind, TokenKind::MoveTo) && on_one_line(text, trail.last, trail.found) {
        return Some(Advice::Say(OTHER_OBJECT));
    }
    None
}

/// The `do` that the name at the place may begin, if its object is behind it.
pub(crate) fn forgotten_do(text: &[u8], trail: &Trail) -> Option<Advice> {
    let is_object = matches!(trail.after.kind, TokenKind::Name | TokenKind::AllIn);
    if is_object && on_one_line(text, trail.found, trail.after) {
        Some(Advice::Do(trail.found, trail.after))
    } else {
        None
    }
}

// The word before the place, in capital letters, if it is a name.
fn last_word(text: &[u8], trail: &Trail) -> Option<Name> {
    match trail.last.kind {
        TokenKind::Name => name_of(trail.last.bytes(text)),
        _ => None,
    }
}

/// Says that the word before the place was taken as the object of a `do` or of a test, if it is one that other
/// languages have there. Whether it is.
pub(crate) fn tell_taken<W: Sink>(out: &mut Teller<'_, '_, W>, trail: &Trail) -> bool {
    let text = out.text;
    let Some(word) = last_word(text, trail) else {
        return false;
    };
    if !matches!(trail.found.kind, TokenKind::Name | TokenKind::In)
        || !on_one_line(text, trail.last, trail.found)
    {
        return false;
    }
    match trail.head.kind {
        TokenKind::Do if trail.takes_instruction() => tell_taken_target(out, trail, &word),
        TokenKind::If if trail.takes_test() => tell_taken_subject(out, trail, &word),
        _ => false,
    }
}

// Says that a word was taken as the object of a `do`, if it names no object. Returns whether it said so.
fn tell_taken_target<W: Sink>(out: &mut Teller<'_, '_, W>, trail: &Trail, word: &Name) -> bool {
    let advice = match quantifier(word.as_bytes()) {
        Some(_) => Advice::Write(b"all_in"),
        None if is_preposition(word.as_bytes()) => Advice::Say(b"leave it out"),
        None => return false,
    };
    out.quoted(trail.last.bytes(out.text));
    out.say(b" is taken as the object of this `do`");
    tell_advice(out, advice);
    true
}

// Says that a word was taken as the object of a test, if it names no object. Returns whether it said so.
fn tell_taken_subject<W: Sink>(out: &mut Teller<'_, '_, W>, trail: &Trail, word: &Name) -> bool {
    let advice = match (quantifier(word.as_bytes()), trail.found.kind) {
        (Some(meant), TokenKind::Name) => Advice::Of(meant, trail.found),
        (Some(meant), _) => Advice::Write(meant),
        (None, _) => return false,
    };
    out.quoted(trail.last.bytes(out.text));
    out.say(b" is taken as an object");
    tell_advice(out, advice);
    true
}

/// Says what to write in place of two signs that other languages have, if they end at the place. Whether they do.
pub(crate) fn tell_equals<W: Sink>(out: &mut Teller<'_, '_, W>, trail: &Trail) -> bool {
    let sign: &[u8] = match (trail.last.kind, trail.found.kind, trail.after.kind) {
        (TokenKind::Equals, TokenKind::Equals, _) if trail.last.end == trail.found.at => b"`==`",
        (_, TokenKind::Colon, TokenKind::Equals) if trail.found.end == trail.after.at => b"`:=`",
        _ => return false,
    };
    out.say(sign);
    out.say(b" is no sign of this language");
    tell_advice(out, Advice::Say(ONE_EQUALS));
    true
}

/// What to write in place of what is at the place, where something else was expected.
pub(crate) fn in_place_of(text: &[u8], trail: &Trail, expected: Expected) -> Option<Advice> {
    let special = match trail.head.kind {
        TokenKind::If => in_condition(text, trail),
        TokenKind::Do => in_do(trail),
        TokenKind::Set => in_set(trail),
        TokenKind::Wait => in_wait(trail),
        TokenKind::Object => in_object(trail),
        _ => None,
    };
    match (special, expected, trail.found.kind) {
        (Some(advice), _, _) => Some(advice),
        (None, _, TokenKind::Parameters) => Some(in_parameters(trail)),
        (None, Expected::Name(_), TokenKind::Str) => Some(Advice::Say(NO_QUOTES)),
        _ => None,
    }
}

// A second list of parameters, or one that is too late.
fn in_parameters(trail: &Trail) -> Advice {
    Advice::Say(match trail.head.kind {
        TokenKind::Parameters => ONE_LIST,
        _ => BEFORE_STATES,
    })
}

// What is not right in a condition.
fn in_condition(text: &[u8], trail: &Trail) -> Option<Advice> {
    if trail.takes_test() {
        return in_place_of_test(text, trail);
    }
    match (trail.last.kind, trail.found.kind, trail.after.kind) {
        (TokenKind::Name, TokenKind::Comma, TokenKind::Name) => {
            Some(Advice::States(trail.last, trail.after))
        }
        (TokenKind::InState | TokenKind::NotInState, TokenKind::OpenBracket, _) => {
            Some(Advice::Say(IN_BRACES))
        }
        _ => None,
    }
}

// What is not right behind the object of a test.
fn in_place_of_test(text: &[u8], trail: &Trail) -> Option<Advice> {
    let is_joined = matches!(trail.before.kind, TokenKind::And | TokenKind::Or);
    let is_before_not = matches!(trail.after.kind, TokenKind::Not);
    match (trail.found.kind, trail.state) {
        (TokenKind::CloseBracket | TokenKind::And | TokenKind::Or, Some(state)) if is_joined => {
            Some(Advice::States(state, trail.last))
        }
        (TokenKind::Not, _) => Some(Advice::Write(b"not_in_state")),
        (TokenKind::In, _) => Some(Advice::Write(b"in_state")),
        (TokenKind::Equals, _) if matches!(trail.after.kind, TokenKind::Int) => {
            Some(Advice::Say(NO_COMPARISON))
        }
        (TokenKind::Equals, _) => Some(Advice::Write(b"in_state")),
        (TokenKind::Name, _) => match name_of(trail.found.bytes(text)) {
            Some(word) => in_test(word.as_bytes(), is_before_not),
            None => None,
        },
        _ => None,
    }
}

// What is not right in a `do`.
fn in_do(trail: &Trail) -> Option<Advice> {
    let last = trail.last;
    match (last.kind, trail.found.kind) {
        (TokenKind::Name, TokenKind::Comma) if trail.signs.is_empty() => {
            Some(Advice::Say(ONE_TARGET))
        }
        (TokenKind::AllIn, TokenKind::OpenBrace) => Some(Advice::Say(SETS_HAVE_NAMES)),
        (TokenKind::Name, TokenKind::Comma | TokenKind::CloseBracket)
            if matches!(trail.before.kind, TokenKind::OpenBracket | TokenKind::Comma) => {
            Some(Advice::Argument(last))
        }
        (TokenKind::OpenBracket | TokenKind::Comma, TokenKind::Int | TokenKind::Str) => {
            Some(Advice::Argument(trail.found))
        }
        _ => None,
    }
}

// What is not right in a `set`.
fn in_set(trail: &Trail) -> Option<Advice> {
    match (trail.last.kind, trail.found.kind) {
        (TokenKind::Set, TokenKind::State) => Some(Advice::Say(MOVES)),
        (TokenKind::Name | TokenKind::Int, TokenKind::Slash | TokenKind::Int)
            if matches!(trail.before.kind, TokenKind::Equals) => {
            Some(Advice::Say(NO_ARITHMETIC))
        }
        _ => None,
    }
}

// What is not right in a `wait`.
fn in_wait(trail: &Trail) -> Option<Advice> {
    match trail.found.kind {
        TokenKind::Int => Some(Advice::Say(NO_TIMES)),
        TokenKind::InState | TokenKind::NotInState => Some(Advice::Say(WAIT_ASKS)),
        _ => None,
    }
}

// What is not right in the item of an object.
fn in_object(trail: &Trail) -> Option<Advice> {
    match (trail.before.kind, trail.found.kind, trail.after.kind) {
        (TokenKind::Colon, TokenKind::Comma, _) => Some(Advice::Say(ONE_OBJECT)),
        (TokenKind::IsOfClass, TokenKind::Slash, TokenKind::Associated) => {
            Some(Advice::Say(CLASS_MARK))
        }
        (TokenKind::IsOfClass, TokenKind::Slash, TokenKind::InitialState | TokenKind::DeadState) =>
            Some(Advice::Say(STATE_MARK)),
        _ => None,
    }
}
