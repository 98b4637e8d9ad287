//! What could be at a place of a text, in words.

use crate::trail::Trail;
use sml_tree::TokenKind;

/// What could be at a place.
#[derive(Clone, Copy)]
pub(crate) enum Expected {
    /// A name.
    Name(&'static [u8]),
    /// A sign.
    Sign(&'static [u8]),
    /// Other tokens.
    Other(&'static [u8]),
}

const ITEM: &[u8] = b"`class`, `object` or `objectset`";

const NAME: &[u8] = b"a name";

const VALUE: &[u8] = b"a value, which is an int or a string,";

const KIND: &[u8] = b"`int` or `string`";

const COLON: &[u8] = b"`:`";

const EQUALS: &[u8] = b"`=`";

const PARAMETER: &[u8] = b"the name of a parameter";

const STATE: &[u8] = b"the name of a state";

const ARGUMENT: &[u8] = b"a value or a parameter";

const TARGET: &[u8] = b"`all_in` or the name of an object";

const OBJECT: &[u8] = b"the name of an object";

const SET: &[u8] = b"the name of a set";

const BEHIND_VALUE: &[u8] = b"`,` or `)`";

const BEHIND_MEMBER: &[u8] = b"`,` or `}`";

const INSTRUCTION: &[u8] = b"an instruction, `action`, `state` or the next item";

const IN_IF: &[u8] = b"an instruction, `else` or `endif`";

const IN_ELSE: &[u8] = b"an instruction or `endif`";

/// What could be at the place of a trail.
pub(crate) fn expected_at(trail: &Trail) -> Expected {
    match trail.head.kind {
        TokenKind::Class => in_class(trail),
        TokenKind::Parameters => in_parameters(trail),
        TokenKind::State => in_state(trail),
        TokenKind::Action => in_action(trail),
        TokenKind::Object => in_object(trail),
        TokenKind::ObjectSet => in_set(trail),
        TokenKind::Do => in_do(trail),
        TokenKind::If => in_condition(trail),
        TokenKind::Set => in_assignment(trail),
        TokenKind::MoveTo => in_move(trail),
        TokenKind::TerminateAction => in_end(trail),
        TokenKind::Wait => in_wait(trail),
        TokenKind::Insert => in_change(trail, b"`in`"),
        TokenKind::Remove => in_change(trail, b"`from`"),
        TokenKind::Then | TokenKind::Else | TokenKind::Endif => instruction(trail),
        _ => Expected::Other(ITEM),
    }
}

fn in_class(trail: &Trail) -> Expected {
    match trail.last.kind {
        TokenKind::Class => Expected::Sign(COLON),
        TokenKind::Colon => Expected::Name(NAME),
        TokenKind::Slash => Expected::Other(b"`associated`"),
        TokenKind::Associated => Expected::Other(b"`parameters`, `state` or the next item"),
        _ => Expected::Other(b"`/associated`, `parameters`, `state` or the next item"),
    }
}

fn in_parameters(trail: &Trail) -> Expected {
    match trail.last.kind {
        TokenKind::Parameters => Expected::Sign(COLON),
        TokenKind::Colon | TokenKind::Comma => Expected::Other(KIND),
        TokenKind::IntKind | TokenKind::StringKind => Expected::Name(PARAMETER),
        TokenKind::Name => Expected::Sign(EQUALS),
        TokenKind::Equals => Expected::Other(VALUE),
        _ => Expected::Other(b"`,`, `state` or the next item"),
    }
}

fn in_state(trail: &Trail) -> Expected {
    match trail.last.kind {
        TokenKind::State => Expected::Sign(COLON),
        TokenKind::Colon => Expected::Name(STATE),
        TokenKind::Slash => Expected::Other(b"`initial_state` or `dead_state`"),
        _ => Expected::Other(
            b"`/initial_state`, `/dead_state`, `action`, `state` or the next item",
        ),
    }
}

fn in_action(trail: &Trail) -> Expected {
    let is_outside = trail.signs.is_empty();
    match trail.last.kind {
        TokenKind::Action => Expected::Sign(COLON),
        TokenKind::Colon => Expected::Name(b"the name of an action"),
        TokenKind::Name if is_outside => Expected::Other(
            b"`(`, an instruction, `action`, `state` or the next item",
        ),
        TokenKind::CloseBracket => Expected::Other(INSTRUCTION),
        TokenKind::OpenBracket | TokenKind::Comma => Expected::Other(KIND),
        TokenKind::IntKind | TokenKind::StringKind => Expected::Name(PARAMETER),
        TokenKind::Name => Expected::Sign(b"`=`, `,` or `)`"),
        TokenKind::Equals => Expected::Other(VALUE),
        _ => Expected::Sign(BEHIND_VALUE),
    }
}

fn in_object(trail: &Trail) -> Expected {
    match (trail.last.kind, trail.before.kind) {
        (TokenKind::Object, _) => Expected::Sign(COLON),
        (TokenKind::Colon, _) => Expected::Name(OBJECT),
        (TokenKind::IsOfClass, _) => Expected::Name(b"the name of a class"),
        (TokenKind::Name, TokenKind::Colon) => Expected::Other(b"`is_of_class`"),
        _ => Expected::Other(ITEM),
    }
}

fn in_set(trail: &Trail) -> Expected {
    let is_outside = trail.signs.is_empty();
    match trail.last.kind {
        TokenKind::ObjectSet => Expected::Sign(COLON),
        TokenKind::Colon => Expected::Name(SET),
        TokenKind::Name if is_outside => Expected::Sign(b"`{`"),
        TokenKind::OpenBrace => Expected::Name(b"the name of an object, or `}`,"),
        TokenKind::Comma => Expected::Name(OBJECT),
        TokenKind::Name => Expected::Sign(BEHIND_MEMBER),
        _ => Expected::Other(ITEM),
    }
}

fn in_do(trail: &Trail) -> Expected {
    let is_outside = trail.signs.is_empty();
    match (trail.last.kind, trail.before.kind) {
        (TokenKind::Do, _) => Expected::Name(b"the name of an action"),
        (TokenKind::Name, TokenKind::Do) => {
            Expected::Name(b"`(`, `all_in` or the name of an object")
        }
        (TokenKind::CloseBracket, _) => Expected::Name(TARGET),
        (TokenKind::AllIn, _) => Expected::Name(SET),
        (TokenKind::Name, _) if is_outside => instruction(trail),
        (TokenKind::OpenBracket | TokenKind::Comma, _) => Expected::Name(PARAMETER),
        (TokenKind::Name, TokenKind::OpenBracket | TokenKind::Comma) => Expected::Sign(EQUALS),
        (TokenKind::Equals, _) => Expected::Name(ARGUMENT),
        _ => Expected::Sign(BEHIND_VALUE),
    }
}

fn in_condition(trail: &Trail) -> Expected {
    let is_outside = trail.signs.is_empty();
    match trail.last.kind {
        TokenKind::If => Expected::Sign(b"`(`"),
        TokenKind::CloseBracket if is_outside => Expected::Other(b"`then`"),
        TokenKind::OpenBracket | TokenKind::Not | TokenKind::And | TokenKind::Or => {
            Expected::Name(b"the name of an object, `all_in`, `any_in`, `not` or `(`")
        }
        TokenKind::AllIn | TokenKind::AnyIn => Expected::Name(SET),
        TokenKind::InState | TokenKind::NotInState => {
            Expected::Name(b"the name of a state, or `{`,")
        }
        TokenKind::OpenBrace | TokenKind::Comma => Expected::Name(STATE),
        TokenKind::Name => behind_name(trail),
        _ => Expected::Other(b"`and`, `or` or `)`"),
    }
}

// What could be behind a name of a condition.
fn behind_name(trail: &Trail) -> Expected {
    match trail.before.kind {
        TokenKind::InState | TokenKind::NotInState => Expected::Other(b"`and`, `or` or `)`"),
        TokenKind::OpenBrace | TokenKind::Comma => Expected::Sign(BEHIND_MEMBER),
        _ => Expected::Other(b"`in_state` or `not_in_state`"),
    }
}

fn in_assignment(trail: &Trail) -> Expected {
    match (trail.last.kind, trail.before.kind) {
        (TokenKind::Set, _) => Expected::Name(PARAMETER),
        (TokenKind::Name, TokenKind::Set) => Expected::Sign(EQUALS),
        (TokenKind::Equals, _) => Expected::Name(ARGUMENT),
        _ => instruction(trail),
    }
}

fn in_move(trail: &Trail) -> Expected {
    match trail.last.kind {
        TokenKind::MoveTo => Expected::Name(STATE),
        _ => instruction(trail),
    }
}

fn in_end(trail: &Trail) -> Expected {
    match trail.last.kind {
        TokenKind::TerminateAction => Expected::Other(b"`/state=`"),
        TokenKind::Slash => Expected::Other(b"`state`"),
        TokenKind::State => Expected::Sign(EQUALS),
        TokenKind::Equals => Expected::Name(STATE),
        _ => instruction(trail),
    }
}

fn in_wait(trail: &Trail) -> Expected {
    match trail.last.kind {
        TokenKind::Wait => Expected::Sign(b"`(`"),
        TokenKind::OpenBracket | TokenKind::Comma => Expected::Name(TARGET),
        TokenKind::AllIn => Expected::Name(SET),
        TokenKind::CloseBracket => instruction(trail),
        _ => Expected::Sign(BEHIND_VALUE),
    }
}

// What could be in an `insert` or a `remove`, with this word between the object and the set.
fn in_change(trail: &Trail, between: &'static [u8]) -> Expected {
    match (trail.last.kind, trail.before.kind) {
        (TokenKind::Insert | TokenKind::Remove, _) => Expected::Name(OBJECT),
        (TokenKind::Name, TokenKind::Insert | TokenKind::Remove) => Expected::Sign(between),
        (TokenKind::In | TokenKind::From, _) => Expected::Name(SET),
        _ => instruction(trail),
    }
}

// What could be at a place where an instruction could be.
fn instruction(trail: &Trail) -> Expected {
    match trail.open_if_there() {
        None => Expected::Other(INSTRUCTION),
        Some(open) if open.has_else => Expected::Other(IN_ELSE),
        Some(_) => Expected::Other(IN_IF),
    }
}
