//! A token that may not be where it is.

use crate::advice::{Advice, tell_advice};
use crate::expected::{Expected, expected_at};
use crate::foreign::elsewhere;
use crate::left_out::{DOMAINS, tell_left_out};
use crate::names::nearest_word;
use crate::shapes::{forgotten_do, in_place_of, in_place_of_instruction, tell_equals, tell_taken};
use crate::teller::Teller;
use crate::tokens::name_of;
use crate::trail::{OpenIf, Trail};
use explain_places::place_of;
use sml_text::Sink;
use sml_tree::{Name, TokenKind};

const INSTRUCTIONS: &[u8] = b" (do, if, set, move_to, terminate_action, wait, insert, remove)";

/// Says why the token at the place of a trail may not be there, and what could be.
pub(crate) fn tell_unexpected<W: Sink>(out: &mut Teller<'_, '_, W>, trail: &Trail) {
    let told = tell_left_out(out, trail)
        || tell_stray_part(out, trail)
        || tell_taken(out, trail)
        || tell_equals(out, trail)
        || tell_part(out, trail);
    if !told {
        tell_expected(out, trail);
    }
}

// Says which `if` is in the way, where a token ends an action inside one or a part of an `if` is outside, and
// whether it does.
fn tell_stray_part<W: Sink>(out: &mut Teller<'_, '_, W>, trail: &Trail) -> bool {
    if !trail.takes_instruction() {
        return false;
    }
    match (trail.open_if_there(), trail.found.kind) {
        (None, TokenKind::Else | TokenKind::Endif | TokenKind::Then) => {
            out.quoted(trail.found.bytes(out.text));
            out.say(b" without an open `if`");
            true
        }
        (Some(open), TokenKind::Else) => {
            out.say(b"a second `else` for the `if` of ");
            out.spot(open.at);
            true
        }
        (Some(open), _) if ends_action(trail) => {
            tell_open_if(out, trail, open);
            true
        }
        _ => false,
    }
}

// Whether the token at the place ends an action.
fn ends_action(trail: &Trail) -> bool {
    matches!(
        trail.found.kind,
        TokenKind::Class
            | TokenKind::Object
            | TokenKind::ObjectSet
            | TokenKind::State
            | TokenKind::Action
            | TokenKind::Stray
    )
}

// Says of which `if` the end is missing.
fn tell_open_if<W: Sink>(out: &mut Teller<'_, '_, W>, trail: &Trail, open: OpenIf) {
    if trail.ends() {
        out.say(b"the text ends");
    } else {
        out.quoted(trail.found.bytes(out.text));
    }
    out.say(b" inside an `if`: ");
    match open.else_if {
        Some(at) => {
            out.say(b"`else if` needs an `endif` of its own, and the last one ends the `if` of ");
            out.spot(at);
            out.say(b", not that of ");
        }
        None => out.say(b"`endif` is missing for the `if` of "),
    }
    out.spot(open.at);
    if open.else_if.is_some() {
        out.say(DOMAINS);
    }
}

// Says that a name is no instruction or that a mark occurs twice, if that is so. Whether it is so.
fn tell_part<W: Sink>(out: &mut Teller<'_, '_, W>, trail: &Trail) -> bool {
    match trail.found.kind {
        TokenKind::Name if trail.takes_instruction() => {
            tell_no_instruction(out, trail);
            true
        }
        TokenKind::InitialState | TokenKind::DeadState
            if matches!(trail.head.kind, TokenKind::State) => {
            out.say(b"the mark ");
            out.quoted(trail.found.bytes(out.text));
            out.say(b" stands twice");
            true
        }
        _ => false,
    }
}

// Says that the name at the place is no instruction, and what to write instead.
fn tell_no_instruction<W: Sink>(out: &mut Teller<'_, '_, W>, trail: &Trail) {
    let text = out.text;
    out.quoted(trail.found.bytes(text));
    out.say(b" is no instruction");
    let Some(name) = name_of(trail.found.bytes(text)) else {
        return;
    };
    let advice = in_place_of_instruction(text, trail, &name);
    if !matches!(advice, Some(Advice::Say(_))) {
        out.say(INSTRUCTIONS);
    }
    match advice {
        Some(advice) => tell_advice(out, advice),
        None => tell_near(out, trail, &name),
    }
}

// Says which instruction may have been meant by a name, or else that it may be the action of a `do`.
fn tell_near<W: Sink>(out: &mut Teller<'_, '_, W>, trail: &Trail, name: &Name) {
    if nearest_word(name, trail).is_some() {
        tell_meant(out, trail, name);
    } else if let Some(advice) = forgotten_do(out.text, trail) {
        tell_advice(out, advice);
    }
}

// Says which reserved word may have been meant by the name at the place, or that it is a mark without its slash.
fn tell_meant<W: Sink>(out: &mut Teller<'_, '_, W>, trail: &Trail, name: &Name) {
    let Some(word) = nearest_word(name, trail) else {
        return;
    };
    if word == *name {
        out.say(b", which is a name where no `/` stands before it");
    } else {
        out.say(b"; did you mean `");
        out.word(&word);
        out.say(b"`?");
    }
}

// Says what could be at the place, and what is there.
fn tell_expected<W: Sink>(out: &mut Teller<'_, '_, W>, trail: &Trail) {
    out.say(b"expected ");
    let expected = expected_at(trail);
    match expected {
        Expected::Name(words) | Expected::Sign(words) | Expected::Other(words) => out.say(words),
    }
    tell_behind(out, trail);
    tell_found(out, trail, expected);
    tell_unclosed(out, trail);
}

// Says what is before the place, and where, if that is on another line.
fn tell_behind<W: Sink>(out: &mut Teller<'_, '_, W>, trail: &Trail) {
    let last = trail.last;
    if matches!(last.kind, TokenKind::Stray) {
        return;
    }
    out.say(b" behind ");
    out.quoted(last.bytes(out.text));
    let end = if trail.ends() {
        out.text.len()
    } else {
        trail.found.at
    };
    if place_of(out.text, last.at).line != place_of(out.text, end).line {
        out.say(b" of ");
        out.spot(last.at);
    }
}

// Says what is at the place, and what may have been meant.
fn tell_found<W: Sink>(out: &mut Teller<'_, '_, W>, trail: &Trail, expected: Expected) {
    if trail.ends() {
        out.say(b", and the text ends");
        return;
    }
    out.say(b", found ");
    out.quoted(trail.found.bytes(out.text));
    match in_place_of(out.text, trail, expected) {
        Some(advice) => tell_advice(out, advice),
        None => tell_what_is_found(out, trail, expected),
    }
}

// Says what is not right with what is at the place, as far as its kind tells that.
fn tell_what_is_found<W: Sink>(out: &mut Teller<'_, '_, W>, trail: &Trail, expected: Expected) {
    match (expected, trail.found.kind) {
        (Expected::Other(_), TokenKind::Name) => tell_word(out, trail),
        (Expected::Name(_), kind) if is_word(kind) => out.say(b", which is a reserved word"),
        (Expected::Other(_), TokenKind::CloseBracket) if is_empty_list(trail) => {
            out.say(b": an empty list is left out with its brackets");
        }
        (Expected::Other(_), TokenKind::Equals) if matches!(trail.head.kind, TokenKind::Do) => {
            out.say(b": the arguments of a `do` stand in brackets");
        }
        _ => {}
    }
}

// Says what to write in place of the name at the place.
fn tell_word<W: Sink>(out: &mut Teller<'_, '_, W>, trail: &Trail) {
    let Some(name) = name_of(trail.found.bytes(out.text)) else {
        return;
    };
    match elsewhere(name.as_bytes()) {
        Some(advice) => tell_advice(out, advice),
        None => tell_meant(out, trail, &name),
    }
}

// Whether a list of parameters has brackets with nothing in them.
fn is_empty_list(trail: &Trail) -> bool {
    matches!(trail.last.kind, TokenKind::OpenBracket)
}

// Whether a token is a reserved word.
fn is_word(kind: TokenKind) -> bool {
    !matches!(
        kind,
        TokenKind::Colon
            | TokenKind::Comma
            | TokenKind::Equals
            | TokenKind::OpenBracket
            | TokenKind::CloseBracket
            | TokenKind::OpenBrace
            | TokenKind::CloseBrace
            | TokenKind::Slash
            | TokenKind::Name
            | TokenKind::Int
            | TokenKind::Str
            | TokenKind::Stray
    )
}

// Says which bracket is open, if the token at the place or the end of the text may not be in brackets.
fn tell_unclosed<W: Sink>(out: &mut Teller<'_, '_, W>, trail: &Trail) {
    let Some(sign) = trail.open_sign() else {
        return;
    };
    if sign.at == trail.last.at || !(trail.ends() || ends_brackets(trail.found.kind)) {
        return;
    }
    out.say(b"; ");
    out.quoted(sign.bytes(out.text));
    out.say(b" of ");
    out.spot(sign.at);
    out.say(b" is not closed");
}

// Whether a word is never in brackets.
fn ends_brackets(kind: TokenKind) -> bool {
    matches!(
        kind,
        TokenKind::Class
            | TokenKind::Object
            | TokenKind::ObjectSet
            | TokenKind::State
            | TokenKind::Action
            | TokenKind::Do
            | TokenKind::If
            | TokenKind::Then
            | TokenKind::Else
            | TokenKind::Endif
            | TokenKind::Set
            | TokenKind::MoveTo
            | TokenKind::TerminateAction
            | TokenKind::Wait
            | TokenKind::Insert
            | TokenKind::Remove
    )
}
