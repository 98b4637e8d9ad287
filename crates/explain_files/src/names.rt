//! Reserved words that may have been meant.

use crate::trail::Trail;
use explain_places::Nearest;
use sml_tree::{Name, TokenKind};

/// The reserved word nearest in spelling to a name at the place of a trail, of those that could be there.
pub(crate) fn nearest_word(name: &Name, trail: &Trail) -> Option<Name> {
    let mut nearest = Nearest::new(name);
    if trail.takes_instruction() {
        offer_instructions(&mut nearest);
        offer_items(&mut nearest);
        return nearest.found();
    }
    match trail.head.kind {
        TokenKind::If => offer_conditions(&mut nearest),
        _ => {
            offer_items(&mut nearest);
            offer_parts(&mut nearest);
        }
    }
    nearest.found()
}

// Offers the words of instructions.
fn offer_instructions(nearest: &mut Nearest) {
    nearest.offer(&Name::from_word(b"DO"));
    nearest.offer(&Name::from_word(b"IF"));
    nearest.offer(&Name::from_word(b"SET"));
    nearest.offer(&Name::from_word(b"MOVE_TO"));
    nearest.offer(&Name::from_word(b"TERMINATE_ACTION"));
    nearest.offer(&Name::from_word(b"WAIT"));
    nearest.offer(&Name::from_word(b"INSERT"));
    nearest.offer(&Name::from_word(b"REMOVE"));
    nearest.offer(&Name::from_word(b"ELSE"));
    nearest.offer(&Name::from_word(b"ENDIF"));
}

// Offers the words that begin items, states and actions.
fn offer_items(nearest: &mut Nearest) {
    nearest.offer(&Name::from_word(b"CLASS"));
    nearest.offer(&Name::from_word(b"OBJECT"));
    nearest.offer(&Name::from_word(b"OBJECTSET"));
    nearest.offer(&Name::from_word(b"STATE"));
    nearest.offer(&Name::from_word(b"ACTION"));
}

// Offers the words inside of items.
fn offer_parts(nearest: &mut Nearest) {
    nearest.offer(&Name::from_word(b"PARAMETERS"));
    nearest.offer(&Name::from_word(b"IS_OF_CLASS"));
    nearest.offer(&Name::from_word(b"INT"));
    nearest.offer(&Name::from_word(b"STRING"));
    nearest.offer(&Name::from_word(b"ASSOCIATED"));
    nearest.offer(&Name::from_word(b"INITIAL_STATE"));
    nearest.offer(&Name::from_word(b"DEAD_STATE"));
}

// Offers the words inside of conditions, and the one behind them.
fn offer_conditions(nearest: &mut Nearest) {
    nearest.offer(&Name::from_word(b"IN_STATE"));
    nearest.offer(&Name::from_word(b"NOT_IN_STATE"));
    nearest.offer(&Name::from_word(b"AND"));
    nearest.offer(&Name::from_word(b"OR"));
    nearest.offer(&Name::from_word(b"THEN"));
}
