//! The words that are not names.
ghost use Rattle.std.specs.Prelude.{◌≡◌, map, nat_eq};
ghost use Rattle.std.specs.Cmp.Lexicographic.{pointwise};
ghost use Rattle.sml_tree.specs.Word.{upper};
ghost use Rattle.sml_tree.specs.Piece.{kind_in as kind', word_kind as word', is_row, reserved, is_reserved as reserved'};
ghost use Rattle.sml_tree.specs.Rows.{row_of, of_length};
ghost use Rattle.std.specs.List.{list_any as any_of};

use crate::token_kind::TokenKind;

// A word in upper case, and its kind.
struct Row {
    word: &'static [u8],
    kind: TokenKind,
}

// The words that count only behind a slash.
const MARKS: [Row; 3] = [
    Row {
        word: b"ASSOCIATED",
        kind: TokenKind::Associated,
    },
    Row {
        word: b"INITIAL_STATE",
        kind: TokenKind::InitialState,
    },
    Row {
        word: b"DEAD_STATE",
        kind: TokenKind::DeadState,
    },
];

// The reserved words, by how many bytes they have.
const OF_TWO: [Row; 4] = [
    Row {
        word: b"DO",
        kind: TokenKind::Do,
    },
    Row {
        word: b"IF",
        kind: TokenKind::If,
    },
    Row {
        word: b"OR",
        kind: TokenKind::Or,
    },
    Row {
        word: b"IN",
        kind: TokenKind::In,
    },
];

const OF_THREE: [Row; 4] = [
    Row {
        word: b"INT",
        kind: TokenKind::IntKind,
    },
    Row {
        word: b"SET",
        kind: TokenKind::Set,
    },
    Row {
        word: b"AND",
        kind: TokenKind::And,
    },
    Row {
        word: b"NOT",
        kind: TokenKind::Not,
    },
];

const OF_FOUR: [Row; 4] = [
    Row {
        word: b"THEN",
        kind: TokenKind::Then,
    },
    Row {
        word: b"ELSE",
        kind: TokenKind::Else,
    },
    Row {
        word: b"WAIT",
        kind: TokenKind::Wait,
    },
    Row {
        word: b"FROM",
        kind: TokenKind::From,
    },
];

const OF_FIVE: [Row; 3] = [
    Row {
        word: b"CLASS",
        kind: TokenKind::Class,
    },
    Row {
        word: b"STATE",
        kind: TokenKind::State,
    },
    Row {
        word: b"ENDIF",
        kind: TokenKind::Endif,
    },
];

const OF_SIX: [Row; 7] = [
    Row {
        word: b"OBJECT",
        kind: TokenKind::Object,
    },
    Row {
        word: b"ACTION",
        kind: TokenKind::Action,
    },
    Row {
        word: b"STRING",
        kind: TokenKind::StringKind,
    },
    Row {
        word: b"ALL_IN",
        kind: TokenKind::AllIn,
    },
    Row {
        word: b"ANY_IN",
        kind: TokenKind::AnyIn,
    },
    Row {
        word: b"INSERT",
        kind: TokenKind::Insert,
    },
    Row {
        word: b"REMOVE",
        kind: TokenKind::Remove,
    },
];

const OF_SEVEN: [Row; 1] = [Row {
    word: b"MOVE_TO",
    kind: TokenKind::MoveTo,
}];

const OF_EIGHT: [Row; 1] = [Row {
    word: b"IN_STATE",
    kind: TokenKind::InState,
}];

const OF_NINE: [Row; 1] = [Row {
    word: b"OBJECTSET",
    kind: TokenKind::ObjectSet,
}];

const OF_TEN: [Row; 1] = [Row {
    word: b"PARAMETERS",
    kind: TokenKind::Parameters,
}];

const OF_ELEVEN: [Row; 1] = [Row {
    word: b"IS_OF_CLASS",
    kind: TokenKind::IsOfClass,
}];

const OF_TWELVE: [Row; 1] = [Row {
    word: b"NOT_IN_STATE",
    kind: TokenKind::NotInState,
}];

const OF_SIXTEEN: [Row; 1] = [Row {
    word: b"TERMINATE_ACTION",
    kind: TokenKind::TerminateAction,
}];

// Returns the reserved words of `length` bytes.
fn words_of(length: usize) -> &'static [Row]
    ensures { map row_of result.now ≡ of_length length reserved }
{
    match length {
        2 => &OF_TWO,
        3 => &OF_THREE,
        4 => &OF_FOUR,
        5 => &OF_FIVE,
        6 => &OF_SIX,
        7 => &OF_SEVEN,
        8 => &OF_EIGHT,
        9 => &OF_NINE,
        10 => &OF_TEN,
        11 => &OF_ELEVEN,
        12 => &OF_TWELVE,
        16 => &OF_SIXTEEN,
        _ => &[],
    }
}

// Whether a word is this one in upper case.
fn spells(word: &[u8], upper_word: &[u8]) -> bool
    ensures { result ≡ pointwise nat_eq (upper word.now) upper_word.now }
{
    if word.len() != upper_word.len() {
        return false;
    }
    for (i, b) in word.iter().enumerate() {
        if b.to_ascii_uppercase() != upper_word[i] {
            return false;
        }
    }
    true
}

// Returns the kind of a word by these rows; a word of no row is a name.
fn kind_in(rows: &[Row], word: &[u8]) -> TokenKind
    ensures { result ≡ kind' (map row_of rows.now) (upper word.now) }
{
    for row in rows {
        if spells(word, row.word) {
            return row.kind;
        }
    }
    TokenKind::Name
}

// Whether a word is one of these rows.
fn is_in(rows: &[Row], word: &[u8]) -> bool
    ensures { result ≡ any_of (is_row word.now) (map row_of rows.now) }
{
    for row in rows {
        if word == row.word {
            return true;
        }
    }
    false
}

// Returns the kind of a word that is not behind a slash.
fn plain_kind(word: &[u8]) -> TokenKind
    ensures { result ≡ kind' reserved (upper word.now) }
{
    kind_in(words_of(word.len()), word)
}

/// Returns the kind of a word, behind a slash or not. (docs/LANGUAGE.md, "Tokens".) The cost is the count of the
/// reserved words that are as long.
pub fn word_kind(slash: bool, word: &[u8]) -> TokenKind
    ensures { result ≡ word' slash (upper word.now) }
{
    if !slash {
        return plain_kind(word);
    }
    match kind_in(&MARKS, word) {
        TokenKind::Name => plain_kind(word),
        mark => mark,
    }
}

/// Whether a word in upper case is reserved, and so is not a name. (docs/LANGUAGE.md, "Tokens".) The cost
/// is the count of the reserved words that are as long.
pub fn is_reserved(word: &[u8]) -> bool
    ensures { result ≡ reserved' word.now }
{
    is_in(words_of(word.len()), word)
}
