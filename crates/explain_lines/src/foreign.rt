//! First words of lines that other programs have, each with what to write instead.

use crate::bad_line::LineKind;

const STATES: &[u8] = b"; `--states` tells how all stands, and a manager does for a line `?`";

const STATES_OF_RUN: &[u8] = b"; `--states` tells how all stands";

const HELP: &[u8] = b"; `smirun step --help` has what each line does";

const HELP_OF_RUN: &[u8] = b"; `smirun run --help` has what each line does";

const NO_TIMES: &[u8] = b": there are no times, and no line waits";

/// What to write in place of a word, in capital letters, that begins a line of a kind.
pub(crate) fn advice_on(kind: LineKind, word: &[u8]) -> Option<&'static [u8]> {
    match word {
        b"STATE" | b"STATES" | b"STATUS" | b"SHOW" => Some(match kind {
            LineKind::Schedule => STATES,
            LineKind::Script => STATES_OF_RUN,
        }),
        b"HELP" | b"RUN" => Some(match kind {
            LineKind::Schedule => HELP,
            LineKind::Script => HELP_OF_RUN,
        }),
        b"WAIT" | b"SLEEP" | b"DELAY" | b"AFTER" => Some(NO_TIMES),
        _ => None,
    }
}
