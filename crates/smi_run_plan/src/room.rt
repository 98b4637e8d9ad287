//! How long the lists of sessions become.

// How many sessions there are at most.
const SESSIONS: usize = 8;

// Where a byte is in its line.
#[derive(Clone, Copy)]
enum Place {
    // In front of the first `@`, and in no comment.
    Front,
    // Right behind the first `@`.
    At,
    // Further on, or in a comment.
    Behind,
}

// Where the next byte is.
fn next_place(place: Place, byte: u8) -> Place {
    match (place, byte) {
        (_, b'\n') => Place::Front,
        (Place::Front, b'@') => Place::At,
        (Place::Front, b'!') => Place::Behind,
        (Place::Front, _) => Place::Front,
        (Place::At | Place::Behind, _) => Place::Behind,
    }
}

// For each session, how many lines of a text name it by their first `@`. A line of a session in a script names it so,
// and no other line there names one, so a list with this room need not grow. It says nothing about
// a text that is no script.
#[derive(Drop)]
pub(crate) struct Room {
    lines: [usize; SESSIONS],
}

impl Room {
    // The room that the lines of a text need. The cost is the length of the text.
    pub(crate) fn of(text: &[u8]) -> Room {
        let mut lines = [0usize; SESSIONS];
        let mut place = Place::Front;
        for byte in text {
            if let (Place::At, b'1'..=b'8') = (place, *byte) {
                let session = usize::from(*byte - b'1');
                lines[session] = lines[session].saturating_add(1);
            }
            place = next_place(place, *byte);
        }
        Room { lines }
    }

    // The room for the lines of the session at a place.
    pub(crate) fn at(&self, place: usize) -> usize {
        self.lines.get(place).copied().unwrap_or(0)
    }
}
