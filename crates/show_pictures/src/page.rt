//! Where the columns and rows of a picture lie.

use crate::columns::columns_of;
use crate::svg::Point;
use smi_journal::{Cause, Entry, Sender, SessionId};
use sml_domain::{Domain, ObjId};
use std::alloc::{AllocError, Global};

/// How many sessions there may be.
pub(crate) const SESSIONS: usize = 8;

// How wide a letter is taken to be.
const LETTER: u64 = 7;

// The narrowest column.
const NARROWEST: u64 = 80;

// The room to the left of the columns, for the numbers of entries.
const LEFT: u64 = 70;

/// How many letters of a label are shown.
pub(crate) const LABEL: usize = 44;

// The room to the right of the columns, for the labels of the last one.
const RIGHT: u64 = 330;

// How high a row is.
const ROW: u64 = 28;

// The narrowest picture: the line that says what is what has room.
const NARROWEST_PICTURE: u64 = 720;

// How many letters the line of the title has at most beside the names of files.
const TITLE: usize = 60;

/// Where the boxes of names begin.
pub(crate) const NAMES: u64 = 48;

/// How high a box of a name is.
pub(crate) const NAME_HEIGHT: u64 = 22;

// Where the lines of life begin.
const TOP: u64 = NAMES + NAME_HEIGHT;

// The line of the first row. There is a row above it, for what began earlier.
const FIRST: u64 = TOP + 48;

/// The columns and rows of a picture.
#[derive(Drop)]
pub(crate) struct Page {
    /// The place of the first entry that is shown.
    pub(crate) first: usize,
    /// The place behind the last entry that is shown.
    pub(crate) end: usize,
    // Which sessions have a column.
    sessions: [bool; SESSIONS],
    // The places of the columns of objects, by their numbers.
    columns: Vec<usize>,
    // How wide a column is.
    width: u64,
    // How wide the picture is at least.
    least: u64,
}

// The session that an entry names.
fn session_of(entry: &Entry) -> Option<SessionId> {
    match entry {
        Entry::Start {
            sender: Sender::Operator(session),
            ..
        } => Some(*session),
        Entry::Kill {
            cause: Cause::By(session),
            ..
        } => Some(*session),
        _ => None,
    }
}

// Which sessions the entries name.
fn sessions_in(entries: &[Entry]) -> [bool; SESSIONS] {
    let mut sessions = [false; SESSIONS];
    for entry in entries {
        if let Some(session) = session_of(entry) {
            sessions[session.get() as usize - 1] = true;
        }
    }
    sessions
}

// How many letters the longest name of an object has.
fn longest_name(domain: &Domain) -> usize {
    let mut longest = 0;
    for number in 0..domain.objects() {
        if let Some(name) = domain.object_name(ObjId::new(number)) {
            longest = longest.max(name.as_bytes().len());
        }
    }
    longest
}

// How far `count` steps go.
fn steps(count: usize, step: u64) -> u64 {
    (count as u64).saturating_mul(step)
}

impl Page {
    /// The page of the entries of a journal from one place to another. The names of the files have this many letters.
    pub(crate) fn of(
        alloc: Global,
        domain: &Domain,
        first: usize,
        shown: &[Entry],
        letters: usize,
    ) -> Result<Page, AllocError> {
        let width = steps(longest_name(domain), LETTER).saturating_add(24);
        Ok(Page {
            first,
            end: first.saturating_add(shown.len()),
            sessions: sessions_in(shown),
            columns: columns_of(alloc, domain)?,
            width: width.max(NARROWEST),
            least: steps(letters.saturating_add(TITLE), LETTER).max(NARROWEST_PICTURE),
        })
    }

    // How many sessions with a lower number than this place have a column.
    fn sessions_before(&self, place: usize) -> usize {
        let mut count = 0usize;
        for is_there in self.sessions.iter().take(place) {
            if *is_there {
                count = count.saturating_add(1);
            }
        }
        count
    }

    // The middle of a column.
    fn middle(&self, column: usize) -> u64 {
        LEFT.saturating_add(steps(column, self.width))
            .saturating_add(self.width / 2)
    }

    /// Whether a session has a column.
    pub(crate) fn has_session(&self, session: SessionId) -> bool {
        match self.sessions.get(session.get() as usize - 1) {
            Some(is_there) => *is_there,
            None => false,
        }
    }

    /// The middle of the column of a session.
    pub(crate) fn session_x(&self, session: SessionId) -> u64 {
        self.middle(self.sessions_before(session.get() as usize - 1))
    }

    /// The middle of the column of an object.
    pub(crate) fn object_x(&self, o: ObjId) -> u64 {
        let column = self.columns.get(o.get()).copied().unwrap_or(o.get());
        self.middle(self.sessions_before(SESSIONS).saturating_add(column))
    }

    /// The line in which an entry is drawn: the upper edge for one before those that are shown, and the lower edge for
    /// one behind them.
    pub(crate) fn line_of(&self, place: usize) -> u64 {
        match place.checked_sub(self.first) {
            None => TOP,
            Some(row) if place < self.end => FIRST.saturating_add(steps(row, ROW)),
            Some(_) => self.bottom(),
        }
    }

    /// Where the lines of life begin.
    pub(crate) fn top(&self) -> u64 {
        TOP
    }

    /// Where the lines of life end.
    pub(crate) fn bottom(&self) -> u64 {
        let rows = self.end.saturating_sub(self.first);
        FIRST.saturating_add(steps(rows, ROW)).saturating_sub(8)
    }

    /// The upper left corner of the box of a name in a column, `y` below the upper edge.
    pub(crate) fn corner(&self, middle: u64, y: u64) -> Point {
        Point {
            x: middle.saturating_sub(self.box_width() / 2),
            y,
        }
    }

    /// How wide the box of a name is.
    pub(crate) fn box_width(&self) -> u64 {
        self.width.saturating_sub(8)
    }

    /// How many letters have room in a column.
    pub(crate) fn letters(&self) -> usize {
        (self.width / LETTER).saturating_sub(4) as usize
    }

    /// Where the number of an entry ends.
    pub(crate) fn numbers(&self) -> u64 {
        LEFT.saturating_sub(10)
    }

    /// How wide the picture is.
    pub(crate) fn full_width(&self) -> u64 {
        let columns = self
            .sessions_before(SESSIONS)
            .saturating_add(self.columns.len());
        LEFT.saturating_add(steps(columns, self.width))
            .saturating_add(RIGHT)
            .max(self.least)
    }

    /// How high the picture is.
    pub(crate) fn full_height(&self) -> u64 {
        self.bottom().saturating_add(NAME_HEIGHT).saturating_add(12)
    }
}
