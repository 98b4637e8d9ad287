//! Why the log of a live manager is refused.
ghost use Rattle.std.specs.Prelude.{◌≡◌};

use std::fmt;

/// Why the log of a live manager is refused, or is written no more. Its `Display` stands after the path in the fault
/// line. (docs/FORMATS.md, "Fault lines and exit statuses".)
#[derive(Clone, Copy, Debug, PartialEq, Eq)]
pub enum LogRefusal {
    /// The log of a manager that begins has something already.
    NotEmpty,
    /// It is no log, or that of a manager of another domain.
    OfAnother,
    /// It is that of a manager whose mailboxes have this room, which is another one.
    Capacity(u64),
    /// It has this many starts, which is more than the manager may make.
    Starts(u64),
    /// It follows another log, and this line is the first that no front of a log of its domain has there. Lines count
    /// from 1.
    BadOutset(u64),
    /// An action is open, or a request waits at an object that was not killed, so that no log can follow.
    Restless,
    /// Its last line, which has this number, lacks its line feed, or it has no line. Lines count from 1.
    Torn(u64),
    /// Its path is a symbolic link.
    IsLink,
    /// It is no regular file, or one of the standard streams.
    NoFile,
    /// Another manager writes it.
    InUse,
    /// With its next lines it would be longer than a schedule may be.
    Full,
    /// Its path is no longer that of the file that the manager writes.
    Moved,
    /// The file has more or fewer bytes than the manager wrote.
    Changed,
}

impl fmt::Display for LogRefusal {
    ghost use Rattle.smirun_commands.specs.Status.{refusal_text};

    ghost output = { refusal_text };

    fn fmt<W: fmt::Write>(&self, f: &mut fmt::Formatter<W>) -> fmt::Result {
        match self {
            LogRefusal::NotEmpty => f.write_str("is not empty"),
            LogRefusal::OfAnother => f.write_str("is of another domain"),
            LogRefusal::Capacity(capacity) => write!(f, "has capacity {capacity}"),
            LogRefusal::Starts(starts) => write!(f, "has {starts} starts"),
            LogRefusal::BadOutset(number) => write!(f, "bad outset {number}"),
            LogRefusal::Restless => f.write_str("does not rest"),
            LogRefusal::Torn(number) => write!(f, "bad line {number}"),
            LogRefusal::IsLink => f.write_str("is a link"),
            LogRefusal::NoFile => f.write_str("is no file"),
            LogRefusal::InUse => f.write_str("is in use"),
            LogRefusal::Full => f.write_str("full"),
            LogRefusal::Moved => f.write_str("was moved"),
            LogRefusal::Changed => f.write_str("was written by another"),
        }
    }
}
