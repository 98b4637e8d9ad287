//! What is said about the log of a live manager that is refused, for people.

use crate::log_refusal::LogRefusal;
use explain_places::tell_quoted;
use sml_text::Sink;
use sml_writer::Out;

// A path, and the first words about it.
fn about<W: Sink>(out: &mut Out<'_, W>, path: &str, words: &str) {
    out.say(path.as_bytes());
    out.say(b": ");
    out.say(words.as_bytes());
}

/// Writes the way out where a log is refused.
pub(crate) fn explain_refused_log<W: Sink>(out: &mut Out<'_, W>, path: &str, refusal: LogRefusal) {
    match refusal {
        LogRefusal::NotEmpty => about(out, path, "`--resume` goes on after what it holds"),
        LogRefusal::OfAnother => about(
            out,
            path,
            "its first line names the domain that it was begun with, by its text; it is resumed with that one",
        ),
        LogRefusal::Capacity(capacity) => {
            about(
                out,
                path,
                "it is resumed as it was begun, with `--capacity ",
            );
            out.number(capacity);
            out.say(b"`");
        }
        LogRefusal::Starts(starts) => {
            about(out, path, "it is resumed with `--max-starts ");
            out.number(starts);
            out.say(b"` or more");
        }
        LogRefusal::BadOutset(number) => {
            about(
                out,
                path,
                "how a log begins that follows another is written whole, and is not edited; line ",
            );
            out.number(number);
            out.say(b" is none that stands there");
        }
        LogRefusal::Restless => about(
            out,
            path,
            "it rests once no action is open, and no request waits at an object that was not killed; `live --resume` \
             goes on",
        ),
        LogRefusal::Torn(_) => about(
            out,
            path,
            "a log of which a line was cut off is made whole by `live --resume`, and one without a line is begun by it",
        ),
        LogRefusal::IsLink => about(
            out,
            path,
            "the log that follows takes the place of a path, and the old one a name beside it, so the path of the file \
             itself is given",
        ),
        LogRefusal::NoFile => about(
            out,
            path,
            "a log is a regular file, and none that is standard input, output or error",
        ),
        LogRefusal::InUse => about(out, path, "another manager writes it"),
        LogRefusal::Full => about(
            out,
            path,
            "it has no room for more lines; what it holds can be looked at with `smirun step`",
        ),
        LogRefusal::Moved => about(
            out,
            path,
            "a log keeps its name while a manager writes it; once it has the name again, it can be resumed",
        ),
        LogRefusal::Changed => about(
            out,
            path,
            "a manager alone writes its log; `--resume` tells whether what it holds now can be continued",
        ),
    }
    out.say(b"\n");
}

/// Writes the line of a log that no manager would have written there, and how the lines before it are kept alone.
pub(crate) fn explain_bad_log<W: Sink>(out: &mut Out<'_, W>, path: &str, line: &[u8], number: u64) {
    out.say(path.as_bytes());
    out.say(b":");
    out.number(number);
    out.say(b": a manager would not have written this line here\n");
    tell_quoted(out, line, 0);
    about(out, path, "the lines before it are a log too: `head -n ");
    out.number(number.saturating_sub(1));
    out.say(b" ");
    out.say(path.as_bytes());
    out.say(b"`\n");
}
