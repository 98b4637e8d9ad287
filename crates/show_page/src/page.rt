//! The page of a run.
ghost use Rattle.std.specs.Prelude.{◌≡◌};
ghost use Rattle.sml_writer.specs.Tells.{Tells};
ghost use Rattle.show_page.specs.Pages.{page_text};

use crate::body::{BEHIND_DOMAIN, BEHIND_LIST, BEHIND_REASON, BEHIND_RULING, BEHIND_RUN};
use crate::escaping::tell_escaped;
use crate::head::HEAD;
use crate::script::BEHIND_JOURNAL;
use sml_text::Sink;
use sml_writer::Out;

/// What a page shows. Each text may have any bytes.
#[derive(Clone, Copy)]
pub struct Page<'a> {
    /// The name of the file of the domain.
    pub domain: &'a [u8],
    /// The name of the file of the journal.
    pub run: &'a [u8],
    /// What the judge says of the journal: `Legal`, or `Illegal LINE RULE`.
    pub ruling: &'a [u8],
    /// What stands against an illegal line, in lines of which the first is its text. Empty for a legal journal.
    pub reason: &'a [u8],
    /// What the domain declares, and how it begins, as `tell_begun_list` of `show_lists` writes it.
    pub list: &'a [u8],
    /// The text of the journal.
    pub journal: &'a [u8],
}

/// Writes the page of a run: one file of HTML, complete in itself. Nothing is written behind a write that failed.
///
/// `laws_of_pages` says that a browser shows the texts of the page as they are. The text goes out in many small parts,
/// so that a writer to a file should be buffered. No memory is taken; the time grows with what is written.
pub fn tell_page<W: Sink>(out: &mut Out<'_, W>, page: &Page<'_>)
    ensures { Tells W.contents W.has_refused out.old out.new (page_text page.now) }
{
    out.say(HEAD);
    tell_escaped(out, page.domain);
    out.say(BEHIND_DOMAIN);
    tell_escaped(out, page.run);
    out.say(BEHIND_RUN);
    tell_escaped(out, page.ruling);
    out.say(BEHIND_RULING);
    tell_escaped(out, page.reason);
    out.say(BEHIND_REASON);
    tell_escaped(out, page.list);
    out.say(BEHIND_LIST);
    tell_escaped(out, page.journal);
    out.say(BEHIND_JOURNAL);
}
