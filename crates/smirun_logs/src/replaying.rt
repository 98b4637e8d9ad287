//! What the judge makes of the entries of a run.
ghost use Rattle.std.specs.Prelude.{◌≡◌, IfErr, IfOk, IfSome, OnOk};
ghost use Rattle.std.specs.Arc.{arc_value};
ghost use Rattle.smi_journal.specs.EntryText.{line_text};
ghost use Rattle.smi_journal.specs.HasText.{HasNames, HasTextIn};
ghost use Rattle.smi_journal.specs.JournalText.{journal_text};
ghost use Rattle.smi_audit.specs.Pasts.{IsPastOf};
ghost use Rattle.smirun_logs.specs.Replaying.{EntersLine, IsEmptyPast};

use smi_audit::Past;
use smi_journal::{Entry, Format, LineReader, laws_of_names, tell_lines, write_journal};
use smirun_commands::Fault;
use sml_domain::Domain;
use std::alloc::{AllocError, Global};
use std::slice;
use std::sync::Arc;

/// Who looks at entries as the judge takes them.
pub trait Looker {
    /// An entry is taken next, behind those of a past.
    fn sees(&mut self, past: &Past, entry: &Entry);
}

/// Nobody looks.
#[derive(Drop)]
pub struct Unlooked;

impl Looker for Unlooked {
    fn sees(&mut self, _past: &Past, _entry: &Entry) {}
}

/// What the judge takes entries with.
#[derive(Drop)]
struct Replayer {
    alloc: Global,
    reader: LineReader,
    // The line of one entry.
    line: Vec<u8>,
}

impl Replayer {
    fn new(alloc: Global) -> Replayer {
        Replayer {
            alloc,
            reader: LineReader::new(alloc),
            line: Vec::new(alloc),
        }
    }

    // Writes the line of an entry, in place of the one before.
    fn spell(&mut self, domain: &Domain, entry: &Entry) -> Result<(), AllocError>
        ensures { OnOk result (self.new.line.items ≡ line_text domain.now entry.now) }
    {
        self.line.clear();
        let mut failed = false;
        tell_lines(&mut self.line, &mut failed, domain, slice::from_ref(entry));
        if failed { Err(AllocError) } else { Ok(()) }
    }

    // The entry that the line of this one is read as. None if it is read as no entry, or memory runs out.
    fn read_back(&mut self, domain: &Domain, entry: &Entry) -> Option<Entry>
        requires { HasNames domain.now }
        ensures { IfSome result (λ read. HasTextIn Format.Two domain.now read
            × (line_text domain.now read ≡ line_text domain.now entry.now)) }
    {
        if self.spell(domain, entry).is_err() {
            return None;
        }
        let line = self.line.as_slice();
        match self
            .reader
            .next_entry(self.alloc, domain, Format::Two, line)
        {
            Ok(Some((read, more))) if more.is_empty() => Some(read),
            _ => None,
        }
    }

    // Enters the entry that the line of this one is read as. None if it may not follow, or memory runs out.
    fn enter<L: Looker>(
        &mut self,
        domain: &Domain,
        past: Past,
        entry: &Entry,
        looker: &mut L,
    ) -> Option<Past>
        requires names { HasNames domain.now }
        requires of { past.books.domain ≡ domain.now }
        requires format { past.format ≡ Format.Two }
        ensures { IfSome result (EntersLine domain.now entry.now past) }
    {
        let Some(read) = self.read_back(domain, entry) else {
            return None;
        };
        looker.sees(&past, &read);
        match past.enter(&read) {
            Ok(past) => Some(past),
            Err(_) => None,
        }
    }
}

// The past of no entries.
fn begun(alloc: Global, domain: &Arc<Domain>) -> Option<Past>
    ensures { IfSome result (IsEmptyPast (arc_value domain.now)) }
{
    let shared = Arc::try_clone(domain).ok()?;
    Past::of(alloc, Format::Two, shared, &[]).ok()
}

/// The past of the entries of a run. Each is written as its line of a journal and read again, so that what is judged is
/// what a journal of them would say; one line is held at a time. None if they are not the journal of a run that the
/// judge finds legal, or memory runs out.
///
/// The cost is that of `Past::of_text` of such a journal.
pub fn past_of_entries<L: Looker>(
    alloc: Global,
    domain: &Arc<Domain>,
    entries: &[Entry],
    looker: &mut L,
) -> Option<Past>
    ensures { IfSome result (IsPastOf (arc_value domain.now)
        (journal_text Format.Two (arc_value domain.now) entries.now)) }
{
    laws_of_names(domain);
    let mut replayer = Replayer::new(alloc);
    let Some(mut past) = begun(alloc, domain) else {
        return None;
    };
    for entry in entries {
        past = match replayer.enter(domain, past, entry, looker) {
            Some(next) => next,
            None => return None,
        };
    }
    Some(past)
}

/// The text of the journal of a run.
pub(crate) fn text_of(
    alloc: Global,
    domain: &Domain,
    entries: &[Entry],
) -> Result<Vec<u8>, Fault<'static>>
    ensures ok { IfOk result (λ text. text.items ≡ journal_text Format.Two domain.now entries.now) }
    ensures err { IfErr result (λ fault. fault ≡ Fault.Memory) }
{
    let mut text = Vec::new(alloc);
    match write_journal(domain, entries, &mut text) {
        Ok(()) => Ok(text),
        Err(_) => Err(Fault::Memory),
    }
}
