//! What legal entries leave behind: their books, the parameters of objects, and what each open action shows next.
ghost use Rattle.std.specs.Prelude.{◌≡◌, ◌<◌, ◌+◌, ◌^◌, [], All, IfErr, IfNone, IfOk, IfSome, None, length};
ghost use Rattle.std.specs.Arc.{arc_value};
ghost use Rattle.smi_journal.specs.HasText.{HasText};
ghost use Rattle.smi_meaning.specs.Legal.{IsLegal};
ghost use Rattle.smi_meaning.specs.Params.{ParamsAfter, running_at};
ghost use Rattle.smi_audit.specs.Pasts.{IsNone, IsNotEntered, IsPastOf, PastGoesOn, PastShows, PastWaitsAt};

use crate::judge::Judge;
use crate::lines::judge_of;
use smi_audit_follower::Expected;
use smi_audit_rules::Rule;
use smi_interp::Place;
use smi_journal::{Entry, Format, behind_header, laws_of_names};
use smi_ledger::Books;
use sml_domain::{Domain, ObjId, Value};
use std::alloc::{AllocError, Global};
use std::marker::Model;
use std::sync::Arc;

/// Why entries cannot be replayed.
#[derive(Clone, Copy, Debug, Eq, PartialEq)]
pub enum PastError {
    /// The first illegal line, and the first rule that its entry breaks, as in a `Judgement`.
    Illegal { line: u64, rule: Rule },
    /// Out of memory.
    Memory,
}

/// Why an entry is not entered behind others.
#[derive(Clone, Copy, Debug, Eq, PartialEq)]
pub enum EntryError {
    /// It may not follow them, and this is the first rule that it breaks.
    Illegal(Rule),
    /// Out of memory.
    Memory,
}

/// The books of a legal journal, the parameters of its objects, and what each open action shows next. So it can be told
/// how all stood behind a line, and what would have been legal in the place of an illegal one. The entries themselves
/// are not kept.
#[derive(Drop)]
pub struct Past {
    judge: Judge,
}

impl Model for Past {
    ghost use Rattle.std.specs.Coded.{codes};
    ghost use Rattle.sml_domain.specs.Codes.{formula_code};
    ghost use Rattle.smi_audit.specs.Judges.{JudgeIsLegal};
    ghost use Rattle.smi_audit.specs.Views.{PastView};

    ghost Value = { PastView };

    ghost coded = { Prim.hlevel (codes, formula_code) };

    ghost view = { λ p. record { format = p.judge.format; books = p.judge.books } };

    ghost invariant = { λ p. JudgeIsLegal p.judge };
}

impl Past {
    /// The past of a journal that has no entries yet. The cost is the square of the count of objects.
    pub fn new(alloc: Global, format: Format, domain: Arc<Domain>) -> Result<Past, AllocError>
        ensures format { IfOk result (λ p. p.format ≡ format) }
        ensures journal { IfOk result (λ p. p.books.journal ≡ []) }
        ensures domain { IfOk result (λ p. p.books.domain ≡ arc_value domain) }
    {
        let judge = Judge::new(alloc, format, domain)?;
        Ok(Past { judge })
    }

    /// Enters one more entry, if it may follow those that were entered. The past is given up if it may not, or if
    /// memory runs out: its open action may have gone on by then.
    ///
    /// The time is that of the entry and of what its action does behind it, and memory is taken for what the books keep
    /// of it.
    pub fn enter(self, entry: &Entry) -> Result<Past, EntryError>
        requires text { HasText self.books.domain entry.now }
        ensures entered { IfOk result (λ p. PastGoesOn self p entry.now) }
        ensures refused { IfErr result (IsNotEntered self entry.now) }
    {
        let Past { judge } = self;
        let mut judge = judge;
        let broken = match judge.take(entry) {
            Ok(broken) => broken,
            Err(_) => return Err(EntryError::Memory),
        };
        match broken {
            Some(rule) => Err(EntryError::Illegal(rule)),
            None => Ok(Past { judge }),
        }
    }

    /// Enters entries, one after another, as a journal of a format has them. The time grows with their count and
    /// with what their actions do, and the memory with their count. The square of the count of objects is spent
    /// once.
    pub fn of(
        alloc: Global,
        format: Format,
        domain: Arc<Domain>,
        entries: &[Entry],
    ) -> Result<Past, PastError>
        requires texts { All (HasText (arc_value domain)) entries.now }
        requires few { length entries.now + 2 < 2 ^ 64 }
        ensures legal { IfOk result (λ p. IsLegal format (arc_value domain) entries.now) }
        ensures format { IfOk result (λ p. p.format ≡ format) }
        ensures journal { IfOk result (λ p. p.books.journal ≡ entries.now) }
        ensures domain { IfOk result (λ p. p.books.domain ≡ arc_value domain) }
        ensures none { IfErr result (IsNone format (arc_value domain) entries.now) }
    {
        let Ok(mut judge) = Judge::new(alloc, format, domain) else {
            return Err(PastError::Memory);
        };
        for (i, entry) in entries.iter().enumerate() {
            let Ok(broken) = judge.take(entry) else {
                return Err(PastError::Memory);
            };
            match broken {
                Some(rule) => {
                    return Err(PastError::Illegal {
                        line: i as u64 + 2,
                        rule,
                    });
                }
                None => {}
            }
        }
        Ok(Past { judge })
    }

    /// Enters the entries of the text of a legal journal, line by line, so that none of them is held. None if the bytes
    /// are not the text of a legal journal of the domain, or memory runs out: `audit` says which.
    ///
    /// The time grows with the length of the text and with what the journal's actions do. Memory is taken for the books
    /// and for what open actions do. The square of the count of objects is spent once.
    pub fn of_text(alloc: Global, domain: &Arc<Domain>, bytes: &[u8]) -> Option<Past>
        ensures { IfSome result (IsPastOf (arc_value domain.now) bytes.now) }
    {
        let (format, rest) = behind_header(bytes)?;
        laws_of_names(domain);
        let judge = judge_of(alloc, format, domain, rest)?;
        Some(Past { judge })
    }

    /// The books of the entries. The cost is constant.
    pub fn books(&self) -> &Books
        ensures { result.now ≡ self.now.books }
    {
        &self.judge.books
    }

    /// The parameters of an object, in the order of its class's list. The cost is constant.
    pub fn params(&self, o: ObjId) -> &[Value]
        requires { o < length self.now.books.domain.objects }
        ensures { ParamsAfter self.now.format self.now.books.domain o self.now.books.journal result.now }
    {
        self.judge.tracks[o.get()].params()
    }

    /// What the action that runs at an object shows next, or None if no action runs there. The cost is constant.
    pub fn next(&self, o: ObjId) -> Option<Expected<'_>>
        requires { o < length self.now.books.domain.objects }
        ensures some { IfSome result (PastShows self.now.format self.now.books.domain self.now.books.journal o) }
        ensures none { IfNone result
            (running_at self.now.format self.now.books.domain o self.now.books.journal ≡ None) }
    {
        self.judge.tracks[o.get()].next()
    }

    /// The place of the instruction by which it shows that, or None if no action runs there: for people to find it in
    /// the text. The cost is constant.
    pub fn place(&self, o: ObjId) -> Option<Place>
        requires { o < length self.now.books.domain.objects }
        ensures some { IfSome result (PastWaitsAt self.now.format self.now.books.domain self.now.books.journal o) }
        ensures none { IfNone result
            (running_at self.now.format self.now.books.domain o self.now.books.journal ≡ None) }
    {
        self.judge.tracks[o.get()].place()
    }
}
