//! Sends that are begun, which no entry may split in the second format.
ghost use Rattle.std.specs.Prelude.{◌≡◌, ◌↔◌, ℕ, IfNone, IfSome, IsTrue, MatchBool};
ghost use Rattle.smi_journal_entries.specs.declared.journal.Format.TheVariants.{Two};
ghost use Rattle.smi_meaning.specs.Items as items;
ghost use Rattle.smi_meaning.specs.Legal.{IsLegal, IsPostOf, PostIsWithin, KeepsWhole};
ghost use Rattle.smi_audit.specs.Judges.{JudgeIsKept};

use crate::judge::Judge;
use crate::tracks::next_post_in;
use smi_interp::Post;
use smi_journal::{Entry, Format};
use sml_domain::{ObjId, same_values};

// The next post of a send that is begun, and whose it is.
#[derive(Clone, Copy)]
struct Begun<'a> {
    object: ObjId,
    post: &'a Post,
}

impl<'a> Begun<'a> {
    // Whether an entry is this post, with any verdict.
    fn is(&self, e: &Entry) -> bool
        ensures { IsTrue result ↔ IsPostOf self.now.object self.now.post.now e.now }
    {
        let post = self.post;
        match e {
            Entry::Post {
                sender,
                target,
                action,
                args,
                ..
            } => {
                sender.get() == self.object.get()
                    && target.get() == post.target.get()
                    && action.get() == post.action.get()
                    && same_values(args.values(), post.args.values())
            }
            _ => false,
        }
    }
}

impl Judge {
    // The send that has some of its posts in the journal and more to come. Only the object of the last entry can have
    // one.
    fn begun(&self) -> Option<Begun<'_>>
        requires kept { JudgeIsKept self.now }
        requires two { self.now.format ≡ Two }
        requires legal { IsLegal Two self.now.books.domain self.now.books.journal }
        ensures some { IfSome result
            (λ b. PostIsWithin self.now.books.domain self.now.books.journal b.object b.post.now) }
        ensures none { IfNone result ((o : ℕ) (p : items.Post)
            → ¬ PostIsWithin self.now.books.domain self.now.books.journal o p) }
    {
        let Some(object) = self.books.last() else {
            return None;
        };
        match next_post_in(&self.tracks, object) {
            Some(post) => Some(Begun { object, post }),
            None => None,
        }
    }

    // Whether an entry splits a send that is begun: it is not the next post of that. The first format knows no such
    // rule.
    pub(crate) fn splits(&self, e: &Entry) -> bool
        requires kept { JudgeIsKept self.now }
        requires legal { IsLegal self.now.format self.now.books.domain self.now.books.journal }
        ensures { MatchBool result
            (¬ KeepsWhole self.now.format self.now.books.domain self.now.books.journal e.now)
            (KeepsWhole self.now.format self.now.books.domain self.now.books.journal e.now) }
    {
        match self.format {
            Format::One => false,
            Format::Two => match self.begun() {
                Some(begun) => !begun.is(e),
                None => false,
            },
        }
    }
}
