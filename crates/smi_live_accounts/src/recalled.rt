//! What is known of requests that a log before had.
ghost use Rattle.std.specs.Prelude.{ℕ, List};
ghost use Rattle.sml_domain.specs.Domain.{Domain as Objects};
ghost use Rattle.smi_journal_entries.specs.declared.entry.Entry.{Entry as Entries};
ghost use Rattle.smi_live_once.specs.Carrying.{past_text};
ghost use Rattle.smi_request_fates.specs.Kept.{IsCame, watched_request};
ghost use Rattle.smi_live_accounts.specs.Accounts.{IsAnswerTo};

use smi_journal_entries::Sender;
use smi_request_fates::{Came, Stands, Watched};
use sml_domain::ObjId;

/// What is known of the last request of a name, which a log before had: its number, what became of it, and its object
/// with how that stood right after it; nothing of the two where the domain has no such object.
#[derive(Clone, Copy)]
pub struct Recalled<'a> {
    pub name: &'a [u8],
    pub number: u64,
    pub what: &'a [u8],
    pub place: Option<(ObjId, Stands)>,
}

// What is watched of a request that a log before had.
pub(crate) fn watched_at(place: Option<(ObjId, Stands)>) -> Watched
    ensures came { (d : Objects) (J : List Entries) → IsCame d J result }
    ensures told { (d : Objects) (what : List ℕ) → IsAnswerTo d (watched_request result) (past_text what) }
{
    // (nobody asks who sent it)
    let sender = Sender::Object(ObjId::new(0));
    match place {
        Some((object, stands)) => Watched {
            object,
            sender,
            number: 0,
            came: Came::Past(Some(stands)),
        },
        None => Watched {
            object: ObjId::new(0),
            sender,
            number: 0,
            came: Came::Past(None),
        },
    }
}
