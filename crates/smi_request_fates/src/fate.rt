//! What became of a request.
ghost use Rattle.std.specs.Prelude.{◌≡◌};
ghost use Rattle.smi_request_fates.specs.Fates.{ended_by, fate_by_kill};

use sml_domain::StateId;

/// How an object stands: its state, and how often it ended other than skipped, or was killed.
#[derive(Clone, Copy, Eq, PartialEq)]
pub struct Stands {
    pub state: StateId,
    pub ended: u64,
}

/// What became of a request by the entries of a journal. The last three are last ones, with how its object stood right
/// after the entry that ended it.
#[derive(Clone, Copy, Eq, PartialEq)]
pub enum Fate {
    /// It was not started.
    Waits,
    /// Its action is open.
    Open,
    /// Its action ended in a state.
    Ended(Stands),
    /// Its action was skipped.
    Skipped(Stands),
    /// Its object was killed before it ended.
    Killed(Stands),
}

/// What became of a request that was asked for.
#[derive(Clone, Copy, Eq, PartialEq)]
pub enum Came {
    /// It was accepted, and this is its fate.
    Accepted(Fate),
    /// It was refused, when its object stood so; nothing where the domain has no such object.
    Refused(Option<Stands>),
    /// A log before had it, and its object stood so then; nothing where the domain has no such object.
    Past(Option<Stands>),
}

impl Fate {
    // The fate after an end of this kind.
    pub(crate) fn ended(self, so: Fate) -> Fate
        ensures { result ≡ ended_by so self }
    {
        match self {
            Fate::Open => so,
            _ => self,
        }
    }

    // The fate after a kill, where the object stands so.
    pub(crate) fn killed(self, at: Stands) -> Fate
        ensures { result ≡ fate_by_kill at self }
    {
        match self {
            Fate::Waits | Fate::Open => Fate::Killed(at),
            _ => self,
        }
    }
}
