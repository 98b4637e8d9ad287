//! What a follower says of a journal, as contracts of functions that do nothing.
ghost use Rattle.smi_audit_follower.specs.Growing.{StartIsFollowed, PostIsFollowed, SeenIsFollowed, NoneIsFollowed, InsertIsFollowed, RemoveIsFollowed, WaitIsFollowed, OthersAreFollowed};
ghost use Rattle.smi_audit_follower.specs.Laws.{ShownIsLegal, WaitIsLegal, EndIsLegal, EndsLeave};

/// What a follower of an open action may show is what may come next in the journal; and it ends as the
/// action may end there, with the parameters that the end leaves.
pub fn laws_of_following()
    ensures shown { ShownIsLegal }
    ensures wait { WaitIsLegal }
    ensures ends { EndIsLegal }
    ensures leaves { EndsLeave }
{}

/// A follower that begins where an action starts, and continues where something is shown, follows what runs
/// there; and what other objects do does not change it.
pub fn laws_of_growing()
    ensures start { StartIsFollowed }
    ensures post { PostIsFollowed }
    ensures seen { SeenIsFollowed }
    ensures none { NoneIsFollowed }
    ensures insert { InsertIsFollowed }
    ensures remove { RemoveIsFollowed }
    ensures wait { WaitIsFollowed }
    ensures others { OthersAreFollowed }
{}
