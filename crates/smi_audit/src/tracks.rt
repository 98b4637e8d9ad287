//! The tracks of all objects, each at its object's place.
ghost use Rattle.std.specs.Prelude.{◌≡◌, ◌<◌, IfNone, IfOk, IfSome, None, OnOk, length, option_map, slice_set};
ghost use Rattle.std.specs.Arc.{arc_value};
ghost use Rattle.smi_journal_entries.specs.Sets.{AreOf, unchanged};
ghost use Rattle.smi_journal_entries.specs.Words.{HadNone, Saw, Sent, Turned};
ghost use Rattle.smi_audit.specs.Splitting.{IsNextPost};
ghost use Rattle.smi_audit.specs.Tracks as says;

use crate::track::Track;
use smi_interp::{ContactNames, Post};
use smi_journal::{Args, Format, Letter, Members, Reading, Verdict};
use sml_domain::{ActionId, Domain, ObjId, SetId, StateId};
use std::alloc::{AllocError, Global};
use std::sync::Arc;

// The objects that what runs at an object reads next, by their names.
pub(crate) fn reads_in(tracks: &[Track], o: ObjId) -> Option<&ContactNames>
    requires { o < length tracks.now }
    ensures some { IfSome result (λ names. says.TrackReadsNext (says.track_at tracks.now o).follower names.now) }
    ensures none { IfNone result (says.CannotRead (says.track_at tracks.now o).follower) }
{
    tracks[o.get()].reads()
}

// The next post of a send that is begun, if what runs at an object is within one.
pub(crate) fn next_post_in(tracks: &[Track], o: ObjId) -> Option<&Post>
    requires { o < length tracks.now }
    ensures { IsNextPost (says.track_at tracks.now o).follower (option_map (λ p. p.now) result) }
{
    tracks[o.get()].next_post()
}

// Follows the action of a letter at an object, if the state declares it.
pub(crate) fn start_in(
    tracks: &mut Vec<Track>,
    alloc: Global,
    format: Format,
    declared: &Members,
    domain: &Arc<Domain>,
    o: ObjId,
    state: StateId,
    letter: Letter,
) -> Result<(), AllocError>
    requires within { o < length tracks.old.items }
    requires declared { declared.now ≡ unchanged (arc_value domain.now) }
    requires are { AreOf (arc_value domain.now) declared.now }
    ensures { OnOk result (tracks.new.items ≡ slice_set tracks.old.items o
        (record (says.track_at tracks.old.items o) {
          follower = says.begins_in format (arc_value domain.now) o state letter
              (says.track_at tracks.old.items o).params;
        })) }
{
    tracks[o.get()].start(alloc, format, declared, domain, o, state, letter)
}

// Continues with a post of an object, if what runs there may make it next where sets have these members.
pub(crate) fn post_in(
    tracks: &mut Vec<Track>,
    alloc: Global,
    members: &Members,
    o: ObjId,
    target: ObjId,
    verdict: &Verdict,
    action: ActionId,
    args: &Args,
) -> Result<bool, AllocError>
    requires within { o < length tracks.old.items }
    requires told { says.MayBeTold members.now (says.track_at tracks.old.items o).follower }
    requires target { target < length (says.track_at tracks.old.items o).calls }
    ensures shows { IfOk result (says.Shows (says.track_at tracks.old.items o) (says.track_at tracks.new.items o)
        (Sent members.now target verdict.now action args.now)
        (says.calls_with (says.track_at tracks.old.items o).calls target verdict.now
        (record { action = action; args = args.now }))) }
    ensures written { tracks.new.items ≡ slice_set tracks.old.items o (says.track_at tracks.new.items o) }
{
    tracks[o.get()].post(alloc, members, target, verdict, action, args)
}

// Continues with a set without members, if what runs at an object may send to it next where sets have these members.
pub(crate) fn none_in(
    tracks: &mut Vec<Track>,
    alloc: Global,
    members: &Members,
    o: ObjId,
    set: SetId,
) -> Result<bool, AllocError>
    requires within { o < length tracks.old.items }
    requires told { says.MayBeTold members.now (says.track_at tracks.old.items o).follower }
    ensures shows { IfOk result (says.Shows (says.track_at tracks.old.items o) (says.track_at tracks.new.items o)
        (HadNone members.now set) (says.track_at tracks.old.items o).calls) }
    ensures written { tracks.new.items ≡ slice_set tracks.old.items o (says.track_at tracks.new.items o) }
{
    tracks[o.get()].none(alloc, members, set)
}

// Continues with a change of a set, if what runs at an object may make it next.
pub(crate) fn turn_in(
    tracks: &mut Vec<Track>,
    o: ObjId,
    add: bool,
    member: ObjId,
    set: SetId,
) -> Result<bool, AllocError>
    requires { o < length tracks.old.items }
    ensures shows { IfOk result (says.Shows (says.track_at tracks.old.items o) (says.track_at tracks.new.items o)
        (Turned add member set) (says.track_at tracks.old.items o).calls) }
    ensures written { tracks.new.items ≡ slice_set tracks.old.items o (says.track_at tracks.new.items o) }
{
    tracks[o.get()].turn(add, member, set)
}

// Continues with what an object read, if what runs there may read it next where sets have these members.
pub(crate) fn see_in(
    tracks: &mut Vec<Track>,
    alloc: Global,
    members: &Members,
    o: ObjId,
    readings: &[Reading],
) -> Result<bool, AllocError>
    requires within { o < length tracks.old.items }
    requires told { says.MayBeTold members.now (says.track_at tracks.old.items o).follower }
    ensures shows { IfOk result (says.Shows (says.track_at tracks.old.items o) (says.track_at tracks.new.items o)
        (Saw (record { sets = members.now; readings = readings.now })) (says.track_at tracks.old.items o).calls) }
    ensures written { tracks.new.items ≡ slice_set tracks.old.items o (says.track_at tracks.new.items o) }
{
    tracks[o.get()].see(alloc, members, readings)
}

// Ends what runs at an object, if it may end now, and returns its state.
pub(crate) fn end_in(tracks: &mut Vec<Track>, o: ObjId) -> Option<StateId>
    requires { o < length tracks.old.items }
    ensures ends { says.TrackEnds (says.track_at tracks.old.items o) (says.track_at tracks.new.items o) result }
    ensures written { tracks.new.items ≡ slice_set tracks.old.items o (says.track_at tracks.new.items o) }
{
    tracks[o.get()].end()
}

// Follows nothing more of an object.
pub(crate) fn cut_in(tracks: &mut Vec<Track>, o: ObjId)
    requires { o < length tracks.old.items }
    ensures { tracks.new.items ≡ slice_set tracks.old.items o
        (record (says.track_at tracks.old.items o) { follower = None }) }
{
    tracks[o.get()].cut();
}
