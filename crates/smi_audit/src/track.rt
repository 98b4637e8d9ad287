//! Tracks: what is kept of an object while a journal is judged, beside its books.
ghost use Rattle.std.specs.Prelude.{◌≡◌, ◌<◌, ℕ, [], IfOk, IfSome, IfNone, None, OnOk, length, map, option_map, replicate, slice_get};
ghost use Rattle.std.specs.Arc.{arc_value};
ghost use Rattle.std.specs.List.{filter_map};
ghost use Rattle.smi_journal_entries.specs.Sets.{AreOf, unchanged};
ghost use Rattle.smi_journal_entries.specs.Words.{HadNone, Saw, Sent, Turned};
ghost use Rattle.smi_meaning.specs.Params.{first_value};
ghost use Rattle.smi_audit.specs.Pasts.{TrackShows, TrackWaitsAt};
ghost use Rattle.smi_audit.specs.Splitting.{IsNextPost, post_expected};
ghost use Rattle.smi_audit.specs.Tracks as says;

use crate::calls::{Call, Calls};
use smi_audit_follower::{Expected, Follower, laws_of_following};
use smi_interp::{ContactNames, Place, Post, Ready};
use smi_journal::{Args, Format, Letter, Members, Reading, Verdict};
use sml_domain::{ActionId, Domain, ObjId, Param, SetId, StateId, Value};
use std::alloc::{AllocError, Global};
use std::marker::Model;
use std::sync::Arc;

/// What is kept of an object: its parameters, the follower of what runs there, and for each object what
/// it asked of it.
#[derive(Drop)]
pub(crate) struct Track {
    params: Vec<Value>,
    follower: Option<Follower>,
    calls: Vec<Calls>,
}

impl Model for Track {
    ghost use Rattle.std.specs.Coded.{codes};
    ghost use Rattle.sml_domain.specs.Codes.{formula_code};
    ghost use Rattle.smi_audit.specs.Views.{TrackView};

    ghost Value = { TrackView };

    ghost coded = { Prim.hlevel (codes, formula_code) };

    ghost view = { λ t. record {
      params = t.params.items;
      follower = t.follower;
      calls = t.calls.items;
    } };
}

// The values with which parameters begin.
fn first_values(alloc: Global, params: &[Param]) -> Result<Vec<Value>, AllocError>
    ensures { IfOk result (λ values. values.items ≡ filter_map first_value params.now) }
{
    let mut values = Vec::new(alloc);
    for param in params {
        if let Some(value) = &param.value {
            values.push(value.share()?)?;
        }
    }
    Ok(values)
}

// Nothing was asked of any of `objects` objects.
fn no_calls(alloc: Global, objects: usize) -> Result<Vec<Calls>, AllocError>
    ensures { IfOk result (λ calls. calls.items ≡ replicate objects []) }
{
    let mut calls = Vec::with_capacity(alloc, objects)?;
    for _ in 0..objects {
        calls.push_reserved(Calls::new(alloc));
    }
    Ok(calls)
}

// Notes a post, if it was accepted.
fn note(
    calls: &mut Vec<Calls>,
    target: ObjId,
    verdict: &Verdict,
    action: ActionId,
    args: &Args,
) -> Result<(), AllocError>
    requires { target < length calls.old.items }
    ensures { OnOk result (calls.new.items ≡ says.calls_with calls.old.items target verdict.now
        (record { action = action; args = args.now })) }
{
    match verdict {
        Verdict::Accepted(_) => {
            let args = args.share()?;
            calls[target.get()].add(Call { action, args })
        }
        Verdict::Full | Verdict::Dead => Ok(()),
    }
}

// The post that is expected, if it is one of a send that is begun.
fn post_of<'a>(expected: &Expected<'a>) -> Option<&'a Post>
    ensures { option_map (λ p. p.now) result ≡ post_expected expected.now }
{
    match expected {
        Expected::Post(post) => Some(post),
        _ => None,
    }
}

impl Track {
    // The track of an object with these parameters, one of `objects` objects, before its first entry.
    pub(crate) fn new(alloc: Global, params: &[Param], objects: usize) -> Result<Track, AllocError>
        ensures { IfOk result (λ t. t ≡ says.first_track params.now objects) }
    {
        Ok(Track {
            params: first_values(alloc, params)?,
            follower: None,
            calls: no_calls(alloc, objects)?,
        })
    }

    // The call of a number to an object.
    pub(crate) fn call(&self, target: ObjId, number: u64) -> Option<&Call>
        requires { target < length self.now.calls }
        ensures { option_map (λ c. c.now) result ≡ slice_get (says.calls_to self.now.calls target) number }
    {
        self.calls[target.get()].get(number)
    }

    // The parameters of the object.
    pub(crate) fn params(&self) -> &[Value]
        ensures { result.now ≡ self.now.params }
    {
        &self.params
    }

    // The objects that what runs reads next, by their names.
    pub(crate) fn reads(&self) -> Option<&ContactNames>
        ensures some { IfSome result (λ names. says.TrackReadsNext self.now.follower names.now) }
        ensures none { IfNone result (says.CannotRead self.now.follower) }
    {
        match &self.follower {
            Some(follower) => follower.reads(),
            None => None,
        }
    }

    // What it shows next, if something runs.
    pub(crate) fn next(&self) -> Option<Expected<'_>>
        ensures some { IfSome result (TrackShows self.now.follower) }
        ensures none { IfNone result (self.now.follower ≡ None) }
    {
        match &self.follower {
            Some(follower) => Some(follower.expected()),
            None => None,
        }
    }

    // The place of the instruction by which it shows that, if something runs.
    pub(crate) fn place(&self) -> Option<Place>
        ensures some { IfSome result (TrackWaitsAt self.now.follower) }
        ensures none { IfNone result (self.now.follower ≡ None) }
    {
        match &self.follower {
            Some(follower) => Some(follower.place()),
            None => None,
        }
    }

    // The next post of a send that is begun, if what runs is within one.
    pub(crate) fn next_post(&self) -> Option<&Post>
        ensures { IsNextPost self.now.follower (option_map (λ p. p.now) result) }
    {
        laws_of_following();
        match self.next() {
            Some(expected) => post_of(&expected),
            None => None,
        }
    }

    // Follows the action of a letter, if the state declares it.
    pub(crate) fn start(
        &mut self,
        alloc: Global,
        format: Format,
        declared: &Members,
        domain: &Arc<Domain>,
        o: ObjId,
        state: StateId,
        letter: Letter,
    ) -> Result<(), AllocError>
        requires declared { declared.now ≡ unchanged (arc_value domain.now) }
        requires are { AreOf (arc_value domain.now) declared.now }
        ensures { OnOk result (self.new ≡ record self.old {
          follower = says.begins_in format (arc_value domain.now) o state letter self.old.params;
        }) }
    {
        if !domain.declares(o, state, letter.action) {
            self.follower = None;
            return Ok(());
        }
        let ready = Ready::new(alloc, Arc::try_clone(domain)?, o, &self.params)?;
        let declared = declared.share()?;
        let follower = Follower::begin(format, declared, ready, state, letter)?;
        self.follower = Some(follower);
        Ok(())
    }

    // Continues with a post, if what runs may make it next where sets have these members.
    pub(crate) fn post(
        &mut self,
        alloc: Global,
        members: &Members,
        target: ObjId,
        verdict: &Verdict,
        action: ActionId,
        args: &Args,
    ) -> Result<bool, AllocError>
        requires told { says.MayBeTold members.now self.old.follower }
        requires target { target < length self.old.calls }
        ensures { IfOk result (says.Shows self.old self.new (Sent members.now target verdict.now action args.now)
            (says.calls_with self.old.calls target verdict.now (record { action = action; args = args.now }))) }
    {
        let Some(follower) = self.follower.take() else {
            return Ok(false);
        };
        let Some(next) = follower.post(alloc, members, target, action, args.values(), *verdict)?
        else {
            return Ok(false);
        };
        self.follower = Some(next);
        note(&mut self.calls, target, verdict, action, args)?;
        Ok(true)
    }

    // Continues with a set that has no member to send to, if what runs may send to it next where sets have these
    // members.
    pub(crate) fn none(
        &mut self,
        alloc: Global,
        members: &Members,
        set: SetId,
    ) -> Result<bool, AllocError>
        requires { says.MayBeTold members.now self.old.follower }
        ensures { IfOk result (says.Shows self.old self.new (HadNone members.now set) self.old.calls) }
    {
        let Some(follower) = self.follower.take() else {
            return Ok(false);
        };
        let Some(next) = follower.none(alloc, members, set)? else {
            return Ok(false);
        };
        self.follower = Some(next);
        Ok(true)
    }

    // Continues with a change of a set, if what runs may make it next.
    pub(crate) fn turn(&mut self, add: bool, member: ObjId, set: SetId) -> Result<bool, AllocError>
        ensures { IfOk result (says.Shows self.old self.new (Turned add member set) self.old.calls) }
    {
        let Some(follower) = self.follower.take() else {
            return Ok(false);
        };
        let Some(next) = follower.changed(add, member, set)? else {
            return Ok(false);
        };
        self.follower = Some(next);
        Ok(true)
    }

    // Continues with what was read, if what runs may read it next where sets have these members.
    pub(crate) fn see(
        &mut self,
        alloc: Global,
        members: &Members,
        readings: &[Reading],
    ) -> Result<bool, AllocError>
        requires { says.MayBeTold members.now self.old.follower }
        ensures { IfOk result (says.Shows self.old self.new
            (Saw (record { sets = members.now; readings = readings.now })) self.old.calls) }
    {
        let Some(follower) = self.follower.take() else {
            return Ok(false);
        };
        let Some(next) = follower.seen(alloc, members, readings)? else {
            return Ok(false);
        };
        self.follower = Some(next);
        Ok(true)
    }

    // Ends what runs, if it may end now, and returns its state. The parameters are those that it leaves.
    pub(crate) fn end(&mut self) -> Option<StateId>
        ensures { says.TrackEnds self.old self.new result }
    {
        let Some(follower) = self.follower.take() else {
            return None;
        };
        let Some(ended) = follower.end() else {
            return None;
        };
        self.params = ended.params;
        Some(ended.state)
    }

    // Follows nothing more.
    pub(crate) fn cut(&mut self)
        ensures { self.new ≡ record self.old { follower = None } }
    {
        self.follower = None;
    }
}
