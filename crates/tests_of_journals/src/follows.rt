//! Actions of known domains, followed by hand.
ghost use Rattle.std.specs.Prelude.{◌≡◌, IfSome, IsTrue, is_some};
ghost use Rattle.std.specs.Arc.{arc_value};
ghost use Rattle.sml_domain.specs.Lookups.{block_at};
ghost use Rattle.smi_journal_entries.specs.Sets.{AreOf};
ghost use Rattle.smi_audit_follower.specs.Following.{MayTell};

use crate::beginnings::ready_of;
use crate::boards::envelope_by;
use crate::changed_members::{Change, declared, members_for};
use crate::rows::{Plain, are_objects, are_values, values_of};
use crate::shown::{ASKED, CONFIGURE, LISTED, Next, Opened, ROWS, SWITCHED, TWO_LISTS, Told};
use smi_audit_follower::{Ended, Expected, Follower};
use smi_interp::{ContactNames, Post, Ready, Wanted, objects_for, posts_for};
use smi_journal::{Format, Letter, Members, Reading, Verdict};
use sml_domain::{ActionId, Domain, ObjId, SetId, StateId, Target};
use sml_load::domain_of;
use std::alloc::Global;
use std::sync::Arc;
use std::test::*;

// The letter of the first session.
fn letter_of(alloc: Global, opened: &Opened) -> Option<Letter>
    ensures { IfSome result (λ l. l.action ≡ opened.now.action) }
{
    let action = ActionId::new(opened.action);
    Some(
        envelope_by(alloc, 1, action, opened.given)?
            .into_letters()
            .task,
    )
}

fn ready_for(alloc: Global, domain: &Arc<Domain>, opened: &Opened) -> Option<Ready>
    ensures block { IfSome result (λ r. IsTrue (is_some
        (block_at r.domain r.object opened.now.state opened.now.action))) }
    ensures domain { IfSome result (λ r. r.domain ≡ arc_value domain.now) }
{
    let shared = Arc::try_clone(domain).ok()?;
    let params = values_of(alloc, opened.params)?;
    let begins = (StateId::new(opened.state), ActionId::new(opened.action));
    ready_of(alloc, shared, ObjId::new(opened.object), begins, &params)
}

fn begun(alloc: Global, domain: &Arc<Domain>, format: Format, opened: &Opened) -> Option<Follower>
    ensures format { IfSome result (λ f. f.format ≡ format) }
    ensures domain { IfSome result (λ f. f.domain ≡ arc_value domain.now) }
{
    let letter = letter_of(alloc, opened)?;
    let members = declared(alloc, domain)?;
    let ready = ready_for(alloc, domain, opened)?;
    let state = StateId::new(opened.state);
    Follower::begin(format, members, ready, state, letter).ok()
}

fn readings_of(alloc: Global, objects: &[usize], states: &[usize]) -> Option<Vec<Reading>> {
    let mut readings = Vec::new(alloc);
    for (object, state) in objects.iter().zip(states.iter()) {
        readings
            .push(Reading {
                object: ObjId::new(*object),
                state: StateId::new(*state),
            })
            .ok()?;
    }
    Some(readings)
}

// The follower after what it is shown where sets have these members, or None if it may not continue so. Where nothing
// can be shown, it is dropped by a call, which is less to prove than on the spot.
fn goes_on(alloc: Global, members: &Members, follower: Follower, told: Told) -> Option<Follower>
    requires are { AreOf follower.domain members.now }
    requires tells { MayTell follower.format follower.domain members.now }
    ensures format { IfSome result (λ f. f.format ≡ follower.format) }
    ensures domain { IfSome result (λ f. f.domain ≡ follower.domain) }
{
    match told {
        Told::Post(target, action, args, verdict) => {
            let Some(values) = values_of(alloc, args) else {
                drop(follower);
                return None;
            };
            let target = ObjId::new(target);
            let action = ActionId::new(action);
            follower
                .post(alloc, members, target, action, &values, verdict)
                .ok()?
        }
        Told::Seen(objects, states) => {
            let Some(readings) = readings_of(alloc, objects, states) else {
                drop(follower);
                return None;
            };
            follower.seen(alloc, members, &readings).ok()?
        }
        Told::Nobody(set) => follower.none(alloc, members, SetId::new(set)).ok()?,
        Told::Others(_) => Some(follower),
    }
}

// The changes of sets by others up to here.
fn changes_in(told: &[Told]) -> &'static [Change] {
    let mut changes: &'static [Change] = &[];
    for item in told {
        if let Told::Others(next) = item {
            changes = *next;
        }
    }
    changes
}

// The follower after one item more, behind these.
fn goes_on_behind(
    alloc: Global,
    domain: &Domain,
    format: Format,
    before: &[Told],
    follower: Follower,
    told: Told,
) -> Option<Follower>
    requires format { follower.format ≡ format }
    requires domain { follower.domain ≡ domain.now }
    ensures format { IfSome result (λ f. f.format ≡ format) }
    ensures domain { IfSome result (λ f. f.domain ≡ domain.now) }
{
    match members_for(alloc, domain, format, changes_in(before)) {
        Some(members) => goes_on(alloc, &members, follower, told),
        None => {
            drop(follower);
            None
        }
    }
}

fn followed(
    alloc: Global,
    domain: &Arc<Domain>,
    format: Format,
    opened: &Opened,
    told: &[Told],
) -> Option<Follower> {
    let mut follower = begun(alloc, domain, format, opened)?;
    for (place, item) in told.iter().enumerate() {
        let before = &told[..place];
        follower = goes_on_behind(alloc, domain, format, before, follower, *item)?;
    }
    Some(follower)
}

fn is_post(post: &Post, target: usize, action: usize, args: &[Plain]) -> bool {
    post.target.get() == target
        && post.action.get() == action
        && are_values(post.args.values(), args)
}

fn is_next_post(post: &Post, next: Next) -> bool {
    match next {
        Next::Post(target, action, args) => is_post(post, target, action, args),
        _ => false,
    }
}

// Whether a request goes to the members of a set.
fn is_to_set(target: &Target, number: usize) -> bool {
    match target {
        Target::One(_) => false,
        Target::Members(set) => set.get() == number,
    }
}

// Whether the next `do` is to nobody.
fn is_to_nobody(target: &Target, next: Next) -> bool {
    match next {
        Next::Nobody(number) => is_to_set(target, number),
        _ => false,
    }
}

// Whether posts begin with the one that comes next, or there are no posts and no post comes next.
fn is_next_send(posts: &[Post], target: &Target, next: Next) -> bool {
    match posts.first() {
        Some(post) => is_next_post(post, next),
        None => is_to_nobody(target, next),
    }
}

// Whether a `do` comes next, where sets have these members.
fn sends_next(
    alloc: Global,
    domain: &Domain,
    members: &Members,
    wanted: &Wanted,
    next: Next,
) -> bool {
    match posts_for(alloc, domain, members, wanted) {
        Ok(posts) => is_next_send(&posts, &wanted.target, next),
        Err(_) => false,
    }
}

fn are_next_objects(
    alloc: Global,
    domain: &Domain,
    members: &Members,
    names: &ContactNames,
    next: Next,
) -> bool
    requires { AreOf domain.now members.now }
{
    match (next, objects_for(alloc, domain, members, names)) {
        (Next::Read(numbers), Ok(objects)) => are_objects(&objects, numbers),
        _ => false,
    }
}

fn is_next_state(state: StateId, next: Next) -> bool {
    match next {
        Next::End(number, _) => state.get() == number,
        _ => false,
    }
}

// Whether the follower expects what a row says, where sets have these members.
fn expects(
    alloc: Global,
    domain: &Domain,
    members: &Members,
    follower: &Follower,
    next: Next,
) -> bool
    requires { AreOf domain.now members.now }
{
    let reads = follower.reads().is_some();
    match follower.expected() {
        Expected::Post(post) => !reads && is_next_post(post, next),
        Expected::Send(wanted) => !reads && sends_next(alloc, domain, members, wanted, next),
        Expected::Read(names) => reads && are_next_objects(alloc, domain, members, names, next),
        Expected::Change { .. } => false,
        Expected::End(state) => !reads && is_next_state(state, next),
    }
}

// The same behind these items.
fn expects_behind(
    alloc: Global,
    domain: &Domain,
    format: Format,
    told: &[Told],
    follower: &Follower,
    next: Next,
) -> bool {
    match members_for(alloc, domain, format, changes_in(told)) {
        Some(members) => expects(alloc, domain, &members, follower, next),
        None => false,
    }
}

fn is_ended(ended: &Ended, next: Next) -> bool {
    match next {
        Next::End(state, params) => ended.state.get() == state && are_values(&ended.params, params),
        _ => false,
    }
}

// Whether the follower ends so, or does not end.
fn ends(follower: Follower, next: Next) -> bool {
    match follower.end() {
        Some(ended) => is_ended(&ended, next),
        None => !matches!(next, Next::End(_, _)),
    }
}

fn is_followed(alloc: Global, format: Format, opened: &Opened, told: &[Told], next: Next) -> bool {
    let Ok(domain) = domain_of(alloc, opened.text) else {
        return false;
    };
    match followed(alloc, &domain, format, opened, told) {
        Some(follower) => {
            let expected = expects_behind(alloc, &domain, format, told, &follower, next);
            ends(follower, next) && expected
        }
        None => matches!(next, Next::Nothing),
    }
}

#[test]
fn follows_what_journals_show(rt: HostRuntime) {
    let alloc = rt.alloc();
    for (name, opened, told, next) in ROWS {
        for format in [Format::One, Format::Two] {
            assert!(rt; is_followed(alloc, format, opened, told, *next), "{name}");
        }
    }
}

// Whether what follows the posts to two lists is this.
fn is_listed(alloc: Global, format: Format, told: &[Told], next: Next) -> bool {
    let mut items = Vec::new(alloc);
    if items.extend_from_slice(ASKED).is_err() || items.extend_from_slice(told).is_err() {
        return false;
    }
    is_followed(alloc, format, &TWO_LISTS, &items, next)
}

#[test]
fn only_the_second_format_shows_what_is_sent_to_nobody(rt: HostRuntime) {
    for (name, format, told, next) in LISTED {
        assert!(rt; is_listed(rt.alloc(), *format, told, *next), "{name}");
    }
}

#[test]
fn goes_by_the_members_that_sets_have(rt: HostRuntime) {
    let alloc = rt.alloc();
    for (name, told, next) in SWITCHED {
        assert!(rt;
            is_followed(alloc, Format::Two, &CONFIGURE, told, *next),
            "{name}"
        );
    }
}
