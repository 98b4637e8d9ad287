//! Followers of open actions.
ghost use Rattle.std.specs.Prelude.{◌≡◌, ◌↔◌, IfOk, IsTrue, Some, length, map, option_map, slice_get};
ghost use Rattle.sml_domain.specs.Trees.{target as target_tree};
ghost use Rattle.smi_journal_entries.specs.Sets.{AreOf};
ghost use Rattle.smi_meaning.specs.Conditions.{object_read};
ghost use Rattle.smi_audit_follower.specs.Followers as followers;
ghost use Rattle.smi_audit_follower.specs.Followers.{IsUnder, names_asked, objects_asked, posts_asked, set_asked};
ghost use Rattle.smi_interp.specs.declared.contact.Contact.TheVariants as contact;
ghost use Rattle.smi_meaning.specs.Meaning.{state_left};
ghost use Rattle.smi_interp.specs.Task.{outcome_of};
ghost use Rattle.smi_audit_follower.specs.Passing.{end_of};

use crate::matching::{are_of, is_post, states_of};
use crate::passing::settle;
use smi_interp::{Contact, ContactNames, Place, Post, Ready, Task, Wanted, objects_for, posts_for};
use smi_journal_entries::{Format, Letter, Members, Reading, Verdict};
use sml_domain::{ActionId, ObjId, SetId, StateId, Target, Value};
use std::alloc::{AllocError, Global};
use std::marker::Model;

/// How an action ended: the state of its object and the parameters of this, in the order of the class's
/// list.
#[derive(Drop)]
pub struct Ended {
    pub state: StateId,
    pub params: Vec<Value>,
}

/// What an action shows next.
#[derive(Clone, Copy)]
pub enum Expected<'a> {
    /// It posts this request, with any verdict: the `do` is begun whose post this is.
    Post(&'a Post),
    /// It sends this; if it goes to a set, to those that are the set's members by then.
    Send(&'a Wanted),
    /// It reads the objects that these names stand for by then, in any states.
    Read(&'a ContactNames),
    /// It puts the object into the set, or takes it out.
    Change {
        add: bool,
        member: ObjId,
        set: SetId,
    },
    /// It ends in this state.
    End(StateId),
}

// The posts of a `do` that is begun, the members by which they were found, and the verdicts on the first of them.
#[derive(Drop)]
struct Begun {
    posts: Vec<Post>,
    members: Members,
    verdicts: Vec<Verdict>,
}

/// An open action that is followed from one thing that it shows to the next, as a journal of a format has them.
///
/// A follower asks nobody. Its caller passes what was posted, read and changed, and the members that sets have, and the
/// follower says whether the action may continue so. The cost is that of the action from one such thing to the next,
/// and does not depend on what came before.
#[derive(Drop)]
pub struct Follower {
    format: Format,
    // The action. Its contact waits, which shows something or is the end.
    task: Task,
    // The declared members of sets.
    declared: Members,
    // The `do` that waits, from its first post to its last.
    begun: Option<Begun>,
}

impl Model for Follower {
    ghost use Rattle.std.specs.Coded.{codes};
    ghost use Rattle.sml_domain.specs.Codes.{formula_code};
    ghost use Rattle.smi_audit_follower.specs.Following.{FollowerView};
    ghost use Rattle.smi_audit_follower.specs.Followers.{IsInStep, seen_by};

    ghost Value = { FollowerView };

    ghost coded = { Prim.hlevel (codes, formula_code) };

    ghost view = { λ f. seen_by f.format f.task f.begun };

    ghost invariant = { λ f. IsInStep f.format f.task f.declared f.begun };
}

// The first post that has no verdict.
fn wanted<'a>(posts: &'a [Post], verdicts: &[Verdict]) -> Option<&'a Post>
    ensures { option_map (λ p. p.now) result ≡ slice_get posts.now (length verdicts.now) }
{
    posts.get(verdicts.len())
}

// Whether the first post that has no verdict is this request.
fn is_wanted(
    posts: &[Post],
    verdicts: &[Verdict],
    target: ObjId,
    action: ActionId,
    args: &[Value],
) -> bool
    ensures { IsTrue result ↔ (slice_get posts.now (length verdicts.now)
        ≡ Some (record { target = target; action = action; args = args.now })) }
{
    match wanted(posts, verdicts) {
        Some(post) => is_post(post, target, action, args),
        None => false,
    }
}

// The posts of the `do` that waits, where sets have these members, or None if no `do` waits.
fn posts_wanted(
    alloc: Global,
    task: &Task,
    members: &Members,
) -> Result<Option<Vec<Post>>, AllocError>
    ensures { IfOk result (λ o. option_map (λ ps. ps.items) o
        ≡ posts_asked task.now.domain members.now task.now.pending) }
{
    match task.pending() {
        Some(Contact::Send(wanted)) => {
            let posts = posts_for(alloc, task.domain(), members, wanted)?;
            Ok(Some(posts))
        }
        _ => Ok(None),
    }
}

// The set to which nothing is posted.
fn set_without(target: &Target, posts: &[Post]) -> Option<SetId>
    ensures { result ≡ followers.set_without (target_tree target.now) posts.now }
{
    match target {
        Target::One(_) => None,
        Target::Members(set) => {
            match posts {
                [] => Some(*set),
                _ => None,
            }
        }
    }
}

// The set to which the `do` that waits posts nothing, where sets have these members.
fn set_wanted(alloc: Global, task: &Task, members: &Members) -> Result<Option<SetId>, AllocError>
    ensures { IfOk result (λ o. o ≡ set_asked task.now.domain members.now task.now.pending) }
{
    match task.pending() {
        Some(Contact::Send(wanted)) => {
            let posts = posts_for(alloc, task.domain(), members, wanted)?;
            Ok(set_without(&wanted.target, &posts))
        }
        _ => Ok(None),
    }
}

// Whether this is the set.
fn is_without(found: Option<SetId>, set: SetId) -> bool
    ensures { IsTrue result ↔ (found ≡ Some set) }
{
    match found {
        Some(other) => other.get() == set.get(),
        None => false,
    }
}

// The `do` that continues where sets have these members: the one that was begun by these, or if no `do` was begun, the
// one that waits. None if one was begun by other members.
fn under(
    alloc: Global,
    task: &Task,
    members: &Members,
    begun: Option<Begun>,
) -> Result<Option<Begun>, AllocError>
    ensures { IfOk result (IsUnder task.now.domain members.now task.now.pending begun) }
{
    if let Some(begun) = begun {
        if begun.members.is(members) {
            return Ok(Some(begun));
        }
        return Ok(None);
    }
    match posts_wanted(alloc, task, members)? {
        Some(posts) => {
            let members = members.share()?;
            Ok(Some(Begun {
                posts,
                members,
                verdicts: Vec::new(alloc),
            }))
        }
        None => Ok(None),
    }
}

// Whether this change of a set waits.
fn is_change(pending: Option<&Contact>, add: bool, member: ObjId, set: SetId) -> bool
    ensures { IsTrue result ↔ (option_map (λ c. c.now) pending.entry ≡ Some (contact.Change add member set)) }
{
    match pending {
        Some(
            Contact::Change {
                add: is_added,
                member: object,
                set: changed,
            },
        ) => { *is_added == add && object.get() == member.get() && changed.get() == set.get() }
        _ => false,
    }
}

// The names that wait to be read, if some do.
fn names_read<'a>(pending: Option<&'a Contact>) -> Option<&'a ContactNames>
    ensures { option_map (λ n. n.now) result ≡ names_asked (option_map (λ c. c.now) pending.entry) }
{
    match pending {
        Some(Contact::Read(names)) => Some(names),
        _ => None,
    }
}

// The objects that wait to be read where sets have these members, or None if nothing is read.
fn objects_read(
    alloc: Global,
    task: &Task,
    members: &Members,
) -> Result<Option<Vec<ObjId>>, AllocError>
    requires { AreOf task.now.domain members.now }
    ensures { IfOk result (λ o. option_map (λ os. os.items) o
        ≡ objects_asked task.now.domain members.now task.now.pending) }
{
    match task.pending() {
        Some(Contact::Read(names)) => {
            let objects = objects_for(alloc, task.domain(), members, names)?;
            Ok(Some(objects))
        }
        _ => Ok(None),
    }
}

// Whether these are the objects of readings, in this order.
fn reads_those(objects: &Option<Vec<ObjId>>, readings: &[Reading]) -> bool
    ensures { IsTrue result ↔ (option_map (λ os. os.items) objects.now ≡ Some (map object_read readings.now)) }
{
    match objects {
        Some(objects) => are_of(readings, objects),
        None => false,
    }
}

// The state after an action that ends so, where it was in a state before.
fn state_after(was: StateId, end: Option<StateId>) -> StateId
    ensures { result ≡ state_left was (outcome_of end) }
{
    match end {
        Some(state) => state,
        None => was,
    }
}

// The state in which an action ends that was in a state before, if its end waits.
fn end_state(pending: Option<&Contact>, was: StateId) -> Option<StateId>
    ensures { result ≡ end_of was (option_map (λ c. c.now) pending.entry) }
{
    match pending {
        Some(Contact::End(end)) => Some(state_after(was, *end)),
        _ => None,
    }
}

impl Follower {
    ghost use Rattle.std.specs.Prelude.{◌≡◌, IfNone, IfOk, IfSome, IsTrue, List, None, is_some};
    ghost use Rattle.sml_domain.specs.Truth as truth;
    ghost use Rattle.smi_meaning.specs.Shown.{ToRead};
    ghost use Rattle.smi_interp.specs.Expanded.{objects_by_names};
    ghost use Rattle.sml_domain.specs.Lookups.{block_at};
    ghost use Rattle.smi_journal_entries.specs.Sets.{AreOf, Sets, unchanged};
    ghost use Rattle.std.specs.Prelude.{[], ◌∷◌, ◌++◌};
    ghost use Rattle.smi_journal_entries.specs.Words.{HadNone, Saw, Sent, Turned};
    ghost use Rattle.smi_audit_follower.specs.Expecting.{FollowerEnds, IsExpected, WaitsAt};
    ghost use Rattle.smi_audit_follower.specs.Followers.{IsOpen, IsInStep};
    ghost use Rattle.smi_audit_follower.specs.Following.{AreTellable, Asks, FollowerGoesOn, MayShow, MayTell, followed, seen_of};
    ghost use Rattle.smi_audit_follower.specs.Passing.{fresh_of};

    /// Follows an action from its beginning: that of a letter, which the object's class declares in a
    /// state. An error means out of memory. The cost is that of the moves that show nothing at the
    /// beginning of its block.
    pub fn begin(
        format: Format,
        declared: Members,
        ready: Ready,
        state: StateId,
        letter: Letter,
    ) -> Result<Follower, AllocError>
        requires block { IsTrue (is_some (block_at ready.domain ready.object state letter.action)) }
        requires declared { declared ≡ unchanged ready.domain }
        requires are { AreOf ready.domain declared }
        ensures { IfOk result (λ f. f ≡ followed format ready.domain ready.object state letter ready.params) }
    {
        Follower::settled(format, declared, ready.begin_letter(state, letter))
    }

    // Follows a task that continues.
    fn settled(format: Format, declared: Members, task: Task) -> Result<Follower, AllocError>
        requires idle { task.pending ≡ None }
        requires told { AreTellable format task.domain task.turn.moves }
        requires declared { declared ≡ unchanged task.domain }
        requires are { AreOf task.domain declared }
        ensures { IfOk result (λ f. f ≡ fresh_of format task) }
    {
        let mut task = task;
        settle(format, &declared, &mut task)?;
        Ok(Follower {
            format,
            task,
            declared,
            begun: None,
        })
    }

    // Continues with a verdict on the next post of a `do`.
    fn judged(
        format: Format,
        declared: Members,
        task: Task,
        sending: Begun,
        verdict: Verdict,
    ) -> Result<Follower, AllocError>
        requires sound { IsInStep format task declared None }
        requires opened { IsOpen format task sending }
        ensures { IfOk result (λ f. f ≡ seen_of format task sending.members sending.posts.items
            (sending.verdicts.items ++ verdict ∷ [])) }
    {
        let Begun {
            posts,
            members,
            verdicts,
        } = sending;
        let mut verdicts = verdicts;
        verdicts.push(verdict)?;
        if verdicts.len() < posts.len() {
            return Ok(Follower {
                format,
                task,
                declared,
                begun: Some(Begun {
                    posts,
                    members,
                    verdicts,
                }),
            });
        }
        let mut task = task;
        task.sent(&verdicts, members);
        let next = Follower::settled(format, declared, task)?;
        Ok(next)
    }

    /// What the action shows next, for people to read: it may show that and nothing else. The cost is
    /// constant.
    pub fn expected(&self) -> Expected<'_>
        ensures { IsExpected self.now result }
    {
        // What a task waits for comes next.
        let _waits = self.task.pending();
        if let Some(begun) = &self.begun {
            return Expected::Post(&begun.posts[begun.verdicts.len()]);
        }
        match self.task.pending() {
            Some(Contact::Send(wanted)) => Expected::Send(wanted),
            Some(Contact::Read(names)) => Expected::Read(names),
            Some(Contact::Change { add, member, set }) => Expected::Change {
                add: *add,
                member: *member,
                set: *set,
            },
            Some(Contact::End(end)) => Expected::End(state_after(self.task.turn().state, *end)),
            Some(Contact::Local { .. }) | None => unreachable!(),
        }
    }

    /// The place of the instruction by which the action shows that, or ends: for people to find it in the text. The
    /// cost is constant.
    pub fn place(&self) -> Place
        ensures { WaitsAt self.now result }
    {
        self.task.place()
    }

    /// Continues with a post, where sets have these members, or returns None if the action may not post this request
    /// next. An error means out of memory. The cost is that of the arguments; for the first post of a `do` also that of
    /// the posts, and for a later one that of the members of all sets that were changed. The last post of a `do` also
    /// costs the verdicts on the `do`'s posts and the moves up to the next that shows something.
    pub fn post(
        self,
        alloc: Global,
        members: &Members,
        target: ObjId,
        action: ActionId,
        args: &[Value],
        verdict: Verdict,
    ) -> Result<Option<Follower>, AllocError>
        requires are { AreOf self.domain members.now }
        requires tells { MayTell self.format self.domain members.now }
        ensures { IfOk result (FollowerGoesOn self (Sent members.now target verdict action args.now)) }
    {
        let Follower {
            format,
            task,
            declared,
            begun,
        } = self;
        let _waits = task.pending();
        match under(alloc, &task, members, begun)? {
            Some(sending) => {
                if !is_wanted(&sending.posts, &sending.verdicts, target, action, args) {
                    return Ok(None);
                }
                let next = Follower::judged(format, declared, task, sending, verdict)?;
                Ok(Some(next))
            }
            None => Ok(None),
        }
    }

    /// Continues with a set that has no member to send to, where sets have these members, or returns None if the
    /// action may not send to it next, or a member is there. An error means out of memory. The cost is that of the
    /// posts of the `do` that waits, and of the moves up to the next that shows something.
    pub fn none(
        self,
        alloc: Global,
        members: &Members,
        set: SetId,
    ) -> Result<Option<Follower>, AllocError>
        requires are { AreOf self.domain members.now }
        requires tells { MayTell self.format self.domain members.now }
        ensures { IfOk result (FollowerGoesOn self (HadNone members.now set)) }
    {
        let Follower {
            format,
            task,
            declared,
            begun,
        } = self;
        let _waits = task.pending();
        if begun.is_some() {
            return Ok(None);
        }
        if !is_without(set_wanted(alloc, &task, members)?, set) {
            return Ok(None);
        }
        let by = members.share()?;
        let mut task = task;
        task.sent(&[], by);
        let next = Follower::settled(format, declared, task)?;
        Ok(Some(next))
    }

    /// Continues with a change of a set, or returns None if the action may not make it next. An error means out of
    /// memory. The cost is that of the moves up to the next that shows something.
    pub fn changed(
        self,
        add: bool,
        member: ObjId,
        set: SetId,
    ) -> Result<Option<Follower>, AllocError>
        ensures { IfOk result (FollowerGoesOn self (Turned add member set)) }
    {
        let Follower {
            format,
            task,
            declared,
            ..
        } = self;
        if !is_change(task.pending(), add, member, set) {
            return Ok(None);
        }
        let mut task = task;
        task.changed();
        let next = Follower::settled(format, declared, task)?;
        Ok(Some(next))
    }

    /// The objects that the action reads next, by their names, or None if it does not read next. The cost is constant.
    pub fn reads(&self) -> Option<&ContactNames>
        ensures some { IfSome result (λ names. (sets : Sets) → MayTell self.now.format self.now.domain sets
            → Asks self.now sets (ToRead (objects_by_names self.now.domain sets names.now))) }
        ensures none { IfNone result ((sets : Sets) (readings : List truth.Reading) →
            MayTell self.now.format self.now.domain sets
            → ¬ MayShow self.now (Saw (record { sets = sets; readings = readings }))) }
    {
        match names_read(self.task.pending()) {
            Some(names) => Some(names),
            None => None,
        }
    }

    /// Continues with what an `if` or a `wait` read, where sets have these members, or returns None if the action may
    /// not read these objects next in this order. An error means out of memory. The cost is that of expanding its
    /// names, of the readings, of the condition, and of the moves up to the next that shows something.
    pub fn seen(
        self,
        alloc: Global,
        members: &Members,
        readings: &[Reading],
    ) -> Result<Option<Follower>, AllocError>
        requires are { AreOf self.domain members.now }
        requires tells { MayTell self.format self.domain members.now }
        ensures { IfOk result (FollowerGoesOn self (Saw (record { sets = members.now; readings = readings.now }))) }
    {
        let Follower {
            format,
            task,
            declared,
            ..
        } = self;
        let _waits = task.pending();
        let objects = objects_read(alloc, &task, members)?;
        if !reads_those(&objects, readings) {
            return Ok(None);
        }
        let states = states_of(alloc, readings)?;
        let by = members.share()?;
        let mut task = task;
        task.tell(&states, by);
        let next = Follower::settled(format, declared, task)?;
        Ok(Some(next))
    }

    /// Ends the action, or returns None if it may not end now. Takes no memory. The cost is the count of
    /// the moves made, which are dropped.
    pub fn end(self) -> Option<Ended>
        ensures { FollowerEnds self result }
    {
        let Follower { task, .. } = self;
        match end_state(task.pending(), task.turn().state) {
            Some(state) => Some(Ended {
                state,
                params: task.into_params(),
            }),
            None => None,
        }
    }
}
