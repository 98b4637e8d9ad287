//! The fields of a task, and its steps.
ghost use Rattle.std.specs.Prelude.{◌≡◌, ◌≤◌, ◌+◌, ◌++◌, [], IsSome, IsTrue, is_some, None, Some, length, map, slice_set, vec_capacity, vec_len};
ghost use Rattle.sml_domain.specs.Lookups.{block_at, program_at};
ghost use Rattle.smi_meaning.specs.Conditions.{object_read};
ghost use Rattle.smi_meaning.specs.Meaning.{DidSend};
ghost use Rattle.smi_interp.specs.Expanded.{all_by_names, objects_by_names, posts_in};
ghost use Rattle.smi_interp.specs.Turn.{HasAVerdictEach, move_of, readings_of, sending_of};
ghost use Rattle.smi_interp.specs.Cursor.{left_in};

use crate::ahead::names_from;
use crate::contact::{Contact, ContactNames, Wanted};
use crate::cursor::{Place, branch_by, contact_at, make_room, next_of, settle};
use crate::expanding::add_objects;
use crate::turn::{Move, TurnRecord};
use smi_journal_entries::{Args, Letter, Members, Reading, Sender, Verdict};
use sml_domain::{ActionId, BlockId, Domain, ObjId, ParamId, SetId, StateId, Value};
use std::alloc::{AllocError, Global};
use std::mem;
use std::sync::Arc;

/// A task under way.
#[derive(Drop)]
pub struct Run {
    pub domain: Arc<Domain, Global>,
    pub turn: TurnRecord,
    /// The object's parameters now.
    pub params: Vec<Value>,
    /// Where the action continues.
    pub at: Place,
    /// Where it continues after that: the places behind the `if`s that are under way, the innermost last.
    pub later: Vec<Place>,
    /// Whether the readings of the last move have still to pick where the action continues from its place.
    pub has_read: bool,
    /// The contact that waits for an answer.
    pub pending: Option<Contact>,
    /// Room for the verdicts of the contact that waits.
    pub verdicts: Vec<Verdict>,
    /// Room for what is read of the objects of the contact that waits.
    pub readings: Vec<Reading>,
    pub alloc: Global,
}

impl Run {
    ghost use Rattle.std.specs.Prelude.{◌≡◌, ◌<◌, ◌++◌, ◌∷◌, [], IfOk, IfSome, IsSomeAnd, IsTrue, None, OnErr, OnOk, Some, false, is_some, length, true, vec_capacity, vec_len};
    ghost use Rattle.sml_domain.specs.Lookups.{block_at};
    ghost use Rattle.std.specs.Arc.{arc_value};
    ghost use Rattle.sml_domain.specs.Program.{Nothing};
    ghost use Rattle.smi_journal_entries.specs.Sets.{AreOf};
    ghost use Rattle.smi_meaning.specs.Meaning.{DidChange, DidRead, DidSend};
    ghost use Rattle.smi_interp.specs.declared.contact.Contact.TheVariants as contact;
    ghost use Rattle.smi_interp.specs.Expanded.{objects_by_names, posts_in};
    ghost use Rattle.smi_interp.specs.Turn.{sending_of, sight_of};
    ghost use Rattle.smi_interp.specs.Ahead.{AreReadNext};
    ghost use Rattle.smi_interp.specs.Cursor.{ContactHasRoom, ContactWaits, left_of};
    ghost use Rattle.smi_interp.specs.Task.{HasLeft, IsNextContact, LeftNames, WantsChange, WantsStates, WantsVerdicts, task_begun, shown, task_with_change, with_move, with_states, with_verdicts};
    ghost use Rattle.smi_interp.specs.Run.{IsBlank, RunIsSound, contact_here, here, task_of};

    /// Returns a task that is not begun, of an object with these parameters. Its letter holds the arguments until it
    /// is begun.
    pub fn blank(
        alloc: Global,
        domain: Arc<Domain, Global>,
        object: ObjId,
        start: Vec<Value>,
        params: Vec<Value>,
        args: Args,
    ) -> Run
        requires { start.items ≡ params.items }
        ensures blank { IsBlank result }
        ensures domain { arc_value result.domain ≡ arc_value domain }
        ensures object { result.turn.object ≡ object }
        ensures params { result.params.items ≡ params.items }
    {
        Run {
            domain,
            turn: TurnRecord {
                object,
                state: StateId::new(0),
                params: start,
                letter: Letter {
                    sender: Sender::Object(object),
                    number: 0,
                    action: ActionId::new(0),
                    args,
                },
                moves: Vec::new(alloc),
            },
            params,
            at: Place {
                block: BlockId::new(0),
                index: 0,
            },
            later: Vec::new(alloc),
            has_read: false,
            pending: None,
            verdicts: Vec::new(alloc),
            readings: Vec::new(alloc),
            alloc,
        }
    }

    /// Begins, with no move made, at the block that a state declares for the action of a letter.
    pub fn open(&mut self, state: StateId, letter: Letter)
        requires blank { IsBlank self.old }
        requires declared { IsTrue (is_some (block_at (arc_value self.old.domain) self.old.turn.object state
            letter.action)) }
        ensures sound { RunIsSound self.new }
        ensures task { task_of self.new ≡ task_begun (arc_value self.old.domain) self.old.turn.object state letter
            self.old.params.items }
    {
        self.at = first_place(&self.domain, self.turn.object, state, letter.action);
        self.turn.state = state;
        put_letter(&mut self.turn.letter, letter);
    }

    /// The next move, or the contact that waits.
    pub fn advance(&mut self) -> Result<Contact, AllocError>
        requires sound { RunIsSound self.old }
        ensures sound { RunIsSound self.new }
        ensures next { IfOk result (IsNextContact (task_of self.old)) }
        ensures names { IfOk result (LeftNames (task_of self.old)) }
        ensures waiting { IfOk result (λ c. IfSome self.old.pending (λ w. c ≡ w)) }
        ensures ok { IfOk result (λ c. task_of self.new ≡ shown (task_of self.old) c) }
        ensures err { OnErr result (task_of self.new ≡ task_of self.old) }
    {
        match &self.pending {
            Some(contact) => {
                let told = contact.share()?;
                Ok(told)
            }
            None => {
                self.pick();
                self.go_on()
            }
        }
    }

    // Goes to the branch that the last readings pick, if they still have to. A condition is evaluated here, and not
    // when its readings arrive, since they arrive under the lock of a run.
    fn pick(&mut self)
        requires sound { RunIsSound self.old }
        requires idle { self.old.pending ≡ None }
        ensures sound { RunIsSound self.new }
        ensures same { task_of self.new ≡ task_of self.old }
        ensures picked { self.new.has_read ≡ false }
    {
        if self.has_read {
            self.enter_branch();
        }
    }

    fn enter_branch(&mut self)
        requires sound { RunIsSound self.old }
        requires idle { self.old.pending ≡ None }
        requires read { self.old.has_read ≡ true }
        ensures sound { RunIsSound self.new }
        ensures same { task_of self.new ≡ task_of self.old }
        ensures picked { self.new.has_read ≡ false }
    {
        let branch = branch_by(&self.domain, self.at, &self.turn.moves);
        let next = next_of(&self.domain, self.at);
        self.later.push_reserved(next);
        self.at = branch;
        self.has_read = false;
    }

    // The place from which the action continues; `later` gets the places after the `if`s that are under way then. The
    // cost is their count, and that of the last condition if its readings have still to pick.
    fn stands(&self, later: &mut Vec<Place>) -> Result<Place, AllocError>
        requires sound { RunIsSound self.now }
        requires empty { later.old.items ≡ [] }
        ensures { IfOk result (λ at. HasLeft (task_of self.now)
            (left_of (arc_value self.now.domain) at later.new.items)) }
    {
        later.extend_from_slice(&self.later)?;
        if self.has_read {
            later.push(next_of(&self.domain, self.at))?;
            return Ok(branch_by(&self.domain, self.at, &self.turn.moves));
        }
        Ok(self.at)
    }

    /// The names of the next `if` or `wait`, where `set`s alone come before it; else no names.
    pub fn reads_next(&self, alloc: Global) -> Result<ContactNames, AllocError>
        requires { RunIsSound self.now }
        ensures { IfOk result (AreReadNext (task_of self.now)) }
    {
        let mut later = Vec::new(alloc);
        let at = self.stands(&mut later)?;
        names_from(alloc, &self.domain, at, &mut later)
    }

    fn go_on(&mut self) -> Result<Contact, AllocError>
        requires sound { RunIsSound self.old }
        requires idle { self.old.pending ≡ None }
        requires picked { self.old.has_read ≡ false }
        ensures sound { RunIsSound self.new }
        ensures next { IfOk result (IsNextContact (task_of self.old)) }
        ensures names { IfOk result (LeftNames (task_of self.old)) }
        ensures ok { IfOk result (λ c. task_of self.new ≡ shown (task_of self.old) c) }
        ensures err { OnErr result (task_of self.new ≡ task_of self.old) }
    {
        self.at = settle(&self.domain, self.at, &mut self.later);
        let contact = contact_at(
            self.alloc,
            &self.domain,
            self.at,
            &self.params,
            self.turn.letter.args.values(),
        )?;
        let told = contact.share()?;
        make_room(
            &self.domain,
            &contact,
            &mut self.turn.moves,
            &mut self.verdicts,
            &mut self.readings,
            &mut self.later,
        )?;
        match contact {
            Contact::Local { param, value } => self.set(param, value)?,
            Contact::Send(wanted) => self.wait(Contact::Send(wanted)),
            Contact::Read(names) => self.wait(Contact::Read(names)),
            Contact::Change { add, member, set } => self.wait(Contact::Change { add, member, set }),
            Contact::End(state) => self.wait(Contact::End(state)),
        }
        Ok(told)
    }

    /// The verdicts on the posts that wait, and the members that sets have.
    pub fn sent(&mut self, verdicts: &[Verdict], members: Members)
        requires sound { RunIsSound self.old }
        requires are { AreOf (arc_value self.old.domain) members }
        requires waits { IsSomeAnd self.old.pending (WantsVerdicts (arc_value self.old.domain) members
            (length verdicts.now)) }
        ensures sound { RunIsSound self.new }
        ensures sent { task_of self.new ≡ with_verdicts (task_of self.old) verdicts.now members }
    {
        match take_contact(&mut self.pending) {
            Contact::Send(wanted) => self.note_sent(wanted, verdicts, members),
            _ => unreachable!(),
        }
    }

    fn note_sent(&mut self, wanted: Wanted, verdicts: &[Verdict], members: Members)
        requires sound { RunIsSound self.old }
        requires are { AreOf (arc_value self.old.domain) members }
        requires idle { self.old.pending ≡ None }
        requires picked { self.old.has_read ≡ false }
        requires asks { contact.Send wanted ≡ contact_here self.old }
        requires room { ContactHasRoom (arc_value self.old.domain)
            (contact.Send wanted) self.old.turn.moves self.old.verdicts
            self.old.readings self.old.later }
        requires each { length verdicts.now ≡ length (posts_in (arc_value self.old.domain) members wanted) }
        ensures sound { RunIsSound self.new }
        ensures sent { task_of self.new ≡ with_move (task_of self.old)
            (DidSend (sending_of (arc_value self.old.domain) members wanted verdicts.now)) }
    {
        let room = mem::replace(&mut self.verdicts, Vec::new(self.alloc));
        self.turn
            .moves
            .push_reserved(sent_move(&self.domain, room, wanted, verdicts, members));
        self.at = next_of(&self.domain, self.at);
    }

    /// The states of the objects that wait to be read, and the members that sets have.
    pub fn tell(&mut self, states: &[StateId], members: Members)
        requires sound { RunIsSound self.old }
        requires are { AreOf (arc_value self.old.domain) members }
        requires waits { IsSomeAnd self.old.pending (WantsStates (arc_value self.old.domain) members
            (length states.now)) }
        ensures sound { RunIsSound self.new }
        ensures told { task_of self.new ≡ with_states (task_of self.old) states.now members }
    {
        match take_contact(&mut self.pending) {
            Contact::Read(names) => self.note_read(names, states, members),
            _ => unreachable!(),
        }
    }

    fn note_read(&mut self, names: ContactNames, states: &[StateId], members: Members)
        requires sound { RunIsSound self.old }
        requires are { AreOf (arc_value self.old.domain) members }
        requires idle { self.old.pending ≡ None }
        requires picked { self.old.has_read ≡ false }
        requires asks { contact.Read names ≡ contact_here self.old }
        requires room { ContactHasRoom (arc_value self.old.domain)
            (contact.Read names) self.old.turn.moves self.old.verdicts
            self.old.readings self.old.later }
        requires each { length states.now ≡ length (objects_by_names (arc_value self.old.domain) members names) }
        ensures sound { RunIsSound self.new }
        ensures told { task_of self.new ≡ with_move (task_of self.old)
            (DidRead (sight_of (arc_value self.old.domain) members names states.now)) }
    {
        add_readings(&self.domain, &members, &names, states, &mut self.readings);
        let readings = mem::replace(&mut self.readings, Vec::new(self.alloc));
        self.turn
            .moves
            .push_reserved(Move::Saw { readings, members });
        self.has_read = true;
    }

    /// The set that waits was changed.
    pub fn changed(&mut self)
        requires sound { RunIsSound self.old }
        requires waits { IsSomeAnd self.old.pending WantsChange }
        ensures sound { RunIsSound self.new }
        ensures changed { task_of self.new ≡ task_with_change (task_of self.old) }
    {
        match take_contact(&mut self.pending) {
            Contact::Change { add, member, set } => self.note_change(add, member, set),
            _ => unreachable!(),
        }
    }

    fn note_change(&mut self, add: bool, member: ObjId, set: SetId)
        requires sound { RunIsSound self.old }
        requires idle { self.old.pending ≡ None }
        requires picked { self.old.has_read ≡ false }
        requires asks { contact.Change add member set ≡ contact_here self.old }
        requires room { vec_len self.old.turn.moves < vec_capacity self.old.turn.moves }
        ensures sound { RunIsSound self.new }
        ensures changed { task_of self.new ≡ with_move (task_of self.old) (DidChange add member set) }
    {
        self.turn
            .moves
            .push_reserved(Move::Changed { add, member, set });
        self.at = next_of(&self.domain, self.at);
    }

    // Makes the `set` that comes next.
    fn set(&mut self, param: ParamId, value: Value) -> Result<(), AllocError>
        requires sound { RunIsSound self.old }
        requires idle { self.old.pending ≡ None }
        requires picked { self.old.has_read ≡ false }
        requires asks { contact.Local param value ≡ contact_here self.old }
        requires room { vec_len self.old.turn.moves < vec_capacity self.old.turn.moves }
        ensures sound { RunIsSound self.new }
        ensures ok { OnOk result (task_of self.new ≡ shown (task_of self.old) (contact.Local param value)) }
        ensures err { OnErr result (task_of self.new ≡ task_of self.old) }
    {
        let kept = value.share()?;
        self.turn
            .moves
            .push_reserved(Move::Set { param, value: kept });
        put_value(&mut self.params, param, value);
        self.at = next_of(&self.domain, self.at);
        Ok(())
    }

    // Waits for the answer to the contact that comes next.
    fn wait(&mut self, contact: Contact)
        requires sound { RunIsSound self.old }
        requires picked { self.old.has_read ≡ false }
        requires asks { contact ≡ contact_here self.old }
        requires settled { here self.old ≡ Nothing → self.old.later.items ≡ [] }
        requires room { ContactHasRoom (arc_value self.old.domain) contact self.old.turn.moves self.old.verdicts
            self.old.readings self.old.later }
        requires waits { ContactWaits contact }
        ensures sound { RunIsSound self.new }
        ensures shown { task_of self.new ≡ shown (task_of self.old) contact }
    {
        put_contact(&mut self.pending, contact);
    }
}

// Where the block that a state declares for an action begins.
fn first_place(domain: &Domain, object: ObjId, state: StateId, action: ActionId) -> Place
    requires { IsTrue (is_some (block_at domain.now object state action)) }
    ensures { Some (left_in domain.now result) ≡ program_at domain.now object state action }
{
    let Some(block) = domain.block(object, state, action) else {
        unreachable!();
    };
    // What is left of a block at its beginning is its tree.
    let _instrs = domain.instructions(block);
    Place { block, index: 0 }
}

// Puts a letter in the place of another.
fn put_letter(place: &mut Letter, letter: Letter)
    ensures { place.new ≡ letter }
{
    *place = letter;
}

// Gives a parameter a value. In a domain no place beyond the end is set.
fn put_value(params: &mut Vec<Value>, param: ParamId, value: Value)
    ensures { params.new.items ≡ slice_set params.old.items param value }
{
    if param.get() < params.len() {
        params[param.get()] = value;
    }
}

fn put_contact(pending: &mut Option<Contact>, contact: Contact)
    ensures { pending.new ≡ Some contact }
{
    *pending = Some(contact);
}

fn take_contact(pending: &mut Option<Contact>) -> Contact
    requires { IsSome pending.old }
    ensures contact { pending.old ≡ Some result }
    ensures none { pending.new ≡ None }
{
    match pending.take() {
        Some(contact) => contact,
        None => unreachable!(),
    }
}

// A `do` that sent its posts and was answered by these verdicts, which are kept in the room for them.
fn sent_move(
    domain: &Domain,
    room: Vec<Verdict>,
    wanted: Wanted,
    verdicts: &[Verdict],
    members: Members,
) -> Move
    requires room { vec_len room + length verdicts.now ≤ vec_capacity room }
    requires empty { room.items ≡ [] }
    requires each { length verdicts.now ≡ length (posts_in domain.now members wanted) }
    ensures each { HasAVerdictEach domain.now result }
    ensures is { move_of domain.now result ≡ DidSend (sending_of domain.now members wanted verdicts.now) }
{
    let _domain = domain;
    let mut told = room;
    add_verdicts(&mut told, verdicts);
    Move::Sent {
        wanted,
        verdicts: told,
        members,
    }
}

fn add_verdicts(to: &mut Vec<Verdict>, more: &[Verdict])
    requires { vec_len to.old + length more.now ≤ vec_capacity to.old }
    ensures { to.new.items ≡ to.old.items ++ more.now }
{
    for verdict in more {
        to.push_reserved(*verdict);
    }
}

// Adds a reading of each object that names stand for where sets have these members, in the state of its place.
fn add_readings(
    domain: &Domain,
    members: &Members,
    names: &ContactNames,
    states: &[StateId],
    readings: &mut Vec<Reading>,
)
    requires room { vec_len readings.old + length (all_by_names domain.now members.now names.now) ≤ vec_capacity
        readings.old }
    requires empty { readings.old.items ≡ [] }
    requires each { length states.now ≡ length (objects_by_names domain.now members.now names.now) }
    ensures { readings.new.items ≡ readings_of (objects_by_names domain.now members.now names.now) states.now }
{
    add_objects(domain, members, names, readings);
    put_states(readings, states);
}

// Gives each reading the state of its place.
fn put_states(readings: &mut Vec<Reading>, states: &[StateId])
    requires { length states.now ≡ length readings.old.items }
    ensures { readings.new.items ≡ readings_of (map object_read readings.old.items) states.now }
{
    for (i, state) in states.iter().enumerate() {
        readings[i].state = *state;
    }
}
