//! Guesses at what words name. A guess is looked at before it is taken, so only the cost depends on what is kept here:
//! if the guess is right, no name is made of the word and no name is looked up.
ghost use Rattle.std.specs.Prelude.{◌≡◌, ◌↔◌, IfSome, IsTrue, true};
ghost use Rattle.smi_journal.specs.CallText.{name_or_nothing};
ghost use Rattle.smi_journal.specs.HasText.{HasNames};
ghost use Rattle.smi_journal.specs.Reading as says;

use crate::cutting::byte_at;
use crate::having::{is_action, is_object, is_set, is_state};
use crate::names::set_name;
use sml_domain::{ActionId, Domain, ObjId, SetId, StateId};
use sml_tree::Name;

/// What the last word at each of 256 places named, as an object, as a set, as a state and as an action.
#[derive(Drop)]
pub(crate) struct Hints {
    objects: [usize; 256],
    sets: [usize; 256],
    states: [usize; 256],
    actions: [usize; 256],
}

// The place of a word, by its first, its middle and its last byte: the names of a domain often differ only in one of
// these. Words that share a place cost a look-up each time that they take turns.
fn place(word: &[u8]) -> u8 {
    let length = word.len();
    let first = byte_at(word, 0).wrapping_mul(31);
    let middle = byte_at(word, length / 2).wrapping_mul(17);
    let last = byte_at(word, length.saturating_sub(1)).wrapping_mul(5);
    first ^ middle ^ last
}

// Whether a word is a name as it is written.
fn is_written(name: Option<Name>, word: &[u8]) -> bool
    ensures { IsTrue result ↔ (name_or_nothing name ≡ word.now) }
{
    match name {
        Some(name) => name.as_bytes() == word,
        None => word.is_empty(),
    }
}

// Whether a word is the name of this object. Names of a domain are different, so then it does not name another object.
#[tactic(auto, using(crate::proofs::NameBytes::object_again))]
fn names_object(domain: &Domain, o: ObjId, word: &[u8]) -> bool
    requires { HasNames domain.now }
    ensures { result ≡ true → says.read_object domain.now word.now ≡ o }
{
    domain.objects();
    is_object(domain, o) && is_written(domain.object_name(o), word)
}

// Whether a word is the name of this set.
#[tactic(auto, using(crate::proofs::NameBytes::set_again))]
fn names_set(domain: &Domain, set: SetId, word: &[u8]) -> bool
    requires { HasNames domain.now }
    ensures { result ≡ true → says.read_set domain.now word.now ≡ set }
{
    domain.objects();
    is_set(domain, set) && is_written(set_name(domain, set), word)
}

// Whether a word is the name of this state.
#[tactic(auto, using(crate::proofs::NameBytes::state_again))]
fn names_state(domain: &Domain, s: StateId, word: &[u8]) -> bool
    requires { HasNames domain.now }
    ensures { result ≡ true → says.read_state domain.now word.now ≡ s }
{
    domain.objects();
    is_state(domain, s) && is_written(domain.state_name(s), word)
}

// Whether a word is the name of this action.
#[tactic(auto, using(crate::proofs::NameBytes::action_again))]
fn names_action(domain: &Domain, a: ActionId, word: &[u8]) -> bool
    requires { HasNames domain.now }
    ensures { result ≡ true → says.read_action domain.now word.now ≡ a }
{
    domain.objects();
    is_action(domain, a) && is_written(domain.action_name(a), word)
}

impl Hints {
    // No word was seen yet. Each first guess is at number 0, and is looked at like any other.
    pub(crate) fn new() -> Hints {
        Hints {
            objects: [0; 256],
            sets: [0; 256],
            states: [0; 256],
            actions: [0; 256],
        }
    }

    // The object that a word of this place named last, if this word names it.
    pub(crate) fn object(&self, domain: &Domain, word: &[u8]) -> Option<ObjId>
        requires { HasNames domain.now }
        ensures { IfSome result (λ o. says.read_object domain.now word.now ≡ o) }
    {
        let guess = ObjId::new(self.objects[place(word) as usize]);
        if names_object(domain, guess, word) {
            Some(guess)
        } else {
            None
        }
    }

    // The set that a word of this place named last, if this word names it.
    pub(crate) fn set(&self, domain: &Domain, word: &[u8]) -> Option<SetId>
        requires { HasNames domain.now }
        ensures { IfSome result (λ set. says.read_set domain.now word.now ≡ set) }
    {
        let guess = SetId::new(self.sets[place(word) as usize]);
        if names_set(domain, guess, word) {
            Some(guess)
        } else {
            None
        }
    }

    // The state that a word of this place named last, if this word names it.
    pub(crate) fn state(&self, domain: &Domain, word: &[u8]) -> Option<StateId>
        requires { HasNames domain.now }
        ensures { IfSome result (λ s. says.read_state domain.now word.now ≡ s) }
    {
        let guess = StateId::new(self.states[place(word) as usize]);
        if names_state(domain, guess, word) {
            Some(guess)
        } else {
            None
        }
    }

    // The action that a word of this place named last, if this word names it.
    pub(crate) fn action(&self, domain: &Domain, word: &[u8]) -> Option<ActionId>
        requires { HasNames domain.now }
        ensures { IfSome result (λ a. says.read_action domain.now word.now ≡ a) }
    {
        let guess = ActionId::new(self.actions[place(word) as usize]);
        if names_action(domain, guess, word) {
            Some(guess)
        } else {
            None
        }
    }

    // Notes what a word named, for the next word of its place.
    pub(crate) fn note_object(&mut self, word: &[u8], o: ObjId) {
        self.objects[place(word) as usize] = o.get();
    }

    pub(crate) fn note_set(&mut self, word: &[u8], set: SetId) {
        self.sets[place(word) as usize] = set.get();
    }

    pub(crate) fn note_state(&mut self, word: &[u8], s: StateId) {
        self.states[place(word) as usize] = s.get();
    }

    pub(crate) fn note_action(&mut self, word: &[u8], a: ActionId) {
        self.actions[place(word) as usize] = a.get();
    }
}
