//! What was told last to each of those who ask for requests that are made once.
ghost use Rattle.std.specs.Prelude.{slice_get, slice_set, ◌≡◌, ◌<◌, ◌≤◌, ◌++◌, ◌∷◌, [], IfNone, IfOk, IfSome, None, OnErr, OnOk, Some, drop, length, take, true, false};
ghost use Rattle.std.specs.List.{slice_index_or};
ghost use Rattle.smi_live_once.specs.Tables.{IsPutAt, OnceTold, same_bytes, told_to, verdict_in, verdict_on, with_last_told};

use std::alloc::{AllocError, Global};
use std::marker::Model;

/// How many names are known at most.
pub const MOST_NAMES: usize = 64;

/// What is to be done about a number of a name.
#[derive(Clone, Copy, Debug, PartialEq, Eq)]
pub enum Verdict {
    /// It is greater than the last one: the request is made.
    New,
    /// It is the last one: the same is told again.
    Again,
    /// It is less than the last one.
    Old,
    /// The name is new, and as many names are known as may be.
    TooMany,
}

// The last number of a name, and what was told.
#[derive(Drop)]
struct Told {
    name: Vec<u8>,
    number: u64,
    answer: Vec<u8>,
}

impl Model for Told {
    ghost use Rattle.smi_live_once.specs.Tables.{OnceTold};

    ghost Value = { OnceTold };

    ghost view = { λ t. record { name = t.name.items; number = t.number; answer = t.answer.items } };
}

impl Told {
    fn new(alloc: Global, name: &[u8], number: u64, answer: &[u8]) -> Result<Told, AllocError>
        ensures { IfOk result (λ t. t ≡ record { name = name.now; number = number; answer = answer.now }) }
    {
        let name = Vec::from_slice(alloc, name)?;
        let answer = Vec::from_slice(alloc, answer)?;
        Ok(Told {
            name,
            number,
            answer,
        })
    }

    // Whether it was told to this name.
    fn is_to(&self, name: &[u8]) -> bool
        ensures { result ≡ same_bytes self.now.name name.now }
    {
        self.name.as_slice() == name
    }

    // What is to be done about a number after this one.
    fn verdict(&self, number: u64) -> Verdict
        ensures { result ≡ verdict_on (Some self.now) 0 number }
    {
        if number == self.number {
            Verdict::Again
        } else if number < self.number {
            Verdict::Old
        } else {
            Verdict::New
        }
    }
}

/// What is known of a name: its last number, and what was told.
#[derive(Clone, Copy)]
pub struct Known<'a> {
    pub name: &'a [u8],
    pub number: u64,
    pub answer: &'a [u8],
}

/// What was told last to each name.
#[derive(Drop)]
pub struct OnceTable {
    told: Vec<Told>,
}

impl Model for OnceTable {
    ghost use Rattle.smi_live_once.specs.Tables.{OnceTable as View};

    ghost Value = { View };

    ghost view = { λ t. record { told = t.told.items } };
}

// Where what was told to a name stands.
#[tactic(auto, using(crate::proofs::Tables::found_told, crate::proofs::Tables::set_told, crate::proofs::Tables::none_more, crate::proofs::Tables::add_whole))]
fn place_of(told: &[Told], name: &[u8]) -> Option<usize>
    ensures within { IfSome result (λ p. p < length told.now) }
    ensures some { IfSome result (λ p. (t : OnceTold) → t ≡ slice_index_or told.now p t
        → told_to told.now name.now ≡ Some t) }
    ensures set { IfSome result (λ p. (x : OnceTold) → x.name ≡ name.now
        → with_last_told told.now x ≡ slice_set told.now p x) }
    ensures none { IfNone result (told_to told.now name.now ≡ None) }
    ensures add { IfNone result ((x : OnceTold) → x.name ≡ name.now → with_last_told told.now x ≡ told.now ++ x ∷ []) }
{
    for place in 0..told.len() {
        if told[place].is_to(name) {
            return Some(place);
        }
    }
    None
}

impl OnceTable {
    /// Nothing was told.
    pub fn new(alloc: Global) -> OnceTable
        ensures { result.told ≡ [] }
    {
        OnceTable {
            told: Vec::new(alloc),
        }
    }

    /// What is to be done about a number of a name. The cost is the count of names.
    pub fn verdict(&self, name: &[u8], number: u64) -> Verdict
        ensures { result ≡ verdict_in self.now.told name.now number }
    {
        match place_of(&self.told, name) {
            Some(place) => self.told[place].verdict(number),
            None if self.told.len() < MOST_NAMES => Verdict::New,
            None => Verdict::TooMany,
        }
    }

    /// What was told last to a name, if something was. The cost is the count of names.
    pub fn answer(&self, name: &[u8]) -> &[u8]
        ensures { (t : OnceTold) → told_to self.now.told name.now ≡ Some t → result.now ≡ t.answer }
    {
        match place_of(&self.told, name) {
            Some(place) => &self.told[place].answer,
            None => &[],
        }
    }

    /// How many names are known.
    pub fn names(&self) -> usize
        ensures { result ≡ length self.now.told }
    {
        self.told.len()
    }

    /// A name, its last number and what was told, in the order in which names came.
    pub fn at(&self, place: usize) -> Known<'_>
        requires { place < length self.now.told }
        ensures { slice_get self.now.told place ≡ Some (record {
          name = result.name.now;
          number = result.number;
          answer = result.answer.now;
        }) }
    {
        let told = &self.told[place];
        Known {
            name: &told.name,
            number: told.number,
            answer: &told.answer,
        }
    }

    /// Keeps that this is the last that was told to a name, and gives the place of the name. The cost is the count of
    /// names. The error is out of memory, and then nothing is changed.
    pub fn put(
        &mut self,
        alloc: Global,
        name: &[u8],
        number: u64,
        answer: &[u8],
    ) -> Result<usize, AllocError>
        ensures ok { OnOk result (self.new.told
            ≡ with_last_told self.old.told (record { name = name.now; number = number; answer = answer.now })) }
        ensures at { IfOk result (λ p. IsPutAt self.old.told
            (record { name = name.now; number = number; answer = answer.now }) p self.new.told) }
        ensures err { OnErr result (self.new ≡ self.old) }
    {
        let told = match Told::new(alloc, name, number, answer) {
            Ok(told) => told,
            Err(error) => return Err(error),
        };
        match place_of(&self.told, name) {
            Some(place) => {
                self.told[place] = told;
                Ok(place)
            }
            None => {
                let place = self.told.len();
                match self.told.push(told) {
                    Ok(()) => Ok(place),
                    Err(_) => Err(AllocError),
                }
            }
        }
    }
}
