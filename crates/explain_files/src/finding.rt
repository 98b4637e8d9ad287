//! What was found wrong with a file, and where.
ghost use Rattle.std.specs.Prelude.{◌≡◌, ◌+◌, ◌-◌, false, length, min, OnOk};

use sml_check_faults::CheckKind;
use sml_tree::{Kind, Name};
use std::alloc::{AllocError, Global};
use std::marker::Model;

/// What a name that occurs twice names.
#[derive(Clone, Copy, Debug, PartialEq, Eq)]
pub enum Sort {
    Class,
    Object,
    Set,
    State,
    Action,
    /// A parameter of a class.
    ClassParam,
    /// A parameter of an action whose name another parameter of the action or one of its class has.
    Param,
    Member,
    Argument,
}

/// Where a name is that should be an object's.
#[derive(Clone, Copy, Debug, PartialEq, Eq)]
pub enum Site {
    Member,
    /// Behind the `do` whose action is named at this byte of the text.
    Target(usize),
    Tested,
    /// In the brackets of a `wait`.
    Waited,
    /// In an `insert` or a `remove`.
    Changed,
}

/// What a value of the wrong kind was to be.
#[derive(Clone, Copy, Debug, PartialEq, Eq)]
pub enum Role {
    Default,
    Assigned,
    /// An argument of the `do` whose action is named at this byte of the text.
    Passed(usize),
}

/// What is told about a fault besides its name and its place. Classes, objects and sets are places among the items of
/// the file, from 0; all others are bytes of the text, from 0.
#[derive(Clone, Copy)]
pub enum Detail {
    Plain,
    /// What occurs twice, and where it occurs first.
    First {
        sort: Sort,
        at: usize,
    },
    /// Where a name is that should be an object's.
    Site(Site),
    /// The class that lacks something, or which it is about.
    Class(usize),
    /// The action that lacks a parameter, by its class and its places there.
    Own {
        class: usize,
        state: usize,
        action: usize,
    },
    /// The action that sets what is no parameter of its class, by its class and its places there.
    Set {
        class: usize,
        state: usize,
        action: usize,
    },
    /// The class of an object that a `do` is sent to, where the name of its action is, and whether the object is
    /// no member of the set but inserted.
    Called {
        class: usize,
        object: Name,
        call: usize,
        is_inserted: bool,
    },
    /// The class that reads one of its own objects, where the name of that, or of its set, is, and whether the object
    /// is no member of the set but inserted.
    Read {
        class: usize,
        site: Site,
        is_inserted: bool,
    },
    /// The class of an object that a test reads, whether it reads a set, and whether the object is no member of that
    /// but inserted.
    Tested {
        class: usize,
        object: Name,
        is_set: bool,
        is_inserted: bool,
    },
    /// The kind that a value was to have, and where the parameter is declared that the value is, if it is one.
    Kinds {
        wanted: Kind,
        role: Role,
        value: Option<usize>,
    },
}

/// A fault, with the name that it has, and the byte of the text where that name is, from 0.
#[derive(Clone, Copy)]
pub struct Finding {
    pub kind: CheckKind,
    pub name: Name,
    pub at: usize,
    pub detail: Detail,
}

/// The faults of a text, in the order of their places. The first `MOST` of them are kept.
#[derive(Drop)]
pub struct Findings<const MOST: usize> {
    kept: Vec<Finding>,
    told: usize,
    count: usize,
    lacks_memory: bool,
}

impl<const MOST: usize> Model for Findings<MOST> {
    ghost use Rattle.std.specs.Prelude.{◌≡◌, false, length, min};
    ghost use Rattle.explain_files.specs.Found.{FoundView};

    ghost Value = { FoundView };

    ghost view = { λ f. record {
      kept = length f.kept.items;
      told = f.told;
      count = f.count;
      lacks_memory = f.lacks_memory;
    } };

    ghost invariant = { λ f. f.lacks_memory ≡ false → length f.kept.items ≡ min f.told MOST };
}

impl<const MOST: usize> Findings<MOST> {
    /// No faults yet.
    pub(crate) fn new(alloc: Global) -> Findings<MOST> {
        Findings {
            kept: Vec::new(alloc),
            told: 0,
            count: 0,
            lacks_memory: false,
        }
    }

    /// The first of the faults that are told.
    pub fn kept(&self) -> &[Finding]
        ensures { length result.now ≡ self.now.kept }
    {
        &self.kept
    }

    /// How many faults are told, kept or not.
    pub fn told(&self) -> usize
        ensures { result ≡ self.now.told }
    {
        self.told
    }

    /// How many of the faults that are told are not kept.
    pub(crate) fn others(&self) -> usize
        ensures { result ≡ self.now.told - self.now.kept }
    {
        self.told.saturating_sub(self.kept.len())
    }

    /// How many faults the file has. This may be more than are told: a fault that only follows from another, as an
    /// unknown action of an unknown object, is not told, nor one that is the same at a further member of a set.
    pub fn count(&self) -> usize
        ensures { result ≡ self.now.count }
    {
        self.count
    }

    /// Adds a fault, which is told unless it follows from another.
    pub(crate) fn add(
        &mut self,
        kind: CheckKind,
        name: &Name,
        at: usize,
        detail: Detail,
        follows: bool,
    ) {
        self.count = self.count.saturating_add(1);
        if follows {
            return;
        }
        if self.told < MOST {
            let finding = Finding {
                kind,
                name: *name,
                at,
                detail,
            };
            if keep(&mut self.kept, finding).is_err() {
                self.lacks_memory = true;
            }
        }
        self.told = self.told.saturating_add(1);
    }

    /// Notes whether there was memory for it.
    pub(crate) fn note_memory(&mut self, had_memory: bool) {
        if !had_memory {
            self.lacks_memory = true;
        }
    }

    /// Whether memory ran out once.
    pub(crate) fn lacks_memory(&self) -> bool
        ensures { result ≡ self.now.lacks_memory }
    {
        self.lacks_memory
    }
}

// Puts an item behind others.
fn keep<T: Drop>(kept: &mut Vec<T>, item: T) -> Result<(), AllocError>
    ensures ok { OnOk result (length kept.new.items ≡ length kept.old.items + 1) }
{
    kept.push(item)?;
    Ok(())
}
