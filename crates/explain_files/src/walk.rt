//! The walk over a file beside the names of its text.

use crate::directory::Directory;
use crate::finding::{Detail, Findings, Site, Sort};
use crate::spots::Spots;
use sml_check_faults::CheckKind;
use sml_tree::{Action, Class, Group, Item, Name, Object};
use std::alloc::Global;

/// A name, and where it is in the text.
#[derive(Clone, Copy)]
pub(crate) struct Standing {
    pub name: Name,
    pub at: usize,
}

/// The action that is looked at, in its class. Both have places: the class among the items, the state in its class,
/// and the action in its state.
#[derive(Clone, Copy)]
pub(crate) struct Within<'a> {
    pub class: &'a Class<Global>,
    pub class_place: usize,
    pub state_place: usize,
    pub action: &'a Action<Global>,
    pub action_place: usize,
}

/// The names before the place of a walk, list by list.
#[derive(Drop)]
pub(crate) struct Before {
    pub class_params: Vec<Standing>,
    pub states: Vec<Standing>,
    /// The actions of the state.
    pub actions: Vec<Standing>,
    /// The first actions of the class of each name.
    pub declared: Vec<Standing>,
    /// The parameters of the action.
    pub params: Vec<Standing>,
    /// The members of the set, or the arguments of the `do`.
    pub names: Vec<Standing>,
}

impl Before {
    /// No names.
    pub(crate) fn new(alloc: Global) -> Before {
        Before {
            class_params: Vec::new(alloc),
            states: Vec::new(alloc),
            actions: Vec::new(alloc),
            declared: Vec::new(alloc),
            params: Vec::new(alloc),
            names: Vec::new(alloc),
        }
    }
}

/// Where the first of some names of this spelling is.
pub(crate) fn first_of(names: &[Standing], name: &Name) -> Option<usize> {
    for standing in names {
        if standing.name == *name {
            return Some(standing.at);
        }
    }
    None
}

/// A walk over the items of a file.
#[derive(Drop)]
pub(crate) struct Walk<'w, const MOST: usize> {
    pub directory: &'w Directory<'w>,
    pub spots: &'w Spots,
    /// How many names are before the place.
    pub passed: usize,
    pub before: &'w mut Before,
    pub findings: &'w mut Findings<MOST>,
}

impl<'w, const MOST: usize> Walk<'w, MOST> {
    /// Goes over the next name, and returns where it is.
    pub(crate) fn take(&mut self) -> usize {
        let at = self.spots.name(self.passed);
        self.passed = self.passed.saturating_add(1);
        at
    }

    /// Where the next name is.
    pub(crate) fn next_at(&self) -> usize {
        self.spots.name(self.passed)
    }

    /// Adds a fault that is told.
    pub(crate) fn add(&mut self, kind: CheckKind, name: &Name, at: usize, detail: Detail) {
        self.findings.add(kind, name, at, detail, false);
    }

    /// Adds a fault, which is told unless it follows from another.
    pub(crate) fn add_or_not(
        &mut self,
        kind: CheckKind,
        name: &Name,
        at: usize,
        detail: Detail,
        follows: bool,
    ) {
        self.findings.add(kind, name, at, detail, follows);
    }

    /// Adds that a name occurs twice, if the first one has a place.
    pub(crate) fn add_second(&mut self, sort: Sort, name: &Name, at: usize, first: Option<usize>) {
        if let Some(first) = first {
            let detail = Detail::First { sort, at: first };
            self.add(CheckKind::Duplicate, name, at, detail);
        }
    }

    /// Goes over all items.
    pub(crate) fn items(&mut self) {
        let directory = self.directory;
        for (place, item) in directory.file.items.iter().enumerate() {
            match item {
                Item::Class(class) => self.class(place, class),
                Item::Object(object) => self.object(place, object),
                Item::Group(set) => self.set(place, set),
            }
        }
    }

    /// Where an item is in the text, if it is before another.
    pub(crate) fn item_before(&self, place: Option<usize>, end: usize) -> Option<usize> {
        match place {
            Some(place) if place < end => Some(self.spots.item(place)),
            _ => None,
        }
    }

    // Goes over an object.
    fn object(&mut self, place: usize, object: &Object) {
        let at = self.take();
        let first = self.item_before(self.directory.object(&object.name), place);
        self.add_second(Sort::Object, &object.name, at, first);
        let class_at = self.take();
        if self.directory.class(&object.class).is_none() {
            self.add(
                CheckKind::UnknownClass,
                &object.class,
                class_at,
                Detail::Plain,
            );
        }
    }

    // Goes over a set.
    fn set(&mut self, place: usize, set: &Group<Global>) {
        let at = self.take();
        let first = self.item_before(self.directory.set(&set.name), place);
        self.add_second(Sort::Set, &set.name, at, first);
        self.before.names.clear();
        for member in &set.members {
            self.member(member);
        }
    }

    // Goes over a member of a set.
    fn member(&mut self, member: &Name) {
        let at = self.take();
        self.note_name(Sort::Member, member, at);
        if self.directory.object(member).is_none() {
            let detail = Detail::Site(Site::Member);
            self.add(CheckKind::UnknownObject, member, at, detail);
        }
    }

    /// Notes a member of the set or an argument of the `do`, and adds a fault if it occurs twice.
    pub(crate) fn note_name(&mut self, sort: Sort, name: &Name, at: usize) {
        let first = first_of(&self.before.names, name);
        self.add_second(sort, name, at, first);
        let pushed = self.before.names.push(Standing { name: *name, at });
        self.findings.note_memory(pushed.is_ok());
    }
}
