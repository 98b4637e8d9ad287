//! The items of a file by their names.

use indexmap::IndexMap;
use sml_tree::{
    Action, ActionParam, Arg, Class, ClassParam, Group, Item, Kind, Literal, Name, Object, Passed,
    SmlFile, State,
};
use std::alloc::{AllocError, Global};

/// Where an action is declared first: the place of its state in the class, and its own in the state.
#[derive(Clone, Copy)]
struct ActionPlace {
    state: usize,
    action: usize,
}

// An action of the class at a place among the items.
#[derive(Clone, Copy, PartialEq, Eq, Hash)]
struct ActionKey {
    class: usize,
    name: Name,
}

/// The objects that a name speaks of. The first of them are declared to be members of the set, or are the one of the
/// name; the others are inserted.
#[derive(Clone, Copy)]
pub(crate) struct Meant<'b> {
    pub objects: &'b [Name],
    /// How many are not inserted.
    pub declared: usize,
}

impl Meant<'_> {
    /// Whether one of the objects is inserted.
    pub(crate) fn is_inserted(self, object: &Name) -> bool {
        !self
            .objects
            .iter()
            .take(self.declared)
            .any(|member| member == object)
    }
}

/// The places of the items of a file, and of the actions of its classes, by their names. Of two of one name the
/// first counts.
#[derive(Drop)]
pub(crate) struct Directory<'a> {
    pub file: &'a SmlFile<Global>,
    classes: IndexMap<Name, usize>,
    objects: IndexMap<Name, usize>,
    sets: IndexMap<Name, usize>,
    actions: IndexMap<ActionKey, ActionPlace>,
    /// What the set at each place may come to have; an empty list for another item.
    pub may: Vec<Vec<Name>>,
}

impl<'a> Directory<'a> {
    /// The directory of a file, with no names yet.
    pub(crate) fn new(alloc: Global, file: &'a SmlFile<Global>) -> Directory<'a> {
        Directory {
            file,
            classes: IndexMap::new(alloc),
            objects: IndexMap::new(alloc),
            sets: IndexMap::new(alloc),
            actions: IndexMap::new(alloc),
            may: Vec::new(alloc),
        }
    }

    /// Notes the names of the file, and what its sets may come to have. The time and the memory grow with it.
    pub(crate) fn fill(&mut self, alloc: Global) -> Result<(), AllocError> {
        let file: &'a SmlFile<Global> = self.file;
        for (place, item) in file.items.iter().enumerate() {
            match item {
                Item::Class(class) => {
                    note(&mut self.classes, class.name, place)?;
                    self.note_states(place, &class.states)?;
                }
                Item::Object(object) => note(&mut self.objects, object.name, place)?,
                Item::Group(set) => note(&mut self.sets, set.name, place)?,
            }
        }
        self.note_members(alloc)?;
        self.note_inserts()
    }

    // Notes the actions of the states of a class.
    fn note_states(&mut self, class: usize, states: &[State<Global>]) -> Result<(), AllocError> {
        for (state, declared) in states.iter().enumerate() {
            self.note_actions(class, state, &declared.actions)?;
        }
        Ok(())
    }

    // Notes the actions of a state of a class.
    fn note_actions(
        &mut self,
        class: usize,
        state: usize,
        actions: &[Action<Global>],
    ) -> Result<(), AllocError> {
        for (action, declared) in actions.iter().enumerate() {
            let key = ActionKey {
                class,
                name: declared.name,
            };
            if !self.actions.contains_key(&key) {
                self.actions.insert(key, ActionPlace { state, action })?;
            }
        }
        Ok(())
    }

    /// The place of the first class of a name.
    pub(crate) fn class(&self, name: &Name) -> Option<usize> {
        self.classes.get(name).copied()
    }

    /// The place of the first object of a name.
    pub(crate) fn object(&self, name: &Name) -> Option<usize> {
        self.objects.get(name).copied()
    }

    /// The place of the first set of a name.
    pub(crate) fn set(&self, name: &Name) -> Option<usize> {
        self.sets.get(name).copied()
    }

    /// The class at a place.
    pub(crate) fn class_at(&self, place: usize) -> Option<&'a Class<Global>> {
        let file: &'a SmlFile<Global> = self.file;
        match file.items.get(place) {
            Some(Item::Class(class)) => Some(class),
            _ => None,
        }
    }

    // The object at a place.
    fn object_at(&self, place: usize) -> Option<&'a Object> {
        let file: &'a SmlFile<Global> = self.file;
        match file.items.get(place) {
            Some(Item::Object(object)) => Some(object),
            _ => None,
        }
    }

    /// The set at a place.
    pub(crate) fn set_at(&self, place: usize) -> Option<&'a Group<Global>> {
        let file: &'a SmlFile<Global> = self.file;
        match file.items.get(place) {
            Some(Item::Group(set)) => Some(set),
            _ => None,
        }
    }

    /// The place of the class of an object, if both are declared.
    pub(crate) fn class_of(&self, object: &Name) -> Option<usize> {
        let declared = self.object_at(self.object(object)?)?;
        self.class(&declared.class)
    }

    /// Whether an object is declared of a class of this name.
    pub(crate) fn is_of_class(&self, object: &Name, class: &Name) -> bool {
        match self.object(object) {
            Some(place) => match self.object_at(place) {
                Some(declared) => declared.class == *class,
                None => false,
            },
            None => false,
        }
    }

    /// The action of the class at a place, as the first state that declares it does.
    pub(crate) fn action_in(&self, class: usize, name: &Name) -> Option<&'a Action<Global>> {
        let place = *self.actions.get(&ActionKey { class, name: *name })?;
        self.class_at(class)?
            .states
            .get(place.state)?
            .actions
            .get(place.action)
    }

    /// The action of the class of an object.
    pub(crate) fn action_of(&self, name: &Name, object: &Name) -> Option<&'a Action<Global>> {
        self.action_in(self.class_of(object)?, name)
    }

    /// Whether the class of some object has a state.
    pub(crate) fn some_has_state(&self, state: &Name, objects: &[Name]) -> bool {
        for object in objects {
            if self.object_has_state(state, object) {
                return true;
            }
        }
        false
    }

    // Whether the class of an object has a state.
    fn object_has_state(&self, state: &Name, object: &Name) -> bool {
        match self.class_of(object) {
            Some(place) => match self.class_at(place) {
                Some(class) => has_state(class, state),
                None => false,
            },
            None => false,
        }
    }
}

// Notes the place of a name, unless it has one.
fn note(table: &mut IndexMap<Name, usize>, name: Name, place: usize) -> Result<(), AllocError> {
    if !table.contains_key(&name) {
        table.insert(name, place)?;
    }
    Ok(())
}

/// The name of the state that is added.
pub(crate) fn dead_name() -> Name {
    Name::from_word(b"DEAD")
}

/// Whether the state `DEAD` is added to a class.
pub(crate) fn adds_dead(class: &Class<Global>) -> bool {
    let dead = dead_name();
    for state in &class.states {
        if state.dead || state.name == dead {
            return false;
        }
    }
    true
}

/// Whether a class has a state, the added one included.
pub(crate) fn has_state(class: &Class<Global>, name: &Name) -> bool {
    for state in &class.states {
        if state.name == *name {
            return true;
        }
    }
    *name == dead_name() && adds_dead(class)
}

/// The first parameter of a class of a name.
pub(crate) fn class_param<'b>(
    class: &'b Class<Global>,
    name: &Name,
) -> Option<&'b ClassParam<Global>> {
    for param in &class.params {
        if param.name == *name {
            return Some(param);
        }
    }
    None
}

/// The first parameter of an action of a name.
pub(crate) fn action_param<'b>(
    action: &'b Action<Global>,
    name: &Name,
) -> Option<&'b ActionParam<Global>> {
    for param in &action.params {
        if param.name == *name {
            return Some(param);
        }
    }
    None
}

/// Whether an argument of a name is passed.
pub(crate) fn passes(args: &[Passed<Global>], name: &Name) -> bool {
    for passed in args {
        if passed.name == *name {
            return true;
        }
    }
    false
}

/// The kind of a value.
pub(crate) fn kind_of(value: &Literal<Global>) -> Kind {
    match value {
        Literal::Int(_) => Kind::Int,
        Literal::Str(_) => Kind::Str,
    }
}

/// The kind of what is passed or set by an action of a class, where that is known.
pub(crate) fn arg_kind(
    class: &Class<Global>,
    action: &Action<Global>,
    value: &Arg<Global>,
) -> Option<Kind> {
    match value {
        Arg::Lit(literal) => Some(kind_of(literal)),
        Arg::Param(name) => match class_param(class, name) {
            Some(param) => Some(param.kind),
            None => match action_param(action, name) {
                Some(param) => Some(param.kind),
                None => None,
            },
        },
    }
}
