//! The items of a file by their names.
ghost use Rattle.std.specs.Prelude.{◌≡◌, ℕ, List, Some, None, OnOk, IfOk, map, option_map, take, nat_eq, if◌then◌else◌, not, is_some};
ghost use Rattle.std.specs.List.{list_any, slice_get};
ghost use Rattle.std.specs.Cmp.Lexicographic.{pointwise};
ghost use Rattle.indexmap.specs.IndexMap.{get};
ghost use Rattle.sml_tree.specs.Content.{file_content, item_content, class_content, object_content, group_content, action_content};
ghost use Rattle.sml_check_faults.specs.Lookup.{named, file_class_named, file_object_named, group_named, action_in_class};
ghost use Rattle.sml_check_faults.specs.Lookup as look;
ghost use Rattle.sml_check_faults.specs.Tables as spec;
ghost use Rattle.sml_check_faults.specs.Repeats.{is_class_named, is_object_named, is_group};
ghost use Rattle.sml_check_faults.specs.Tables.{HasTables, IsNoted, ActionTables, HasMay, names_in, first_or_else, place_of, item_at};

use crate::actions::{ActionPlace, item_tables};
use crate::may::may_lists;
use indexmap::IndexMap;
use sml_tree::{Action, Class, Group, Item, Name, Object, SmlFile};
use std::alloc::{AllocError, Allocator, Global};

/// A file with tables to look for faults with: the places of its items and actions by their names, and all that its
/// sets may come to have. The memory of these tables is freed when it is dropped.
#[derive(Drop)]
pub struct Tables<'a, A: Allocator + Clone> {
    pub file: &'a SmlFile<A>,
    names: NameTables,
    pub(crate) actions: Vec<IndexMap<Name, ActionPlace>>,
    may: Vec<Vec<Name>>,
    ghost places: { HasTables (file_content file.now) names.classes names.objects names.groups },
    ghost declared: { ActionTables (file_content file.now) actions.items },
    ghost comes: { HasMay (file_content file.now) (map names_in may.items) },
}

// The places of items by their names, kind by kind: one value, so that there is one to drop if memory
// runs out.
#[derive(Drop)]
pub(crate) struct NameTables {
    classes: IndexMap<Name, usize>,
    pub(crate) objects: IndexMap<Name, usize>,
    pub(crate) groups: IndexMap<Name, usize>,
}

// The kinds of items.
#[derive(Clone, Copy)]
enum ItemKind {
    Class,
    Object,
    Group,
}

// Returns the name of an item that is of a kind.
fn name_as<A: Allocator + Clone>(kind: ItemKind, item: &Item<A>) -> Option<Name>
    ensures { result ≡ spec.name_as kind (item_content item.now) }
{
    match kind {
        ItemKind::Class => match class_item(item) {
            Some(class) => Some(class.name),
            None => None,
        },
        ItemKind::Object => match object_item(item) {
            Some(object) => Some(object.name),
            None => None,
        },
        ItemKind::Group => match group_item(item) {
            Some(group) => Some(group.name),
            None => None,
        },
    }
}

// Notes the place of an item of a kind by its name, unless the name has one.
fn note_item<A: Allocator + Clone>(
    table: &mut IndexMap<Name, usize>,
    kind: ItemKind,
    item: &Item<A>,
    place: usize,
) -> Result<(), AllocError>
    ensures noted { OnOk result (IsNoted (spec.is_named kind) (item_content item.now) place table.old table.new) }
{
    match name_as(kind, item) {
        Some(name) => note(table, name, place),
        None => Ok(()),
    }
}

// Notes the places of the items of a kind by their names in an empty table.
fn note_items<A: Allocator + Clone>(
    table: &mut IndexMap<Name, usize>,
    kind: ItemKind,
    items: &[Item<A>],
) -> Result<(), AllocError>
    requires { (q : List ℕ) → get (pointwise nat_eq) table.old q ≡ None }
    ensures { OnOk result (spec.Places (spec.is_named kind) (map item_content items.now) table.new) }
{
    for (i, item) in items.iter().enumerate() {
        note_item(table, kind, item, i)?;
    }
    Ok(())
}

// Drops a table: by a call, so that no caller holds the steps of it.
fn give_back(_table: IndexMap<Name, usize>) {}

impl NameTables {
    // Returns the tables of some items.
    fn new<A: Allocator + Clone>(alloc: Global, items: &[Item<A>]) -> Result<NameTables, AllocError>
        ensures { IfOk result (λ n. HasTables (map item_content items.now) n.classes n.objects n.groups) }
    {
        let mut names = NameTables::empty(alloc);
        match names.note_all(items) {
            Ok(()) => Ok(names),
            Err(error) => {
                names.give_back();
                Err(error)
            }
        }
    }

    // Drops the tables, one by one.
    fn give_back(self) {
        give_back(self.classes);
        give_back(self.objects);
        give_back(self.groups);
    }

    // Makes empty tables.
    fn empty(alloc: Global) -> NameTables
        ensures classes { (q : List ℕ) → get (pointwise nat_eq) result.classes q ≡ None }
        ensures objects { (q : List ℕ) → get (pointwise nat_eq) result.objects q ≡ None }
        ensures groups { (q : List ℕ) → get (pointwise nat_eq) result.groups q ≡ None }
    {
        NameTables {
            classes: IndexMap::new(alloc),
            objects: IndexMap::new(alloc),
            groups: IndexMap::new(alloc),
        }
    }

    // Notes the places of some items by their names in empty tables.
    fn note_all<A: Allocator + Clone>(&mut self, items: &[Item<A>]) -> Result<(), AllocError>
        requires classes { (q : List ℕ) → get (pointwise nat_eq) self.old.classes q ≡ None }
        requires objects { (q : List ℕ) → get (pointwise nat_eq) self.old.objects q ≡ None }
        requires groups { (q : List ℕ) → get (pointwise nat_eq) self.old.groups q ≡ None }
        ensures { OnOk result (HasTables (map item_content items.now) self.new.classes self.new.objects
            self.new.groups) }
    {
        note_items(&mut self.classes, ItemKind::Class, items)?;
        note_items(&mut self.objects, ItemKind::Object, items)?;
        note_items(&mut self.groups, ItemKind::Group, items)?;
        Ok(())
    }
}

impl<'a, A: Allocator + Clone> Tables<'a, A> {
    /// Returns the tables of a file.
    pub fn new(alloc: Global, file: &'a SmlFile<A>) -> Result<Self, AllocError>
        ensures { IfOk result (λ t. t.file.now ≡ file.now) }
    {
        let names = NameTables::new(alloc, &file.items)?;
        match item_tables(alloc, &file.items) {
            Ok(actions) => Tables::filled(alloc, file, names, actions),
            Err(error) => {
                names.give_back();
                Err(error)
            }
        }
    }

    // Makes the tables of a file, of which two are made already.
    fn filled(
        alloc: Global,
        file: &'a SmlFile<A>,
        names: NameTables,
        actions: Vec<IndexMap<Name, ActionPlace>>,
    ) -> Result<Self, AllocError>
        requires places { HasTables (file_content file.now) names.classes names.objects names.groups }
        requires declared { ActionTables (file_content file.now) actions.items }
        ensures { IfOk result (λ t. t.file.now ≡ file.now) }
    {
        match may_lists(alloc, &names, &file.items) {
            Ok(may) => Ok(Tables {
                file,
                names,
                actions,
                may,
            }),
            Err(error) => {
                names.give_back();
                drop(actions);
                Err(error)
            }
        }
    }

    /// What a set of a name may come to have.
    pub(crate) fn may_have(&self, name: &Name) -> &[Name]
        ensures { result.now ≡ look.may_have (file_content self.now.file.now) name.now
            (group_named (file_content self.now.file.now) name.now) }
    {
        match self.names.groups.get(name) {
            Some(place) => match self.may.get(*place) {
                Some(list) => list,
                None => &[],
            },
            None => &[],
        }
    }

    /// Returns the class of a name.
    pub(crate) fn class(&self, name: &Name) -> Option<&'a Class<A>>
        ensures { option_map (λ x. class_content x.now) result
            ≡ file_class_named (file_content self.now.file.now) name.now }
    {
        match self.names.classes.get(name) {
            Some(place) => self.class_at(*place),
            None => None,
        }
    }

    /// Returns the object of a name.
    pub(crate) fn object(&self, name: &Name) -> Option<&'a Object>
        ensures { option_map (λ x. object_content x.now) result
            ≡ file_object_named (file_content self.now.file.now) name.now }
    {
        match self.names.objects.get(name) {
            Some(place) => self.object_at(*place),
            None => None,
        }
    }

    /// Returns the set of a name.
    pub(crate) fn group(&self, name: &Name) -> Option<&'a Group<A>>
        ensures { option_map (λ x. group_content x.now) result ≡ group_named (file_content self.now.file.now) name.now }
    {
        match self.names.groups.get(name) {
            Some(place) => self.group_at(*place),
            None => None,
        }
    }

    // Returns the item at a place.
    fn item(&self, place: usize) -> Option<&'a Item<A>>
        ensures { option_map (λ x. item_content x.now) result ≡ slice_get (file_content self.now.file.now) place }
    {
        let file: &'a SmlFile<A> = self.file;
        file.items.get(place)
    }

    /// Returns the class at a place among the items.
    pub(crate) fn class_at(&self, place: usize) -> Option<&'a Class<A>>
        ensures { option_map (λ x. class_content x.now) result
            ≡ item_at spec.class_item (file_content self.now.file.now) place }
    {
        match self.item(place) {
            Some(item) => class_item(item),
            None => None,
        }
    }

    // Returns the object at a place among the items.
    fn object_at(&self, place: usize) -> Option<&'a Object>
        ensures { option_map (λ x. object_content x.now) result
            ≡ item_at spec.object_item (file_content self.now.file.now) place }
    {
        match self.item(place) {
            Some(item) => object_item(item),
            None => None,
        }
    }

    // Returns the set at a place among the items.
    fn group_at(&self, place: usize) -> Option<&'a Group<A>>
        ensures { option_map (λ x. group_content x.now) result
            ≡ item_at spec.group_item (file_content self.now.file.now) place }
    {
        match self.item(place) {
            Some(item) => group_item(item),
            None => None,
        }
    }

    /// Returns the action that the class of a name declares.
    pub(crate) fn class_action(&self, class: &Name, action: &Name) -> Option<&'a Action<A>>
        ensures { option_map (λ a. action_content a.now) result
            ≡ action_in_class (file_class_named (file_content self.now.file.now) class.now) action.now }
    {
        match self.names.classes.get(class) {
            Some(place) => self.action_at(*place, action),
            None => None,
        }
    }

    /// Whether a class of this name is before a place.
    pub(crate) fn names_class(&self, name: &Name, end: usize) -> bool
        ensures { result ≡ list_any (is_class_named name.now)
            (map item_content (take end self.now.file.now.items.items)) }
    {
        stands_before(&self.names.classes, name, end)
    }

    /// Whether an object of this name is before a place.
    pub(crate) fn names_object(&self, name: &Name, end: usize) -> bool
        ensures { result ≡ list_any (is_object_named name.now)
            (map item_content (take end self.now.file.now.items.items)) }
    {
        stands_before(&self.names.objects, name, end)
    }

    /// Whether a set of this name is before a place.
    pub(crate) fn names_group(&self, name: &Name, end: usize) -> bool
        ensures { result ≡ list_any (is_group name.now) (map item_content (take end self.now.file.now.items.items)) }
    {
        stands_before(&self.names.groups, name, end)
    }
}

// Whether the place that a name has is before another.
fn stands_before(table: &IndexMap<Name, usize>, name: &Name, end: usize) -> bool
    ensures { result ≡ spec.is_before end (get (pointwise nat_eq) table.now name.now) }
{
    match table.get(name) {
        Some(place) => *place < end,
        None => false,
    }
}

// Whether a name has no place.
fn is_free<P: Copy>(table: &IndexMap<Name, P>, name: &Name) -> bool
    ensures { result ≡ not (is_some (get (pointwise nat_eq) table.now name.now)) }
{
    !table.contains_key(name)
}

/// Notes the place of a name, unless it has one.
pub fn note<P: Copy>(table: &mut IndexMap<Name, P>, name: Name, place: P) -> Result<(), AllocError>
    ensures noted { OnOk result ((q : List ℕ) → get (pointwise nat_eq) table.new q
        ≡ first_or_else (get (pointwise nat_eq) table.old q) (if named q name then Some place else None)) }
{
    if is_free(table, &name) {
        table.insert(name, place)?;
    }
    Ok(())
}

// Returns the class that an item is.
fn class_item<A: Allocator + Clone>(item: &Item<A>) -> Option<&Class<A>>
    ensures { option_map (λ c. class_content c.now) result ≡ spec.class_item (item_content item.now) }
{
    match item {
        Item::Class(class) => Some(class),
        Item::Object(_) | Item::Group(_) => None,
    }
}

// Returns the object that an item is.
fn object_item<A: Allocator + Clone>(item: &Item<A>) -> Option<&Object>
    ensures { option_map (λ c. object_content c.now) result ≡ spec.object_item (item_content item.now) }
{
    match item {
        Item::Object(object) => Some(object),
        Item::Class(_) | Item::Group(_) => None,
    }
}

// Returns the set that an item is.
fn group_item<A: Allocator + Clone>(item: &Item<A>) -> Option<&Group<A>>
    ensures { option_map (λ c. group_content c.now) result ≡ spec.group_item (item_content item.now) }
{
    match item {
        Item::Group(group) => Some(group),
        Item::Class(_) | Item::Object(_) => None,
    }
}
