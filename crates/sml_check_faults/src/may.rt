//! The objects that sets may come to have: the members of each, then those that are inserted anywhere.
ghost use Rattle.std.specs.Prelude.{◌≡◌, true, Some, ◌∷◌, [], OnOk, IfOk, map, flat_map};
ghost use Rattle.sml_tree.specs.Content.{item_content, state_content, action_content, instr_content, block_content};
ghost use Rattle.sml_check_faults.specs.Sites.{changes, instr_sites, block_sites};
ghost use Rattle.sml_check_faults.specs.Lookup.{with_name, actions_of, action_sites, item_sites};
ghost use Rattle.sml_check_faults.specs.Tables.{declared_members, names_in, added_at, lists_after};

use crate::lookup::is_among;
use crate::tables::NameTables;
use sml_tree::{Action, Block, Instr, Item, Name, State};
use std::alloc::{AllocError, Allocator, Global};

// Adds a name to a list, unless it is there.
fn add_name(list: &mut Vec<Name>, name: &Name) -> Result<(), AllocError>
    ensures { OnOk result (list.new.items ≡ with_name list.old.items name.now) }
{
    if !is_among(list, name) {
        list.push(*name)?;
    }
    Ok(())
}

// Adds a name to the list at a place, unless it is there.
fn add_at(may: &mut Vec<Vec<Name>>, place: usize, name: &Name) -> Result<(), AllocError>
    ensures { OnOk result (map names_in may.new.items ≡ added_at (map names_in may.old.items) name.now (Some place)) }
{
    if place < may.len() {
        add_name(&mut may[place], name)?;
    }
    Ok(())
}

// Returns the members of an item, if it is a set.
fn members_of<A: Allocator + Clone>(alloc: Global, item: &Item<A>) -> Result<Vec<Name>, AllocError>
    ensures { IfOk result (λ v. v.items ≡ declared_members (item_content item.now)) }
{
    match item {
        Item::Group(group) => Vec::from_slice(alloc, &group.members),
        Item::Class(_) | Item::Object(_) => Ok(Vec::new(alloc)),
    }
}

// Returns the members of each item.
fn all_members<A: Allocator + Clone>(
    alloc: Global,
    items: &[Item<A>],
) -> Result<Vec<Vec<Name>>, AllocError>
    ensures { IfOk result (λ v. map names_in v.items ≡ map declared_members (map item_content items.now)) }
{
    let mut may = Vec::new(alloc);
    for item in items {
        may.push(members_of(alloc, item)?)?;
    }
    Ok(may)
}

/// Returns what the sets among some items may come to have, at their places; for an item that is not a set, an empty
/// list. Each instruction is looked at once.
pub(crate) fn may_lists<A: Allocator + Clone>(
    alloc: Global,
    names: &NameTables,
    items: &[Item<A>],
) -> Result<Vec<Vec<Name>>, AllocError>
    ensures { IfOk result (λ v. map names_in v.items
        ≡ lists_after names.now.objects names.now.groups (map declared_members (map item_content items.now))
        (flat_map item_sites (map item_content items.now))) }
{
    let mut may = all_members(alloc, items)?;
    match names.note_items(&mut may, items) {
        Ok(()) => Ok(may),
        Err(error) => {
            drop(may);
            Err(error)
        }
    }
}

impl NameTables {
    // Adds an object to what a set may come to have, if both are declared.
    fn note_insert(
        &self,
        may: &mut Vec<Vec<Name>>,
        member: &Name,
        set: &Name,
    ) -> Result<(), AllocError>
        ensures { OnOk result (map names_in may.new.items
            ≡ lists_after self.now.objects self.now.groups (map names_in may.old.items)
            (changes true member.now set.now ∷ [])) }
    {
        if !self.objects.contains_key(member) {
            return Ok(());
        }
        match self.groups.get(set) {
            Some(place) => add_at(may, *place, member),
            None => Ok(()),
        }
    }

    // Notes what an instruction inserts, or the blocks that it holds.
    #[cycle(inserts)]
    fn note_instr<A: Allocator + Clone>(
        &self,
        may: &mut Vec<Vec<Name>>,
        instr: &Instr<A>,
    ) -> Result<(), AllocError>
        ensures { OnOk result (map names_in may.new.items
            ≡ lists_after self.now.objects self.now.groups (map names_in may.old.items)
            (instr_sites (instr_content instr.now))) }
    {
        match instr {
            Instr::Insert { member, set } => self.note_insert(may, member, set),
            Instr::If { yes, no, .. } => {
                self.note_block(may, yes)?;
                self.note_block(may, no)
            }
            Instr::Do { .. }
            | Instr::Set { .. }
            | Instr::MoveTo(_)
            | Instr::Terminate(_)
            | Instr::Remove { .. } => Ok(()),
            Instr::Wait(_) => Ok(()),
        }
    }

    // Notes what the instructions of a block insert.
    #[cycle(inserts)]
    fn note_block<A: Allocator + Clone>(
        &self,
        may: &mut Vec<Vec<Name>>,
        block: &Block<A>,
    ) -> Result<(), AllocError>
        ensures { OnOk result (map names_in may.new.items
            ≡ lists_after self.now.objects self.now.groups (map names_in may.old.items)
            (block_sites (block_content block.now))) }
    {
        for instr in &block.instrs {
            self.note_instr(may, instr)?;
        }
        Ok(())
    }

    // Notes what some actions insert.
    fn note_actions<A: Allocator + Clone>(
        &self,
        may: &mut Vec<Vec<Name>>,
        actions: &[Action<A>],
    ) -> Result<(), AllocError>
        ensures { OnOk result (map names_in may.new.items
            ≡ lists_after self.now.objects self.now.groups (map names_in may.old.items)
            (flat_map action_sites (map action_content actions.now))) }
    {
        for action in actions {
            self.note_block(may, &action.body)?;
        }
        Ok(())
    }

    // Notes what the actions of some states insert.
    fn note_states<A: Allocator + Clone>(
        &self,
        may: &mut Vec<Vec<Name>>,
        states: &[State<A>],
    ) -> Result<(), AllocError>
        ensures { OnOk result (map names_in may.new.items
            ≡ lists_after self.now.objects self.now.groups (map names_in may.old.items)
            (flat_map action_sites (flat_map actions_of (map state_content states.now)))) }
    {
        for state in states {
            self.note_actions(may, &state.actions)?;
        }
        Ok(())
    }

    // Notes what an item inserts.
    fn note_item<A: Allocator + Clone>(
        &self,
        may: &mut Vec<Vec<Name>>,
        item: &Item<A>,
    ) -> Result<(), AllocError>
        ensures { OnOk result (map names_in may.new.items
            ≡ lists_after self.now.objects self.now.groups (map names_in may.old.items)
            (item_sites (item_content item.now))) }
    {
        match item {
            Item::Class(class) => self.note_states(may, &class.states),
            Item::Object(_) | Item::Group(_) => Ok(()),
        }
    }

    // Notes what some items insert.
    fn note_items<A: Allocator + Clone>(
        &self,
        may: &mut Vec<Vec<Name>>,
        items: &[Item<A>],
    ) -> Result<(), AllocError>
        ensures { OnOk result (map names_in may.new.items
            ≡ lists_after self.now.objects self.now.groups (map names_in may.old.items)
            (flat_map item_sites (map item_content items.now))) }
    {
        for item in items {
            self.note_item(may, item)?;
        }
        Ok(())
    }
}
