//! The objects that sets may come to have: the members of each, then those that are inserted anywhere.

use crate::directory::{Directory, Meant};
use sml_tree::{Block, Instr, Item, Name, SmlFile, State};
use std::alloc::{AllocError, Global};
use std::slice::from_ref;

impl<'a> Directory<'a> {
    /// Notes the members of each set.
    pub(crate) fn note_members(&mut self, alloc: Global) -> Result<(), AllocError> {
        let file: &'a SmlFile<Global> = self.file;
        for item in &file.items {
            let members: &[Name] = match item {
                Item::Group(set) => &set.members,
                Item::Class(_) | Item::Object(_) => &[],
            };
            self.may.push(Vec::from_slice(alloc, members)?)?;
        }
        Ok(())
    }

    /// Notes what is inserted anywhere.
    pub(crate) fn note_inserts(&mut self) -> Result<(), AllocError> {
        let file: &'a SmlFile<Global> = self.file;
        for item in &file.items {
            if let Item::Class(class) = item {
                self.inserts_of_states(&class.states)?;
            }
        }
        Ok(())
    }

    // Notes what the actions of some states insert.
    fn inserts_of_states(&mut self, states: &[State<Global>]) -> Result<(), AllocError> {
        for state in states {
            for action in &state.actions {
                self.inserts_of_block(&action.body)?;
            }
        }
        Ok(())
    }

    // Notes what the instructions of a block insert.
    #[cycle(inserts)]
    fn inserts_of_block(&mut self, block: &Block<Global>) -> Result<(), AllocError> {
        for instr in &block.instrs {
            self.inserts_of_instr(instr)?;
        }
        Ok(())
    }

    // Notes what an instruction inserts, or the blocks that it holds.
    #[cycle(inserts)]
    fn inserts_of_instr(&mut self, instr: &Instr<Global>) -> Result<(), AllocError> {
        match instr {
            Instr::Insert { member, set } => self.note_insert(member, set),
            Instr::If { yes, no, .. } => {
                self.inserts_of_block(yes)?;
                self.inserts_of_block(no)
            }
            Instr::Do { .. }
            | Instr::Set { .. }
            | Instr::MoveTo(_)
            | Instr::Terminate(_)
            | Instr::Wait(_)
            | Instr::Remove { .. } => Ok(()),
        }
    }

    // Notes that an object is inserted into a set, where both are declared and it is not there yet.
    fn note_insert(&mut self, member: &Name, set: &Name) -> Result<(), AllocError> {
        let (Some(_), Some(place)) = (self.object(member), self.set(set)) else {
            return Ok(());
        };
        if let Some(may) = self.may.get_mut(place) {
            if !may.contains(member) {
                may.push(*member)?;
            }
        }
        Ok(())
    }

    /// The objects that a name speaks of: itself, or all that the set may come to have.
    pub(crate) fn objects_meant<'b>(&'b self, is_set: bool, name: &'b Name) -> Meant<'b> {
        if is_set {
            return self.of_set(name);
        }
        Meant {
            objects: from_ref(name),
            declared: 1,
        }
    }

    // What a set may come to have, nothing where it is not declared.
    fn of_set(&self, name: &Name) -> Meant<'_> {
        let place = self.set(name).unwrap_or(usize::MAX);
        let declared = match self.set_at(place) {
            Some(set) => set.members.len(),
            None => 0,
        };
        match self.may.get(place) {
            Some(objects) => Meant { objects, declared },
            None => Meant {
                objects: &[],
                declared,
            },
        }
    }
}
