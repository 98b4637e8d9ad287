//! Whether a file has a fault of a kind that occurs in blocks alone. All such kinds are looked for in one
//! walk, so that the blocks of a file without faults are not walked for each of them.
ghost use Rattle.std.specs.Prelude.{◌≡◌, [], map, flat_map};
ghost use Rattle.std.specs.List.{list_any};
ghost use Rattle.sml_tree.specs.Content.{file_content, class_content, action_content, state_content, item_content, cond_content, instr_content, block_content, arg_content, passed_content, waited_content};
ghost use Rattle.sml_check_faults.specs.Lookup as look;
ghost use Rattle.sml_check_faults.specs.Sites.{cond_sites, instr_sites, block_sites};
ghost use Rattle.sml_check_faults.specs.InBlocks as in_blocks;

use crate::lookup::of_set;
use crate::param::set_unknown_param;
use crate::site::unknown_end;
use crate::tables::Tables;
use sml_tree::{Action, Block, Class, Cond, Instr, Item, Name, Passed, State, Waited};
use std::alloc::Allocator;

impl<'a, A: Allocator + Clone> Tables<'a, A> {
    // Whether a `do` is at fault.
    fn is_faulty_send(
        &self,
        class: &Class<A>,
        action: &Action<A>,
        called: &Name,
        args: &[Passed<A>],
        all: bool,
        target: &Name,
    ) -> bool
        ensures { result ≡ in_blocks.is_faulty_send (file_content self.now.file.now) (class_content class.now)
            (action_content action.now) (record {
              action = called.now;
              args = map passed_content args.now;
              all = all;
              target = target.now;
            }) (look.objects_meant (file_content self.now.file.now) all target.now) }
    {
        let objects = self.objects_meant(all, target);
        self.unknown_set(all, target).is_some()
            || self.unknown_action(called, objects).is_some()
            || self
                .unknown_param(called, objects, class, action, args)
                .is_some()
            || self.missing_arg(called, args, objects).is_some()
    }

    // Whether a test is at fault.
    fn is_faulty_test(&self, class: &Class<A>, set: bool, name: &Name, states: &[Name]) -> bool
        ensures { result ≡ in_blocks.is_faulty_test (file_content self.now.file.now)
            (class_content class.now) set name.now states.now
            (look.objects_meant (file_content self.now.file.now) set name.now) }
    {
        let objects = self.objects_meant(set, name);
        self.unknown_set(set, name).is_some()
            || self.unknown_tested(objects, states).is_some()
            || self.own_object(class, objects).is_some()
    }

    // Whether something that a `wait` waits for is at fault.
    fn is_faulty_wait(&self, class: &Class<A>, waited: &[Waited]) -> bool
        ensures { result ≡ list_any (λ w. in_blocks.is_faulty_test (file_content self.now.file.now)
            (class_content class.now) w.all w.name [] (look.objects_meant
            (file_content self.now.file.now) w.all w.name)) (map waited_content waited.now) }
    {
        for one in waited {
            if self.is_faulty_test(class, one.all, &one.name, &[]) {
                return true;
            }
        }
        false
    }

    // Whether a test of a condition is at fault.
    #[tactic(auto, using(crate::proofs::InBlocks::anys))]
    fn is_faulty_cond(&self, class: &Class<A>, action: &Action<A>, cond: &Cond<A>) -> bool
        ensures { result ≡ list_any (in_blocks.is_faulty_site (file_content self.now.file.now) (class_content class.now)
            (action_content action.now)) (cond_sites (cond_content cond.now)) }
    {
        match cond {
            Cond::And(a, b) | Cond::Or(a, b) => {
                self.is_faulty_cond(class, action, a) || self.is_faulty_cond(class, action, b)
            }
            Cond::Not(a) => self.is_faulty_cond(class, action, a),
            Cond::Test {
                scope,
                name,
                states,
                ..
            } => self.is_faulty_test(class, of_set(*scope), name, states),
        }
    }

    // Whether an instruction is at fault, or one of its blocks.
    #[cycle(faulty)]
    #[tactic(auto, using(crate::proofs::InBlocks::anys))]
    fn is_faulty_instr(&self, class: &Class<A>, action: &Action<A>, instr: &Instr<A>) -> bool
        ensures { result ≡ list_any (in_blocks.is_faulty_site (file_content self.now.file.now) (class_content class.now)
            (action_content action.now)) (instr_sites (instr_content instr.now)) }
    {
        match instr {
            Instr::Do {
                action: called,
                args,
                all,
                target,
            } => self.is_faulty_send(class, action, called, args, *all, target),
            Instr::If { cond, yes, no } => {
                self.is_faulty_cond(class, action, cond)
                    || self.is_faulty_block(class, action, yes)
                    || self.is_faulty_block(class, action, no)
            }
            Instr::Set { param, value } => {
                set_unknown_param(class, action, param, value).is_some()
            }
            Instr::MoveTo(state) | Instr::Terminate(state) => unknown_end(class, state).is_some(),
            Instr::Wait(waited) => self.is_faulty_wait(class, waited),
            Instr::Insert { set, .. } | Instr::Remove { set, .. } => {
                self.unknown_set(true, set).is_some()
            }
        }
    }

    // Whether an instruction of a block is at fault.
    #[cycle(faulty)]
    #[tactic(auto, using(crate::proofs::InBlocks::anys))]
    fn is_faulty_block(&self, class: &Class<A>, action: &Action<A>, block: &Block<A>) -> bool
        ensures { result ≡ list_any (in_blocks.is_faulty_site (file_content self.now.file.now) (class_content class.now)
            (action_content action.now)) (block_sites (block_content block.now)) }
    {
        for instr in &block.instrs {
            if self.is_faulty_instr(class, action, instr) {
                return true;
            }
        }
        false
    }

    // Whether the block of some action is at fault.
    fn has_faulty_action(&self, class: &Class<A>, actions: &[Action<A>]) -> bool
        ensures { result ≡ list_any (in_blocks.is_faulty_action (file_content self.now.file.now)
            (class_content class.now)) (map action_content actions.now) }
    {
        for action in actions {
            if self.is_faulty_block(class, action, &action.body) {
                return true;
            }
        }
        false
    }

    // Whether a block of some state is at fault.
    #[tactic(auto, using(crate::proofs::InBlocks::anys))]
    fn has_faulty_state(&self, class: &Class<A>, states: &[State<A>]) -> bool
        ensures { result ≡ list_any (in_blocks.is_faulty_action (file_content self.now.file.now)
            (class_content class.now)) (flat_map look.actions_of (map state_content states.now)) }
    {
        for state in states {
            if self.has_faulty_action(class, &state.actions) {
                return true;
            }
        }
        false
    }

    // Whether a block of an item is at fault.
    fn is_faulty_item(&self, item: &Item<A>) -> bool
        ensures { result ≡ in_blocks.is_faulty_item (file_content self.now.file.now) (item_content item.now) }
    {
        match item {
            Item::Class(class) => self.has_faulty_state(class, &class.states),
            Item::Object(_) | Item::Group(_) => false,
        }
    }

    /// Whether a block of some items is at fault.
    pub fn has_faulty_item(&self, items: &[Item<A>]) -> bool
        ensures { result ≡ list_any (in_blocks.is_faulty_item (file_content self.now.file.now))
            (map item_content items.now) }
    {
        for item in items {
            if self.is_faulty_item(item) {
                return true;
            }
        }
        false
    }
}
