//! The walk over a file: the first fault of a kind.
ghost use Rattle.std.specs.Prelude.{◌≡◌, [], map, flat_map};
ghost use Rattle.sml_tree.specs.Content.{file_content, class_content, action_content, state_content, item_content, cond_content, instr_content, block_content, arg_content, passed_content, waited_content};
ghost use Rattle.sml_check_faults.specs.Lookup as look;
ghost use Rattle.sml_check_faults.specs.Sites.{cond_sites, instr_sites, block_sites};
ghost use Rattle.sml_check_faults.specs.Kinds as kinds;

use crate::heads::{action_head, class_head};
use crate::kind::CheckKind;
use crate::lookup::of_set;
use crate::param::set_unknown_param;
use crate::repeated::repeated_passed;
use crate::site::unknown_end;
use crate::tables::Tables;
use crate::value_kind::set_mismatch;
use sml_tree::{Action, Arg, Block, Class, Cond, Instr, Item, Name, Passed, State, Waited};
use std::alloc::Allocator;

// Whether a kind has faults in blocks.
fn stands_in_blocks(kind: CheckKind) -> bool
    ensures { result ≡ kinds.stands_in_blocks kind }
{
    match kind {
        CheckKind::NoState
        | CheckKind::TwoInitial
        | CheckKind::TwoDead
        | CheckKind::UnknownClass
        | CheckKind::ParamsDiffer
        | CheckKind::AssociatedBody
        | CheckKind::Memory => false,
        CheckKind::Duplicate
        | CheckKind::UnknownObject
        | CheckKind::UnknownSet
        | CheckKind::UnknownState
        | CheckKind::UnknownAction
        | CheckKind::UnknownParam
        | CheckKind::KindMismatch
        | CheckKind::MissingArg
        | CheckKind::SelfInCondition => true,
    }
}

// The fault of a kind at a `set`.
fn set_fault<A: Allocator + Clone>(
    kind: CheckKind,
    class: &Class<A>,
    action: &Action<A>,
    param: &Name,
    value: &Arg<A>,
) -> Option<Name>
    ensures { result ≡ look.first_item (kinds.set_faults kind (class_content class.now)
        (action_content action.now) param.now (arg_content value.now)) }
{
    match kind {
        CheckKind::UnknownParam => set_unknown_param(class, action, param, value),
        CheckKind::KindMismatch => set_mismatch(class, action, param, value),
        CheckKind::Duplicate
        | CheckKind::NoState
        | CheckKind::TwoInitial
        | CheckKind::TwoDead
        | CheckKind::UnknownClass
        | CheckKind::UnknownObject
        | CheckKind::UnknownSet
        | CheckKind::UnknownState
        | CheckKind::UnknownAction
        | CheckKind::MissingArg
        | CheckKind::ParamsDiffer
        | CheckKind::SelfInCondition
        | CheckKind::AssociatedBody
        | CheckKind::Memory => None,
    }
}

// The fault of a kind at a state in which an action ends.
fn end_fault<A: Allocator + Clone>(kind: CheckKind, class: &Class<A>, state: &Name) -> Option<Name>
    ensures { result ≡ look.first_item (kinds.end_faults kind (class_content class.now) state.now) }
{
    match kind {
        CheckKind::UnknownState => unknown_end(class, state),
        CheckKind::Duplicate
        | CheckKind::NoState
        | CheckKind::TwoInitial
        | CheckKind::TwoDead
        | CheckKind::UnknownClass
        | CheckKind::UnknownObject
        | CheckKind::UnknownSet
        | CheckKind::UnknownAction
        | CheckKind::UnknownParam
        | CheckKind::KindMismatch
        | CheckKind::MissingArg
        | CheckKind::ParamsDiffer
        | CheckKind::SelfInCondition
        | CheckKind::AssociatedBody
        | CheckKind::Memory => None,
    }
}

impl<'a, A: Allocator + Clone> Tables<'a, A> {
    // Returns the first fault of a kind at a test.
    fn test_fault(
        &self,
        kind: CheckKind,
        class: &Class<A>,
        set: bool,
        name: &Name,
        states: &[Name],
    ) -> Option<Name>
        ensures { result ≡ look.first_item (kinds.test_faults kind (file_content self.now.file.now)
            (class_content class.now) set name.now states.now) }
    {
        match kind {
            CheckKind::UnknownObject => self.unknown_object(set, name),
            CheckKind::UnknownSet => self.unknown_set(set, name),
            CheckKind::UnknownState => {
                self.unknown_tested(self.objects_meant(set, name), states)
            }
            CheckKind::SelfInCondition => self.own_object(class, self.objects_meant(set, name)),
            CheckKind::Duplicate
            | CheckKind::NoState
            | CheckKind::TwoInitial
            | CheckKind::TwoDead
            | CheckKind::UnknownClass
            | CheckKind::UnknownAction
            | CheckKind::UnknownParam
            | CheckKind::KindMismatch
            | CheckKind::MissingArg
            | CheckKind::ParamsDiffer
            | CheckKind::AssociatedBody
            | CheckKind::Memory => None,
        }
    }

    // Returns the first fault of a kind at what a `wait` waits for.
    fn wait_fault(&self, kind: CheckKind, class: &Class<A>, waited: &[Waited]) -> Option<Name>
        ensures { result ≡ look.first_item (flat_map (λ w. kinds.test_faults kind (file_content self.now.file.now)
            (class_content class.now) w.all w.name []) (map waited_content waited.now)) }
    {
        for one in waited {
            if let Some(name) = self.test_fault(kind, class, one.all, &one.name, &[]) {
                return Some(name);
            }
        }
        None
    }

    // Returns the first fault of a kind at an `insert` or a `remove`.
    fn change_fault(&self, kind: CheckKind, member: &Name, set: &Name) -> Option<Name>
        ensures { result ≡ look.first_item (kinds.change_faults kind
            (file_content self.now.file.now) member.now set.now) }
    {
        match kind {
            CheckKind::UnknownObject => self.unknown_object(false, member),
            CheckKind::UnknownSet => self.unknown_set(true, set),
            CheckKind::Duplicate
            | CheckKind::NoState
            | CheckKind::TwoInitial
            | CheckKind::TwoDead
            | CheckKind::UnknownClass
            | CheckKind::UnknownState
            | CheckKind::UnknownAction
            | CheckKind::UnknownParam
            | CheckKind::KindMismatch
            | CheckKind::MissingArg
            | CheckKind::ParamsDiffer
            | CheckKind::SelfInCondition
            | CheckKind::AssociatedBody
            | CheckKind::Memory => None,
        }
    }

    // Returns the first fault of a kind at a `do`.
    fn send_fault(
        &self,
        kind: CheckKind,
        class: &Class<A>,
        action: &Action<A>,
        called: &Name,
        args: &[Passed<A>],
        all: bool,
        target: &Name,
    ) -> Option<Name>
        ensures { result ≡ look.first_item (kinds.send_faults kind (file_content self.now.file.now)
            (class_content class.now) (action_content action.now)
            (record { action = called.now; args = map passed_content args.now; all = all; target = target.now })
            (look.objects_meant (file_content self.now.file.now) all target.now)) }
    {
        match kind {
            CheckKind::Duplicate => repeated_passed(args),
            CheckKind::UnknownObject => self.unknown_object(all, target),
            CheckKind::UnknownSet => self.unknown_set(all, target),
            CheckKind::UnknownAction => {
                self.unknown_action(called, self.objects_meant(all, target))
            }
            CheckKind::UnknownParam => {
                self.unknown_param(called, self.objects_meant(all, target), class, action, args)
            }
            CheckKind::KindMismatch => {
                self.mismatched(called, self.objects_meant(all, target), class, action, args)
            }
            CheckKind::MissingArg => {
                self.missing_arg(called, args, self.objects_meant(all, target))
            }
            CheckKind::NoState
            | CheckKind::TwoInitial
            | CheckKind::TwoDead
            | CheckKind::UnknownClass
            | CheckKind::UnknownState
            | CheckKind::ParamsDiffer
            | CheckKind::SelfInCondition
            | CheckKind::AssociatedBody
            | CheckKind::Memory => None,
        }
    }

    // Returns the first fault of a kind in a condition.
    #[tactic(auto, using(crate::proofs::Rests::firsts))]
    fn cond_fault(
        &self,
        kind: CheckKind,
        class: &Class<A>,
        action: &Action<A>,
        cond: &Cond<A>,
    ) -> Option<Name>
        ensures { result ≡ look.first_item (flat_map (kinds.site_faults kind (file_content self.now.file.now)
            (class_content class.now) (action_content action.now)) (cond_sites (cond_content cond.now))) }
    {
        match cond {
            Cond::And(a, b) | Cond::Or(a, b) => match self.cond_fault(kind, class, action, a) {
                Some(name) => Some(name),
                None => self.cond_fault(kind, class, action, b),
            },
            Cond::Not(a) => self.cond_fault(kind, class, action, a),
            Cond::Test {
                scope,
                name,
                states,
                ..
            } => self.test_fault(kind, class, of_set(*scope), name, states),
        }
    }

    // Returns the first fault of a kind in an instruction.
    #[cycle(fault)]
    #[tactic(auto, using(crate::proofs::Rests::firsts))]
    fn instr_fault(
        &self,
        kind: CheckKind,
        class: &Class<A>,
        action: &Action<A>,
        instr: &Instr<A>,
    ) -> Option<Name>
        ensures { result ≡ look.first_item (flat_map (kinds.site_faults kind (file_content self.now.file.now)
            (class_content class.now) (action_content action.now)) (instr_sites (instr_content instr.now))) }
    {
        match instr {
            Instr::Do {
                action: called,
                args,
                all,
                target,
            } => self.send_fault(kind, class, action, called, args, *all, target),
            Instr::If { cond, yes, no } => match self.cond_fault(kind, class, action, cond) {
                Some(name) => Some(name),
                None => match self.block_fault(kind, class, action, yes) {
                    Some(name) => Some(name),
                    None => self.block_fault(kind, class, action, no),
                },
            },
            Instr::Set { param, value } => set_fault(kind, class, action, param, value),
            Instr::MoveTo(state) | Instr::Terminate(state) => end_fault(kind, class, state),
            Instr::Wait(waited) => self.wait_fault(kind, class, waited),
            Instr::Insert { member, set } | Instr::Remove { member, set } => {
                self.change_fault(kind, member, set)
            }
        }
    }

    /// Returns the first fault of a kind in a block.
    #[cycle(fault)]
    #[tactic(auto, using(crate::proofs::Rests::firsts))]
    pub(crate) fn block_fault(
        &self,
        kind: CheckKind,
        class: &Class<A>,
        action: &Action<A>,
        block: &Block<A>,
    ) -> Option<Name>
        ensures { result ≡ look.first_item (flat_map (kinds.site_faults kind (file_content self.now.file.now)
            (class_content class.now) (action_content action.now)) (block_sites (block_content block.now))) }
    {
        for instr in &block.instrs {
            if let Some(name) = self.instr_fault(kind, class, action, instr) {
                return Some(name);
            }
        }
        None
    }

    // Returns the first fault of a kind in an action.
    #[tactic(auto, using(crate::proofs::Rests::firsts))]
    fn action_fault(&self, kind: CheckKind, class: &Class<A>, action: &Action<A>) -> Option<Name>
        ensures { result ≡ look.first_item (kinds.action_faults kind (file_content self.now.file.now)
            (class_content class.now) (action_content action.now)) }
    {
        match action_head(kind, class, action) {
            Some(name) => Some(name),
            None => {
                if stands_in_blocks(kind) {
                    self.block_fault(kind, class, action, &action.body)
                } else {
                    None
                }
            }
        }
    }

    // Returns the first fault of a kind in some actions.
    fn actions_fault(
        &self,
        kind: CheckKind,
        class: &Class<A>,
        actions: &[Action<A>],
    ) -> Option<Name>
        ensures { result ≡ look.first_item (flat_map (kinds.action_faults kind (file_content self.now.file.now)
            (class_content class.now)) (map action_content actions.now)) }
    {
        for action in actions {
            if let Some(name) = self.action_fault(kind, class, action) {
                return Some(name);
            }
        }
        None
    }

    // Returns the first fault of a kind in the actions of some states.
    fn states_fault(&self, kind: CheckKind, class: &Class<A>, states: &[State<A>]) -> Option<Name>
        ensures { result ≡ look.first_item (flat_map (kinds.action_faults kind (file_content self.now.file.now)
            (class_content class.now)) (flat_map look.actions_of (map state_content states.now))) }
    {
        for state in states {
            if let Some(name) = self.actions_fault(kind, class, &state.actions) {
                return Some(name);
            }
        }
        None
    }

    // Returns the first fault of a kind in a class.
    #[tactic(auto, using(crate::proofs::Rests::firsts))]
    fn class_fault(&self, kind: CheckKind, class: &Class<A>) -> Option<Name>
        ensures { result ≡ look.first_item (kinds.class_faults kind (file_content self.now.file.now)
            (class_content class.now)) }
    {
        match class_head(kind, class) {
            Some(name) => Some(name),
            None => self.states_fault(kind, class, &class.states),
        }
    }

    // Returns the first fault of a kind at an item.
    fn item_fault(&self, kind: CheckKind, item: &Item<A>) -> Option<Name>
        ensures { result ≡ look.first_item (kinds.item_faults kind (file_content self.now.file.now)
            (item_content item.now)) }
    {
        match item {
            Item::Class(class) => self.class_fault(kind, class),
            Item::Object(object) => match kind {
                CheckKind::UnknownClass => self.unknown_class(object),
                _ => None,
            },
            Item::Group(group) => match kind {
                CheckKind::UnknownObject => self.unknown_member(&group.members),
                _ => None,
            },
        }
    }

    /// Returns the first fault of a kind at some items.
    pub fn items_fault(&self, kind: CheckKind, items: &[Item<A>]) -> Option<Name>
        ensures { result ≡ look.first_item (flat_map (kinds.item_faults kind (file_content self.now.file.now))
            (map item_content items.now)) }
    {
        for item in items {
            if let Some(name) = self.item_fault(kind, item) {
                return Some(name);
            }
        }
        None
    }
}
