//! Instructions.
ghost use Rattle.std.specs.Prelude.{◌≡◌, ◌↔◌, ◌<◌, ◌^◌, ◌-◌, min, map, IfOk, IsTrue, Ok};
ghost use Rattle.sml_tree.specs.Content.{arg_content, passed_content, waited_content, cond_content, instr_content, block_content};
ghost use Rattle.sml_tree.specs.Syntax.{WaitedData, send, choose, assign, move_to, terminate, wait_for, insert_in, remove_from, block_depth, instr_depth};

use crate::cond::Cond;
use crate::lists::{Part, add, copy_list, same_list};
use crate::literal::{Arg, Passed};
use crate::name::Name;
use std::alloc::{AllocError, Allocator};

/// What a `wait` waits for: an object, or all members of a set.
#[derive(Clone, Copy)]
pub struct Waited {
    /// Whether it is a set.
    pub all: bool,
    pub name: Name,
}

impl Waited {
    /// Whether the two are the same.
    pub fn same(&self, other: &Waited) -> bool
        ensures { IsTrue result ↔ (waited_content self.now ≡ waited_content other.now) }
    {
        self.all == other.all && self.name == other.name
    }
}

impl<B: Allocator + Clone> Part<B> for Waited {
    type Other = Waited;

    ghost Said = { WaitedData };

    ghost said = { waited_content };

    ghost other_said = { waited_content };

    fn copy_of(&self, _alloc: &B) -> Result<Waited, AllocError> {
        Ok(*self)
    }

    fn is_same(&self, other: &Waited) -> bool {
        self.same(other)
    }
}

/// An instruction.
#[cycle(block)]
#[derive(Drop)]
pub enum Instr<A: Allocator + Clone> {
    Do {
        action: Name,
        args: Vec<Passed<A>, A>,
        all: bool,
        target: Name,
    },
    If {
        cond: Cond<A>,
        yes: Block<A>,
        no: Block<A>,
    },
    Set {
        param: Name,
        value: Arg<A>,
    },
    MoveTo(Name),
    Terminate(Name),
    /// At least one, and at most `MAX_WAITED`, if it was read from a text.
    Wait(Vec<Waited, A>),
    /// Puts an object last into a set, if it is not a member.
    Insert {
        member: Name,
        set: Name,
    },
    /// Takes an object out of a set, if it is a member.
    Remove {
        member: Name,
        set: Name,
    },
}

/// Instructions, in their order.
#[cycle(block)]
#[derive(Drop)]
pub struct Block<A: Allocator + Clone> {
    pub instrs: Vec<Instr<A>, A>,
}

impl<A: Allocator + Clone> Instr<A> {
    /// Copies the instruction into other memory.
    pub fn copy_in<B: Allocator + Clone>(&self, alloc: B) -> Result<Instr<B>, AllocError>
        ensures { IfOk result (λ i. instr_content i ≡ instr_content self.now) }
    {
        self.copy_by(&alloc)
    }

    // Copies the instruction into this memory.
    #[cycle(copy)]
    #[tactic(auto, using(crate::proofs::Blocks::instr_equations))]
    fn copy_by<B: Allocator + Clone>(&self, alloc: &B) -> Result<Instr<B>, AllocError>
        ensures { IfOk result (λ i. instr_content i ≡ instr_content self.now) }
    {
        match self {
            Instr::Do {
                action,
                args,
                all,
                target,
            } => Ok(Instr::Do {
                action: *action,
                args: copy_list(args, alloc)?,
                all: *all,
                target: *target,
            }),
            Instr::If { cond, yes, no } => {
                branch(cond.copy_by(alloc), yes.copy_by(alloc), no.copy_by(alloc))
            }
            Instr::Set { param, value } => Ok(Instr::Set {
                param: *param,
                value: value.copy_in(alloc.clone()?)?,
            }),
            Instr::MoveTo(state) => Ok(Instr::MoveTo(*state)),
            Instr::Terminate(state) => Ok(Instr::Terminate(*state)),
            Instr::Wait(waited) => Ok(Instr::Wait(copy_list(waited, alloc)?)),
            Instr::Insert { member, set } => Ok(Instr::Insert {
                member: *member,
                set: *set,
            }),
            Instr::Remove { member, set } => Ok(Instr::Remove {
                member: *member,
                set: *set,
            }),
        }
    }

    /// Whether two instructions are the same.
    #[cycle(same)]
    #[tactic(auto, using(crate::proofs::Blocks::instr_equations))]
    pub fn same<B: Allocator + Clone>(&self, other: &Instr<B>) -> bool
        ensures { IsTrue result ↔ (instr_content self.now ≡ instr_content other.now) }
    {
        match self {
            Instr::Do {
                action,
                args,
                all,
                target,
            } => other.is_do(action, args, *all, target),
            Instr::If { cond, yes, no } => match other {
                Instr::If {
                    cond: cond_b,
                    yes: yes_b,
                    no: no_b,
                } => cond.same(cond_b) && yes.same(yes_b) && no.same(no_b),
                _ => false,
            },
            Instr::Set { param, value } => other.is_set(param, value),
            Instr::MoveTo(state) => other.is_move_to(state),
            Instr::Terminate(state) => other.is_terminate(state),
            Instr::Wait(waited) => other.is_wait(waited),
            Instr::Insert { member, set } => other.is_insert(member, set),
            Instr::Remove { member, set } => other.is_remove(member, set),
        }
    }

    // Whether it sends this action with these arguments there.
    fn is_do<B: Allocator + Clone>(
        &self,
        action: &Name,
        args: &Vec<Passed<B>, B>,
        all: bool,
        target: &Name,
    ) -> bool
        ensures { IsTrue result ↔ (send (record {
          action = action.now;
          args = map passed_content args.now.items;
          all =
              all;
          target = target.now;
        }) ≡ instr_content self.now) }
    {
        match self {
            Instr::Do {
                action: own_action,
                args: own_args,
                all: own_all,
                target: own_target,
            } => *action == *own_action
                && all == *own_all
                && *target == *own_target
                && same_list(args, own_args),
            _ => false,
        }
    }

    // Whether it sets this parameter to this value.
    fn is_set<B: Allocator + Clone>(&self, param: &Name, value: &Arg<B>) -> bool
        ensures { IsTrue result ↔ (assign param.now (arg_content value.now) ≡ instr_content self.now) }
    {
        match self {
            Instr::Set {
                param: own_param,
                value: own_value,
            } => *param == *own_param && value.same(own_value),
            _ => false,
        }
    }

    // Whether it moves to this state.
    fn is_move_to(&self, state: &Name) -> bool
        ensures { IsTrue result ↔ (move_to state.now ≡ instr_content self.now) }
    {
        match self {
            Instr::MoveTo(own) => state == own,
            _ => false,
        }
    }

    // Whether it ends its action in this state.
    fn is_terminate(&self, state: &Name) -> bool
        ensures { IsTrue result ↔ (terminate state.now ≡ instr_content self.now) }
    {
        match self {
            Instr::Terminate(own) => state == own,
            _ => false,
        }
    }

    // Whether it waits for these.
    fn is_wait<B: Allocator + Clone>(&self, waited: &Vec<Waited, B>) -> bool
        ensures { IsTrue result ↔ (wait_for (map waited_content waited.now.items) ≡ instr_content self.now) }
    {
        match self {
            Instr::Wait(own) => same_list(waited, own),
            _ => false,
        }
    }

    // Whether it puts this object into this set.
    fn is_insert(&self, member: &Name, set: &Name) -> bool
        ensures { IsTrue result ↔ (insert_in member.now set.now ≡ instr_content self.now) }
    {
        match self {
            Instr::Insert {
                member: own_member,
                set: own_set,
            } => member == own_member && set == own_set,
            _ => false,
        }
    }

    // Whether it takes this object out of this set.
    fn is_remove(&self, member: &Name, set: &Name) -> bool
        ensures { IsTrue result ↔ (remove_from member.now set.now ≡ instr_content self.now) }
    {
        match self {
            Instr::Remove {
                member: own_member,
                set: own_set,
            } => member == own_member && set == own_set,
            _ => false,
        }
    }

    /// Returns how deep `if`s nest here, at most `u32::MAX`.
    #[cycle(depth)]
    #[tactic(auto, using(crate::proofs::Blocks::instr_equations))]
    pub fn depth(&self) -> u32
        ensures { result ≡ min (instr_depth (instr_content self.now)) (2 ^ 32 - 1) }
    {
        match self {
            Instr::If { yes, no, .. } => yes.depth().max(no.depth()).saturating_add(1),
            Instr::Do { .. }
            | Instr::Set { .. }
            | Instr::MoveTo(_)
            | Instr::Terminate(_)
            | Instr::Wait(_)
            | Instr::Insert { .. }
            | Instr::Remove { .. } => 0,
        }
    }
}

// Makes an `if` of copies, if there was memory for each.
#[tactic(auto, using(crate::proofs::Blocks::instr_equations))]
fn branch<A: Allocator + Clone>(
    cond: Result<Cond<A>, AllocError>,
    yes: Result<Block<A>, AllocError>,
    no: Result<Block<A>, AllocError>,
) -> Result<Instr<A>, AllocError>
    ensures { IfOk result (λ i. (c : Cond A) × (y : Block A) × (n : Block A) × (cond ≡ Ok c) × (yes ≡ Ok y)
        × (no ≡ Ok n) × (instr_content i ≡ choose (cond_content c) (block_content y) (block_content n))) }
{
    Ok(Instr::If {
        cond: cond?,
        yes: yes?,
        no: no?,
    })
}

impl<A: Allocator + Clone> Block<A> {
    /// Copies the instructions into other memory.
    pub fn copy_in<B: Allocator + Clone>(&self, alloc: B) -> Result<Block<B>, AllocError>
        ensures { IfOk result (λ b. block_content b ≡ block_content self.now) }
    {
        self.copy_by(&alloc)
    }

    // Copies the instructions into this memory.
    #[cycle(copy)]
    #[tactic(auto, using(crate::proofs::Blocks::instr_equations))]
    pub(crate) fn copy_by<B: Allocator + Clone>(&self, alloc: &B) -> Result<Block<B>, AllocError>
        ensures { IfOk result (λ b. block_content b ≡ block_content self.now) }
    {
        let mut instrs = Vec::new(alloc.clone()?);
        for instr in &self.instrs {
            add(&mut instrs, instr.copy_by(alloc))?;
        }
        Ok(Block { instrs })
    }

    /// Whether two blocks are the same.
    #[cycle(same)]
    #[tactic(auto, using(crate::proofs::Blocks::instr_equations))]
    pub fn same<B: Allocator + Clone>(&self, other: &Block<B>) -> bool
        ensures { IsTrue result ↔ (block_content self.now ≡ block_content other.now) }
    {
        if self.instrs.len() != other.instrs.len() {
            return false;
        }
        for (i, instr) in self.instrs.iter().enumerate() {
            if !instr.same(&other.instrs[i]) {
                return false;
            }
        }
        true
    }

    /// Returns how deep `if`s nest here, at most `u32::MAX`.
    #[cycle(depth)]
    #[tactic(auto, using(crate::proofs::Blocks::instr_equations))]
    pub fn depth(&self) -> u32
        ensures { result ≡ min (block_depth (block_content self.now)) (2 ^ 32 - 1) }
    {
        let mut deepest = 0;
        for instr in &self.instrs {
            deepest = deepest.max(instr.depth());
        }
        deepest
    }
}
