//! The instructions of a block, with numbers for names.

use crate::ids::{ActionId, BlockId, ObjId, ParamId, SetId, StateId};
use crate::value::Value;
use sml_tree::Name;

/// A value that is written out, or a parameter of the class or of the action.
#[derive(Drop)]
pub enum Operand {
    /// A value that is written out.
    Fixed(Value),
    /// A parameter of the class, by its place in the class's list.
    Own(ParamId),
    /// A parameter of the action, by its place in the action's list.
    Given(ParamId),
}

/// An argument that a request passes, by the name of its parameter.
#[derive(Drop)]
pub struct Argument {
    pub name: Name,
    pub value: Operand,
}

/// Whom a request is for: an object, or each member of a set.
#[derive(Clone, Copy, Eq, PartialEq)]
pub enum Target {
    One(ObjId),
    Members(SetId),
}

/// Whom a test asks: an object, or each or any member of a set.
#[derive(Clone, Copy, Eq, PartialEq)]
pub enum Subject {
    One(ObjId),
    Each(SetId),
    Any(SetId),
}

/// A condition of objects' states.
#[derive(Drop)]
pub enum Cond {
    And(Box<Cond>, Box<Cond>),
    Or(Box<Cond>, Box<Cond>),
    Not(Box<Cond>),
    /// Whether those that are asked are in one of the states; if it is negated, in none of them.
    /// A name that no class declares as a state is left out.
    Test {
        asked: Subject,
        negated: bool,
        states: Vec<StateId>,
    },
}

/// An instruction of a block.
#[derive(Drop)]
pub enum Instr {
    /// Sets a parameter of the class to a value.
    Set {
        param: ParamId,
        value: Operand,
    },
    /// Sends a request of the action to each target. What the arguments leave out is filled from
    /// the defaults of each target's class.
    Send {
        target: Target,
        action: ActionId,
        args: Vec<Argument>,
    },
    /// Sends nothing: a request of an action that no class declares, to a set without members.
    SendNone {
        set: SetId,
    },
    /// Continues with one of two blocks, and then with what follows it.
    If {
        cond: Cond,
        yes: BlockId,
        no: BlockId,
    },
    /// Ends the action in the state: `move_to`.
    MoveTo(StateId),
    /// Ends the action in the state: `terminate_action`.
    Terminate(StateId),
    /// Waits until those that are named, and all members of named sets, have nothing to do, and
    /// reads their states, which may be any. (`Subject::Any` counts as `Subject::Each`.)
    Wait(Vec<Subject>),
    /// Puts an object into a set, behind its members, if it is not among them.
    Insert {
        member: ObjId,
        set: SetId,
    },
    /// Takes an object out of a set, if it is a member.
    Remove {
        member: ObjId,
        set: SetId,
    },
}
