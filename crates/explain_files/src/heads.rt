//! Classes, states and actions outside of blocks.

use crate::directory::kind_of;
use crate::finding::{Detail, Role, Sort};
use crate::walk::{Standing, Walk, Within, first_of};
use sml_check_faults::CheckKind;
use sml_tree::{Action, ActionParam, Class, ClassParam, Kind, Literal, Name, State};
use std::alloc::Global;

// The states of a class that have a mark: where the first is, and whether a second was reported.
#[derive(Clone, Copy)]
struct Marked {
    first: Option<usize>,
    is_told: bool,
}

impl Marked {
    // None yet.
    fn new() -> Marked {
        Marked {
            first: None,
            is_told: false,
        }
    }

    // Notes a state that has the mark. Returns the place of the first if this is the second.
    fn second(&mut self, at: usize) -> Option<usize> {
        match self.first {
            None => {
                self.first = Some(at);
                None
            }
            Some(_) if self.is_told => None,
            Some(first) => {
                self.is_told = true;
                Some(first)
            }
        }
    }
}

// Whether two defaults are the same.
fn same_default(default: &Option<Literal<Global>>, other: &Option<Literal<Global>>) -> bool {
    match (default, other) {
        (Some(value), Some(other)) => value.same(other),
        (None, None) => true,
        (Some(_), None) | (None, Some(_)) => false,
    }
}

// Whether two lists have the same parameters in the same order.
fn same_params(params: &[ActionParam<Global>], others: &[ActionParam<Global>]) -> bool {
    if params.len() != others.len() {
        return false;
    }
    for (param, other) in params.iter().zip(others) {
        if !same_param(param, other) {
            return false;
        }
    }
    true
}

// Whether two parameters are the same.
fn same_param(param: &ActionParam<Global>, other: &ActionParam<Global>) -> bool {
    param.kind == other.kind
        && param.name == other.name
        && same_default(&param.default, &other.default)
}

impl<'w, const MOST: usize> Walk<'w, MOST> {
    /// Goes over a class, which is at a place among the items.
    pub(crate) fn class(&mut self, place: usize, class: &Class<Global>) {
        let at = self.take();
        let first = self.item_before(self.directory.class(&class.name), place);
        self.add_second(Sort::Class, &class.name, at, first);
        if class.states.is_empty() {
            self.add(CheckKind::NoState, &class.name, at, Detail::Plain);
        }
        self.before.class_params.clear();
        self.before.states.clear();
        self.before.declared.clear();
        for param in &class.params {
            self.class_param(param);
        }
        let mut initial = Marked::new();
        let mut dead = Marked::new();
        for (i, state) in class.states.iter().enumerate() {
            self.marks(class, state, &mut initial, &mut dead);
            self.state(place, class, i, state);
        }
    }

    // Goes over a parameter of a class.
    fn class_param(&mut self, param: &ClassParam<Global>) {
        let at = self.take();
        let first = first_of(&self.before.class_params, &param.name);
        self.add_second(Sort::ClassParam, &param.name, at, first);
        if kind_of(&param.value) != param.kind {
            self.add_default(param.kind, &param.name, at);
        }
        let pushed = self.before.class_params.push(Standing {
            name: param.name,
            at,
        });
        self.findings.note_memory(pushed.is_ok());
    }

    // Adds that a default is of another kind than its parameter.
    fn add_default(&mut self, wanted: Kind, name: &Name, at: usize) {
        let detail = Detail::Kinds {
            wanted,
            role: Role::Default,
            value: None,
        };
        self.add(CheckKind::KindMismatch, name, at, detail);
    }

    // Looks at the marks of the state that comes next.
    fn marks(
        &mut self,
        class: &Class<Global>,
        state: &State<Global>,
        initial: &mut Marked,
        dead: &mut Marked,
    ) {
        let at = self.next_at();
        if state.initial {
            let first = initial.second(at);
            self.add_mark(CheckKind::TwoInitial, class, at, first);
        }
        if state.dead {
            let first = dead.second(at);
            self.add_mark(CheckKind::TwoDead, class, at, first);
        }
    }

    // Adds that two states have a mark, where the first of them has a place.
    fn add_mark(
        &mut self,
        kind: CheckKind,
        class: &Class<Global>,
        at: usize,
        first: Option<usize>,
    ) {
        if let Some(first) = first {
            let detail = Detail::First {
                sort: Sort::State,
                at: first,
            };
            self.add(kind, &class.name, at, detail);
        }
    }

    // Goes over a state.
    fn state(&mut self, place: usize, class: &Class<Global>, i: usize, state: &State<Global>) {
        let at = self.take();
        let first = first_of(&self.before.states, &state.name);
        self.add_second(Sort::State, &state.name, at, first);
        let pushed = self.before.states.push(Standing {
            name: state.name,
            at,
        });
        self.findings.note_memory(pushed.is_ok());
        self.before.actions.clear();
        for (j, action) in state.actions.iter().enumerate() {
            let within = Within {
                class,
                class_place: place,
                state_place: i,
                action,
                action_place: j,
            };
            self.action(within);
        }
    }

    // Goes over an action.
    fn action(&mut self, within: Within<'_>) {
        let at = self.take();
        let action = within.action;
        let first = first_of(&self.before.actions, &action.name);
        self.add_second(Sort::Action, &action.name, at, first);
        let pushed = self.before.actions.push(Standing {
            name: action.name,
            at,
        });
        self.findings.note_memory(pushed.is_ok());
        self.declaration(within, at);
        if within.class.associated && !action.body.instrs.is_empty() {
            let detail = Detail::Class(within.class_place);
            self.add(CheckKind::AssociatedBody, &action.name, at, detail);
        }
        self.before.params.clear();
        for param in &action.params {
            self.param(param);
        }
        self.block(within, &action.body);
    }

    // Looks at the parameters of an action beside those of the first one of its name in its class.
    fn declaration(&mut self, within: Within<'_>, at: usize) {
        let name = &within.action.name;
        let Some(first) = first_of(&self.before.declared, name) else {
            let pushed = self.before.declared.push(Standing { name: *name, at });
            self.findings.note_memory(pushed.is_ok());
            return;
        };
        let Some(declared) = self.directory.action_in(within.class_place, name) else {
            return;
        };
        if !same_params(&declared.params, &within.action.params) {
            let detail = Detail::First {
                sort: Sort::Action,
                at: first,
            };
            self.add(CheckKind::ParamsDiffer, name, at, detail);
        }
    }

    // Goes over a parameter of an action.
    fn param(&mut self, param: &ActionParam<Global>) {
        let at = self.take();
        let first = match first_of(&self.before.class_params, &param.name) {
            Some(first) => Some(first),
            None => first_of(&self.before.params, &param.name),
        };
        self.add_second(Sort::Param, &param.name, at, first);
        if let Some(value) = &param.default {
            if kind_of(value) != param.kind {
                self.add_default(param.kind, &param.name, at);
            }
        }
        let pushed = self.before.params.push(Standing {
            name: param.name,
            at,
        });
        self.findings.note_memory(pushed.is_ok());
    }
}
