//! The names of an instruction or a test.

use crate::directory::{Meant, action_param, arg_kind, class_param, has_state, passes};
use crate::finding::{Detail, Role, Site, Sort};
use crate::walk::{Walk, Within};
use sml_check_faults::CheckKind;
use sml_tree::{Action, ActionParam, Arg, Kind, Name, Passed, Scope, Waited};
use std::alloc::Global;

/// A `do` that is looked at: its action, where the name of that is, and the objects that it is sent to.
#[derive(Clone, Copy)]
struct Call<'b> {
    name: &'b Name,
    at: usize,
    objects: &'b [Name],
    declared: usize,
}

impl Call<'_> {
    // Whether one of the objects is inserted into the set.
    fn is_inserted(self, object: &Name) -> bool {
        let meant = Meant {
            objects: self.objects,
            declared: self.declared,
        };
        meant.is_inserted(object)
    }
}

// Whether two kinds are known and differ.
fn kinds_differ(kind: Kind, other: Option<Kind>) -> bool {
    match other {
        Some(other) => kind != other,
        None => false,
    }
}

impl<'w, const MOST: usize> Walk<'w, MOST> {
    // Adds that a name is not one of an object or a set, where it should be.
    fn named(&mut self, is_set: bool, name: &Name, at: usize, site: Site) {
        if is_set {
            if self.directory.set(name).is_none() {
                self.add(CheckKind::UnknownSet, name, at, Detail::Site(site));
            }
        } else if self.directory.object(name).is_none() {
            self.add(CheckKind::UnknownObject, name, at, Detail::Site(site));
        }
    }

    /// Goes over a test.
    pub(crate) fn test(&mut self, within: Within<'_>, scope: Scope, name: &Name, states: &[Name]) {
        let at = self.take();
        let is_set = match scope {
            Scope::One => false,
            Scope::All | Scope::Any => true,
        };
        self.named(is_set, name, at, Site::Tested);
        let meant = self.directory.objects_meant(is_set, name);
        self.own_objects(within, meant, at, Site::Tested);
        for state in states {
            let state_at = self.take();
            if !meant.objects.is_empty() && !self.directory.some_has_state(state, meant.objects) {
                self.add_tested(is_set, state, state_at, meant);
            }
        }
    }

    /// Goes over what a `wait` names.
    pub(crate) fn waits(&mut self, within: Within<'_>, names: &[Waited]) {
        for waited in names {
            self.waited(within, waited);
        }
    }

    // Goes over a name of a `wait`.
    fn waited(&mut self, within: Within<'_>, waited: &Waited) {
        let at = self.take();
        self.named(waited.all, &waited.name, at, Site::Waited);
        let meant = self.directory.objects_meant(waited.all, &waited.name);
        self.own_objects(within, meant, at, Site::Waited);
    }

    /// Goes over what an `insert` or a `remove` names.
    pub(crate) fn change(&mut self, member: &Name, set: &Name) {
        let member_at = self.take();
        self.named(false, member, member_at, Site::Changed);
        let set_at = self.take();
        self.named(true, set, set_at, Site::Changed);
    }

    // Looks for objects of the class that this is in among those that a name speaks of. The first is reported.
    fn own_objects(&mut self, within: Within<'_>, meant: Meant<'_>, at: usize, site: Site) {
        let class = within.class_place;
        let mut is_told = false;
        for object in meant.objects {
            if self.directory.is_of_class(object, &within.class.name) {
                let detail = Detail::Read {
                    class,
                    site,
                    is_inserted: meant.is_inserted(object),
                };
                self.add_or_not(CheckKind::SelfInCondition, object, at, detail, is_told);
                is_told = true;
            }
        }
    }

    // Adds that none of the objects of a test has a state. If no class of theirs is known, that is the fault.
    fn add_tested(&mut self, is_set: bool, state: &Name, at: usize, meant: Meant<'_>) {
        for object in meant.objects {
            if let Some(class) = self.directory.class_of(object) {
                let detail = Detail::Tested {
                    class,
                    object: *object,
                    is_set,
                    is_inserted: meant.is_inserted(object),
                };
                self.add(CheckKind::UnknownState, state, at, detail);
                return;
            }
        }
        self.add_or_not(CheckKind::UnknownState, state, at, Detail::Plain, true);
    }

    /// Goes over a `do`.
    pub(crate) fn send(
        &mut self,
        within: Within<'_>,
        name: &Name,
        args: &[Passed<Global>],
        is_set: bool,
        target: &Name,
    ) {
        let at = self.take();
        let Meant { objects, declared } = self.directory.objects_meant(is_set, target);
        let call = Call {
            name,
            at,
            objects,
            declared,
        };
        self.called(call);
        for (i, object) in objects.iter().enumerate() {
            self.missing(call, args, i, object);
        }
        self.before.names.clear();
        for passed in args {
            self.passed_arg(within, call, passed);
        }
        let target_at = self.take();
        self.named(is_set, target, target_at, Site::Target(call.at));
    }

    // Looks whether the class of each target declares the action. Where no class of those that do not is known, that
    // is the fault.
    fn called(&mut self, call: Call<'_>) {
        let mut lacks = false;
        for object in call.objects {
            if self.directory.action_of(call.name, object).is_some() {
                continue;
            }
            lacks = true;
            if let Some(class) = self.directory.class_of(object) {
                let detail = Detail::Called {
                    class,
                    object: *object,
                    call: call.at,
                    is_inserted: call.is_inserted(object),
                };
                self.add(CheckKind::UnknownAction, call.name, call.at, detail);
                return;
            }
        }
        if lacks {
            self.add_or_not(
                CheckKind::UnknownAction,
                call.name,
                call.at,
                Detail::Plain,
                true,
            );
        }
    }

    // Looks for parameters of the action at an object that get no value. What is the same for an object before it is
    // not told.
    fn missing(&mut self, call: Call<'_>, args: &[Passed<Global>], i: usize, object: &Name) {
        let Some(class) = self.directory.class_of(object) else {
            return;
        };
        let Some(action) = self.directory.action_in(class, call.name) else {
            return;
        };
        if !action.params.iter().any(|param| is_missing(param, args)) {
            return;
        }
        let follows = self.is_of_some(class, call.objects, i);
        for param in &action.params {
            if is_missing(param, args) {
                self.add_missing(call, class, object, &param.name, follows);
            }
        }
    }

    // Adds that a parameter of the action gets no value at an object of a class.
    fn add_missing(
        &mut self,
        call: Call<'_>,
        class: usize,
        object: &Name,
        param: &Name,
        follows: bool,
    ) {
        let detail = Detail::Called {
            class,
            object: *object,
            call: call.at,
            is_inserted: call.is_inserted(object),
        };
        self.add_or_not(CheckKind::MissingArg, param, call.at, detail, follows);
    }

    // Whether some of the first `count` objects are of a class.
    fn is_of_some(&self, class: usize, objects: &[Name], count: usize) -> bool {
        for object in objects.iter().take(count) {
            if self.directory.class_of(object) == Some(class) {
                return true;
            }
        }
        false
    }

    // Goes over an argument of a `do`.
    fn passed_arg(&mut self, within: Within<'_>, call: Call<'_>, passed: &Passed<Global>) {
        let at = self.take();
        self.note_name(Sort::Argument, &passed.name, at);
        self.unknown_arg(call, &passed.name, at);
        self.mismatched(within, call, passed, at);
        self.value(within, &passed.value);
    }

    // Looks whether the action has a parameter at each target that declares it.
    fn unknown_arg(&mut self, call: Call<'_>, name: &Name, at: usize) {
        for object in call.objects {
            let Some(class) = self.directory.class_of(object) else {
                continue;
            };
            let Some(action) = self.directory.action_in(class, call.name) else {
                continue;
            };
            if action_param(action, name).is_none() {
                let detail = Detail::Called {
                    class,
                    object: *object,
                    call: call.at,
                    is_inserted: call.is_inserted(object),
                };
                self.add(CheckKind::UnknownParam, name, at, detail);
                return;
            }
        }
    }

    // The kind of a parameter of the action at the first target where a value of this kind does not fit it.
    fn other_kind(&self, call: Call<'_>, name: &Name, kind: Option<Kind>) -> Option<Kind> {
        for object in call.objects {
            if let Some(action) = self.directory.action_of(call.name, object) {
                if let Some(wanted) = kind_that_differs(action, name, kind) {
                    return Some(wanted);
                }
            }
        }
        None
    }

    // Looks whether an argument is of the kind of its parameter at each target.
    fn mismatched(
        &mut self,
        within: Within<'_>,
        call: Call<'_>,
        passed: &Passed<Global>,
        at: usize,
    ) {
        let kind = arg_kind(within.class, within.action, &passed.value);
        if let Some(wanted) = self.other_kind(call, &passed.name, kind) {
            let detail = Detail::Kinds {
                wanted,
                role: Role::Passed(call.at),
                value: self.value_at(&passed.value),
            };
            self.add(CheckKind::KindMismatch, &passed.name, at, detail);
        }
    }

    // Where the next value is, if it is a parameter.
    fn value_at(&self, value: &Arg<Global>) -> Option<usize> {
        match value {
            Arg::Lit(_) => None,
            Arg::Param(_) => Some(self.next_at()),
        }
    }

    // Goes over a value.
    fn value(&mut self, within: Within<'_>, value: &Arg<Global>) {
        let Arg::Param(name) = value else {
            return;
        };
        let at = self.take();
        if class_param(within.class, name).is_none()
            && action_param(within.action, name).is_none()
        {
            let detail = Detail::Own {
                class: within.class_place,
                state: within.state_place,
                action: within.action_place,
            };
            self.add(CheckKind::UnknownParam, name, at, detail);
        }
    }

    /// Goes over a `set`.
    pub(crate) fn assign(&mut self, within: Within<'_>, name: &Name, value: &Arg<Global>) {
        let at = self.take();
        match class_param(within.class, name) {
            None => {
                let detail = Detail::Set {
                    class: within.class_place,
                    state: within.state_place,
                    action: within.action_place,
                };
                self.add(CheckKind::UnknownParam, name, at, detail);
            }
            Some(param) => {
                if kinds_differ(param.kind, arg_kind(within.class, within.action, value)) {
                    let detail = Detail::Kinds {
                        wanted: param.kind,
                        role: Role::Assigned,
                        value: self.value_at(value),
                    };
                    self.add(CheckKind::KindMismatch, name, at, detail);
                }
            }
        }
        self.value(within, value);
    }

    /// Goes over a state in which an action ends.
    pub(crate) fn end(&mut self, within: Within<'_>, state: &Name) {
        let at = self.take();
        if !has_state(within.class, state) {
            let detail = Detail::Class(within.class_place);
            self.add(CheckKind::UnknownState, state, at, detail);
        }
    }
}

// The kind of a parameter of an action, if it is not this one.
fn kind_that_differs(action: &Action<Global>, name: &Name, kind: Option<Kind>) -> Option<Kind> {
    match action_param(action, name) {
        Some(param) if kinds_differ(param.kind, kind) => Some(param.kind),
        _ => None,
    }
}

// Whether a parameter has no default and no argument.
fn is_missing(param: &ActionParam<Global>, args: &[Passed<Global>]) -> bool {
    param.default.is_none() && !passes(args, &param.name)
}
