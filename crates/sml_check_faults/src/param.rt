//! Parameters and arguments.
ghost use Rattle.std.specs.Prelude.{◌≡◌, ◌&&◌, not, is_some, map, flat_map};
ghost use Rattle.std.specs.List.{list_any};
ghost use Rattle.sml_tree.specs.Content.{file_content, class_content, action_content, action_param_content, arg_content, passed_content};
ghost use Rattle.sml_check_faults.specs.Lookup as look;
ghost use Rattle.sml_check_faults.specs.Faults as faults;

use crate::lookup::{action_param, class_param, is_name};
use crate::tables::Tables;
use sml_tree::{Action, ActionParam, Arg, Class, Name, Passed};
use std::alloc::Allocator;

/// Returns the name of a value, if it is not a parameter's.
pub fn unknown_value<A: Allocator + Clone>(
    class: &Class<A>,
    action: &Action<A>,
    value: &Arg<A>,
) -> Option<Name>
    ensures { result ≡ look.first_item (faults.unknown_value (class_content class.now) (action_content action.now)
        (arg_content value.now)) }
{
    match value {
        Arg::Lit(_) => None,
        Arg::Param(name) => {
            if class_param(class, name).is_some() || action_param(action, name).is_some() {
                None
            } else {
                Some(*name)
            }
        }
    }
}

/// Returns the first name of a `set` that is not a parameter's.
pub fn set_unknown_param<A: Allocator + Clone>(
    class: &Class<A>,
    action: &Action<A>,
    param: &Name,
    value: &Arg<A>,
) -> Option<Name>
    ensures { result ≡ look.first_item (faults.set_unknown_param (class_content class.now)
        (action_content action.now) param.now (arg_content value.now)) }
{
    if class_param(class, param).is_none() {
        Some(*param)
    } else {
        unknown_value(class, action, value)
    }
}

/// Whether an argument of a name is passed.
pub fn passes<A: Allocator + Clone>(args: &[Passed<A>], name: &Name) -> bool
    ensures { result ≡ list_any (look.is_passed name.now) (map passed_content args.now) }
{
    for passed in args {
        if is_name(name, &passed.name) {
            return true;
        }
    }
    false
}

// Whether a parameter has no default and no argument.
fn is_missing<A: Allocator + Clone>(param: &ActionParam<A>, args: &[Passed<A>]) -> bool
    ensures { result ≡ (not (is_some (action_param_content param.now).default) && not
        (list_any (look.is_passed param.now.name) (map passed_content args.now))) }
{
    param.default.is_none() && !passes(args, &param.name)
}

// Returns the first of some parameters with no default and no argument.
fn missing_param<A: Allocator + Clone>(
    params: &[ActionParam<A>],
    args: &[Passed<A>],
) -> Option<Name>
    ensures { result ≡ look.first_item (flat_map (faults.missing_param (map passed_content args.now))
        (map action_param_content params.now)) }
{
    for param in params {
        if is_missing(param, args) {
            return Some(param.name);
        }
    }
    None
}

impl<'a, A: Allocator + Clone> Tables<'a, A> {
    /// Returns the first name of some arguments that is not a parameter's.
    #[tactic(auto, using(crate::proofs::Rests::firsts))]
    pub(crate) fn unknown_param(
        &self,
        called: &Name,
        objects: &[Name],
        class: &Class<A>,
        action: &Action<A>,
        args: &[Passed<A>],
    ) -> Option<Name>
        ensures { result ≡ look.first_item (flat_map (faults.unknown_passed
            (file_content self.now.file.now) called.now objects.now (class_content class.now)
            (action_content action.now)) (map passed_content args.now)) }
    {
        for passed in args {
            if let Some(name) = self.unknown_passed(called, objects, class, action, passed) {
                return Some(name);
            }
        }
        None
    }

    // Returns the first name of an argument that is not a parameter's.
    fn unknown_passed(
        &self,
        called: &Name,
        objects: &[Name],
        class: &Class<A>,
        action: &Action<A>,
        passed: &Passed<A>,
    ) -> Option<Name>
        ensures { result ≡ look.first_item (faults.unknown_passed
            (file_content self.now.file.now) called.now objects.now (class_content class.now)
            (action_content action.now) (passed_content passed.now)) }
    {
        if self.some_lacks_param(called, &passed.name, objects) {
            Some(passed.name)
        } else {
            unknown_value(class, action, &passed.value)
        }
    }

    // Whether an action lacks a parameter at some object.
    fn some_lacks_param(&self, action: &Name, param: &Name, objects: &[Name]) -> bool
        ensures { result ≡ list_any (faults.lacks_param_there
            (file_content self.now.file.now) action.now param.now) objects.now }
    {
        for object in objects {
            if self.lacks_param(action, param, object) {
                return true;
            }
        }
        false
    }

    // Whether an action lacks a parameter at an object.
    fn lacks_param(&self, action: &Name, param: &Name, object: &Name) -> bool
        ensures { result ≡ faults.lacks_param_there (file_content self.now.file.now) action.now param.now object.now }
    {
        match self.action_of(action, object) {
            Some(called) => action_param(called, param).is_none(),
            None => false,
        }
    }

    /// Returns the first parameter that a request leaves without a value.
    #[tactic(auto, using(crate::proofs::Rests::firsts))]
    pub(crate) fn missing_arg(
        &self,
        called: &Name,
        args: &[Passed<A>],
        objects: &[Name],
    ) -> Option<Name>
        ensures { result ≡ look.first_item (flat_map (faults.missing_at (file_content self.now.file.now) called.now
            (map passed_content args.now)) objects.now) }
    {
        for object in objects {
            if let Some(name) = self.missing_at(called, args, object) {
                return Some(name);
            }
        }
        None
    }

    // Returns the first parameter that a request leaves without a value at an object.
    fn missing_at(&self, called: &Name, args: &[Passed<A>], object: &Name) -> Option<Name>
        ensures { result ≡ look.first_item (faults.missing_at (file_content self.now.file.now) called.now
            (map passed_content args.now) object.now) }
    {
        match self.action_of(called, object) {
            Some(action) => missing_param(&action.params, args),
            None => None,
        }
    }
}
