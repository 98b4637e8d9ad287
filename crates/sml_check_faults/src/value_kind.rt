//! The kinds of values and of parameters.
ghost use Rattle.std.specs.Prelude.{◌≡◌, map, flat_map};
ghost use Rattle.std.specs.List.{list_any};
ghost use Rattle.sml_tree.specs.Content.{file_content, class_content, action_content, arg_content, passed_content, literal_content};
ghost use Rattle.sml_check_faults.specs.Lookup as look;
ghost use Rattle.sml_check_faults.specs.Faults as faults;
ghost use Rattle.sml_tree.specs.Kinds as kinds;

use crate::lookup::{action_param, class_param};
use crate::tables::Tables;
use sml_tree::{Action, Arg, Class, Kind, Literal, Name, Passed};
use std::alloc::Allocator;

/// Whether two kinds are the same.
pub fn same_kind(kind: Kind, other: Kind) -> bool
    ensures { result ≡ kinds.same_kind kind other }
{
    match (kind, other) {
        (Kind::Int, Kind::Int) | (Kind::Str, Kind::Str) => true,
        (Kind::Int, Kind::Str) | (Kind::Str, Kind::Int) => false,
    }
}

/// Returns the kind of a value that is written out.
pub fn kind_of<A: Allocator + Clone>(value: &Literal<A>) -> Kind
    ensures { result ≡ faults.literal_kind (literal_content value.now) }
{
    match value {
        Literal::Int(_) => Kind::Int,
        Literal::Str(_) => Kind::Str,
    }
}

/// Whether two kinds are known and differ.
pub fn kinds_differ(kind: Option<Kind>, other: Option<Kind>) -> bool
    ensures { result ≡ faults.kinds_differ kind other }
{
    match kind {
        Some(kind) => match other {
            Some(other) => !same_kind(kind, other),
            None => false,
        },
        None => false,
    }
}

// Returns the kind of a value.
fn arg_kind<A: Allocator + Clone>(
    class: &Class<A>,
    action: &Action<A>,
    value: &Arg<A>,
) -> Option<Kind>
    ensures { result ≡ faults.arg_kind (class_content class.now) (action_content action.now) (arg_content value.now) }
{
    match value {
        Arg::Lit(literal) => Some(kind_of(literal)),
        Arg::Param(name) => match class_param(class, name) {
            Some(param) => Some(param.kind),
            None => match action_param(action, name) {
                Some(param) => Some(param.kind),
                None => None,
            },
        },
    }
}

/// Returns the parameter of a `set` that has another kind than its value.
pub fn set_mismatch<A: Allocator + Clone>(
    class: &Class<A>,
    action: &Action<A>,
    param: &Name,
    value: &Arg<A>,
) -> Option<Name>
    ensures { result ≡ look.first_item (faults.set_mismatch (class_content class.now)
        (action_content action.now) param.now (arg_content value.now)) }
{
    match class_param(class, param) {
        Some(found) => {
            if kinds_differ(Some(found.kind), arg_kind(class, action, value)) {
                Some(*param)
            } else {
                None
            }
        }
        None => None,
    }
}

impl<'a, A: Allocator + Clone> Tables<'a, A> {
    /// Returns the first argument of another kind than its parameter.
    pub fn mismatched(
        &self,
        called: &Name,
        objects: &[Name],
        class: &Class<A>,
        action: &Action<A>,
        args: &[Passed<A>],
    ) -> Option<Name>
        ensures { result ≡ look.first_item (flat_map (faults.mismatched
            (file_content self.now.file.now) called.now objects.now (class_content class.now)
            (action_content action.now)) (map passed_content args.now)) }
    {
        for passed in args {
            if self.is_mismatched(called, objects, class, action, passed) {
                return Some(passed.name);
            }
        }
        None
    }

    // Whether an argument has another kind than its parameter at some object.
    fn is_mismatched(
        &self,
        called: &Name,
        objects: &[Name],
        class: &Class<A>,
        action: &Action<A>,
        passed: &Passed<A>,
    ) -> bool
        ensures { result ≡ faults.is_mismatched (file_content self.now.file.now) called.now objects.now
            (class_content class.now) (action_content action.now) (passed_content passed.now) }
    {
        let kind = arg_kind(class, action, &passed.value);
        self.some_other_kind(called, kind, &passed.name, objects)
    }

    // Whether a parameter has another kind at some object.
    fn some_other_kind(
        &self,
        action: &Name,
        kind: Option<Kind>,
        param: &Name,
        objects: &[Name],
    ) -> bool
        ensures { result ≡ list_any (faults.other_kind_there (file_content self.now.file.now) action.now kind param.now)
            objects.now }
    {
        for object in objects {
            if self.other_kind_there(action, kind, param, object) {
                return true;
            }
        }
        false
    }

    // Whether a parameter has another kind at an object.
    fn other_kind_there(
        &self,
        action: &Name,
        kind: Option<Kind>,
        param: &Name,
        object: &Name,
    ) -> bool
        ensures { result ≡ faults.other_kind_there (file_content self.now.file.now) action.now kind param.now
            object.now }
    {
        match self.action_of(action, object) {
            Some(called) => match action_param(called, param) {
                Some(found) => kinds_differ(Some(found.kind), kind),
                None => false,
            },
            None => false,
        }
    }
}
