//! Values, and what names of parameters mean.
ghost use Rattle.std.specs.Prelude.{◌≡◌, ◌||◌, true, All, IfOk, is_some, map};
ghost use Rattle.sml_tree.specs.Content.{literal_content, arg_content, passed_content, class_content, action_content};
ghost use Rattle.sml_domain.specs.Values.{literal_value};
ghost use Rattle.sml_domain.specs.Texts.{IsText};
ghost use Rattle.sml_domain.specs.Trees as trees;
ghost use Rattle.sml_check_build.specs.Numbers.{place_or};
ghost use Rattle.sml_check_build.specs.Programs as says;
ghost use Rattle.sml_check_build.specs.Placed.{IsWritten, ValuePlaced, PassedPlaced};

use sml_domain::{Argument, Operand, ParamId, Text, TextError, Value};
use sml_tree::{Action, Arg, Class, Literal, Name, Passed};
use std::alloc::{AllocError, Allocator, Global};

// Returns the text of a string that is written out.
fn text_of(alloc: Global, bytes: &[u8]) -> Result<Text, AllocError>
    requires { IsText bytes.now }
    ensures { IfOk result (λ t. t ≡ bytes.now) }
{
    match Text::new(alloc, bytes) {
        Ok(text) => Ok(text),
        Err(TextError::Memory) => Err(AllocError),
        Err(TextError::BadText) => unreachable!(),
    }
}

/// Returns the value that is written out.
pub fn value<A: Allocator + Clone>(alloc: Global, literal: &Literal<A>) -> Result<Value, AllocError>
    requires { IsWritten (literal_content literal.now) }
    ensures { IfOk result (λ v. v ≡ literal_value (literal_content literal.now)) }
{
    match literal {
        Literal::Int(n) => Ok(Value::Int(*n)),
        Literal::Str(bytes) => Ok(Value::Text(text_of(alloc, bytes)?)),
    }
}

// Returns the place of a parameter in the list of a class.
fn class_place<A: Allocator + Clone>(class: &Class<A>, name: &Name) -> Option<usize>
    ensures { result ≡ says.class_place (class_content class.now) name.now }
{
    for (i, param) in class.params.iter().enumerate() {
        if *name == param.name {
            return Some(i);
        }
    }
    None
}

// Returns the place of a parameter in the list of an action.
fn action_place<A: Allocator + Clone>(action: &Action<A>, name: &Name) -> Option<usize>
    ensures { result ≡ says.action_param_place (action_content action.now) name.now }
{
    for (i, param) in action.params.iter().enumerate() {
        if *name == param.name {
            return Some(i);
        }
    }
    None
}

/// Returns the parameter of a class.
pub fn own_param<A: Allocator + Clone>(class: &Class<A>, name: &Name) -> ParamId
    requires { is_some (says.class_place (class_content class.now) name.now) ≡ true }
    ensures { result ≡ place_or (says.class_place (class_content class.now) name.now) }
{
    match class_place(class, name) {
        Some(place) => ParamId::new(place),
        None => unreachable!(),
    }
}

// Returns the parameter of a class, or else of an action.
fn param_of<A: Allocator + Clone>(class: &Class<A>, action: &Action<A>, name: &Name) -> Operand
    requires { is_some (says.class_place (class_content class.now) name.now) || is_some
        (says.action_param_place (action_content action.now) name.now) ≡ true }
    ensures { trees.operand result ≡ says.param_of (says.class_place (class_content class.now) name.now)
        (says.action_param_place (action_content action.now) name.now) }
{
    if let Some(place) = class_place(class, name) {
        return Operand::Own(ParamId::new(place));
    }
    match action_place(action, name) {
        Some(place) => Operand::Given(ParamId::new(place)),
        None => unreachable!(),
    }
}

/// Returns a value that is written out, or a parameter.
pub fn operand<A: Allocator + Clone>(
    alloc: Global,
    class: &Class<A>,
    action: &Action<A>,
    arg: &Arg<A>,
) -> Result<Operand, AllocError>
    requires { ValuePlaced (class_content class.now) (action_content action.now) (arg_content arg.now) }
    ensures { IfOk result (λ v. trees.operand v ≡ says.operand_numbered (class_content class.now)
        (action_content action.now) (arg_content arg.now)) }
{
    match arg {
        Arg::Lit(literal) => Ok(Operand::Fixed(value(alloc, literal)?)),
        Arg::Param(name) => Ok(param_of(class, action, name)),
    }
}

// Returns an argument of a request.
fn argument<A: Allocator + Clone>(
    alloc: Global,
    class: &Class<A>,
    action: &Action<A>,
    passed: &Passed<A>,
) -> Result<Argument, AllocError>
    requires { PassedPlaced (class_content class.now) (action_content action.now) (passed_content passed.now) }
    ensures { IfOk result (λ x. trees.argument x ≡ says.argument_numbered (class_content class.now)
        (action_content action.now) (passed_content passed.now)) }
{
    Ok(Argument {
        name: passed.name,
        value: operand(alloc, class, action, &passed.value)?,
    })
}

/// Returns the arguments of a request.
pub fn arguments<A: Allocator + Clone>(
    alloc: Global,
    class: &Class<A>,
    action: &Action<A>,
    args: &Vec<Passed<A>, A>,
) -> Result<Vec<Argument>, AllocError>
    requires { All (PassedPlaced (class_content class.now) (action_content action.now))
        (map passed_content args.now.items) }
    ensures { IfOk result (λ v. map trees.argument v.items
        ≡ map (says.argument_numbered (class_content class.now) (action_content action.now))
        (map passed_content args.now.items)) }
{
    let mut rows = Vec::new(alloc);
    for passed in args {
        rows.push(argument(alloc, class, action, passed)?)?;
    }
    Ok(rows)
}
