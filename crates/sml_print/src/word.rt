//! The text of values, parameters and lists.
ghost use Rattle.sml_text.specs.Written.{Told, StaysDue};
ghost use Rattle.sml_tree.specs.Content.{literal_content, arg_content, passed_content, class_param_content, action_param_content};
ghost use Rattle.std.specs.Prelude.{map, option_map};
ghost use Rattle.sml_print.specs.Words as text;

use sml_text::{Sink, tell, tell_i64};
use sml_tree::{ActionParam, Arg, ClassParam, Kind, Literal, Name, Passed};
use std::alloc::Allocator;

// Writes the indentation of a line.
pub(crate) fn tell_indent<S: Sink>(sink: &mut S, failed: &mut bool, level: u32)
    ensures told { Told (S.contents sink.old) failed.old (S.contents sink.new) failed.new (text.indent level) }
    ensures due { StaysDue (S.has_refused sink.old) failed.old (S.has_refused sink.new) failed.new }
{
    for _ in 0..level {
        tell(sink, failed, b"  ");
    }
}

// Writes a comma, before each text of a list except the first.
pub(crate) fn tell_comma<S: Sink>(sink: &mut S, failed: &mut bool, before: usize)
    ensures told { Told (S.contents sink.old) failed.old (S.contents sink.new) failed.new (text.comma_behind before) }
    ensures due { StaysDue (S.has_refused sink.old) failed.old (S.has_refused sink.new) failed.new }
{
    if before > 0 {
        tell(sink, failed, b", ");
    }
}

// Writes a name.
pub(crate) fn tell_name<S: Sink>(sink: &mut S, failed: &mut bool, name: &Name)
    ensures told { Told (S.contents sink.old) failed.old (S.contents sink.new) failed.new name.now }
    ensures due { StaysDue (S.has_refused sink.old) failed.old (S.has_refused sink.new) failed.new }
{
    tell(sink, failed, name.as_bytes());
}

// Writes names with commas between them.
fn tell_names<S: Sink>(sink: &mut S, failed: &mut bool, names: &[Name])
    ensures told { Told (S.contents sink.old) failed.old (S.contents sink.new) failed.new
        (text.comma_list text.name_text names.now) }
    ensures due { StaysDue (S.has_refused sink.old) failed.old (S.has_refused sink.new) failed.new }
{
    for (i, name) in names.iter().enumerate() {
        tell_comma(sink, failed, i);
        tell_name(sink, failed, name);
    }
}

// Writes the members of a set, or the states of a list.
pub(crate) fn tell_members<S: Sink>(sink: &mut S, failed: &mut bool, names: &[Name])
    ensures told { Told (S.contents sink.old) failed.old (S.contents sink.new) failed.new
        (text.members_text names.now) }
    ensures due { StaysDue (S.has_refused sink.old) failed.old (S.has_refused sink.new) failed.new }
{
    if names.is_empty() {
        return tell(sink, failed, b"{ }");
    }
    tell(sink, failed, b"{ ");
    tell_names(sink, failed, names);
    tell(sink, failed, b" }");
}

// Writes a value.
fn tell_literal<S: Sink, A: Allocator + Clone>(
    sink: &mut S,
    failed: &mut bool,
    literal: &Literal<A>,
)
    ensures told { Told (S.contents sink.old) failed.old (S.contents sink.new) failed.new
        (text.literal_text (literal_content literal.now)) }
    ensures due { StaysDue (S.has_refused sink.old) failed.old (S.has_refused sink.new) failed.new }
{
    match literal {
        Literal::Int(int) => tell_i64(sink, failed, *int),
        Literal::Str(bytes) => {
            tell(sink, failed, b"\"");
            tell(sink, failed, bytes);
            tell(sink, failed, b"\"");
        }
    }
}

// Writes a value or the name of a parameter.
pub(crate) fn tell_arg<S: Sink, A: Allocator + Clone>(sink: &mut S, failed: &mut bool, arg: &Arg<A>)
    ensures told { Told (S.contents sink.old) failed.old (S.contents sink.new) failed.new
        (text.arg_text (arg_content arg.now)) }
    ensures due { StaysDue (S.has_refused sink.old) failed.old (S.has_refused sink.new) failed.new }
{
    match arg {
        Arg::Lit(literal) => tell_literal(sink, failed, literal),
        Arg::Param(name) => tell_name(sink, failed, name),
    }
}

// Writes an argument.
fn tell_passed<S: Sink, A: Allocator + Clone>(sink: &mut S, failed: &mut bool, passed: &Passed<A>)
    ensures told { Told (S.contents sink.old) failed.old (S.contents sink.new) failed.new
        (text.passed_text (passed_content passed.now)) }
    ensures due { StaysDue (S.has_refused sink.old) failed.old (S.has_refused sink.new) failed.new }
{
    tell_name(sink, failed, &passed.name);
    tell(sink, failed, b" = ");
    tell_arg(sink, failed, &passed.value);
}

// Writes arguments with commas between them.
fn tell_passed_list<S: Sink, A: Allocator + Clone>(
    sink: &mut S,
    failed: &mut bool,
    args: &Vec<Passed<A>, A>,
)
    ensures told { Told (S.contents sink.old) failed.old (S.contents sink.new) failed.new
        (text.comma_list text.passed_text (map passed_content args.now.items)) }
    ensures due { StaysDue (S.has_refused sink.old) failed.old (S.has_refused sink.new) failed.new }
{
    for (i, passed) in args.iter().enumerate() {
        tell_comma(sink, failed, i);
        tell_passed(sink, failed, passed);
    }
}

// Writes the arguments of a `do`, if it has some.
pub(crate) fn tell_args<S: Sink, A: Allocator + Clone>(
    sink: &mut S,
    failed: &mut bool,
    args: &Vec<Passed<A>, A>,
)
    ensures told { Told (S.contents sink.old) failed.old (S.contents sink.new) failed.new
        (text.bracket_list text.passed_text (map passed_content args.now.items)) }
    ensures due { StaysDue (S.has_refused sink.old) failed.old (S.has_refused sink.new) failed.new }
{
    if args.is_empty() {
        return;
    }
    tell(sink, failed, b" (");
    tell_passed_list(sink, failed, args);
    tell(sink, failed, b")");
}

// Writes the kind of a parameter.
fn tell_kind<S: Sink>(sink: &mut S, failed: &mut bool, kind: Kind)
    ensures told { Told (S.contents sink.old) failed.old (S.contents sink.new) failed.new (text.kind_text kind) }
    ensures due { StaysDue (S.has_refused sink.old) failed.old (S.has_refused sink.new) failed.new }
{
    match kind {
        Kind::Int => tell(sink, failed, b"int "),
        Kind::Str => tell(sink, failed, b"string "),
    }
}

// Writes a parameter of a class.
fn tell_class_param<S: Sink, A: Allocator + Clone>(
    sink: &mut S,
    failed: &mut bool,
    param: &ClassParam<A>,
)
    ensures told { Told (S.contents sink.old) failed.old (S.contents sink.new) failed.new
        (text.class_param_text (class_param_content param.now)) }
    ensures due { StaysDue (S.has_refused sink.old) failed.old (S.has_refused sink.new) failed.new }
{
    tell_kind(sink, failed, param.kind);
    tell_name(sink, failed, &param.name);
    tell(sink, failed, b" = ");
    tell_literal(sink, failed, &param.value);
}

// Writes the default of a parameter, if it has one.
fn tell_default<S: Sink, A: Allocator + Clone>(
    sink: &mut S,
    failed: &mut bool,
    default: &Option<Literal<A>>,
)
    ensures told { Told (S.contents sink.old) failed.old (S.contents sink.new) failed.new
        (text.default_text (option_map literal_content default.now)) }
    ensures due { StaysDue (S.has_refused sink.old) failed.old (S.has_refused sink.new) failed.new }
{
    if let Some(literal) = default {
        tell(sink, failed, b" = ");
        tell_literal(sink, failed, literal);
    }
}

// Writes a parameter of an action.
fn tell_action_param<S: Sink, A: Allocator + Clone>(
    sink: &mut S,
    failed: &mut bool,
    param: &ActionParam<A>,
)
    ensures told { Told (S.contents sink.old) failed.old (S.contents sink.new) failed.new
        (text.action_param_text (action_param_content param.now)) }
    ensures due { StaysDue (S.has_refused sink.old) failed.old (S.has_refused sink.new) failed.new }
{
    tell_kind(sink, failed, param.kind);
    tell_name(sink, failed, &param.name);
    tell_default(sink, failed, &param.default);
}

// Writes the parameters of a class with commas between them.
pub(crate) fn tell_class_params<S: Sink, A: Allocator + Clone>(
    sink: &mut S,
    failed: &mut bool,
    params: &Vec<ClassParam<A>, A>,
)
    ensures told { Told (S.contents sink.old) failed.old (S.contents sink.new) failed.new
        (text.comma_list text.class_param_text (map class_param_content params.now.items)) }
    ensures due { StaysDue (S.has_refused sink.old) failed.old (S.has_refused sink.new) failed.new }
{
    for (i, param) in params.iter().enumerate() {
        tell_comma(sink, failed, i);
        tell_class_param(sink, failed, param);
    }
}

// Writes the parameters of an action with commas between them.
fn tell_action_param_list<S: Sink, A: Allocator + Clone>(
    sink: &mut S,
    failed: &mut bool,
    params: &Vec<ActionParam<A>, A>,
)
    ensures told { Told (S.contents sink.old) failed.old (S.contents sink.new) failed.new
        (text.comma_list text.action_param_text (map action_param_content params.now.items)) }
    ensures due { StaysDue (S.has_refused sink.old) failed.old (S.has_refused sink.new) failed.new }
{
    for (i, param) in params.iter().enumerate() {
        tell_comma(sink, failed, i);
        tell_action_param(sink, failed, param);
    }
}

// Writes the parameters of an action, if it has some.
pub(crate) fn tell_action_params<S: Sink, A: Allocator + Clone>(
    sink: &mut S,
    failed: &mut bool,
    params: &Vec<ActionParam<A>, A>,
)
    ensures told { Told (S.contents sink.old) failed.old (S.contents sink.new) failed.new
        (text.bracket_list text.action_param_text (map action_param_content params.now.items)) }
    ensures due { StaysDue (S.has_refused sink.old) failed.old (S.has_refused sink.new) failed.new }
{
    if params.is_empty() {
        return;
    }
    tell(sink, failed, b" (");
    tell_action_param_list(sink, failed, params);
    tell(sink, failed, b")");
}
