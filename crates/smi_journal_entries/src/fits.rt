//! Whether values are the arguments of an action.
ghost use Rattle.std.specs.Prelude.{◌≡◌, false};
ghost use Rattle.smi_journal_entries.specs.Fits as says;
ghost use Rattle.sml_tree.specs.Kinds as kinds;

use sml_domain::{ActionId, Domain, ObjId, Param, Value};
use sml_tree::Kind;

// Whether two kinds are the same.
pub(crate) fn is_kind(a: Kind, b: Kind) -> bool
    ensures { result ≡ kinds.same_kind a b }
{
    match (a, b) {
        (Kind::Int, Kind::Int) | (Kind::Str, Kind::Str) => true,
        _ => false,
    }
}

/// Whether values are those of parameters, in order, each with its kind. The cost is their count.
pub fn are_values_of(params: &[Param], values: &[Value]) -> bool
    ensures { result ≡ says.are_values_of params.now values.now }
{
    match params {
        [] => values.is_empty(),
        [p, ps @ ..] => match values {
            [] => false,
            [v, vs @ ..] => is_kind(p.kind, v.kind()) && are_values_of(ps, vs),
        },
    }
}

/// Whether an action is one of an object's class, and values are those of its parameters. The cost
/// is the counts of the class's actions and of the values.
pub fn are_arguments(values: &[Value], domain: &Domain, o: ObjId, action: ActionId) -> bool
    ensures { result ≡ says.are_arguments domain.now o action values.now }
{
    match domain.parameters(o, action) {
        Some(params) => are_values_of(params, values),
        None => false,
    }
}
