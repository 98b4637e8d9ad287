//! What is told where a log goes on in another domain.
ghost use Rattle.std.specs.Prelude.{◌≡◌, ◌++◌, OnOk};
ghost use Rattle.std.specs.List.{list_any};
ghost use Rattle.std.specs.Option.{option_to_list};
ghost use Rattle.smi_front_moved.specs.MovedLines as spec;

use sml_domain::{ObjId, SetId, StateId};
use std::alloc::AllocError;

/// A line that is told where a log goes on in another domain.
#[derive(Clone, Copy)]
pub enum MovedLine {
    /// The new domain does not have an object of the old one, or that has no such state there.
    GoneState(ObjId, StateId),
    /// It does not have the object, or that has no parameter of the name and the kind of the one at this place.
    GoneParam(ObjId, usize),
    /// It does not have a set of the old domain, or that may not have this object of the old one there.
    GoneMember(SetId, ObjId),
    /// It does not have an object of the old domain that is killed again.
    GoneKill(ObjId),
    /// An object of the new domain that the old one does not have.
    NewObject(ObjId),
    /// Such a set.
    NewSet(SetId),
    /// A set of the new domain declares this object of it as a member, and both were there, but the set goes on with
    /// the members that it has.
    NotMember(SetId, ObjId),
    /// The name at this place of what goes along is forgotten.
    Forgot(usize),
}

/// Whether a line tells that the new domain does not have something.
pub fn is_gone_line(line: &MovedLine) -> bool
    ensures { result ≡ spec.is_gone_line line.now }
{
    match line {
        MovedLine::GoneState(_, _) => true,
        MovedLine::GoneParam(_, _) => true,
        MovedLine::GoneMember(_, _) => true,
        MovedLine::GoneKill(_) => true,
        MovedLine::NewObject(_) => false,
        MovedLine::NewSet(_) => false,
        MovedLine::NotMember(_, _) => false,
        MovedLine::Forgot(_) => false,
    }
}

/// Whether one of these lines tells so. The cost is their count.
pub fn has_gone_line(lines: &[MovedLine]) -> bool
    ensures { result ≡ list_any spec.is_gone_line lines.now }
{
    lines.iter().any(|line| is_gone_line(line))
}

/// Adds a line to others, unless it is so. The error is out of memory.
pub(crate) fn add_unless(
    lines: &mut Vec<MovedLine>,
    is: bool,
    line: MovedLine,
) -> Result<(), AllocError>
    ensures { OnOk result (lines.new.items ≡ lines.old.items ++ option_to_list (spec.line_unless is line)) }
{
    if is {
        return Ok(());
    }
    lines.push(line)?;
    Ok(())
}
