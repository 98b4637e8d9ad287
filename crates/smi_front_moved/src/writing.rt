//! The text of what is told where a log goes on in another domain. The cost of each function is the length of what it
//! adds.
ghost use Rattle.std.specs.Prelude.{◌≡◌, ◌++◌, OnOk, option_map, slice_get};
ghost use Rattle.std.specs.Option.{option_map_or};
ghost use Rattle.sml_domain.specs.Sound.{name_of_group};
ghost use Rattle.smi_journal.specs.CallText.{name_or_nothing, spaced, value_text};
ghost use Rattle.smi_front_moved.specs.declared.lines.MovedLine.TheVariants.{Forgot, GoneMember, GoneParam, GoneState};
ghost use Rattle.smi_front_moved.specs.MovedText as spec;

use crate::lines::MovedLine;
use crate::moving::{Moving, name_before};
use crate::others::name_of_set;
use crate::told_stands::param_in_front;
use smi_journal::tell_value;
use sml_domain::{Domain, ObjId, Param, SetId, StateId, Value};
use sml_tree::Name;
use std::alloc::AllocError;

// Adds a name with a blank before it.
fn add_word(text: &mut Vec<u8>, name: Option<Name>) -> Result<(), AllocError>
    ensures { OnOk result (text.new.items ≡ text.old.items ++ spaced (name_or_nothing name)) }
{
    text.push(b' ')?;
    match name {
        Some(name) => text.extend_from_slice(name.as_bytes()),
        None => Ok(()),
    }
}

// Adds a keyword, and the name of an object.
fn add_object(
    text: &mut Vec<u8>,
    keyword: &[u8],
    domain: &Domain,
    o: ObjId,
) -> Result<(), AllocError>
    ensures { OnOk result (text.new.items ≡ text.old.items ++ spec.object_told keyword.now domain.now o) }
{
    text.extend_from_slice(keyword)?;
    add_word(text, domain.object_name(o))
}

// Adds a keyword, and the name of a set.
fn add_set(
    text: &mut Vec<u8>,
    keyword: &[u8],
    domain: &Domain,
    set: SetId,
) -> Result<(), AllocError>
    ensures { OnOk result (text.new.items ≡ text.old.items ++ spec.set_told keyword.now domain.now set) }
{
    text.extend_from_slice(keyword)?;
    add_word(text, name_of_set(domain, set))
}

// Adds a keyword, the name of a set, and that of an object.
fn add_member(
    text: &mut Vec<u8>,
    keyword: &[u8],
    domain: &Domain,
    set: SetId,
    o: ObjId,
) -> Result<(), AllocError>
    ensures { OnOk result (text.new.items ≡ text.old.items ++ spec.member_told keyword.now domain.now set o) }
{
    add_set(text, keyword, domain, set)?;
    add_word(text, domain.object_name(o))
}

// Adds a value.
fn add_value(text: &mut Vec<u8>, value: &Value) -> Result<(), AllocError>
    ensures { OnOk result (text.new.items ≡ text.old.items ++ value_text value.now) }
{
    let mut failed = false;
    tell_value(text, &mut failed, value);
    if failed { Err(AllocError) } else { Ok(()) }
}

// Adds a parameter with its value.
fn add_param(text: &mut Vec<u8>, param: &Param) -> Result<(), AllocError>
    ensures { OnOk result (text.new.items ≡ text.old.items ++ spec.param_words param.now) }
{
    add_word(text, Some(param.name))?;
    text.push(b'=')?;
    match &param.value {
        Some(value) => add_value(text, value)?,
        None => {}
    }
    Ok(())
}

// Adds the parameter at a place of an object of the old domain.
fn add_param_at(
    text: &mut Vec<u8>,
    moving: &Moving<'_>,
    p: ObjId,
    place: usize,
) -> Result<(), AllocError>
    ensures { OnOk result (text.new.items ≡ text.old.items ++ spec.param_told moving.now p place) }
{
    match param_in_front(moving, p, place) {
        Some(param) => add_param(text, param),
        None => Ok(()),
    }
}

// Adds the name at a place, with a blank before it.
fn add_name_at(text: &mut Vec<u8>, moving: &Moving<'_>, place: usize) -> Result<(), AllocError>
    ensures { OnOk result (text.new.items ≡ text.old.items ++ spec.name_told moving.now place) }
{
    text.push(b' ')?;
    match name_before(moving, place) {
        Some(once) => text.extend_from_slice(&once.name),
        None => Ok(()),
    }
}

// Adds the words of a state that is gone.
fn add_gone_state(
    text: &mut Vec<u8>,
    moving: &Moving<'_>,
    p: ObjId,
    s: StateId,
) -> Result<(), AllocError>
    ensures { OnOk result (text.new.items ≡ text.old.items ++ spec.moved_words moving.now (GoneState p s)) }
{
    add_object(text, b"gone state", moving.old, p)?;
    add_word(text, moving.old.state_name(s))
}

// Adds the words of a parameter that is gone.
fn add_gone_param(
    text: &mut Vec<u8>,
    moving: &Moving<'_>,
    p: ObjId,
    place: usize,
) -> Result<(), AllocError>
    ensures { OnOk result (text.new.items ≡ text.old.items ++ spec.moved_words moving.now (GoneParam p place)) }
{
    add_object(text, b"gone param", moving.old, p)?;
    add_param_at(text, moving, p, place)
}

// Adds the words of a member that is gone.
fn add_gone_member(
    text: &mut Vec<u8>,
    moving: &Moving<'_>,
    q: SetId,
    p: ObjId,
) -> Result<(), AllocError>
    ensures { OnOk result (text.new.items ≡ text.old.items ++ spec.moved_words moving.now (GoneMember q p)) }
{
    add_member(text, b"gone member", moving.old, q, p)
}

// Adds the words of a name that is forgotten.
fn add_forgot(text: &mut Vec<u8>, moving: &Moving<'_>, place: usize) -> Result<(), AllocError>
    ensures { OnOk result (text.new.items ≡ text.old.items ++ spec.moved_words moving.now (Forgot place)) }
{
    text.extend_from_slice(b"forgot")?;
    add_name_at(text, moving, place)
}

// Adds the words of a line.
fn add_words(text: &mut Vec<u8>, moving: &Moving<'_>, line: &MovedLine) -> Result<(), AllocError>
    ensures { OnOk result (text.new.items ≡ text.old.items ++ spec.moved_words moving.now line.now) }
{
    match line {
        MovedLine::GoneState(p, s) => add_gone_state(text, moving, *p, *s),
        MovedLine::GoneParam(p, place) => add_gone_param(text, moving, *p, *place),
        MovedLine::GoneMember(q, p) => add_gone_member(text, moving, *q, *p),
        MovedLine::GoneKill(p) => add_object(text, b"gone kill", moving.old, *p),
        MovedLine::NewObject(o) => add_object(text, b"new", moving.new, *o),
        MovedLine::NewSet(set) => add_set(text, b"new", moving.new, *set),
        MovedLine::NotMember(set, o) => add_member(text, b"not member", moving.new, *set, *o),
        MovedLine::Forgot(place) => add_forgot(text, moving, *place),
    }
}

// Adds a line.
fn add_line(text: &mut Vec<u8>, moving: &Moving<'_>, line: &MovedLine) -> Result<(), AllocError>
    ensures { OnOk result (text.new.items ≡ text.old.items ++ spec.moved_line_text moving.now line.now) }
{
    add_words(text, moving, line)?;
    text.push(b'\n')?;
    Ok(())
}

/// Adds lines that are told where a log goes on in another domain to a text: `gone state OBJECT STATE`,
/// `gone param OBJECT NAME=VALUE`, `gone member SET OBJECT`, `gone kill OBJECT`, `new OBJECT`, `new SET`,
/// `not member SET OBJECT` or `forgot NAME`, each with its line feed. The cost is their length. The error is out of
/// memory.
#[tactic(auto, using(crate::proofs::Ranges::flat_more))]
pub fn add_lines(
    text: &mut Vec<u8>,
    moving: &Moving<'_>,
    lines: &[MovedLine],
) -> Result<(), AllocError>
    ensures { OnOk result (text.new.items ≡ text.old.items ++ spec.moved_text moving.now lines.now) }
{
    for line in lines {
        add_line(text, moving, line)?;
    }
    Ok(())
}
