//! The text of an outset, added to a text. The cost of each function is the length of what it adds.
ghost use Rattle.std.specs.Prelude.{◌≡◌, ◌++◌, OnOk, flat_map};
ghost use Rattle.smi_journal.specs.CallText.{name_or_nothing, spaced, value_text};
ghost use Rattle.smi_outset_text.specs.OutsetText.{keyed_object, member_word, numbered, outset_members_line, outset_param_front, outset_param_line, outset_param_lines, outset_text, stand_param_lines, stand_state_line};

use crate::pieces::set_name;
use smi_journal::tell_value;
use sml_domain::{Domain, ObjId, Param, SetId, Value};
use sml_outset::{Outset, SetMembers, Stand};
use sml_tree::Name;
use std::alloc::AllocError;

// Adds a name with a blank before it.
fn add_word(text: &mut Vec<u8>, name: Option<Name>) -> Result<(), AllocError>
    ensures { OnOk result (text.new.items ≡ text.old.items ++ spaced (name_or_nothing name)) }
{
    text.push(b' ')?;
    match name {
        Some(name) => text.extend_from_slice(name.as_bytes()),
        None => Ok(()),
    }
}

// Adds a keyword, and then the name of an object.
fn add_object(
    text: &mut Vec<u8>,
    keyword: &[u8],
    domain: &Domain,
    o: ObjId,
) -> Result<(), AllocError>
    ensures { OnOk result (text.new.items ≡ text.old.items ++ keyed_object keyword.now domain.now o) }
{
    text.extend_from_slice(keyword)?;
    add_word(text, domain.object_name(o))
}

// Adds the line of the state in which an object stands.
fn add_state(text: &mut Vec<u8>, domain: &Domain, o: ObjId, stand: &Stand) -> Result<(), AllocError>
    ensures { OnOk result (text.new.items ≡ text.old.items ++ stand_state_line domain.now o stand.now) }
{
    add_object(text, b"! state", domain, o)?;
    add_word(text, domain.state_name(stand.state))?;
    text.push(b'\n')?;
    Ok(())
}

// Adds the lines of the states of all objects.
#[tactic(auto, using(crate::proofs::Numbered::added_more))]
fn add_states(text: &mut Vec<u8>, domain: &Domain, stands: &[Stand]) -> Result<(), AllocError>
    ensures { OnOk result (text.new.items
        ≡ text.old.items ++ numbered (stand_state_line domain.now) 0 stands.now) }
{
    for o in 0..stands.len() {
        add_state(text, domain, ObjId::new(o), &stands[o])?;
    }
    Ok(())
}

// Adds a value.
fn add_value(text: &mut Vec<u8>, value: &Value) -> Result<(), AllocError>
    ensures { OnOk result (text.new.items ≡ text.old.items ++ value_text value.now) }
{
    let mut failed = false;
    tell_value(text, &mut failed, value);
    if failed { Err(AllocError) } else { Ok(()) }
}

// Adds the line of a parameter up to its value.
fn add_param_front(
    text: &mut Vec<u8>,
    domain: &Domain,
    o: ObjId,
    param: &Param,
) -> Result<(), AllocError>
    ensures { OnOk result (text.new.items ≡ text.old.items ++ outset_param_front domain.now o param.now) }
{
    add_object(text, b"! param", domain, o)?;
    add_word(text, Some(param.name))?;
    text.push(b'=')?;
    Ok(())
}

// Adds the line of a parameter.
fn add_param(text: &mut Vec<u8>, domain: &Domain, o: ObjId, param: &Param) -> Result<(), AllocError>
    ensures { OnOk result (text.new.items ≡ text.old.items ++ outset_param_line domain.now o param.now) }
{
    add_param_front(text, domain, o, param)?;
    match &param.value {
        Some(value) => add_value(text, value)?,
        None => {}
    }
    text.push(b'\n')?;
    Ok(())
}

// Adds the lines of parameters of an object.
#[tactic(auto, using(crate::proofs::Numbered::flat_more))]
fn add_these(
    text: &mut Vec<u8>,
    domain: &Domain,
    o: ObjId,
    params: &[Param],
) -> Result<(), AllocError>
    ensures { OnOk result (text.new.items ≡ text.old.items ++ outset_param_lines domain.now o params.now) }
{
    for param in params {
        add_param(text, domain, o, param)?;
    }
    Ok(())
}

// Adds the lines of the parameters with which an object stands.
fn add_params_of(
    text: &mut Vec<u8>,
    domain: &Domain,
    o: ObjId,
    stand: &Stand,
) -> Result<(), AllocError>
    ensures { OnOk result (text.new.items ≡ text.old.items ++ stand_param_lines domain.now o stand.now) }
{
    add_these(text, domain, o, &stand.params)
}

// Adds the lines of the parameters of all objects.
#[tactic(auto, using(crate::proofs::Numbered::added_more))]
fn add_params(text: &mut Vec<u8>, domain: &Domain, stands: &[Stand]) -> Result<(), AllocError>
    ensures { OnOk result (text.new.items
        ≡ text.old.items ++ numbered (stand_param_lines domain.now) 0 stands.now) }
{
    for o in 0..stands.len() {
        add_params_of(text, domain, ObjId::new(o), &stands[o])?;
    }
    Ok(())
}

// Adds the names of objects, each with a blank before it.
#[tactic(auto, using(crate::proofs::Numbered::flat_more))]
fn add_objects(text: &mut Vec<u8>, domain: &Domain, objects: &[ObjId]) -> Result<(), AllocError>
    ensures { OnOk result (text.new.items ≡ text.old.items ++ flat_map (member_word domain.now) objects.now) }
{
    for o in objects {
        add_word(text, domain.object_name(*o))?;
    }
    Ok(())
}

// Adds the line of the members of a set.
fn add_members_of(
    text: &mut Vec<u8>,
    domain: &Domain,
    set: SetId,
    members: &SetMembers,
) -> Result<(), AllocError>
    ensures { OnOk result (text.new.items ≡ text.old.items ++ outset_members_line domain.now set members.now) }
{
    text.extend_from_slice(b"! member")?;
    add_word(text, set_name(domain, set))?;
    add_objects(text, domain, &members.objects)?;
    text.push(b'\n')?;
    Ok(())
}

// Adds the lines of the members of all sets.
#[tactic(auto, using(crate::proofs::Numbered::added_more))]
fn add_members(
    text: &mut Vec<u8>,
    domain: &Domain,
    members: &[SetMembers],
) -> Result<(), AllocError>
    ensures { OnOk result (text.new.items
        ≡ text.old.items ++ numbered (outset_members_line domain.now) 0 members.now) }
{
    for set in 0..members.len() {
        add_members_of(text, domain, SetId::new(set), &members[set])?;
    }
    Ok(())
}

/// Adds the lines of an outset to a text. (docs/PROMISES.md, "Logs that follow one another".) The cost is their length.
/// The error is out of memory.
pub fn add_outset(text: &mut Vec<u8>, domain: &Domain, outset: &Outset) -> Result<(), AllocError>
    ensures { OnOk result (text.new.items ≡ text.old.items ++ outset_text domain.now outset.now) }
{
    add_states(text, domain, &outset.stands)?;
    add_params(text, domain, &outset.stands)?;
    add_members(text, domain, &outset.members)
}
