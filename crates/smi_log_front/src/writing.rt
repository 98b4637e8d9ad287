//! The text of a front, added to a text. The cost of each function is the length of what it adds.
ghost use Rattle.std.specs.Prelude.{◌≡◌, ◌++◌, OnOk};
ghost use Rattle.smi_log_front.specs.FrontText.{front_begin, front_end, front_head, front_text};

use crate::first_line::{LogVersion, add_first_line};
use crate::front::Front;
use crate::kills::add_kills;
use smi_carried::add_carried;
use smi_outset_text::add_outset;
use sml_domain::Domain;
use std::alloc::AllocError;

// Adds the first line.
fn add_head(text: &mut Vec<u8>, sum: &[u8], capacity: usize) -> Result<(), AllocError>
    ensures { OnOk result (text.new.items ≡ text.old.items ++ front_head sum.now capacity) }
{
    add_first_line(text, LogVersion::Two, sum, capacity)?;
    text.push(b'\n')?;
    Ok(())
}

// Adds the last line.
fn add_end(text: &mut Vec<u8>, sum: &[u8]) -> Result<(), AllocError>
    ensures { OnOk result (text.new.items ≡ text.old.items ++ front_end sum.now) }
{
    text.extend_from_slice(b"! after ")?;
    text.extend_from_slice(sum)?;
    text.push(b'\n')?;
    Ok(())
}

// Adds all lines but the last.
#[tactic(auto, using(crate::proofs::Wholes::begin_added))]
fn add_begin(text: &mut Vec<u8>, domain: &Domain, front: &Front) -> Result<(), AllocError>
    ensures { OnOk result (text.new.items ≡ text.old.items ++ front_begin domain.now front.now) }
{
    add_head(text, &front.domain_sum, front.capacity)?;
    add_outset(text, domain, &front.outset)?;
    add_carried(text, domain, &front.carried)?;
    add_kills(text, domain, &front.kills)?;
    Ok(())
}

/// Adds the lines of a front to a text: a log begins with them, and what follows is made after them. The lines of kills
/// are lines of a schedule, the others are comments. (docs/FORMATS.md, "A log that follows another".) The cost is their
/// length. The error is out of memory.
pub fn add_front(text: &mut Vec<u8>, domain: &Domain, front: &Front) -> Result<(), AllocError>
    ensures { OnOk result (text.new.items ≡ text.old.items ++ front_text domain.now front.now) }
{
    add_begin(text, domain, front)?;
    add_end(text, &front.log_sum)
}
