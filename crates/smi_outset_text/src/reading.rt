//! An outset, read from the lines in front of a text.
ghost use Rattle.std.specs.Prelude.{◌≡◌, ◌++◌, All, IfErr, IfOk, length};
ghost use Rattle.sml_outset.specs.Suits.{StandsSuit, Suits};
ghost use Rattle.smi_outset_text.specs.OutsetText.{objects_text, outset_text};
ghost use Rattle.smi_outset_text.specs.Lines.{BeginsWithLines, lines_of_objects, outset_lines};
ghost use Rattle.smi_outset_text.specs.Reading.{FaultIsIn, IsHeldOutset, IsHeldStand};

use crate::fault::OutsetFault;
use crate::members::read_members;
use crate::params::read_stands;
use crate::part::{Part, after_lines, length_of};
use crate::states::read_states;
use sml_domain::Domain;
use sml_outset::{Outset, Stand};
use std::alloc::Global;

// How all objects stand, by the lines of their states and then of their parameters.
fn read_objects<'a>(
    alloc: Global,
    text: &'a [u8],
    domain: &Domain,
) -> Result<Part<'a, Vec<Stand>>, OutsetFault>
    ensures size { IfOk result (λ x. length x.found.items ≡ length domain.now.objects) }
    ensures suit { IfOk result (λ x. StandsSuit domain.now x.found.items) }
    ensures held { IfOk result (λ x. All IsHeldStand x.found.items) }
    ensures whole { IfOk result (λ x. text.now ≡ objects_text domain.now x.found.items ++ x.rest.now) }
    ensures count { IfOk result (λ x. x.lines ≡ length (lines_of_objects domain.now)) }
    ensures lines { IfOk result (λ x. BeginsWithLines domain.now (lines_of_objects domain.now) text.now x.rest.now) }
    ensures fault { IfErr result (FaultIsIn domain.now (lines_of_objects domain.now) text.now) }
{
    // The length of a text has 64 bits, and so has the count of its lines.
    let _bytes = length_of(text);
    let states = match read_states(alloc, text, domain) {
        Ok(states) => states,
        Err(fault) => return Err(fault),
    };
    match read_stands(alloc, states.rest, domain, &states.found) {
        Ok(stands) => Ok(Part {
            found: stands.found,
            lines: states.lines + stands.lines,
            rest: stands.rest,
        }),
        Err(fault) => Err(after_lines(states.lines, fault)),
    }
}

/// Reads the outset whose lines a text begins with, and returns it and what follows them. (docs/PROMISES.md,
/// "Logs that follow one another".) Lines that are those of an outset which suits the domain are read as that outset.
///
/// The cost is the length of the lines, and for each line at most that of all that may stand in its place.
///
/// # Errors
///
/// `BadLine` with the count of good lines before the first that is not one of such an outset, and `Memory` if memory
/// runs out.
pub fn read_outset<'a>(
    alloc: Global,
    domain: &Domain,
    text: &'a [u8],
) -> Result<(Outset, &'a [u8]), OutsetFault>
    ensures suits { IfOk result (λ x. Suits domain.now x.0) }
    ensures held { IfOk result (λ x. IsHeldOutset x.0) }
    ensures whole { IfOk result (λ x. text.now ≡ outset_text domain.now x.0 ++ x.1.now) }
    ensures fault { IfErr result (FaultIsIn domain.now (outset_lines domain.now) text.now) }
{
    // The length of a text has 64 bits, and so has the count of its lines.
    let _bytes = length_of(text);
    let objects = match read_objects(alloc, text, domain) {
        Ok(objects) => objects,
        Err(fault) => return Err(fault),
    };
    match read_members(alloc, objects.rest, domain) {
        Ok(members) => Ok((
            Outset {
                stands: objects.found,
                members: members.found,
            },
            members.rest,
        )),
        Err(fault) => Err(after_lines(objects.lines, fault)),
    }
}
