//! A front, read from the lines in front of a text.
ghost use Rattle.std.specs.Prelude.{◌≡◌, ◌<◌, ◌+◌, ◌++◌, ◌^◌, ℕ, IfErr, IfOk, List};
ghost use Rattle.sml_domain.specs.Domain.{Domain as Objects};
ghost use Rattle.smi_outset_text.specs.Lines.{outset_lines};
ghost use Rattle.smi_outset_text.specs.Reading.{FaultIsIn};
ghost use Rattle.smi_outset_text.specs.declared.fault.OutsetFault.TheVariants.{BadLine as Bad};
ghost use Rattle.smi_log_front.specs.FrontText.{front_text};
ghost use Rattle.smi_log_front.specs.Faults.{FrontFaultIs};
ghost use Rattle.smi_log_front.specs.Reading.{HeadIsRead};
ghost use Rattle.smi_log_front.specs.Suits.{FrontIsHeld, FrontSuits};

use crate::counting::lines_before;
use crate::ending::next_end;
use crate::fault::FrontFault;
use crate::front::Front;
use crate::head::next_head;
use crate::past::read_past;
use smi_outset_text::{OutsetFault, read_outset};
use sml_domain::Domain;
use std::alloc::Global;

// The fault of a front whose outset has one: the first line stands before it.
fn fault_of_outset(fault: OutsetFault) -> FrontFault
    requires { (count : ℕ) → fault ≡ Bad count → count + 2 < 2 ^ 64 }
    ensures { (d : Objects) (text sum : List ℕ) (capacity : ℕ) (rest : List ℕ)
        → HeadIsRead text sum capacity rest → FaultIsIn d (outset_lines d) rest fault
        → FrontFaultIs d text result }
{
    match fault {
        OutsetFault::BadLine(count) => FrontFault::BadLine(count + 2),
        OutsetFault::Memory => FrontFault::Memory,
    }
}

/// Reads the front that a text begins with, and returns it and the log that follows it. What was added to a text by
/// `add_front` is read again.
///
/// The cost is that of `smi_outset_text::read_outset` and of `smi_carried::read_carried`, and the length of the lines.
///
/// # Errors
///
/// `BadLine` with the number of the first line that no front which suits the domain has there, and `Memory` if memory
/// runs out.
pub fn read_front<'a>(
    alloc: Global,
    domain: &Domain,
    text: &'a [u8],
) -> Result<(Front, &'a [u8]), FrontFault>
    ensures suits { IfOk result (λ x. FrontSuits domain.now x.0) }
    ensures held { IfOk result (λ x. FrontIsHeld x.0) }
    ensures whole { IfOk result (λ x. text.now ≡ front_text domain.now x.0 ++ x.1.now) }
    ensures fault { IfErr result (FrontFaultIs domain.now text.now) }
{
    let Some((head, standing)) = next_head(text) else {
        return Err(FrontFault::BadLine(1));
    };
    let outset = match read_outset(alloc, domain, standing) {
        Ok(outset) => outset,
        Err(fault) => return Err(fault_of_outset(fault)),
    };
    let Ok(past) = read_past(alloc, domain, outset.1) else {
        return Err(FrontFault::Memory);
    };
    let Some((sum, log)) = next_end(past.1) else {
        return Err(FrontFault::BadLine(lines_before(text, past.1) + 1));
    };
    let Ok(domain_sum) = Vec::from_slice(alloc, head.sum) else {
        return Err(FrontFault::Memory);
    };
    let Ok(log_sum) = Vec::from_slice(alloc, sum) else {
        return Err(FrontFault::Memory);
    };
    let front = Front {
        domain_sum,
        capacity: head.capacity,
        outset: outset.0,
        carried: past.0.carried,
        kills: past.0.kills,
        log_sum,
    };
    Ok((front, log))
}
