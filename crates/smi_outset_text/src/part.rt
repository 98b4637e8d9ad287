//! What was read of a text, and what is left of it.
ghost use Rattle.std.specs.Prelude.{◌≡◌, ◌<◌, ◌+◌, ◌++◌, ◌^◌, ℕ, List, length};
ghost use Rattle.sml_domain.specs.Domain.{Domain as Objects};
ghost use Rattle.smi_outset_text.specs.Lines.{BeginsWithLines, OutsetLine};
ghost use Rattle.smi_outset_text.specs.Reading.{FaultIsIn};
ghost use Rattle.smi_outset_text.specs.declared.fault.OutsetFault.TheVariants.{BadLine as Bad};

use crate::fault::OutsetFault;

/// What was read of a text: of how many lines, and what follows them.
#[derive(Drop)]
pub(crate) struct Part<'a, T> {
    pub(crate) found: T,
    pub(crate) lines: usize,
    pub(crate) rest: &'a [u8],
}

/// The fault of a text of which this many lines are good before those in which it was found.
#[tactic(auto, using(crate::proofs::Beginning::fault_after))]
pub(crate) fn after_lines(lines: usize, fault: OutsetFault) -> OutsetFault
    requires { (count : ℕ) → fault ≡ Bad count → lines + count < 2 ^ 64 }
    ensures { (d : Objects) (first others : List OutsetLine) (text rest : List ℕ) → lines ≡ length first
        → BeginsWithLines d first text rest → FaultIsIn d others rest fault
        → FaultIsIn d (first ++ others) text result }
{
    match fault {
        OutsetFault::BadLine(count) => OutsetFault::BadLine(lines + count),
        OutsetFault::Memory => OutsetFault::Memory,
    }
}

/// How many bytes there are.
pub(crate) fn length_of(text: &[u8]) -> usize
    ensures is { result ≡ length text.now }
    ensures few { result < 2 ^ 64 }
{
    text.len()
}
