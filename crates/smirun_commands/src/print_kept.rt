//! What `print` writes of a domain's text, made in memory, and with `--keep` written.
ghost use Rattle.std.specs.Prelude.{◌≡◌, IfOk, false};
ghost use Rattle.smirun_commands.specs.Printed.{IsPrintOf};

use crate::audit::tell_text;
use crate::fault::Fault;
use crate::print::print_in_arena;
use show_kept::kept_text;
use std::alloc::Global;
use std::io::Write;

/// Prints the canonical text of the file that a text says, with the comments and the blank lines of the text. It is
/// made in memory, in time that grows with the length of both, and written in one call.
pub(crate) fn print_kept<'a, W: Write>(
    heap: Global,
    file: &'a str,
    text: &[u8],
    output: &mut W,
) -> Result<(), Fault<'a>> {
    match printed_text(heap, file, true, text) {
        Ok(kept) => tell_text(kept.as_slice(), output),
        Err(fault) => Err(fault),
    }
}

/// What is printed of a text: its canonical text, with what that leaves out if `keep` says so. The error is the fault
/// of the text, or Memory.
pub(crate) fn printed_text<'a>(
    heap: Global,
    file: &'a str,
    keep: bool,
    text: &[u8],
) -> Result<Vec<u8>, Fault<'a>>
    ensures { keep ≡ false → IfOk result (λ printed. IsPrintOf text.now printed.items) }
{
    match canonical_text(heap, file, text) {
        Ok(canonical) if keep => with_kept(heap, text, canonical.as_slice()),
        printed => printed,
    }
}

// The canonical text of the file that a text says.
fn canonical_text<'a>(heap: Global, file: &'a str, text: &[u8]) -> Result<Vec<u8>, Fault<'a>>
    ensures { IfOk result (λ printed. IsPrintOf text.now printed.items) }
{
    let mut canonical = Vec::new(heap);
    match print_in_arena(heap, file, text, &mut canonical) {
        Ok(()) => Ok(canonical),
        // A list of bytes takes no more where memory is out.
        Err(Fault::Output) => Err(Fault::Memory),
        Err(fault) => Err(fault),
    }
}

// A canonical text with what it leaves out of its text.
fn with_kept<'a>(heap: Global, text: &[u8], canonical: &[u8]) -> Result<Vec<u8>, Fault<'a>> {
    match kept_text(heap, text, canonical) {
        Ok(kept) => Ok(kept),
        Err(_) => Err(Fault::Memory),
    }
}
