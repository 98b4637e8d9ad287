//! The first line of a log.
ghost use Rattle.std.specs.Prelude.{◌≡◌, ◌++◌, IfOk, OnOk};
ghost use Rattle.hex.specs.Hex.{encode_lower};
ghost use Rattle.sha1.specs.Sha1.{sha1};
ghost use Rattle.smi_log_front.specs.FrontText as spec;
ghost use Rattle.smi_log_front.specs.FrontText.{log_first_line};

use crate::sums::sum_of;
use itoa::Buffer;
use std::alloc::{AllocError, Global};

/// Of which version a log is.
#[derive(Clone, Copy, Eq, PartialEq)]
pub enum LogVersion {
    /// It begins as its domain declares.
    One,
    /// It begins as its front says.
    Two,
}

// With what a log of a version begins.
fn log_words(version: LogVersion) -> &'static [u8]
    ensures { result.now ≡ spec.log_words version }
{
    match version {
        LogVersion::One => b"! smirun live 1 ",
        LogVersion::Two => b"! smirun live 2 ",
    }
}

/// Adds the first line of a log without its line feed to a text.
pub(crate) fn add_first_line(
    text: &mut Vec<u8>,
    version: LogVersion,
    sum: &[u8],
    capacity: usize,
) -> Result<(), AllocError>
    ensures { OnOk result (text.new.items ≡ text.old.items ++ log_first_line version sum.now capacity) }
{
    let mut buffer = Buffer::new();
    text.extend_from_slice(log_words(version))?;
    text.extend_from_slice(sum)?;
    text.extend_from_slice(b" capacity ")?;
    text.extend_from_slice(buffer.format(capacity).as_bytes())
}

/// The first line of a log of a domain, without its line feed, by the domain's canonical text and the room of its
/// mailboxes. It is a comment of a schedule. The error is out of memory.
pub fn first_line_of_log(
    alloc: Global,
    version: LogVersion,
    canonical: &[u8],
    capacity: usize,
) -> Result<Vec<u8>, AllocError>
    ensures { IfOk result (λ line. line.items
        ≡ log_first_line version (encode_lower (sha1 canonical.now)) capacity) }
{
    let sum = sum_of(alloc, canonical)?;
    let mut line = Vec::new(alloc);
    add_first_line(&mut line, version, &sum, capacity)?;
    Ok(line)
}
