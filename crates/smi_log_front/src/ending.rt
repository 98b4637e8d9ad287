//! The last line of a front, read from a text.
ghost use Rattle.std.specs.Prelude.{IfNone, IfSome};
ghost use Rattle.smi_log_front.specs.Reading.{EndIsRead, NoEndIsRead};

use crate::sums::next_sum;
use smi_carried::after;

/// The SHA-1 that the last line of a front says which is in front, and what comes after that line.
pub(crate) fn next_end(text: &[u8]) -> Option<(&[u8], &[u8])>
    ensures some { IfSome result (λ x. EndIsRead text.now x.0.now x.1.now) }
    ensures none { IfNone result (NoEndIsRead text.now) }
{
    let Some(sums) = after(text, b"! after ") else {
        return None;
    };
    let Some((sum, ends)) = next_sum(sums) else {
        return None;
    };
    match after(ends, b"\n") {
        Some(more) => Some((sum, more)),
        None => None,
    }
}
