//! The first line of a front, read from a text.
ghost use Rattle.std.specs.Prelude.{IfNone, IfSome};
ghost use Rattle.smi_log_front.specs.Reading.{HeadIsRead, NoHeadIsRead};

use crate::sums::next_sum;
use smi_carried::{after, next_number};

/// What the first line says; its text stands in the line.
#[derive(Clone, Copy)]
pub(crate) struct HeadWords<'a> {
    pub(crate) sum: &'a [u8],
    pub(crate) capacity: usize,
}

/// What the first line of a front says that is in front, and what comes after it.
pub(crate) fn next_head(text: &[u8]) -> Option<(HeadWords<'_>, &[u8])>
    ensures some { IfSome result (λ x. HeadIsRead text.now x.0.sum.now x.0.capacity x.1.now) }
    ensures none { IfNone result (NoHeadIsRead text.now) }
{
    let Some(sums) = after(text, b"! smirun live 2 ") else {
        return None;
    };
    let Some((sum, rooms)) = next_sum(sums) else {
        return None;
    };
    let Some(digits) = after(rooms, b" capacity ") else {
        return None;
    };
    let Some((capacity, more)) = next_number(digits, b'\n') else {
        return None;
    };
    let words = HeadWords {
        sum,
        capacity: capacity as usize,
    };
    Some((words, more))
}
