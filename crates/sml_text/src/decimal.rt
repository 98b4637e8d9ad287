//! The writing of numbers.

ghost use Rattle.sml_text.specs.Written.{Told, StaysDue};
ghost use Rattle.sml_text.specs.Decimal.{decimal_text, int_text};

use crate::writing::{Sink, tell};
use itoa::Buffer;

/// Writes a number in decimal digits, at most 20, unless an earlier write failed. The cost is that of `tell`.
pub fn tell_u64<S: Sink>(sink: &mut S, failed: &mut bool, number: u64)
    ensures told { Told (S.contents sink.old) failed.old (S.contents sink.new) failed.new (decimal_text number) }
    ensures due { StaysDue (S.has_refused sink.old) failed.old (S.has_refused sink.new) failed.new }
{
    let mut buffer = Buffer::new();
    tell(sink, failed, buffer.format(number).as_bytes());
}

/// Writes an int in decimal digits, at most 19 and a minus, unless an earlier write failed. The cost is that of `tell`.
pub fn tell_i64<S: Sink>(sink: &mut S, failed: &mut bool, int: i64)
    ensures told { Told (S.contents sink.old) failed.old (S.contents sink.new) failed.new (int_text int) }
    ensures due { StaysDue (S.has_refused sink.old) failed.old (S.has_refused sink.new) failed.new }
{
    let mut buffer = Buffer::new();
    tell(sink, failed, buffer.format(int).as_bytes());
}
