//! The writing of bytes.

ghost use Rattle.std.specs.Prelude.{◌≡◌, ◌≤◌, ◌<◌, ℕ, List, [], Option, length, take, Some, IfSome, IfNone, IsOk, OnOk, OnErr, codes};
ghost use Rattle.std.specs.Io.KnownBytes.{Appends};
ghost use Rattle.sml_text.specs.Written.{Told, Wrote, WroteFront, StaysDue};

use std::error::Error;
use std::fmt;
use std::io::Write;

/// The writer failed, or took none of the bytes that it was offered.
#[derive(Clone, Copy, Debug, PartialEq, Eq)]
pub struct WriteFault;

impl fmt::Display for WriteFault {
    ghost output = { λ _. Some (codes "the writer failed, or took no byte of some") };

    fn fmt<W: fmt::Write>(&self, f: &mut fmt::Formatter<W>) -> fmt::Result {
        f.write_str("the writer failed, or took no byte of some")
    }
}

impl Error for WriteFault {}

/// Takes bytes, some at a call, and knows whether it has refused any. Every writer is a sink.
///
/// A writer's contract doesn't say that it failed. So a function over any `Sink` can say that a fault
/// came from the sink and was not made up.
pub trait Sink {
    ghost contents: { Self → Option (List ℕ) };

    ghost has_refused: { Self → Type 0 };

    /// Offers the bytes in one call, one at least. None if the sink refused: it failed or took none.
    fn offer(&mut self, bytes: &[u8]) -> Option<usize>
        requires { 0 < length bytes.now }
        ensures some { IfSome result (λ n. (0 < n) × (n ≤ length bytes.now)
            × Appends (contents self.old) (contents self.new) (take n bytes.now)) }
        ensures none { IfNone result (has_refused self.new
            × Appends (contents self.old) (contents self.new) []) };
}

impl<W: Write> Sink for W {
    ghost contents = { W.contents };

    ghost has_refused = { λ _. Unit {0} };

    fn offer(&mut self, bytes: &[u8]) -> Option<usize> {
        match self.write(bytes) {
            Ok(0) | Err(_) => None,
            Ok(n) => Some(n),
        }
    }
}

/// Writes all of the bytes. On an error a prefix of them is written: the writer failed, or took none
/// of the bytes that it was offered.
///
/// It offers all of them first, and then the rest, once for each part that the sink takes. No memory is allocated.
pub fn put<S: Sink>(sink: &mut S, bytes: &[u8]) -> Result<(), WriteFault>
    ensures ok { OnOk result (Wrote (S.contents sink.old) (S.contents sink.new) bytes.now) }
    ensures err { OnErr result (WroteFront (S.contents sink.old) (S.contents sink.new) bytes.now) }
    ensures refused { OnErr result (S.has_refused sink.new) }
    ensures empty { bytes.now ≡ [] → IsOk result }
{
    if bytes.is_empty() {
        return Ok(());
    }
    let Some(mut at) = sink.offer(bytes) else {
        return Err(WriteFault);
    };
    while at < bytes.len() {
        let Some(n) = sink.offer(bytes.split_at(at).1) else {
            return Err(WriteFault);
        };
        at += n;
    }
    Ok(())
}

/// Writes all of the bytes unless an earlier write failed, and remembers if this one does.
/// So a text of many parts can be written with one test at the end.
///
/// The cost is that of `put`.
pub fn tell<S: Sink>(sink: &mut S, failed: &mut bool, bytes: &[u8])
    ensures told { Told (S.contents sink.old) failed.old (S.contents sink.new) failed.new bytes.now }
    ensures due { StaysDue (S.has_refused sink.old) failed.old (S.has_refused sink.new) failed.new }
    ensures empty { bytes.now ≡ [] → failed.new ≡ failed.old }
{
    if *failed {
        return;
    }
    match put(sink, bytes) {
        Ok(()) => {}
        Err(WriteFault) => *failed = true,
    }
}
