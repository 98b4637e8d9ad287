//! The lines of a log, which are made again.
ghost use Rattle.std.specs.Prelude.{◌≡◌, ◌<◌, ◌++◌, ◌∷◌, Err, IfNone, IfSome, List, OnOk, true, ℕ};
ghost use Rattle.smi_core.specs.Output.{LineWrites};
ghost use Rattle.smi_live_once.specs.Forms.{is_barred_line};
ghost use Rattle.smi_live_once.specs.Making.{KeeperWrites};
ghost use Rattle.smi_live.specs.Logs.{LogOutputs};
ghost use Rattle.smi_live.specs.Managing.{keeper_of};
ghost use Rattle.smirun_live.specs.Reading.{HasNoFeed};

use crate::line_reader::bytes_before_feed;
use crate::observer::LiveNotes;
use smi_live::{Made, Manager};
use smi_live_once::is_reserved_line;
use smirun_commands::Fault;
use std::alloc::Global;

// The first line of a text that is ended, and what stands after its line feed.
#[tactic(auto, using(crate::proofs::Again::parts_at, crate::proofs::Again::whole_part))]
fn split_line(text: &[u8]) -> Option<(&[u8], &[u8])>
    ensures some { IfSome result (λ p. (text.now ≡ p.0.now ++ 10 ∷ p.1.now) × HasNoFeed p.0.now) }
    ensures none { IfNone result (HasNoFeed text.now) }
{
    let count = bytes_before_feed(text);
    if count < text.len() {
        return Some((text.split_at(count).0, text.split_at(count + 1).1));
    }
    None
}

// Whether a line may not come from outside, or has a byte that no line has.
fn has_other_byte(line: &[u8]) -> bool
    ensures { is_barred_line line.now ≡ true → result ≡ true }
{
    is_reserved_line(line) || !line.is_ascii()
}

// Makes a line of a log again, which is that of a number. Only the first may be one that begins as a first line.
fn perform_line<'a>(
    path: &'a str,
    manager: &mut Manager<LiveNotes<'a>>,
    made: &mut Made,
    line: &[u8],
    number: u64,
) -> Result<(), Fault<'a>>
    ensures made { OnOk result (KeeperWrites LineWrites (keeper_of manager.old) line.now made.new.text.items
        (keeper_of manager.new)) }
    ensures reserved { is_barred_line line.now ≡ true → 1 < number → result ≡ Err (Fault.BadLine path.entry number) }
    ensures setup { manager.new.core.setup ≡ manager.old.core.setup }
{
    if number > 1 && has_other_byte(line) {
        return Err(Fault::BadLine(path, number));
    }
    match manager.make_again(line, made) {
        Ok(true) => Ok(()),
        Ok(false) => Err(Fault::BadLine(path, number)),
        Err(_) => Err(Fault::Memory),
    }
}

/// Makes the lines of a log again, in silence. The faults are `BadLine` at the first line that no manager would have
/// written there, and out of memory.
pub(crate) fn perform<'a>(
    alloc: Global,
    path: &'a str,
    manager: &mut Manager<LiveNotes<'a>>,
    text: &[u8],
) -> Result<(), Fault<'a>>
    ensures made { OnOk result ((out : List ℕ)
        × LogOutputs (keeper_of manager.old) text.now out (keeper_of manager.new)) }
    ensures setup { manager.new.core.setup ≡ manager.old.core.setup }
{
    let mut made = Made::new(alloc);
    let mut rest = text;
    let mut number: u64 = 1;
    while let Some((line, more)) = split_line(rest) {
        match perform_line(path, manager, &mut made, line, number) {
            Ok(()) => {}
            Err(fault) => return Err(fault),
        }
        rest = more;
        number = number.saturating_add(1);
    }
    perform_line(path, manager, &mut made, rest, number)
}
