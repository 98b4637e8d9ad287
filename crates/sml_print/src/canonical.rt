//! The canonical text of a file.
ghost use Rattle.std.specs.Prelude.{◌≡◌, Some, IfOk, OnOk, OnErr, codes};
ghost use Rattle.sml_text.specs.Written.{Wrote, WroteFront};
ghost use Rattle.sml_tree.specs.Content.{file_content};
ghost use Rattle.sml_print.specs.Items.{file_text};

use crate::item::tell_items;
use sml_text::Sink;
use sml_tree::SmlFile;
use std::alloc::{AllocError, Allocator, Global};
use std::error::Error;
use std::fmt;

/// The writer failed, or took none of the bytes that it was offered.
#[derive(Clone, Copy, Debug, PartialEq, Eq)]
pub struct PrintFault;

impl fmt::Display for PrintFault {
    ghost output = { λ _. Some (codes "the writer failed, or took no byte of some") };

    fn fmt<W: fmt::Write>(&self, f: &mut fmt::Formatter<W>) -> fmt::Result {
        f.write_str("the writer failed, or took no byte of some")
    }
}

impl Error for PrintFault {}

/// Writes the canonical text of a file (docs/FORMATS.md, "Canonical text").
///
/// Any `Write` may be the writer, since each is a `Sink`. After a fault a prefix of the text is
/// written. The text goes out in many small parts, a word or a sign at a time, so that a writer to a
/// file should be buffered. No memory is allocated; the time grows with the length of the text.
pub fn write_to<A: Allocator + Clone, W: Sink>(
    file: &SmlFile<A>,
    writer: &mut W,
) -> Result<(), PrintFault>
    ensures ok { OnOk result (Wrote (W.contents writer.old) (W.contents writer.new)
        (file_text (file_content file.now))) }
    ensures err { OnErr result (WroteFront (W.contents writer.old) (W.contents writer.new)
        (file_text (file_content file.now))) }
    ensures refused { OnErr result (W.has_refused writer.new) }
{
    let mut failed = false;
    tell_items(writer, &mut failed, &file.items);
    if failed { Err(PrintFault) } else { Ok(()) }
}

/// Returns the canonical text of a file (docs/FORMATS.md, "Canonical text").
///
/// An error means that memory ran out. The time grows with the length of the text.
///
/// `tests_of_files` has this example as `first_calls::reads_and_prints`:
///
/// ```
/// let file = read(alloc, b"class:lamp state:off")?;
/// let text = print(alloc, &file)?;   // class: LAMP\n  state: OFF\n
/// ```
pub fn print<A: Allocator + Clone>(alloc: Global, file: &SmlFile<A>) -> Result<Vec<u8>, AllocError>
    ensures { IfOk result (λ text. text.items ≡ file_text (file_content file.now)) }
{
    let mut text = Vec::new(alloc);
    match write_to(file, &mut text) {
        Ok(()) => Ok(text),
        Err(PrintFault) => Err(AllocError),
    }
}
