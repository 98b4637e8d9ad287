//! The command `print`: a domain file goes in, and its canonical text comes out.
ghost use Rattle.std.specs.Prelude.{◌≡◌, ◌≢◌, ◌≤◌, Err, IfErr, IfOk, List, OnErr, OnOk};
ghost use Rattle.sml_text.specs.Written.{Wrote, WroteFront};
ghost use Rattle.sml_tree.specs.Syntax.{ItemData};
ghost use Rattle.sml_read.specs.Promise.{IsFileOf};
ghost use Rattle.sml_print.specs.Items.{file_text};
ghost use Rattle.smirun_commands.specs.Refused.{IsTextFault};

use crate::advice::Advice;
use crate::fault::Fault;
use crate::print_check::check_print;
use crate::print_kept::print_kept;
use crate::status::DONE;
use crate::text::load_text;
use bumpalo::Bump;
use sml_print::{PrintFault, write_to};
use std::alloc::{Allocator, Global};
use std::fs::Files;
use std::io::{BufWriter, Read, Write};

/// What `print` is asked to write. The text is a word of a command line.
#[derive(Drop)]
pub struct PrintOptions<'a> {
    /// The path of the domain file, or `-`.
    pub file: &'a str,
    /// Whether it is explained why the text is refused, or how it differs from what would be printed.
    pub explain: bool,
    /// Whether the text is compared with what would be printed, and nothing is printed.
    pub check: bool,
    /// Whether the comments and the blank lines of the text are printed too.
    pub keep: bool,
}

/// Prints the canonical text of a domain file, which is read and not checked, and returns the exit status. At a fault
/// of the output a prefix of the text is written. What is read is passed to `print_text`, and the advice on it goes to
/// `advice`.
///
/// With `check` a text that differs from what would be printed is told in a line, with the status of a refused one.
pub fn run_print<'a, R: Files + AllocGlobal, I: Read, W: Write>(
    rt: &R,
    options: &PrintOptions<'a>,
    input: &mut I,
    output: &mut W,
    advice: &mut Advice,
) -> Result<u8, Fault<'a>>
    ensures { IfOk result (λ status. status ≤ 1) }
{
    match load_text(rt, input, options.file) {
        Ok(text) => print_advised(rt.alloc(), options, text.as_slice(), output, advice),
        Err(error) => Err(Fault::of_input(options.file, &error)),
    }
}

// Does what is asked with the text. The advice on a fault of it goes to `advice`.
fn print_advised<'a, W: Write>(
    heap: Global,
    options: &PrintOptions<'a>,
    text: &[u8],
    output: &mut W,
    advice: &mut Advice,
) -> Result<u8, Fault<'a>>
    ensures { IfOk result (λ status. status ≤ 1) }
{
    let done = print_asked(heap, options, text, output, advice);
    if let Err(fault) = &done {
        advice.of_domain(heap, options.file, text, fault);
    }
    done
}

// Does what is asked with the text.
fn print_asked<'a, W: Write>(
    heap: Global,
    options: &PrintOptions<'a>,
    text: &[u8],
    output: &mut W,
    advice: &mut Advice,
) -> Result<u8, Fault<'a>>
    ensures { IfOk result (λ status. status ≤ 1) }
{
    if options.check {
        return check_print(heap, options, text, output, advice);
    }
    let printed = if options.keep {
        print_kept(heap, options.file, text, output)
    } else {
        print_all(heap, options.file, text, output)
    };
    match printed {
        Ok(()) => Ok(DONE),
        Err(fault) => Err(fault),
    }
}

// Prints the text to its end.
fn print_all<'a, W: Write>(
    heap: Global,
    file: &'a str,
    text: &[u8],
    output: &mut W,
) -> Result<(), Fault<'a>> {
    let Ok(mut writer) = BufWriter::new(heap, &mut *output) else {
        return Err(Fault::Memory);
    };
    if let Err(fault) = print_in_arena(heap, file, text, &mut writer) {
        return Err(fault);
    }
    match writer.flush() {
        Ok(()) => Ok(()),
        Err(_) => Err(Fault::Output),
    }
}

/// Prints the text of a tree in an arena, as `print_text` does.
pub(crate) fn print_in_arena<'a, W: Write>(
    heap: Global,
    file: &'a str,
    text: &[u8],
    writer: &mut W,
) -> Result<(), Fault<'a>>
    ensures printed { OnOk result ((said : List ItemData) × IsFileOf text.now said
        × Wrote (W.contents writer.old) (W.contents writer.new) (file_text said)) }
{
    let mut arena = Bump::new(heap);
    if let Err(fault) = print_text(&arena, file, text, writer) {
        return Err(fault);
    }
    match arena.reset() {
        Ok(()) => Ok(()),
        Err(_) => Err(Fault::Memory),
    }
}

/// Prints the canonical text of the file that a text says. The tree lies in memory of `alloc`.
///
/// The cost is that of reading and the length of what is written. The error is the fault of the text, by the path of
/// its file, `Output` or `Memory`. At `Output` a prefix is written.
pub fn print_text<'a, A: Allocator + Clone, W: Write>(
    alloc: A,
    file: &'a str,
    text: &[u8],
    writer: &mut W,
) -> Result<(), Fault<'a>>
    ensures printed { OnOk result ((said : List ItemData) × IsFileOf text.now said
        × Wrote (W.contents writer.old) (W.contents writer.new) (file_text said)) }
    ensures err { IfErr result (λ fault. fault ≢ Fault.Output → IsTextFault file.now text.now fault) }
    ensures output { result ≡ Err Fault.Output → (said : List ItemData) × IsFileOf text.now said
        × WroteFront (W.contents writer.old) (W.contents writer.new) (file_text said) }
    ensures unwritten { OnErr result (result ≢ Err Fault.Output → W.contents writer.new ≡ W.contents writer.old) }
{
    let tree = match sml_read::read(alloc, text) {
        Ok(tree) => tree,
        Err(error) => return Err(Fault::of_text(file, error)),
    };
    match write_to(&tree, writer) {
        Ok(()) => Ok(()),
        Err(PrintFault) => Err(Fault::Output),
    }
}
