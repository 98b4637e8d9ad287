//! The faults of a file that was read.
ghost use Rattle.std.specs.Prelude.{◌≡◌, ◌<◌, ◌-◌, IfOk, IfSome, min};
ghost use Rattle.sml_writer.specs.Tells.{Tells};
ghost use Rattle.explain_files.specs.Others.{faults_word, others_text};

use crate::directory::Directory;
use crate::finding::{Finding, Findings};
use crate::sentence::tell_sentence;
use crate::spots::Spots;
use crate::subject::Subject;
use crate::teller::Teller;
use crate::tokens::Tokens;
use crate::walk::{Before, Walk};
use sml_read::{ReadError, ReadErrorKind, read};
use sml_text::Sink;
use sml_tree::SmlFile;
use sml_writer::Out;
use std::alloc::{AllocError, Global};

// How many faults of a file are told.
const TOLD: usize = 20;

/// Explains the faults of a file that was read and is not well-formed: for each its place, one sentence, and the
/// line with a caret below it. They come in the order of the text, twenty at most, and then how many more there are.
/// Nothing is written for a text that is refused by the reader, or has no faults.
///
/// It is text for people, and no part of a format: what is written is not promised, and only tests hold it. The text
/// is read once more, with its tree and tables in memory.
pub fn explain_check<W: Sink>(
    alloc: Global,
    file: &str,
    text: &[u8],
    out: &mut Out<'_, W>,
) -> Result<(), AllocError> {
    let mut out = Teller { file, text, out };
    match read(alloc, text) {
        Ok(tree) => {
            let told = explain_tree(alloc, &tree, &mut out);
            drop(tree);
            told
        }
        Err(error) => of_refusal(&error),
    }
}

/// Tells of a well-formed text that it has no items, if that is so; else nothing is written. The cost is that of the
/// blanks and comments before its first token.
pub fn explain_good<W: Sink>(file: &str, text: &[u8], out: &mut Out<'_, W>) {
    let mut tokens = Tokens::new(text);
    if tokens.take().is_none() {
        out.say(file.as_bytes());
        out.say(b": no items\n");
    }
}

/// The faults of a text, of which the first are kept, in the order of the text, and `MOST` of them where there are as
/// many; None if it is refused by the reader.
///
/// The time is that of reading and checking, and some looks at each object that a set may come to have for each `do`
/// and test of the set; where a `do` leaves an argument out, as many as the square of these objects, of which there
/// are `MAX_MEMBERS` and `MAX_OBJECTS` at most. The memory is that of the tree, of its tables, and of the faults that
/// are kept.
pub fn faults_of_text<const MOST: usize>(
    alloc: Global,
    text: &[u8],
) -> Result<Option<Findings<MOST>>, AllocError>
    ensures { IfOk result (λ r. IfSome r (λ found. found.kept ≡ min found.told MOST)) }
{
    match read(alloc, text) {
        Ok(tree) => {
            let mut findings = Findings::new(alloc);
            let found = find_in_tree(alloc, text, &tree, &mut findings);
            drop(tree);
            handed(found, findings)
        }
        Err(error) => match of_refusal(&error) {
            Ok(()) => Ok(None),
            Err(error) => Err(error),
        },
    }
}

// What was found, if memory did not run out.
fn handed<const MOST: usize>(
    found: Result<(), AllocError>,
    findings: Findings<MOST>,
) -> Result<Option<Findings<MOST>>, AllocError>
    ensures { IfOk result (λ r. IfSome r (λ found. found.kept ≡ min found.told MOST)) }
{
    if found.is_ok() && !findings.lacks_memory() {
        return Ok(Some(findings));
    }
    drop(findings);
    Err(AllocError)
}

// Err if the reader refused since memory ran out.
fn of_refusal(error: &ReadError) -> Result<(), AllocError> {
    match error.kind {
        ReadErrorKind::Memory => Err(AllocError),
        _ => Ok(()),
    }
}

// Finds the faults of a tree.
fn find_in_tree<const MOST: usize>(
    alloc: Global,
    text: &[u8],
    tree: &SmlFile<Global>,
    findings: &mut Findings<MOST>,
) -> Result<(), AllocError> {
    let mut directory = Directory::new(alloc, tree);
    let mut spots = Spots::new(alloc);
    let found = match directory.fill(alloc) {
        Ok(()) => match spots.fill(text) {
            Ok(()) => find(alloc, &directory, &spots, findings),
            Err(error) => Err(error),
        },
        Err(error) => Err(error),
    };
    drop(spots);
    drop(directory);
    found
}

// Finds the faults of a file.
fn find<const MOST: usize>(
    alloc: Global,
    directory: &Directory<'_>,
    spots: &Spots,
    findings: &mut Findings<MOST>,
) -> Result<(), AllocError> {
    let mut before = Before::new(alloc);
    let mut walk = Walk {
        directory,
        spots,
        passed: 0,
        before: &mut before,
        findings,
    };
    walk.items();
    let lacks_memory = walk.findings.lacks_memory();
    drop(before);
    if lacks_memory {
        Err(AllocError)
    } else {
        Ok(())
    }
}

// Explains the faults of a tree.
fn explain_tree<W: Sink>(
    alloc: Global,
    tree: &SmlFile<Global>,
    out: &mut Teller<'_, '_, W>,
) -> Result<(), AllocError> {
    let mut directory = Directory::new(alloc, tree);
    let mut spots = Spots::new(alloc);
    let told = match directory.fill(alloc) {
        Ok(()) => match spots.fill(out.text) {
            Ok(()) => explain_file(alloc, &directory, &spots, out),
            Err(error) => Err(error),
        },
        Err(error) => Err(error),
    };
    drop(spots);
    drop(directory);
    told
}

// Explains the faults of a file.
fn explain_file<W: Sink>(
    alloc: Global,
    directory: &Directory<'_>,
    spots: &Spots,
    out: &mut Teller<'_, '_, W>,
) -> Result<(), AllocError> {
    let mut findings: Findings<TOLD> = Findings::new(alloc);
    let found = find(alloc, directory, spots, &mut findings);
    if found.is_ok() {
        let subject = Subject { directory, spots };
        for finding in findings.kept() {
            tell_finding(out, subject, finding);
        }
        tell_rest(&mut *out.out, out.file, &findings);
    }
    drop(findings);
    found
}

// Explains one fault.
fn tell_finding<W: Sink>(out: &mut Teller<'_, '_, W>, subject: Subject<'_>, finding: &Finding) {
    out.begin(finding.at);
    tell_sentence(out, subject, finding);
    out.end(finding.at);
}

// How many faults there are behind those that are told one by one, if there are any.
fn tell_rest<W: Sink, const MOST: usize>(
    out: &mut Out<'_, W>,
    file: &str,
    findings: &Findings<MOST>,
)
    ensures { Tells W.contents W.has_refused out.old out.new
        (others_text file.now (findings.now.told - findings.now.kept)) }
{
    let count = findings.others();
    if count > 0 {
        tell_others(out, file, count);
    }
}

// The line of the count of other faults, one at least.
fn tell_others<W: Sink>(out: &mut Out<'_, W>, file: &str, count: usize)
    requires { 0 < count }
    ensures { Tells W.contents W.has_refused out.old out.new
        (others_text file.now count) }
{
    out.say(file.as_bytes());
    out.say(b": and ");
    out.number(count as u64);
    out.say(faults_word(count));
}

// The end of that line.
fn faults_word(count: usize) -> &'static [u8]
    requires { 0 < count }
    ensures { result.now ≡ faults_word count }
{
    if count == 1 {
        b" more fault\n"
    } else {
        b" more faults\n"
    }
}
