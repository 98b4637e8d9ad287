//! The reading of a text.
ghost use Rattle.std.specs.Prelude.{◌≡◌, ◌≤◌, ◌<◌, ◌^◌, ℕ, List, map, length, IfOk, IfErr, Some, None, Err, false};
ghost use Rattle.sml_text.specs.declared.source.Source.TheVariants as source;
ghost use Rattle.sml_text.specs.Tokens.{BadTokenOf};
ghost use Rattle.sml_tree.specs.Syntax.{ItemData};
ghost use Rattle.sml_tree.specs.Form.{File, part};
ghost use Rattle.sml_tree.specs.Content.{item_content, file_content};
ghost use Rattle.sml_read.specs.declared.error.ReadErrorKind.TheVariants as kinds;
ghost use Rattle.sml_read_parts.specs.Left.{left};
ghost use Rattle.sml_read_parts.specs.Machine.{run};
ghost use Rattle.sml_read_parts.specs.Reads.{Gives};
ghost use Rattle.sml_read.specs.Promise.{read_refusal, IsShort, first_foreign, IsFileOf, ReadsFile, Cause, error_of as told};

use crate::error::{ReadError, ReadErrorKind};
use crate::item::file;
use sml_read_parts::{Fault, Reader, Stop};
use sml_text::{Source, first_bad, laws_of_tokens};
use sml_tree::{Item, SmlFile};
use std::alloc::Allocator;

/// How many bytes a text may have.
pub const MAX_TEXT: usize = 1_048_576;

// Reads the items of a text, from left to right.
fn read_items<A: Allocator + Clone>(alloc: &A, text: &[u8]) -> Result<Vec<Item<A>, A>, Stop>
    requires { length text.now ≤ 2 ^ 20 }
    ensures { Gives (λ v. map item_content v.items) result
        (run (File 0 0 0) _ (part (File 0 0 0)) (left false 0 text.now)) }
{
    let mut reader = Reader::new(text);
    let items = file(&mut reader, alloc)?;
    match reader.peek() {
        None => Ok(items),
        Some(_) => Err(reader.refusal()),
    }
}

// Returns the place of the first byte above 0x7F. The loop is never left early, so that many bytes are
// looked at at once; most texts have no such byte.
fn foreign_at(text: &[u8]) -> Option<usize>
    ensures { result ≡ first_foreign text.now }
{
    let mut most: u8 = 0;
    for b in text {
        most = most.max(*b);
    }
    if most <= 127 {
        return None;
    }
    text.iter().position(|b| *b > 127)
}

// Returns the error for a stop in a text of `length` bytes.
fn error_of(stop: Stop, length: usize) -> ReadError
    ensures { result ≡ told stop length }
{
    let (kind, offset) = match stop {
        Stop::Memory => (ReadErrorKind::Memory, 0),
        Stop::Fault(Fault::Unexpected(offset)) => (ReadErrorKind::Unexpected, offset),
        Stop::Fault(Fault::TooDeep(offset)) => (ReadErrorKind::TooDeep, offset),
        Stop::Fault(Fault::TooMany(offset)) => (ReadErrorKind::TooMany, offset),
        Stop::Fault(Fault::Ends) => (ReadErrorKind::Unexpected, length),
    };
    ReadError { kind, offset }
}

/// Reads a text of a domain, by the whole grammar (docs/LANGUAGE.md, "Grammar").
///
/// The kinds of refusals are looked for in the order of their numbers, TooLong, NotAscii and BadToken
/// over the whole text; these three allocate nothing. If the text is refused, nothing stays allocated. The
/// time grows with the length of the text.
///
/// `tests_of_files` has this example as `first_calls::refuses`:
///
/// ```
/// let file = read(alloc, b"class: LAMP state: OFF")?;
/// let error = read(alloc, b"class lamp").err();   // Unexpected, at offset 6
/// ```
pub fn read<A: Allocator + Clone>(alloc: A, text: &[u8]) -> Result<SmlFile<A>, ReadError>
    ensures read { IfOk result (λ f. IsFileOf text.now (file_content f)) }
    ensures complete { (file : List ItemData) → IsFileOf text.now file → ReadsFile file_content result file }
    ensures refused { IfErr result (λ e. Cause text.now e.kind e.offset) }
    ensures too_long { 2 ^ 20 < length text.now → result ≡ Err (read_refusal kinds.TooLong (2 ^ 20)) }
    ensures not_ascii { (k : ℕ) → IsShort text.now → first_foreign text.now ≡ Some k →
        result ≡ Err (read_refusal kinds.NotAscii k) }
    ensures bad_token { (k : ℕ) → IsShort text.now → first_foreign text.now ≡ None →
        BadTokenOf source.Domain text.now k → result ≡ Err (read_refusal kinds.BadToken k) }
{
    laws_of_tokens();
    if text.len() > MAX_TEXT {
        return Err(ReadError {
            kind: ReadErrorKind::TooLong,
            offset: MAX_TEXT,
        });
    }
    if let Some(offset) = foreign_at(text) {
        return Err(ReadError {
            kind: ReadErrorKind::NotAscii,
            offset,
        });
    }
    if let Some(offset) = first_bad(Source::Domain, text) {
        return Err(ReadError {
            kind: ReadErrorKind::BadToken,
            offset,
        });
    }
    match read_items(&alloc, text) {
        Ok(items) => Ok(SmlFile { items }),
        Err(stop) => Err(error_of(stop, text.len())),
    }
}
