//! A writer, and whether a write to it failed, as one value.
#![tactic(auto)]

ghost use Rattle.std.specs.Prelude.{◌≡◌, ℕ, List, false};
ghost use Rattle.sml_text.specs.Decimal.{decimal_text, int_text};
ghost use Rattle.sml_writer.specs.Tells.{Tells};

use sml_text::{Sink, tell, tell_i64, tell_u64};

/// Where a text of many parts goes, and whether a write of it failed. Nothing is written behind a write that failed, so
/// one test at the end is enough.
///
/// Each method takes no memory of its own, and costs what the writer's calls cost, one for each part that it takes.
#[derive(Drop)]
pub struct Out<'w, W: Sink> {
    /// What takes the bytes.
    pub writer: &'w mut W,
    /// Whether a write failed.
    pub failed: bool,
}

impl<'w, W: Sink> Out<'w, W> {
    /// Writes to this. No write has failed yet.
    pub fn new(writer: &'w mut W) -> Out<'w, W>
        ensures clean { result.failed ≡ false }
        ensures untouched { result.writer.now ≡ writer.old }
        ensures same { result.writer.ghost_name ≡ writer.entry.ghost_name }
    {
        Out {
            writer,
            failed: false,
        }
    }

    /// Writes words as they are, unless a write before failed.
    pub fn say(&mut self, words: &[u8])
        ensures { Tells W.contents W.has_refused self.old self.new words.now }
    {
        tell(&mut *self.writer, &mut self.failed, words);
    }

    /// Writes a number in decimal digits, at most 20, unless a write before failed.
    pub fn number(&mut self, number: u64)
        ensures { Tells W.contents W.has_refused self.old self.new (decimal_text number) }
    {
        tell_u64(&mut *self.writer, &mut self.failed, number);
    }

    /// Writes an int in decimal digits, at most 19 and a minus, unless a write before failed.
    pub fn int(&mut self, int: i64)
        ensures { Tells W.contents W.has_refused self.old self.new (int_text int) }
    {
        tell_i64(&mut *self.writer, &mut self.failed, int);
    }
}
