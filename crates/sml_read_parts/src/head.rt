//! The head of a class, an object, a set, a state or an action.
ghost use Rattle.std.specs.Prelude.{◌<◌, IfOk, IsSome, slice_get};
ghost use Rattle.sml_read_parts.specs.Heads.{ReadsHead};
ghost use Rattle.sml_read_parts.specs.Stands.{ReadsLimited, ReadsMark, Deeper};

use crate::fault::{Fault, Stop};
use crate::reader::Reader;
use sml_tree::{Name, TokenKind};

impl Reader<'_> {
    /// Reads the head of an item, `WORD : NAME`, whose word is in front. `before` of its sort were read already;
    /// at `limit` it refuses with `TooMany`.
    pub fn head(&mut self, before: usize, limit: usize) -> Result<Name, Stop>
        requires { IsSome (slice_get self.old 0) }
        ensures read { ReadsHead before limit self.old self.new result }
        ensures room { IfOk result (λ name. before < limit) }
    {
        let held = self.take();
        if before >= limit {
            return Err(Stop::Fault(Fault::TooMany(held.at())));
        }
        self.sign(TokenKind::Colon)?;
        let name = self.named()?;
        Ok(name)
    }

    /// Takes the token in front, which is inside `depth` of its sort; at `limit` it refuses with `TooDeep`.
    pub fn deeper(&mut self, depth: u32, limit: u32) -> Result<(), Stop>
        requires { IsSome (slice_get self.old 0) }
        ensures { Deeper limit depth self.old self.new result }
    {
        let held = self.take();
        if depth >= limit {
            return Err(Stop::Fault(Fault::TooDeep(held.at())));
        }
        Ok(())
    }

    /// Reads a name; `before` names were read already, and at `limit` it refuses with `TooMany`.
    pub fn limited(&mut self, before: usize, limit: usize) -> Result<Name, Stop>
        ensures read { ReadsLimited limit before self.old self.new result }
        ensures room { IfOk result (λ name. before < limit) }
    {
        let held = self.expect(TokenKind::Name)?;
        if before >= limit {
            return Err(Stop::Fault(Fault::TooMany(held.at())));
        }
        Ok(held.name())
    }

    /// Whether a slash and this word follow.
    pub fn mark(&mut self, word: TokenKind) -> Result<bool, Stop>
        ensures { ReadsMark word self.old self.new result }
    {
        if !self.skip(TokenKind::Slash) {
            return Ok(false);
        }
        self.sign(word)?;
        Ok(true)
    }
}
