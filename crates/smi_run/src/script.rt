//! Scripts: what sessions do.
ghost use Rattle.std.specs.Prelude.{◌≡◌};

use smi_world::Arguments;
use sml_tree::Name;
use std::sync::Arc;

/// What a session does at once. It has names as they were asked for, and lines may share them (docs/FORMATS.md,
/// "Scripts").
#[derive(Drop)]
pub enum Line {
    /// It posts a request.
    Post {
        object: Arc<Name>,
        action: Arc<Name>,
        given: Arguments,
    },
    /// It kills an object.
    Kill {
        object: Arc<Name>,
    },
}

/// What a session does, in order.
#[derive(Drop)]
pub struct Script {
    lines: Vec<Line>,
}

impl Script {
    /// The script of a list of lines, which are moved and not copied.
    pub fn new(lines: Vec<Line>) -> Script
        ensures { result.lines ≡ lines }
    {
        Script { lines }
    }

    /// The lines in order.
    pub fn lines(&self) -> &[Line]
        ensures { result.now ≡ self.now.lines.items }
    {
        &self.lines
    }
}
