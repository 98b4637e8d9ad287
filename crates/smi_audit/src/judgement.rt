//! What is said of a journal.

use smi_audit_rules::Rule;
use std::fmt;

/// Whether a journal is legal. Its `Display` is the line (docs/FORMATS.md, "What a journal is judged by"), without the
/// line feed.
#[derive(Clone, Copy, Eq, PartialEq)]
pub enum Judgement {
    /// Each of its entries may follow those before it.
    Legal,
    /// The first line whose entry may not, and the first rule that it breaks. Lines count from 1, and
    /// the first one is the header.
    Illegal { line: u64, rule: Rule },
}

impl fmt::Display for Judgement {
    ghost use Rattle.std.specs.Prelude.{Some};
    ghost use Rattle.smi_audit.specs.JudgementText.{ruling_text};

    ghost output = { λ judgement. Some (ruling_text judgement) };

    fn fmt<W: fmt::Write>(&self, f: &mut fmt::Formatter<W>) -> fmt::Result {
        match self {
            Judgement::Legal => f.write_str("Legal"),
            Judgement::Illegal { line, rule } => write!(f, "Illegal {line} {rule}"),
        }
    }
}
