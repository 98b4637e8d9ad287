//! What the judge says about journals.

use crate::settings::{Setting, text_of};
use smi_audit::{JournalError, Judgement, Rule, audit};
use sml_load::domain_of;
use std::alloc::Global;

/// What the judge says of a text.
#[derive(Clone, Copy)]
pub enum Said {
    /// It is the text of a legal journal.
    Legal,
    /// This is the first illegal line, and the first rule that it breaks.
    Illegal(u64, Rule),
    /// It does not begin as the text of a journal.
    BadHeader,
    /// This is the first line that is not an entry.
    BadLine(u64),
}

fn is_answer(answer: Result<Judgement, JournalError>, said: Said) -> bool {
    match answer {
        Ok(Judgement::Legal) => matches!(said, Said::Legal),
        Ok(Judgement::Illegal { line, rule }) => match said {
            Said::Illegal(place, broken) => line == place && rule == broken,
            _ => false,
        },
        Err(JournalError::BadHeader) => matches!(said, Said::BadHeader),
        Err(JournalError::BadLine(line)) => match said {
            Said::BadLine(place) => line == place,
            _ => false,
        },
        Err(JournalError::Memory) => false,
    }
}

/// Whether the judge says this of a text.
pub fn is_said(alloc: Global, setting: Setting, text: &[u8], said: Said) -> bool {
    match domain_of(alloc, text_of(setting)) {
        Ok(domain) => is_answer(audit(alloc, domain, text), said),
        Err(_) => false,
    }
}

/// The first lines of a text with those behind them.
pub fn joined(alloc: Global, front: &[u8], rest: &[u8]) -> Option<Vec<u8>> {
    let mut text = Vec::from_slice(alloc, front).ok()?;
    text.extend_from_slice(rest).ok()?;
    Some(text)
}
