//! A line that names the start which it answers.
ghost use Rattle.std.specs.Prelude.{◌≡◌, ◌≢◌, ℕ, List, Err, IfNone, IfOk, IfSome, true};
ghost use Rattle.smi_lines.specs.declared.line.LineError.TheVariants as fault;
ghost use Rattle.smi_lines.specs.Line as lines;
ghost use Rattle.smi_live_once.specs.Forms.{IsUnmarked};
ghost use Rattle.smi_live_answers.specs.EndWords.{comment_of};
ghost use Rattle.smi_live_answers.specs.Naming.{AnswersObject, HasStartWords, NamedView, NamesStart, answer_front};
ghost use Rattle.smi_live_answers.specs.Naming.{answered_object, object_answered, plain_answer};

use crate::parts::{SenderName, StartParts, plain_line, read_parts};
use smi_core::{LineError, Step, read_step};
use smi_lines::is_line;
use smi_live_once::read_mark;
use sml_text::laws_of_tokens;
use sml_tree::Name;
use std::alloc::{AllocError, Global};
use std::marker::Model;

/// What a line says that names its start: the line without SENDER and NUMBER, the object that it is of, and the two.
#[derive(Drop)]
pub struct NamedStart {
    plain: Vec<u8>,
    object: Name,
    sender: SenderName,
    number: u64,
}

impl Model for NamedStart {
    ghost use Rattle.smi_live_answers.specs.Naming.{NamedView};

    ghost Value = { NamedView };

    ghost view = { λ n. record { plain = n.plain.items; object = n.object; sender = n.sender; number = n.number } };
}

impl NamedStart {
    /// The line without SENDER and NUMBER.
    pub fn plain(&self) -> &[u8]
        ensures { result.now ≡ self.now.plain }
    {
        &self.plain
    }

    /// The name of the object that answers.
    pub fn object(&self) -> &Name
        ensures { result.now ≡ self.now.object }
    {
        &self.object
    }

    /// Who sent the request that it answers.
    pub fn sender(&self) -> SenderName
        ensures { result ≡ self.now.sender }
    {
        self.sender
    }

    /// The number of that request.
    pub fn number(&self) -> u64
        ensures { result ≡ self.now.number }
    {
        self.number
    }
}

// The object whose device answers or fails by a step.
fn object_in(step: &Step) -> Option<Name>
    ensures { result ≡ answered_object step.now }
{
    match step {
        Step::Answer { object, .. } | Step::Fault(object) => Some(*object),
        Step::Request { .. } | Step::Start(_) | Step::Go(_) | Step::Kill { .. } => None,
    }
}

// The object whose device answers or fails by what was read. The error is out of memory.
fn object_of(read: &Result<Option<Step>, LineError>) -> Result<Option<Name>, AllocError>
    ensures is { IfOk result (λ o. o ≡ object_answered read.now) }
    ensures read { IfOk result (λ _. read.now ≢ Err fault.Memory) }
{
    match read {
        Ok(Some(step)) => Ok(object_in(step)),
        Ok(None) | Err(LineError::BadLine) => Ok(None),
        Err(LineError::Memory) => Err(AllocError),
    }
}

// The object whose device answers or fails by a line without a mark. The error is out of memory.
#[tactic(auto, using(crate::proofs::OneName::object_there))]
fn answered_unmarked(alloc: Global, plain: &[u8]) -> Result<Option<Name>, AllocError>
    requires { IsUnmarked plain.now }
    ensures some { IfOk result (λ o. IfSome o (AnswersObject plain.now)) }
    ensures none { IfOk result (λ o. IfNone o ((x : List ℕ) → AnswersObject plain.now x → ⊥)) }
{
    laws_of_tokens();
    let read = read_step(alloc, plain);
    let object = object_of(&read);
    drop(read);
    object
}

// The object whose device answers or fails by a line. The error is out of memory.
fn answered_in(alloc: Global, plain: &[u8]) -> Result<Option<Name>, AllocError>
    ensures some { IfOk result (λ o. IfSome o (AnswersObject plain.now)) }
    ensures none { IfOk result (λ o. IfNone o ((x : List ℕ) → AnswersObject plain.now x → ⊥)) }
{
    match read_mark(plain) {
        Some(_) => Ok(None),
        None => answered_unmarked(alloc, plain),
    }
}

// What a line of these parts says, if it is an answer or a fault. The error is out of memory.
fn named_by(
    alloc: Global,
    line: &[u8],
    parts: &StartParts<'_>,
) -> Result<Option<NamedStart>, AllocError>
    requires one { lines.is_line line.now ≡ true }
    requires words { HasStartWords line.now parts.now.sender parts.now.number }
    requires front { parts.now.front.now ≡ answer_front line.now }
    requires comment { parts.now.comment.now ≡ comment_of line.now }
    ensures some { IfOk result (λ n. IfSome n (NamesStart line.now)) }
    ensures none { IfOk result (λ n. IfNone n ((v : NamedView) → NamesStart line.now v → ⊥)) }
{
    let plain = plain_line(alloc, parts.front, parts.comment)?;
    match answered_in(alloc, &plain) {
        Ok(Some(object)) => Ok(Some(NamedStart {
            plain,
            object,
            sender: parts.sender,
            number: parts.number,
        })),
        Ok(None) => Ok(None),
        Err(error) => Err(error),
    }
}

/// What a line says, if it is `answer OBJECT STATE SENDER NUMBER` or `fault OBJECT SENDER NUMBER`, with a comment or
/// not, whose line without SENDER and NUMBER ends with no mark. The cost is the length of the line. The error is out of
/// memory.
pub fn read_named(alloc: Global, line: &[u8]) -> Result<Option<NamedStart>, AllocError>
    ensures some { IfOk result (λ n. IfSome n (NamesStart line.now)) }
    ensures none { IfOk result (λ n. IfNone n ((v : NamedView) → NamesStart line.now v → ⊥)) }
{
    if !is_line(line) {
        return Ok(None);
    }
    match read_parts(line) {
        Some(parts) => named_by(alloc, line, &parts),
        None => Ok(None),
    }
}
