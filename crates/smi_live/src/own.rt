//! The lines of a manager's own steps.
ghost use Rattle.std.specs.Prelude.{◌≡◌, ◌<◌, ◌++◌, IfOk, Ok, Some, codes, length, true};
ghost use Rattle.sml_domain.specs.Lookups.{object_named};
ghost use Rattle.smi_world.specs.declared.step.Step.TheVariants as asks;
ghost use Rattle.smi_lines.specs.Line.{LineReads};
ghost use Rattle.smi_live_once.specs.Forms.{HasNoBlank, IsUnmarked};
ghost use Rattle.smi_live.specs.Keeping.{AreOwn, IsOwnOf};
ghost use Rattle.smi_live.specs.Managing.{IsOwnLine};

use smi_core::{Step, read_step};
use sml_domain::{Domain, ObjId};
use sml_tree::Name;
use std::alloc::{AllocError, Global};
use std::marker::Model;

/// A line, and the step that it asks for.
#[derive(Drop)]
pub(crate) struct OwnLine {
    text: Vec<u8>,
    step: Step,
}

impl Model for OwnLine {
    ghost use Rattle.std.specs.Prelude.{Ok, Some};
    ghost use Rattle.smi_lines.specs.Line.{LineReads};
    ghost use Rattle.smi_live_once.specs.Forms.{IsUnmarked};
    ghost use Rattle.smi_live.specs.Keeping.{Said};
    ghost use Rattle.smi_live.specs.Managing.{IsOwnLine};

    ghost Value = { Said };

    ghost view = { λ l. record { line = l.text.items; step = l.step } };

    ghost invariant = { λ l. LineReads l.text.items (Ok (Some l.step)) × IsOwnLine l.step l.text.items
        × IsUnmarked l.text.items };
}

// Whether a step is the start of what has a name.
fn is_start(step: &Step, name: &Name) -> bool
    ensures { result ≡ true → step.now ≡ asks.Start name.now }
{
    match step {
        Step::Start(read) => read == name,
        _ => false,
    }
}

// Whether a step is the go of what has a name.
fn is_go(step: &Step, name: &Name) -> bool
    ensures { result ≡ true → step.now ≡ asks.Go name.now }
{
    match step {
        Step::Go(read) => read == name,
        _ => false,
    }
}

// A word with its blank, and a name after it.
#[tactic(auto, using(crate::proofs::Unmarked::no_blank_name))]
fn two_words(alloc: Global, word: &[u8], name: &Name) -> Result<Vec<u8>, AllocError>
    ensures text { IfOk result (λ text. text.items ≡ word.now ++ name.now) }
    ensures free { IfOk result (λ text. HasNoBlank name.now) }
{
    let mut text = Vec::new(alloc);
    text.extend_from_slice(word)?;
    text.extend_from_slice(name.as_bytes())?;
    Ok(text)
}

impl OwnLine {
    // The line of the start of what has a name. The error is out of memory: such a line asks for that.
    fn start(alloc: Global, name: &Name) -> Result<OwnLine, AllocError>
        ensures { IfOk result (λ own. own.step ≡ asks.Start name.now) }
    {
        let text = two_words(alloc, b"start ", name)?;
        match read_step(alloc, &text) {
            Ok(Some(step)) => OwnLine::start_of(text, step, name),
            _ => Err(AllocError),
        }
    }

    // A line with its step, where that is the start of what has a name.
    #[tactic(auto, using(crate::proofs::Unmarked::start_unmarked))]
    fn start_of(text: Vec<u8>, step: Step, name: &Name) -> Result<OwnLine, AllocError>
        requires reads { LineReads text.items (Ok (Some step)) }
        requires text { text.items ≡ codes "start " ++ name.now }
        requires free { HasNoBlank name.now }
        ensures { IfOk result (λ own. own.step ≡ asks.Start name.now) }
    {
        if is_start(&step, name) {
            return Ok(OwnLine { text, step });
        }
        Err(AllocError)
    }

    // The line of the go of what has a name. The error is out of memory: such a line asks for that.
    fn go(alloc: Global, name: &Name) -> Result<OwnLine, AllocError>
        ensures { IfOk result (λ own. own.step ≡ asks.Go name.now) }
    {
        let text = two_words(alloc, b"go ", name)?;
        match read_step(alloc, &text) {
            Ok(Some(step)) => OwnLine::go_of(text, step, name),
            _ => Err(AllocError),
        }
    }

    // A line with its step, where that is the go of what has a name.
    #[tactic(auto, using(crate::proofs::Unmarked::go_unmarked))]
    fn go_of(text: Vec<u8>, step: Step, name: &Name) -> Result<OwnLine, AllocError>
        requires reads { LineReads text.items (Ok (Some step)) }
        requires text { text.items ≡ codes "go " ++ name.now }
        requires free { HasNoBlank name.now }
        ensures { IfOk result (λ own. own.step ≡ asks.Go name.now) }
    {
        if is_go(&step, name) {
            return Ok(OwnLine { text, step });
        }
        Err(AllocError)
    }

    /// The line.
    pub(crate) fn text(&self) -> &[u8]
        ensures is { result.now ≡ self.now.line }
        ensures reads { LineReads result.now (Ok (Some self.now.step)) }
        ensures own { IsOwnLine self.now.step result.now }
        ensures unmarked { IsUnmarked result.now }
    {
        &self.text
    }

    /// What it asks for.
    pub(crate) fn step(&self) -> &Step
        ensures { result.now ≡ self.now.step }
    {
        &self.step
    }
}

/// The lines of the steps of an object.
#[derive(Drop)]
pub(crate) struct OwnLines {
    start: OwnLine,
    go: OwnLine,
}

impl Model for OwnLines {
    ghost use Rattle.smi_live.specs.Keeping.{OwnPair};

    ghost Value = { OwnPair };

    ghost view = { λ l. record { start = l.start; go = l.go } };
}

// Whether a name is that of an object.
fn names(domain: &Domain, name: &Name, o: usize) -> bool
    ensures { result ≡ true → object_named domain.now name.now ≡ Some o }
{
    match domain.object(name) {
        Some(found) => found.get() == o,
        None => false,
    }
}

impl OwnLines {
    // Those of an object. The error is out of memory.
    fn new(alloc: Global, domain: &Domain, o: usize) -> Result<OwnLines, AllocError>
        ensures { IfOk result (IsOwnOf domain.now o) }
    {
        let Some(name) = domain.object_name(ObjId::new(o)) else {
            return Err(AllocError);
        };
        if !names(domain, &name, o) {
            return Err(AllocError);
        }
        let start = OwnLine::start(alloc, &name)?;
        let go = OwnLine::go(alloc, &name)?;
        Ok(OwnLines { start, go })
    }

    /// The line of the start.
    pub(crate) fn start(&self) -> &OwnLine
        ensures { result.now ≡ self.now.start }
    {
        &self.start
    }

    /// The line of the go.
    pub(crate) fn go(&self) -> &OwnLine
        ensures { result.now ≡ self.now.go }
    {
        &self.go
    }
}

/// The lines of the steps of all objects. The cost is the square of their count. The error is out of memory.
#[tactic(auto, using(crate::proofs::Resting::lines_more))]
pub(crate) fn all_lines(alloc: Global, domain: &Domain) -> Result<Vec<OwnLines>, AllocError>
    ensures { IfOk result (λ own. AreOwn domain.now own.items (length domain.now.objects)) }
{
    let mut own = Vec::new(alloc);
    for o in 0..domain.objects() {
        own.push(OwnLines::new(alloc, domain, o)?)?;
    }
    Ok(own)
}
