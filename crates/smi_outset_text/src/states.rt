//! The lines of states.
ghost use Rattle.std.specs.Prelude.{◌≡◌, ◌<◌, ◌++◌, IfErr, IfOk, length, option_map};
ghost use Rattle.smi_outset_text.specs.OutsetText.{numbered, outset_state_line};
ghost use Rattle.smi_outset_text.specs.Lines.{BeginsWithLines, state_lines};
ghost use Rattle.smi_outset_text.specs.Reading.{AreOwnStates, FaultIsIn, FollowsFront, OwnFollows, ReadsState, StateIsFound};

use crate::fault::OutsetFault;
use crate::part::Part;
use crate::pieces::{behind_last, behind_object};
use sml_domain::{Domain, ObjId, State, StateId};
use std::alloc::Global;

// What follows the line of a state of an object.
#[tactic(auto, using(crate::proofs::Fronts::follows_both, crate::proofs::Fronts::follows_none))]
fn behind_state<'a>(text: &'a [u8], domain: &Domain, o: ObjId, s: StateId) -> Option<&'a [u8]>
    ensures { FollowsFront text.now (outset_state_line domain.now o s) (option_map (λ more. more.now) result) }
{
    match behind_object(text, b"! state", domain, o) {
        Some(more) => behind_last(more, domain.state_name(s), b"\n"),
        None => None,
    }
}

// What follows the line of a state, which is one of the object's.
fn behind_own<'a>(text: &'a [u8], domain: &Domain, o: ObjId, s: StateId) -> Option<&'a [u8]>
    ensures { OwnFollows domain.now o text.now s (option_map (λ more. more.now) result) }
{
    // A number that is kept has 64 bits.
    let _number = s.get();
    if domain.is_state(o, s) {
        behind_state(text, domain, o, s)
    } else {
        None
    }
}

// The state of the object among these whose line is in front, and what follows it.
fn state_among<'a>(
    text: &'a [u8],
    domain: &Domain,
    o: ObjId,
    rows: &[State],
) -> Option<(StateId, &'a [u8])>
    ensures { StateIsFound domain.now o text.now rows.now (option_map (λ x. (x.0, x.1.now)) result) }
{
    for row in rows {
        if let Some(more) = behind_own(text, domain, o, row.number) {
            return Some((row.number, more));
        }
    }
    None
}

// The state of the object whose line is in front, and what follows it.
fn next_state<'a>(text: &'a [u8], domain: &Domain, o: ObjId) -> Option<(StateId, &'a [u8])>
    requires { o < length domain.now.objects }
    ensures { ReadsState domain.now o text.now (option_map (λ x. (x.0, x.1.now)) result) }
{
    let class = &domain.classes()[domain.class_of(o).get()];
    state_among(text, domain, o, class.states.rows())
}

/// The states of all objects whose lines are in front, in order.
#[tactic(auto, using(crate::proofs::Beginning::begins_more, crate::proofs::Beginning::bad_at, crate::proofs::Numbered::numbered_push))]
pub(crate) fn read_states<'a>(
    alloc: Global,
    text: &'a [u8],
    domain: &Domain,
) -> Result<Part<'a, Vec<StateId>>, OutsetFault>
    ensures states { IfOk result (λ x. AreOwnStates domain.now x.found.items) }
    ensures whole { IfOk result (λ x. text.now
        ≡ numbered (outset_state_line domain.now) 0 x.found.items ++ x.rest.now) }
    ensures count { IfOk result (λ x. x.lines ≡ length (state_lines domain.now)) }
    ensures lines { IfOk result (λ x. BeginsWithLines domain.now (state_lines domain.now) text.now x.rest.now) }
    ensures fault { IfErr result (FaultIsIn domain.now (state_lines domain.now) text.now) }
{
    let objects = domain.objects();
    let mut found = Vec::new(alloc);
    let mut rest = text;
    for o in 0..objects {
        let Some(next) = next_state(rest, domain, ObjId::new(o)) else {
            return Err(OutsetFault::BadLine(o));
        };
        let Ok(()) = found.push(next.0) else {
            return Err(OutsetFault::Memory);
        };
        rest = next.1;
    }
    Ok(Part {
        found,
        lines: objects,
        rest,
    })
}
