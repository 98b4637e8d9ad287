//! The states in which objects may be.
ghost use Rattle.std.specs.Prelude.{
  ◌≡◌,
  ◌<◌,
  ◌⊎◌,
  ◌↔◌,
  ℕ,
  All,
  Contains,
  IfNone,
  IfOk,
  IfSome,
  OnOk,
  false,
  length,
  true,
};
ghost use Rattle.smi_reach.specs.Found.{
  AddsMissing,
  AddsEnds,
  AreStatesOf,
  Finds,
  HasBlocks,
  IsBlockOf,
  IsIn,
  NoneIsIn,
};
ghost use Rattle.smi_reach.specs.States.{MayBeIn};
ghost use Rattle.smi_reach.specs.Ways.{AreWays};

use crate::ways::Way;
use sml_domain::{Class, ClassId, Domain, State, StateId};
use std::alloc::{AllocError, Global};

// AddsMissing the states that are not there yet.
fn add_missing(list: &mut Vec<StateId>, more: &[StateId]) -> Result<(), AllocError>
    ensures { OnOk result (AddsMissing list.old.items more.now list.new.items) }
{
    for state in more {
        if !list.contains(state) {
            list.push(*state)?;
        }
    }
    Ok(())
}

// AddsMissing the states in which the actions of a row end.
fn add_ends(
    domain: &Domain,
    list: &mut Vec<StateId>,
    row: &State,
    ways: &[Way],
) -> Result<(), AllocError>
    requires known { AreWays domain.now ways.now }
    requires blocks { All (IsBlockOf (length ways.now)) row.now.actions }
    ensures { OnOk result (AddsEnds domain.now row.now.actions list.old.items list.new.items) }
{
    let _domain = domain;
    for action in row.actions.rows() {
        add_missing(list, &ways[action.block.get()].ends)?;
    }
    Ok(())
}

// The first of the places at which is the row of a state of the list.
fn next_row(left: &[usize], rows: &[State], reached: &[StateId]) -> Option<usize>
    requires { All (λ i. i < length rows.now) left.now }
    ensures some { IfSome result (IsIn rows.now reached.now left.now) }
    ensures none { IfNone result (NoneIsIn rows.now reached.now left.now (length left.now)) }
{
    for j in 0..left.len() {
        let row = &rows[left[j]];
        if reached.contains(&row.number) {
            return Some(j);
        }
    }
    None
}

// Goes through one more row whose state may be had, and returns whether there was one.
fn spread(
    domain: &Domain,
    class: &Class,
    ways: &[Way],
    reached: &mut Vec<StateId>,
    left: &mut Vec<usize>,
) -> Result<bool, AllocError>
    requires known { AreWays domain.now ways.now }
    requires blocks { All (HasBlocks (length ways.now)) class.now.states }
    requires finds { Finds domain.now class.now reached.old.items left.old.items }
    ensures finds { IfOk result (λ more. Finds domain.now class.now reached.new.items left.new.items) }
    ensures less { IfOk result (λ more. more ≡ true → length left.new.items < length left.old.items) }
    ensures none { IfOk result (λ more. more ≡ false
        → NoneIsIn class.now.states reached.new.items left.new.items (length left.new.items)) }
{
    let rows = class.states.rows();
    let Some(j) = next_row(left, rows, reached) else {
        return Ok(false);
    };
    let i = left.remove(j);
    add_ends(domain, reached, &rows[i], ways)?;
    Ok(true)
}

// The places of a list of this length.
fn all_places(alloc: Global, count: usize) -> Result<Vec<usize>, AllocError>
    ensures all { IfOk result (λ places. (i : ℕ) → i < count → Contains places.items i) }
    ensures within { IfOk result (λ places. All (λ i. i < count) places.items) }
{
    let mut places = Vec::new(alloc);
    for i in 0..count {
        places.push(i)?;
    }
    Ok(places)
}

/// The states in which an object of a class may be that is not killed: the initial one, and those in which an action
/// ends that such a state declares. Each stands there once, the initial one first. What an action of a device may
/// end in
/// is not among them, so that this says nothing of a class whose actions devices do.
///
/// The ways are those of the blocks of the domain (`ways_of`). The time grows with the actions of the class, and with
/// the square of the count of its states. The error is out of memory.
pub fn states_of(
    alloc: Global,
    domain: &Domain,
    ways: &[Way],
    class: ClassId,
) -> Result<Vec<StateId>, AllocError>
    requires known { AreWays domain.now ways.now }
    requires count { length ways.now ≡ length domain.now.blocks }
    requires class { class < length domain.now.classes }
    ensures { IfOk result (λ states. AreStatesOf domain.now class states.items) }
{
    let class = &domain.classes()[class.get()];
    // A domain is sound: the blocks of its classes are there.
    let _objects = domain.objects();
    let mut reached = Vec::new(alloc);
    reached.push(class.initial)?;
    let mut left = all_places(alloc, class.states.rows().len())?;
    loop {
        if !spread(domain, class, ways, &mut reached, &mut left)? {
            return Ok(reached);
        }
    }
}
