//! Arguments and readings: lists that never change, shared by their owners.
ghost use Rattle.std.specs.Prelude.{◌≡◌, IfOk};

use sml_domain::{ObjId, StateId, Value};
use std::alloc::{AllocError, Global};
use std::marker::Model;
use std::sync::Arc;

/// The arguments of a request in the order of the action's parameters. Their owners share them. An empty list
/// allocates nothing, and nothing of it is shared.
#[derive(Drop)]
pub struct Args {
    values: Option<Arc<Vec<Value>, Global>>,
}

impl Model for Args {
    ghost use Rattle.std.specs.Prelude.{List};
    ghost use Rattle.std.specs.Arc.{arc_value};
    ghost use Rattle.sml_domain.specs.declared.value.Value.{Value as Val};
    ghost use Rattle.smi_journal_entries.specs.Shares.{shared_items};

    ghost Value = { List Val };

    ghost view = { λ a. shared_items a.values (λ values. (arc_value values).items) };
}

impl Args {
    /// Makes the arguments of a list, whose values are moved and not copied. An empty list allocates nothing.
    /// An error means out of memory.
    pub fn new(alloc: Global, values: Vec<Value>) -> Result<Args, AllocError>
        ensures { IfOk result (λ a. a ≡ values.items) }
    {
        if values.is_empty() {
            return Ok(Args { values: None });
        }
        match Arc::new(alloc, values) {
            Ok(values) => Ok(Args {
                values: Some(values),
            }),
            Err(_) => Err(AllocError),
        }
    }

    /// Returns the values in order.
    pub fn values(&self) -> &[Value]
        ensures { result.now ≡ self.now }
    {
        match &self.values {
            Some(values) => values,
            None => &[],
        }
    }

    /// Returns the same arguments, shared. Only the count of their owners changes.
    pub fn share(&self) -> Result<Args, AllocError>
        ensures { IfOk result (λ a. a ≡ self.now) }
    {
        match &self.values {
            Some(values) => Ok(Args {
                values: Some(Arc::try_clone(values)?),
            }),
            None => Ok(Args { values: None }),
        }
    }
}

/// A state that was read of an object.
#[derive(Clone, Copy, Eq, PartialEq)]
pub struct Reading {
    pub object: ObjId,
    pub state: StateId,
}

impl Model for Reading {
    ghost use Rattle.sml_domain.specs.Truth as truth;

    ghost Value = { truth.Reading };

    ghost view = { λ r. record { object = r.object; state = r.state } };

    ghost inverse = { λ r. record { object = r.object; state = r.state } };
}

/// What a condition or a `wait` read, each object once. Their owners share them.
#[derive(Drop)]
pub struct Readings {
    list: Arc<Vec<Reading>, Global>,
}

impl Model for Readings {
    ghost use Rattle.std.specs.Prelude.{List};
    ghost use Rattle.std.specs.Arc.{arc_value};
    ghost use Rattle.sml_domain.specs.Truth as truth;

    ghost Value = { List truth.Reading };

    ghost view = { λ r. (arc_value r.list).items };
}

impl Readings {
    /// Returns the readings of a list, which are moved and not copied.
    pub fn new(alloc: Global, list: Vec<Reading>) -> Result<Readings, AllocError>
        ensures { IfOk result (λ r. r ≡ list.items) }
    {
        match Arc::new(alloc, list) {
            Ok(list) => Ok(Readings { list }),
            Err(_) => Err(AllocError),
        }
    }

    /// Returns the readings in order.
    pub fn list(&self) -> &[Reading]
        ensures { result.now ≡ self.now }
    {
        &self.list
    }

    /// Returns the same readings, shared. Only the count of their owners changes.
    pub fn share(&self) -> Result<Readings, AllocError>
        ensures { IfOk result (λ r. r ≡ self.now) }
    {
        Ok(Readings {
            list: Arc::try_clone(&self.list)?,
        })
    }
}
