//! Tasks of requests, made by hand.
ghost use Rattle.std.specs.Prelude.{◌≡◌, IfSome, IsTrue, is_some};
ghost use Rattle.std.specs.Arc.{arc_value};
ghost use Rattle.sml_domain.specs.Lookups.{block_at};

use smi_interp::{Ready, Task};
use smi_journal::Envelope;
use sml_domain::{ActionId, Domain, ObjId, StateId, Value};
use std::alloc::Global;
use std::sync::Arc;

/// What a task of an object is begun with, if a state declares an action.
pub fn ready_of(
    alloc: Global,
    domain: Arc<Domain>,
    o: ObjId,
    begins: (StateId, ActionId),
    params: &[Value],
) -> Option<Ready>
    ensures domain { IfSome result (λ r. r.domain ≡ arc_value domain) }
    ensures object { IfSome result (λ r. r.object ≡ o) }
    ensures declared { IfSome result (λ r. IsTrue (is_some (block_at r.domain r.object begins.0 begins.1))) }
{
    let (state, action) = begins;
    if !domain.declares(o, state, action) {
        return None;
    }
    Ready::new(alloc, domain, o, params).ok()
}

/// The task of an object in a state and with parameters, for a request whose action the state declares.
pub fn task_of(
    alloc: Global,
    domain: Arc<Domain>,
    o: ObjId,
    state: StateId,
    params: &[Value],
    envelope: Envelope,
) -> Option<Task>
    ensures domain { IfSome result (λ t. t.domain ≡ arc_value domain) }
    ensures object { IfSome result (λ t. t.turn.object ≡ o) }
{
    let action = envelope.letter().action;
    match ready_of(alloc, domain, o, (state, action), params) {
        Some(ready) => Some(ready.begin(state, envelope)),
        None => None,
    }
}
