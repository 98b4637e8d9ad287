//! Requests that name an object and an action: to which object they go, and their envelopes.
ghost use Rattle.std.specs.Prelude.{IfErr, IfOk};
ghost use Rattle.smi_journal_entries.specs.Addressing.{IsAddressError, IsAddressed, address_refusal};

use crate::args::Args;
use crate::completing::{Passed, complete};
use crate::entry::Sender;
use crate::envelope::Envelope;
use crate::laws::laws_of_arguments;
use crate::session::SessionId;
use sml_domain::{ActionId, Domain, ObjId};
use sml_tree::Name;
use std::alloc::Global;

/// Why a request is not made of names and of what is passed.
#[derive(Clone, Copy, Debug, Eq, PartialEq)]
pub enum AddressError {
    /// No object has the name.
    UnknownObject,
    /// No state of the object's class declares the action.
    UnknownAction,
    /// What is passed is unknown, repeated, missing or of the wrong kind.
    BadArgs,
    /// Out of memory.
    Memory,
}

/// A request that is ready to be sent: the object that it goes to, its action, its complete arguments, and its
/// envelope, which has them too.
#[derive(Drop)]
pub struct Addressed {
    pub object: ObjId,
    pub action: ActionId,
    pub args: Args,
    pub envelope: Envelope,
}

/// Finds the object and the action that a session's request names, completes what it passes, and makes its envelope,
/// under the number 0. The causes of a refusal are looked for in the order of `AddressError`; `Memory` is answered
/// only if no other stands. The cost is that of `complete`, and of finding the names.
pub fn address(
    alloc: Global,
    domain: &Domain,
    sender: SessionId,
    object: &Name,
    action: &Name,
    passed: &[Passed],
) -> Result<Addressed, AddressError>
    ensures made { IfOk result (λ r. IsAddressed domain.now sender object.now action.now passed.now
        r.object r.action r.args r.envelope) }
    ensures refused { IfErr result (IsAddressError (address_refusal domain.now object.now action.now passed.now)) }
{
    laws_of_arguments();
    let Some(object) = domain.object(object) else {
        return Err(AddressError::UnknownObject);
    };
    let Some(action) = domain.action(action) else {
        return Err(AddressError::UnknownAction);
    };
    let Some(params) = domain.parameters(object, action) else {
        return Err(AddressError::UnknownAction);
    };
    let args = match complete(alloc, params, passed) {
        Ok(Some(args)) => args,
        Ok(None) => return Err(AddressError::BadArgs),
        Err(_) => return Err(AddressError::Memory),
    };
    let Ok(shared) = args.share() else {
        return Err(AddressError::Memory);
    };
    match Envelope::new(Sender::Operator(sender), action, shared) {
        Ok(envelope) => Ok(Addressed {
            object,
            action,
            args,
            envelope,
        }),
        Err(_) => Err(AddressError::Memory),
    }
}
