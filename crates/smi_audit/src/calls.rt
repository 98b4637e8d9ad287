//! The accepted posts of one object to another, and the letters of starts.
ghost use Rattle.std.specs.Prelude.{◌≡◌, ◌++◌, ◌∷◌, [], IfOk, OnOk, map, slice_get, option_map};

use smi_journal::{Args, Letter, Sender};
use sml_domain::ActionId;
use std::alloc::{AllocError, Global};
use std::marker::Model;

/// An action with its arguments, asked of an object.
#[derive(Drop)]
pub struct Call {
    pub action: ActionId,
    pub args: Args,
}

/// What one object asked of another, in order, as far as it was accepted.
#[derive(Drop)]
pub struct Calls {
    list: Vec<Call>,
}

impl Model for Calls {
    ghost use Rattle.std.specs.Prelude.{List};
    ghost use Rattle.smi_audit.specs.declared.calls.Call.{Call as Asked};

    ghost Value = { List Asked };

    ghost view = { λ c. c.list.items };
}

impl Calls {
    // Nothing was asked. It takes no memory.
    pub(crate) fn new(alloc: Global) -> Calls
        ensures { result ≡ [] }
    {
        Calls {
            list: Vec::new(alloc),
        }
    }

    // The call of a number, counted from 0.
    pub(crate) fn get(&self, number: u64) -> Option<&Call>
        ensures { option_map (λ c. c.now) result ≡ slice_get self.now number }
    {
        self.list.get(number as usize)
    }

    // Adds a call.
    pub(crate) fn add(&mut self, call: Call) -> Result<(), AllocError>
        ensures { OnOk result (self.new ≡ self.old ++ call ∷ []) }
    {
        self.list.push(call)?;
        Ok(())
    }
}

// A letter with a share of these arguments.
pub(crate) fn letter(
    sender: &Sender,
    number: u64,
    action: ActionId,
    args: &Args,
) -> Result<Letter, AllocError>
    ensures { IfOk result (λ l. l ≡ record { sender = sender.now; number = number; action = action; args = args.now }) }
{
    let args = args.share()?;
    Ok(Letter {
        sender: *sender,
        number,
        action,
        args,
    })
}
