//! Envelopes: letters on their way, with a share for each who keeps one.
ghost use Rattle.std.specs.Prelude.{◌≡◌, IfOk};
ghost use Rattle.smi_journal_entries.specs.Fits as says;

use crate::args::Args;
use crate::entry::Sender;
use crate::fits::are_arguments;
use crate::letter::Letter;
use sml_domain::{ActionId, Domain, ObjId};
use std::alloc::AllocError;
use std::marker::Model;

/// The same letter four times: for mail, journal, slot and task.
#[derive(Drop)]
pub struct Letters {
    pub mail: Letter,
    pub journal: Letter,
    pub slot: Letter,
    pub task: Letter,
}

/// A request on its way under its number: its letter, and three more shares of its arguments, so that mail,
/// journal, slot and task can each keep a letter without an allocation.
#[derive(Drop)]
pub struct Envelope {
    mail: Letter,
    journal: Args,
    slot: Args,
    task: Args,
}

impl Model for Envelope {
    ghost use Rattle.std.specs.Prelude.{◌≡◌};
    ghost use Rattle.smi_journal_entries.specs.declared.letter.Letter.{Letter as Written};

    ghost Value = { Written };

    ghost view = { λ e. e.mail };

    ghost invariant = { λ e. (e.journal ≡ e.mail.args)
        × (e.slot ≡ e.mail.args)
        × (e.task ≡ e.mail.args) };
}

// Returns the letter of a request under the number 0.
fn letter_of(sender: &Sender, action: ActionId, args: Args) -> Letter
    ensures { result ≡ record { sender = sender.now; number = 0; action = action; args = args } }
{
    Letter {
        sender: *sender,
        number: 0,
        action,
        args,
    }
}

// Returns the same letter, with another share of its arguments.
fn letter_with(letter: &Letter, args: Args) -> Letter
    ensures { result ≡ record letter.now { args = args } }
{
    Letter {
        sender: letter.sender,
        number: letter.number,
        action: letter.action,
        args,
    }
}

impl Envelope {
    /// Makes an envelope under the number 0 with four shares of the arguments. An error means out of
    /// memory.
    pub fn new(sender: Sender, action: ActionId, args: Args) -> Result<Envelope, AllocError>
        ensures { IfOk result (λ e. e ≡ record { sender = sender; number = 0; action = action; args = args }) }
    {
        let journal = args.share()?;
        let slot = args.share()?;
        let task = args.share()?;
        Ok(Envelope {
            mail: letter_of(&sender, action, args),
            journal,
            slot,
            task,
        })
    }

    /// Returns the letter.
    pub fn letter(&self) -> &Letter
        ensures { result.now ≡ self.now }
    {
        &self.mail
    }

    /// Whether the action is one of an object's class, and the arguments are its parameters' in order
    /// with their kinds. The cost is the counts of the class's actions and of the arguments.
    pub fn fits(&self, domain: &Domain, o: ObjId) -> bool
        ensures { result ≡ says.letter_fits domain.now o self.now }
    {
        let letter = self.letter();
        are_arguments(letter.args.values(), domain, o, letter.action)
    }

    /// Sets the number of the envelope.
    pub fn set_number(&mut self, number: u64)
        ensures { self.new ≡ record self.old { number = number } }
    {
        self.mail.number = number;
    }

    /// Returns the four letters: for mail, journal, slot and task.
    pub fn into_letters(self) -> Letters
        ensures { result ≡ record { mail = self; journal = self; slot = self; task = self } }
    {
        let Envelope {
            mail,
            journal,
            slot,
            task,
        } = self;
        Letters {
            journal: letter_with(&mail, journal),
            slot: letter_with(&mail, slot),
            task: letter_with(&mail, task),
            mail,
        }
    }
}
