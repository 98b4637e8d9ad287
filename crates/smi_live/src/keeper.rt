//! A core, and what is kept of what it did.
ghost use Rattle.std.specs.Prelude.{◌≡◌, ◌<◌, [], IfOk, OnErr, OnOk, false, length, true};
ghost use Rattle.smi_world.specs.Runs.{IsReached};
ghost use Rattle.smi_world.specs.Steps.{StepsTo};
ghost use Rattle.smi_world.specs.World.{opening};
ghost use Rattle.smi_live_once.specs.Carrying.{past_text};
ghost use Rattle.smi_live_once.specs.Tables.{with_last_told};
ghost use Rattle.smi_live_accounts.specs.Accounts.{AccountsTell};
ghost use Rattle.smi_live_accounts.specs.Requested.{RequestedAs};
ghost use Rattle.smi_live.specs.Limiting.{HasNoStartLeft, HasStartsLeft};
ghost use Rattle.smi_live.specs.Managing.{IsAtObject};

use smi_core::{Answer, Core, Step, StepError};
use smi_live_accounts::{Accounts, Recalled, Requested, laws_of_accounts};
use smi_live_once::{Mark, OnceTable};
use sml_domain::ObjId;
use std::alloc::{AllocError, Global};
use std::marker::Model;

/// A core that began in its opening world, and what is kept of each step that it made since.
#[derive(Drop)]
pub(crate) struct Keeper {
    core: Core,
    accounts: Accounts,
    // How many actions may be started at most.
    max_starts: usize,
}

impl Model for Keeper {
    ghost use Rattle.std.specs.Coded.{codes};
    ghost use Rattle.std.specs.Prelude.{◌≡◌};
    ghost use Rattle.sml_domain.specs.Codes.{formula_code};
    ghost use Rattle.smi_world.specs.Runs.{IsReached};
    ghost use Rattle.smi_core.specs.Machines.{CoreView};
    ghost use Rattle.smi_live_once.specs.Making.{Keeper as View};
    ghost use Rattle.smi_live_accounts.specs.Accounts.{AccountsTell};

    ghost Value = { View CoreView };

    ghost coded = { Prim.hlevel (codes, formula_code) };

    ghost view = { λ k. record { core = k.core; told = k.accounts.told } };

    ghost invariant = { λ k. IsReached k.core.setup k.core.world
        × AccountsTell k.core.setup.domain k.core.world.journal k.accounts
        × (k.max_starts ≡ k.core.setup.max_starts) };
}

// Makes the start or the go of an object, whose number is known.
fn step_at(core: &mut Core, o: usize, step: &Step) -> Result<Answer, StepError>
    requires within { o < length core.old.setup.domain.objects }
    requires at { IsAtObject core.old.setup.domain o step.now }
    ensures steps { StepsTo core.old.setup core.old.world step.now result core.new.world }
    ensures setup { core.new.setup ≡ core.old.setup }
{
    match step {
        Step::Start(_) => core.start_at(ObjId::new(o)),
        Step::Go(_) => core.go_at(ObjId::new(o)),
        _ => core.step(step),
    }
}

impl Keeper {
    /// That of a core in its opening world, of which nothing was asked, and which starts this many actions at most. The
    /// error is out of memory.
    pub(crate) fn new(alloc: Global, core: Core, max_starts: usize) -> Result<Keeper, AllocError>
        requires opening { core.world ≡ opening core.setup }
        requires starts { max_starts ≡ core.setup.max_starts }
        ensures { IfOk result (λ k. k ≡ record { core = core; told = [] }) }
    {
        // (that the domain is sound, so that its opening world is reached)
        let _sound = core.domain().objects();
        let accounts = Accounts::new(alloc, core.domain())?;
        Ok(Keeper {
            core,
            accounts,
            max_starts,
        })
    }

    /// The core.
    pub(crate) fn core(&self) -> &Core
        ensures { result.now ≡ self.now.core }
    {
        &self.core
    }

    /// What is kept of what it did.
    pub(crate) fn accounts(&self) -> &Accounts
        ensures told { result.now.told ≡ self.now.told }
        ensures tells { AccountsTell self.now.core.setup.domain self.now.core.world.journal result.now }
    {
        &self.accounts
    }

    /// What was told last to each of those who ask for requests that are made once.
    pub(crate) fn told(&self) -> &OnceTable
        ensures { result.now.told ≡ self.now.told }
    {
        self.accounts.told()
    }

    /// Whether an action may still be started.
    pub(crate) fn has_starts(&self) -> bool
        ensures yes { result ≡ true → HasStartsLeft self.now.core }
        ensures no { result ≡ false → HasNoStartLeft self.now.core }
    {
        self.accounts.starts() < self.max_starts
    }

    /// A law, whose function does nothing: the world is reached by steps.
    pub(crate) fn reached(&self)
        ensures { IsReached self.now.core.setup self.now.core.world }
    {
        let _core = &self.core;
    }

    /// Makes a step, as the core does.
    pub(crate) fn step(&mut self, step: &Step) -> Result<Answer, StepError>
        ensures steps { StepsTo self.old.core.setup self.old.core.world step.now result self.new.core.world }
        ensures setup { self.new.core.setup ≡ self.old.core.setup }
        ensures told { self.new.told ≡ self.old.told }
    {
        laws_of_accounts();
        let first = self.core.journal().len();
        let answer = self.core.step(step);
        self.accounts.note(&self.core, first);
        answer
    }

    /// Makes the start or the go of an object, whose number is known.
    pub(crate) fn step_at(&mut self, o: usize, step: &Step) -> Result<Answer, StepError>
        requires within { o < length self.old.core.setup.domain.objects }
        requires at { IsAtObject self.old.core.setup.domain o step.now }
        ensures steps { StepsTo self.old.core.setup self.old.core.world step.now result self.new.core.world }
        ensures setup { self.new.core.setup ≡ self.old.core.setup }
        ensures told { self.new.told ≡ self.old.told }
    {
        laws_of_accounts();
        let first = self.core.journal().len();
        let answer = step_at(&mut self.core, o, step);
        self.accounts.note(&self.core, first);
        answer
    }

    /// Keeps that this was told last to the name of a mark, and which request that was. The error is out of memory;
    /// then what was told stays.
    pub(crate) fn put(
        &mut self,
        alloc: Global,
        mark: &Mark<'_>,
        answer: &[u8],
        requested: Requested,
    ) -> Result<(), AllocError>
        requires { RequestedAs self.old.core.setup.domain self.old.core.world.journal requested answer.now }
        ensures core { self.new.core ≡ self.old.core }
        ensures told { OnOk result (self.new.told ≡ with_last_told self.old.told
            (record { name = mark.now.name.now; number = mark.now.number; answer = answer.now })) }
        ensures same { OnErr result (self.new.told ≡ self.old.told) }
    {
        let watched = self.accounts.watched_of(requested);
        self.accounts
            .put(alloc, mark.name, mark.number, answer, watched)
    }

    /// Keeps what a log before had of a name. The error is out of memory; then what was told stays.
    pub(crate) fn recall(
        &mut self,
        alloc: Global,
        recalled: &Recalled<'_>,
    ) -> Result<(), AllocError>
        ensures core { self.new.core ≡ self.old.core }
        ensures told { OnOk result (self.new.told ≡ with_last_told self.old.told (record {
          name = recalled.now.name.now;
          number = recalled.now.number;
          answer = past_text recalled.now.what.now;
        })) }
        ensures same { OnErr result (self.new.told ≡ self.old.told) }
    {
        self.accounts.recall(alloc, recalled)
    }
}
