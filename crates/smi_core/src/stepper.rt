//! The core: a domain under way, one step after another.
ghost use Rattle.std.specs.Prelude.{◌≡◌, ◌++◌, ◌↔◌, ◌<◌, ◌≤◌, ℕ, Err, IfOk, List, Some, length, option_map, true};
ghost use Rattle.std.specs.Arc.{arc_value};
ghost use Rattle.smi_journal_entries.specs.Sets.{members_after};
ghost use Rattle.smi_journal_entries.specs.Words as says;
ghost use Rattle.smi_journal_entries.specs.declared.journal.Format.TheVariants.{Two};
ghost use Rattle.smi_journal_entries.specs.declared.entry.Entry.{Entry};
ghost use Rattle.smi_meaning.specs.Legal.{IsLegal, IsLegalFrom};
ghost use Rattle.smi_meaning.specs.Params.{ParamsAfter};
ghost use Rattle.sml_domain.specs.Lookups.{object_named};
ghost use Rattle.smi_world.specs.declared.step.Step.TheVariants as step;
ghost use Rattle.smi_world.specs.Steps.{StepsTo};
ghost use Rattle.smi_world.specs.World.{FrontOk, opening, waiting};
ghost use Rattle.smi_core.specs.Awaiting.{WaitsForAt};
ghost use Rattle.smi_core.specs.Machines.{AreLimits};
ghost use Rattle.smi_core.specs.Stepping.{IsCalled, RestsAt};

use crate::machine::Machine;
use smi_board::{Board, no_tasks};
use smi_journal_entries::{Entry, Letter};
pub use smi_mail_plain::MAX_CAPACITY;
use smi_mail_plain::PlainMail;
use smi_world::{Answer, Step, StepError};
use sml_domain::{Domain, ObjId, SetId, StateId, Value, laws_of_domains};
use std::alloc::{AllocError, Global};
use std::marker::Model;
use std::sync::Arc;

/// The most actions that a run may start. (A core is asked for 1 or more.)
pub const MAX_STARTS: usize = 1_000_000;

/// Why there is no core.
#[derive(Clone, Copy, Debug, Eq, PartialEq)]
pub enum CoreError {
    /// The capacity is not from 1 to `MAX_CAPACITY`, or the limit of starts not from 1 to `MAX_STARTS`.
    BadConfig,
    /// Out of memory.
    Memory,
}

/// A domain under way: its journal, what was accepted at each object, and the open actions.
///
/// What a step may be, what it is refused for, and what it is answered is in docs/FORMATS.md
/// ("Schedules"). Each answer and each world is one that the definitions of `smi_world` allow.
#[derive(Drop)]
pub struct Core {
    machine: Machine,
}

impl Model for Core {
    ghost use Rattle.std.specs.Coded.{codes};
    ghost use Rattle.sml_domain.specs.Codes.{formula_code};
    ghost use Rattle.smi_core.specs.Machines.{CoreView, setup_of, world_of};
    ghost use Rattle.smi_core.specs.Told.{HaveTheirs};

    ghost Value = { CoreView };

    ghost coded = { Prim.hlevel (codes, formula_code) };

    ghost view = { λ c. record {
      setup = setup_of c.machine.board;
      world = world_of c.machine.board c.machine.tasks.items;
    } };

    ghost invariant = { λ c. HaveTheirs c.machine.board c.machine.tasks.items };
}

impl Core {
    /// Returns a core in the opening world of a domain. In each mailbox `capacity` requests may wait, and it starts at
    /// most `max_starts` requests. The cost is the square of the count of objects.
    ///
    /// ```
    /// let mut core = Core::new(alloc, domain, 16, 1_000_000)?;
    /// ```
    pub fn new(
        alloc: Global,
        domain: Arc<Domain>,
        capacity: usize,
        max_starts: usize,
    ) -> Result<Core, CoreError>
        ensures bad_config { (result ≡ Err CoreError.BadConfig) ↔ ¬ AreLimits capacity max_starts }
        ensures setup { IfOk result (λ core. core.setup ≡ record {
          domain = arc_value domain;
          capacity = capacity;
          max_starts = max_starts;
        }) }
        ensures opening { IfOk result (λ core. core.world ≡ opening core.setup) }
    {
        if capacity < 1 || capacity > MAX_CAPACITY || max_starts < 1 || max_starts > MAX_STARTS {
            return Err(CoreError::BadConfig);
        }
        let Ok(shared) = Arc::try_clone(&domain) else {
            return Err(CoreError::Memory);
        };
        let Ok(mail) = PlainMail::new(alloc, shared, capacity) else {
            return Err(CoreError::Memory);
        };
        let Ok(board) = Board::new(alloc, domain, mail, max_starts) else {
            return Err(CoreError::Memory);
        };
        let Ok(tasks) = no_tasks(alloc, board.domain().objects()) else {
            return Err(CoreError::Memory);
        };
        Ok(Core {
            machine: Machine {
                board,
                tasks,
                alloc,
            },
        })
    }

    /// Makes a step, or refuses it; a refused one changes nothing. What it adds to the journal is behind the
    /// entries before, and each entry of it may follow those before it. The cost of each kind of step is in
    /// docs/FORMATS.md ("Schedules").
    ///
    /// `tests_of_files` has this example as `first_calls::steps_and_runs`; L is an object that nobody asked yet:
    ///
    /// ```
    /// let Ok(Some(step)) = read_step(alloc, b"start L") else { .. };
    /// core.step(&step)        // Err(StepError::Empty)
    /// ```
    pub fn step(&mut self, step: &Step) -> Result<Answer, StepError>
        ensures step { StepsTo self.old.setup self.old.world step.now result self.new.world }
        ensures setup { self.new.setup ≡ self.old.setup }
        ensures legal { IsLegal Two self.new.setup.domain self.new.world.journal }
        ensures each { (added : List Entry) × (self.new.world.journal ≡ self.old.world.journal ++ added)
            × IsLegalFrom Two self.new.setup.domain self.old.world.journal added }
        ensures fronts { FrontOk self.new.world }
    {
        let answer = self.made(step);
        self.machine.told();
        answer
    }

    // Makes a step, or refuses it.
    fn made(&mut self, step: &Step) -> Result<Answer, StepError>
        ensures step { StepsTo self.old.setup self.old.world step.now result self.new.world }
        ensures setup { self.new.setup ≡ self.old.setup }
    {
        match step {
            Step::Request {
                sender,
                object,
                action,
                args,
            } => { self.machine.request(*sender, object, action, args.list()) }
            Step::Start(object) => self.machine.start(object),
            Step::Go(object) => self.machine.go(object),
            Step::Answer { object, state } => self.machine.answer(object, state),
            Step::Fault(object) => self.machine.fault(object),
            Step::Kill { object, session } => self.machine.kill(object, *session),
        }
    }

    // A law, whose function does nothing: each object is called by some name.
    fn called(&self, o: ObjId)
        requires { o < length self.now.setup.domain.objects }
        ensures { IsCalled self.now.setup.domain o }
    {
        laws_of_domains();
        let _sound = self.domain().objects();
    }

    /// Makes the start of the object of a number, as `step` does by its name. The cost is that of the start, without a
    /// look-up of the name.
    pub fn start_at(&mut self, o: ObjId) -> Result<Answer, StepError>
        requires { o < length self.old.setup.domain.objects }
        ensures step { (x : List ℕ) → object_named self.old.setup.domain x ≡ Some o
            → StepsTo self.old.setup self.old.world (step.Start x) result self.new.world }
        ensures setup { self.new.setup ≡ self.old.setup }
    {
        self.called(o);
        self.machine.start_at(o)
    }

    /// Makes the go of the object of a number, as `step` does by its name. The cost is that of the move, without a
    /// look-up of the name.
    pub fn go_at(&mut self, o: ObjId) -> Result<Answer, StepError>
        requires { o < length self.old.setup.domain.objects }
        ensures step { (x : List ℕ) → object_named self.old.setup.domain x ≡ Some o
            → StepsTo self.old.setup self.old.world (step.Go x) result self.new.world }
        ensures setup { self.new.setup ≡ self.old.setup }
    {
        self.called(o);
        self.machine.go_of(o)
    }

    /// How many requests wait at an object: those that were accepted and not started. The cost is constant.
    pub fn waits(&self, o: ObjId) -> usize
        requires { o < length self.now.setup.domain.objects }
        ensures { result ≡ waiting o self.now.world }
    {
        self.machine.told();
        self.machine.board.waits(o)
    }

    /// The place of an object's kill in the journal, or None if it lives. The cost is constant.
    pub fn killed_at(&self, o: ObjId) -> Option<u64>
        requires { o < length self.now.setup.domain.objects }
        ensures { result ≡ says.killed_at o self.now.world.journal }
    {
        self.machine.board.dead_at(o)
    }

    /// The objects for which the open action of an object waits, each once, in the order of the names of its next `if`
    /// or `wait`: those that are not clear. None where a device performs it, where no action is open, or where something
    /// other than a `set` comes first. No journal is walked.
    ///
    /// The cost is the count of the `if`s under way and of these `set`s, and that of the objects that the names stand
    /// for, by that of the objects. The error is out of memory.
    pub fn waits_for(&self, o: ObjId) -> Result<Vec<ObjId>, AllocError>
        requires { o < length self.now.setup.domain.objects }
        ensures { IfOk result (λ objects. WaitsForAt self.now.setup self.now.world o objects.items) }
    {
        self.machine.waits_for(o)
    }

    /// Whether it is known that neither the start nor the go of an object would change anything now. It makes nothing
    /// and tries nothing, so an answer of no says only that both are to be tried. The cost is constant.
    pub fn rests_at(&self, o: ObjId) -> bool
        requires { o < length self.now.setup.domain.objects }
        ensures { result ≡ true → (x : List ℕ) → object_named self.now.setup.domain x ≡ Some o
            → RestsAt self.now.setup self.now.world x }
    {
        self.machine.rests_at(o)
    }

    /// The state of an object. The cost is constant.
    pub fn state(&self, o: ObjId) -> StateId
        requires { o < length self.now.setup.domain.objects }
        ensures { result ≡ says.state_of self.now.setup.domain o self.now.world.journal }
    {
        self.machine.board.state(o)
    }

    /// The letter whose action is open at an object, or None if no action is open. The cost is constant.
    pub fn opened(&self, o: ObjId) -> Option<&Letter>
        requires { o < length self.now.setup.domain.objects }
        ensures { option_map (λ l. l.now) result ≡ says.open_at o self.now.world.journal }
    {
        self.machine.board.opened(o)
    }

    /// The members of a set, in order: the declared ones, as the inserts and removes of the journal changed them, one
    /// after another. The cost is constant.
    pub fn members(&self, set: SetId) -> &[ObjId]
        ensures { result.now ≡ members_after self.now.setup.domain set self.now.world.journal }
    {
        self.machine.board.members(set)
    }

    /// The parameters of an object, in the order of its class's list. The cost is constant.
    pub fn params(&self, o: ObjId) -> &[Value]
        requires { o < length self.now.setup.domain.objects }
        ensures { ParamsAfter Two self.now.setup.domain o self.now.world.journal result.now }
    {
        self.machine.board.params(o)
    }

    /// The journal. The cost is constant.
    pub fn journal(&self) -> &[Entry]
        ensures is { result.now ≡ self.now.world.journal }
        ensures legal { IsLegal Two self.now.setup.domain result.now }
    {
        self.machine.board.journal()
    }

    /// The domain.
    pub fn domain(&self) -> &Domain
        ensures { result.now ≡ self.now.setup.domain }
    {
        self.machine.board.domain()
    }
}
