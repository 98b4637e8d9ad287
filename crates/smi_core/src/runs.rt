//! A list of steps from the opening world.
ghost use Rattle.std.specs.Prelude.{◌≡◌, ◌↔◌, IfOk, Ok, Err};
ghost use Rattle.std.specs.Arc.{arc_value};
ghost use Rattle.smi_journal_entries.specs.declared.journal.Format.TheVariants.{Two};
ghost use Rattle.smi_meaning.specs.Legal.{IsLegal};
ghost use Rattle.smi_world.specs.World.{FrontOk};
ghost use Rattle.smi_world.specs.Runs.{Reaches};
ghost use Rattle.smi_core.specs.Machines.{AreLimits};

use crate::stepper::{Core, CoreError};
use smi_world::{Answer, Step, StepError, every_run};
use sml_domain::Domain;
use std::alloc::Global;
use std::sync::Arc;

/// Makes steps in order on a new core, and returns the core with their answers.
///
/// If a step is out of memory, that is one of the answers; the error is for the core or the list. For
/// the numbers see [`Core::new`], for the cost of a step [`Core::step`].
pub fn run(
    alloc: Global,
    domain: Arc<Domain>,
    capacity: usize,
    max_starts: usize,
    steps: &[Step],
) -> Result<(Core, Vec<Result<Answer, StepError>>), CoreError>
    ensures bad_config { (result ≡ Err CoreError.BadConfig) ↔ ¬ AreLimits capacity max_starts }
    ensures setup { IfOk result (λ made. made.0.setup ≡ record {
      domain = arc_value domain;
      capacity = capacity;
      max_starts = max_starts;
    }) }
    ensures run { IfOk result (λ made. Reaches made.0.setup steps.now made.1.items made.0.world) }
    ensures legal { IfOk result (λ made. IsLegal Two made.0.setup.domain made.0.world.journal) }
    ensures front { IfOk result (λ made. FrontOk made.0.world) }
{
    every_run();
    let _sound = domain.objects();
    let mut core = Core::new(alloc, domain, capacity, max_starts)?;
    let mut answers = Vec::new(alloc);
    for step in steps {
        let answer = core.step(step);
        let Ok(()) = answers.push(answer) else {
            return Err(CoreError::Memory);
        };
    }
    Ok((core, answers))
}
