//! What a `wait` waits for, with numbers for names.
ghost use Rattle.std.specs.Prelude.{◌≡◌, All, IfOk, map};
ghost use Rattle.sml_tree.specs.Content.{waited_content};
ghost use Rattle.sml_domain.specs.Trees as trees;
ghost use Rattle.sml_check_build.specs.Programs as says;
ghost use Rattle.sml_check_build.specs.Placed.{WaitedPlaced};

use crate::names::Names;
use sml_domain::Subject;
use sml_tree::Waited;
use std::alloc::{AllocError, Allocator, Global};

// Returns an object, or each member of a set.
fn asked(names: &Names, waited: &Waited) -> Subject
    requires { WaitedPlaced names.now (waited_content waited.now) }
    ensures { trees.asked result ≡ says.waited_asked names.now (waited_content waited.now) }
{
    if waited.all {
        Subject::Each(names.group(&waited.name))
    } else {
        Subject::One(names.object(&waited.name))
    }
}

/// Returns all that a `wait` waits for.
pub fn waits<A: Allocator + Clone>(
    alloc: Global,
    names: &Names,
    waited: &Vec<Waited, A>,
) -> Result<Vec<Subject>, AllocError>
    requires { All (WaitedPlaced names.now) (map waited_content waited.now.items) }
    ensures { IfOk result (λ v. map trees.asked v.items ≡ map (says.waited_asked names.now)
        (map waited_content waited.now.items)) }
{
    let mut rows = Vec::new(alloc);
    for one in waited {
        rows.push(asked(names, one))?;
    }
    Ok(rows)
}
