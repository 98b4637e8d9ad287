//! Names that lines share.
ghost use Rattle.std.specs.Prelude.{◌≡◌, IfOk};
ghost use Rattle.std.specs.Arc.{arc_value};
ghost use Rattle.smi_run_plan.specs.Plans.{deed_of};

use crate::lines::Deed;
use indexmap::IndexSet;
use smi_run::Line;
use sml_tree::Name;
use std::alloc::{AllocError, Global};
use std::sync::Arc;

// The names of a script so far, each of them once.
#[derive(Drop)]
pub(crate) struct Names {
    names: IndexSet<Arc<Name>>,
}

impl Names {
    // No name. Takes no memory.
    pub(crate) fn new(alloc: Global) -> Names {
        Names {
            names: IndexSet::new(alloc),
        }
    }

    // A name to share: the one that is there, where it is one of these, else a new one. Takes memory for a new one, and
    // while it looks.
    pub(crate) fn share(&mut self, alloc: Global, name: Name) -> Result<Arc<Name>, AllocError>
        ensures { IfOk result (λ a. arc_value a ≡ name) }
    {
        let (place, _is_new) = self.names.insert_full(Arc::new(alloc, name)?)?;
        let Some(shared) = self.names.get_index(place) else {
            unreachable!()
        };
        Arc::try_clone(shared)
    }

    // What a session does, with its names shared.
    pub(crate) fn line(&mut self, alloc: Global, deed: Deed) -> Result<Line, AllocError>
        ensures { IfOk result (λ line. deed_of line ≡ deed) }
    {
        match deed {
            Deed::Post {
                object,
                action,
                given,
            } => {
                let object = self.share(alloc, object)?;
                let action = self.share(alloc, action)?;
                Ok(Line::Post {
                    object,
                    action,
                    given,
                })
            }
            Deed::Kill(object) => {
                let object = self.share(alloc, object)?;
                Ok(Line::Kill { object })
            }
        }
    }
}
