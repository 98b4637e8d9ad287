//! Whether a core rests, so that another may begin where it has led.
ghost use Rattle.std.specs.Prelude.{◌↔◌, ◌<◌, IsTrue, length};
ghost use Rattle.smi_outset_core.specs.Rests.{CoreIsDone, IsDoneAt};

use smi_core::Core;
use sml_domain::ObjId;

// Whether nothing is under way at an object.
fn is_done(core: &Core, o: ObjId) -> bool
    requires { o < length core.now.setup.domain.objects }
    ensures { IsTrue result ↔ IsDoneAt core.now.world o }
{
    core.opened(o).is_none() && (core.waits(o) == 0 || core.killed_at(o).is_some())
}

/// Whether nothing is under way in a core: no action is open, and no request waits but at an object that was killed, where
/// it is never started. The cost is the count of objects.
pub fn rests(core: &Core) -> bool
    ensures { IsTrue result ↔ CoreIsDone core.now.setup.domain core.now.world }
{
    for o in 0..core.domain().objects() {
        if !is_done(core, ObjId::new(o)) {
            return false;
        }
    }
    true
}
