//! Cores after schedules: for whom an open action waits.
ghost use Rattle.std.specs.Prelude.{◌<◌, length};

use smi_core::{Core, run_schedule};
use sml_domain::ObjId;
use sml_load::domain_of;
use std::alloc::Global;
use std::test::*;

// Two lamps, one that watches them and one that takes the second out of the set. The set has the second first.
const WATCHED: &[u8] = b"class: LAMP /associated
  state: OFF
    action: LIGHT
  state: ON
class: WATCH
  parameters: int N = 0, int M = 0
  state: IDLE
    action: LOOK
      set N = 1
      set M = 2
      if ( all_in LAMPS in_state ON or L1 in_state OFF ) then
        set N = 3
        wait ( L2 )
      endif
      do LIGHT L1
      wait ( L1 )
    action: OUT
      remove L2 from LAMPS
object: L1 is_of_class LAMP
object: L2 is_of_class LAMP
object: W is_of_class WATCH
object: F is_of_class WATCH
objectset: LAMPS { L2, L1 }
";

// The objects, by number.
const L1: usize = 0;

const L2: usize = 1;

const W: usize = 2;

// What comes before a row's own lines.
const BOTH_LIGHT: &[u8] =
    b"request @1 L1 LIGHT\nstart L1\nrequest @1 L2 LIGHT\nstart L2\nrequest @1 W LOOK\nstart W\n";

const LOOKS: &[u8] = b"request @1 W LOOK\nstart W\n";

// Two parts of a schedule, and for whom an object waits after them.
#[derive(Clone, Copy)]
struct Row {
    name: &'static str,
    first: &'static [u8],
    then: &'static [u8],
    object: usize,
    waits_for: &'static [usize],
}

const NOBODY: Row = Row {
    name: "nobody is in the way",
    first: LOOKS,
    then: b"",
    object: W,
    waits_for: &[],
};

const AHEAD_OF_SETS: Row = Row {
    name: "two sets come before the names, and one lamp is named twice",
    first: BOTH_LIGHT,
    waits_for: &[L2, L1],
    ..NOBODY
};

const AFTER_SETS: Row = Row {
    name: "the sets were made",
    first: BOTH_LIGHT,
    then: b"go W\ngo W\n",
    waits_for: &[L2, L1],
    ..NOBODY
};

const KEPT: Row = Row {
    name: "the action waits, and its task is kept",
    first: BOTH_LIGHT,
    then: b"go W\ngo W\ngo W\ngo W\n",
    waits_for: &[L2, L1],
    ..NOBODY
};

const ANSWERED: Row = Row {
    name: "one lamp has answered",
    first: BOTH_LIGHT,
    then: b"go W\ngo W\ngo W\nanswer L2 ON\n",
    waits_for: &[L1],
    ..NOBODY
};

const KILLED: Row = Row {
    name: "one lamp was killed",
    first: BOTH_LIGHT,
    then: b"go W\ngo W\ngo W\nkill L1 @1\n",
    waits_for: &[L2],
    ..NOBODY
};

const OUT_OF_THE_SET: Row = Row {
    name: "one lamp was taken out of the set",
    first: BOTH_LIGHT,
    then: b"go W\ngo W\ngo W\nrequest @1 F OUT\nstart F\ngo F\n",
    waits_for: &[L1],
    ..NOBODY
};

const IN_A_BRANCH: Row = Row {
    name: "a set comes before the names of a branch",
    then: b"go W\ngo W\ngo W\nrequest @1 L2 LIGHT\nstart L2\n",
    waits_for: &[L2],
    ..NOBODY
};

const LEAVES_A_BRANCH: Row = Row {
    name: "after the branch something is sent first",
    then: b"go W\ngo W\ngo W\ngo W\ngo W\nrequest @1 L1 LIGHT\nstart L1\n",
    ..NOBODY
};

const HAS_SENT: Row = Row {
    name: "what was sent has not started",
    then: b"go W\ngo W\ngo W\ngo W\ngo W\ngo W\n",
    waits_for: &[L1],
    ..NOBODY
};

const DEAD: Row = Row {
    name: "who waits was killed",
    first: BOTH_LIGHT,
    then: b"kill W @1\n",
    ..NOBODY
};

const DEVICE: Row = Row {
    name: "a device performs",
    first: BOTH_LIGHT,
    object: L1,
    ..NOBODY
};

const CLOSED: Row = Row {
    name: "nothing is open",
    first: b"request @1 W LOOK\n",
    ..NOBODY
};

const ROWS: &[Row] = &[
    NOBODY,
    AHEAD_OF_SETS,
    AFTER_SETS,
    KEPT,
    ANSWERED,
    KILLED,
    OUT_OF_THE_SET,
    IN_A_BRANCH,
    LEAVES_A_BRANCH,
    HAS_SENT,
    DEAD,
    DEVICE,
    CLOSED,
];

// Whether a core tells of an object for whom it waits.
fn tells(core: &Core, o: ObjId, objects: &[usize]) -> bool
    requires { o < length core.now.setup.domain.objects }
{
    let Ok(told) = core.waits_for(o) else {
        return false;
    };
    told.len() == objects.len() && told.iter().zip(objects).all(|(a, b)| a.get() == *b)
}

// The same after the row's schedule. None if memory is refused.
fn tells_after(alloc: Global, core: &mut Core, row: Row) -> Option<bool> {
    let mut schedule = Vec::from_slice(alloc, row.first).ok()?;
    schedule.extend_from_slice(row.then).ok()?;
    let mut reader = schedule.as_slice();
    let mut output = Vec::new(alloc);
    run_schedule(alloc, core, &mut reader, &mut output).ok()?;
    let o = ObjId::new(row.object);
    Some(core.domain().has(o) && tells(core, o, row.waits_for))
}

fn is_so(alloc: Global, row: Row) -> Option<bool> {
    let domain = domain_of(alloc, WATCHED).ok()?;
    let mut core = Core::new(alloc, domain, 16, 100).ok()?;
    let told = tells_after(alloc, &mut core, row);
    drop(core);
    told
}

#[test]
fn for_whom_an_open_action_waits(rt: HostRuntime) {
    for row in ROWS {
        assert!(rt; is_so(rt.alloc(), *row) == Some(true), "{}", row.name);
    }
}
