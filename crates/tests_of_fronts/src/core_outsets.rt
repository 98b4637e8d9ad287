//! How all stands in a core after a schedule, as an outset's text, and whether it rests.

use smi_core::{Core, run_schedule};
use smi_outset_core::{outset_of, rests};
use smi_outset_text::add_outset;
use sml_load::domain_of;
use std::alloc::Global;

// One with a parameter, which changes its set, and two devices.
const TEXT: &[u8] = b"class: K
  parameters: int N = 5
  state: OFF
    action: PUT (int T = 1)
      set N = T
      remove L2 from G
      do GO L1
      move_to ON
  state: ON
class: L /associated
  state: IDLE
    action: GO
  state: BUSY
object: A is_of_class K
object: L1 is_of_class L
object: L2 is_of_class L
objectset: G { L1, L2 }
";

// A schedule, how all stands after it, and whether it rests there.
type Row = (&'static str, &'static [u8], bool);

const BEGUN: &[u8] =
    b"! state A OFF\n! state L1 IDLE\n! state L2 IDLE\n! param A N=5\n! member G L1 L2\n";

const BUSY: &[u8] =
    b"! state A OFF\n! state L1 BUSY\n! state L2 IDLE\n! param A N=5\n! member G L1 L2\n";

const GONE: &[u8] =
    b"! state A OFF\n! state L1 IDLE\n! state L2 DEAD\n! param A N=5\n! member G L1 L2\n";

const PUT: &[u8] =
    b"! state A ON\n! state L1 IDLE\n! state L2 IDLE\n! param A N=-7\n! member G L1\n";

const ALL: &[u8] =
    b"! state A ON\n! state L1 BUSY\n! state L2 DEAD\n! param A N=-7\n! member G L1\n";

const ROWS: &[Row] = &[
    ("", BEGUN, true),
    ("request @1 A PUT(T=-7)\n", BEGUN, false),
    ("request @1 L1 GO\nstart L1\n", BEGUN, false),
    ("request @1 L1 GO\nstart L1\nanswer L1 IDLE\n", BEGUN, true),
    (
        "request @1 L1 GO\nstart L1\nanswer L1 BUSY\nrequest @1 L1 GO\nstart L1\n",
        BUSY,
        true,
    ),
    (
        "request @1 L1 GO\nstart L1\nanswer L1 BUSY\nrequest @1 L1 GO\n",
        BUSY,
        false,
    ),
    ("request @1 L2 GO\nstart L2\nfault L2\n", GONE, true),
    (
        "request @1 L2 GO\nrequest @1 L2 GO\nstart L2\nkill L2 @1\n",
        GONE,
        true,
    ),
    ("kill L2 @1\nrequest @1 A PUT(T=-7)\nstart A\n", GONE, false),
    (
        "request @1 A PUT(T=-7)\nstart A\ngo A\ngo A\ngo A\ngo A\n",
        PUT,
        false,
    ),
    (
        "request @1 A PUT(T=-7)\nstart A\ngo A\ngo A\ngo A\ngo A\nstart L1\nanswer L1 BUSY\nkill L2 @1\n",
        ALL,
        true,
    ),
];

// Whether a core stands so, and rests exactly if it is said.
fn stands_so(alloc: Global, core: &Core, text: &[u8], is_at_rest: bool) -> Option<bool> {
    let outset = outset_of(alloc, core).ok()?;
    let mut told = Vec::new(alloc);
    add_outset(&mut told, core.domain(), &outset).ok()?;
    Some(told.as_slice() == text && rests(core) == is_at_rest)
}

// The same after the row's schedule. None if memory is refused.
fn stands_after(alloc: Global, core: &mut Core, row: Row) -> Option<bool> {
    let mut reader = row.0.as_bytes();
    let mut output = Vec::new(alloc);
    run_schedule(alloc, core, &mut reader, &mut output).ok()?;
    stands_so(alloc, core, row.1, row.2)
}

fn is_so(alloc: Global, row: Row) -> Option<bool> {
    let domain = domain_of(alloc, TEXT).ok()?;
    let mut core = Core::new(alloc, domain, 16, 100).ok()?;
    let so = stands_after(alloc, &mut core, row);
    drop(core);
    so
}

#[test]
fn cores_that_rest_and_how_all_stands(rt: HostRuntime) {
    for row in ROWS {
        assert!(rt; is_so(rt.alloc(), *row) == Some(true), "{}", row.0);
    }
}
