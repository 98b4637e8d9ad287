//! Memory that is refused: the task is as it was, and the same call then returns its contact. Boards likewise.
//!
//! `tools/refused-memory` runs this again and again, and each time another allocation is refused.

use crate::at_last::are_kept;
use crate::rows::Plain;
use crate::walk::{Step, Walk, is_walked_at_last};
use smi_journal::Verdict;
use std::test::*;

const SMALL: Walk = Walk {
    name: "a number is put, sent and read",
    text: b"class: SINK
  state: READY
    action: TAKE (int V)
class: K
  parameters: int N = 3
  state: IDLE
    action: PUT (int T)
      set N = T
      do TAKE (V = N) OUT
      if ( OUT in_state READY ) then move_to IDLE endif
object: OUT is_of_class SINK
object: X is_of_class K
",
    changes: &[],
    object: 1,
    params: &[Plain::Int(3)],
    state: 1,
    action: 1,
    given: &[Plain::Int(5)],
    steps: &[
        Step::Sets(0, Plain::Int(5)),
        Step::Sends(&[(0, 0, &[Plain::Int(5)])], &[Verdict::Accepted(0)]),
        Step::Reads(&[0], &[0]),
        Step::Ends(Some(1)),
    ],
    left: &[Plain::Int(5)],
};

#[test]
fn goes_on_after_a_refusal(rt: HostRuntime) {
    assert!(rt; is_walked_at_last(rt.alloc(), &SMALL), "{}", SMALL.name);
    assert!(rt; are_kept(rt.alloc()), "calls of a board");
}
