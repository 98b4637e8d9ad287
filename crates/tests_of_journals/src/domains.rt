//! The domains of tasks and boards.

/// The numbers in `SUPPLIES` of `test_domains`: of its supplies and their set, its action, and its states.
pub const HV1: usize = 0;

pub const HV2: usize = 1;

pub const HV: usize = 0;

pub const SWITCH_ON: usize = 0;

pub const OFF: usize = 0;

pub const ON: usize = 1;

pub const READY: usize = 3;

pub const ERROR: usize = 4;

/// Three `if`s within each other, with sets before, between and behind them.
pub const NESTED: &[u8] = b"class: LAMP /associated
  state: OFF /initial_state
    action: LIGHT
  state: ON
class: DEEP
  parameters: int N = 0, int M = 0
  state: S
    action: GO (int K = 7)
      set N = K
      if ( A in_state ON ) then
        set N = 2
        if ( B in_state ON or A in_state OFF and B in_state OFF ) then
          set M = N
          if ( not C in_state ON ) then
            set N = 3
          else
            set N = K
          endif
          set M = N
        else
          terminate_action /state=T
        endif
        set N = 6
      endif
      set M = N
  state: T
object: A is_of_class LAMP
object: B is_of_class LAMP
object: C is_of_class LAMP
object: D is_of_class DEEP
";

/// Requests to two classes whose lists of parameters differ, and to nobody.
pub const LISTS: &[u8] = b"class: LEFT /associated
  state: S
    action: TAKE (int V = 1, string W = \"w\")
class: RIGHT /associated
  state: S
    action: TAKE (string W, int V = 2)
class: SENDER
  parameters: int N = 9
  state: S
    action: GO
      do TAKE (W = \"x\") all_in BOTH
      set N = 8
      do TAKE (W = \"y\", V = N) all_in BOTH
      do TAKE (W = \"z\") all_in NONE
      do LEAVE all_in NONE
object: L is_of_class LEFT
object: R is_of_class RIGHT
object: X is_of_class SENDER
objectset: BOTH { R, L }
objectset: NONE { }
";

/// Requests to the members of two sets, the first of which is empty, and a condition over it.
pub const NOBODY: &[u8] = b"class: LAMP
  state: OFF
    action: LIGHT
      move_to ON
  state: ON
class: BOSS
  state: IDLE
    action: GO
      do LIGHT all_in E
      do LIGHT all_in G
      do LIGHT all_in E
      if ( all_in E in_state ON ) then
        move_to DONE
      endif
  state: DONE
object: L is_of_class LAMP
object: B is_of_class BOSS
objectset: E { }
objectset: G { L }
";

/// A switch without a device, and a lamp with one.
pub const SWITCH: &[u8] = b"class: SWITCH
  state: OFF /initial_state
    action: TURN_ON
      move_to ON
  state: ON
    action: TURN_OFF
      move_to OFF
class: LAMP /associated
  state: DARK
    action: LIGHT
  state: LIT
object: X is_of_class SWITCH
object: L is_of_class LAMP
";

/// Two objects that wait for each other.
pub const PAIR: &[u8] = b"class: LEFT
  state: S
    action: GO
      if ( B in_state S ) then
        move_to S
      endif
class: RIGHT
  state: S
    action: GO
      if ( A in_state S ) then
        move_to S
      endif
object: A is_of_class LEFT
object: B is_of_class RIGHT
";

/// An object that asks for the same lamp twice.
pub const TWICE: &[u8] = b"class: LAMP /associated
  state: OFF /initial_state
    action: LIGHT
  state: ON
class: ASKER
  state: S
    action: GO
      do LIGHT L
      if ( L in_state ON ) then
        do LIGHT L
      endif
      if ( L in_state ON ) then
        move_to T
      endif
  state: T
object: L is_of_class LAMP
object: X is_of_class ASKER
";

/// An object that sends to itself.
pub const ECHO: &[u8] = b"class: ECHO
  state: S
    action: GO
      do GO X
      do GO X
object: X is_of_class ECHO
";

/// Ten lamps, and an object that lights them all.
pub const MANY: &[u8] = b"class: LAMP /associated
  state: OFF /initial_state
    action: LIGHT
  state: ON
class: LIGHTER
  state: S
    action: GO
      do LIGHT all_in ALL
object: L0 is_of_class LAMP
object: L1 is_of_class LAMP
object: L2 is_of_class LAMP
object: L3 is_of_class LAMP
object: L4 is_of_class LAMP
object: L5 is_of_class LAMP
object: L6 is_of_class LAMP
object: L7 is_of_class LAMP
object: L8 is_of_class LAMP
object: L9 is_of_class LAMP
object: X is_of_class LIGHTER
objectset: ALL { L0, L1, L2, L3, L4, L5, L6, L7, L8, L9 }
";

/// A valve whose first state is its dead one, and what turns it.
pub const VALVE: &[u8] = b"class: VALVE /associated
  state: SHUT /initial_state /dead_state
    action: TURN
  state: WIDE
class: HAND
  state: S
    action: GO
      do TURN V
      if ( V in_state SHUT ) then
        move_to T
      endif
  state: T
object: V is_of_class VALVE
object: H is_of_class HAND
";
