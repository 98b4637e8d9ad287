//! The texts of domains that several crates of tests read. Each stands here once.
#![tactic(auto)]

/// One object, which does something and stays as it is.
pub const ALONE: &[u8] = b"class: T state: S action: GO object: X is_of_class T";

/// A lamp L, which is off until it is lit.
pub const LAMP: &[u8] =
    b"class: LAMP state: OFF action: LIGHT move_to ON state: ON object: L is_of_class LAMP";

/// A lamp, and the boss that lights it.
pub const FIRST: &[u8] = b"class: LAMP
  state: OFF
    action: LIGHT
      move_to ON
  state: ON
class: BOSS
  state: IDLE
    action: GO
      do LIGHT L
      move_to DONE
  state: DONE
object: L is_of_class LAMP
object: B is_of_class BOSS
";

/// Two supplies, which are equipment, and the run that switches both on.
pub const SUPPLIES: &[u8] = b"class: SUPPLY /associated
  state: OFF /initial_state
    action: SWITCH_ON
  state: ON
    action: SWITCH_OFF
class: RUN_TYPE
  state: NOT_READY /initial_state
    action: CONFIGURE
      do SWITCH_ON all_in HV
      if ( all_in HV in_state ON ) then
        move_to READY
      endif
      move_to ERROR
  state: READY
  state: ERROR
object: HV1 is_of_class SUPPLY
object: HV2 is_of_class SUPPLY
object: RUN is_of_class RUN_TYPE
objectset: HV { HV1, HV2 }
";

/// A control with a parameter, and the supply that it asks for a voltage, as in the help of `step`.
pub const CONTROL: &[u8] = b"class: SUPPLY /associated
  state: OFF
    action: SWITCH_ON (int VOLTS)
  state: ON
class: CONTROL
  parameters: int TRIES = 0
  state: NOT_READY
    action: CONFIGURE (int VOLTS = 1500)
      set TRIES = 1
      do SWITCH_ON (VOLTS = VOLTS) all_in SUPPLIES
      if ( all_in SUPPLIES in_state ON ) then
        move_to READY
      endif
      move_to ERROR
  state: READY
  state: ERROR
object: HV is_of_class SUPPLY
object: RUN is_of_class CONTROL
objectset: SUPPLIES { HV }
";

/// A counter C, which keeps a number and a string, and the sink OUT to which it sends them.
pub const COUNTER: &[u8] = b"class: SINK /associated
  state: READY
    action: TAKE (int V, string W = \"none\")
class: COUNTER
  parameters: int N = 3, string P = \"x\"
  state: IDLE
    action: PUT (int T = 5, string M)
      set N = T
      set P = M
      do TAKE (W = P, V = N) OUT
    action: SHOW
      do TAKE (V = N) OUT
object: OUT is_of_class SINK
object: C is_of_class COUNTER
";

/// Two objects, each of which asks whether the other is in its state.
pub const PAIR: &[u8] = b"class: LEFT
  state: S
    action: GO
      if ( B in_state S ) then
      endif
class: RIGHT
  state: S
    action: GO
      if ( A in_state S ) then
      endif
object: A is_of_class LEFT
object: B is_of_class RIGHT
";

/// An object that asks for its own state, which is a fault of its class.
pub const ASKS_ITSELF: &[u8] = b"class: K
  state: S
    action: GO
      if ( all_in G in_state S ) then
      endif
object: X is_of_class K
objectset: G { X }
";

/// An object that asks about a set without members.
pub const EMPTY_SET: &[u8] = b"class: T
  state: S
    action: GO
      if ( any_in E in_state S or not all_in E in_state S ) then
        move_to BAD
      endif
      move_to GOOD
  state: GOOD
  state: BAD
object: X is_of_class T
objectset: E { }
";

/// An object that sends to a set without members.
pub const NOBODY: &[u8] = b"class: T
  state: S
    action: GO
      do GO all_in E
object: X is_of_class T
objectset: E { }
";

/// A boss that sends to a lamp, and waits for it.
pub const WAITS: &[u8] = b"class: LAMP
  state: OFF
    action: LIGHT
      move_to ON
  state: ON
class: BOSS
  state: IDLE
    action: GO
      do LIGHT L
      wait ( L )
      move_to DONE
  state: DONE
object: L is_of_class LAMP
object: B is_of_class BOSS
";

/// A boss that puts a lamp into a set, takes it out, and sends to the set both times.
pub const CHANGES: &[u8] = b"class: LAMP
  state: OFF
    action: LIGHT
      move_to ON
  state: ON
class: BOSS
  state: IDLE
    action: GO
      insert L in G
      do LIGHT all_in G
      remove L from G
      do LIGHT all_in G
      if ( all_in G in_state ON ) then
        move_to DONE
      endif
  state: DONE
object: L is_of_class LAMP
object: B is_of_class BOSS
objectset: G { }
";

/// A boss that waits for the lamps of a set, and a fitter who takes the only lamp out of it.
pub const FITTED: &[u8] = b"class: LAMP
  state: OFF
    action: LIGHT
      move_to ON
  state: ON
class: BOSS
  state: IDLE
    action: GO
      wait ( all_in G )
      move_to DONE
  state: DONE
class: FITTER
  state: IDLE
    action: OUT
      remove L from G
object: L is_of_class LAMP
object: B is_of_class BOSS
object: F is_of_class FITTER
objectset: G { L }
";

/// The supplies with what switches them on, the counter with its sink, the pair, and a watch that switches off one
/// supply and asks about the other.
pub const PLANT: &[u8] = b"class: SUPPLY /associated
  state: OFF /initial_state
    action: SWITCH_ON
  state: ON
    action: SWITCH_OFF
class: RUN_TYPE
  state: NOT_READY /initial_state
    action: CONFIGURE
      do SWITCH_ON all_in HV
      if ( all_in HV in_state ON ) then
        move_to READY
      endif
      move_to ERROR
  state: READY
  state: ERROR
class: SINK /associated
  state: READY
    action: TAKE (int V, string W = \"none\")
class: COUNTER
  parameters: int N = 3, string P = \"x\"
  state: IDLE
    action: PUT (int T = 5, string M)
      set N = T
      set P = M
      do TAKE (W = P, V = N) OUT
    action: SHOW
      do TAKE (V = N) OUT
class: LEFT
  state: S
    action: GO
      if ( B in_state S ) then
      endif
class: RIGHT
  state: S
    action: GO
      if ( A in_state S ) then
      endif
class: WATCH
  state: IDLE
    action: LOOK
      do SWITCH_OFF HV2
      do SWITCH_OFF HV2
      do SWITCH_OFF HV2
      if ( HV1 in_state ON ) then
      endif
object: HV1 is_of_class SUPPLY
object: HV2 is_of_class SUPPLY
object: RUN is_of_class RUN_TYPE
object: OUT is_of_class SINK
object: C is_of_class COUNTER
object: A is_of_class LEFT
object: B is_of_class RIGHT
object: W is_of_class WATCH
objectset: HV { HV1, HV2 }
";

/// A state with both marks, and a condition, as they are printed.
pub const MARKED: &[u8] = b"class: RT
  state: A /initial_state /dead_state
    action: GO (int T = -7)
      if ( not X in_state ON or Y in_state OFF and Z not_in_state { ON, OFF } ) then
        set N = T
      endif
      move_to A
";

/// The same in one line, in small letters, with brackets, braces and an `else` that say nothing.
pub const MARKED_IN_ONE_LINE: &[u8] =
    b"class:rt state:a/dead_state/initial_state action:go(int t=-07)\
    if(not(x in_state{on})or y in_state off and z not_in_state{on,off})then set n=t else endif move_to A";
