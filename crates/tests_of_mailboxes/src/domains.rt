//! Texts of domains.

use test_domains::{
    ASKS_ITSELF, CHANGES, COUNTER, EMPTY_SET, FIRST, MARKED, MARKED_IN_ONE_LINE, PAIR, SUPPLIES,
};

/// Three objects of one class.
pub const THREE: &[u8] = b"class: T state: S action: GO
object: X is_of_class T object: Y is_of_class T object: Z is_of_class T";

/// Two supplies, what switches them on, and no spare one.
pub const SUPPLIES_WITHOUT_SPARE: &[u8] = b"class: SUPPLY /associated
  state: OFF /initial_state
    action: SWITCH_ON
  state: ON
    action: SWITCH_OFF
class: RUN_TYPE
  state: NOT_READY /initial_state
    action: CONFIGURE
      do SWITCH_ON all_in SPARE
      do SWITCH_ON all_in HV
      if ( all_in HV in_state ON ) then
        move_to READY
      endif
      move_to ERROR
  state: READY
  state: ERROR
object: HV1 is_of_class SUPPLY
object: HV2 is_of_class SUPPLY
object: RUN is_of_class RUN_TYPE
objectset: HV { HV1, HV2 }
objectset: SPARE { }
";

/// A boss lights its lamps, and waits for them and for nobody.
pub const WAITS: &[u8] = b"class: LAMP
  state: OFF
    action: LIGHT
      move_to ON
  state: ON
class: BOSS
  state: IDLE
    action: GO
      do LIGHT all_in G
      wait ( K, all_in G )
      wait ( all_in E )
      move_to DONE
  state: DONE
object: L is_of_class LAMP
object: K is_of_class LAMP
object: B is_of_class BOSS
objectset: G { L, K }
objectset: E { }
";

/// Texts, each with its name and its canonical text, which most of them are.
pub const TEXTS: [(&str, &[u8], &[u8]); 10] = [
    ("supplies", SUPPLIES, SUPPLIES),
    ("a counter", COUNTER, COUNTER),
    ("a first domain", FIRST, FIRST),
    ("a pair", PAIR, PAIR),
    ("an empty set", EMPTY_SET, EMPTY_SET),
    ("waits", WAITS, WAITS),
    ("sets that change", CHANGES, CHANGES),
    ("an object that asks itself", ASKS_ITSELF, ASKS_ITSELF),
    ("marks", MARKED, MARKED),
    ("marks in one line", MARKED_IN_ONE_LINE, MARKED),
];
