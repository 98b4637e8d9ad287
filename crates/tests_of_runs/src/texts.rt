//! Texts of domains, and what is in them, by number.

/// A domain without objects.
pub const EMPTY: &[u8] = b"class: T state: S action: GO";

/// Eight supplies.
pub const EIGHT: &[u8] = b"class: SUPPLY /associated
  state: OFF /initial_state
    action: SWITCH_ON
  state: ON
    action: SWITCH_OFF
object: HV1 is_of_class SUPPLY
object: HV2 is_of_class SUPPLY
object: HV3 is_of_class SUPPLY
object: HV4 is_of_class SUPPLY
object: HV5 is_of_class SUPPLY
object: HV6 is_of_class SUPPLY
object: HV7 is_of_class SUPPLY
object: HV8 is_of_class SUPPLY
";

/// Two objects that send to one another for ever.
pub const RING: &[u8] = b"class: A_TYPE
  state: S
    action: GO
      do GO B
class: B_TYPE
  state: S
    action: GO
      do GO A
object: A is_of_class A_TYPE
object: B is_of_class B_TYPE
";

/// One object that sends to itself for ever, and another that sends to it.
pub const ITSELF: &[u8] = b"class: T
  state: S
    action: GO
      do GO X
object: X is_of_class T
object: Y is_of_class T
";

/// The first supply.
pub const FIRST: usize = 0;

/// The second supply.
pub const SECOND: usize = 1;

/// What switches both on.
pub const RUN: usize = 2;

/// The actions of the supplies.
pub const SWITCH_ON: usize = 0;

/// See `SWITCH_ON`.
pub const SWITCH_OFF: usize = 1;

/// The action of `RUN`.
pub const CONFIGURE: usize = 2;

/// The states of the supplies.
pub const OFF: usize = 0;

/// See `OFF`.
pub const ON: usize = 1;

/// The states of `RUN`.
pub const NOT_READY: usize = 2;

/// See `NOT_READY`.
pub const READY: usize = 3;

/// See `NOT_READY`.
pub const ERROR: usize = 4;

/// The state that is added to both, for objects that are killed.
pub const DEAD: usize = 5;
