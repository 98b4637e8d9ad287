//! The domain of the scripts, and a script over it.

/// Two supplies, and between them an object that commands both.
pub const RUN_BETWEEN_SUPPLIES: &[u8] = b"
class: SUPPLY /associated
  state: OFF /initial_state
    action: SWITCH_ON
  state: ON
    action: SWITCH_OFF
class: RUN_TYPE
  state: NOT_READY /initial_state
    action: CONFIGURE
      do SWITCH_ON HV1
      do SWITCH_ON HV2
      move_to READY
  state: READY
object: HV1 is_of_class SUPPLY
object: RUN is_of_class RUN_TYPE
object: HV2 is_of_class SUPPLY
";

/// The script that switches both supplies on.
pub const ON: &[u8] = b"device HV1 SWITCH_ON ON
device HV2 SWITCH_ON ON
request @1 RUN CONFIGURE
";
