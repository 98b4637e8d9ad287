//! Domains, and schedules that are told step by step: the lines that a step writes are behind four blanks.

/// Requests to the members of two sets, the first of which is empty, and a condition over it.
pub const TWO_SETS: &[u8] = b"\
class: LAMP
  state: OFF
    action: LIGHT
      move_to ON
  state: ON
class: BOSS
  state: IDLE
    action: GO
      do LIGHT all_in E
      do LIGHT all_in G
      if ( all_in E in_state ON ) then
        move_to DONE
      endif
  state: DONE
object: L is_of_class LAMP
object: B is_of_class BOSS
objectset: E { }
objectset: G { L }
";

/// A boss sends to nobody, and then to a lamp.
pub const SENT_TO_NOBODY: &str = "\
request @1 B GO
    accept @1 B 0 GO
start B
    start B @1 0 GO
go B
    empty B E
go B
    post B L 0 LIGHT
go B
    seen B
go B
    end B DONE
";

/// The run is configured, and waits for both of its supplies.
pub const CONFIGURE_READY: &str = "\
request @1 RUN CONFIGURE
    accept @1 RUN 0 CONFIGURE
start RUN
    start RUN @1 0 CONFIGURE
go RUN
    post RUN HV1 0 SWITCH_ON
    post RUN HV2 0 SWITCH_ON
go RUN
    wait RUN
go RUN
    still RUN
start HV1
    start HV1 RUN 0 SWITCH_ON
answer HV1 ON
    end HV1 ON
go RUN
    still RUN
start HV2
    start HV2 RUN 0 SWITCH_ON
answer HV2 ON
    end HV2 ON
go RUN
    seen RUN HV1=ON HV2=ON
go RUN
    end RUN READY
";

/// A counter is asked for its actions, and killed in the middle of the last.
pub const PARAMETERS: &str = "\
request @1 C PUT (M = \"a\")
    accept @1 C 0 PUT (T = 5, M = \"a\")
start C
    start C @1 0 PUT (T = 5, M = \"a\")
go C
    set C N=5
go C
    set C P=\"a\"
go C
    post C OUT 0 TAKE (V = 5, W = \"a\")
go C
    end C IDLE
request @1 C SHOW
    accept @1 C 1 SHOW
start C
    start C @1 1 SHOW
go C
    post C OUT 1 TAKE (V = 5, W = \"none\")
go C
    end C IDLE
request @1 C PUT (T = 1)
    refused BadArgs
request @1 C PUT (M = \"b\", T = 9223372036854775808)
    refused BadLine
request @1 C PUT (M = \"b\", T = -9223372036854775808)
    accept @1 C 2 PUT (T = -9223372036854775808, M = \"b\")
start C
    start C @1 2 PUT (T = -9223372036854775808, M = \"b\")
go C
    set C N=-9223372036854775808
kill C @1
    kill C @1
";
