//! Schedules, line by line.

use crate::domains::WAITS;
use test_domains::{CHANGES, COUNTER, PAIR, SUPPLIES};

/// A line of a schedule, and what it writes.
pub type Step = (&'static [u8], &'static [u8]);

/// A schedule on a domain, with its name.
#[derive(Clone, Copy)]
pub struct Told {
    pub name: &'static str,
    pub domain: &'static [u8],
    pub steps: &'static [Step],
}

/// The run is configured, and waits for both of its supplies.
pub const CONFIGURE_READY: Told = Told {
    name: "the run is configured",
    domain: SUPPLIES,
    steps: &[
        (
            b"request @1 RUN CONFIGURE\n",
            b"accept @1 RUN 0 CONFIGURE\n",
        ),
        (b"start RUN\n", b"start RUN @1 0 CONFIGURE\n"),
        (
            b"go RUN\n",
            b"post RUN HV1 0 SWITCH_ON\npost RUN HV2 0 SWITCH_ON\n",
        ),
        (b"go RUN\n", b"wait RUN\n"),
        (b"go RUN\n", b"still RUN\n"),
        (b"start HV1\n", b"start HV1 RUN 0 SWITCH_ON\n"),
        (b"answer HV1 ON\n", b"end HV1 ON\n"),
        (b"go RUN\n", b"still RUN\n"),
        (b"start HV2\n", b"start HV2 RUN 0 SWITCH_ON\n"),
        (b"answer HV2 ON\n", b"end HV2 ON\n"),
        (b"go RUN\n", b"seen RUN HV1=ON HV2=ON\n"),
        (b"go RUN\n", b"end RUN READY\n"),
    ],
};

/// A counter is asked for its actions, and killed in the middle of the last.
pub const PARAMETERS: Told = Told {
    name: "a counter with parameters",
    domain: COUNTER,
    steps: &[
        (
            b"request @1 C PUT (M = \"a\")\n",
            b"accept @1 C 0 PUT (T = 5, M = \"a\")\n",
        ),
        (b"start C\n", b"start C @1 0 PUT (T = 5, M = \"a\")\n"),
        (b"go C\n", b"set C N=5\n"),
        (b"go C\n", b"set C P=\"a\"\n"),
        (b"go C\n", b"post C OUT 0 TAKE (V = 5, W = \"a\")\n"),
        (b"go C\n", b"end C IDLE\n"),
        (b"request @1 C SHOW\n", b"accept @1 C 1 SHOW\n"),
        (b"start C\n", b"start C @1 1 SHOW\n"),
        (b"go C\n", b"post C OUT 1 TAKE (V = 5, W = \"none\")\n"),
        (b"go C\n", b"end C IDLE\n"),
        (b"request @1 C PUT (T = 1)\n", b"refused BadArgs\n"),
        (
            b"request @1 C PUT (M = \"b\", T = 9223372036854775808)\n",
            b"refused BadLine\n",
        ),
        (
            b"request @1 C PUT (M = \"b\", T = -9223372036854775808)\n",
            b"accept @1 C 2 PUT (T = -9223372036854775808, M = \"b\")\n",
        ),
        (
            b"start C\n",
            b"start C @1 2 PUT (T = -9223372036854775808, M = \"b\")\n",
        ),
        (b"go C\n", b"set C N=-9223372036854775808\n"),
        (b"kill C @1\n", b"kill C @1\n"),
    ],
};

/// Two objects wait for one another, until one of them is killed.
pub const WAITING: Told = Told {
    name: "two that wait for one another",
    domain: PAIR,
    steps: &[
        (b"request @1 A GO\n", b"accept @1 A 0 GO\n"),
        (b"request @1 B GO\n", b"accept @1 B 0 GO\n"),
        (b"start A\n", b"start A @1 0 GO\n"),
        (b"start B\n", b"start B @1 0 GO\n"),
        (b"go A\n", b"wait A\n"),
        (b"go B\n", b"wait B\n"),
        (b"go A\n", b"still A\n"),
        (b"kill B @1\n", b"kill B @1\n"),
        (b"go A\n", b"seen A B=DEAD\n"),
        (b"go A\n", b"end A S\n"),
    ],
};

/// A boss lights two lamps and waits for both, in the order in which it names them.
pub const LAMPS: Told = Told {
    name: "two lamps that are waited for",
    domain: WAITS,
    steps: &[
        (b"request @1 B GO\n", b"accept @1 B 0 GO\n"),
        (b"start B\n", b"start B @1 0 GO\n"),
        (b"go B\n", b"post B L 0 LIGHT\npost B K 0 LIGHT\n"),
        (b"go B\n", b"wait B\n"),
        (b"start K\n", b"start K B 0 LIGHT\n"),
        (b"go K\n", b"end K ON\n"),
        (b"go B\n", b"still B\n"),
        (b"start L\n", b"start L B 0 LIGHT\n"),
        (b"go L\n", b"end L ON\n"),
        (b"go B\n", b"seen B K=ON L=ON\n"),
        (b"go B\n", b"seen B\n"),
        (b"go B\n", b"end B DONE\n"),
    ],
};

/// A boss sends to a set that has a lamp, and then to the same set without any.
pub const CHANGING: Told = Told {
    name: "a set that changes",
    domain: CHANGES,
    steps: &[
        (b"request @1 B GO\n", b"accept @1 B 0 GO\n"),
        (b"start B\n", b"start B @1 0 GO\n"),
        (b"go B\n", b"insert B L G\n"),
        (b"go B\n", b"post B L 0 LIGHT\n"),
        (b"go B\n", b"remove B L G\n"),
        (b"go B\n", b"empty B G\n"),
        (b"go B\n", b"seen B\n"),
        (b"go B\n", b"end B DONE\n"),
    ],
};
