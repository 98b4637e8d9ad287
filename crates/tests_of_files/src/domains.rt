//! Domains of several classes, each with its tables.

use crate::tables::has_tables;
use test_domains::SUPPLIES;

/// The name of a row, the text of a domain, and its tables.
pub type Row = (&'static str, &'static [u8], &'static [u8]);

/// A lamp that keeps how bright it is and asks all lamps to light, its class and the set of it.
pub const LAMPS: &[u8] = b"object: L is_of_class LAMP
class: LAMP
  parameters: int BRIGHT = 3
  state: ON
  state: OFF /initial_state
    action: LIGHT (int HOW = 5)
      set BRIGHT = HOW
      do LIGHT all_in LAMPS
      move_to ON
objectset: LAMPS { L }
";

/// The tables of that domain.
pub const TABLES_OF_LAMPS: &[u8] = b"objects: 1, blocks: 1
objects 0:L L=0 l=0
classes 0:LAMP LAMP=0
sets 0:LAMPS LAMPS=0
states 0:ON 1:OFF 2:DEAD DEAD=2 OFF=1 ON=0 Dead=2
actions 0:LIGHT LIGHT=0
class LAMP with states: 3
set LAMPS of 1 { L }
L is LAMP, begins OFF, dies DEAD (int BRIGHT = 3)
L takes LIGHT (int HOW = 5)
L in ON
L in OFF, LIGHT does 0
L in DEAD
0.0 set 0 = given 0
0.1 do LIGHT all_in LAMPS
0.2 move_to ON";

const ROWS: &[Row] = &[
    (
        "lamp and boss",
        b"class: LAMP
  state: OFF
    action: LIGHT
      move_to ON
  state: ON
class: BOSS
  state: IDLE
    action: GO
      do LIGHT L
      move_to DONE
  state: DONE
object: L is_of_class LAMP
object: B is_of_class BOSS
",
        b"objects: 2, blocks: 2
objects 0:L 1:B B=1 L=0 l=0
classes 0:LAMP 1:BOSS BOSS=1 LAMP=0
sets
states 0:OFF 1:ON 2:IDLE 3:DONE 4:DEAD DEAD=4 DONE=3 IDLE=2 OFF=0 ON=1 Dead=4
actions 0:LIGHT 1:GO GO=1 LIGHT=0
class LAMP with states: 3
class BOSS with states: 3
L is LAMP, begins OFF, dies DEAD
L takes LIGHT
L in OFF, LIGHT does 0
L in ON
L in DEAD
B is BOSS, begins IDLE, dies DEAD
B takes GO
B in IDLE, GO does 1
B in DONE
B in DEAD
0.0 move_to ON
1.0 do LIGHT L
1.1 move_to DONE",
    ),
    (
        "two supplies, and the run of supplies",
        SUPPLIES,
        b"objects: 3, blocks: 5
objects 0:HV1 1:HV2 2:RUN HV1=0 HV2=1 RUN=2 hv2=1
classes 0:SUPPLY 1:RUN_TYPE RUN_TYPE=1 SUPPLY=0
sets 0:HV HV=0
states 0:OFF 1:ON 2:NOT_READY 3:READY 4:ERROR 5:DEAD DEAD=5 ERROR=4 NOT_READY=2 OFF=0 ON=1 READY=3 Dead=5
actions 0:SWITCH_ON 1:SWITCH_OFF 2:CONFIGURE CONFIGURE=2 SWITCH_OFF=1 SWITCH_ON=0
class SUPPLY with states: 3, associated
class RUN_TYPE with states: 4
set HV of 2 { HV1 HV2 }
HV1 is SUPPLY, begins OFF, dies DEAD, associated
HV1 takes SWITCH_ON
HV1 takes SWITCH_OFF
HV1 in OFF, SWITCH_ON does 0
HV1 in ON, SWITCH_OFF does 1
HV1 in DEAD
HV2 is SUPPLY, begins OFF, dies DEAD, associated
HV2 takes SWITCH_ON
HV2 takes SWITCH_OFF
HV2 in OFF, SWITCH_ON does 0
HV2 in ON, SWITCH_OFF does 1
HV2 in DEAD
RUN is RUN_TYPE, begins NOT_READY, dies DEAD
RUN takes CONFIGURE
RUN in NOT_READY, CONFIGURE does 4
RUN in READY
RUN in ERROR
RUN in DEAD
2.0 move_to READY
4.0 do SWITCH_ON all_in HV
4.1 if all_in HV in ON then 2 else 3
4.2 move_to ERROR",
    ),
    // What is given is kept, and sent to the sink as the string and the number, in this order; to show sends the number
    // alone.
    (
        "sink and counter, and the blocks of the counter",
        b"class: SINK /associated
  state: READY
    action: TAKE (int V, string W = \"none\")
class: COUNTER
  parameters: int N = 3, string P = \"x\"
  state: IDLE
    action: PUT (int T = 5, string M)
      set N = T
      set P = M
      do TAKE (W = P, V = N) OUT
    action: SHOW
      do TAKE (V = N) OUT
object: OUT is_of_class SINK
object: C is_of_class COUNTER
",
        b"objects: 2, blocks: 3
objects 0:OUT 1:C C=1 OUT=0
classes 0:SINK 1:COUNTER COUNTER=1 SINK=0
sets
states 0:READY 1:IDLE 2:DEAD DEAD=2 IDLE=1 READY=0 Dead=2
actions 0:TAKE 1:PUT 2:SHOW PUT=1 SHOW=2 TAKE=0
class SINK with states: 2, associated
class COUNTER with states: 2
OUT is SINK, begins READY, dies DEAD, associated
OUT takes TAKE (int V) (string W = \"none\")
OUT in READY, TAKE does 0
OUT in DEAD
C is COUNTER, begins IDLE, dies DEAD (int N = 3) (string P = \"x\")
C takes PUT (int T = 5) (string M)
C takes SHOW
C in IDLE, PUT does 1, SHOW does 2
C in DEAD
1.0 set 0 = given 0
1.1 set 1 = given 1
1.2 do TAKE (W = own 1) (V = own 0) OUT
2.0 do TAKE (V = own 0) OUT",
    ),
    // Each asks the other, and does nothing either way.
    (
        "pair of objects",
        b"class: LEFT
  state: S
    action: GO
      if ( B in_state S ) then
      endif
class: RIGHT
  state: S
    action: GO
      if ( A in_state S ) then
      endif
object: A is_of_class LEFT
object: B is_of_class RIGHT
",
        b"objects: 2, blocks: 6
objects 0:A 1:B A=0 B=1
classes 0:LEFT 1:RIGHT LEFT=0 RIGHT=1
sets
states 0:S 1:DEAD DEAD=1 S=0 Dead=1
actions 0:GO GO=0
class LEFT with states: 2
class RIGHT with states: 2
A is LEFT, begins S, dies DEAD
A takes GO
A in S, GO does 2
A in DEAD
B is RIGHT, begins S, dies DEAD
B takes GO
B in S, GO does 5
B in DEAD
2.0 if B in S then 0 else 1
5.0 if A in S then 3 else 4",
    ),
    (
        "makes a domain, and numbers instructions",
        LAMPS,
        TABLES_OF_LAMPS,
    ),
    // A lamp, which a device stands for, lights with a string; a boss goes with a number and perhaps a string.
    (
        "answers look-ups of names, parameters and blocks, and shows classes, sets and blocks",
        b"class: LAMP /associated
  state: OFF
    action: LIGHT (string SHADE)
  state: ON
class: BOSS
  parameters: int COUNT = 1
  state: IDLE
    action: GO (int COUNT_NOW, string SHADE = \"white\")
      if ( L in_state ON and any_in LAMPS not_in_state { ON, DEAD } ) then
        set COUNT = COUNT_NOW
      endif
      do LIGHT (SHADE = SHADE) all_in LAMPS
      do FLY all_in NONE
      move_to IDLE
object: L is_of_class LAMP
object: B is_of_class BOSS
objectset: LAMPS { L }
objectset: NONE { }
",
        b"objects: 2, blocks: 4
objects 0:L 1:B B=1 L=0 l=0
classes 0:LAMP 1:BOSS BOSS=1 LAMP=0
sets 0:LAMPS 1:NONE LAMPS=0 NONE=1
states 0:OFF 1:ON 2:IDLE 3:DEAD DEAD=3 IDLE=2 OFF=0 ON=1 Dead=3
actions 0:LIGHT 1:GO GO=1 LIGHT=0
class LAMP with states: 3, associated
class BOSS with states: 2
set LAMPS of 1 { L }
set NONE of 0 { }
L is LAMP, begins OFF, dies DEAD, associated
L takes LIGHT (string SHADE)
L in OFF, LIGHT does 0
L in ON
L in DEAD
B is BOSS, begins IDLE, dies DEAD (int COUNT = 1)
B takes GO (int COUNT_NOW) (string SHADE = \"white\")
B in IDLE, GO does 3
B in DEAD
1.0 set 0 = given 0
3.0 if (L in ON and any_in LAMPS not_in ON DEAD) then 1 else 2
3.1 do LIGHT (SHADE = given 1) all_in LAMPS
3.2 do nothing all_in NONE
3.3 move_to IDLE",
    ),
    (
        "branches in one another",
        b"class: LAMP
  state: OFF
  state: ON
class: BOSS
  state: IDLE
    action: GO
      if ( L not_in_state { ON, DEAD } and M in_state ON ) then
        move_to ON
      else
        if ( M in_state OFF ) then
          move_to IDLE
        else
          move_to DEAD
        endif
      endif
  state: ON
object: L is_of_class LAMP
object: M is_of_class LAMP
object: B is_of_class BOSS
",
        b"objects: 3, blocks: 5
objects 0:L 1:M 2:B B=2 L=0 M=1 l=0
classes 0:LAMP 1:BOSS BOSS=1 LAMP=0
sets
states 0:OFF 1:ON 2:IDLE 3:DEAD DEAD=3 IDLE=2 OFF=0 ON=1 Dead=3
actions 0:GO GO=0
class LAMP with states: 3
class BOSS with states: 3
L is LAMP, begins OFF, dies DEAD
L in OFF
L in ON
L in DEAD
M is LAMP, begins OFF, dies DEAD
M in OFF
M in ON
M in DEAD
B is BOSS, begins IDLE, dies DEAD
B takes GO
B in ON
B in IDLE, GO does 4
B in DEAD
0.0 move_to ON
1.0 move_to IDLE
2.0 move_to DEAD
3.0 if M in OFF then 1 else 2
4.0 if (L not_in ON DEAD and M in ON) then 0 else 3",
    ),
];

#[test]
fn domains_of_several_classes_have_their_tables(rt: HostRuntime) {
    for (name, text, tables) in ROWS {
        assert!(rt; has_tables(rt.alloc(), text, tables), "{name}");
    }
}
