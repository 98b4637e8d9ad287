//! Small domains, each with its tables: of dead states, sets, parameters, and nothing.

use crate::domains::Row;
use crate::tables::has_tables;

// One state, in which the object begins and into which it is killed.
const DEAD_AT_ONCE: &[u8] = b"objects: 1, blocks: 0
objects 0:X X=0
classes 0:K K=0
sets
states 0:S S=0
actions
class K with states: 1
X is K, begins S, dies S
X in S";

const NOTHING: &[u8] = b"objects: 0, blocks: 0
objects
classes
sets
states
actions";

const ROWS: &[Row] = &[
    // The first action moves to the added state, and the second ends in the declared one.
    (
        "both ways to end",
        b"class: K state: S action: GO move_to DEAD action: STOP terminate_action /state=S object: X is_of_class K",
        b"objects: 1, blocks: 2
objects 0:X X=0
classes 0:K K=0
sets
states 0:S 1:DEAD DEAD=1 S=0 Dead=1
actions 0:GO 1:STOP GO=0 STOP=1
class K with states: 2
X is K, begins S, dies DEAD
X takes GO
X takes STOP
X in S, GO does 0, STOP does 1
X in DEAD
0.0 move_to DEAD
1.0 terminate_action S",
    ),
    (
        "values that are written out",
        b"class: K parameters: string P = \"\", int N = -07
state: S action: GO set N = 12 set P = \"a b\" object: X is_of_class K",
        b"objects: 1, blocks: 1
objects 0:X X=0
classes 0:K K=0
sets
states 0:S 1:DEAD DEAD=1 S=0 Dead=1
actions 0:GO GO=0
class K with states: 2
X is K, begins S, dies DEAD (string P = \"\") (int N = -7)
X takes GO
X in S, GO does 0
X in DEAD
0.0 set 1 = 12
0.1 set 0 = \"a b\"",
    ),
    // Two classes declare one action, each with its own parameter.
    (
        "parameters by class",
        b"class: J state: S action: GO (int A)
class: K state: T action: GO (string B = \"b\") state: S action: GO (string B = \"b\")
object: X is_of_class K object: Y is_of_class J",
        b"objects: 2, blocks: 3
objects 0:X 1:Y X=0 Y=1
classes 0:J 1:K J=0 K=1
sets
states 0:S 1:T 2:DEAD DEAD=2 S=0 T=1 Dead=2
actions 0:GO GO=0
class J with states: 2
class K with states: 3
X is K, begins T, dies DEAD
X takes GO (string B = \"b\")
X in S, GO does 2
X in T, GO does 1
X in DEAD
Y is J, begins S, dies DEAD
Y takes GO (int A)
Y in S, GO does 0
Y in DEAD",
    ),
    (
        "what is read can be checked",
        b"class: K state: S action: GO (string M = \"a\") object: X is_of_class K",
        b"objects: 1, blocks: 1
objects 0:X X=0
classes 0:K K=0
sets
states 0:S 1:DEAD DEAD=1 S=0 Dead=1
actions 0:GO GO=0
class K with states: 2
X is K, begins S, dies DEAD
X takes GO (string M = \"a\")
X in S, GO does 0
X in DEAD",
    ),
    (
        "dead from the beginning",
        b"class: K state: S /initial_state /dead_state object: X is_of_class K",
        DEAD_AT_ONCE,
    ),
    (
        "dead from the beginning, with the marks the other way round",
        b"class: K state: S /dead_state /initial_state object: X is_of_class K",
        DEAD_AT_ONCE,
    ),
    (
        "dead from the beginning, in a state that is declared",
        b"class: K state: DEAD object: X is_of_class K",
        b"objects: 1, blocks: 0
objects 0:X X=0
classes 0:K K=0
sets
states 0:DEAD DEAD=0 Dead=0
actions
class K with states: 1
X is K, begins DEAD, dies DEAD
X in DEAD",
    ),
    (
        "marked beside added",
        b"class: K state: S state: GONE /dead_state state: U class: L state: T state: S /initial_state
object: X is_of_class K object: Y is_of_class L",
        b"objects: 2, blocks: 0
objects 0:X 1:Y X=0 Y=1
classes 0:K 1:L K=0 L=1 l=1
sets
states 0:S 1:GONE 2:U 3:T 4:DEAD DEAD=4 GONE=1 S=0 T=3 U=2 Dead=4
actions
class K with states: 3
class L with states: 3
X is K, begins S, dies GONE
X in S
X in GONE
X in U
Y is L, begins S, dies DEAD
Y in S
Y in T
Y in DEAD",
    ),
    (
        "added beside declared",
        b"class: K state: S class: L state: T state: DEAD action: GO state: U
object: X is_of_class K object: Y is_of_class L",
        b"objects: 2, blocks: 1
objects 0:X 1:Y X=0 Y=1
classes 0:K 1:L K=0 L=1 l=1
sets
states 0:S 1:T 2:DEAD 3:U DEAD=2 S=0 T=1 U=3 Dead=2
actions 0:GO GO=0
class K with states: 2
class L with states: 3
X is K, begins S, dies DEAD
X in S
X in DEAD
Y is L, begins T, dies DEAD
Y takes GO
Y in T
Y in DEAD, GO does 0
Y in U",
    ),
    // The marked state is the dead one, and an unmarked DEAD a state like any other.
    (
        "declared and not marked",
        b"class: K state: DEAD state: S /initial_state state: GONE /dead_state object: X is_of_class K",
        b"objects: 1, blocks: 0
objects 0:X X=0
classes 0:K K=0
sets
states 0:DEAD 1:S 2:GONE DEAD=0 GONE=2 S=1 Dead=0
actions
class K with states: 3
X is K, begins S, dies GONE
X in DEAD
X in S
X in GONE",
    ),
    (
        "members as written",
        b"objectset: G { C, A } object: A is_of_class K objectset: H { B } class: K state: S
object: B is_of_class K object: C is_of_class K",
        b"objects: 3, blocks: 0
objects 0:A 1:B 2:C A=0 B=1 C=2
classes 0:K K=0
sets 0:G 1:H G=0 H=1
states 0:S 1:DEAD DEAD=1 S=0 Dead=1
actions
class K with states: 2
set G of 2 { C A }
set H of 1 { B }
A is K, begins S, dies DEAD
A in S
A in DEAD
B is K, begins S, dies DEAD
B in S
B in DEAD
C is K, begins S, dies DEAD
C in S
C in DEAD",
    ),
    // Some member is in the first state, or not all of them are.
    (
        "empty set",
        b"class: T
  state: S
    action: GO
      if ( any_in E in_state S or not all_in E in_state S ) then
        move_to BAD
      endif
      move_to GOOD
  state: GOOD
  state: BAD
object: X is_of_class T
objectset: E { }
",
        b"objects: 1, blocks: 3
objects 0:X X=0
classes 0:T T=0
sets 0:E E=0
states 0:S 1:GOOD 2:BAD 3:DEAD BAD=2 DEAD=3 GOOD=1 S=0 Dead=3
actions 0:GO GO=0
class T with states: 4
set E of 0 { }
X is T, begins S, dies DEAD
X takes GO
X in S, GO does 2
X in GOOD
X in BAD
X in DEAD
0.0 move_to BAD
2.0 if (any_in E in S or not all_in E in S) then 0 else 1
2.1 move_to GOOD",
    ),
    // Nobody is tested for the first state alone, and for states that nobody declares.
    (
        "tests of nobody",
        b"class: T state: S action: GO
if (any_in E in_state {NOWHERE, S, NEVER}) then endif
if (all_in E not_in_state NOWHERE) then endif
object: X is_of_class T objectset: E {}",
        b"objects: 1, blocks: 5
objects 0:X X=0
classes 0:T T=0
sets 0:E E=0
states 0:S 1:DEAD DEAD=1 S=0 Dead=1
actions 0:GO GO=0
class T with states: 2
set E of 0 { }
X is T, begins S, dies DEAD
X takes GO
X in S, GO does 4
X in DEAD
4.0 if any_in E in S then 0 else 1
4.1 if all_in E not_in then 2 else 3",
    ),
    // An object that is named twice is waited for twice.
    (
        "waited for",
        b"class: T state: S action: GO wait ( Y, all_in E, all_in G, Y ) move_to S class: K state: S
object: X is_of_class T object: Y is_of_class K objectset: E {} objectset: G { Y }",
        b"objects: 2, blocks: 1
objects 0:X 1:Y X=0 Y=1
classes 0:T 1:K K=1 T=0
sets 0:E 1:G E=0 G=1
states 0:S 1:DEAD DEAD=1 S=0 Dead=1
actions 0:GO GO=0
class T with states: 2
class K with states: 2
set E of 0 { }
set G of 1 { Y }
X is T, begins S, dies DEAD
X takes GO
X in S, GO does 0
X in DEAD
Y is K, begins S, dies DEAD
Y in S
Y in DEAD
0.0 wait Y all_in E all_in G Y
0.1 move_to S",
    ),
    // A member that is put in again is no further one, and what is taken out stays among those that may come.
    (
        "sets that change",
        b"class: T state: S action: GO insert Y in E remove Y from E insert X in G insert Y in G insert X in G
class: K state: S object: X is_of_class T object: Y is_of_class K objectset: E {} objectset: G { Y }",
        b"objects: 2, blocks: 1
objects 0:X 1:Y X=0 Y=1
classes 0:T 1:K K=1 T=0
sets 0:E 1:G E=0 G=1
states 0:S 1:DEAD DEAD=1 S=0 Dead=1
actions 0:GO GO=0
class T with states: 2
class K with states: 2
set E of 0 { } may { Y }
set G of 1 { Y } may { Y X }
X is T, begins S, dies DEAD
X takes GO
X in S, GO does 0
X in DEAD
Y is K, begins S, dies DEAD
Y in S
Y in DEAD
0.0 insert Y in E
0.1 remove Y from E
0.2 insert X in G
0.3 insert Y in G
0.4 insert X in G",
    ),
    // What may come is in the order of the text; a class without objects counts, and what is taken out does not.
    (
        "sets that change anywhere",
        b"class: T state: S action: GO
if ( all_in E in_state S ) then insert B in E else insert A in E insert B in E endif
class: K state: S action: STOP remove C from E insert A in E
object: A is_of_class K object: B is_of_class K object: C is_of_class K objectset: E { }",
        b"objects: 3, blocks: 4
objects 0:A 1:B 2:C A=0 B=1 C=2
classes 0:T 1:K K=1 T=0
sets 0:E E=0
states 0:S 1:DEAD DEAD=1 S=0 Dead=1
actions 0:GO 1:STOP GO=0 STOP=1
class T with states: 2
class K with states: 2
set E of 0 { } may { B A }
A is K, begins S, dies DEAD
A takes STOP
A in S, STOP does 3
A in DEAD
B is K, begins S, dies DEAD
B takes STOP
B in S, STOP does 3
B in DEAD
C is K, begins S, dies DEAD
C takes STOP
C in S, STOP does 3
C in DEAD
0.0 insert B in E
1.0 insert A in E
1.1 insert B in E
2.0 if all_in E in S then 0 else 1
3.0 remove C from E
3.1 insert A in E",
    ),
    (
        "requests to nobody",
        b"class: T state: S action: GO do NOPE (N = 1) all_in E do GO all_in E object: X is_of_class T objectset: E {}",
        b"objects: 1, blocks: 1
objects 0:X X=0
classes 0:T T=0
sets 0:E E=0
states 0:S 1:DEAD DEAD=1 S=0 Dead=1
actions 0:GO GO=0
class T with states: 2
set E of 0 { }
X is T, begins S, dies DEAD
X takes GO
X in S, GO does 0
X in DEAD
0.0 do nothing all_in E
0.1 do GO all_in E",
    ),
    ("empty domain", b"", NOTHING),
    ("empty domain of blanks", b" \t\r\n", NOTHING),
    ("empty domain of a comment", b"! nothing", NOTHING),
];

#[test]
fn small_domains_have_their_tables(rt: HostRuntime) {
    for (name, text, tables) in ROWS {
        assert!(rt; has_tables(rt.alloc(), text, tables), "{name}");
    }
}
