//! Fronts of which a line is another: which is a front, and which line is the first that no front has.

use crate::found::found_of;

// The place of a line, what stands there, and what is read then: how long the log is that follows the front, or the
// number of the first bad line.
const ROWS: &[(usize, &[u8], Result<usize, usize>)] = &[
    (
        0,
        b"! smirun live 1 0123456789abcdef0123456789abcdef01234567 capacity 16\n",
        Err(1),
    ),
    (
        0,
        b"! smirun live 2 0123456789ABCDEF0123456789abcdef01234567 capacity 16\n",
        Err(1),
    ),
    (
        0,
        b"! smirun live 2 0123456789abcdef0123456789abcdef0123456 capacity 16\n",
        Err(1),
    ),
    (
        0,
        b"! smirun live 2 0123456789abcdef0123456789abcdef012345678 capacity 16\n",
        Err(1),
    ),
    (
        0,
        b"! smirun live 2 0123456789abcdef0123456789abcdef01234567 capacity 016\n",
        Err(1),
    ),
    (
        0,
        b"! smirun live 2 0123456789abcdef0123456789abcdef01234567 capacity 18446744073709551616\n",
        Err(1),
    ),
    (
        0,
        b"! smirun live 2 0123456789abcdef0123456789abcdef01234567 capacity 16\r\n",
        Err(1),
    ),
    (
        0,
        b"smirun live 2 0123456789abcdef0123456789abcdef01234567 capacity 16\n",
        Err(1),
    ),
    (1, b"! state A DEAD\n", Ok(17)),
    (1, b"! state A IDLE\n", Err(2)),
    (4, b"! param A N=9223372036854775807\n", Ok(17)),
    (4, b"! param A N=-9223372036854775808\n", Ok(17)),
    (4, b"! param A N=9223372036854775808\n", Err(5)),
    (4, b"! param A N=\"7\"\n", Err(5)),
    (5, b"! param A P=\"! after = 'kill' ~\"\n", Ok(17)),
    (5, b"! param A P=7\n", Err(6)),
    (8, b"! member G\n", Ok(17)),
    (8, b"! member G C C\n", Err(9)),
    (9, b"! member H C\n", Ok(17)),
    (9, b"! member H A\n", Err(10)),
    (10, b"! started A 18446744073709551615\n", Ok(17)),
    (10, b"! started A 18446744073709551616\n", Err(11)),
    (10, b"! started A 0\n", Err(11)),
    (10, b"! started A 012\n", Err(11)),
    (10, b"! started A -1\n", Err(11)),
    (10, b"! started A\n", Err(11)),
    (10, b"! started A  12\n", Err(11)),
    (10, b"! started A 12 \n", Err(11)),
    (10, b"! started A 12\r\n", Err(11)),
    (10, b"! started a 12\n", Err(11)),
    (10, b"! started D 12\n", Err(11)),
    (10, b"started A 12\n", Err(11)),
    (11, b"! ended A 18446744073709551615\n", Ok(17)),
    (11, b"! ended A 18446744073709551616\n", Err(12)),
    (11, b"! ended A 0\n", Err(12)),
    (12, b"! started AB 1\n! ended AB 1\n", Ok(17)),
    (12, b"! ended AB 1\n! started AB 1\n", Err(14)),
    (14, b"! once PANEL 7 A OFF 0 skipped\n", Ok(17)),
    (14, b"! once PANEL 7 A ON 1 refused Full\n", Ok(17)),
    (14, b"! once PANEL 7 - - 0 ended\n", Ok(17)),
    (
        14,
        b"! once PANEL 7 A ON 18446744073709551615 ended\n",
        Ok(17),
    ),
    (
        14,
        b"! once PANEL 7 A ON 18446744073709551616 ended\n",
        Err(15),
    ),
    (
        14,
        b"! once PANEL 18446744073709551616 A ON 11 ended\n",
        Err(15),
    ),
    (14, b"! once PANEL 07 A ON 11 ended\n", Err(15)),
    (14, b"! once panel 7 A ON 11 ended\n", Err(15)),
    (14, b"! once PA-EL 7 A ON 11 ended\n", Err(15)),
    (
        14,
        b"! once ABCDEFGHIJKLMNOPQRSTUVWXYZ_0123456789_ABCDEFGHIJKLMNOPQRSTUVWXYZ 7 - - 0 ended\n",
        Ok(17),
    ),
    (
        14,
        b"! once ABCDEFGHIJKLMNOPQRSTUVWXYZ_0123456789_ABCDEFGHIJKLMNOPQRSTUVWXYZ_ 7 - - 0 ended\n",
        Err(15),
    ),
    (14, b"! once PANEL 7 A IDLE 11 ended\n", Err(15)),
    (14, b"! once PANEL 7 D ON 11 ended\n", Err(15)),
    (14, b"! once PANEL 7 A on 11 ended\n", Err(15)),
    (14, b"! once PANEL 7 A ON 011 ended\n", Err(15)),
    (14, b"! once PANEL 7 A ON ended\n", Err(15)),
    (14, b"! once PANEL 7 A - 0 ended\n", Err(15)),
    (14, b"! once PANEL 7 - ON 0 ended\n", Err(15)),
    (14, b"! once PANEL 7 - - 1 ended\n", Err(15)),
    (14, b"! once PANEL 7 A ON 11 done\n", Err(15)),
    (14, b"! once PANEL 7 A ON 11 refused\n", Err(15)),
    (14, b"! once PANEL 7 A ON 11 refused \n", Err(15)),
    (14, b"! once PANEL 7 A ON 11 refused 7\n", Err(15)),
    (14, b"! once PANEL 7 A ON 11 refused Full Dead\n", Err(15)),
    (14, b"! once PANEL 7 A ON 11 past ended\n", Err(15)),
    (14, b"! once PANEL 7 A ON 11 waits @1 0\n", Err(15)),
    (14, b"! once PANEL 7 A ON 11 ended \n", Err(15)),
    (15, b"! once PANEL 8 A ON 11 ended\n", Err(16)),
    (17, b"! once Y 9 - - 0 refused UnknownObject", Err(18)),
    (18, b"kill A @8\nkill AB @1\n", Ok(17)),
    (18, b"kill D @1\n", Err(19)),
    (18, b"kill ab @1\n", Err(19)),
    (18, b"kill AB @0\n", Err(19)),
    (18, b"kill AB @9\n", Err(19)),
    (18, b"kill AB @11\n", Err(19)),
    (18, b"kill AB fault\n", Err(19)),
    (18, b"kill AB @1 \n", Err(19)),
    (18, b"! kill AB @1\n", Err(19)),
    (18, b"! as it was\n", Err(19)),
    (18, b"\n", Err(19)),
    (18, b"kill AB @1\nkill A @1\n", Err(20)),
    (
        20,
        b"! after fedcba9876543210fedcba9876543210fedcba9\n",
        Err(21),
    ),
    (
        20,
        b"! after fedcba9876543210fedcba9876543210fedcba987\n",
        Err(21),
    ),
    (
        20,
        b"! after fedcba9876543210fedcba9876543210fedcbaFF\n",
        Err(21),
    ),
    (
        20,
        b"! after fedcba9876543210fedcba9876543210fedcba98",
        Err(21),
    ),
    (
        20,
        b"! as it was\n! after fedcba9876543210fedcba9876543210fedcba98\n",
        Err(21),
    ),
    (
        20,
        b"! after fedcba9876543210fedcba9876543210fedcba98\nkill A @8\n",
        Ok(27),
    ),
    (21, b"", Ok(0)),
    (21, b"kill A @1\n", Ok(10)),
    (21, b"! state A OFF\nrequest", Ok(21)),
];

#[test]
fn fronts_and_their_first_bad_line(rt: HostRuntime) {
    for (place, line, told) in ROWS {
        let found = found_of(rt.alloc(), *place, line, b"", place.wrapping_add(1));
        assert!(rt; found == Some(*told), "{told:?} at place {place}");
    }
}
