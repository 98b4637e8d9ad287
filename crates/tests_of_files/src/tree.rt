//! Names, words, and trees that are copied and compared.

use crate::conditions::is_deep;
use crate::texts::{has_file, is_copied, same_file};
use sml_tree::{Name, TokenKind, is_reserved, word_kind};
use std::alloc::Global;

// A class with one state and one action, and an object of it.
const CHOICE: &[u8] = b"class: LAMP
  state: on /initial_state
    action: GO
      if ( L in_state ON and not any_in G not_in_state ON ) then
        do GO (N = 5) L
      endif
      move_to on
object: L is_of_class lamp
";

/// Every form of a tree, each arm that takes memory among them.
pub const EVERY_FORM: &[u8] = b"class: DEVICE /associated
  parameters: int N = 3, string P = \"x\"
  state: OFF /initial_state
    action: SWITCH (int T, string M = \"none\")
  state: ON /dead_state
class: BOSS
  parameters: int N = -3
  state: IDLE
    action: GO (int T = 5)
      set N = T
      set P = \"a b\"
      do SWITCH (T = 5, M = \"c\", N = T) D
      do SWITCH all_in G
      wait ( D, all_in G )
      insert D in H
      remove E from G
      if ( D in_state { ON, OFF } or all_in G not_in_state ON and not any_in G in_state OFF ) then
        if ( D in_state ON ) then
          move_to IDLE
        endif
      else
        terminate_action /state=IDLE
      endif
object: D is_of_class DEVICE
objectset: G { D, E }
objectset: H { }
";

#[test]
fn names_are_folded(rt: HostRuntime) {
    assert_eq!(rt; Name::from_word(b"lamp_1").as_bytes(), b"LAMP_1".as_slice());
    assert!(rt; Name::from_word(b"Lamp") == Name::from_word(b"lAMP"));
    assert!(rt; Name::from_word(b"A") < Name::from_word(b"A1"));
}

const COPIED: &[(&str, &[u8])] = &[
    ("a choice", CHOICE),
    ("every form", EVERY_FORM),
    ("nothing", b""),
];

#[test]
fn copies_are_the_same(rt: HostRuntime) {
    for (name, text) in COPIED {
        assert!(rt;
            is_copied(rt.alloc(), text, rt.alloc()) == Some(true),
            "{name}"
        );
    }
    assert!(rt; same_file(rt.alloc(), CHOICE, b"") == Some(false));
    assert!(rt; same_file(rt.alloc(), EVERY_FORM, b"") == Some(false));
}

#[test]
fn an_if_is_one_deep(rt: HostRuntime) {
    assert!(rt; has_file(rt.alloc(), CHOICE, |file| is_deep(file, 1)));
}

#[test]
fn marks_count_behind_a_slash(rt: HostRuntime) {
    assert!(rt; matches!(word_kind(true, b"ASSOCIATED"), TokenKind::Associated));
    assert!(rt; matches!(word_kind(false, b"ASSOCIATED"), TokenKind::Name));
    assert!(rt; matches!(word_kind(false, b"ENDIF"), TokenKind::Endif));
    assert!(rt; is_reserved(b"WAIT"));
    assert!(rt; !is_reserved(b"DEAD_STATE"));
}
