//! What `check` answers of a text, and what its laws say of an example.

ghost use Rattle.std.specs.Prelude.{◌≡◌, ◌∷◌, [], true, false};
ghost use Rattle.std.specs.List.{list_all, list_any};
ghost use Rattle.sml_domain.specs.Truth.{holds_of};
ghost use Rattle.sml_check_build.specs.Numbers.{names_of};
ghost use Rattle.sml_check_build.specs.Programs.{state_numbers, formula_numbered};
ghost use Rattle.sml_check_build.specs.Truth.{holds_in};
ghost use Rattle.tests_of_files.specs.Example as example;

use crate::domain_of::is_refused;
use crate::domains::{LAMPS, TABLES_OF_LAMPS};
use crate::tables::has_tables;
use sml_check::{CheckKind, laws_of_conditions, laws_of_numbers};

#[test]
fn tells_a_fault(rt: HostRuntime) {
    let text = b"object: L is_of_class LAMP";
    assert!(rt; is_refused(rt.alloc(), text, CheckKind::UnknownClass, b"LAMP"));
}

// What tests answer of a lamp that is off, by names and by numbers.
fn answers_of_tests()
    ensures left_out { state_numbers (names_of example.file) example.states ≡ 1 ∷ [] }
    ensures named { list_all (holds_in example.file example.lamp_off) example.true_of_off ≡ true }
    ensures not_named { list_any (holds_in example.file example.lamp_off) example.false_of_off ≡ false }
    ensures numbered { list_all (λ f. holds_of example.members example.second
        (formula_numbered (names_of example.file) f)) example.true_of_off ≡ true }
    ensures not_numbered { list_any (λ f. holds_of example.members example.second
        (formula_numbered (names_of example.file) f)) example.false_of_off ≡ false }
{}

#[test]
fn leaves_out_states_that_nobody_declares(rt: HostRuntime) {
    answers_of_tests();
    laws_of_conditions();
    laws_of_numbers();
    assert!(rt; has_tables(rt.alloc(), LAMPS, TABLES_OF_LAMPS));
}
