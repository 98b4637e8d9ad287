//! The first fault of a file.
ghost use Rattle.std.specs.Prelude.{◌≡◌, ◌⊎◌, Some, None, flat_map, OnOk, IfErr};
ghost use Rattle.sml_tree.specs.Content.{file_content};
ghost use Rattle.sml_check_faults.specs.Lookup as look;
ghost use Rattle.sml_check_faults.specs.Kinds.{faults_of, all_faults, with_kind, IsWellFormed};
ghost use Rattle.sml_check_faults.specs.KindText.{memory_error};

use sml_check_faults::{CheckError, CheckKind, Tables};
use sml_tree::{Name, SmlFile};
use std::alloc::{Allocator, Global};

// The kinds of faults, in the order of their numbers.
const KINDS: [CheckKind; 15] = [
    CheckKind::Duplicate,
    CheckKind::NoState,
    CheckKind::TwoInitial,
    CheckKind::TwoDead,
    CheckKind::UnknownClass,
    CheckKind::UnknownObject,
    CheckKind::UnknownSet,
    CheckKind::UnknownState,
    CheckKind::UnknownAction,
    CheckKind::UnknownParam,
    CheckKind::KindMismatch,
    CheckKind::MissingArg,
    CheckKind::ParamsDiffer,
    CheckKind::SelfInCondition,
    CheckKind::AssociatedBody,
];

// The kinds whose faults may be outside of blocks.
const OTHER_KINDS: [CheckKind; 9] = [
    CheckKind::Duplicate,
    CheckKind::NoState,
    CheckKind::TwoInitial,
    CheckKind::TwoDead,
    CheckKind::UnknownClass,
    CheckKind::UnknownObject,
    CheckKind::KindMismatch,
    CheckKind::ParamsDiffer,
    CheckKind::AssociatedBody,
];

// Returns the first fault of a kind.
fn fault_of<A: Allocator + Clone>(tables: &Tables<'_, A>, kind: CheckKind) -> Option<Name>
    ensures { result ≡ look.first_item (faults_of kind (file_content tables.now.file.now)) }
{
    match kind {
        CheckKind::Duplicate => tables.repeated(),
        CheckKind::ParamsDiffer => tables.differing(),
        _ => tables.items_fault(kind, &tables.file.items),
    }
}

// Returns the first fault of a kind, with the kind.
#[tactic(auto, using(sml_check_faults::proofs::Rests::firsts))]
fn kind_fault<A: Allocator + Clone>(
    tables: &Tables<'_, A>,
    kind: CheckKind,
) -> Option<(CheckKind, Name)>
    ensures { result ≡ look.first_item (with_kind (file_content tables.now.file.now) kind) }
{
    match fault_of(tables, kind) {
        Some(name) => Some((kind, name)),
        None => None,
    }
}

// Returns the first fault of some kinds.
#[tactic(auto, using(sml_check_faults::proofs::Rests::firsts))]
fn kinds_fault<A: Allocator + Clone>(
    tables: &Tables<'_, A>,
    kinds: &[CheckKind],
) -> Option<(CheckKind, Name)>
    ensures { result ≡ look.first_item (flat_map (with_kind (file_content tables.now.file.now)) kinds.now) }
{
    for kind in kinds {
        if let Some(fault) = kind_fault(tables, *kind) {
            return Some(fault);
        }
    }
    None
}

// Returns the first fault of the kind of lowest number. If no block is at fault, the kinds that occur in
// blocks alone are passed over.
fn lowest_fault<A: Allocator + Clone>(tables: &Tables<'_, A>) -> Option<(CheckKind, Name)>
    ensures { result ≡ look.first_item (all_faults (file_content tables.now.file.now)) }
{
    if tables.has_faulty_item(&tables.file.items) {
        kinds_fault(tables, &KINDS)
    } else {
        kinds_fault(tables, &OTHER_KINDS)
    }
}

// What a file's first fault makes of it.
fn judged(fault: Option<(CheckKind, Name)>) -> Result<(), CheckError>
    ensures ok { OnOk result (fault ≡ None) }
    ensures err { IfErr result (λ e. Some (e.kind, e.name) ≡ fault) }
{
    match fault {
        Some((kind, name)) => Err(CheckError { kind, name }),
        None => Ok(()),
    }
}

/// Returns the fault of a file of the lowest number, and of these the first in the text, by the file's tables.
pub(crate) fn fault_by<A: Allocator + Clone>(tables: &Tables<'_, A>) -> Result<(), CheckError>
    ensures well_formed { OnOk result (IsWellFormed (file_content tables.now.file.now)) }
    ensures fault { IfErr result (λ e. Some (e.kind, e.name)
        ≡ look.first_item (all_faults (file_content tables.now.file.now))) }
{
    judged(lowest_fault(tables))
}

/// Whether a file is well-formed, or else its fault of the lowest number, and of these the first in the
/// text (docs/LANGUAGE.md, "Well-formed files"). Only tables of names are allocated, and they are freed.
/// The cost is the size of the tree, at each `do` times its targets and its arguments, at each test
/// times its objects and their states, and at each `insert` times what its set may come to have.
pub fn first_fault<A: Allocator + Clone>(alloc: Global, file: &SmlFile<A>) -> Result<(), CheckError>
    ensures well_formed { OnOk result (IsWellFormed (file_content file.now)) }
    ensures fault { IfErr result (λ e. (e ≡ memory_error)
        ⊎ (Some (e.kind, e.name) ≡ look.first_item (all_faults (file_content file.now)))) }
{
    match Tables::new(alloc, file) {
        Ok(tables) => {
            let fault = fault_by(&tables);
            drop(tables);
            fault
        }
        Err(_) => Err(CheckError::memory()),
    }
}
