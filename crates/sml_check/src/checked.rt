//! A file's domain, or its first fault.
ghost use Rattle.std.specs.Prelude.{◌≡◌, ◌⊎◌, Some, IfOk, IfErr};
ghost use Rattle.sml_tree.specs.Content.{file_content};
ghost use Rattle.sml_check_faults.specs.Lookup as look;
ghost use Rattle.sml_check_faults.specs.Kinds.{all_faults, IsWellFormed};
ghost use Rattle.sml_check_faults.specs.KindText.{memory_error};
ghost use Rattle.sml_check_build.specs.Texts.{HasTexts};
ghost use Rattle.sml_check_build.specs.FileDomain.{IsDomainOf};

use crate::faults::fault_by;
use sml_check_build::build;
use sml_check_faults::{CheckError, Tables};
use sml_domain::Domain;
use sml_tree::SmlFile;
use std::alloc::{Allocator, Global};

/// Returns the domain of a well-formed file. It requires that each string of the file has the bytes of a
/// string of the language, as in every file that was read.
///
/// The cost is that of `first_fault`, plus the size of the tree; each name of an object, a class, a set or
/// a parameter costs a linear search.
///
/// # Errors
///
/// The fault of the lowest number, and of these the first in the text, with its name; or out of
/// memory, which may come in place of any other.
///
/// # Example
///
/// `tests_of_files` has it as `first_calls::checks`:
///
/// ```
/// laws_of_read_files();   // what was read has the strings that `check` asks for
/// let file = read(alloc, b"class: LAMP state: OFF object: L is_of_class LAMP")?;
/// let domain = check(alloc, &file)?;
/// let count = domain.objects();   // 1
/// ```
pub fn check<A: Allocator + Clone>(alloc: Global, file: &SmlFile<A>) -> Result<Domain, CheckError>
    requires { HasTexts (file_content file.now) }
    ensures ok { IfOk result (λ d. IsWellFormed (file_content file.now) × IsDomainOf (file_content file.now) d) }
    ensures err { IfErr result (λ e. (e ≡ memory_error)
        ⊎ (Some (e.kind, e.name) ≡ look.first_item (all_faults (file_content file.now)))) }
{
    match Tables::new(alloc, file) {
        Ok(tables) => {
            let domain = domain_by(alloc, &tables);
            drop(tables);
            domain
        }
        Err(_) => Err(CheckError::memory()),
    }
}

// Returns the domain of a well-formed file, by its tables.
fn domain_by<A: Allocator + Clone>(
    alloc: Global,
    tables: &Tables<'_, A>,
) -> Result<Domain, CheckError>
    requires { HasTexts (file_content tables.now.file.now) }
    ensures ok { IfOk result (λ d. IsWellFormed (file_content tables.now.file.now)
        × IsDomainOf (file_content tables.now.file.now) d) }
    ensures err { IfErr result (λ e. (e ≡ memory_error)
        ⊎ (Some (e.kind, e.name) ≡ look.first_item (all_faults (file_content tables.now.file.now)))) }
{
    fault_by(tables)?;
    match build(alloc, tables) {
        Ok(domain) => Ok(domain),
        Err(_) => Err(CheckError::memory()),
    }
}
