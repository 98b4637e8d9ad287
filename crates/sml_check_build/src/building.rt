//! The domain of a file.
ghost use Rattle.std.specs.Prelude.{◌≡◌, ◌++◌, IfOk, OnOk, length, map};
ghost use Rattle.sml_tree.specs.Content.{file_content, item_content};
ghost use Rattle.sml_check_faults.specs.Kinds.{IsWellFormed};
ghost use Rattle.sml_domain.specs.Lookups.{name_of_object};
ghost use Rattle.sml_check_build.specs.Texts.{HasTexts};
ghost use Rattle.sml_check_build.specs.Numbers.{classes_in, objects_in, groups_in};
ghost use Rattle.sml_check_build.specs.Placed.{FilePlaced, MayPlaced};
ghost use Rattle.sml_check_build.specs.Rows as rows;
ghost use Rattle.sml_check_build.specs.Layout.{rows_from, blocks_from, class_laid, class_blocks, blocks_of_class};
ghost use Rattle.sml_check_build.specs.FileDomain.{IsDomainOf};

use crate::blocks::Blocks;
use crate::classes::class_rows;
use crate::items::{group_rows, object_rows};
use crate::names::Names;
use sml_check_faults::Tables;
use sml_domain::{Class, Domain, Group, Instr, NumberedNames, Object};
use sml_tree::Item;
use std::alloc::{AllocError, Allocator, Global};
use std::marker::Model;

// The parts of a domain.
#[derive(Drop)]
struct Parts {
    objects: Vec<Object>,
    object_names: NumberedNames,
    classes: Vec<Class>,
    groups: Vec<Group>,
    states: NumberedNames,
    actions: NumberedNames,
    blocks: Vec<Vec<Instr>>,
}

impl Model for Parts {
    ghost use Rattle.std.specs.Prelude.{◌≡◌, map};
    ghost use Rattle.std.specs.Coded.{codes};
    ghost use Rattle.sml_domain.specs.Codes.{formula_code};
    ghost use Rattle.sml_domain.specs.Domain as plain;
    ghost use Rattle.sml_domain.specs.Lookups.{name_of_object};

    ghost Value = { plain.Domain };

    ghost coded = { Prim.hlevel (codes, formula_code) };

    ghost view = { λ d. record {
      objects = d.objects.items;
      classes = d.classes.items;
      groups = d.groups.items;
      states = d.states;
      actions = d.actions;
      blocks = map plain.block_items d.blocks.items;
    } };

    ghost invariant = { λ d. d.object_names ≡ map name_of_object d.objects.items };
}

// The rows of a domain.
#[derive(Drop)]
struct Listed {
    objects: Vec<Object>,
    classes: Vec<Class>,
    groups: Vec<Group>,
}

// Returns the rows of the items of a file, whose blocks are put behind the others.
fn all_rows<A: Allocator + Clone>(
    alloc: Global,
    blocks: &mut Blocks,
    names: &Names,
    tables: &Tables<'_, A>,
    items: &[Item<A>],
) -> Result<Listed, AllocError>
    requires items { FilePlaced names.now (map item_content items.now) }
    requires may { MayPlaced names.now (file_content tables.now.file.now) }
    ensures objects { IfOk result (λ d. d.objects.items ≡ map (rows.object_row names.now)
        (objects_in (map item_content items.now))) }
    ensures groups { IfOk result (λ d. d.groups.items
        ≡ map (rows.group_row (file_content tables.now.file.now) names.now) (groups_in (map item_content items.now))) }
    ensures classes { IfOk result (λ d. d.classes.items ≡ rows_from (class_laid names.now) blocks_of_class
        (length blocks.old) (classes_in (map item_content items.now))) }
    ensures blocks { OnOk result (blocks.new ≡ blocks.old ++ blocks_from (class_blocks names.now) blocks_of_class
        (length blocks.old) (classes_in (map item_content items.now))) }
{
    let classes = class_rows(alloc, blocks, names, items)?;
    let objects = object_rows(alloc, names, items)?;
    let groups = group_rows(alloc, names, tables, items)?;
    Ok(Listed {
        objects,
        classes,
        groups,
    })
}

// Rows, names and blocks as the parts of a domain.
fn parts_of(listed: Listed, names: Names, blocks: Blocks) -> Parts
    requires { names.objects ≡ map name_of_object listed.objects.items }
    ensures { result ≡ record {
      objects = listed.objects.items;
      classes = listed.classes.items;
      groups =
          listed.groups.items;
      states = names.states;
      actions = names.actions;
      blocks = blocks;
    } }
{
    Parts {
        objects: listed.objects,
        object_names: names.objects,
        classes: listed.classes,
        groups: listed.groups,
        states: names.states,
        actions: names.actions,
        blocks: blocks.into_vec(),
    }
}

// Returns the parts of the domain of a file.
fn lay_out<A: Allocator + Clone>(alloc: Global, tables: &Tables<'_, A>) -> Result<Parts, AllocError>
    requires well_formed { IsWellFormed (file_content tables.now.file.now) }
    requires texts { HasTexts (file_content tables.now.file.now) }
    ensures { IfOk result (IsDomainOf (file_content tables.now.file.now)) }
{
    let items = &tables.file.items;
    let names = Names::of(alloc, items)?;
    let mut blocks = Blocks::new(alloc);
    let listed = all_rows(alloc, &mut blocks, &names, tables, items)?;
    Ok(parts_of(listed, names, blocks))
}

/// Returns the domain of a well-formed file (docs/LANGUAGE.md, "Well-formed files"), by its tables: `sml_check::check`
/// calls it if a file has no fault. The cost is that of `check` without that of looking for a fault.
///
/// An error means out of memory.
pub fn build<A: Allocator + Clone>(
    alloc: Global,
    tables: &Tables<'_, A>,
) -> Result<Domain, AllocError>
    requires well_formed { IsWellFormed (file_content tables.now.file.now) }
    requires texts { HasTexts (file_content tables.now.file.now) }
    ensures { IfOk result (IsDomainOf (file_content tables.now.file.now)) }
{
    let Parts {
        objects,
        object_names,
        classes,
        groups,
        states,
        actions,
        blocks,
    } = lay_out(alloc, tables)?;
    Ok(Domain::from_parts(
        objects,
        object_names,
        classes,
        groups,
        states,
        actions,
        blocks,
    ))
}
