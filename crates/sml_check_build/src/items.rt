//! The objects and the sets of a domain.
ghost use Rattle.std.specs.Prelude.{◌≡◌, ◌++◌, All, IfOk, OnOk, map};
ghost use Rattle.sml_tree.specs.Content.{file_content, item_content};
ghost use Rattle.sml_check_build.specs.Numbers.{number, object_list, objects_in, group_list, groups_in};
ghost use Rattle.sml_check_build.specs.Placed.{NameHasNumber, ItemPlaced, FilePlaced, MayPlaced};
ghost use Rattle.sml_check_build.specs.Rows.{object_row, group_row};

use crate::names::Names;
use sml_check_faults::Tables;
use sml_domain::{Group, ObjId, Object};
use sml_tree::{Item, Name};
use std::alloc::{AllocError, Allocator, Global};

// Adds an item, if it is an object.
fn add_object<A: Allocator + Clone>(
    made: &mut Vec<Object>,
    names: &Names,
    item: &Item<A>,
) -> Result<(), AllocError>
    requires { ItemPlaced names.now (item_content item.now) }
    ensures { OnOk result (made.new.items ≡ made.old.items ++ map (object_row names.now)
        (object_list (item_content item.now))) }
{
    if let Item::Object(object) = item {
        let class = names.class(&object.class);
        made.push(Object {
            name: object.name,
            class,
        })?;
    }
    Ok(())
}

/// Returns the objects with the numbers of their classes. The cost is their count times that of classes.
pub fn object_rows<A: Allocator + Clone>(
    alloc: Global,
    names: &Names,
    items: &[Item<A>],
) -> Result<Vec<Object>, AllocError>
    requires { FilePlaced names.now (map item_content items.now) }
    ensures { IfOk result (λ v. v.items ≡ map (object_row names.now) (objects_in (map item_content items.now))) }
{
    let mut made = Vec::new(alloc);
    for item in items {
        add_object(&mut made, names, item)?;
    }
    Ok(made)
}

// Returns the numbers of some objects.
fn numbers(alloc: Global, names: &Names, objects: &[Name]) -> Result<Vec<ObjId>, AllocError>
    requires { All (NameHasNumber names.now.objects) objects.now }
    ensures { IfOk result (λ v. v.items ≡ map (number names.now.objects) objects.now) }
{
    let mut made = Vec::new(alloc);
    for object in objects {
        made.push(names.object(object))?;
    }
    Ok(made)
}

// Adds an item, if it is a set.
fn add_group<A: Allocator + Clone>(
    alloc: Global,
    made: &mut Vec<Group>,
    names: &Names,
    tables: &Tables<'_, A>,
    item: &Item<A>,
) -> Result<(), AllocError>
    requires item { ItemPlaced names.now (item_content item.now) }
    requires may { MayPlaced names.now (file_content tables.now.file.now) }
    ensures { OnOk result (made.new.items ≡ made.old.items
        ++ map (group_row (file_content tables.now.file.now) names.now) (group_list (item_content item.now))) }
{
    if let Item::Group(group) = item {
        let members = numbers(alloc, names, &group.members)?;
        let may = numbers(alloc, names, tables.objects_meant(true, &group.name))?;
        made.push(Group {
            name: group.name,
            members,
            may,
        })?;
    }
    Ok(())
}

/// Returns the sets of a file with the numbers of their members, and of all that they may come to have. The cost is the
/// count of these times that of objects.
pub fn group_rows<A: Allocator + Clone>(
    alloc: Global,
    names: &Names,
    tables: &Tables<'_, A>,
    items: &[Item<A>],
) -> Result<Vec<Group>, AllocError>
    requires items { FilePlaced names.now (map item_content items.now) }
    requires may { MayPlaced names.now (file_content tables.now.file.now) }
    ensures { IfOk result (λ v. v.items ≡ map (group_row (file_content tables.now.file.now) names.now)
        (groups_in (map item_content items.now))) }
{
    let mut made = Vec::new(alloc);
    for item in items {
        add_group(alloc, &mut made, names, tables, item)?;
    }
    Ok(made)
}
