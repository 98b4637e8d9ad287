//! The items of a file.
ghost use Rattle.std.specs.Prelude.{◌∷◌, [], map, OnOk};
ghost use Rattle.sml_tree.specs.Form.{File};
ghost use Rattle.sml_tree.specs.Content.{item_content};
ghost use Rattle.sml_tree.specs.declared.token_kind.TokenKind.TheVariants as kinds;
ghost use Rattle.sml_read_parts.specs.Counts.{file_part, CountsAreWithin};
ghost use Rattle.sml_read_parts.specs.Reads.{Reads, ReadsNext, ReadsFront, SeesKind};

use crate::state::states;
use sml_read_parts::{Counts, Reader, Stop, appended, as_some, empty_list};
use sml_tree::{Class, Item, MAX_CLASSES, TokenKind};
use std::alloc::Allocator;

/// Reads the class in front, of a file that has `counts` items before it.
fn class<A: Allocator + Clone>(
    reader: &mut Reader<'_>,
    alloc: &A,
    counts: &mut Counts,
) -> Result<Item<A>, Stop>
    requires at_class { SeesKind kinds.Class reader.old }
    requires within { CountsAreWithin counts.old }
    ensures next { ReadsFront (file_part counts.old) (file_part counts.new)
        (λ i v. item_content i ∷ v) reader.old reader.new result }
    ensures within { OnOk result (CountsAreWithin counts.new) }
{
    let name = reader.head(counts.classes, MAX_CLASSES)?;
    let associated = reader.associated()?;
    let params = reader.class_params(alloc)?;
    let states = states(reader, alloc)?;
    counts.classes += 1;
    Ok(Item::Class(Class {
        name,
        associated,
        params,
        states,
    }))
}

/// Reads the next item of a file that has `counts` items before it, if there is one.
fn next_item<A: Allocator + Clone>(
    reader: &mut Reader<'_>,
    alloc: &A,
    counts: &mut Counts,
) -> Result<Option<Item<A>>, Stop>
    requires { CountsAreWithin counts.old }
    ensures next { ReadsNext (file_part counts.old) (file_part counts.new) (λ i v. item_content i ∷ v)
        [] reader.old reader.new result }
    ensures within { OnOk result (CountsAreWithin counts.new) }
{
    match reader.peek() {
        Some(TokenKind::Class) => as_some(class(reader, alloc, counts)),
        Some(TokenKind::Object) => as_some(reader.object(counts)),
        Some(TokenKind::ObjectSet) => as_some(reader.set(alloc, counts)),
        _ => Ok(None),
    }
}

/// Reads the items of a file.
pub fn file<A: Allocator + Clone>(
    reader: &mut Reader<'_>,
    alloc: &A,
) -> Result<Vec<Item<A>, A>, Stop>
    ensures { Reads (File 0 0 0) (λ v. map item_content v.items) reader.old reader.new result }
{
    let mut items = empty_list(alloc)?;
    let mut counts = Counts {
        classes: 0,
        objects: 0,
        sets: 0,
    };
    'more: while let Some(item) = next_item(reader, alloc, &mut counts)? {
        items = appended(items, Ok(item))?;
    }
    Ok(items)
}
