//! Lists of a tree's parts: how they are copied and compared. Each step in which a list is copied is a separate
//! function, since each `?` of a caller has to drop all that the caller holds.
ghost use Rattle.std.specs.Prelude.{◌≡◌, ◌↔◌, ◌++◌, ◌∷◌, [], map, IfOk, IsTrue, Ok, OnOk};

use std::alloc::{AllocError, Allocator};

/// Makes an empty list with room for `count` parts.
pub(crate) fn room_for<T, A: Allocator + Clone>(
    alloc: &A,
    count: usize,
) -> Result<Vec<T, A>, AllocError>
    ensures { IfOk result (λ v. v.items ≡ []) }
{
    Ok(Vec::with_capacity(alloc.clone()?, count)?)
}

/// Puts a copy behind the copies before it, if there was memory for it.
pub(crate) fn add<T: Drop, A: Allocator>(
    copies: &mut Vec<T, A>,
    copy: Result<T, AllocError>,
) -> Result<(), AllocError>
    ensures { OnOk result ((x : T) × (copy ≡ Ok x) × (copies.new.items ≡ copies.old.items ++ x ∷ [])) }
{
    copies.push(copy?)?;
    Ok(())
}

/// A part of a tree that is kept in lists, beside the same part in memory of another kind.
pub(crate) trait Part<B: Allocator + Clone> {
    type Other: Drop;

    // What a part says, in any memory.
    ghost Said: { Type 0 };

    ghost said: { Self → Said };

    ghost other_said: { Self.Other → Said };

    fn copy_of(&self, alloc: &B) -> Result<Self::Other, AllocError>
        ensures { IfOk result (λ x. other_said x ≡ said self.now) };

    fn is_same(&self, other: &Self::Other) -> bool
        ensures { IsTrue result ↔ (said self.now ≡ other_said other.now) };
}

/// Copies the parts into other memory.
pub(crate) fn copy_list<T: Part<B>, A: Allocator + Clone, B: Allocator + Clone>(
    list: &Vec<T, A>,
    alloc: &B,
) -> Result<Vec<T::Other, B>, AllocError>
    ensures { IfOk result (λ v. map T.other_said v.items ≡ map T.said list.now.items) }
{
    let mut copies = room_for(alloc, list.len())?;
    for part in list {
        add(&mut copies, part.copy_of(alloc))?;
    }
    Ok(copies)
}

/// Whether two lists have the same parts.
pub(crate) fn same_list<T: Part<B>, A: Allocator + Clone, B: Allocator + Clone>(
    list: &Vec<T, A>,
    other: &Vec<T::Other, B>,
) -> bool
    ensures { IsTrue result ↔ (map T.said list.now.items ≡ map T.other_said other.now.items) }
{
    if list.len() != other.len() {
        return false;
    }
    for (i, part) in list.iter().enumerate() {
        if !part.is_same(&other[i]) {
            return false;
        }
    }
    true
}
