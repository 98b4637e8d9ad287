//! What an action does next, with its names expanded.

use smi_audit::{Expected, Past};
use smi_interp::{Post, Wanted, objects_for, posts_for};
use smi_journal::Members;
use sml_domain::{Domain, ObjId, SetId, StateId, Target};
use std::alloc::{AllocError, Global};

/// What an action does next, where sets have the members that they have now.
#[derive(Drop)]
pub enum Next {
    /// It posts this.
    Post(Post),
    /// It sends to a set that has no member.
    Nobody(SetId),
    /// It reads these objects.
    Read(Vec<ObjId>),
    /// It puts an object into a set, or takes it out.
    Change {
        add: bool,
        member: ObjId,
        set: SetId,
    },
    /// It ends in this state.
    End(StateId),
}

fn copy_of(post: &Post) -> Result<Post, AllocError> {
    Ok(Post {
        target: post.target,
        action: post.action,
        args: post.args.share()?,
    })
}

// The first post of a `do`, or that its set has no member.
fn first_of(
    alloc: Global,
    domain: &Domain,
    members: &Members,
    wanted: &Wanted,
) -> Result<Option<Next>, AllocError> {
    let posts = posts_for(alloc, domain, members, wanted)?;
    match posts.first() {
        Some(post) => Ok(Some(Next::Post(copy_of(post)?))),
        None => match wanted.target {
            Target::Members(set) => Ok(Some(Next::Nobody(set))),
            Target::One(_) => Ok(None),
        },
    }
}

/// What the action that runs at an object does next, or None if none runs there. The cost is that of the members of a
/// set to which it sends, and of the objects that it reads. The error is out of memory.
pub fn next_of(alloc: Global, past: &Past, o: ObjId) -> Result<Option<Next>, AllocError> {
    let books = past.books();
    let domain = books.domain();
    if !domain.has(o) {
        return Ok(None);
    }
    let Some(expected) = past.next(o) else {
        return Ok(None);
    };
    match &expected {
        Expected::Post(post) => Ok(Some(Next::Post(copy_of(post)?))),
        Expected::Send(wanted) => first_of(alloc, domain, books.sets(), wanted),
        Expected::Read(names) => {
            let objects = objects_for(alloc, domain, books.sets(), names)?;
            Ok(Some(Next::Read(objects)))
        }
        Expected::Change { add, member, set } => Ok(Some(Next::Change {
            add: *add,
            member: *member,
            set: *set,
        })),
        Expected::End(state) => Ok(Some(Next::End(*state))),
    }
}
