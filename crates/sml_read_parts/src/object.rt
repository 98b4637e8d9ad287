//! The objects and sets of a file.
ghost use Rattle.std.specs.Prelude.{◌∷◌, OnOk};
ghost use Rattle.sml_tree.specs.Form.{Members};
ghost use Rattle.sml_tree.specs.Content.{item_content};
ghost use Rattle.sml_tree.specs.declared.token_kind.TokenKind.TheVariants as kinds;
ghost use Rattle.sml_read_parts.specs.Counts.{file_part, CountsAreWithin};
ghost use Rattle.sml_read_parts.specs.Reads.{Reads, ReadsFront, SeesKind};

use crate::fault::Stop;
use crate::make;
use crate::reader::Reader;
use sml_tree::{Group, Item, MAX_MEMBERS, MAX_OBJECTS, MAX_SETS, Name, Object, TokenKind};
use std::alloc::Allocator;

/// How many items of each sort a file has.
#[derive(Drop)]
pub struct Counts {
    pub classes: usize,
    pub objects: usize,
    pub sets: usize,
}

impl Reader<'_> {
    /// Reads the object that is in front, of a file that has `counts` items before it.
    pub fn object<A: Allocator + Clone>(&mut self, counts: &mut Counts) -> Result<Item<A>, Stop>
        requires at_object { SeesKind kinds.Object self.old }
        requires within { CountsAreWithin counts.old }
        ensures next { ReadsFront (file_part counts.old) (file_part counts.new)
            (λ i v. item_content i ∷ v) self.old self.new result }
        ensures within { OnOk result (CountsAreWithin counts.new) }
    {
        let name = self.head(counts.objects, MAX_OBJECTS)?;
        self.sign(TokenKind::IsOfClass)?;
        let class = self.named()?;
        counts.objects += 1;
        Ok(Item::Object(Object { name, class }))
    }

    /// Reads the members of a set.
    fn members<A: Allocator + Clone>(&mut self, alloc: &A) -> Result<Vec<Name, A>, Stop>
        ensures { Reads Members (λ v. v.items) self.old self.new result }
    {
        if !self.stands(TokenKind::Name) {
            return make::empty_list(alloc);
        }
        let mut members = make::one_item(alloc, self.take().name())?;
        'more: while self.skip(TokenKind::Comma) {
            let member = self.limited(members.len(), MAX_MEMBERS);
            members = make::appended(members, member)?;
        }
        Ok(members)
    }

    /// Reads the set that is in front, of a file that has `counts` items before it.
    pub fn set<A: Allocator + Clone>(
        &mut self,
        alloc: &A,
        counts: &mut Counts,
    ) -> Result<Item<A>, Stop>
        requires at_set { SeesKind kinds.ObjectSet self.old }
        requires within { CountsAreWithin counts.old }
        ensures next { ReadsFront (file_part counts.old) (file_part counts.new)
            (λ i v. item_content i ∷ v) self.old self.new result }
        ensures within { OnOk result (CountsAreWithin counts.new) }
    {
        let name = self.head(counts.sets, MAX_SETS)?;
        self.sign(TokenKind::OpenBrace)?;
        let read = self.members(alloc);
        let members = self.ended(TokenKind::CloseBrace, read)?;
        counts.sets += 1;
        Ok(Item::Group(Group { name, members }))
    }
}
