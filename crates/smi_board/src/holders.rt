//! With which object each object is listed, which holds it.
ghost use Rattle.std.specs.Prelude.{◌≡◌, ◌<◌, ℕ, Some, None, IfNone, IfOk, IfSome, length, slice_set};
ghost use Rattle.smi_board.specs.Holders.{holder_of};

use sml_domain::ObjId;
use std::alloc::{AllocError, Global};
use std::marker::Model;

/// With which object each object is listed, which holds it. There is room for all.
#[derive(Drop)]
pub(crate) struct Holders {
    /// The object that each is listed with.
    holders: Vec<Option<ObjId>>,
    /// The first that is listed with each.
    firsts: Vec<Option<ObjId>>,
    /// The one behind each, listed with the same object. It says nothing if the object is not listed.
    nexts: Vec<Option<ObjId>>,
}

impl Model for Holders {
    ghost use Rattle.std.specs.Prelude.{ℕ, List, Option};
    ghost use Rattle.smi_board.specs.Holders.{AreLinked};

    ghost Value = { List (Option ℕ) };

    ghost view = { λ h. h.holders.items };

    ghost invariant = { λ h. AreLinked h.holders.items h.firsts.items h.nexts.items };
}

impl Holders {
    // Room for `places` objects, none of which is listed.
    pub(crate) fn new(alloc: Global, places: usize) -> Result<Holders, AllocError>
        ensures count { IfOk result (λ h. length h ≡ places) }
        ensures none { IfOk result (λ h. (o : ℕ) → holder_of h o ≡ None) }
    {
        Ok(Holders {
            holders: vec![in alloc; None; places]?,
            firsts: vec![in alloc; None; places]?,
            nexts: vec![in alloc; None; places]?,
        })
    }

    // Lists an object with one that holds it. Takes no memory. The cost is constant.
    pub(crate) fn list(&mut self, o: ObjId, holder: ObjId)
        requires within { o < length self.old }
        requires there { holder < length self.old }
        requires free { holder_of self.old o ≡ None }
        ensures { self.new ≡ slice_set self.old o (Some holder) }
    {
        self.nexts[o.get()] = self.firsts[holder.get()];
        self.firsts[holder.get()] = Some(o);
        self.holders[o.get()] = Some(holder);
    }

    // One of those that are listed with an object, which is listed no more. Takes no memory. The cost is constant.
    pub(crate) fn take(&mut self, holder: ObjId) -> Option<ObjId>
        requires { holder < length self.old }
        ensures within { IfSome result (λ o. o < length self.old) }
        ensures held { IfSome result (λ o. holder_of self.old o ≡ Some holder) }
        ensures free { IfSome result (λ o. self.new ≡ slice_set self.old o None) }
        ensures none { IfNone result ((o : ℕ) → holder_of self.old o ≡ Some holder → ⊥) }
        ensures same { IfNone result (self.new ≡ self.old) }
    {
        let o = self.firsts[holder.get()]?;
        self.firsts[holder.get()] = self.nexts[o.get()];
        self.holders[o.get()] = None;
        Some(o)
    }
}
