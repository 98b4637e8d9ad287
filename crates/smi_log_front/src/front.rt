//! What the front of a log says.

use smi_carried::Carried;
use smi_journal::SessionId;
use sml_domain::ObjId;
use sml_outset::Outset;
use std::marker::Model;

/// A dead object, and the session that kills it again: the one that killed it, or session 1 where a fault did.
#[derive(Clone, Copy)]
pub struct FrontKill {
    pub object: ObjId,
    pub session: SessionId,
}

/// All that the front of a log says.
#[derive(Drop)]
pub struct Front {
    /// The SHA-1 of the canonical text of the domain.
    pub domain_sum: Vec<u8>,
    /// How many requests each mailbox has room for.
    pub capacity: usize,
    pub outset: Outset,
    pub carried: Carried,
    /// Each dead object, in the order of their numbers.
    pub kills: Vec<FrontKill>,
    /// The SHA-1 of all bytes of the log before.
    pub log_sum: Vec<u8>,
}

impl Model for Front {
    ghost use Rattle.smi_log_front.specs.Front.{FrontView};

    ghost Value = { FrontView };

    ghost view = { λ f. record {
      domain_sum = f.domain_sum.items;
      capacity = f.capacity;
      outset = f.outset;
      carried = f.carried;
      kills = f.kills.items;
      log_sum = f.log_sum.items;
    } };
}
