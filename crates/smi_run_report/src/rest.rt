//! What a report says of a run that ended.
ghost use Rattle.std.specs.Prelude.{◌≡◌, ◌<◌, ◌↔◌, IsTrue, length};
ghost use Rattle.smi_run_report.specs.Rests.{IsAtRest, IsLeftAtStopped, IsResting, IsStopped};

use crate::report::Report;
use smi_mail::MailNames;
use sml_domain::ObjId;

impl<D: Drop, K: MailNames> Report<D, K> {
    // Whether no action is open at an object, or it is logical and waits.
    fn rests(&self, o: ObjId) -> bool
        requires { o < length K.names.domain.objects }
        ensures { IsTrue result ↔ IsResting K.names.domain self.now.journal o }
    {
        let ledger = &self.ledger;
        !ledger.is_open(o) || (!ledger.domain().associated(o) && ledger.waits(o))
    }

    /// Whether each object whose action is open is logical and waits. The cost is the count of objects.
    pub fn is_at_rest(&self) -> bool
        ensures { IsTrue result ↔ IsAtRest K.names.domain self.now.journal }
    {
        for o in 0..self.ledger.domain().objects() {
            if !self.rests(ObjId::new(o)) {
                return false;
            }
        }
        true
    }

    // Whether nothing is left at an object, or it is open or killed.
    fn stops(&self, o: ObjId) -> bool
        requires { o < length K.names.domain.objects }
        ensures { IsTrue result ↔ IsStopped self.now.journal self.now.drained o }
    {
        self.left(o).is_empty() || self.ledger.is_open(o) || self.ledger.killed(o).is_some()
    }

    /// Whether all that is left is at objects whose action is open, or which are killed. The cost is the count of
    /// objects.
    pub fn is_left_at_stopped(&self) -> bool
        ensures { IsTrue result ↔ IsLeftAtStopped K.names.domain self.now.journal self.now.drained }
    {
        for o in 0..self.ledger.domain().objects() {
            if !self.stops(ObjId::new(o)) {
                return false;
            }
        }
        true
    }
}
