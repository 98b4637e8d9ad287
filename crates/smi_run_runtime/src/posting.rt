//! How a session posts a request.
ghost use Rattle.std.specs.Prelude.{◌≡◌, ◌<◌, IfErr, IfOk, length, true};
ghost use Rattle.smi_journal_entries.specs.declared.entry.Sender.TheVariants.{Operator};
ghost use Rattle.smi_journal_entries.specs.Addressing.{address_refusal};
ghost use Rattle.smi_journal_entries.specs.Fits.{letter_fits};
ghost use Rattle.smi_run_runtime.specs.Posts.{AcceptsPost, IsPostError, LeavesOfRefusal, LeavesOfSend};

use crate::errors::PostError;
use crate::runtime::Runtime;
use crate::session::{Session, add_accepted, grow_row};
use smi_journal_entries::{Addressed, Passed, address};
use smi_mail::MailNames;
use smi_run_report::{Accepted, Receipt};
use sml_tree::Name;
use std::alloc::Global;
use std::sync::Wait;

impl<K: MailNames> Session<K> {
    // Sends a request, and notes the answer.
    fn send<R: Wait + Copy + Send, D>(
        &mut self,
        rt: &R,
        runtime: &Runtime<R, K, D>,
        addressed: Addressed,
    ) -> Result<u64, PostError>
        requires within { addressed.object < length K.names.domain.objects }
        requires sender { addressed.envelope.sender ≡ Operator self.old.session }
        requires fits { letter_fits K.names.domain addressed.object addressed.envelope ≡ true }
        requires action { addressed.envelope.action ≡ addressed.action }
        requires args { addressed.envelope.args ≡ addressed.args }
        ensures { LeavesOfSend addressed.object addressed.action addressed.args self.old result self.new }
    {
        let Addressed {
            object,
            action,
            args,
            envelope,
        } = addressed;
        let place = object.get();
        if self.receipts.reserve(1).is_err() {
            return Err(PostError::Memory);
        }
        if grow_row(&mut self.accepted, place).is_err() {
            return Err(PostError::Memory);
        }
        let session = self.end.session();
        if let Some(place) = runtime.dead_at(rt, object) {
            self.receipts.push_reserved(Receipt {
                session,
                object,
                place,
                own: false,
            });
            return Err(PostError::Dead(place));
        }
        let Ok(number) = self.end.post(rt, object, envelope) else {
            return Err(PostError::Full);
        };
        let accepted = Accepted {
            number,
            action,
            args,
        };
        add_accepted(&mut self.accepted, place, accepted);
        runtime.wake(rt, object);
        Ok(number)
    }

    /// Posts a request and returns its number: how many of this session's requests the object had accepted before.
    /// The refusals are looked for in the order of `PostError`; Dead leaves a receipt, and nothing else does.
    ///
    /// The board's lock is held to see whether the object is killed, and once more to wake it; the request is pushed
    /// in between, without the lock. So a kill may come between, and the request is then among what is left. The
    /// cost is that of `address`.
    pub fn post<R: Wait + Copy + Send, D>(
        &mut self,
        rt: &R,
        alloc: Global,
        runtime: &Runtime<R, K, D>,
        object: &Name,
        action: &Name,
        given: &[Passed],
    ) -> Result<u64, PostError>
        ensures accepted { IfOk result
            (AcceptsPost K.names.domain object.now action.now given.now self.old self.new) }
        ensures refused { IfErr result
            (IsPostError (address_refusal K.names.domain object.now action.now given.now)) }
        ensures told { IfErr result (LeavesOfRefusal K.names.domain object.now self.old self.new) }
    {
        let session = self.end.session();
        let addressed = address(alloc, runtime.domain(), session, object, action, given)?;
        self.send(rt, runtime, addressed)
    }
}
