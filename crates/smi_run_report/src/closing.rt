//! How a run is closed: its board's journal and mailboxes, and what its sessions were told, put into one report.
ghost use Rattle.std.specs.Prelude.{◌≡◌, length, map};
ghost use Rattle.smi_run_report.specs.Told.{AreTold, rows_of};
ghost use Rattle.smi_run_report.specs.Reports.{device_count};

use crate::report::Report;
use crate::told::{Accepted, Receipt};
use smi_board::Board;
use smi_mail::{DrainRoom, MailNames, OperatorEnd, RuledMail};
use std::sync::Wait;

impl<D: Drop, K: MailNames> Report<D, K> {
    /// Returns the report of a board that is closed: the ends of all sessions, and what each session was told is
    /// accepted at each object, both in the order of the sessions; the receipts that do not agree with the board's
    /// journal; and the devices. It takes no memory. Tasks that the board keeps are dropped.
    pub fn close<R: Wait + Copy + Send>(
        board: Board<RuledMail<R, K>>,
        room: DrainRoom<K>,
        ends: Vec<OperatorEnd<K>>,
        accepted: Vec<Vec<Vec<Accepted>>>,
        unmet: Vec<Receipt>,
        devices: Vec<D>,
    ) -> Report<D, K>
        requires told { AreTold K.names.sessions ends.items accepted.items }
        requires devices { length devices.items ≡ device_count K.names.domain }
        ensures journal { result.journal ≡ board.journal }
        ensures accepted { result.accepted ≡ map (λ v. rows_of v.items) accepted.items }
        ensures unmet { result.unmet ≡ unmet.items }
    {
        board.tells();
        let (ledger, drained) = board.close_into(room, ends);
        Report {
            ledger,
            accepted,
            drained,
            unmet,
            devices,
        }
    }
}
