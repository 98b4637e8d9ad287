//! Who looks on while a manager works.
ghost use Rattle.smi_live_accounts.specs.Accounts.{AccountsTell};

use crate::limiting::Unkept;
use smi_core::{Core, Lookout, Taken};
use smi_live_accounts::Accounts;

/// An observer hears of each line that was made, before what it writes is written, and says what is to be told beside
/// the output. What is done here changes nothing of what the manager does, keeps and writes.
pub trait Observer: Lookout + Drop {
    /// The lines of a log were made again: from here on, lines are made as they come.
    fn begins(&mut self);

    /// A line came that is not kept, since the log fills or no start is left. It has the number of the line that is
    /// kept next.
    fn unkept(&mut self, taken: Taken<'_>, why: Unkept);

    /// Writes into `remark` how all stands, if that is asked, and what those who look after the manager have to know.
    /// The log may still take `room` bytes, if there is one. If memory runs out, less is written.
    fn remark(
        &mut self,
        core: &Core,
        accounts: &Accounts,
        room: Option<usize>,
        is_asked: bool,
        remark: &mut Vec<u8>,
    )
        requires { AccountsTell core.now.setup.domain core.now.world.journal accounts.now };
}
