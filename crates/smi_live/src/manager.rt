//! The manager.
ghost use Rattle.std.specs.Prelude.{◌≡◌, ◌<◌, ◌≤◌, ◌+◌, [], ℕ, List, IfOk, None, OnErr, OnOk, false, length, true};
ghost use Rattle.smi_core.specs.Output.{LineWrites};
ghost use Rattle.smi_live_accounts.specs.Accounts.{AccountsTell};
ghost use Rattle.smi_live_once.specs.Carrying.{past_text};
ghost use Rattle.smi_live_once.specs.Making.{KeeperWrites};
ghost use Rattle.smi_live_once.specs.Tables.{with_last_told};
ghost use Rattle.smi_world.specs.World.{opening};
ghost use Rattle.smi_live.specs.Keeping.{FirstOf, IsNeverLogged, MayBeLogged};
ghost use Rattle.smi_live.specs.Managing as managing;
ghost use Rattle.smi_live.specs.Limiting.{logged, room_after};
ghost use Rattle.smi_live.specs.Managing.{IsIdleObject, IsMadeAt};

use crate::again::line_again;
use crate::keeper::Keeper;
use crate::making::try_lines;
use crate::observer::Observer;
use crate::own::{OwnLines, all_lines};
use crate::taking::take_line;
use crate::telling::end_line;
use smi_core::{Core, Taken};
use smi_live_accounts::{Accounts, Recalled};
use smi_live_loop::{Machine, Made};
use std::alloc::{AllocError, Global};
use std::marker::Model;

/// A core with what is kept of what it did, the lines of the manager's own steps, the object whose turn is next, and
/// how many bytes the log may still take.
///
/// It goes round the objects in the order of declaration, from the one after that of its last step on.
/// (docs/FORMATS.md, "A live manager".)
#[derive(Drop)]
pub struct Manager<L> {
    keeper: Keeper,
    own: Vec<OwnLines>,
    turn: usize,
    // How many lines are kept, and how many bytes the log may still take, if there is one.
    lines: usize,
    room: Option<usize>,
    lookout: L,
    alloc: Global,
}

impl<L> Model for Manager<L> {
    ghost use Rattle.std.specs.Prelude.{length};
    ghost use Rattle.std.specs.Coded.{codes};
    ghost use Rattle.sml_domain.specs.Codes.{formula_code};
    ghost use Rattle.smi_live.specs.Keeping.{AreOwn};
    ghost use Rattle.smi_live.specs.Managing.{ManagerView};

    ghost Value = { ManagerView };

    ghost coded = { Prim.hlevel (codes, formula_code) };

    ghost view = { λ m. record { core = m.keeper.core; turn = m.turn; told = m.keeper.told; room = m.room } };

    ghost invariant = { λ m. AreOwn m.keeper.core.setup.domain m.own.items
        (length m.keeper.core.setup.domain.objects) };
}

impl<L: Observer> Manager<L> {
    /// The manager of a core that did nothing yet and starts this many actions at most; it has no line of a log. Its
    /// first turn is that of the first object. The cost is the square of the count of objects. The error is out of
    /// memory.
    pub fn new(
        alloc: Global,
        core: Core,
        max_starts: usize,
        lookout: L,
    ) -> Result<Manager<L>, AllocError>
        requires opening { core.world ≡ opening core.setup }
        requires starts { max_starts ≡ core.setup.max_starts }
        ensures { IfOk result (λ m. m ≡ record { core = core; turn = 0; told = []; room = None }) }
    {
        let own = all_lines(alloc, core.domain())?;
        let keeper = Keeper::new(alloc, core, max_starts)?;
        Ok(Manager {
            keeper,
            own,
            turn: 0,
            lines: 0,
            room: None,
            lookout,
            alloc,
        })
    }

    /// Keeps what a log before had of a name: who asks for the same number again is told `past`, and what became of it,
    /// and only a greater number is made. The cost is the count of names. The error is out of memory; then nothing is
    /// changed of what was told.
    pub fn recall(&mut self, recalled: &Recalled<'_>) -> Result<(), AllocError>
        ensures told { OnOk result (self.new ≡ record self.old {
          told = with_last_told self.old.told (record {
            name = recalled.now.name.now;
            number = recalled.now.number;
            answer = past_text recalled.now.what.now;
          });
        }) }
        ensures same { OnErr result (self.new ≡ self.old) }
    {
        self.keeper.recall(self.alloc, recalled)
    }

    /// The core.
    pub fn core(&self) -> &Core
        ensures { result.now ≡ self.now.core }
    {
        self.keeper.core()
    }

    /// What is kept of what the core did, so that no question about it walks the journal.
    pub fn accounts(&self) -> &Accounts
        ensures told { result.now.told ≡ self.now.told }
        ensures tells { AccountsTell self.now.core.setup.domain self.now.core.world.journal result.now }
    {
        self.keeper.accounts()
    }

    /// Who looks on.
    pub fn observer(&self) -> &L {
        &self.lookout
    }

    /// The lines of a log were made again, of which it has this count; it may still take `room` bytes, if there is one.
    /// From here on, lines are made as they come.
    pub fn begin(&mut self, lines: usize, room: Option<usize>)
        ensures { self.new ≡ record self.old { room = room } }
    {
        self.lines = lines;
        self.room = room;
        self.lookout.begins();
    }

    /// Makes a line of a log again. What one with a mark writes was told last to its name. False if no manager would
    /// have written it there: it is a start or a go that changes nothing, or no step, or its mark is not new, or stands
    /// after what is no request. Then nothing is made. The cost is that of the step. The error is out of memory.
    pub fn make_again(&mut self, line: &[u8], made: &mut Made) -> Result<bool, AllocError>
        ensures made { IfOk result (λ b. b ≡ true
            → KeeperWrites LineWrites (managing.keeper_of self.old) line.now made.new.text.items
            (managing.keeper_of self.new)) }
        ensures same { IfOk result (λ b. b ≡ false → self.new ≡ self.old) }
        ensures logged { IfOk result (λ b. b ≡ true
            → MayBeLogged (managing.keeper_of self.old) line.now (managing.keeper_of self.new)) }
        ensures never { IfOk result (λ b. b ≡ false → IsNeverLogged (managing.keeper_of self.old) line.now) }
        ensures turn { self.new.turn ≡ self.old.turn }
        ensures room { self.new.room ≡ self.old.room }
        ensures setup { self.new.core.setup ≡ self.old.core.setup }
    {
        let taken = self.next_line(line);
        match line_again(self.alloc, &mut self.keeper, &mut self.lookout, taken, made) {
            Ok(true) => {
                self.lines = self.lines.saturating_add(1);
                Ok(true)
            }
            Ok(false) => Ok(false),
            Err(error) => Err(error),
        }
    }

    // A text as the line that follows those that are kept.
    fn next_line<'a>(&self, text: &'a [u8]) -> Taken<'a>
        ensures { result.text.now ≡ text.now }
    {
        Taken {
            number: self.lines.saturating_add(1),
            text,
        }
    }

    // Counts what is kept of what was made: a line, or nothing.
    fn count_line(&mut self, made: &Made)
        ensures { self.new ≡ record self.old { room = room_after self.old.room made.now.kept.items } }
    {
        if !made.kept.is_empty() {
            self.lines = self.lines.saturating_add(1);
        }
        if let Some(room) = self.room {
            self.room = Some(room.saturating_sub(made.kept.len()));
        }
    }

    // How many objects there are.
    fn count(&self) -> usize
        ensures { result ≡ length self.now.core.setup.domain.objects }
    {
        let _core = self.core();
        self.own.len()
    }

    // The object that a round begins with.
    fn first(&self) -> usize
        ensures { result ≡ managing.first_in self.now }
    {
        let count = self.count();
        self.turn.min(count)
    }

    // Tries the steps of an object's own. Whether one was made.
    fn try_at(&mut self, o: usize, made: &mut Made) -> Result<bool, AllocError>
        requires { o < length self.old.core.setup.domain.objects }
        ensures makes { IfOk result (λ b. b ≡ true
            → managing.makes_line self.old made.new.kept.items made.new.text.items self.new) }
        ensures own { IfOk result (λ b. b ≡ true → (line : List ℕ) × (made.new.kept.items ≡ logged line)
            × IsMadeAt self.old.core line o self.new.core) }
        ensures next { IfOk result (λ b. b ≡ true → self.new.turn ≡ o + 1) }
        ensures leaves { IfOk result (λ b. b ≡ true
            → self.new.room ≡ room_after self.old.room made.new.kept.items) }
        ensures idle { IfOk result (λ b. b ≡ false → IsIdleObject self.old.core o) }
        ensures same { IfOk result (λ b. b ≡ false → self.new ≡ self.old) }
    {
        let count = self.count();
        let next = if o < count { o + 1 } else { o };
        let number = self.lines.saturating_add(1);
        match try_lines(
            &mut self.keeper,
            &mut self.lookout,
            o,
            &self.own[o],
            number,
            made,
        ) {
            Ok(true) => match end_line(made) {
                Ok(()) => {
                    self.turn = next;
                    self.count_line(made);
                    Ok(true)
                }
                Err(error) => Err(error),
            },
            Ok(false) => Ok(false),
            Err(error) => Err(error),
        }
    }

    // Tries the steps of objects from one place to before another. Whether one was made.
    #[tactic(auto, using(crate::proofs::Resting::idle_more))]
    fn try_all(&mut self, first: usize, end: usize, made: &mut Made) -> Result<bool, AllocError>
        requires { end ≤ length self.old.core.setup.domain.objects }
        ensures makes { IfOk result (λ b. b ≡ true
            → managing.makes_line self.old made.new.kept.items made.new.text.items self.new) }
        ensures own { IfOk result (λ b. b ≡ true → FirstOf self.old first end made.new.kept.items self.new) }
        ensures idle { IfOk result (λ b. b ≡ false → (o : ℕ) → first ≤ o → o < end → IsIdleObject self.old.core o) }
        ensures same { IfOk result (λ b. b ≡ false → self.new ≡ self.old) }
    {
        for o in first..end {
            match self.try_at(o, made) {
                Ok(false) => {}
                Ok(true) => return Ok(true),
                Err(error) => return Err(error),
            }
        }
        Ok(false)
    }
}

impl<L: Observer> Machine for Manager<L> {
    ghost use Rattle.smi_live.specs.Managing as managing;

    ghost makes = { managing.makes_line };

    ghost is_own = { managing.TakesTurn };

    ghost takes = { managing.ManagerTakesLine };

    ghost rests = { managing.AllRest };

    fn take(&mut self, asked: &[u8], made: &mut Made) -> Result<(), AllocError> {
        let taken = self.next_line(asked);
        let room = self.room;
        match take_line(
            self.alloc,
            room,
            &mut self.keeper,
            &mut self.lookout,
            taken,
            made,
        ) {
            Ok(()) => {
                self.count_line(made);
                Ok(())
            }
            Err(error) => Err(error),
        }
    }

    fn go_on(&mut self, made: &mut Made) -> Result<bool, AllocError> {
        let count = self.count();
        let first = self.first();
        match self.try_all(first, count, made) {
            Ok(true) => Ok(true),
            Ok(false) => self.try_all(0, first, made),
            Err(error) => Err(error),
        }
    }

    fn remark(&mut self, is_asked: bool, remark: &mut Vec<u8>) {
        self.lookout.remark(
            self.keeper.core(),
            self.keeper.accounts(),
            self.room,
            is_asked,
            remark,
        );
    }
}
