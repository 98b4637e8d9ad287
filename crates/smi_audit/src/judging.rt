//! Judging entries, one kind after another: an entry that breaks no rule of its kind is added, and for one that
//! breaks some the first such rule is reported.
ghost use Rattle.std.specs.Prelude.{◌≡◌, ◌<◌, ◌↔◌, All, IfOk, IsTrue, Some, is_some, length, false, true};
ghost use Rattle.smi_journal_entries.specs.declared.entry.ActionEnd.TheVariants as ends;
ghost use Rattle.smi_journal_entries.specs.declared.entry.Entry.TheVariants as entry;
ghost use Rattle.smi_journal_entries.specs.Words as says;
ghost use Rattle.sml_domain.specs.Lookups as lookups;
ghost use Rattle.smi_journal.specs.HasText.{has_text};
ghost use Rattle.smi_ledger.specs.Tables.{IsKnown};
ghost use Rattle.smi_meaning.specs.Params.{running_at};
ghost use Rattle.smi_meaning.specs.Legal.{IsLegal, MayKill};
ghost use Rattle.smi_audit.specs.Judges.{FirstBroken, JudgeIsKept, Judges, JudgesOwn};
ghost use Rattle.smi_audit.specs.Splitting.{is_two};
ghost use Rattle.smi_audit.specs.Tracks.{IsReadingOf};

use crate::calls::letter;
use crate::judge::{Judge, all_clear, are_states, read_clear};
use crate::tracks::{cut_in, end_in, none_in, post_in, reads_in, see_in, start_in, turn_in};
use smi_audit_follower::laws_of_following;
use smi_audit_rules::Rule;
use smi_interp::objects_for;
use smi_journal::{
    ActionEnd, Args, Cause, Entry, Format, Readings, Sender, Verdict, are_arguments,
};
use smi_meaning::laws_of_params;
use sml_domain::{ActionId, ObjId, SetId, StateId};
use std::alloc::AllocError;

impl Judge {
    // The first rule that a start breaks.
    fn broken_by_start(
        &self,
        o: ObjId,
        sender: &Sender,
        number: u64,
        action: ActionId,
        args: &Args,
    ) -> Option<Rule>
        requires kept { JudgeIsKept self.now }
        requires within { o < length self.now.books.domain.objects }
        requires known { IsKnown (length self.now.books.domain.objects) sender.now }
        ensures { FirstBroken self.now.format self.now.books.domain self.now.books.journal
            (entry.Start o sender.now number action args.now) result }
    {
        if self.is_killed(o) {
            return Some(Rule::Killed);
        }
        if self.books.is_open(o) {
            return Some(Rule::Open);
        }
        if number != self.books.started(sender, o) as u64 {
            return Some(Rule::Number);
        }
        match sender {
            Sender::Object(a) => {
                if !self.is_posted(*a, o, number, action, args) {
                    return Some(Rule::NotSent);
                }
            }
            Sender::Operator(_) => {
                if !are_arguments(args.values(), self.books.domain(), o, action) {
                    return Some(Rule::BadRequest);
                }
            }
        }
        None
    }

    fn start(
        &mut self,
        e: &Entry,
        o: ObjId,
        sender: &Sender,
        number: u64,
        action: ActionId,
        args: &Args,
    ) -> Result<Option<Rule>, AllocError>
        requires kept { JudgeIsKept self.old }
        requires within { o < length self.old.books.domain.objects }
        requires known { IsKnown (length self.old.books.domain.objects) sender.now }
        requires is { e.now ≡ entry.Start o sender.now number action args.now }
        ensures { IfOk result (JudgesOwn self.old self.new (entry.Start o sender.now number action args.now)) }
    {
        match self.broken_by_start(o, sender, number, action, args) {
            Some(rule) => return Ok(Some(rule)),
            None => {}
        }
        let followed = letter(sender, number, action, args)?;
        let state = self.books.state(o);
        start_in(
            &mut self.tracks,
            self.alloc,
            self.format,
            &self.declared,
            &self.domain,
            o,
            state,
            followed,
        )?;
        self.books.add(self.alloc, e)?;
        Ok(None)
    }

    fn post(
        &mut self,
        e: &Entry,
        o: ObjId,
        target: ObjId,
        verdict: &Verdict,
        action: ActionId,
        args: &Args,
    ) -> Result<Option<Rule>, AllocError>
        requires kept { JudgeIsKept self.old }
        requires within { o < length self.old.books.domain.objects }
        requires target { target < length self.old.books.domain.objects }
        requires is { e.now ≡ entry.Post o target verdict.now action args.now }
        ensures { IfOk result (JudgesOwn self.old self.new (entry.Post o target verdict.now action args.now)) }
    {
        if !self.books.is_open(o) {
            return Ok(Some(Rule::NotOpen));
        }
        laws_of_following();
        let sets = self.books.sets();
        let goes = post_in(
            &mut self.tracks,
            self.alloc,
            sets,
            o,
            target,
            verdict,
            action,
            args,
        )?;
        if !goes {
            return Ok(Some(Rule::Meaning));
        }
        if !self.tells_the_dead(target, verdict) {
            return Ok(Some(Rule::Dead));
        }
        if !self.has_number(o, target, verdict) {
            return Ok(Some(Rule::Number));
        }
        self.books.add(self.alloc, e)?;
        Ok(None)
    }

    fn wait(&mut self, e: &Entry, o: ObjId) -> Result<Option<Rule>, AllocError>
        requires kept { JudgeIsKept self.old }
        requires within { o < length self.old.books.domain.objects }
        requires is { e.now ≡ entry.Wait o }
        ensures { IfOk result (JudgesOwn self.old self.new (entry.Wait o)) }
    {
        if !self.books.is_open(o) {
            return Ok(Some(Rule::NotOpen));
        }
        laws_of_following();
        let _sound = self.books.domain().objects();
        let Some(names) = reads_in(&self.tracks, o) else {
            return Ok(Some(Rule::Meaning));
        };
        let sets = self.books.sets();
        let objects = objects_for(self.alloc, self.books.domain(), sets, names)?;
        if all_clear(&self.books, o, &objects) {
            return Ok(Some(Rule::Clear));
        }
        self.books.add(self.alloc, e)?;
        Ok(None)
    }

    fn seen(&mut self, e: &Entry, o: ObjId, readings: &Readings) -> Result<Option<Rule>, AllocError>
        requires kept { JudgeIsKept self.old }
        requires within { o < length self.old.books.domain.objects }
        requires there { All (IsReadingOf (length self.old.books.domain.objects)) readings.now }
        requires is { e.now ≡ entry.Seen o readings.now }
        ensures { IfOk result (JudgesOwn self.old self.new (entry.Seen o readings.now)) }
    {
        if !self.books.is_open(o) {
            return Ok(Some(Rule::NotOpen));
        }
        laws_of_following();
        let list = readings.list();
        let sets = self.books.sets();
        let goes = see_in(&mut self.tracks, self.alloc, sets, o, list)?;
        if !goes {
            return Ok(Some(Rule::Meaning));
        }
        if !read_clear(&self.books, o, list) {
            return Ok(Some(Rule::Busy));
        }
        if !are_states(&self.books, list) {
            return Ok(Some(Rule::Reading));
        }
        self.books.add(self.alloc, e)?;
        Ok(None)
    }

    // Whether the state of an object declares the action that is open there.
    fn runs(&self, o: ObjId) -> bool
        requires { o < length self.now.books.domain.objects }
        ensures { result ≡ is_some (running_at self.now.format self.now.books.domain o self.now.books.journal) }
    {
        match self.books.opened(o) {
            Some(letter) => {
                let state = self.books.state(o);
                self.books.domain().declares(o, state, letter.action)
            }
            None => false,
        }
    }

    // Where an action is open: it is skipped.
    fn skip(&mut self, e: &Entry, o: ObjId) -> Result<Option<Rule>, AllocError>
        requires kept { JudgeIsKept self.old }
        requires within { o < length self.old.books.domain.objects }
        requires open { says.is_open o self.old.books.journal ≡ true }
        requires is { e.now ≡ entry.End o ends.Skipped }
        ensures { IfOk result (JudgesOwn self.old self.new (entry.End o ends.Skipped)) }
    {
        if self.runs(o) {
            return Ok(Some(Rule::Meaning));
        }
        cut_in(&mut self.tracks, o);
        self.books.add(self.alloc, e)?;
        Ok(None)
    }

    // Where an action of a device is open: it ends in a state.
    fn end_device(
        &mut self,
        e: &Entry,
        o: ObjId,
        state: StateId,
    ) -> Result<Option<Rule>, AllocError>
        requires kept { JudgeIsKept self.old }
        requires within { o < length self.old.books.domain.objects }
        requires open { says.is_open o self.old.books.journal ≡ true }
        requires device { lookups.associated_at self.old.books.domain o ≡ true }
        requires is { e.now ≡ entry.End o (ends.State state) }
        ensures { IfOk result (JudgesOwn self.old self.new (entry.End o (ends.State state))) }
    {
        if !self.runs(o) {
            return Ok(Some(Rule::Meaning));
        }
        if !self.books.domain().is_state(o, state) {
            return Ok(Some(Rule::NotAState));
        }
        cut_in(&mut self.tracks, o);
        self.books.add(self.alloc, e)?;
        Ok(None)
    }

    // Where an action is open that no device does: it ends in a state.
    fn end_block(&mut self, e: &Entry, o: ObjId, state: StateId) -> Result<Option<Rule>, AllocError>
        requires kept { JudgeIsKept self.old }
        requires within { o < length self.old.books.domain.objects }
        requires open { says.is_open o self.old.books.journal ≡ true }
        requires logical { lookups.associated_at self.old.books.domain o ≡ false }
        requires is { e.now ≡ entry.End o (ends.State state) }
        ensures { IfOk result (JudgesOwn self.old self.new (entry.End o (ends.State state))) }
    {
        laws_of_following();
        laws_of_params();
        let Some(end) = end_in(&mut self.tracks, o) else {
            return Ok(Some(Rule::Meaning));
        };
        if end.get() != state.get() {
            return Ok(Some(Rule::Meaning));
        }
        self.books.add(self.alloc, e)?;
        Ok(None)
    }

    fn end(&mut self, e: &Entry, o: ObjId, how: &ActionEnd) -> Result<Option<Rule>, AllocError>
        requires kept { JudgeIsKept self.old }
        requires within { o < length self.old.books.domain.objects }
        requires is { e.now ≡ entry.End o how.now }
        ensures { IfOk result (JudgesOwn self.old self.new (entry.End o how.now)) }
    {
        if !self.books.is_open(o) {
            return Ok(Some(Rule::NotOpen));
        }
        match how {
            ActionEnd::Skipped => self.skip(e, o),
            ActionEnd::State(state) => {
                if self.books.domain().associated(o) {
                    self.end_device(e, o, *state)
                } else {
                    self.end_block(e, o, *state)
                }
            }
        }
    }

    // Whether a cause may kill an object.
    fn may_kill(&self, o: ObjId, cause: &Cause) -> bool
        requires { o < length self.now.books.domain.objects }
        ensures { IsTrue result ↔ MayKill self.now.books.domain self.now.books.journal o cause.now }
    {
        match cause {
            Cause::By(_) => true,
            Cause::Fault => self.books.domain().associated(o) && self.books.is_open(o),
        }
    }

    fn kill(&mut self, e: &Entry, o: ObjId, cause: &Cause) -> Result<Option<Rule>, AllocError>
        requires kept { JudgeIsKept self.old }
        requires within { o < length self.old.books.domain.objects }
        requires is { e.now ≡ entry.Kill o cause.now }
        ensures { IfOk result (JudgesOwn self.old self.new (entry.Kill o cause.now)) }
    {
        if self.is_killed(o) {
            return Ok(Some(Rule::Killed));
        }
        if !self.may_kill(o, cause) {
            return Ok(Some(Rule::NotOpen));
        }
        cut_in(&mut self.tracks, o);
        self.books.add(self.alloc, e)?;
        Ok(None)
    }

    // Whether the format has entries of sets that change, and of sets without members.
    fn tells_of_sets(&self) -> bool
        ensures { result ≡ is_two self.now.format }
    {
        match self.format {
            Format::One => false,
            Format::Two => true,
        }
    }

    fn insert(
        &mut self,
        e: &Entry,
        o: ObjId,
        member: ObjId,
        set: SetId,
    ) -> Result<Option<Rule>, AllocError>
        requires kept { JudgeIsKept self.old }
        requires within { o < length self.old.books.domain.objects }
        requires member { member < length self.old.books.domain.objects }
        requires is { e.now ≡ entry.Insert o member set }
        ensures { IfOk result (JudgesOwn self.old self.new (entry.Insert o member set)) }
    {
        if !self.books.is_open(o) {
            return Ok(Some(Rule::NotOpen));
        }
        if !self.tells_of_sets() {
            return Ok(Some(Rule::Meaning));
        }
        laws_of_following();
        let goes = turn_in(&mut self.tracks, o, true, member, set)?;
        if !goes {
            return Ok(Some(Rule::Meaning));
        }
        self.books.add(self.alloc, e)?;
        Ok(None)
    }

    fn remove(
        &mut self,
        e: &Entry,
        o: ObjId,
        member: ObjId,
        set: SetId,
    ) -> Result<Option<Rule>, AllocError>
        requires kept { JudgeIsKept self.old }
        requires within { o < length self.old.books.domain.objects }
        requires member { member < length self.old.books.domain.objects }
        requires is { e.now ≡ entry.Remove o member set }
        ensures { IfOk result (JudgesOwn self.old self.new (entry.Remove o member set)) }
    {
        if !self.books.is_open(o) {
            return Ok(Some(Rule::NotOpen));
        }
        if !self.tells_of_sets() {
            return Ok(Some(Rule::Meaning));
        }
        laws_of_following();
        let goes = turn_in(&mut self.tracks, o, false, member, set)?;
        if !goes {
            return Ok(Some(Rule::Meaning));
        }
        self.books.add(self.alloc, e)?;
        Ok(None)
    }

    fn no_member(&mut self, e: &Entry, o: ObjId, set: SetId) -> Result<Option<Rule>, AllocError>
        requires kept { JudgeIsKept self.old }
        requires within { o < length self.old.books.domain.objects }
        requires is { e.now ≡ entry.NoMember o set }
        ensures { IfOk result (JudgesOwn self.old self.new (entry.NoMember o set)) }
    {
        if !self.books.is_open(o) {
            return Ok(Some(Rule::NotOpen));
        }
        if !self.tells_of_sets() {
            return Ok(Some(Rule::Meaning));
        }
        laws_of_following();
        let sets = self.books.sets();
        let goes = none_in(&mut self.tracks, self.alloc, sets, o, set)?;
        if !goes {
            return Ok(Some(Rule::Meaning));
        }
        self.books.add(self.alloc, e)?;
        Ok(None)
    }

    // Judges an entry that has a text by the rules of its kind, and adds it if it breaks none of them.
    fn take_own(&mut self, e: &Entry) -> Result<Option<Rule>, AllocError>
        requires kept { JudgeIsKept self.old }
        requires text { has_text self.old.books.domain e.now ≡ true }
        ensures { IfOk result (JudgesOwn self.old self.new e.now) }
    {
        match e {
            Entry::Start {
                object,
                sender,
                number,
                action,
                args,
            } => self.start(e, *object, sender, *number, *action, args),
            Entry::Post {
                sender,
                target,
                verdict,
                action,
                args,
            } => self.post(e, *sender, *target, verdict, *action, args),
            Entry::Wait { object } => self.wait(e, *object),
            Entry::Seen { object, readings } => self.seen(e, *object, readings),
            Entry::End {
                object,
                result: how,
            } => self.end(e, *object, how),
            Entry::Kill { object, cause } => self.kill(e, *object, cause),
            Entry::Insert {
                object,
                member,
                set,
            } => self.insert(e, *object, *member, *set),
            Entry::Remove {
                object,
                member,
                set,
            } => self.remove(e, *object, *member, *set),
            Entry::NoMember { object, set } => self.no_member(e, *object, *set),
        }
    }

    // Judges an entry that has a text, and adds it if it breaks no rule.
    pub(crate) fn take(&mut self, e: &Entry) -> Result<Option<Rule>, AllocError>
        requires kept { JudgeIsKept self.old }
        requires legal { IsLegal self.old.format self.old.books.domain self.old.books.journal }
        requires text { has_text self.old.books.domain e.now ≡ true }
        ensures { IfOk result (Judges self.old self.new e.now) }
    {
        if self.splits(e) {
            return Ok(Some(Rule::Split));
        }
        let broken = self.take_own(e)?;
        Ok(broken)
    }
}
