//! What the lock holds: a board over mailboxes that threads share, and the workers.
ghost use Rattle.std.specs.Prelude.{◌≡◌, ◌↔◌, ◌⊎◌, ◌<◌, ◌++◌, ◌∷◌, [], IfErr, IfOk, IfSome, IsSome, false, length, true};
ghost use Rattle.smi_journal_entries.specs.declared.entry.Cause.TheVariants as cause;
ghost use Rattle.smi_journal_entries.specs.declared.entry.Entry.TheVariants as entry;
ghost use Rattle.smi_journal_entries.specs.Words as says;
ghost use Rattle.smi_board.specs.Refusals.{IsKillError, kill_refusal, start_refusal};
ghost use Rattle.smi_board.specs.Rings.{with_one};
ghost use Rattle.smi_board.specs.Waking.{IsQuiet, NothingNext};
ghost use Rattle.smi_run_shared.specs.declared.job.Job.TheVariants.{Memory, Rest};
ghost use Rattle.smi_run_shared.specs.Crews.{makes_way};
ghost use Rattle.smi_run_shared.specs.Jobs.{IsJobIn, IsTaskIn, object_started};
ghost use Rattle.smi_run_shared.specs.Keeping.{IsSharedBoard, entries_of_answer};
ghost use Rattle.smi_run_shared.specs.Notices.{IsOver, NotifiesWanted, end_by};
ghost use Rattle.smi_run_shared.specs.Works.{GivesBack, GivesNext, GivesStart, IsPutBack, limited_by};

use crate::crew::{Crew, Notify};
use crate::device::DeviceFault;
use crate::ending::ServeEnd;
use crate::job::Job;
use smi_board::{Board, ContactError, KillError, Reply, StartError, Started, Work};
use smi_interp::Task;
use smi_journal_entries::SessionId;
use smi_mail::{MailNames, RuledMail};
use sml_domain::{ObjId, StateId};
use std::sync::Wait;

/// What the lock of a run holds.
#[derive(Drop)]
pub struct Shared<R: Wait + Copy + Send, K: MailNames> {
    /// The board, over the mailboxes that `K` names.
    pub board: Board<RuledMail<R, K>>,
    // How many sessions have not left.
    pub(crate) sessions: usize,
    // How many posts of sessions woke their objects.
    pub(crate) posts: u64,
    // The workers.
    pub(crate) crew: Crew,
    // Whether a start was refused since there were as many starts as may be.
    is_limited: bool,
}

// The object that may start a request, by its number.
fn startable(work: &Work) -> Option<usize>
    ensures { result ≡ object_started work.now }
{
    match work {
        Work::Start(o) => Some(o.get()),
        Work::Resume(_) => None,
    }
}

impl<R: Wait + Copy + Send, K: MailNames> Shared<R, K> {
    /// Returns the state at the beginning of a run, with `sessions` sessions and no worker (`Crew::new`).
    pub fn new(board: Board<RuledMail<R, K>>, sessions: usize, crew: Crew) -> Shared<R, K>
        ensures board { result.board ≡ board }
        ensures sessions { result.sessions ≡ sessions }
        ensures crew { result.crew ≡ crew }
        ensures limited { result.is_limited ≡ false }
    {
        Shared {
            board,
            sessions,
            posts: 0,
            crew,
            is_limited: false,
        }
    }

    /// A law, whose function does nothing: what holds whenever the lock is got. The board is one of the domain that
    /// `K` names, its journal is legal, its starts are what was taken of its mailboxes, and its accepted posts are
    /// what its objects sent.
    pub fn keeps(&self)
        ensures { IsSharedBoard K.names.domain self.now.board }
    {
        self.board.tells();
    }

    /// The place of the kill of an object in the journal, or None if it is not killed.
    pub fn dead_at(&self, o: ObjId) -> Option<u64>
        requires { o < length K.names.domain.objects }
        ensures { result ≡ says.killed_at o self.now.board.journal }
    {
        self.keeps();
        self.board.dead_at(o)
    }

    /// A session kills an object. A task may continue for it, so one worker is notified if it is wanted.
    pub fn kill(&mut self, o: ObjId, session: SessionId) -> (Result<u64, KillError>, Notify)
        requires { o < length K.names.domain.objects }
        ensures killed { IfOk result.0 (λ place. (place ≡ length self.old.board.journal)
            × (self.new.board.journal ≡ self.old.board.journal ++ entry.Kill o (cause.By session) ∷ [])) }
        ensures refused { IfErr result.0 (IsKillError (kill_refusal self.old.board.journal o)) }
        ensures notifies { NotifiesWanted self.old.crew self.new.board result.1 self.new.crew }
        ensures same { self.new ≡ record self.old { board = self.new.board; crew = self.new.crew } }
    {
        self.keeps();
        let killed = self.board.kill(o, session);
        (killed, self.notify_wanted())
    }

    /// A session's post to an object was accepted: the object has a request more, so one worker is notified if it is
    /// wanted. To be called once for each post.
    pub fn wake(&mut self, o: ObjId) -> Notify
        requires { o < length K.names.domain.objects }
        ensures woken { self.new.board ≡ record self.old.board { woken = with_one o self.old.board.woken } }
        ensures notifies { NotifiesWanted self.old.crew self.new.board result self.new.crew }
    {
        self.keeps();
        self.board.wake(o);
        self.posts = self.posts.saturating_add(1);
        self.notify_wanted()
    }

    /// How the run ended, or None while a session has not left or the board is not quiet. The cost is that of
    /// `Board::quiet`.
    pub fn ended(&self) -> Option<ServeEnd>
        ensures over { IsSome result ↔ IsOver self.now.sessions self.now.board }
        ensures end { IfSome result (λ end. end ≡ end_by self.now.is_limited) }
    {
        if self.sessions > 0 || !self.board.quiet() {
            return None;
        }
        if self.is_limited {
            Some(ServeEnd::Limit)
        } else {
            Some(ServeEnd::Quiet)
        }
    }

    // Starts a request at an object.
    fn start(&mut self, object: usize) -> Job
        requires { object < length K.names.domain.objects }
        ensures within { IsJobIn K.names.domain result }
        ensures gives { GivesStart object self.old.board self.new.board result }
        ensures limit { self.new.is_limited
            ≡ limited_by (start_refusal self.old.board.most self.old.board.journal object) self.old.is_limited }
        ensures same { self.new ≡ record self.old { board = self.new.board; is_limited = self.new.is_limited } }
    {
        self.keeps();
        let o = ObjId::new(object);
        match self.board.start(o) {
            Ok(Started::Run(task)) => Job::Move(task),
            Ok(Started::Skipped) => Job::Again,
            Ok(started) => Job::Perform { object, started },
            Err(StartError::Memory) => {
                self.board.wake(o);
                Job::Memory
            }
            Err(StartError::Limit) => {
                self.is_limited = true;
                Job::Again
            }
            Err(_) => Job::Again,
        }
    }

    /// What a worker takes in hand: a task that can continue, or else what starts at the object that was woken first.
    /// It rests only if nothing comes next. If memory ran out at a start, the object is woken again. The cost is that
    /// of `Board::next` and `Board::start`.
    pub fn next_job(&mut self) -> Job
        ensures within { IsJobIn K.names.domain result }
        ensures gives { GivesNext self.old.board self.new.board self.old.is_limited self.new.is_limited result }
        ensures same { self.new ≡ record self.old { board = self.new.board; is_limited = self.new.is_limited } }
    {
        self.keeps();
        let Some(work) = self.board.next() else {
            return Job::Rest;
        };
        if let Some(object) = startable(&work) {
            return self.start(object);
        }
        match work {
            Work::Resume(task) => Job::Move(task),
            Work::Start(_) => Job::Again,
        }
    }

    /// What a worker takes in hand after it did something: nothing if it may be one too many and another is at work,
    /// and else as `next_job`.
    pub fn job_after(&mut self, is_spare: bool) -> Job
        ensures within { IsJobIn K.names.domain result }
        ensures rests { result ≡ Rest → NothingNext self.old.board ⊎ (makes_way is_spare self.old.crew ≡ true) }
        ensures same { self.new ≡ record self.old { board = self.new.board; is_limited = self.new.is_limited } }
    {
        if self.crew.makes_way(is_spare) {
            return Job::Rest;
        }
        self.next_job()
    }

    // Takes back a task for which memory ran out. The task of an object that was killed meanwhile is dropped.
    fn put_back(&mut self, task: Task) -> Job
        requires { IsTaskIn K.names.domain task }
        ensures memory { result ≡ Memory }
        ensures back { IsPutBack task self.old.board self.new.board }
        ensures same { self.new ≡ record self.old { board = self.new.board } }
    {
        self.keeps();
        let _shelved = self.board.shelve(task);
        Job::Memory
    }

    /// A task comes back from its moves outside the lock, with whether there was memory for them. The board does what
    /// it asks for. A task of an object that was killed meanwhile is dropped. The cost is that of `Board::contact`.
    pub fn contact(&mut self, task: Task, is_moved: bool) -> Job
        requires { IsTaskIn K.names.domain task }
        ensures within { IsJobIn K.names.domain result }
        ensures gives { GivesBack K.names.capacity task self.old.board self.new.board result }
        ensures moved { is_moved ≡ false → result ≡ Memory }
        ensures same { self.new ≡ record self.old { board = self.new.board } }
    {
        if !is_moved {
            return self.put_back(task);
        }
        if task.pending().is_none() {
            return Job::Move(task);
        }
        self.keeps();
        match self.board.contact(task) {
            Ok(Reply::Posted(task)) => Job::Move(task),
            Ok(Reply::Seen(task)) => Job::Move(task),
            Ok(Reply::Changed(task)) => Job::Move(task),
            Ok(_) => Job::Again,
            Err((ContactError::Memory, task)) => self.put_back(task),
            Err(_) => Job::Again,
        }
    }

    /// Takes what a device answered: its object's action ends in the state. A fault kills the object, and so does a
    /// state that is not one of its class. An answer of an object that was killed meanwhile is dropped.
    pub fn answered(&mut self, object: usize, answer: Result<StateId, DeviceFault>)
        requires { object < length K.names.domain.objects }
        ensures journal { self.new.board.journal ≡ self.old.board.journal
            ++ entries_of_answer K.names.domain self.old.board.journal object answer }
        ensures same { self.new ≡ record self.old { board = self.new.board } }
    {
        self.keeps();
        let o = ObjId::new(object);
        if let Ok(state) = answer {
            if self.board.answered(o, state).is_ok() {
                return;
            }
        }
        let _place = self.board.fault(o);
    }

    /// The board, once all threads are done with it.
    pub fn into_board(self) -> Board<RuledMail<R, K>>
        ensures { result ≡ self.board }
    {
        let Shared {
            board,
            sessions: _,
            posts: _,
            crew: _,
            is_limited: _,
        } = self;
        board
    }
}
