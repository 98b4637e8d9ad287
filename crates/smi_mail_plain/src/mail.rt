//! What a mail promises.
ghost use Rattle.std.specs.Prelude.{◌≡◌, ◌≢◌, ◌<◌, ◌≤◌, ◌++◌, ℕ, IfErr, IfNone, IfOk, IfSome, IsOk, OnErr, [], length, true};
ghost use mathlib.Core.List.{IsPrefix};
ghost use Rattle.smi_journal_entries.specs.declared.entry.Sender.{Sender};
ghost use Rattle.smi_journal_entries.specs.Requests.{from_sender, request_of};
ghost use Rattle.smi_journal_entries.specs.Fits.{letter_fits};
ghost use Rattle.smi_mail_plain.specs.Mails.{Grows, Same, is_sender, with_first, with_last};

use smi_journal_entries::Envelope;
use sml_domain::ObjId;
use std::alloc::AllocError;

/// As many requests wait at the object as may.
#[derive(Clone, Copy, Debug, Eq, PartialEq)]
pub struct Full;

/// The mailboxes of a domain's objects. Contracts see a mail as lists: what was taken of each mailbox, and
/// what each sender sent to it.
pub trait Mail {
    ghost use Rattle.std.specs.Prelude.{ℕ, Bool, List, Option, None};
    ghost use Rattle.sml_domain.specs.Domain.{Domain};
    ghost use Rattle.smi_journal_entries.specs.declared.entry.Sender.{Sender};
    ghost use Rattle.smi_journal_entries.specs.Requests.{Request};

    ghost domain: { Self → Domain };

    // The senders that it serves: of the others it does not know what they sent.
    ghost serves: { Self → Sender → Bool };

    // What was taken of the mailbox of each object.
    ghost taken: { Self → ℕ → List Request };

    // What each sender sent to each object.
    ghost sent: { Self → Sender → ℕ → List Request };

    // Whether room is made for one request more to each object.
    ghost ready: { Self → ℕ → Bool };

    // What waits at each object, oldest first, where the mail promises to know it.
    ghost waiting: { Self → ℕ → Option (List Request) } = { λ m o. None };

    // How many requests may wait at each object.
    ghost capacity: { Self → ℕ };

    /// A law, whose function does nothing: what was taken of a sender that the mail serves is a prefix of what
    /// that sender sent, and what waits is the rest of it, no more than the capacity.
    fn in_order(&self, o: ObjId)
        requires { o < length (domain self.now).objects }
        ensures begins { (s : Sender) → serves self.now s ≡ true →
            IsPrefix (from_sender s (taken self.now o)) (sent self.now s o) }
        ensures rest { IfSome (waiting self.now o) (λ w. (s : Sender) → serves self.now s ≡ true →
            sent self.now s o ≡ from_sender s (taken self.now o) ++ from_sender s w) }
        ensures few { IfSome (waiting self.now o) (λ w. length w ≤ capacity self.now) };

    /// Takes a request out of the mailbox of an object. It takes no memory.
    fn take(&mut self, o: ObjId) -> Option<Envelope>
        requires { o < length (domain self.old).objects }
        ensures some { IfSome result (λ e. Grows (taken self.old) o (request_of e) (taken self.new)) }
        ensures fits { IfSome result (λ e. letter_fits (domain self.old) o e ≡ true) }
        ensures sender { IfSome result (λ e. is_sender (domain self.old) e.sender ≡ true) }
        ensures number { IfSome result (λ e.
            e.number ≡ length (from_sender e.sender (taken self.old o))) }
        ensures first { IfSome result (λ e.
            waiting self.old o ≡ with_first (request_of e) (waiting self.new o)) }
        ensures none { IfNone result (self.new ≡ self.old) }
        ensures all { IfNone result ((s : Sender) → serves self.old s ≡ true →
            from_sender s (taken self.old o) ≡ sent self.old s o) }
        ensures empty { IfNone result (IfSome (waiting self.old o) (λ w. w ≡ [])) }
        ensures sent { (s : Sender) → Same (sent self.old s) (sent self.new s) }
        ensures others { (x : ℕ) → x ≢ o → waiting self.new x ≡ waiting self.old x }
        ensures ready { (x : ℕ) → ready self.old x ≡ true → ready self.new x ≡ true }
        ensures domain { domain self.new ≡ domain self.old }
        ensures serves { serves self.new ≡ serves self.old }
        ensures capacity { capacity self.new ≡ capacity self.old };

    /// Makes room for one request more to an object. It stays made until a request there is accepted. An
    /// error means out of memory.
    fn room(&mut self, target: ObjId) -> Result<(), AllocError>
        requires { target < length (domain self.old).objects }
        ensures ok { IfOk result (λ _. ready self.new target ≡ true) }
        ensures err { OnErr result (self.new ≡ self.old) }
        // Room that is there already takes no memory.
        ensures there { ready self.old target ≡ true → IsOk result }
        ensures ready { (x : ℕ) → ready self.old x ≡ true → ready self.new x ≡ true }
        ensures taken { Same (taken self.old) (taken self.new) }
        ensures sent { (s : Sender) → Same (sent self.old s) (sent self.new s) }
        ensures waiting { (x : ℕ) → waiting self.new x ≡ waiting self.old x }
        ensures domain { domain self.new ≡ domain self.old }
        ensures serves { serves self.new ≡ serves self.old }
        ensures capacity { capacity self.new ≡ capacity self.old };

    /// Sends a request to an object and returns its number, under which it is kept: how many requests of its
    /// sender were accepted there before it. It takes no memory. If the mailbox is full, the envelope is
    /// returned.
    fn post(&mut self, target: ObjId, envelope: Envelope) -> Result<u64, (Full, Envelope)>
        requires target { target < length (domain self.old).objects }
        requires sender { serves self.old envelope.sender ≡ true }
        requires fits { letter_fits (domain self.old) target envelope ≡ true }
        requires ready { ready self.old target ≡ true }
        ensures number { IfOk result (λ n. n ≡ length (sent self.old envelope.sender target)) }
        ensures posted { IfOk result (λ _. Grows (sent self.old envelope.sender) target
            (request_of envelope) (sent self.new envelope.sender)) }
        ensures others { IfOk result (λ _. (s : Sender) → s ≢ envelope.sender →
            Same (sent self.old s) (sent self.new s)) }
        ensures taken { Same (taken self.old) (taken self.new) }
        ensures last { IfOk result (λ _.
            waiting self.new target ≡ with_last (waiting self.old target) (request_of envelope)) }
        ensures elsewhere { (x : ℕ) → x ≢ target → waiting self.new x ≡ waiting self.old x }
        ensures below { IfOk result (λ _.
            IfSome (waiting self.old target) (λ w. length w < capacity self.old)) }
        ensures back { IfErr result (λ e. e.1 ≡ envelope) }
        ensures same { OnErr result (self.new ≡ self.old) }
        ensures full { OnErr result (IfSome (waiting self.old target) (λ w.
            length w ≡ capacity self.old)) }
        ensures ready { (x : ℕ) → x ≢ target → ready self.new x ≡ ready self.old x }
        ensures domain { domain self.new ≡ domain self.old }
        ensures serves { serves self.new ≡ serves self.old }
        ensures capacity { capacity self.new ≡ capacity self.old };
}
