//! The lines that kill dead objects again.
ghost use Rattle.std.specs.Prelude.{◌≡◌, ◌≢◌, ◌+◌, ◌++◌, ℕ, All, IfNone, IfOk, IfSome, List, OnOk, true};
ghost use Rattle.smi_journal.specs.CallText.{name_or_nothing, spaced};
ghost use Rattle.smi_log_front.specs.FrontText.{front_kill_line, front_kills_text};
ghost use Rattle.smi_log_front.specs.Reading.{KillIsRead, NoKillAfter, NoKillOf, SessionIsRead, TakesKill};
ghost use Rattle.smi_log_front.specs.Suits.{IsHeldSession, KillIsHeld, are_kills_from};

use crate::front::FrontKill;
use smi_carried::{after, after_object};
use smi_journal::SessionId;
use sml_domain::{Domain, ObjId};
use sml_tree::Name;
use std::alloc::{AllocError, Global};

// Adds a name with a blank before it.
fn add_name(text: &mut Vec<u8>, name: Option<Name>) -> Result<(), AllocError>
    ensures { OnOk result (text.new.items ≡ text.old.items ++ spaced (name_or_nothing name)) }
{
    text.push(b' ')?;
    match name {
        Some(name) => text.extend_from_slice(name.as_bytes()),
        None => Ok(()),
    }
}

// Adds the line that kills an object again.
fn add_kill(text: &mut Vec<u8>, domain: &Domain, kill: &FrontKill) -> Result<(), AllocError>
    ensures { OnOk result (text.new.items ≡ text.old.items ++ front_kill_line domain.now kill.now) }
{
    text.extend_from_slice(b"kill")?;
    add_name(text, domain.object_name(kill.object))?;
    text.extend_from_slice(&[b' ', b'@', b'0' + kill.session.get(), b'\n'])
}

/// Adds the lines that kill dead objects again to a text.
#[tactic(auto, using(smi_carried::proofs::Numbered::flat_more))]
pub(crate) fn add_kills(
    text: &mut Vec<u8>,
    domain: &Domain,
    kills: &[FrontKill],
) -> Result<(), AllocError>
    ensures { OnOk result (text.new.items ≡ text.old.items ++ front_kills_text domain.now kills.now) }
{
    for kill in kills {
        add_kill(text, domain, kill)?;
    }
    Ok(())
}

// The session whose digit it is.
fn session_of(digit: u8) -> Option<SessionId>
    ensures some { IfSome result (λ k. digit ≡ 48 + k) }
    ensures held { IfSome result IsHeldSession }
    ensures none { IfNone result ((k : ℕ) → IsHeldSession k → digit ≢ 48 + k) }
{
    if digit < b'0' {
        return None;
    }
    SessionId::new(digit - b'0')
}

// The session in front with a blank before it, up to the end of the line, and what comes after that.
fn next_session(text: &[u8]) -> Option<(SessionId, &[u8])>
    ensures some { IfSome result (λ x. SessionIsRead text.now x.0 x.1.now) }
    ensures none { IfNone result ((k : ℕ) (more : List ℕ) → SessionIsRead text.now k more → ⊥) }
{
    let Some(digits) = after(text, b" @") else {
        return None;
    };
    let Some((digit, ends)) = digits.split_first() else {
        return None;
    };
    let Some(session) = session_of(*digit) else {
        return None;
    };
    let Some(more) = after(ends, b"\n") else {
        return None;
    };
    Some((session, more))
}

// The kill of an object whose line is in front, and what comes after it.
fn next_kill<'a>(text: &'a [u8], domain: &Domain, o: ObjId) -> Option<(FrontKill, &'a [u8])>
    ensures some { IfSome result (λ x. KillIsRead domain.now o text.now x.0 x.1.now) }
    ensures none { IfNone result (NoKillOf domain.now o text.now) }
{
    let Some(words) = after_object(text, b"kill", domain, o) else {
        return None;
    };
    let Some(next) = next_session(words) else {
        return None;
    };
    let kill = FrontKill {
        object: o,
        session: next.0,
    };
    Some((kill, next.1))
}

// Adds the kill of an object to others if its line is in front, and returns what comes after it. The error is out of
// memory.
fn take_kill<'a>(
    kills: &mut Vec<FrontKill>,
    text: &'a [u8],
    domain: &Domain,
    o: ObjId,
) -> Result<&'a [u8], AllocError>
    ensures { IfOk result (λ rest. TakesKill domain.now o kills.old.items text.now kills.new.items rest.now) }
{
    match next_kill(text, domain, o) {
        Some(next) => {
            kills.push(next.0)?;
            Ok(next.1)
        }
        None => Ok(text),
    }
}

/// The kills whose lines are in front, in the order of their objects, and what comes after them. The error is out of
/// memory.
pub(crate) fn read_kills<'a>(
    alloc: Global,
    domain: &Domain,
    text: &'a [u8],
) -> Result<(Vec<FrontKill>, &'a [u8]), AllocError>
    ensures suit { IfOk result (λ x. are_kills_from domain.now 0 x.0.items ≡ true) }
    ensures held { IfOk result (λ x. All KillIsHeld x.0.items) }
    ensures whole { IfOk result (λ x. text.now ≡ front_kills_text domain.now x.0.items ++ x.1.now) }
    ensures none { IfOk result (λ x. NoKillAfter domain.now x.0.items x.1.now) }
{
    let objects = domain.objects();
    let mut kills = Vec::new(alloc);
    let mut rest = text;
    for o in 0..objects {
        rest = take_kill(&mut kills, rest, domain, ObjId::new(o))?;
    }
    Ok((kills, rest))
}
