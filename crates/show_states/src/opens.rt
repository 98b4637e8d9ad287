//! The open actions of all objects, and for what each waits.
ghost use Rattle.std.specs.Prelude.{◌<◌, ℕ, List, OnOk, length};
ghost use Rattle.sml_writer.specs.Tells.{Tells};
ghost use Rattle.smi_journal_entries.specs.Words.{open_at};
ghost use Rattle.show_states.specs.StandingText.{AreOpenLines, standing_open_line};

use crate::lines::tell_open;
use crate::stands::Standing;
use sml_domain::ObjId;
use sml_text::Sink;
use sml_writer::Out;
use std::alloc::{AllocError, Global};

// For what the open action of an object waits: its device, or the objects that are busy for it.
fn waits_of<S: Standing>(alloc: Global, standing: &S, o: ObjId) -> Result<Vec<u8>, AllocError>
    requires { o < length (S.of_domain standing.now).objects }
{
    let mut waits = Vec::new(alloc);
    let mut out = Out::new(&mut waits);
    if standing.domain().associated(o) {
        out.say(b" waits device");
    } else {
        standing.tell_awaited(&mut out, o)?;
    }
    if out.failed {
        Err(AllocError)
    } else {
        Ok(waits)
    }
}

// What is open at an object, if anything is.
pub(crate) fn tell_open_at<S: Standing, W: Sink>(
    alloc: Global,
    standing: &S,
    o: ObjId,
    out: &mut Out<'_, W>,
) -> Result<(), AllocError>
    requires { o < length (S.of_domain standing.now).objects }
    ensures { OnOk result ((waits : List ℕ) × Tells W.contents W.has_refused out.old out.new
        (standing_open_line (S.of_domain standing.now) o (open_at o (S.behind standing.now)) waits)) }
{
    let domain = standing.domain();
    match standing.opened(o) {
        Some(letter) => {
            let waits = waits_of(alloc, standing, o)?;
            tell_open(out, domain, o, letter, waits.as_slice());
            Ok(())
        }
        None => Ok(()),
    }
}

// What is open at all objects.
pub(crate) fn tell_opens<S: Standing, W: Sink>(
    alloc: Global,
    standing: &S,
    out: &mut Out<'_, W>,
) -> Result<(), AllocError>
    ensures { OnOk result ((lines : List ℕ) × AreOpenLines (S.of_domain standing.now) (S.behind standing.now)
        (length (S.of_domain standing.now).objects) lines
        × Tells W.contents W.has_refused out.old out.new lines) }
{
    let objects = standing.domain().objects();
    for o in 0..objects {
        tell_open_at(alloc, standing, ObjId::new(o), out)?;
    }
    Ok(())
}
