//! One warning, and its line.

use crate::kind::WarningKind;
use explain_places::{Position, tell_spot};
use sml_domain::{ActionId, ClassId, ObjId};
use sml_text::Sink;
use sml_tree::Name;
use sml_writer::Out;

/// A warning: what it is about, and where that stands in the text.
#[derive(Drop)]
pub struct Warning {
    pub kind: WarningKind,
    /// The name of what it is about.
    pub name: Name,
    /// The byte at which it stands, counted from 0.
    pub at: usize,
    // What else its sentence says.
    pub(crate) detail: Detail,
}

/// What a sentence says beside the name.
#[derive(Drop)]
pub(crate) enum Detail {
    /// The instruction at this byte ends the action, or both its branches do.
    EndedAt(usize),
    /// The class of this name.
    OfClass(Name),
    /// The action of this name.
    OfAction(Name),
    /// A test by itself.
    OneTest,
    /// A test together with others of the same object before it.
    WithOthers,
    /// A set without members.
    EmptySet,
    /// A class, as what nothing uses.
    Class,
    /// A set, as what nothing uses.
    Set,
    /// An object, as what nothing uses.
    Object,
    /// An instruction that ends in the dead state of the class of this name.
    EndsDead(Name),
    /// A state called like the dead one, where this is the name of that of its class.
    NotDead(Name),
    /// The actions of a circle.
    Actions(Vec<(ClassId, ActionId)>),
    /// The objects of a circle.
    Objects(Vec<ObjId>),
}

/// Writes the line of a warning on a file, `FILE warn NO KIND NAME at LINE:COLUMN`.
pub fn tell_warning<W: Sink>(out: &mut Out<'_, W>, file: &str, warning: &Warning, place: Position) {
    out.say(file.as_bytes());
    out.say(b" warn ");
    out.number(warning.kind.number());
    out.say(b" ");
    out.say(warning.kind.name().as_bytes());
    out.say(b" ");
    out.say(warning.name.as_bytes());
    out.say(b" at ");
    tell_spot(out, place);
    out.say(b"\n");
}
