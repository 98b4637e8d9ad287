//! Names of items that are not declared, or are those of items of another sort.

use crate::finding::{Detail, Finding, Site};
use crate::subject::{Subject, tell_nearest, tell_of};
use crate::teller::Teller;
use crate::tokens::{Tokens, name_of};
use explain_places::Nearest;
use sml_text::Sink;
use sml_tree::{Item, Name};

// What a name is instead, if an item of another sort has it. The answer is whether one has.
fn tell_other_sort<W: Sink>(
    out: &mut Teller<'_, '_, W>,
    subject: Subject<'_>,
    name: &Name,
    place: Option<usize>,
    sort: &[u8],
) -> bool {
    let Some(place) = place else {
        return false;
    };
    out.name(name);
    out.say(sort);
    out.say(b" (declared at ");
    out.spot(subject.spots.item(place));
    out.say(b")");
    true
}

// The class that may have been meant by a name.
fn tell_nearest_class<W: Sink>(out: &mut Teller<'_, '_, W>, subject: Subject<'_>, name: &Name) {
    let mut nearest = Nearest::new(name);
    for item in &subject.directory.file.items {
        if let Item::Class(class) = item {
            nearest.offer(&class.name);
        }
    }
    tell_nearest(out, &nearest);
}

// The set that may have been meant by a name.
fn tell_nearest_set<W: Sink>(out: &mut Teller<'_, '_, W>, subject: Subject<'_>, name: &Name) {
    let mut nearest = Nearest::new(name);
    for item in &subject.directory.file.items {
        if let Item::Group(set) = item {
            nearest.offer(&set.name);
        }
    }
    tell_nearest(out, &nearest);
}

// The object that may have been meant by a name.
fn tell_nearest_object<W: Sink>(out: &mut Teller<'_, '_, W>, subject: Subject<'_>, name: &Name) {
    let mut nearest = Nearest::new(name);
    for item in &subject.directory.file.items {
        if let Item::Object(object) = item {
            nearest.offer(&object.name);
        }
    }
    tell_nearest(out, &nearest);
}

/// A class that is not declared.
pub(crate) fn tell_class<W: Sink>(
    out: &mut Teller<'_, '_, W>,
    subject: Subject<'_>,
    finding: &Finding,
) {
    let directory = subject.directory;
    let name = &finding.name;
    let object = directory.object(name);
    if tell_other_sort(out, subject, name, object, b" is an object") {
        return out.say(b", not a class");
    }
    let set = directory.set(name);
    if tell_other_sort(out, subject, name, set, b" is a set") {
        out.say(b", not a class");
    } else {
        tell_of(out, b"no class ", name, b" is declared");
    }
    tell_nearest_class(out, subject, name);
}

/// An object that is not declared.
pub(crate) fn tell_object<W: Sink>(
    out: &mut Teller<'_, '_, W>,
    subject: Subject<'_>,
    finding: &Finding,
) {
    let directory = subject.directory;
    let name = &finding.name;
    let set = directory.set(name);
    if tell_other_sort(out, subject, name, set, b" is a set") {
        return out.say(match finding.detail {
            Detail::Site(Site::Tested) => b": `all_in` or `any_in` is missing before it",
            Detail::Site(Site::Target(_) | Site::Waited) => b": `all_in` is missing before it",
            _ => b", and the members of a set are objects",
        });
    }
    let class = directory.class(name);
    if tell_other_sort(out, subject, name, class, b" is a class") {
        return tell_only_object(out, subject, name);
    }
    tell_of(out, b"no object ", name, b" is declared");
    match object_before(out, subject, finding) {
        Some(object) => tell_action_first(out, subject, name, &object),
        None => tell_nearest_object(out, subject, name),
    }
}

// The object of a class, if that has just one.
fn tell_only_object<W: Sink>(out: &mut Teller<'_, '_, W>, subject: Subject<'_>, class: &Name) {
    let mut found = None;
    let mut count = 0usize;
    for item in &subject.directory.file.items {
        if let Item::Object(object) = item {
            if object.class == *class {
                found = Some(object.name);
                count = count.saturating_add(1);
            }
        }
    }
    match found {
        Some(object) if count == 1 => tell_of(out, b"; its object is ", &object, b""),
        _ => out.say(b", not an object"),
    }
}

// The object or the set that stands in a `do` where its action should be, before a name that is no object's.
fn object_before<W: Sink>(
    out: &Teller<'_, '_, W>,
    subject: Subject<'_>,
    finding: &Finding,
) -> Option<Name> {
    let Detail::Site(Site::Target(call)) = finding.detail else {
        return None;
    };
    let rest = out.text.split_at(call.min(out.text.len())).1;
    let name = name_of(Tokens::new(rest).take()?.bytes(rest))?;
    let directory = subject.directory;
    if directory.object(&name).is_some() || directory.set(&name).is_some() {
        Some(name)
    } else {
        None
    }
}

// That an action stands before the object or the set that it is sent to.
fn tell_action_first<W: Sink>(
    out: &mut Teller<'_, '_, W>,
    subject: Subject<'_>,
    action: &Name,
    object: &Name,
) {
    let is_set = subject.directory.object(object).is_none();
    let between: &[u8] = if is_set { b" all_in " } else { b" " };
    tell_of(
        out,
        b": the action stands first, as in `do ",
        action,
        between,
    );
    tell_of(out, b"", object, b"`");
}

/// A set that is not declared.
pub(crate) fn tell_set<W: Sink>(
    out: &mut Teller<'_, '_, W>,
    subject: Subject<'_>,
    finding: &Finding,
) {
    let directory = subject.directory;
    let name = &finding.name;
    let object = directory.object(name);
    if tell_other_sort(out, subject, name, object, b" is an object") {
        return out.say(match finding.detail {
            Detail::Site(Site::Tested) => b", not a set: leave out `all_in` or `any_in`",
            Detail::Site(Site::Changed) => b", not a set, which stands behind the object",
            _ => b", not a set: leave out `all_in`",
        });
    }
    let class = directory.class(name);
    if tell_other_sort(out, subject, name, class, b" is a class") {
        out.say(b", not a set");
    } else {
        tell_of(out, b"no set ", name, b" is declared");
    }
    tell_nearest_set(out, subject, name);
}
