//! The order of the columns of objects: those who command stand before those who are commanded, and devices last.

use crate::objects::class_of;
use crate::sends::targets_of;
use crate::tables::{falses, nones, zeros};
use sml_domain::{Class, Domain, ObjId};
use std::alloc::{AllocError, Global};

// Where an object stands among all.
#[derive(Clone, Copy, Eq, Ord, PartialEq, PartialOrd)]
struct Rank {
    // 0, for a device 1.
    kind: usize,
    // How many sends it is away from an object that nobody commands.
    level: usize,
    number: usize,
}

// The levels of objects as far as they are known, and those whose own targets have none yet.
#[derive(Drop)]
struct Levels {
    // By the numbers of the objects. None if none is known.
    of: Vec<Option<usize>>,
    // Whether the targets of a class have their levels.
    done: Vec<bool>,
    // All objects that have a level, in the order in which they got it.
    known: Vec<ObjId>,
}

/// The places of the columns, by the numbers of the objects: first come those that nobody commands, then those to which
/// they send, and so on; devices last. Those of one level stand in the order of the text. The cost is that of the
/// domain, with all members of a set for each class that sends to it.
pub(crate) fn columns_of(alloc: Global, domain: &Domain) -> Result<Vec<usize>, AllocError> {
    let levels = levels_of(alloc, domain)?;
    let ranks = ranks_of(alloc, domain, &levels)?;
    drop(levels);
    let mut columns = zeros(alloc, domain.objects())?;
    for (column, rank) in ranks.iter().enumerate() {
        if let Some(slot) = columns.get_mut(rank.number) {
            *slot = column;
        }
    }
    Ok(columns)
}

// The ranks of all objects in their order.
fn ranks_of(
    alloc: Global,
    domain: &Domain,
    levels: &[Option<usize>],
) -> Result<Vec<Rank>, AllocError> {
    let mut ranks = Vec::new(alloc);
    for (number, level) in levels.iter().enumerate() {
        ranks.push(rank_of(domain, number, *level))?;
    }
    ranks.sort()?;
    Ok(ranks)
}

// The rank of an object. One that no way of sends reaches is behind those that some reaches.
fn rank_of(domain: &Domain, number: usize, level: Option<usize>) -> Rank {
    if domain.associated(ObjId::new(number)) {
        return Rank {
            kind: 1,
            level: 0,
            number,
        };
    }
    Rank {
        kind: 0,
        level: level.unwrap_or(domain.objects()),
        number,
    }
}

// The levels of all objects.
fn levels_of(alloc: Global, domain: &Domain) -> Result<Vec<Option<usize>>, AllocError> {
    let mut levels = first_levels(alloc, domain)?;
    // Each object is known once, so that no more than all are met.
    for place in 0..domain.objects() {
        let Some(o) = levels.known.get(place).copied() else {
            break;
        };
        reach_from(alloc, domain, &mut levels, o)?;
    }
    Ok(levels.of)
}

// Level 0 for those that nobody commands.
fn first_levels(alloc: Global, domain: &Domain) -> Result<Levels, AllocError> {
    let commanded = commanded_of(alloc, domain)?;
    let mut levels = Levels {
        of: nones(alloc, domain.objects())?,
        done: falses(alloc, domain.classes().len())?,
        known: Vec::new(alloc),
    };
    for (number, is_commanded) in commanded.iter().enumerate() {
        if !*is_commanded {
            know(&mut levels, ObjId::new(number), 0)?;
        }
    }
    Ok(levels)
}

// Gives an object its level, unless it has one.
fn know(levels: &mut Levels, o: ObjId, level: usize) -> Result<(), AllocError> {
    if let Some(slot) = levels.of.get_mut(o.get()) {
        if slot.is_none() {
            *slot = Some(level);
            levels.known.push(o)?;
        }
    }
    Ok(())
}

// Gives the targets of an object their level. Objects of one class have the same targets, so that this is done once for
// each class.
fn reach_from(
    alloc: Global,
    domain: &Domain,
    levels: &mut Levels,
    o: ObjId,
) -> Result<(), AllocError> {
    let Some(number) = class_of(domain, o) else {
        return Ok(());
    };
    let (Some(class), Some(done)) = (domain.classes().get(number), levels.done.get_mut(number))
    else {
        return Ok(());
    };
    if *done {
        return Ok(());
    }
    *done = true;
    let level = level_of(levels, o).saturating_add(1);
    let targets = targets_of(alloc, domain, class)?;
    for target in &targets {
        know(levels, *target, level)?;
    }
    Ok(())
}

// The level of an object.
fn level_of(levels: &Levels, o: ObjId) -> usize {
    match levels.of.get(o.get()) {
        Some(Some(level)) => *level,
        _ => 0,
    }
}

// Whether some other object commands each object.
fn commanded_of(alloc: Global, domain: &Domain) -> Result<Vec<bool>, AllocError> {
    let counts = counts_of(alloc, domain)?;
    let mut commanded = falses(alloc, domain.objects())?;
    for (number, class) in domain.classes().iter().enumerate() {
        let count = counts.get(number).copied().unwrap_or(0);
        add_commanded(alloc, domain, class, number, count, &mut commanded)?;
    }
    Ok(commanded)
}

// How many objects each class has.
fn counts_of(alloc: Global, domain: &Domain) -> Result<Vec<usize>, AllocError> {
    let mut counts = zeros(alloc, domain.classes().len())?;
    for place in 0..domain.objects() {
        if let Some(number) = class_of(domain, ObjId::new(place)) {
            if let Some(count) = counts.get_mut(number) {
                *count = count.saturating_add(1);
            }
        }
    }
    Ok(counts)
}

// Notes whom the objects of a class command, by their count. An object does not command itself.
fn add_commanded(
    alloc: Global,
    domain: &Domain,
    class: &Class,
    number: usize,
    count: usize,
    commanded: &mut Vec<bool>,
) -> Result<(), AllocError> {
    let targets = targets_of(alloc, domain, class)?;
    for target in &targets {
        let selves = usize::from(class_of(domain, *target) == Some(number));
        if count > selves {
            if let Some(slot) = commanded.get_mut(target.get()) {
                *slot = true;
            }
        }
    }
    Ok(())
}
