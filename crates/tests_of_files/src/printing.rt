//! Files that are printed, to writers that fail too. (Which text is printed are rows of `tests_by_scripts`.)

use crate::one_byte::one_byte_writer;
use crate::texts::has_file;
use sml_print::{PrintFault, print, write_to};
use sml_tree::{Group, Item, Name, Object, SmlFile};
use std::alloc::Global;
use std::test::Fail;
use test_domains::MARKED;

// A file of one object and one set.
fn sample(alloc: Global) -> Result<SmlFile<Global>, Fail> {
    let mut members = Vec::new(alloc);
    members.push(Name::from_word(b"o"))?;
    members.push(Name::from_word(b"p"))?;
    let mut items = Vec::new(alloc);
    items.push(Item::Object(Object {
        name: Name::from_word(b"o"),
        class: Name::from_word(b"c"),
    }))?;
    items.push(Item::Group(Group {
        name: Name::from_word(b"g"),
        members,
    }))?;
    Ok(SmlFile { items })
}

fn prints_sample(alloc: Global) -> Result<bool, Fail> {
    let text = print(alloc, &sample(alloc)?)?;
    Ok(text.as_slice() == b"object: O is_of_class C\nobjectset: G { O, P }\n".as_slice())
}

#[test]
fn prints_items(rt: HostRuntime) -> Result<(), Fail> {
    assert!(rt; prints_sample(rt.alloc())?);
    Ok(())
}

// Whether what is written of a file is what is printed.
fn is_written(alloc: Global, file: &SmlFile<Global>) -> bool {
    let mut written = Vec::new(alloc);
    match (write_to(file, &mut written), print(alloc, file)) {
        (Ok(()), Ok(text)) => written == text,
        _ => false,
    }
}

#[test]
fn writes_what_is_printed(rt: HostRuntime) -> Result<(), Fail> {
    assert!(rt; is_written(rt.alloc(), &sample(rt.alloc())?));
    Ok(())
}

// Whether a writer that is good for `good_calls` calls must get these bytes, and its caller this answer.
fn is_front(written: Result<(), PrintFault>, taken: &[u8], good_calls: usize) -> bool {
    written.is_ok() == (good_calls >= MARKED.len())
        && taken == MARKED.split_at(good_calls.min(MARKED.len())).0
}

// Whether a writer that is good for `good_calls` calls gets a prefix of the text, as the answer says.
fn is_front_written(file: &SmlFile<Global>, alloc: Global, good_calls: usize) -> bool {
    let mut writer = one_byte_writer(alloc, good_calls, true);
    let written = write_to(file, &mut writer);
    is_front(written, writer.taken.as_slice(), good_calls)
}

#[test]
fn a_front_is_written_before_a_fault(rt: HostRuntime) {
    for good_calls in 0..MARKED.len() + 1 {
        assert!(rt;
            has_file(
                rt.alloc(),
                MARKED,
                |file| is_front_written(file, rt.alloc(), good_calls)
            ),
            "after {good_calls}"
        );
    }
}
