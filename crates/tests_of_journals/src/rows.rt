//! What rows write: values, and objects by their numbers.

use smi_journal::Args;
use sml_domain::{ObjId, Text, Value};
use std::alloc::Global;

/// A value, as a row writes it.
#[derive(Clone, Copy)]
pub enum Plain {
    Int(i64),
    Str(&'static [u8]),
}

/// The value that a row writes.
pub fn value_of(alloc: Global, plain: Plain) -> Option<Value> {
    match plain {
        Plain::Int(n) => Some(Value::Int(n)),
        Plain::Str(bytes) => Some(Value::Text(Text::new(alloc, bytes).ok()?)),
    }
}

/// The values that a row writes, in order.
pub fn values_of(alloc: Global, list: &[Plain]) -> Option<Vec<Value>> {
    let mut values = Vec::new(alloc);
    for plain in list {
        values.push(value_of(alloc, *plain)?).ok()?;
    }
    Some(values)
}

/// The arguments that a row writes.
pub fn args_of(alloc: Global, given: &[Plain]) -> Option<Args> {
    Args::new(alloc, values_of(alloc, given)?).ok()
}

/// Whether a value is the one that a row writes.
pub fn is_value(value: &Value, plain: Plain) -> bool {
    match (value, plain) {
        (Value::Int(n), Plain::Int(m)) => *n == m,
        (Value::Text(text), Plain::Str(bytes)) => text.as_bytes() == bytes,
        _ => false,
    }
}

/// Whether values are those that a row writes.
pub fn are_values(values: &[Value], plain: &[Plain]) -> bool {
    values.len() == plain.len()
        && values
            .iter()
            .zip(plain.iter())
            .all(|(value, plain)| is_value(value, *plain))
}

/// Whether objects are those that a row writes, in this order.
pub fn are_objects(objects: &[ObjId], numbers: &[usize]) -> bool {
    objects.len() == numbers.len()
        && objects
            .iter()
            .zip(numbers.iter())
            .all(|(object, number)| object.get() == *number)
}
