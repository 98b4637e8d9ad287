//! The limits of a domain's text, as docs/LANGUAGE.md has them. The reader, its contracts and the definitions cite
//! these.

/// Classes of a file.
pub const MAX_CLASSES: usize = 64;

/// Objects of a file.
pub const MAX_OBJECTS: usize = 64;

/// Sets of a file.
pub const MAX_SETS: usize = 32;

/// States of a class, without the `DEAD` that checking adds.
pub const MAX_STATES: usize = 32;

/// Actions of a state.
pub const MAX_ACTIONS: usize = 32;

/// Parameters of a class or of an action.
pub const MAX_PARAMETERS: usize = 16;

/// Arguments of a `do`, and of a request.
pub const MAX_ARGUMENTS: usize = 16;

/// Members of a set.
pub const MAX_MEMBERS: usize = 64;

/// Names in a list of states of a condition.
pub const MAX_NAMES: usize = 32;

/// Names in a `wait`.
pub const MAX_WAITED: usize = 64;

/// Tests of a condition.
pub const MAX_TESTS: u32 = 64;

/// How deep `if` may nest.
pub const MAX_IFS: u32 = 16;

/// How many `not` and brackets of a condition may be open at a place.
pub const MAX_OPEN: u32 = 16;
