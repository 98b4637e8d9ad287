//! What `next` is asked to do.

/// What `next` is asked to do. The texts are words of a command line.
#[derive(Clone, Copy)]
pub struct NextOptions<'a> {
    /// The path of the domain file, or `-`.
    pub file: &'a str,
    /// The path of the log. `-` is a file of that name.
    pub log: &'a str,
    /// How many requests wait at an object at most in the next log, if not as many as in this one.
    pub capacity: Option<usize>,
    /// Whether it is explained why something is refused.
    pub explain: bool,
}
