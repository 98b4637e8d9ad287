//! The log that is asked for.

/// The log that is asked for.
#[derive(Clone, Copy)]
pub(crate) struct WantedLog<'a> {
    pub(crate) path: &'a str,
    /// Whether what it holds is made again first.
    pub(crate) resume: bool,
    /// Whether what is kept is put on the disk.
    pub(crate) sync: bool,
}
