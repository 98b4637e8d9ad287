//! What `run` is asked to do.

use crate::running::RunNumbers;

/// What `run` is asked to do. The texts are words of a command line.
#[derive(Drop)]
pub struct RunOptions<'a> {
    /// The path of the domain file, or `-`.
    pub file: &'a str,
    /// The path of the script, or `-`.
    pub script: &'a str,
    /// The numbers of the run.
    pub numbers: RunNumbers,
    /// The path that the journal is written to, if it is. `-` is a file of that name, and a file that is read is
    /// refused.
    pub journal: Option<&'a str>,
    /// Whether it is told on a terminal how far the run is. The caller has to see that there is a terminal.
    pub progress: bool,
    /// Whether it is explained why a text or a line was refused.
    pub explain: bool,
    /// Whether the status says that something went wrong in the run.
    pub strict: bool,
    /// Whether the parameters and what is open are written behind the summary.
    pub states: bool,
}
