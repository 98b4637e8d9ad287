//! What can go wrong.

use smi_run::OpenError;
use smi_run_plan::ScriptError;
use sml_load::TextFault;
use std::io;
use std::io::Write;

/// What went wrong, and with what.
#[derive(Drop)]
pub enum Fault {
    Domain(TextFault),
    Script(ScriptError),
    /// The domain has no such action or state as the supplies know.
    Names,
    /// The mailboxes are not for as many sessions as the script has.
    Sessions,
    Open(OpenError),
    Memory,
    Output(io::Error),
}

impl Fault {
    /// Tells the fault in a line.
    pub fn tell<W: Write>(&self, errors: &mut W) -> io::Result<()> {
        match self {
            Fault::Domain(TextFault::Read(error)) => writeln!(errors, "domain: read {error}"),
            Fault::Domain(TextFault::Check(error)) => writeln!(errors, "domain: check {error}"),
            Fault::Script(error) => writeln!(errors, "script: {error}"),
            Fault::Names => writeln!(errors, "domain: the supplies know other names"),
            Fault::Sessions => writeln!(errors, "script: it has other sessions"),
            Fault::Open(OpenError::BadConfig) => writeln!(errors, "too many workers or starts"),
            Fault::Open(OpenError::DeviceCount) => writeln!(errors, "not one device an object"),
            Fault::Output(error) => writeln!(errors, "output: {error}"),
            Fault::Domain(TextFault::Memory) | Fault::Open(OpenError::Memory) | Fault::Memory => {
                writeln!(errors, "out of memory")
            }
        }
    }
}
