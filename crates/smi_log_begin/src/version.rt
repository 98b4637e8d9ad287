//! Of which version a log is.
ghost use Rattle.std.specs.Prelude.{◌≡◌};
ghost use Rattle.smi_log_begin.specs.Begins.{version_of_log};

use smi_log_front::LogVersion;

/// Of which version a log is, by how its first line begins: one that has only a part of that, or nothing, is of the
/// first. The cost is that of a look at 16 bytes.
pub fn log_version(log: &[u8]) -> LogVersion
    ensures { result ≡ version_of_log log.now }
{
    if log.starts_with(b"! smirun live 2 ") {
        LogVersion::Two
    } else {
        LogVersion::One
    }
}
