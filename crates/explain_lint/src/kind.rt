//! The kinds of warnings.

/// What is senseless in a domain (docs/FORMATS.md, "Warnings").
#[derive(Clone, Copy, Debug, Eq, PartialEq)]
pub enum WarningKind {
    /// An instruction to which no action comes.
    Unreached,
    /// A state in which no object is ever.
    NoWayIn,
    /// A state that no action leaves.
    NoWayOut,
    /// A class whose actions have no instructions.
    NoBody,
    /// A test that is always true.
    Always,
    /// A test that is never true, or a set that never has a member.
    Never,
    /// Actions that send to one another in a circle.
    Circle,
    /// Objects that ask one another in a circle.
    WaitCircle,
    /// A parameter that nothing reads.
    NeverRead,
    /// A class, an object, a set or an action that nothing uses.
    Unused,
    /// A state that is named like death, or is the dead one, and does not kill.
    DeadByName,
}

impl WarningKind {
    /// The number of the kind, from 1.
    pub fn number(self) -> u64 {
        match self {
            WarningKind::Unreached => 1,
            WarningKind::NoWayIn => 2,
            WarningKind::NoWayOut => 3,
            WarningKind::NoBody => 4,
            WarningKind::Always => 5,
            WarningKind::Never => 6,
            WarningKind::Circle => 7,
            WarningKind::WaitCircle => 8,
            WarningKind::NeverRead => 9,
            WarningKind::Unused => 10,
            WarningKind::DeadByName => 11,
        }
    }

    /// The name of the kind, as a line has it, and a comment that keeps it from being told.
    pub fn name(self) -> &'static str {
        match self {
            WarningKind::Unreached => "Unreached",
            WarningKind::NoWayIn => "NoWayIn",
            WarningKind::NoWayOut => "NoWayOut",
            WarningKind::NoBody => "NoBody",
            WarningKind::Always => "Always",
            WarningKind::Never => "Never",
            WarningKind::Circle => "Circle",
            WarningKind::WaitCircle => "WaitCircle",
            WarningKind::NeverRead => "NeverRead",
            WarningKind::Unused => "Unused",
            WarningKind::DeadByName => "DeadByName",
        }
    }
}
