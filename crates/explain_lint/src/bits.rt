//! Small sets of numbers. A file has at most 64 classes, 64 objects and 32 sets, and a class 33 states.

/// Numbers below 64, each once.
#[derive(Clone, Copy, Eq, PartialEq)]
pub(crate) struct Bits {
    bits: u64,
}

impl Bits {
    /// No number.
    pub(crate) const NONE: Bits = Bits { bits: 0 };

    /// One number; none if it is not below 64.
    pub(crate) fn one(number: usize) -> Bits {
        if number >= 64 {
            return Bits::NONE;
        }
        Bits {
            bits: 1u64.wrapping_shl(number as u32),
        }
    }

    /// Whether a number is among them.
    pub(crate) fn has(self, number: usize) -> bool {
        self.common(Bits::one(number)) != Bits::NONE
    }

    /// With one number more.
    pub(crate) fn with(self, number: usize) -> Bits {
        self.and(Bits::one(number))
    }

    /// Those of both.
    pub(crate) fn and(self, other: Bits) -> Bits {
        Bits {
            bits: self.bits | other.bits,
        }
    }

    /// Those that both have.
    pub(crate) fn common(self, other: Bits) -> Bits {
        Bits {
            bits: self.bits & other.bits,
        }
    }

    /// Those that the other has not.
    pub(crate) fn without(self, other: Bits) -> Bits {
        Bits {
            bits: self.bits & !other.bits,
        }
    }
}
