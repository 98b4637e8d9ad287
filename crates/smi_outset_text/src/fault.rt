//! Why a text does not begin with an outset.

/// Why a text does not begin with an outset that suits the domain.
#[derive(Clone, Copy, Debug, PartialEq, Eq)]
pub enum OutsetFault {
    /// A line is not one that an outset may have at this place. This many lines are good before it.
    BadLine(usize),
    /// Out of memory.
    Memory,
}
