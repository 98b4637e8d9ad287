//! Why a text does not begin with a front.

/// Why a text does not begin with a front that suits the domain.
#[derive(Clone, Copy, Debug, PartialEq, Eq)]
pub enum FrontFault {
    /// The line of this number is the first that no such front has there. The first line of the text is 1.
    BadLine(usize),
    /// Out of memory.
    Memory,
}
