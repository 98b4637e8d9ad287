//! How runs end.

/// How a worker ended, or a run.
#[derive(Clone, Copy, Debug, Eq, PartialEq)]
pub enum ServeEnd {
    /// Every session has left, no task and no call of a device is out, no live closed object has a request that
    /// waits, and no suspended action can continue.
    Quiet,
    /// The same, except for requests that wait since as many were started as may be.
    Limit,
    /// Out of memory. What was in hand was put back, and a later `serve` may continue.
    Memory,
}
