//! A writer that takes one byte after the other, and then fails.

use std::alloc::{AllocError, Global};
use std::io::{Error, Write};

/// Takes one byte a call, and fails at a call or takes nothing there.
#[derive(Drop)]
pub struct OneByte {
    /// The bytes that it took.
    pub taken: Vec<u8>,
    good_calls: usize,
    by_error: bool,
    /// How often it was called.
    pub calls: usize,
}

impl Write for OneByte {
    fn write(&mut self, buf: &[u8]) -> std::io::Result<usize> {
        self.calls = self.calls.saturating_add(1);
        if self.taken.len() >= self.good_calls {
            return if self.by_error {
                Err(Error::from(AllocError))
            } else {
                Ok(0)
            };
        }
        let [first, ..] = buf else {
            return Ok(0);
        };
        self.taken.push(*first)?;
        Ok(1)
    }

    fn flush(&mut self) -> std::io::Result<()> {
        Ok(())
    }
}

/// A writer that is good for `good_calls` calls.
pub fn one_byte_writer(alloc: Global, good_calls: usize, by_error: bool) -> OneByte {
    OneByte {
        taken: Vec::new(alloc),
        good_calls,
        by_error,
        calls: 0,
    }
}
