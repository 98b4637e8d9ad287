//! Outputs that cannot be written, and files that cannot be read.

use std::alloc::Allocator;
use std::fs::{File, Files, Metadata, OpenOptions};
use std::io;
use std::io::{ErrorKind, Write};
use std::sync::Wait;
use std::thread::Threads;
use std::time::{Clock, Duration};

/// A writer that fails.
#[derive(Drop)]
pub struct Fails;

impl Write for Fails {
    fn write(&mut self, _: &[u8]) -> io::Result<usize> {
        Err(io::Error::from(ErrorKind::StorageFull))
    }

    fn flush(&mut self) -> io::Result<()> {
        Ok(())
    }
}

/// A writer that takes nothing.
#[derive(Drop)]
pub struct TakesNothing;

impl Write for TakesNothing {
    fn write(&mut self, _: &[u8]) -> io::Result<usize> {
        Ok(0)
    }

    fn flush(&mut self) -> io::Result<()> {
        Ok(())
    }
}

/// A writer that takes all, and fails at the end.
#[derive(Drop)]
pub struct FailsLate;

impl Write for FailsLate {
    fn write(&mut self, bytes: &[u8]) -> io::Result<usize> {
        Ok(bytes.len())
    }

    fn flush(&mut self) -> io::Result<()> {
        Err(io::Error::from(ErrorKind::StorageFull))
    }
}

/// A writer that takes one byte a call, `left` bytes more, and then fails.
#[derive(Drop)]
pub struct TakesSome {
    pub taken: Vec<u8>,
    pub left: usize,
}

impl Write for TakesSome {
    fn write(&mut self, bytes: &[u8]) -> io::Result<usize> {
        let (Some(byte), Some(left)) = (bytes.first(), self.left.checked_sub(1)) else {
            return Err(io::Error::from(ErrorKind::StorageFull));
        };
        self.taken.push(*byte)?;
        self.left = left;
        Ok(1)
    }

    fn flush(&mut self) -> io::Result<()> {
        Ok(())
    }
}

/// Files that are never opened, as there is no memory. Threads are those of another runtime.
#[derive(Clone, Copy)]
pub struct NoMemory<R>(pub R);

impl<R: Threads> Threads for NoMemory<R> {}

impl<R: Wait> Wait for NoMemory<R> {}

impl<R: Clock> Clock for NoMemory<R> {
    fn monotonic(&self) -> io::Result<Duration> {
        self.0.monotonic()
    }

    fn since_1970(&self) -> io::Result<Duration> {
        self.0.since_1970()
    }
}

fn no_memory() -> io::Error {
    io::Error::from(ErrorKind::OutOfMemory)
}

impl<R> Files for NoMemory<R> {
    type File = File;

    type Dir = File;

    fn open_file(&self, _how: &OpenOptions, _path: &str) -> io::Result<File> {
        Err(no_memory())
    }

    fn open_dir(&self, _path: &str) -> io::Result<File> {
        Err(no_memory())
    }

    fn metadata(&self, _path: &str) -> io::Result<Metadata> {
        Err(no_memory())
    }

    fn symlink_metadata(&self, _path: &str) -> io::Result<Metadata> {
        Err(no_memory())
    }

    fn copy(&self, _from: &str, _to: &str) -> io::Result<u64> {
        Err(no_memory())
    }

    fn rename(&self, _from: &str, _to: &str) -> io::Result<()> {
        Err(no_memory())
    }

    fn remove_file(&self, _path: &str) -> io::Result<()> {
        Err(no_memory())
    }

    fn create_dir(&self, _path: &str) -> io::Result<()> {
        Err(no_memory())
    }

    fn remove_dir(&self, _path: &str) -> io::Result<()> {
        Err(no_memory())
    }

    fn remove_dir_all<B: Allocator>(&self, _alloc: B, _path: &str) -> io::Result<()> {
        Err(no_memory())
    }
}
