//! What a command with threads is given to run on.

use std::fs::Files;
use std::sync::Wait;
use std::thread::Threads;
use std::time::Clock;

/// The files, memory, threads and clock of a system, as `HostRuntime` has them.
pub trait Host: Files + AllocGlobal + Clock + Threads + Wait + Copy + Send + Sync + Drop {}

impl<R: Files + AllocGlobal + Clock + Threads + Wait + Copy + Send + Sync + Drop> Host for R {}
