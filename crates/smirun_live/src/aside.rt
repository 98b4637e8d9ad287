//! What is told beside the output, without waiting for whoever reads it.
ghost use Rattle.std.specs.Prelude.{◌≡◌, ◌≤◌, ◌++◌, List, OnErr, OnOk, false, length, true, ℕ};
ghost use Rattle.smirun_live.specs.Aside.{TellsAside, lost_text, unanswered_text, unsaid_line};
ghost use Rattle.smirun_live.specs.declared.aside.TheConstants.{MOST_WAITING};

use itoa::Buffer;
use std::alloc::{AllocError, Global};
use std::io::Write;
use std::sync::{Arc, Condvar, CondvarTimeouts, Mutex, Wait};
use std::thread::Threads;
use std::time::{Clock, Duration};
use std::{io, mem, thread};

// How many bytes wait at most to be written.
const MOST_WAITING: usize = 1_048_576;

// The room for them, and for the line of what was lost: where memory runs out, what is told of that needs none.
const ROOM: usize = MOST_WAITING + 64;

// How long the end of a manager waits at most until all is written, in milliseconds.
const LAST_WAIT: u64 = 1_000;

const NOT_TOLD: &[u8] = b"? not told\n";

// What was lost for want of room: answers to questions, and bytes of all else.
#[derive(Clone, Copy)]
struct Lost {
    answers: usize,
    bytes: u64,
}

// Adds a line for each answer that was lost. The error is out of memory.
fn add_unanswered(text: &mut Vec<u8>, answers: usize) -> Result<(), AllocError>
    ensures ok { OnOk result (text.new.items ≡ text.old.items ++ unanswered_text answers) }
    ensures err { OnErr result ((more : List ℕ) × (text.new.items ≡ text.old.items ++ more)) }
{
    for _ in 0..answers {
        match text.extend_from_slice(NOT_TOLD) {
            Ok(()) => {}
            Err(error) => return Err(error),
        }
    }
    Ok(())
}

// Adds the line of the bytes that were lost, if some were. The error is out of memory.
fn add_unsaid(text: &mut Vec<u8>, bytes: u64) -> Result<(), AllocError>
    ensures ok { OnOk result (text.new.items ≡ text.old.items ++ unsaid_line bytes) }
    ensures err { OnErr result ((more : List ℕ) × (text.new.items ≡ text.old.items ++ more)) }
{
    if bytes == 0 {
        return Ok(());
    }
    let mut buffer = Buffer::new();
    text.extend_from_slice(buffer.format(bytes).as_bytes())?;
    text.extend_from_slice(b" bytes not told\n")
}

// Adds what was lost, and then a remark. The error is out of memory; then a part of that was added.
fn add_all(text: &mut Vec<u8>, lost: Lost, remark: &[u8]) -> Result<(), AllocError>
    ensures ok { OnOk result (text.new.items ≡ text.old.items ++ (lost_text lost.answers lost.bytes ++ remark.now)) }
    ensures err { OnErr result ((more : List ℕ) × (text.new.items ≡ text.old.items ++ more)) }
{
    add_unanswered(text, lost.answers)?;
    add_unsaid(text, lost.bytes)?;
    text.extend_from_slice(remark)
}

// Whether a remark is the answer to a question: its last line begins with `stands `. (docs/FORMATS.md, "How a manager
// stands".)
fn is_answer(remark: &[u8]) -> bool {
    let mut last: &[u8] = &[];
    for line in remark.split_inclusive(|b| *b == b'\n') {
        last = line;
    }
    last.starts_with(b"stands ")
}

// What was told and is not written.
#[derive(Drop)]
struct Unwritten {
    bytes: Vec<u8>,
    lost: Lost,
    is_ended: bool,
    // Whether the thread that writes has ended.
    is_done: bool,
}

impl Unwritten {
    // How many bytes would wait at least with a remark.
    fn least_with(&self, remark: &[u8]) -> usize {
        let lost = self.lost.answers.saturating_mul(NOT_TOLD.len());
        lost.saturating_add(self.bytes.len())
            .saturating_add(remark.len())
    }

    // Adds a remark after what was lost before, if there is room for both. Whether it was added.
    fn add(&mut self, remark: &[u8]) -> bool
        ensures added { result ≡ true → self.new.bytes.items
            ≡ self.old.bytes.items ++ (lost_text self.old.lost.answers self.old.lost.bytes ++ remark.now) }
        ensures room { result ≡ true → length self.new.bytes.items ≤ MOST_WAITING }
        ensures same { result ≡ false → self.new.bytes.items ≡ self.old.bytes.items }
        ensures lost { self.new.lost ≡ self.old.lost }
    {
        let count = self.bytes.len();
        if self.least_with(remark) > MOST_WAITING {
            return false;
        }
        let is_added = add_all(&mut self.bytes, self.lost, remark).is_ok();
        if is_added && self.bytes.len() <= MOST_WAITING {
            return true;
        }
        self.bytes.truncate(count);
        false
    }

    // Tells a remark: it waits to be written, whole, or is counted as lost.
    fn tell(&mut self, remark: &[u8])
        ensures { TellsAside self.old.bytes.items self.old.lost.answers self.old.lost.bytes remark.now
            self.new.bytes.items self.new.lost.answers self.new.lost.bytes }
    {
        if self.add(remark) {
            self.lost = Lost {
                answers: 0,
                bytes: 0,
            };
            return;
        }
        if is_answer(remark) {
            self.lost.answers = self.lost.answers.saturating_add(1);
        } else {
            self.lost.bytes = self.lost.bytes.saturating_add(remark.len() as u64);
        }
    }
}

/// What is told beside the output: one thread tells, and another writes.
#[derive(Drop)]
struct Told {
    unwritten: Mutex<Unwritten>,
    // Notified when something was told, nothing will be told any more, or all is written.
    changed: Condvar,
}

impl Told {
    // Nothing was told. The error is out of memory.
    fn new(alloc: Global) -> Result<Told, AllocError> {
        let bytes = Vec::with_capacity(alloc, ROOM)?;
        Ok(Told {
            unwritten: Mutex::new(Unwritten {
                bytes,
                lost: Lost {
                    answers: 0,
                    bytes: 0,
                },
                is_ended: false,
                is_done: false,
            }),
            changed: Condvar::new(),
        })
    }

    fn tell<R: Wait>(&self, rt: &R, remark: &[u8]) {
        let mut unwritten = self.unwritten.lock(rt);
        unwritten.tell(remark);
        self.changed.notify_all();
    }

    // Exchanges what waits with what is empty, once something waits. False if nothing will be told any more.
    fn take<R: Wait>(&self, rt: &R, empty: &mut Vec<u8>) -> bool {
        let mut unwritten = self.unwritten.lock(rt);
        for _ in rt.forever() {
            if !unwritten.bytes.is_empty() {
                mem::swap(&mut unwritten.bytes, empty);
                return true;
            }
            if unwritten.is_ended {
                unwritten.is_done = true;
                self.changed.notify_all();
                return false;
            }
            unwritten = self.changed.wait(rt, unwritten);
        }
        unreachable!()
    }

    // Nothing will be told any more: waits until all is written, but not for ever.
    fn finish<R: Wait + Clock>(&self, rt: &R) {
        let mut unwritten = self.unwritten.lock(rt);
        unwritten.is_ended = true;
        self.changed.notify_all();
        let most = Duration::from_millis(LAST_WAIT);
        let _ = self
            .changed
            .wait_timeout_while(rt, unwritten, most, |it| !it.is_done);
    }
}

// Writes all that is told. What cannot be written is lost.
fn write_all<R: Wait, E: Write + Drop>(rt: &R, told: &Told, mut bytes: Vec<u8>, mut errors: E) {
    for _ in rt.forever() {
        bytes.clear();
        if !told.take(rt, &mut bytes) {
            return;
        }
        let _ = errors.write_all(&bytes);
    }
}

/// A writer that never waits: another thread writes what it is given. (docs/FORMATS.md, "Beside the output".)
///
/// What it is given up to a line feed at the end of a call is a remark: it is written whole, or dropped where more than
/// 1,048,576 bytes would wait. How much was dropped is told before the next one that has room: `? not told` for each
/// answer to a question, and `N bytes not told` for all else.
#[derive(Drop)]
pub struct Aside<R: Wait + Clock + Drop> {
    rt: R,
    told: Arc<Told>,
    // A remark that is not ended.
    begun: Vec<u8>,
}

impl<R: Threads + Wait + Clock + Copy + Send + Drop + 'static> Aside<R> {
    /// Starts the thread that writes to `errors`. It is never joined, since whoever reads may never read again. The
    /// error is out of memory.
    pub fn start<E: Write + Send + Drop + 'static>(
        rt: R,
        alloc: Global,
        errors: E,
    ) -> Result<Aside<R>, AllocError> {
        let told = Arc::new(alloc, Told::new(alloc)?)?;
        let theirs = Arc::try_clone(&told)?;
        let begun = Vec::new(alloc);
        let bytes = Vec::with_capacity(alloc, ROOM)?;
        match thread::spawn(&rt, move || write_all(&rt, &theirs, bytes, errors)) {
            Ok(_) => Ok(Aside { rt, told, begun }),
            Err(_) => Err(AllocError),
        }
    }

    /// Nothing will be told any more: waits until all is written, for a second at most.
    pub fn finish(&self) {
        self.told.finish(&self.rt);
    }
}

impl<R: Wait + Clock + Drop> Write for Aside<R> {
    fn write(&mut self, buf: &[u8]) -> io::Result<usize> {
        if !buf.ends_with(b"\n") && self.begun.extend_from_slice(buf).is_ok() {
            return Ok(buf.len());
        }
        if self.begun.is_empty() {
            self.told.tell(&self.rt, buf);
            return Ok(buf.len());
        }
        // (where there is no memory, in two parts)
        if self.begun.extend_from_slice(buf).is_ok() {
            self.told.tell(&self.rt, &self.begun);
        } else {
            self.told.tell(&self.rt, &self.begun);
            self.told.tell(&self.rt, buf);
        }
        self.begun.clear();
        Ok(buf.len())
    }

    fn flush(&mut self) -> io::Result<()> {
        Ok(())
    }
}
