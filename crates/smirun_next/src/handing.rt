//! The files of a log that gets a successor.

use smirun_live::LiveHost;
use std::alloc::Global;
use std::fs::{File, OpenOptions};
use std::io::{ErrorKind, Write};
use std::os::unix::fs::MetadataExt;
use std::path::Path;
use std::{fs, io};

/// Why a log did not get its successor. Its path is still that of the log, but where its folder could not be put on the
/// disk.
#[derive(Drop)]
pub(crate) enum Unhanded {
    /// A path, and why what was to be done with it could not be done.
    At(String, io::Error),
    /// The path of the log is no longer that of its file.
    Moved,
    /// Out of memory.
    Memory,
}

// Why something could not be done with a path.
fn at(alloc: Global, path: &str, cause: io::Error) -> Unhanded {
    if cause.kind() == ErrorKind::OutOfMemory {
        return Unhanded::Memory;
    }
    match String::from_str(alloc, path) {
        Ok(path) => Unhanded::At(path, cause),
        Err(_) => Unhanded::Memory,
    }
}

/// The path of the next log, as long as it is not in the place of the log.
pub(crate) fn next_path(alloc: Global, path: &str) -> Result<String, Unhanded> {
    match format!(in alloc; "{path}.next") {
        Ok(name) => Ok(name),
        Err(_) => Err(Unhanded::Memory),
    }
}

// A path that the log has when it is followed.
fn numbered_path(alloc: Global, path: &str, number: u64) -> Result<String, Unhanded> {
    match format!(in alloc; "{path}.{number}") {
        Ok(name) => Ok(name),
        Err(_) => Err(Unhanded::Memory),
    }
}

// Makes the file of the next log anew: what has its path, as an end of the program may have left it, is taken away, and
// never written to. Who may read and write the log may do so with the next one.
fn make_next<R: LiveHost>(rt: &R, path: &str, old: &File) -> io::Result<File> {
    match fs::remove_file(rt, path) {
        Ok(()) => {}
        Err(error) if error.kind() == ErrorKind::NotFound => {}
        Err(error) => return Err(error),
    }
    let mut how = OpenOptions::new();
    how.read(true).append(true).create_new(true);
    let file = how.open(rt, path)?;
    file.set_permissions(old.metadata()?.permissions())?;
    Ok(file)
}

// Writes the next log whole, and puts it on the disk. Nobody else has it as long as the file is open.
fn write_next<R: LiveHost>(rt: &R, path: &str, old: &File, text: &[u8]) -> io::Result<File> {
    let mut file = make_next(rt, path, old)?;
    if file.try_lock().is_err() {
        return Err(io::Error::from(ErrorKind::ResourceBusy));
    }
    file.write_all(text)?;
    file.sync_all()?;
    Ok(file)
}

// Whether a path is that of a file itself, and of no link to it.
fn is_path_of<R: LiveHost>(rt: &R, path: &str, file: &File) -> io::Result<bool> {
    let known = file.metadata()?;
    let found = fs::symlink_metadata(rt, path)?;
    Ok(found.is_file() && found.ino() == known.ino() && found.dev() == known.dev())
}

// Gives the file of a path a name more, the first of its numbered ones that is not there, and returns that.
fn link_old<R: LiveHost>(rt: &R, alloc: Global, path: &str) -> Result<String, Unhanded> {
    for number in 1..u64::MAX {
        let name = match numbered_path(alloc, path, number) {
            Ok(name) => name,
            Err(unhanded) => return Err(unhanded),
        };
        match fs::hard_link(rt, path, name.as_str()) {
            Ok(()) => return Ok(name),
            Err(error) if error.kind() == ErrorKind::AlreadyExists => {}
            Err(error) => return Err(at(alloc, name.as_str(), error)),
        }
    }
    Err(at(alloc, path, io::Error::from(ErrorKind::AlreadyExists)))
}

// The folder that has a path.
fn folder_of(path: &str) -> &str {
    match Path::new(path).parent() {
        Some(folder) if !folder.as_str().is_empty() => folder.as_str(),
        _ => ".",
    }
}

// Puts a folder on the disk.
fn sync_folder<R: LiveHost>(rt: &R, folder: &str) -> io::Result<()> {
    OpenOptions::new().read(true).open(rt, folder)?.sync_all()
}

// Puts the next log, which is written, in the place of the log, which keeps a name beside it; that is returned.
fn take_place<R: LiveHost>(rt: &R, path: &str, next: &str, old: &File) -> Result<String, Unhanded> {
    let alloc = rt.alloc();
    match is_path_of(rt, path, old) {
        Ok(true) => {}
        Ok(false) => return Err(Unhanded::Moved),
        Err(error) => return Err(at(alloc, path, error)),
    }
    let name = match link_old(rt, alloc, path) {
        Ok(name) => name,
        Err(unhanded) => return Err(unhanded),
    };
    if let Err(error) = fs::rename(rt, next, path) {
        return Err(at(alloc, next, error));
    }
    let folder = folder_of(path);
    match sync_folder(rt, folder) {
        Ok(()) => Ok(name),
        Err(error) => Err(at(alloc, folder, error)),
    }
}

/// Puts the next log, which has this text, in the place of a log, and returns the name that the log has then. At every
/// moment the path is that of the log or of the next one, whole, and what it names is on the disk.
pub(crate) fn hand_over<R: LiveHost>(
    rt: &R,
    path: &str,
    old: &File,
    text: &[u8],
) -> Result<String, Unhanded> {
    let alloc = rt.alloc();
    let next = match next_path(alloc, path) {
        Ok(next) => next,
        Err(unhanded) => return Err(unhanded),
    };
    if let Err(error) = old.sync_all() {
        return Err(at(alloc, path, error));
    }
    match write_next(rt, next.as_str(), old, text) {
        Ok(file) => {
            let name = take_place(rt, path, next.as_str(), old);
            // It is nobody else's until then.
            drop(file);
            name
        }
        Err(error) => Err(at(alloc, next.as_str(), error)),
    }
}
