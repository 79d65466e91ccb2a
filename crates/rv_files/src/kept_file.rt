//! Files that a hunt makes anew while it goes on. What stands in such a file is always a whole text: a new file in the same folder is
//! written, and takes the place of the old one.
ghost use Rattle.std.specs.Prelude.{◌≡◌, ◌||◌, is_err};

use crate::files::{look_at, write_all, write_file};
use crate::system::{SystemFault, SystemSaid};
use rv_engines::new_file::NewFile;
use rv_memory::flagged::WriteFault;
use std::fs::{self, File};
use std::io;
use std::path::{Path, PathBuf};

/// A file that is made anew.
#[derive(Drop)]
pub struct KeptFile<'a> {
    rt: &'a HostRuntime,
    path: &'a str,
    is_made: bool,
    failed: bool,
    said: Option<SystemSaid>,
}

impl<'a> KeptFile<'a> {
    pub fn new(rt: &'a HostRuntime, path: &'a str) -> KeptFile<'a> {
        KeptFile {
            rt,
            path,
            is_made: false,
            failed: false,
            said: None,
        }
    }

    /// Notes a failure.
    fn note(&mut self, done: Result<(), SystemFault>) -> Result<(), WriteFault>
        ensures failed { self.new.failed ≡ (self.old.failed || is_err result) }
        ensures made { self.new.is_made ≡ self.old.is_made }
    {
        match done {
            Ok(()) => Ok(()),
            Err(fault) => {
                self.failed = true;
                self.said = fault.said;
                Err(WriteFault)
            }
        }
    }
}

impl NewFile for KeptFile<'_> {
    ghost use Rattle.std.specs.Prelude.{⊤};

    ghost is_made = { λ file. file.is_made };

    // No contract of the system's says which bytes a file has.
    ghost Holds = { λ file bytes. ⊤ };

    ghost has_failed = { λ file. file.failed };

    fn look(&mut self) -> Result<(), WriteFault> {
        let looked = look_at(self.rt, self.path);
        self.note(looked)
    }

    fn make(&mut self, bytes: &[u8]) -> Result<(), WriteFault> {
        self.is_made = true;
        let written = replace(self.rt, self.path, bytes);
        self.note(written)
    }
}

/// Whether a file has failed, where one is made.
pub fn has_failed(file: &Option<KeptFile<'_>>) -> bool {
    match file {
        Some(file) => file.failed,
        None => false,
    }
}

/// What the system said of it.
pub fn said_by(file: &Option<KeptFile<'_>>) -> Option<SystemSaid> {
    match file {
        Some(file) => file.said,
        None => None,
    }
}

/// Whether another file can take the place of what is at the path: a regular file, or nothing. A device or a pipe is written once, and
/// so is what is open already, as by `/dev/stdout`.
pub fn is_replaced(rt: &HostRuntime, path: &str) -> bool {
    if path.starts_with("/dev/") || path.starts_with("/proc/") {
        return false;
    }
    match fs::metadata(rt, path) {
        Ok(metadata) => metadata.is_file(),
        Err(_) => true,
    }
}

/// Whether a link is at the path.
fn is_link(rt: &HostRuntime, path: &str) -> bool {
    match fs::symlink_metadata(rt, path) {
        Ok(metadata) => metadata.is_symlink(),
        Err(_) => false,
    }
}

/// The path of a new file beside that of a path.
fn beside(rt: &HostRuntime, path: &str) -> Option<PathBuf> {
    let path = Path::new(path);
    let name = path.file_name()?;
    let new = format!(in rt.alloc(); ".{name}.rvcollide-new").ok()?;
    path.with_file_name(rt.alloc(), new.as_str()).ok()
}

/// A file that is open, and its path.
#[derive(Drop)]
struct NewOne {
    path: PathBuf,
    file: File,
}

/// A new file that is to take the place of that at the path, with the permissions of that; none where it can't be made.
fn new_one(rt: &HostRuntime, path: &str) -> Option<NewOne> {
    let new = beside(rt, path)?;
    let file = fs::create(rt, new.as_str()).ok()?;
    match permit(rt, &file, path) {
        Ok(()) => Some(NewOne { path: new, file }),
        Err(_) => {
            let _ = fs::remove_file(rt, new.as_str());
            None
        }
    }
}

/// Gives a file the permissions of that at the path, where one is there.
fn permit(rt: &HostRuntime, file: &File, path: &str) -> io::Result<()> {
    match fs::metadata(rt, path) {
        Ok(metadata) => file.set_permissions(metadata.permissions()),
        Err(_) => Ok(()),
    }
}

/// Makes a file of the bytes in place of that at the path, which has the old ones until all of the new ones are written. Where no
/// new file can be made beside it, it is written as it stands.
pub fn replace(rt: &HostRuntime, path: &str, bytes: &[u8]) -> Result<(), SystemFault> {
    if !is_replaced(rt, path) {
        return write_file(rt, path, bytes);
    }
    if !is_link(rt, path) {
        return replace_at(rt, path, bytes);
    }
    match fs::canonicalize(rt, path) {
        Ok(target) => replace_at(rt, target.as_str(), bytes),
        // It leads to a file that isn't there yet.
        Err(_) => write_file(rt, path, bytes),
    }
}

/// The same where the path is no link and no device.
fn replace_at(rt: &HostRuntime, path: &str, bytes: &[u8]) -> Result<(), SystemFault> {
    let Some(NewOne { path: new, file }) = new_one(rt, path) else {
        return write_file(rt, path, bytes);
    };
    let placed = match write_all(file, bytes) {
        Ok(()) => place(rt, new.as_str(), path),
        Err(fault) => Err(fault),
    };
    if placed.is_err() {
        let _ = fs::remove_file(rt, new.as_str());
    }
    placed
}

/// Gives a file the name of another one, in whose place it stands.
pub fn place(rt: &HostRuntime, new: &str, path: &str) -> Result<(), SystemFault> {
    match fs::rename(rt, new, path) {
        Ok(()) => Ok(()),
        Err(error) => Err(SystemFault::of(&error)),
    }
}
