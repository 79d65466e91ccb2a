//! Files of the system, by their paths.
ghost use Rattle.std.specs.Prelude.{◌≡◌, ◌||◌, true, false, is_err, is_some, OnOk, option_and_then, option_map};
ghost use Rattle.std.specs.Io.KnownBytes.{ReadConsumes};
ghost use Rattle.std.specs.Io.{ReadsAtMost};
ghost use Rattle.rv_memory.specs.Flagged as flag;
ghost use Rattle.rv_files.specs.Files.{failed_path, path_if};

use crate::system::{Stream, SystemFault, SystemSaid, said_in};
use rv_engines::new_file::NewFile;
use rv_memory::flagged::{Flagged, WriteFault, flush, write_whole};
use std::fs::{self, File, OpenOptions};
use std::io::{self, Read, Write};
use std::rt::Files;

/// A file that is opened when it is first read. So a file that cannot be opened is a reader that fails, and where a
/// command reads two files, a fault of the first is told before it is tried to open the second.
#[derive(Drop)]
pub struct InputFile<'a, R: Files> {
    rt: &'a R,
    path: &'a str,
    file: Option<R::File>,
    said: Option<SystemSaid>,
}

impl<'a, R: Files> InputFile<'a, R> {
    pub fn new(rt: &'a R, path: &'a str) -> InputFile<'a, R>
        ensures { result.path ≡ path.entry }
    {
        InputFile {
            rt,
            path,
            file: None,
            said: None,
        }
    }

    /// What the system said when the file failed.
    pub fn said(&self) -> Option<SystemSaid> {
        self.said
    }
}

/// A file that failed.
#[derive(Clone, Copy)]
pub struct FailedFile<'a> {
    pub path: &'a str,
    /// What the system said.
    pub said: Option<SystemSaid>,
}

/// The file that was opened, where reading it failed.
pub fn failed_input<'a, R: Files>(file: Flagged<InputFile<'a, R>>) -> Option<FailedFile<'a>>
    ensures { option_map (λ failed. failed.path.now) result ≡ path_if (flag.has_failed file.entry) (flag.device file.entry).path.now }
{
    if !file.failed() {
        return None;
    }
    let input = file.into_inner();
    Some(FailedFile {
        path: input.path,
        said: input.said,
    })
}

impl<R: Files> InputFile<'_, R> {
    /// Reads, and opens the file before where that was not done.
    fn read_opened(&mut self, buf: &mut [u8]) -> io::Result<usize>
        ensures bound { ReadsAtMost result buf.new }
        ensures bytes { ReadConsumes (option_and_then R.File.remaining self.old.file)
            (option_and_then R.File.remaining self.new.file) result buf.new }
        ensures kept { OnOk result (is_some self.new.file ≡ true) }
        ensures open { is_some self.old.file ≡ true → is_some self.new.file ≡ true }
    {
        if let Some(file) = &mut self.file {
            return file.read(buf);
        }
        let mut file = fs::open(self.rt, self.path)?;
        let read = file.read(buf);
        self.file = Some(file);
        read
    }
}

impl<R: Files> Read for InputFile<'_, R> {
    // What an open file will give is what its next read gives: the file is not opened anew.
    ghost remaining = { λ input. option_and_then R.File.remaining input.file };

    fn read(&mut self, buf: &mut [u8]) -> io::Result<usize>
        ensures bound { ReadsAtMost result buf.new }
        ensures bytes { ReadConsumes (option_and_then R.File.remaining self.old.file)
            (option_and_then R.File.remaining self.new.file) result buf.new }
        ensures kept { OnOk result (is_some self.new.file ≡ true) }
        ensures open { is_some self.old.file ≡ true → is_some self.new.file ≡ true }
    {
        let read = self.read_opened(buf);
        self.said = said_in(&read);
        read
    }
}

/// A file that is made when its bytes are known.
#[derive(Drop)]
pub struct OutputFile<'a, R: Files> {
    rt: &'a R,
    path: &'a str,
    is_made: bool,
    failed: bool,
    said: Option<SystemSaid>,
}

impl<'a, R: Files> OutputFile<'a, R> {
    pub fn new(rt: &'a R, path: &'a str) -> OutputFile<'a, R>
        ensures { result.path ≡ path.entry }
    {
        OutputFile {
            rt,
            path,
            is_made: false,
            failed: false,
            said: None,
        }
    }

    /// Notes a failure.
    fn note(&mut self, done: Result<(), SystemFault>) -> Result<(), WriteFault>
        ensures failed { self.new.failed ≡ (self.old.failed || is_err result) }
        ensures made { self.new.is_made ≡ self.old.is_made }
    {
        match done {
            Ok(()) => Ok(()),
            Err(fault) => {
                self.failed = true;
                self.said = fault.said;
                Err(WriteFault)
            }
        }
    }
}

/// The file that was to be made, where that failed.
pub fn failed_output<'a, R: Files>(file: Option<OutputFile<'a, R>>) -> Option<FailedFile<'a>>
    ensures { option_map (λ failed. failed.path.now) result ≡ failed_path file.entry }
{
    match file {
        Some(file) if file.failed => Some(FailedFile {
            path: file.path,
            said: file.said,
        }),
        _ => None,
    }
}

/// The path of a file that failed, where one did.
pub fn path_of<'a>(failed: Option<FailedFile<'a>>) -> Option<&'a str>
    ensures { option_map (λ path. path.now) result ≡ option_map (λ file. file.path.now) failed.entry }
{
    let failed = failed?;
    Some(failed.path)
}

/// What the system said of it, or else of what is written to.
pub fn said_of(failed: Option<FailedFile<'_>>, output: Option<SystemSaid>) -> Option<SystemSaid> {
    match failed {
        Some(file) => file.said,
        None => output,
    }
}

/// Makes a file of the bytes at the path, or puts them in place of those of the file that is there.
pub fn write_file<R: Files>(rt: &R, path: &str, bytes: &[u8]) -> Result<(), SystemFault> {
    match fs::create(rt, path) {
        Ok(file) => write_all(file, bytes),
        Err(error) => Err(SystemFault::of(&error)),
    }
}

/// Writes the bytes to a file, and flushes it.
pub fn write_all<W: Write + Drop>(file: W, bytes: &[u8]) -> Result<(), SystemFault> {
    let mut writer = Flagged::new(Stream::new(file));
    if write_whole(&mut writer, bytes).is_ok() && flush(&mut writer).is_ok() {
        return Ok(());
    }
    let said = writer.into_inner().said();
    Err(SystemFault { said })
}

/// Looks whether a file that is there takes bytes, which are left as they are. A device or a pipe is not opened, since
/// another program may wait for it.
fn look_at_standing<R: Files>(rt: &R, path: &str) -> Result<(), SystemFault> {
    let Ok(metadata) = fs::metadata(rt, path) else {
        return Ok(());
    };
    if metadata.is_dir() {
        let said = Some(SystemSaid::IsFolder);
        return Err(SystemFault { said });
    }
    if !metadata.is_file() {
        return Ok(());
    }
    match OpenOptions::new().write(true).open(rt, path) {
        Ok(_) => Ok(()),
        Err(error) => Err(SystemFault::of(&error)),
    }
}

/// Looks whether a file can be made at the path: one that is not there is made and taken away.
pub fn look_at<R: Files>(rt: &R, path: &str) -> Result<(), SystemFault> {
    match File::create_new(rt, path) {
        Ok(_) => match fs::remove_file(rt, path) {
            Ok(()) => Ok(()),
            Err(error) => Err(SystemFault::of(&error)),
        },
        Err(error) if error.kind() == io::ErrorKind::AlreadyExists => look_at_standing(rt, path),
        Err(error) => Err(SystemFault::of(&error)),
    }
}

impl<R: Files> NewFile for OutputFile<'_, R> {
    ghost use Rattle.std.specs.Prelude.{⊤};

    ghost is_made = { λ file. file.is_made };

    // No contract of the system's says which bytes a file has.
    ghost Holds = { λ file bytes. ⊤ };

    ghost has_failed = { λ file. file.failed };

    fn look(&mut self) -> Result<(), WriteFault> {
        let looked = look_at(self.rt, self.path);
        self.note(looked)
    }

    fn make(&mut self, bytes: &[u8]) -> Result<(), WriteFault> {
        self.is_made = true;
        let written = write_file(self.rt, self.path, bytes);
        self.note(written)
    }
}
