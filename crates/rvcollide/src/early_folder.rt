//! The schedules of a folder while a hunt goes on. Each is named by the addresses of its race, as the race's number isn't known yet.
use rv_command::arguments::FolderPath;
use rv_files::files::write_all;
use rv_files::folder::Saved;
use rv_files::kept_file::place;
use rv_report::key::Key;
use std::alloc::{AllocError, Global};
use std::fs;

/// The name of a schedule that is not whole yet.
const UNFINISHED: &str = ".rvcollide-new";

/// A folder, and the races whose schedules lie in it.
#[derive(Drop)]
pub struct EarlyFolder<'a> {
    rt: &'a HostRuntime,
    path: &'a str,
    races: Vec<Key>,
}

/// The folder of a path, where one is given.
pub fn folder_of<'a>(
    alloc: Global,
    rt: &'a HostRuntime,
    path: Option<FolderPath<'a>>,
) -> Option<EarlyFolder<'a>> {
    let path = path?;
    Some(EarlyFolder {
        rt,
        path: path.0,
        races: Vec::new(alloc),
    })
}

impl EarlyFolder<'_> {
    /// The path of a race's schedule.
    fn path_of(&self, race: Key) -> Result<String, AllocError> {
        let folder = self.path;
        let file = Saved::of_race(race);
        format!(in self.rt.alloc(); "{folder}/{file}.schedule")
    }

    /// Makes the file of a race, or puts it in place of the one that is there.
    fn put(&self, race: Key, bytes: &[u8]) -> Result<(), AllocError> {
        let path = self.path_of(race)?;
        let folder = self.path;
        let new = format!(in self.rt.alloc(); "{folder}/{UNFINISHED}")?;
        let Ok(file) = fs::create(self.rt, new.as_str()) else {
            return Ok(());
        };
        let written = write_all(file, bytes);
        if written.is_err() || place(self.rt, new.as_str(), path.as_str()).is_err() {
            let _ = fs::remove_file(self.rt, new.as_str());
        }
        Ok(())
    }

    /// Keeps the schedule of a race. Where that fails now, it fails at the end too, and is told there.
    pub fn keep(&mut self, race: Key, bytes: &[u8]) {
        if self.races.push(race).is_ok() {
            let _ = self.put(race, bytes);
        }
    }

    /// Takes the schedules away.
    pub fn take_away(&self) {
        for race in &self.races {
            if let Ok(path) = self.path_of(*race) {
                let _ = fs::remove_file(self.rt, path.as_str());
            }
        }
    }
}
