//! Keeps on disk what a hunt has found so far: a hunt that is killed leaves the schedules of its races, a page, a list, a table and an object.
use crate::early_folder::{EarlyFolder, folder_of};
use crate::paths::{json_path, list_path, page_path, table_to_path};
use rv_command::command::hunt::HuntLine;
use rv_engines::new_file::NewFile;
use rv_files::kept_file::{KeptFile, has_failed, is_replaced, replace, said_by};
use rv_files::system::SystemSaid;
use rv_memory::store::NoMemory;
use rv_plans::limit::Limit;
use rv_report::key::Key;
use rv_search::hunt::{Draft, Watch};
use rv_search::hunted::Hunted;
use rv_terminal::progress::Progress;
use std::alloc::Global;

/// The paths of the texts that are made anew while the hunt goes on: of those that are wanted what is no device and no pipe.
#[derive(Clone, Copy)]
struct Drafts<'a> {
    page: Option<&'a str>,
    list: Option<&'a str>,
    table: Option<&'a str>,
    object: Option<&'a str>,
}

impl<'a> Drafts<'a> {
    fn path(self, draft: Draft) -> Option<&'a str> {
        match draft {
            Draft::Page => self.page,
            Draft::List => self.list,
            Draft::Table => self.table,
            Draft::Object => self.object,
        }
    }
}

/// Watches a hunt: tells how far it has come, and keeps on disk what it has found.
#[derive(Drop)]
pub struct Keeper<'a> {
    rt: &'a HostRuntime,
    limit: Limit,
    progress: Progress<'a>,
    folder: Option<EarlyFolder<'a>>,
    wanted: Drafts<'a>,
    drafts: Drafts<'a>,
    table: Option<KeptFile<'a>>,
}

impl<'a> Keeper<'a> {
    pub fn new(
        rt: &'a HostRuntime,
        alloc: Global,
        progress: Progress<'a>,
        line: &HuntLine<'a>,
    ) -> Keeper<'a> {
        Keeper {
            rt,
            limit: line.limit,
            progress,
            folder: folder_of(alloc, rt, line.save_to),
            wanted: Drafts {
                page: page_path(line.page),
                list: list_path(line.list),
                table: table_to_path(line.table_to),
                object: json_path(line.json),
            },
            drafts: Drafts {
                page: None,
                list: None,
                table: None,
                object: None,
            },
            table: file_of(rt, table_to_path(line.table_to)),
        }
    }

    /// Whether the file of the table has failed.
    pub fn table_failed(&self) -> bool {
        has_failed(&self.table)
    }

    /// What the system said of it.
    pub fn table_said(&self) -> Option<SystemSaid> {
        said_by(&self.table)
    }

    /// Takes away the schedules that were kept while the hunt went on.
    pub fn take_away(&self) {
        if let Some(folder) = &self.folder {
            folder.take_away();
        }
    }
}

/// The file of a path, where one is given.
fn file_of<'a>(rt: &'a HostRuntime, path: Option<&'a str>) -> Option<KeptFile<'a>> {
    let path = path?;
    Some(KeptFile::new(rt, path))
}

/// A path that is given and names what can be replaced.
fn replaced<'a>(rt: &HostRuntime, path: Option<&'a str>) -> Option<&'a str> {
    let path = path?;
    is_replaced(rt, path).then_some(path)
}

impl Watch for Keeper<'_> {
    fn saw(&mut self, hunted: &Hunted) {
        self.progress.saw(self.limit, hunted);
    }

    fn shows(&mut self, shown: usize, all: usize) {
        self.progress.shows(shown, all);
    }

    fn tells_meetings(&self) -> bool {
        self.progress.tells_meetings()
    }

    fn met(&mut self, line: &[u8]) {
        self.progress.met(line);
    }

    fn ends(&mut self) {
        self.progress.ends();
    }

    fn begins(&mut self) -> Result<(), NoMemory> {
        self.drafts = Drafts {
            page: replaced(self.rt, self.wanted.page),
            list: replaced(self.rt, self.wanted.list),
            table: replaced(self.rt, self.wanted.table),
            object: replaced(self.rt, self.wanted.object),
        };
        match &mut self.table {
            Some(table) => table.look().map_err(|_| NoMemory),
            None => Ok(()),
        }
    }

    fn keeps_schedules(&self) -> bool {
        self.folder.is_some()
    }

    fn keep_schedule(&mut self, race: &Key, bytes: &[u8]) {
        if let Some(folder) = &mut self.folder {
            folder.keep(*race, bytes);
        }
    }

    fn keeps(&self, draft: Draft) -> bool {
        self.drafts.path(draft).is_some()
    }

    fn keep(&mut self, draft: Draft, bytes: &[u8]) {
        if let Some(path) = self.drafts.path(draft) {
            // What can't be written now is told where it can't be written at the end.
            let _ = replace(self.rt, path, bytes);
        }
    }

    fn takes_table(&self) -> bool {
        self.table.is_some()
    }

    fn take_table(&mut self, bytes: &[u8]) {
        if let Some(table) = &mut self.table {
            let _ = table.make(bytes);
        }
    }
}
