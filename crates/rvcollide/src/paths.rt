//! The paths of a line of `hunt`.
use rv_command::arguments::{
    FolderPath, IgnorePath, JsonPath, LinesPath, ListPath, PagePath, TablePath, TableToPath,
};

/// The path of the file of source lines.
pub fn lines_path<'a>(path: Option<LinesPath<'a>>) -> Option<&'a str> {
    let path = path?;
    Some(path.0)
}

/// The path of the list of races that are to be ignored.
pub fn ignore_path<'a>(path: Option<IgnorePath<'a>>) -> Option<&'a str> {
    let path = path?;
    Some(path.0)
}

/// The path of the table or the list of the races that are expected.
pub fn expect_path<'a>(path: Option<TablePath<'a>>) -> Option<&'a str> {
    let path = path?;
    Some(path.0)
}

/// The path of the folder for schedules.
pub fn folder_path<'a>(path: Option<FolderPath<'a>>) -> Option<&'a str> {
    let path = path?;
    Some(path.0)
}

/// The path of the page.
pub fn page_path<'a>(path: Option<PagePath<'a>>) -> Option<&'a str> {
    let path = path?;
    Some(path.0)
}

/// The path of the list of the races.
pub fn list_path<'a>(path: Option<ListPath<'a>>) -> Option<&'a str> {
    let path = path?;
    Some(path.0)
}

/// The path of the table.
pub fn table_to_path<'a>(path: Option<TableToPath<'a>>) -> Option<&'a str> {
    let path = path?;
    Some(path.0)
}

/// The path of the file for what was found as JSON.
pub fn json_path<'a>(path: Option<JsonPath<'a>>) -> Option<&'a str> {
    let path = path?;
    Some(path.0)
}
