//! The arguments of commands. Each has a type of its own, so that none is taken for another.

/// The path of a source.
#[derive(Clone, Copy)]
pub struct SourcePath<'a>(pub &'a str);

/// The path of an image.
#[derive(Clone, Copy)]
pub struct ImagePath<'a>(pub &'a str);

/// The path of a schedule.
#[derive(Clone, Copy)]
pub struct SchedulePath<'a>(pub &'a str);

/// The path of a file for a schedule that is saved.
#[derive(Clone, Copy)]
pub struct SavePath<'a>(pub &'a str);

/// The path of a file for a picture.
#[derive(Clone, Copy)]
pub struct PicturePath<'a>(pub &'a str);

/// The path of a file for a page.
#[derive(Clone, Copy)]
pub struct PagePath<'a>(pub &'a str);

/// The path of a file for a list of races.
#[derive(Clone, Copy)]
pub struct ListPath<'a>(pub &'a str);

/// The path of a file for a table of races.
#[derive(Clone, Copy)]
pub struct TableToPath<'a>(pub &'a str);

/// The path of a file for what was found as JSON.
#[derive(Clone, Copy)]
pub struct JsonPath<'a>(pub &'a str);

/// The path of a folder for schedules.
#[derive(Clone, Copy)]
pub struct FolderPath<'a>(pub &'a str);

/// The path of a file of source lines.
#[derive(Clone, Copy)]
pub struct LinesPath<'a>(pub &'a str);

/// The path of a list of races that are to be ignored.
#[derive(Clone, Copy)]
pub struct IgnorePath<'a>(pub &'a str);

/// The sides of the near pairs that alone are probed: each a symbol's name, or an address in eight hexadecimal digits. They
/// may be the same.
#[derive(Clone, Copy)]
pub struct Aim<'a> {
    pub one: &'a str,
    pub other: &'a str,
}

/// The path of a table of races, or of a list of them.
#[derive(Clone, Copy)]
pub struct TablePath<'a>(pub &'a str);

/// The paths of tables of races, in order.
#[derive(Clone, Copy)]
pub struct TablePaths<'a>(pub &'a [&'a str]);
