//! What `hunt` reads.
ghost use Rattle.std.specs.Prelude.{◌≡◌};

use rv_memory::flagged::Flagged;

/// The image, the file of source lines, the list of races that are to be ignored, and the table or the list of those that are expected, where they are given.
#[derive(Drop)]
pub struct Inputs<R> {
    pub image: Flagged<R>,
    pub lines: Option<Flagged<R>>,
    pub ignored: Option<Flagged<R>>,
    pub expected: Option<Flagged<R>>,
}
