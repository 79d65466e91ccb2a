//! The files that `hunt` and `show` make beside their text.
ghost use Rattle.std.specs.Prelude.{◌≡◌};

/// The folder of schedules, the page, the list of the races and the object of what was found, where they are wanted.
#[derive(Drop)]
pub struct Outputs<D, F> {
    pub folder: Option<D>,
    pub page: Option<F>,
    pub list: Option<F>,
    pub json: Option<F>,
}
