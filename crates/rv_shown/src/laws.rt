//! What holds of the races that a hunt shows. The law is the contract of a function that does nothing.
ghost use Rattle.rv_shown.specs.ShownOnce.{EachIsCountedOnce, EachIsShownOnce};

use rv_tables::laws::races_are_apart;

/// Each race as it is shown is shown one by one, or is of class named. Each report that a hunt saw is counted once: with such a race, or
/// with a row that a line of `--ignore` fits.
pub fn each_race_is_shown_once()
    ensures shown { EachIsShownOnce }
    ensures counted { EachIsCountedOnce }
{
    races_are_apart();
}
