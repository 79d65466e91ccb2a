//! The plan of a run.
ghost use Rattle.std.specs.Prelude.{◌≡◌, ◌↔◌, IsSome, IfSome};
ghost use Rattle.rv_collide.specs.Plan.{IsPlan};

pub use rv_break::claim::MOST_SLOTS;
pub use rv_hart::machine::MOST_HARTS;

/// The most steps of a run.
pub const MOST_STEPS: u32 = 1_000_000;

/// The most addresses that are armed in a run.
pub const MOST_ARMS: u32 = 4096;

/// The longest pause, in steps of other harts.
pub const MOST_PAUSE: u32 = 65_535;

/// How many slots a plan has where nothing says their number.
pub const DEFAULT_SLOTS: u8 = 4;

/// The numbers that a run is given: how many harts there are (1 to 16), how many steps they make together
/// at most (1 to 1,000,000), how many addresses are armed in all at most (0 to 4096), how many steps of
/// other harts a pause lasts at least (1 to 65,535), and how many slots there are, each of which watches one
/// pause (1 to 8).
#[derive(Clone, Copy)]
pub struct Plan {
    pub harts: u8,
    pub steps: u32,
    pub arms: u32,
    pub pause: u32,
    pub slots: u8,
    pub ghost in_range: { IsPlan (record { harts = harts; steps = steps; arms = arms; pause = pause; slots = slots }) },
}

impl Plan {
    ghost use Rattle.rv_collide.specs.Numbers.{numbers};
    ghost use Rattle.rv_collide.specs.Plan.{most_entries};

    /// The plan of these numbers, where they are in range.
    pub fn new(harts: u8, steps: u32, arms: u32, pause: u32, slots: u8) -> Option<Plan>
        ensures valid { IsSome result
            ↔ IsPlan (record { harts = harts; steps = steps; arms = arms; pause = pause; slots = slots }) }
        ensures value { IfSome result (λ plan. numbers plan
            ≡ record { harts = harts; steps = steps; arms = arms; pause = pause; slots = slots }) }
    {
        let machine = 1 <= harts && harts <= MOST_HARTS;
        let run = 1 <= steps && steps <= MOST_STEPS && arms <= MOST_ARMS;
        let pauses = 1 <= pause && pause <= MOST_PAUSE && 1 <= slots && slots <= MOST_SLOTS;
        if machine && run && pauses {
            Some(Plan {
                harts,
                steps,
                arms,
                pause,
                slots,
            })
        } else {
            None
        }
    }

    /// How many entries a schedule of the plan has at most: `steps + 4 * arms`.
    pub fn most_entries(&self) -> u32
        ensures { result ≡ most_entries (numbers self.now) }
    {
        self.steps + 4 * self.arms
    }
}
