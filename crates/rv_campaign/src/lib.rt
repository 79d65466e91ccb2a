//! Whole runs from a seed.
//!
//! To the layer above, a run's schedule is the one list that its seed, its number, the plan and the image's
//! sites drive (`specs/Run.antt`), and a campaign is the list of its runs, in order, or of what the caller keeps of each
//! (`specs/Campaign.antt`). A caller with jobs of its own has what is made of each, in order (`specs/Pool.antt`).
#![tactic(auto)]

mod kept;
mod pool;
mod run;
mod runs;
mod workers;

pub use kept::Keep;
pub use pool::{Jobs, PoolFault, all_made};
pub use run::{core_sampled, left_by, run_one};
pub use runs::{
    CampaignFault, Hunt, MOST_RUNS, MOST_WORKERS, NumberFault, campaign, kept_campaign,
};
