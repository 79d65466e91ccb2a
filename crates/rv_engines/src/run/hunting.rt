//! The campaign that an image and the options ask for.
ghost use Rattle.std.specs.Prelude.{◌≡◌, ◌||◌, false, IfOk, IfErr, IfSome, IsOkAnd};
ghost use Rattle.rv_collide.specs.Grammar.{IsWritable};
ghost use Rattle.rv_collide.specs.Numbers.{numbers};
ghost use Rattle.rv_memory.specs.Flagged as flag;
ghost use Rattle.rv_engines.specs.Campaigns as spec;
ghost use Rattle.rv_engines.specs.Request.{request};
ghost use Rattle.rv_faults.specs.CommandFault.{IsTold, refusal, fails_by, is_read, is_write};
ghost use Rattle.rv_engines.specs.internal.Hunted.{HasScheduleOf, IsReady, hunt_of};

use crate::image::read_image;
use crate::run::lists::{read_named, read_skipped};
use crate::run::options::Options;
use crate::run::runs::endings_of_campaign;
use crate::run::table::table_of;
use rv_campaign::run_one;
use rv_collide::collider::Finished;
use rv_collide::plan::Plan;
use rv_collide::schedule::laws::legal_is_writable;
use rv_drive::driver_laws::seeded_runs;
use rv_elf::Image;
use rv_faults::command::CommandFault;
use rv_memory::flagged::Flagged;
use rv_memory::store::NoMemory;
use rv_report::race_table::RaceTable;
use std::alloc::Global;
use std::io::Read;
use std::sync::Wait;
use std::thread::Threads;

/// What the runs of a campaign are made of, and their race table.
#[derive(Drop)]
pub struct Hunted {
    pub image: Image,
    pub plan: Plan,
    pub seed: u32,
    pub excluded: Vec<u32>,
    pub table: RaceTable,
}

impl Hunted {
    /// Makes a run of the campaign again, since only its endings were kept.
    pub fn run(&self, alloc: Global, run: u32) -> Result<Finished, NoMemory>
        ensures schedule { IfOk result (HasScheduleOf (hunt_of self.now) run) }
        ensures writable { IfOk result (λ told. IsWritable (numbers told.plan) told.entries.items) }
    {
        seeded_runs();
        legal_is_writable();
        let seed = u64::from(self.seed);
        run_one(alloc, &self.image, self.plan, seed, run, &self.excluded)
    }
}

/// Reads an image and makes the campaign's runs of it.
pub fn hunt<'a, R: Read>(
    rt: &(impl Threads + Wait + Sync),
    alloc: Global,
    options: &Options<'a>,
    image: &mut Flagged<R>,
) -> Result<Hunted, CommandFault<'a>>
    ensures ok { IfOk result (λ hunted. IfSome (R.remaining (flag.device image.old)) (λ bytes.
        IsOkAnd (spec.campaign_of (request options.now) bytes) (IsReady (request options.now) hunted))) }
    ensures err { IfErr result (λ fault. IfSome (R.remaining (flag.device image.old)) (λ bytes.
        IsTold (spec.campaign_of (request options.now) bytes) (refusal fault))) }
    ensures reader { flag.has_failed image.new ≡ (flag.has_failed image.old || fails_by is_read result) }
    ensures writer { fails_by is_write result ≡ false }
{
    let contents = read_image(alloc, image)?;
    let excluded = read_skipped(alloc, options.skip)?;
    let ranges = read_named(alloc, &contents, options.named)?;
    let ended = endings_of_campaign(rt, alloc, options, &contents, &excluded)?;
    let table = table_of(rt, alloc, &contents, &ranges, options.runs, &ended)?;
    Ok(Hunted {
        image: contents,
        plan: options.plan,
        seed: options.seed,
        excluded,
        table,
    })
}
