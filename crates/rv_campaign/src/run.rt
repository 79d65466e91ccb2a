ghost use Rattle.std.specs.Prelude.{◌≡◌, ◌<◌, ◌≤◌, ℕ, true, false, None, length, IfOk};
ghost use Rattle.rv_campaign.specs.Kept.{IsCoreOf, Source};
ghost use Rattle.rv_campaign.specs.Run.{IsRun, IsRunOver, sampling_of};
ghost use Rattle.rv_campaign.specs.internal.Driving.{IsDriving, SameRun};
ghost use Rattle.rv_drive.specs.Drawn.{driven};
ghost use Rattle.rv_collide.specs.Plan.{Numbers, most_entries};
ghost use Rattle.rv_collide.specs.Stored.{setting_of};
ghost use Rattle.rv_collide.specs.Numbers.{numbers};

use rv_collide::collider::{Collider, Finished};
use rv_collide::plan::Plan;
use rv_drive::driver::Driver;
use rv_drive::driver_laws::{accepted_calls, draws_owed};
use rv_elf::Image;
use rv_memory::flat::Flat;
use rv_memory::store::NoMemory;
use rv_sample::{Generator, Sampler};
use std::alloc::Global;

/// The one run of an image and a plan by the words of a seed and a run's number, at the image's sites without
/// the excluded addresses. It answers want of memory alone.
pub fn run_one(
    alloc: Global,
    image: &Image,
    plan: Plan,
    seed: u64,
    run: u32,
    excluded: &[u32],
) -> Result<Finished, NoMemory>
    ensures { IfOk result (λ told. IsRun (record {
      image = image.now;
      plan = numbers plan;
      seed = seed;
      excluded = excluded.now;
    }) run told) }
{
    let sampler = Sampler::sites(alloc, image, excluded)?;
    let core = core_sampled(alloc, image, plan, seed, run, &sampler)?;
    Ok(left_by(core))
}

/// What the run leaves that is over with a core.
pub fn left_by(core: Collider<Flat>) -> Finished
    ensures plan { numbers result.plan ≡ core.plan }
    ensures entries { result.entries.items ≡ core.entries }
    ensures run { (source : Source) (plan : Numbers) (run : ℕ) → IsCoreOf source plan run core
        → IsRunOver source.image plan source.sites source.seed run result }
{
    core.finish()
}

/// The core at the end of a run over the sites of a sampler.
pub fn core_sampled(
    alloc: Global,
    image: &Image,
    plan: Plan,
    seed: u64,
    run: u32,
    sampler: &Sampler,
) -> Result<Collider<Flat>, NoMemory>
    ensures { IfOk result (λ core. IsCoreOf (record {
      image = image.now;
      sites = sampler.now;
      seed = seed;
    }) (numbers plan) run core) }
{
    draws_owed();
    let mut words = Generator::new(seed, u64::from(run));
    let mut driver = Driver::open(alloc, image, plan, sampler, &mut words)?;
    // Speed: what was lent to a call stays in memory, and what was not may stay in registers.
    let mut words = words;
    while go_on(&mut driver, &mut words, sampler) {}
    Ok(driver.into_collider())
}

/// What the run adds next: the lowest pause that is due ends, and a draw follows; else able harts take turns.
/// It answers whether there was something to add.
fn go_on(driver: &mut Driver, words: &mut Generator, sampler: &Sampler) -> bool
    requires driving { IsDriving (setting_of driver.old)
        (sampling_of sampler.now words.old.seed words.old.stream) driver.old.entries words.old.taken }
    ensures driving { IsDriving (setting_of driver.new)
        (sampling_of sampler.now words.new.seed words.new.stream) driver.new.entries words.new.taken }
    ensures same { SameRun driver.old driver.new words.old words.new }
    ensures longer { result ≡ true → length driver.old.entries < length driver.new.entries }
    ensures few { length driver.new.entries ≤ most_entries driver.new.plan }
    ensures over { result ≡ false → driven (setting_of driver.new)
        (sampling_of sampler.now words.new.seed words.new.stream) driver.new.entries ≡ None }
{
    accepted_calls();
    draws_owed();
    driver.collider().facts();
    let _plan = driver.collider().plan();
    if let Some(h) = driver.due() {
        driver.resume(h);
        driver.draw(sampler, words);
        driver.collider().facts();
        return true;
    }
    if driver.count() == 0 {
        return false;
    }
    driver.turns(words);
    driver.collider().facts();
    true
}
