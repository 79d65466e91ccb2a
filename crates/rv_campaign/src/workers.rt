//! The runs of a campaign by workers, each in a thread of its own.
ghost use Rattle.std.specs.Prelude.{◌≡◌, ◌+◌, ◌≤◌, ◌<◌, IfOk, IfErr};
ghost use Rattle.std.specs.Thread.{IsSend, IsSync};
ghost use Rattle.rv_campaign.specs.Kept.{IsKept};
ghost use Rattle.rv_campaign.specs.internal.Pieces.{AreKeptBetween, IsMet, first_of};
ghost use Rattle.rv_collide.specs.Numbers.{numbers};

use crate::kept::Keep;
use crate::run::core_sampled;
use crate::runs::CampaignFault;
use rv_collide::plan::Plan;
use rv_drive::gate::Gate;
use rv_elf::Image;
use rv_memory::store::NoMemory;
use rv_sample::Sampler;
use std::alloc::Global;
use std::sync::Wait;
use std::thread;
use std::thread::{Promise, Threads};

/// What the workers share: what their runs are made of, how many they are, how many workers make them, the gate, and
/// what is kept of each.
#[derive(Drop)]
pub(crate) struct Work<'a, G: Gate, K: Keep> {
    pub alloc: Global,
    pub image: &'a Image,
    pub plan: Plan,
    pub seed: u64,
    pub sampler: &'a Sampler,
    pub count: u32,
    pub workers: u8,
    pub gate: &'a G,
    pub keep: &'a K,
}

/// The runs of one worker. What is kept of them is what it promises.
#[derive(Drop)]
struct Piece<'a, G: Gate, K: Keep> {
    work: &'a Work<'a, G, K>,
    worker: u8,
}

impl<'a, G: Gate, K: Keep> Promise<Result<Vec<K::Kept>, CampaignFault<G::Shut>>>
    for Piece<'a, G, K> {
    ghost kept_by = { λ p told. IfOk told (λ kept. AreKeptBetween (K.keeps p.work.now.keep.now) (record {
      image = p.work.now.image.now;
      sites = p.work.now.sampler.now;
      seed = p.work.now.seed;
    }) (numbers p.work.now.plan)
        (first_of p.work.now.count p.work.now.workers p.worker)
        (first_of p.work.now.count p.work.now.workers (p.worker + 1)) kept.items)
        × IfErr told (λ fault. IsMet G.shuts fault) };
}

/// Where a worker's runs begin among so many: the runs are split into consecutive pieces of one length, of which the
/// first are longer by one where that doesn't go evenly.
fn first_of(count: u32, workers: u8, worker: u8) -> u32
    requires some { 0 < workers }
    requires worker { worker ≤ workers }
    ensures is { result ≡ first_of count workers worker }
    ensures within { result ≤ count }
{
    let (workers, worker) = (u32::from(workers), u32::from(worker));
    worker * (count / workers) + worker.min(count % workers)
}

impl<'a, G: Gate, K: Keep> Work<'a, G, K> {
    /// What is kept of a run.
    fn kept(&self, run: u32) -> Result<K::Kept, NoMemory>
        ensures { IfOk result (λ kept. IsKept (K.keeps self.now.keep.now) (record {
          image = self.now.image.now;
          sites = self.now.sampler.now;
          seed = self.now.seed;
        }) (numbers self.now.plan) run kept) }
    {
        let core = core_sampled(
            self.alloc,
            self.image,
            self.plan,
            self.seed,
            run,
            self.sampler,
        )?;
        self.keep.keep(self.alloc, core)
    }

    /// What a worker keeps of a run, made within the gate.
    fn run(&self, worker: u8, run: u32) -> Result<K::Kept, CampaignFault<G::Shut>>
        ensures ok { IfOk result (λ kept. IsKept (K.keeps self.now.keep.now) (record {
          image = self.now.image.now;
          sites = self.now.sampler.now;
          seed = self.now.seed;
        }) (numbers self.now.plan) run kept) }
        ensures err { IfErr result (λ fault. IsMet G.shuts fault) }
    {
        if let Err(shut) = self.gate.enter(worker) {
            return Err(CampaignFault::GateClosed(worker, shut));
        }
        let kept = self.kept(run);
        self.gate.leave(worker);
        Ok(kept?)
    }

    /// What a worker keeps of its runs, in order.
    fn piece(&self, worker: u8) -> Result<Vec<K::Kept>, CampaignFault<G::Shut>>
        requires worker { worker < self.now.workers }
        ensures ok { IfOk result (λ kept. AreKeptBetween (K.keeps self.now.keep.now) (record {
          image = self.now.image.now;
          sites = self.now.sampler.now;
          seed = self.now.seed;
        }) (numbers self.now.plan)
            (first_of self.now.count self.now.workers worker)
            (first_of self.now.count self.now.workers (worker + 1)) kept.items) }
        ensures err { IfErr result (λ fault. IsMet G.shuts fault) }
    {
        let begin = first_of(self.count, self.workers, worker);
        let end = first_of(self.count, self.workers, worker + 1);
        let mut kept = Vec::new(self.alloc);
        for run in begin..end {
            let one = self.run(worker, run)?;
            kept.push(one)?;
        }
        Ok(kept)
    }
}

/// What a worker and all after it keep of their runs, in order: each worker is a thread of its own, and all have ended
/// before the answer.
pub(crate) fn pieces<R: Threads + Wait, G: Gate, K: Keep>(
    rt: &R,
    work: &Work<'_, G, K>,
    worker: u8,
) -> Result<Vec<K::Kept>, CampaignFault<G::Shut>>
    requires workers { (0 < work.now.workers) × (work.now.workers ≤ 16) }
    requires worker { worker ≤ work.now.workers }
    ensures ok { IfOk result (λ kept. AreKeptBetween (K.keeps work.now.keep.now) (record {
      image = work.now.image.now;
      sites = work.now.sampler.now;
      seed = work.now.seed;
    }) (numbers work.now.plan)
        (first_of work.now.count work.now.workers worker) work.now.count kept.items) }
    ensures err { IfErr result (λ fault. IsMet G.shuts fault) }
{
    if worker == work.workers {
        return Ok(Vec::new(work.alloc));
    }
    thread::scope(
        thread::scope_env(),
        rt,
        |scope| -> Result<Vec<K::Kept>, CampaignFault<G::Shut>>
            requires { IsSync G.row × IsSend G.Shut.row × IsSync K.row × IsSend K.Kept.row
                × (work.now.workers ≤ 16) × (worker < work.now.workers) }
            ensures { IfOk result (λ kept. AreKeptBetween (K.keeps work.entry.now.keep.now) (record {
              image = work.entry.now.image.now;
              sites = work.entry.now.sampler.now;
              seed = work.entry.now.seed;
            }) (numbers work.entry.now.plan)
                (first_of work.entry.now.count work.entry.now.workers worker) work.entry.now.count kept.items)
                × IfErr result (λ fault. IsMet G.shuts fault) }
        {
            let started = scope.spawn_with(
                Piece { work, worker },
                move || -> Result<Vec<K::Kept>, CampaignFault<G::Shut>>
                    requires { worker < work.now.workers }
                { work.piece(worker) },
            );
            let Ok(started) = started else {
                return Err(CampaignFault::NoThread);
            };
            let others = pieces(rt, work, worker + 1);
            let mut kept = started.join(rt)?;
            kept.append(&mut others?)?;
            Ok(kept)
        },
    )
}
