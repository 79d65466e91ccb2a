//! The data breakpoints.
ghost use Rattle.std.specs.Prelude.{◌≡◌, ◌<◌, ◌≤◌, IfOk, IfSome, IfNone, IsTrue, ◌↔◌, Some, None, replicate, length, slice_set, option_map, is_none, position};
ghost use Rattle.std.specs.List.{list_any};
ghost use Rattle.rv_break.specs.Slots as spec;
ghost use Rattle.rv_break.specs.internal.Taken.{is_waiting_for, takes};

use crate::claim::{Claim, MOST_SLOTS, Seen};
use crate::span::{Span, span_of};
use rv_hart::access::Access;
use rv_memory::store::NoMemory;
use std::alloc::Global;
use std::marker::Model;

/// The data breakpoints by number, each claimed or free.
#[derive(Drop)]
pub struct Slots {
    claims: Vec<Option<Claim>>,
    watched: Span,
}

impl Model for Slots {
    ghost use Rattle.std.specs.Prelude.{◌≤◌, length};
    ghost use Rattle.rv_break.specs.declared.claim.TheConstants.{MOST_SLOTS};
    ghost use Rattle.rv_break.specs.Slots as spec;
    ghost use Rattle.rv_break.specs.internal.Span.{AreIn};

    ghost Value = { spec.Slots };

    ghost view = { λ s. s.claims.items };

    ghost invariant = { λ s. (length s.claims.items ≤ MOST_SLOTS) × AreIn s.watched s.claims.items };
}

impl Slots {
    /// So many, free.
    pub fn new(alloc: Global, count: u8) -> Result<Slots, NoMemory>
        requires { count ≤ MOST_SLOTS }
        ensures { IfOk result (λ slots. slots ≡ replicate count None) }
    {
        let claims = vec![in alloc; None; count as usize]?;
        let watched = span_of(&claims);
        Ok(Slots { claims, watched })
    }

    /// Claims the free one with the least number, if there is one.
    pub fn claim(&mut self, hart: u8, access: Access) -> Option<u8>
        ensures slot { result ≡ spec.free_slot self.old }
        ensures within { IfSome result (λ slot. slot < length self.old) }
        ensures claimed { IfSome result (λ slot. self.new
            ≡ slice_set self.old slot (Some (record { hart = hart; access = access; seen = None }))) }
        ensures none { IfNone result (self.new ≡ self.old) }
    {
        let slot = free_slot(&self.claims)?;
        self.claims[slot] = Some(Claim {
            hart,
            access,
            seen: None,
        });
        self.watched = self.watched.widened_by(access);
        Some(slot as u8)
    }

    /// Shows each claim an access.
    #[inline(always)]
    pub fn see(&mut self, seen: Seen)
        ensures { self.new ≡ spec.slots_after seen self.old }
    {
        if !self.watched.misses(&seen.access) {
            self.see_apart(seen);
        }
    }

    /// The same, where each claim is looked at: the span has addresses that no claim waits for. A claim that takes the access
    /// waits for no more.
    #[inline(never)]
    fn see_apart(&mut self, seen: Seen)
        ensures { self.new ≡ spec.slots_after seen self.old }
    {
        if !is_taken(&self.claims, &seen) {
            return;
        }
        show(&mut self.claims, seen);
        self.watched = span_of(&self.claims);
    }

    /// Whether one is claimed.
    pub fn is_claimed(&self, slot: u8) -> bool
        ensures { IsTrue result ↔ spec.IsClaimed self.now slot }
    {
        let slot = slot as usize;
        slot < self.claims.len() && self.claims[slot].is_some()
    }

    /// Frees a claimed one and tells what it has seen.
    pub fn release(&mut self, slot: u8) -> Option<Seen>
        requires { spec.IsClaimed self.old slot }
        ensures seen { result ≡ spec.seen_at self.old slot }
        ensures freed { self.new ≡ slice_set self.old slot None }
    {
        let slot = slot as usize;
        let seen = seen_by(self.claims[slot]);
        self.claims[slot] = None;
        self.watched = span_of(&self.claims);
        seen
    }
}

fn free_slot(claims: &[Option<Claim>]) -> Option<usize>
    ensures { result ≡ spec.free_slot claims.now }
{
    claims.iter().position(|held| held.is_none())
}

/// Whether a claim takes the access.
fn is_taken(claims: &[Option<Claim>], seen: &Seen) -> bool
    ensures { result ≡ list_any (takes seen.now) claims.now }
{
    claims.iter().any(|held| takes(held, seen))
}

fn takes(held: &Option<Claim>, seen: &Seen) -> bool
    ensures { result ≡ takes seen.now held.now }
{
    match held {
        None => false,
        Some(claim) => is_waiting_for(claim, seen),
    }
}

/// Whether a claim is for the access and has seen none that it is for.
fn is_waiting_for(claim: &Claim, seen: &Seen) -> bool
    ensures { result ≡ is_waiting_for claim.now seen.now }
{
    claim.seen.is_none() && claim.hart != seen.hart && claim.access.conflicts(&seen.access)
}

fn show(claims: &mut [Option<Claim>], seen: Seen)
    ensures { claims.new ≡ spec.slots_after seen claims.old }
{
    for held in claims.iter_mut() {
        show_one(held, seen);
    }
}

fn show_one(held: &mut Option<Claim>, seen: Seen)
    ensures { held.new ≡ option_map (spec.claim_after seen) held.old }
{
    if let Some(claim) = held {
        show_claim(claim, seen);
    }
}

/// A claim takes the first access that it is for. It is changed in place, since each access of a step is
/// shown to each claim.
fn show_claim(claim: &mut Claim, seen: Seen)
    ensures { claim.new ≡ spec.claim_after seen claim.old }
{
    if is_waiting_for(claim, &seen) {
        claim.seen = Some(seen);
    }
}

fn seen_by(held: Option<Claim>) -> Option<Seen>
    ensures { result ≡ spec.seen_by held }
{
    match held {
        None => None,
        Some(claim) => claim.seen,
    }
}
