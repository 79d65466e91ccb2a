//! Code breakpoints and data breakpoints.
ghost use Rattle.std.specs.Prelude.{◌≡◌, ◌<◌, ◌≤◌, ◌&&◌, ◌==◌, not, nat_lt, false, true, IfOk, IfSome, IfNone, IsTrue, ◌↔◌, Some, None, slice_set, length, if◌then◌else◌};
ghost use Rattle.std.specs.FinSet as set;
ghost use Rattle.rv_break.specs.Breakpoints.{no_breaks};
ghost use Rattle.rv_break.specs.Slots as spec;

use crate::armed::Armed;
use crate::claim::{ARMED_LIMIT, MOST_SLOTS, Seen};
use crate::slots::Slots;
use rv_hart::access::Access;
use rv_hart::stops::Stops;
use rv_memory::store::NoMemory;
use std::alloc::Global;
use std::marker::Model;

/// At most `ARMED_LIMIT` armed addresses, and as many data breakpoints as `new` is
/// told, at most `MOST_SLOTS`. Takes no memory after `new`.
#[derive(Drop)]
pub struct Breakpoints {
    armed: Armed,
    slots: Slots,
}

impl Model for Breakpoints {
    ghost use Rattle.std.specs.Prelude.{List, Option, refl};
    ghost use Rattle.std.specs.Coded.{code_by, coded×, coded_list, coded_option, coded_ℕ};
    ghost use Rattle.std.specs.FinSet.{FinSet, code};
    ghost use Rattle.std.specs.Ordering.{nat_cmp};
    ghost use Rattle.rv_break.specs.Breakpoints.{Breaks};
    ghost use Rattle.rv_break.specs.contracts.claim.Claim as claim;
    ghost use Rattle.rv_break.specs.declared.claim.Claim.{Claim};

    ghost Value = { Breaks };

    // the pair of its fields
    ghost coded = { code_by (FinSet nat_cmp × List (Option Claim))
        (coded× (code coded_ℕ) (coded_list (coded_option claim.the_row.coded)))
        (λ b. (b.armed, b.slots)) (λ p. record { armed = p.0; slots = p.1 }) (λ _. refl) };

    ghost view = { λ b. record { armed = b.armed; slots = b.slots } };
}

impl Stops for Breakpoints {
    ghost passes = { λ b pc. set.contains b.armed pc ≡ false };

    #[inline(always)]
    fn lets_by(&self, pc: u32) -> bool {
        !self.may_be_armed(pc)
    }
}

impl Breakpoints {
    /// No address is armed, and each data breakpoint is free.
    pub fn new(alloc: Global, slots: u8) -> Result<Breakpoints, NoMemory>
        requires { slots ≤ MOST_SLOTS }
        ensures { IfOk result (λ b. b ≡ no_breaks slots) }
    {
        Ok(Breakpoints {
            armed: Armed::new(alloc)?,
            slots: Slots::new(alloc, slots)?,
        })
    }

    /// Whether no address is armed.
    #[inline(always)]
    pub fn is_unarmed(&self) -> bool
        ensures { result ≡ (set.len self.now.armed == 0) }
    {
        self.armed.is_empty()
    }

    /// Whether the address is armed.
    #[inline(always)]
    pub fn is_armed(&self, pc: u32) -> bool
        ensures { result ≡ set.contains self.now.armed pc }
    {
        self.armed.contains(pc)
    }

    /// Whether the address may be armed, which one look tells: where not, it is not armed, and none may be where none is.
    /// It is mostly armed where it may be.
    #[inline(always)]
    pub fn may_be_armed(&self, pc: u32) -> bool
        ensures absent { result ≡ false → set.contains self.now.armed pc ≡ false }
        ensures some { result ≡ true → (set.len self.now.armed == 0) ≡ false }
    {
        self.armed.may_contain(pc)
    }

    /// Arms an address. False, and unchanged, where it is armed or `ARMED_LIMIT` addresses are.
    pub fn arm(&mut self, pc: u32) -> bool
        ensures armed { result
            ≡ (not (set.contains self.old.armed pc) && nat_lt (set.len self.old.armed) ARMED_LIMIT) }
        ensures after { self.new ≡ record self.old {
          armed = if result then set.insert self.old.armed pc else self.old.armed;
        } }
    {
        self.armed.insert(pc)
    }

    /// Disarms an address; whether it was armed.
    pub fn disarm(&mut self, pc: u32) -> bool
        ensures was { result ≡ set.contains self.old.armed pc }
        ensures after { self.new ≡ record self.old { armed = set.remove self.old.armed pc } }
    {
        self.armed.remove(pc)
    }

    /// Takes the breakpoint at an armed address, which is armed no longer; whether it was.
    pub fn take_code(&mut self, pc: u32) -> bool
        ensures was { result ≡ set.contains self.old.armed pc }
        ensures after { self.new ≡ record self.old { armed = set.remove self.old.armed pc } }
    {
        self.armed.remove(pc)
    }

    /// Claims the free data breakpoint with the least number to watch an access of a hart; None, and
    /// unchanged, where none is free.
    pub fn claim(&mut self, hart: u8, access: Access) -> Option<u8>
        ensures slot { result ≡ spec.free_slot self.old.slots }
        ensures within { IfSome result (λ slot. slot < length self.old.slots) }
        ensures claimed { IfSome result (λ slot. self.new ≡ record self.old {
          slots = slice_set self.old.slots slot (Some (record { hart = hart; access = access; seen = None }));
        }) }
        ensures none { IfNone result (self.new ≡ self.old) }
    {
        self.slots.claim(hart, access)
    }

    /// Shows the claimed data breakpoints an access that a hart made at a place: each that watches for
    /// it, and has seen none yet, holds it.
    #[inline(always)]
    pub fn see(&mut self, place: u32, hart: u8, access: Access)
        ensures { self.new ≡ record self.old {
          slots = spec.slots_after (record { place = place; hart = hart; access = access }) self.old.slots;
        } }
    {
        self.slots.see(Seen {
            place,
            hart,
            access,
        })
    }

    /// Whether the data breakpoint is claimed.
    pub fn is_claimed(&self, slot: u8) -> bool
        ensures { IsTrue result ↔ spec.IsClaimed self.now.slots slot }
    {
        self.slots.is_claimed(slot)
    }

    /// Frees a claimed data breakpoint; the first access since its claim that another hart made and
    /// that conflicts.
    pub fn release(&mut self, slot: u8) -> Option<Seen>
        requires { spec.IsClaimed self.old.slots slot }
        ensures seen { result ≡ spec.seen_at self.old.slots slot }
        ensures freed { self.new ≡ record self.old { slots = slice_set self.old.slots slot None } }
    {
        self.slots.release(slot)
    }
}
