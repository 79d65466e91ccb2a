//! The span of addresses that the claims wait for, which tells most accesses at one look.
ghost use Rattle.std.specs.Prelude.{◌≡◌, ◌≤◌, IfSome};
ghost use Rattle.rv_break.specs.internal.Span.{AreIn, LiesIn, WaitsIn, is_outside};

use crate::claim::Claim;
use rv_hart::access::Access;

/// Addresses from `first` on, and before `end`.
#[derive(Clone, Copy)]
pub struct Span {
    pub first: u64,
    pub end: u64,
}

impl Span {
    /// Whether no byte of the access is in the span.
    #[inline(always)]
    pub fn misses(&self, access: &Access) -> bool
        ensures { result ≡ is_outside self.now access.now }
    {
        let first = u64::from(access.first);
        first + u64::from(access.size) <= self.first || self.end <= first
    }

    /// The least span that has these addresses and the access's bytes.
    pub fn widened_by(self, access: Access) -> Span
        ensures own { LiesIn result access }
        ensures first { result.first ≤ self.first }
        ensures end { self.end ≤ result.end }
    {
        let first = u64::from(access.first);
        Span {
            first: self.first.min(first),
            end: self.end.max(first + u64::from(access.size)),
        }
    }

    /// The span with what a claim waits for.
    fn widened(self, held: Option<Claim>) -> Span
        ensures held { IfSome held (WaitsIn result) }
        ensures first { result.first ≤ self.first }
        ensures end { self.end ≤ result.end }
    {
        match held {
            Some(claim) if claim.seen.is_none() => self.widened_by(claim.access),
            _ => self,
        }
    }
}

/// From the first byte that a claim waits for to the last. One that has seen an access waits for none.
pub fn span_of(claims: &[Option<Claim>]) -> Span
    ensures { AreIn result claims.now }
{
    let mut span = Span {
        first: u64::MAX,
        end: 0,
    };
    for held in claims {
        span = span.widened(*held);
    }
    span
}
