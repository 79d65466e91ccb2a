//! What is wanted of an image's segments together, whether they are still described by program headers
//! or hold their bytes.
ghost use Rattle.std.specs.Prelude.{◌≡◌, ◌+◌, ◌%◌, ◌≤◌, ◌&&◌, map, length};
ghost use Rattle.std.specs.List.{list_any, sum_by};
ghost use Rattle.rv_memory.specs.Extent.{Extent, end_of};
ghost use Rattle.rv_memory.specs.Memory.{holds, meets, overlaps};
ghost use Rattle.rv_elf.specs.Contents.{stacks};
ghost use Rattle.rv_elf.specs.Loaded as spec;

use crate::fault::LoadFault;
use crate::layout::ProgramHeader;
use rv_memory::region::Region;

/// The addresses that are kept for the harts' stacks: from the first up to below the second.
const STACKS_START: u64 = 0xc000_0000;

const STACKS_END: u64 = 0xc010_0000;

/// The most bytes that the segments of an image have together.
const MOST_BYTES: u64 = 16_777_216;

/// A stretch of guest memory.
pub trait Stretch {
    ghost extent: { Self → Extent };

    fn start(&self) -> u32
        ensures { result ≡ (extent self.now).start };

    fn len(&self) -> u32
        ensures { result ≡ (extent self.now).len };

    fn is_executable(&self) -> bool
        ensures { result ≡ (extent self.now).x };

    /// One past the last address.
    fn end(&self) -> u64
        ensures { result ≡ end_of (extent self.now) }
    {
        u64::from(self.start()) + u64::from(self.len())
    }
}

impl Stretch for Region {
    ghost use Rattle.rv_memory.specs.Extent.{Extent, end_of};

    ghost extent = { λ e. e };

    fn start(&self) -> u32 {
        self.start
    }

    fn len(&self) -> u32 {
        self.len
    }

    fn is_executable(&self) -> bool {
        self.x
    }
}

impl Stretch for ProgramHeader {
    ghost use Rattle.std.specs.Prelude.{[]};
    ghost use Rattle.rv_memory.specs.Extent.{Extent, end_of};
    ghost use Rattle.rv_elf.specs.Loaded as spec;

    ghost extent = { λ h. spec.segment [] h };

    fn start(&self) -> u32 {
        self.p_vaddr
    }

    fn len(&self) -> u32 {
        self.p_memsz
    }

    fn is_executable(&self) -> bool {
        self.p_flags & 1 != 0
    }
}

fn meets_some<S: Stretch>(first: &S, others: &[S]) -> bool
    ensures { result ≡ list_any (λ other. meets (S.extent first.now) (S.extent other)) others.now }
{
    others.iter().any(|other| {
        u64::from(first.start()) < other.end() && u64::from(other.start()) < first.end()
    })
}

fn meets_stacks<S: Stretch>(stretches: &[S]) -> bool
    ensures { result ≡ list_any (λ s. meets stacks (S.extent s)) stretches.now }
{
    stretches.iter().any(|s| STACKS_START < s.end() && u64::from(s.start()) < STACKS_END)
}

fn meet<S: Stretch>(stretches: &[S]) -> bool
    ensures { result ≡ overlaps (map S.extent stretches.now) }
{
    for (k, first) in stretches.iter().enumerate() {
        let (_, after) = stretches.split_at(k + 1);
        if meets_some(first, after) {
            return true;
        }
    }
    false
}

fn total<S: Stretch>(stretches: &[S]) -> u64
    requires { length stretches.now ≤ 64 }
    ensures { result ≡ sum_by (λ e. e.len) (map S.extent stretches.now) }
{
    let mut total: u64 = 0;
    for stretch in stretches {
        total += u64::from(stretch.len());
    }
    total
}

fn is_within_executable<S: Stretch>(entry: u32, stretches: &[S]) -> bool
    ensures { result ≡ list_any (λ s. holds (S.extent s) entry 4 && (S.extent s).x) stretches.now }
{
    stretches.iter().any(|s| {
        s.start() <= entry && u64::from(entry) + 4 <= s.end() && s.is_executable()
    })
}

/// Whether segments make an image together: none meets another or the stacks, they are small enough,
/// and the word at the entry lies in one that may be executed.
#[tactic(auto, using(crate::proofs::Stretches::list_any_map), unfolding(crate::specs::Loaded::segments_test))]
pub fn segments_test<S: Stretch>(entry: u32, segments: &[S]) -> Result<(), LoadFault>
    requires { length segments.now ≤ 64 }
    ensures { result ≡ spec.segments_test entry (map S.extent segments.now) }
{
    if meets_stacks(segments) || meet(segments) {
        return Err(LoadFault::Overlap);
    }
    if total(segments) > MOST_BYTES {
        return Err(LoadFault::TooLarge);
    }
    if entry % 4 != 0 || !is_within_executable(entry, segments) {
        return Err(LoadFault::BadEntry);
    }
    Ok(())
}
