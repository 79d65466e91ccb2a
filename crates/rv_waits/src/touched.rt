//! What a hart touched: its instructions' bytes and those of its accesses, in a place that asks for no memory.
ghost use Rattle.std.specs.Prelude.{◌≡◌, ◌+◌, ◌⊎◌, ℕ, true, false, Some, IfSome, IsSomeAnd, slice_get};
ghost use Rattle.rv_waits.specs.Touched.{CoversSome, covers, in_instructions, in_ranges};
ghost use Rattle.rv_waits.specs.Touches.{in_access, is_among};
ghost use Rattle.rv_waits.specs.internal.Meets.{meets_some, overlaps};

use rv_hart::access::Access;

/// The most ranges of data that are kept apart.
pub const MOST_RANGES: usize = 8;

/// `size` bytes of data from `first` on; none where `size` is 0.
#[derive(Clone, Copy, PartialEq, Eq)]
pub struct Range {
    pub first: u32,
    pub size: u8,
}

/// The instructions from the least pc to the greatest, and up to `MOST_RANGES` ranges of data. `is_all` says that these were
/// too many: then any byte may have been touched.
#[derive(Clone, Copy)]
pub struct Touched {
    pub least_pc: u32,
    pub greatest_pc: u32,
    pub ranges: [Range; MOST_RANGES],
    pub is_all: bool,
}

/// The instruction at pc alone.
pub fn touched_at(pc: u32) -> Touched
    ensures instruction { (address : ℕ) → is_among pc 4 address ≡ true → covers result address ≡ true }
    ensures alone { (address : ℕ) → covers result address ≡ true → is_among pc 4 address ≡ true }
{
    let none = Range { first: 0, size: 0 };
    Touched {
        least_pc: pc,
        greatest_pc: pc,
        ranges: [none; MOST_RANGES],
        is_all: false,
    }
}

/// A further step: its instruction's pc, and its access if it made one.
#[inline(always)]
pub fn touch(touched: &mut Touched, pc: u32, access: Option<Access>)
    ensures kept { (address : ℕ) → covers touched.old address ≡ true → covers touched.new address ≡ true }
    ensures instruction { (address : ℕ) → is_among pc 4 address ≡ true → covers touched.new address ≡ true }
    ensures access { (address : ℕ) → in_access access address ≡ true → covers touched.new address ≡ true }
{
    touch_instruction(touched, pc);
    if let Some(access) = access {
        let range = Range {
            first: access.first,
            size: access.size,
        };
        touch_range(touched, range);
    }
}

/// Most steps widen nothing, and write nothing here.
#[inline(always)]
fn touch_instruction(touched: &mut Touched, pc: u32)
    ensures kept { (address : ℕ) → covers touched.old address ≡ true → covers touched.new address ≡ true }
    ensures instruction { (address : ℕ) → is_among pc 4 address ≡ true → covers touched.new address ≡ true }
{
    if pc < touched.least_pc {
        touched.least_pc = pc;
    }
    if pc > touched.greatest_pc {
        touched.greatest_pc = pc;
    }
}

fn touch_range(touched: &mut Touched, range: Range)
    ensures kept { (address : ℕ) → covers touched.old address ≡ true → covers touched.new address ≡ true }
    ensures range { (address : ℕ) → is_among range.first range.size address ≡ true → covers touched.new address ≡ true }
{
    match place_for(&touched.ranges, range) {
        Some(place) => touched.ranges[place] = range,
        None => touched.is_all = true,
    }
}

/// Where the range is, or else a place with none.
fn place_for(ranges: &[Range; MOST_RANGES], range: Range) -> Option<usize>
    ensures { IfSome result (λ place. IsSomeAnd (slice_get ranges.now place) (λ there.
        (there ≡ range) ⊎ (there.size ≡ 0))) }
{
    for place in 0..MOST_RANGES {
        let there = ranges[place];
        if there == range || there.size == 0 {
            return Some(place);
        }
    }
    None
}

/// Whether the byte at an address may have been touched.
pub fn covers(touched: &Touched, address: u32) -> bool
    ensures { result ≡ covers touched.now address }
{
    touched.is_all || in_instructions(touched, address) || in_ranges(touched, address)
}

fn in_instructions(touched: &Touched, address: u32) -> bool
    ensures { result ≡ in_instructions touched.now.least_pc touched.now.greatest_pc address }
{
    touched.least_pc <= address && u64::from(address) < u64::from(touched.greatest_pc) + 4
}

fn in_ranges(touched: &Touched, address: u32) -> bool
    ensures { result ≡ in_ranges touched.now.ranges address }
{
    touched.ranges.iter().any(|range| is_in(range, address))
}

fn is_in(range: &Range, address: u32) -> bool
    ensures { result ≡ is_among range.now.first range.now.size address }
{
    range.first <= address && u64::from(address) < u64::from(range.first) + u64::from(range.size)
}

/// Whether one of `size` bytes from `first` on may have been touched.
pub fn meets(touched: &Touched, first: u32, size: u8) -> bool
    ensures apart { result ≡ false → (address : ℕ) → is_among first size address ≡ true → covers touched.now address ≡ false }
    ensures some { result ≡ true → touched.now.is_all ≡ false → CoversSome touched.now first size }
{
    if touched.is_all {
        return true;
    }
    if meets_instructions(touched, first, size) {
        return true;
    }
    meets_some(touched, first, size)
}

fn meets_instructions(touched: &Touched, first: u32, size: u8) -> bool
    ensures { result ≡ overlaps touched.now.least_pc (touched.now.greatest_pc + 4) first (first + size) }
{
    overlaps(
        u64::from(touched.least_pc),
        u64::from(touched.greatest_pc) + 4,
        u64::from(first),
        u64::from(first) + u64::from(size),
    )
}

fn meets_some(touched: &Touched, first: u32, size: u8) -> bool
    ensures { result ≡ meets_some touched.now.ranges first size }
{
    touched
        .ranges
        .iter()
        .any(|range| meets_range(range, first, size))
}

fn meets_range(range: &Range, first: u32, size: u8) -> bool
    ensures { result ≡ overlaps range.now.first (range.now.first + range.now.size) first (first + size) }
{
    overlaps(
        u64::from(range.first),
        u64::from(range.first) + u64::from(range.size),
        u64::from(first),
        u64::from(first) + u64::from(size),
    )
}

/// Whether some address lies from `first` to before `end`, and from `other` to before `other_end`.
fn overlaps(first: u64, end: u64, other: u64, other_end: u64) -> bool
    ensures { result ≡ overlaps first end other other_end }
{
    first.max(other) < end.min(other_end)
}
