//! The words of an image's code, and which of them harts executed.
use rv_elf::Image;
use rv_memory::region::Region;
use rv_memory::store::NoMemory;
use std::alloc::Global;

/// Words of code in a row: the address of the first, how many there are, and how many of the image's stand before them.
#[derive(Clone, Copy)]
pub struct Stretch {
    pub first: u32,
    pub count: u32,
    pub before: u32,
}

/// The code of an image: the aligned words among the file bytes of its executable segments, numbered in the order of their addresses.
#[derive(Drop)]
pub struct Code {
    stretches: Vec<Stretch>,
    count: u32,
}

/// No words.
const NOWHERE: Stretch = Stretch {
    first: 0,
    count: 0,
    before: 0,
};

/// The aligned words among the file bytes of a segment, where it may be executed.
fn words_of(segment: &Region) -> Option<Stretch> {
    if !segment.x {
        return None;
    }
    let begin = u64::from(segment.start);
    let first = (begin + 3) / 4 * 4;
    let end = begin.saturating_add(segment.bytes.len() as u64);
    let count = u32::try_from(end.saturating_sub(first) / 4).ok()?;
    let first = u32::try_from(first).ok()?;
    Some(Stretch {
        first,
        count,
        before: 0,
    })
}

impl Code {
    /// That of an image.
    pub fn of(alloc: Global, image: &Image) -> Result<Code, NoMemory> {
        let mut stretches: Vec<Stretch> = Vec::new(alloc);
        for segment in image.segments() {
            if let Some(stretch) = words_of(segment) {
                stretches.push(stretch)?;
            }
        }
        stretches.sort_unstable_by_key(|stretch| stretch.first);
        let mut count = 0u32;
        for place in 0..stretches.len() {
            stretches[place].before = count;
            count = count.saturating_add(stretches[place].count);
        }
        Ok(Code { stretches, count })
    }

    /// How many words there are.
    pub fn len(&self) -> u32 {
        self.count
    }

    /// The stretch that holds the word at an address, an empty one where none does.
    fn stretch_of(&self, address: u32) -> Stretch {
        let behind = self
            .stretches
            .partition_point(|stretch| stretch.first <= address);
        match self.stretches.get(behind.saturating_sub(1)) {
            Some(stretch) if address.wrapping_sub(stretch.first) / 4 < stretch.count => *stretch,
            _ => NOWHERE,
        }
    }

    /// The rows of words, in the order of their addresses.
    pub fn stretches(&self) -> &[Stretch] {
        &self.stretches
    }
}

/// Some of so many words, each a bit.
#[derive(Drop)]
pub struct Marks {
    bits: Vec<u32>,
}

impl Marks {
    /// None of so many.
    pub fn none(alloc: Global, count: u32) -> Result<Marks, NoMemory> {
        let mut bits = Vec::new(alloc);
        bits.resize(count as usize / 32 + 1, 0)?;
        Ok(Marks { bits })
    }

    /// The same once more.
    fn copy(&self, alloc: Global) -> Result<Marks, NoMemory> {
        Ok(Marks {
            bits: Vec::from_slice(alloc, &self.bits)?,
        })
    }

    /// Whether the word of that number is one.
    #[inline(always)]
    pub fn has(&self, number: u32) -> bool {
        let place = number as usize / 32;
        place < self.bits.len() && self.bits[place] >> (number % 32) & 1 == 1
    }

    /// Adds the word of that number.
    pub fn add(&mut self, number: u32) {
        let place = number as usize / 32;
        if place < self.bits.len() {
            self.bits[place] |= 1 << (number % 32);
        }
    }

    /// How many there are.
    pub fn len(&self) -> u64 {
        let mut all = 0u64;
        for bits in &self.bits {
            all = all.saturating_add(u64::from(bits.count_ones()));
        }
        all
    }
}

/// Which words of the code harts executed, beside those that were counted before.
#[derive(Drop)]
pub struct Executed<'a> {
    code: &'a Code,
    stretch: Stretch,
    marks: Marks,
    new: Vec<u32>,
}

impl<'a> Executed<'a> {
    /// None yet, beside those that were counted.
    pub fn beside(
        alloc: Global,
        code: &'a Code,
        counted: &Marks,
    ) -> Result<Executed<'a>, NoMemory> {
        Ok(Executed {
            code,
            stretch: NOWHERE,
            marks: counted.copy(alloc)?,
            new: Vec::new(alloc),
        })
    }

    /// The word at an address is executed, where one of the code stands there.
    #[inline(always)]
    pub fn mark(&mut self, address: u32) -> Result<(), NoMemory> {
        let place = address.wrapping_sub(self.stretch.first) / 4;
        if place >= self.stretch.count {
            return self.mark_elsewhere(address);
        }
        let number = self.stretch.before.wrapping_add(place);
        if self.marks.has(number) {
            return Ok(());
        }
        self.note(number)
    }

    /// The same in another stretch than the last.
    #[cold]
    #[inline(never)]
    fn mark_elsewhere(&mut self, address: u32) -> Result<(), NoMemory> {
        let stretch = self.code.stretch_of(address);
        if stretch.count == 0 {
            return Ok(());
        }
        self.stretch = stretch;
        let place = address.wrapping_sub(stretch.first) / 4;
        let number = stretch.before.wrapping_add(place);
        if self.marks.has(number) {
            return Ok(());
        }
        self.note(number)
    }

    /// One that is new.
    #[cold]
    #[inline(never)]
    fn note(&mut self, number: u32) -> Result<(), NoMemory> {
        self.marks.add(number);
        self.new.push(number)?;
        Ok(())
    }

    /// The numbers of those that are new, each once.
    pub fn into_new(self) -> Vec<u32> {
        self.new
    }
}
