//! Where the tables of symbols lie in a written file.
ghost use Rattle.std.specs.Prelude.{◌≡◌, ◌+◌, ◌≤◌, length};
ghost use Rattle.std.specs.List.{sum_by};
ghost use Rattle.rv_elf.specs.Written as spec;

use crate::symbol::Symbol;
use rv_memory::region::Region;

/// Where the symbol table, its strings, the names of the sections and the section headers lie.
#[derive(Clone, Copy)]
pub struct Places {
    pub symbols: u32,
    pub strings: u32,
    pub names: u32,
    pub sections: u32,
}

/// How many bytes the names of the sections take.
pub const SECTION_NAMES_SIZE: u32 = 27;

/// The next multiple of 4.
pub fn aligned(n: u32) -> u32
    requires { n ≤ 4_000_000_000 }
    ensures { result ≡ spec.aligned n }
{
    (n + 3) / 4 * 4
}

/// Where the segments' bytes end in the file.
pub fn data_end(segments: &[Region]) -> u32
    requires few { length segments.now ≤ 64 }
    requires small { sum_by (λ s. length s.bytes) segments.now ≤ 16_777_216 }
    ensures { result ≡ spec.data_end segments.now }
{
    let mut end = 52 + 32 * segments.len() as u32;
    for segment in segments {
        end += segment.bytes.len() as u32;
    }
    end
}

/// How many bytes the strings take.
pub fn strings_len(symbols: &[Symbol]) -> u32
    requires { sum_by (λ s. length s.name + 1) symbols.now ≤ 67_108_864 }
    ensures { result ≡ spec.strings_len symbols.now }
{
    let mut len = 1;
    for symbol in symbols {
        len += symbol.name.len() as u32 + 1;
    }
    len
}

/// Where the tables lie in the file of these segments and symbols.
#[tactic(auto, unfolding(crate::specs::Written::places_of))]
pub fn places_of(segments: &[Region], symbols: &[Symbol]) -> Places
    requires few { length segments.now ≤ 64 }
    requires small { sum_by (λ s. length s.bytes) segments.now ≤ 16_777_216 }
    requires few_symbols { length symbols.now ≤ 67_108_864 }
    requires small_names { sum_by (λ s. length s.name + 1) symbols.now ≤ 67_108_864 }
    ensures { result ≡ spec.places_of segments.now symbols.now }
{
    let table = aligned(data_end(segments));
    let strings = table + 16 * (1 + symbols.len() as u32);
    let names = strings + strings_len(symbols);
    Places {
        symbols: table,
        strings,
        names,
        sections: aligned(names + SECTION_NAMES_SIZE),
    }
}
