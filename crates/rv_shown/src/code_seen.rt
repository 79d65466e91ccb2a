//! How much of an image's code the runs of a hunt executed: a race in code that never ran is never found.
use indexmap::IndexMap;
use rv_elf::Symbol;
use rv_explain::symbol_table::SymbolTable;
use rv_memory::store::NoMemory;
use rv_walk::code::{Code, Marks};
use std::alloc::Global;

/// The kind of a symbol that is a function.
const FUNCTION: u8 = 2;

/// A function: where its symbol stands, how many words are named by it, and how many of these were executed.
#[derive(Clone, Copy)]
pub struct FunctionSeen {
    pub address: u32,
    pub words: u32,
    pub executed: u32,
}

/// How many words of code there are, how many were executed, and the functions, each of a word at least.
#[derive(Drop)]
pub struct CodeSeen {
    pub words: u32,
    pub executed: u64,
    pub functions: Vec<FunctionSeen>,
}

/// Where a symbol stands, and how long it is. Of several alike all words are named by one.
#[derive(Clone, Copy, PartialEq, Eq, Hash)]
struct Extent {
    value: u32,
    size: u32,
}

/// A word more of a function.
fn with_word(function: FunctionSeen, was_executed: bool) -> FunctionSeen {
    FunctionSeen {
        words: function.words.saturating_add(1),
        executed: function.executed.saturating_add(u32::from(was_executed)),
        ..function
    }
}

/// The functions by their symbols, and the one that the last word was of, which is not among them yet.
#[derive(Drop)]
struct Functions {
    rows: IndexMap<Extent, FunctionSeen>,
    last: Option<(Extent, FunctionSeen)>,
}

impl Functions {
    fn none(alloc: Global) -> Functions {
        Functions {
            rows: IndexMap::new(alloc),
            last: None,
        }
    }

    /// Puts the last one among the others.
    fn put_last(&mut self) -> Result<(), NoMemory> {
        if let Some((extent, function)) = self.last {
            self.rows.insert(extent, function)?;
        }
        self.last = None;
        Ok(())
    }

    /// What is known of the function of a symbol so far.
    fn row(&self, extent: Extent) -> FunctionSeen {
        match self.rows.get(&extent) {
            Some(function) => *function,
            None => FunctionSeen {
                address: extent.value,
                words: 0,
                executed: 0,
            },
        }
    }

    /// Adds a word of a symbol.
    fn add(&mut self, symbol: &Symbol, was_executed: bool) -> Result<(), NoMemory> {
        if symbol.kind != FUNCTION || symbol.size == 0 {
            return Ok(());
        }
        let extent = Extent {
            value: symbol.value,
            size: symbol.size,
        };
        let last = self.last;
        let function = match last {
            Some(last) if last.0 == extent => last.1,
            _ => {
                self.put_last()?;
                self.row(extent)
            }
        };
        self.last = Some((extent, with_word(function, was_executed)));
        Ok(())
    }
}

/// By what functions are in order: those that never ran first, larger ones before, then by the share that ran, then by address.
fn rank(function: &FunctionSeen) -> (u64, u32) {
    let words = u64::from(function.words.max(1));
    let place = match function.executed {
        0 => u64::from(u32::MAX) - words.min(u64::from(u32::MAX)),
        some => (1 << 32) + (u64::from(some) << 24) / words,
    };
    (place, function.address)
}

/// How much of the code of the table's image was executed, where these words were.
pub fn code_seen(
    alloc: Global,
    symbols: &SymbolTable,
    code: &Code,
    counted: &Marks,
) -> Result<CodeSeen, NoMemory> {
    let mut functions = Functions::none(alloc);
    for stretch in code.stretches() {
        for place in 0..stretch.count {
            let address = stretch.first.wrapping_add(place.wrapping_mul(4));
            if let Some(symbol) = symbols.symbol_of(address) {
                let was_executed = counted.has(stretch.before.wrapping_add(place));
                functions.add(symbol, was_executed)?;
            }
        }
    }
    functions.put_last()?;
    let mut rows: Vec<FunctionSeen> = functions.rows.values().copied().collect(alloc)?;
    rows.sort_unstable_by_key(|function| rank(function));
    Ok(CodeSeen {
        words: code.len(),
        executed: counted.len(),
        functions: rows,
    })
}

impl CodeSeen {
    /// How many functions hold a word that was executed.
    pub fn run_functions(&self) -> u64 {
        self.functions
            .iter()
            .filter(|function| function.executed > 0)
            .count() as u64
    }
}
