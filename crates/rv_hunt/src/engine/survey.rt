//! What a hunt knows of its image before a run is made.
ghost use Rattle.std.specs.Prelude.{◌≡◌, [], IfOk};
ghost use Rattle.rv_hunt.specs.internal.Opened.{hunt_by};
ghost use Rattle.rv_sample.specs.Sites.{sites};
ghost use Rattle.rv_shown.specs.Asked.{asked};
ghost use Rattle.rv_tables.specs.merge.Ignore.{naming_of};

use crate::engine::opening::Listed;
use rv_elf::Image;
use rv_explain::symbol_table::SymbolTable;
use rv_lines::lines::SourceLines;
use rv_memory::store::NoMemory;
use rv_sample::Sampler;
use rv_search::aim::Aim;
use rv_search::hunt::Hunt;
use rv_shown::options::HuntOptions;
use rv_walk::code::Code;
use rv_walk::sites::Sites;
use std::alloc::Global;

/// The sites, as a list and found at one look, the words of code, the symbols with their source lines, and what is aimed at.
#[derive(Drop)]
pub(crate) struct Survey<'a> {
    sampler: Sampler,
    sites: Sites,
    pub(crate) code: Code,
    pub(crate) symbols: SymbolTable<'a>,
    aim: Option<Aim>,
}

/// Surveys an image for a hunt with these options, lists and source lines.
pub(crate) fn surveyed<'a>(
    alloc: Global,
    image: &'a Image,
    options: &HuntOptions<'_, '_>,
    listed: &Listed,
    source: &'a Option<SourceLines>,
) -> Result<Survey<'a>, NoMemory>
    ensures sites { IfOk result (λ it. it.sampler ≡ sites image.entry.now listed.now.excluded.items) }
    ensures same { IfOk result (λ it. it.sites ≡ it.sampler) }
    ensures symbols { IfOk result (λ it. it.symbols ≡ naming_of image.entry.now source.entry.now) }
{
    let sampler = Sampler::sites(alloc, image, &listed.excluded)?;
    let sites = Sites::of(alloc, &sampler)?;
    let code = Code::of(alloc, image)?;
    let symbols = SymbolTable::new(alloc, image)?;
    let aim = Aim::of(alloc, options.aim, &symbols, &code)?;
    Ok(Survey {
        sampler,
        sites,
        code,
        symbols: with_source(symbols, source),
        aim,
    })
}

impl Survey<'_> {
    /// The hunt of the image.
    pub(crate) fn hunt<'b>(
        &'b self,
        image: &'b Image,
        options: &'b HuntOptions<'_, '_>,
        listed: &'b Listed,
    ) -> Hunt<'b>
        requires sites { self.now.sampler ≡ sites image.now listed.now.excluded.items }
        requires same { self.now.sites ≡ self.now.sampler }
        ensures { result ≡ hunt_by (asked options.entry.now) image.entry.now listed.entry.now }
    {
        Hunt {
            image,
            seed: options.seed,
            sampler: &self.sampler,
            sites: &self.sites,
            code: &self.code,
            plans: &options.plans,
            ranges: &listed.ranges,
            idle: &listed.idle,
            aim: &self.aim,
            first: options.first,
            limit: options.limit,
            orders: options.orders,
        }
    }
}

/// The symbols, with the source lines where they are given.
fn with_source<'a>(symbols: SymbolTable<'a>, source: &'a Option<SourceLines>) -> SymbolTable<'a>
    requires { symbols.lines ≡ [] }
    ensures { result ≡ naming_of symbols.entry.image source.entry.now }
{
    match source {
        Some(lines) => symbols.with_lines(lines),
        None => symbols,
    }
}
