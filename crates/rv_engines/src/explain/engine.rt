//! The engine of `explain`: an image and a schedule in, text out, and a picture where one is wanted.
ghost use Rattle.std.specs.Prelude.{◌≡◌, ◌<◌, ◌||◌, [], true, false, Ok, IfOk, IfErr, IfSome, OnOk, is_some, length, map};
ghost use Rattle.std.specs.Option.{option_map_or};
ghost use Rattle.std.specs.Result.{IsOk};
ghost use Rattle.std.specs.Io.KnownBytes.{Appends, Keeps};
ghost use Rattle.rv_explain.specs.Blocks.{shown_of};
ghost use Rattle.rv_explain.specs.Races.{AreTold, found_of, run_of as placed_run};
ghost use Rattle.rv_markup.specs.Markup.{IsDocument};
ghost use Rattle.rv_memory.specs.Buffered as buffer;
ghost use Rattle.rv_memory.specs.Flagged as flag;
ghost use Rattle.rv_engines.specs.Asking.{asking};
ghost use Rattle.rv_engines.specs.Campaigns.{IfWanted, passes};
ghost use Rattle.rv_faults.specs.CommandFault.{IsTold, refusal, fails_by, is_read, is_thread, is_write};
ghost use Rattle.rv_engines.specs.Explains as spec;
ghost use Rattle.rv_faults.specs.Fault as plain;
ghost use Rattle.rv_engines.specs.Replay.{IfKnown};
ghost use Rattle.rv_faults.specs.SourceFile as source;

use crate::explain::fault::ExplainFault;
use crate::explain::object::{Explained, object_text};
use crate::explain::opening::{Opened, open_run};
use crate::explain::options::{About, ExplainOptions};
use crate::new_file::NewFile;
use rv_debug::session::Session;
use rv_explain::block::Block;
use rv_explain::blocks::{ordered_text, totals_text};
use rv_explain::explain::blocks_asked;
use rv_explain::order::{EIGHT_TRIALS, OrderTrials, order_of, order_rows};
use rv_explain::picture::picture_text;
use rv_explain::races::RunRaces;
use rv_explain::stuck::{StuckBlock, stuck_block, stuck_text};
use rv_explain::symbol_table::SymbolTable;
use rv_faults::command::CommandFault;
use rv_faults::fault::Fault;
use rv_faults::source_lines::{Sourced, lines_miss, read_source_if};
use rv_memory::buffered::Buffered;
use rv_memory::flagged::Flagged;
use rv_memory::output::Output;
use rv_memory::store::NoMemory;
use std::alloc::Global;
use std::io::{Read, Write};

/// What is told: the text, and the picture and the object where they are wanted.
#[derive(Drop)]
struct Texts {
    text: Vec<u8>,
    picture: Option<Vec<u8>>,
    object: Option<Vec<u8>>,
}

/// The blocks that are asked for. A picture is of the first of them, so where one is wanted there must be one.
fn blocks_of<'a>(
    alloc: Global,
    session: &mut Session,
    symbols: &SymbolTable,
    found: &RunRaces,
    options: &ExplainOptions<'a>,
    draws: bool,
) -> Result<Vec<Block>, CommandFault<'a>>
    requires image { session.old.image ≡ symbols.now.image }
    requires told { AreTold (placed_run session.old) found.now.races.items }
    ensures ok { IfOk result (λ blocks.
        spec.shown_in_run draws (asking options.now) (placed_run session.old) (found_of found.now)
        ≡ Ok (map shown_of blocks.items)) }
    ensures err { IfErr result (λ fault. IsTold
        (spec.shown_in_run draws (asking options.now) (placed_run session.old) (found_of found.now)) (refusal fault)) }
    ensures drawn { IfOk result (λ blocks. draws ≡ true → 0 < length blocks.items) }
    ensures reader { fails_by is_read result ≡ false }
    ensures writer { fails_by is_write result ≡ false }
    ensures thread { fails_by is_thread result ≡ false }
{
    let asked = blocks_asked(alloc, session, symbols, found, options.around, options.race)?;
    let Some(blocks) = asked else {
        return Err(CommandFault::NoRace(found.races.len() as u64));
    };
    if draws && blocks.is_empty() {
        return Err(CommandFault::NoRace(0));
    }
    Ok(blocks)
}

/// The number of the first block that is told.
fn first_number(options: &ExplainOptions) -> u64 {
    options.race.unwrap_or(1)
}

/// What is told beside the blocks: what difference the order of the two accesses of each makes, and the schedule's end, where harts wait
/// for ever there for what they read.
#[derive(Drop)]
struct BesideBlocks {
    orders: Vec<Option<OrderTrials>>,
    stuck: Option<StuckBlock>,
}

/// What difference the orders of the blocks' accesses make.
fn orders_of(
    alloc: Global,
    symbols: &SymbolTable,
    session: &Session,
    blocks: &[Block],
) -> Result<Vec<Option<OrderTrials>>, NoMemory> {
    let harts = session.machine().harts();
    let mut orders = Vec::new(alloc);
    for block in blocks {
        orders.push(order_of(
            alloc,
            symbols,
            harts,
            session.entries(),
            block,
            EIGHT_TRIALS,
        )?)?;
    }
    Ok(orders)
}

/// The end of the schedule, where harts wait for ever there for what they read.
fn polling_end(
    alloc: Global,
    symbols: &SymbolTable,
    session: &Session,
) -> Result<Option<StuckBlock>, NoMemory> {
    let harts = session.machine().harts();
    match stuck_block(alloc, symbols, harts, session.entries())? {
        Some(block) if block.polls() => Ok(Some(block)),
        _ => Ok(None),
    }
}

/// What is told beside the blocks. Where a single race is asked for the schedule's end isn't.
fn beside_blocks(
    alloc: Global,
    symbols: &SymbolTable,
    session: &Session,
    options: &ExplainOptions,
    blocks: &[Block],
) -> Result<BesideBlocks, NoMemory> {
    let orders = orders_of(alloc, symbols, session, blocks)?;
    let stuck = match options.race {
        None => polling_end(alloc, symbols, session)?,
        Some(_) => None,
    };
    Ok(BesideBlocks { orders, stuck })
}

/// Adds the block of a race, with what difference the order of its two accesses makes.
fn add_block(
    alloc: Global,
    text: &mut Vec<u8>,
    symbols: &SymbolTable,
    number: u64,
    block: &Block,
    order: Option<&OrderTrials>,
) -> Result<(), NoMemory> {
    let rows = order_rows(alloc, symbols, block, order)?;
    let block = ordered_text(alloc, symbols, b"", number, block, &rows)?;
    text.push(b'\n')?;
    text.extend_from_slice(&block)?;
    Ok(())
}

/// Adds what is told of a schedule that ends where harts wait for ever for what they read.
fn add_stuck(
    alloc: Global,
    text: &mut Vec<u8>,
    symbols: &SymbolTable,
    block: &StuckBlock,
) -> Result<(), NoMemory> {
    let steps = block.steps;
    let ending = if steps == 1 { "" } else { "s" };
    let words = format!(in alloc; ", after {steps} step{ending}")?;
    let block = stuck_text(alloc, symbols, words.as_bytes(), 1, block)?;
    text.push(b'\n')?;
    text.extend_from_slice(&block)?;
    Ok(())
}

/// The text of the blocks that are asked for, and of the schedule's end.
fn text_of(
    alloc: Global,
    symbols: &SymbolTable,
    found: &RunRaces,
    options: &ExplainOptions,
    blocks: &[Block],
    beside: &BesideBlocks,
) -> Result<Vec<u8>, NoMemory> {
    let races = found.races.len() as u64;
    let mut text = totals_text(alloc, races, found.reports, found.endings)?;
    for (n, (block, order)) in blocks.iter().zip(&beside.orders).enumerate() {
        let number = first_number(options).saturating_add(n as u64);
        add_block(alloc, &mut text, symbols, number, block, order.as_ref())?;
    }
    if let Some(block) = &beside.stuck {
        add_stuck(alloc, &mut text, symbols, block)?;
    }
    Ok(text)
}

/// The object of what is shown, where one is wanted.
fn object_if(
    alloc: Global,
    symbols: &SymbolTable,
    found: &RunRaces,
    options: &ExplainOptions,
    blocks: &[Block],
    beside: &BesideBlocks,
    harts: u8,
    misses: bool,
    wants: bool,
    about: &About<'_>,
    digest: &str,
) -> Result<Option<Vec<u8>>, NoMemory>
    ensures wanted { IfOk result (λ made. is_some made ≡ wants) }
    ensures object { IfOk result (λ made. IfSome made (λ text. spec.IsAnObject text.items)) }
{
    if !wants {
        return Ok(None);
    }
    let of = Explained {
        found,
        blocks,
        orders: &beside.orders,
        first: first_number(options),
        harts,
        stuck: beside.stuck.as_ref(),
        misses,
    };
    Ok(Some(object_text(alloc, symbols, about, digest, &of)?))
}

/// What is told of a run: the text, the picture of the first block where one is wanted, and the object where that is.
fn texts_of(
    alloc: Global,
    symbols: &SymbolTable,
    session: &Session,
    found: &RunRaces,
    options: &ExplainOptions,
    blocks: &[Block],
    draws: bool,
    misses: bool,
    wants: bool,
    about: &About<'_>,
    digest: &str,
) -> Result<Texts, NoMemory>
    requires { draws ≡ true → 0 < length blocks.now }
    ensures drawn { IfOk result (λ texts. is_some texts.picture ≡ draws) }
    ensures markup { IfOk result (λ texts. IfSome texts.picture (λ drawn. IsDocument drawn.items [])) }
    ensures wanted { IfOk result (λ texts. is_some texts.object ≡ wants) }
    ensures object { IfOk result (λ texts. IfSome texts.object (λ text. spec.IsAnObject text.items)) }
{
    let beside = beside_blocks(alloc, symbols, session, options, blocks)?;
    let text = text_of(alloc, symbols, found, options, blocks, &beside)?;
    let harts = session.machine().harts();
    let object = object_if(
        alloc, symbols, found, options, blocks, &beside, harts, misses, wants, about, digest,
    )?;
    let first = first_number(options);
    let picture = match blocks.first() {
        Some(block) if draws => Some(picture_text(alloc, symbols, first, block)?),
        _ => None,
    };
    Ok(Texts {
        text,
        picture,
        object,
    })
}

/// Makes the file of a text, where one is wanted.
fn make_if<F: NewFile>(text: &Option<Vec<u8>>, file: &mut Option<F>) -> Result<(), Fault>
    ensures made { OnOk result (IfSome text.now (λ made. IfWanted F.Holds file.new made.items)) }
    ensures wanted { is_some file.new ≡ is_some file.old }
    ensures refused { IfErr result (λ fault. fault ≡ Fault.Write) }
    ensures failed { passes F.has_failed file.new ≡ (passes F.has_failed file.old || plain.fails_by plain.is_write result) }
{
    if let (Some(file), Some(made)) = (file.as_mut(), text) {
        file.make(made)?;
    }
    Ok(())
}

/// Makes the files of the picture and of the object, where they are wanted, and then writes the text, to its last byte.
fn publish<F: NewFile, W: Write>(
    texts: &Texts,
    picture: &mut Option<F>,
    json: &mut Option<F>,
    writer: &mut Buffered<W>,
) -> Result<(), Fault>
    ensures drawn { OnOk result (IfSome texts.now.picture (λ drawn. IfWanted F.Holds picture.new drawn.items)) }
    ensures object { OnOk result (IfSome texts.now.object (λ made. IfWanted F.Holds json.new made.items)) }
    ensures wanted { (is_some picture.new ≡ is_some picture.old) × (is_some json.new ≡ is_some json.old) }
    ensures text { OnOk result (Appends (buffer.written W.contents writer.old) (buffer.sent W.contents writer.new) texts.now.text.items) }
    ensures refused { IfErr result (λ fault. fault ≡ Fault.Write) }
    ensures first { (passes F.has_failed picture.old || passes F.has_failed json.old) ≡ false
        → (passes F.has_failed picture.new || passes F.has_failed json.new) ≡ true
        → Keeps (buffer.sent W.contents writer.old) (buffer.sent W.contents writer.new) }
    ensures writers { (passes F.has_failed picture.new || passes F.has_failed json.new || buffer.has_failed writer.new)
        ≡ (passes F.has_failed picture.old || passes F.has_failed json.old || buffer.has_failed writer.old || plain.fails_by plain.is_write result) }
{
    make_if(&texts.picture, picture)?;
    make_if(&texts.object, json)?;
    writer.put(&texts.text)?;
    writer.finish()?;
    Ok(())
}

/// What is told of a run, with the lines of its image's sources.
fn told_in<'a>(
    alloc: Global,
    options: &ExplainOptions<'a>,
    about: &About<'_>,
    sourced: &Sourced,
    session: &mut Session,
    found: &RunRaces,
    digest: &str,
    draws: bool,
    wants: bool,
) -> Result<Texts, CommandFault<'a>>
    requires image { session.old.image ≡ sourced.now.image }
    requires told { AreTold (placed_run session.old) found.now.races.items }
    ensures ok { IfOk result (λ texts.
        IsOk (spec.shown_in_run draws (asking options.now) (placed_run session.old) (found_of found.now))) }
    ensures err { IfErr result (λ fault. IsTold
        (spec.shown_in_run draws (asking options.now) (placed_run session.old) (found_of found.now)) (refusal fault)) }
    ensures drawn { IfOk result (λ texts. is_some texts.picture ≡ draws) }
    ensures markup { IfOk result (λ texts. IfSome texts.picture (λ drawn. IsDocument drawn.items [])) }
    ensures wanted { IfOk result (λ texts. is_some texts.object ≡ wants) }
    ensures object { IfOk result (λ texts. IfSome texts.object (λ text. spec.IsAnObject text.items)) }
    ensures reader { fails_by is_read result ≡ false }
    ensures writer { fails_by is_write result ≡ false }
    ensures thread { fails_by is_thread result ≡ false }
{
    let symbols = sourced.symbols(alloc)?;
    let blocks = blocks_of(alloc, session, &symbols, found, options, draws)?;
    let misses = lines_miss(&sourced.image, &sourced.lines);
    Ok(texts_of(
        alloc, &symbols, session, found, options, &blocks, draws, misses, wants, about, digest,
    )?)
}

/// Reads an image, a schedule and then a file of source lines where one is given, and tells the schedule's races, or the one that is asked for. Where a picture is
/// or an object is wanted its file is made first. Where one of the files or the list of names is refused, an entry is not what its call
/// adds, or there is no such race, nothing is written and no file is made. The answer is whether the lines have no frame of the image.
pub fn run_explain<'a, R: Read, Q: Read, F: NewFile, W: Write>(
    alloc: Global,
    options: &ExplainOptions<'a>,
    about: &About<'_>,
    image: &mut Flagged<R>,
    schedule: &mut Flagged<Q>,
    lines: &mut Option<Flagged<R>>,
    picture: &mut Option<F>,
    json: &mut Option<F>,
    writer: &mut Buffered<W>,
) -> Result<bool, ExplainFault<'a>>
    ensures told { OnOk result (
        IfKnown (R.remaining (flag.device image.old)) (Q.remaining (flag.device schedule.old)) (λ i s.
        spec.IsOfLegal i s × IsOk (spec.explain_of (is_some picture.old) (asking options.now) i s))) }
    ensures drawn { OnOk result (IfSome picture.new (λ file. spec.IsDrawn (F.Holds file))) }
    ensures object { OnOk result (IfSome json.new (λ file. spec.IsObjected (F.Holds file))) }
    ensures wanted { (is_some picture.new ≡ is_some picture.old) × (is_some json.new ≡ is_some json.old) }
    ensures lines { IfOk result (λ misses.
        IfKnown (R.remaining (flag.device image.old)) (Q.remaining (flag.device schedule.old)) (λ i s.
        IfSome (source.bytes_if R.remaining lines.old) (λ l. spec.SaysMiss i s l misses))) }
    ensures refused { IfErr result (λ fault.
        IfKnown (R.remaining (flag.device image.old)) (Q.remaining (flag.device schedule.old)) (λ i s.
        IfSome (source.bytes_if R.remaining lines.old) (λ l.
        spec.IsExplainTold (is_some picture.old) (asking options.now) i s l fault))) }
    ensures nothing { IfErr result (λ fault. spec.is_write fault ≡ false
        → Keeps (buffer.sent W.contents writer.old) (buffer.sent W.contents writer.new)) }
    ensures none { IfErr result (λ fault. spec.is_write fault ≡ false
        → (passes F.is_made picture.new ≡ passes F.is_made picture.old) × (passes F.is_made json.new ≡ passes F.is_made json.old)) }
    ensures first { (passes F.has_failed picture.old || passes F.has_failed json.old) ≡ false
        → (passes F.has_failed picture.new || passes F.has_failed json.new) ≡ true
        → Keeps (buffer.sent W.contents writer.old) (buffer.sent W.contents writer.new) }
    ensures readers { (flag.has_failed image.new || flag.has_failed schedule.new || option_map_or flag.has_failed lines.new false)
        ≡ (flag.has_failed image.old || flag.has_failed schedule.old || option_map_or flag.has_failed lines.old false || spec.fails_by spec.is_read result) }
    ensures writers { (passes F.has_failed picture.new || passes F.has_failed json.new || buffer.has_failed writer.new)
        ≡ (passes F.has_failed picture.old || passes F.has_failed json.old || buffer.has_failed writer.old || spec.fails_by spec.is_write result) }
{
    let draws = picture.is_some();
    let wants = json.is_some();
    let opened = open_run(alloc, options, draws, image, schedule)?;
    let source = read_source_if(alloc, lines)?;
    let Opened {
        image,
        digest,
        mut session,
        found,
    } = opened;
    let sourced = Sourced {
        image,
        lines: source,
    };
    let misses = lines_miss(&sourced.image, &sourced.lines);
    let texts = told_in(
        alloc,
        options,
        about,
        &sourced,
        &mut session,
        &found,
        digest.as_str(),
        draws,
        wants,
    )?;
    match publish(&texts, picture, json, writer) {
        Ok(()) => Ok(misses),
        Err(fault) => Err(ExplainFault::from(fault)),
    }
}
