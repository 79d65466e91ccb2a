//! Where a clean answer would mean nothing.
ghost use Rattle.std.specs.Prelude.{◌≡◌, IfOk};
ghost use Rattle.rv_shown.specs.Warnings as spec;

use crate::outcome::{Outcome, Tabled};
use crate::saying::unexpected::push_unexpected;
use rv_explain::symbol_table::SymbolTable;
use rv_faults::source_lines::MISS_WORDS;
use rv_memory::store::NoMemory;
use rv_plans::plans::Mix;
use rv_search::ended::{Ways, ways_words};
use rv_search::hunted::Hunted;
use rv_tables::near::Fate;
use std::alloc::Global;

/// Why a clean answer would mean nothing.
#[derive(Clone, Copy)]
pub enum Warning {
    /// The image was built with compressed instructions.
    Compressed,
    /// It was built with floating-point instructions.
    Floating,
    /// The image has no site.
    NoSite,
    /// No pause was made.
    NoPause,
    /// In most of the longest runs a trap stopped each hart before one was paused.
    Lost,
    /// In most of them a trap stopped a hart, and they were not lost.
    Trapped,
    /// Pauses were made, and in none of them another hart made a step.
    NoOtherStep,
    /// Fewer than half of the sites were ever armed, where all runs are sampled ones.
    FewArmed,
    /// No walk saw a near pair.
    NoNear,
    /// More than half of the near pairs were not probed.
    ManyUntried,
    /// Most walks of the most harts made all steps that a walk may make, and saw no near pair.
    WalkedInVain,
    /// In most of the longest runs no hart exited.
    NoExit,
    /// A line of the list of expected races has a name that the image lacks.
    Gone,
    /// The source lines have no frame of the image.
    Missed,
}

/// All of them, in the order in which they are told.
const WARNINGS: [Warning; 14] = [
    Warning::Compressed,
    Warning::Floating,
    Warning::NoSite,
    Warning::NoPause,
    Warning::Lost,
    Warning::Trapped,
    Warning::NoOtherStep,
    Warning::FewArmed,
    Warning::NoNear,
    Warning::ManyUntried,
    Warning::WalkedInVain,
    Warning::NoExit,
    Warning::Gone,
    Warning::Missed,
];

/// Whether all runs are sampled ones.
pub fn all_sampled(mix: Mix) -> bool
    ensures { result ≡ spec.all_sampled mix }
{
    match mix {
        Mix::Sampled => true,
        Mix::Mixed | Mix::Walks => false,
    }
}

/// Whether runs are of both kinds.
fn is_mixed(mix: Mix) -> bool
    ensures { result ≡ spec.is_mixed mix }
{
    match mix {
        Mix::Mixed => true,
        Mix::Sampled | Mix::Walks => false,
    }
}

/// Whether walks saw no near pair.
fn saw_no_pair(saw: &Hunted) -> bool
    ensures { result ≡ spec.saw_no_pair saw.now }
{
    1 <= saw.tally.walks() && saw.near.len() == 0
}

/// Whether more than half of the near pairs were not probed, nor met.
fn tried_few(saw: &Hunted) -> bool
    ensures { result ≡ spec.tried_few saw.now }
{
    let untried = u128::from(saw.near.how_many(&saw.table, Fate::Untried));
    (saw.near.len() as u128) < 2 * untried
}

/// Whether the warning holds of what a hunt came to.
fn holds(warning: Warning, outcome: &Outcome) -> bool
    ensures { result ≡ spec.holds outcome.now warning }
{
    let saw = &outcome.saw.tally;
    match warning {
        Warning::Compressed => outcome.built.compressed,
        Warning::Floating => outcome.built.floating,
        Warning::NoSite => outcome.sites == 0,
        Warning::NoPause => saw.made_no_pause(),
        Warning::Lost => saw.most_lost(),
        Warning::Trapped => saw.most_trapped() && !saw.most_lost(),
        Warning::NoOtherStep => saw.passed_no_step(),
        Warning::FewArmed => all_sampled(outcome.mix) && saw.armed_few(outcome.sites),
        Warning::NoNear => saw_no_pair(outcome.saw),
        Warning::ManyUntried => tried_few(outcome.saw),
        Warning::WalkedInVain => saw.walked_in_vain(),
        Warning::NoExit => saw.exited_nowhere(),
        Warning::Gone => outcome.gone.is_some(),
        Warning::Missed => outcome.misses,
    }
}

/// Whether it would mean nothing that there is no race, where the warning holds of such runs. Walks that are aimed at some pairs may
/// come to none.
fn voids(mix: Mix, warning: Warning) -> bool
    ensures { result ≡ spec.voids mix warning }
{
    match warning {
        Warning::Compressed | Warning::Floating | Warning::NoSite | Warning::Lost => true,
        Warning::NoNear => is_mixed(mix),
        Warning::NoPause
        | Warning::Trapped
        | Warning::NoOtherStep
        | Warning::FewArmed
        | Warning::ManyUntried
        | Warning::WalkedInVain
        | Warning::NoExit
        | Warning::Gone
        | Warning::Missed => false,
    }
}

/// Whether a warning that holds of what a hunt came to says that it would mean nothing that there is no race.
#[tactic(auto, unfolding(crate::specs::Warnings::is_void))]
pub fn is_void(outcome: &Outcome) -> bool
    ensures { result ≡ spec.is_void outcome.now }
{
    WARNINGS.iter().any(|warning| holds(*warning, outcome) && voids(outcome.mix, *warning))
}

/// Those of the warnings that hold of what a hunt came to.
pub fn warnings_of(alloc: Global, outcome: &Outcome) -> Result<Vec<Warning>, NoMemory>
    ensures { IfOk result (λ warnings. warnings.items ≡ spec.warnings_of outcome.now) }
{
    let those = WARNINGS.iter().copied();
    Ok(
        those
            .filter(|warning| holds(*warning, outcome))
            .collect(alloc)?,
    )
}

/// The first trap that was met.
fn first_stop(alloc: Global, symbols: &SymbolTable, saw: &Hunted) -> Result<String, NoMemory> {
    let [kind, ..] = saw.tally.ended().stops().told() else {
        return Ok(String::new(alloc));
    };
    let words = ways_words(alloc, symbols, Ways::One(kind.end))?;
    Ok(format!(in alloc; ", the first {words}")?)
}

/// The words of the warning that a name has gone.
pub fn gone_words(alloc: Global, line: u64) -> Result<String, NoMemory> {
    Ok(format!(in alloc;
        "line {line} of the list of --expect names what the image lacks, and fits no race: was it renamed, or does it need --lines?"
    )?)
}

/// The words of a warning.
pub fn warning_words(
    alloc: Global,
    symbols: &SymbolTable,
    outcome: &Outcome,
    warning: Warning,
) -> Result<String, NoMemory> {
    let saw = outcome.saw;
    let words = match warning {
        Warning::Compressed => {
            "built with compressed instructions (-march=..c): none of it runs here"
        }
        Warning::Floating => {
            "built with floating-point instructions (-march=..f or ..d): none of them runs here"
        }
        Warning::NoSite => {
            "the image has no load or store to pause at: is it the right file, and what does --skip leave out?"
        }
        Warning::NoPause => {
            "no pause was made, so that no race could be seen: do the harts reach a load or a store?"
        }
        Warning::Lost => {
            let first = first_stop(alloc, symbols, saw)?;
            return Ok(format!(in alloc;
                "in most of the longest runs no hart came further than a trap{first}: is the program built for RV32IMA without an operating system?"
            )?);
        }
        Warning::Trapped => {
            let first = first_stop(alloc, symbols, saw)?;
            return Ok(format!(in alloc;
                "in most of the longest runs a trap stopped a hart{first}: is the program built for RV32IMA without an operating system?"
            )?);
        }
        Warning::NoOtherStep => {
            "in no pause did another hart make a step: take more --harts, or a longer pause by --plan"
        }
        Warning::FewArmed => {
            "fewer than half of the sites were ever armed: take a greater --budget"
        }
        Warning::NoNear => {
            "in no walk a plain load or store touched the same bytes as another hart soon before or after: do the harts share anything?"
        }
        Warning::ManyUntried => {
            "more than half of the near pairs were not tried: take a greater --budget"
        }
        Warning::WalkedInVain => {
            "most walks of the most harts came to 900000 steps without a near pair: does the program get to where its harts work together?"
        }
        Warning::NoExit => {
            "in most of the longest runs no hart exited: if the program ends, take more steps by --plan"
        }
        Warning::Gone => return gone_words(alloc, outcome.gone.unwrap_or(0)),
        Warning::Missed => MISS_WORDS,
    };
    Ok(format!(in alloc; "{words}")?)
}

/// A line of each warning that holds, and of each race that may be a bug and is not expected.
pub fn first_notes(
    alloc: Global,
    symbols: &SymbolTable,
    outcome: &Outcome,
) -> Result<Vec<u8>, NoMemory> {
    let mut text = Vec::new(alloc);
    for warning in &warnings_of(alloc, outcome)? {
        let words = warning_words(alloc, symbols, outcome, *warning)?;
        let line = format!(in alloc; "rvcollide: warning: {words}\n")?;
        text.extend_from_slice(line.as_bytes())?;
    }
    push_unexpected(alloc, &mut text, symbols, outcome.new)?;
    Ok(text)
}

/// The same of a table: the warnings that a name has gone, if one has, and that the source lines have no frame of the image, and a line of each race that may be a bug and is not expected.
pub fn tabled_notes(
    alloc: Global,
    symbols: &SymbolTable,
    tabled: &Tabled,
) -> Result<Vec<u8>, NoMemory> {
    let mut text = Vec::new(alloc);
    if let Some(line) = tabled.gone {
        let words = gone_words(alloc, line)?;
        let line = format!(in alloc; "rvcollide: warning: {words}\n")?;
        text.extend_from_slice(line.as_bytes())?;
    }
    if tabled.misses {
        let line = format!(in alloc; "rvcollide: warning: {MISS_WORDS}\n")?;
        text.extend_from_slice(line.as_bytes())?;
    }
    push_unexpected(alloc, &mut text, symbols, tabled.new)?;
    Ok(text)
}
