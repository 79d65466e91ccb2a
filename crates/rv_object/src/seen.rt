//! The numbers of what a hunt saw.
ghost use Rattle.std.specs.Prelude.{◌≡◌, IfOk};

use rv_json::object::Json;
use rv_memory::store::NoMemory;
use rv_search::tally::Tally;
use rv_shown::code_seen::CodeSeen;
use rv_shown::outcome::Outcome;
use rv_shown::saying::warnings::all_sampled;

/// The sites, and how the pauses of sampled runs ended.
fn sampled_members(json: Json, sites: u64, saw: &Tally) -> Result<Json, NoMemory>
    ensures { IfOk result (λ more. more ≡ json) }
{
    let counts = saw.sampled();
    let json = json.number_at("sites", sites)?;
    let json = json.number_at("armed", saw.armed().count())?;
    let json = json.number_at("paused_at", saw.paused().count())?;
    let json = json.number_at("pauses", counts.pauses())?;
    let json = json.number_at("quiet", counts.quiet)?;
    let json = json.number_at("hit", counts.hit)?;
    let json = json.number_at("changed", counts.changed)?;
    let json = json.number_at("unwatched", counts.unwatched)?;
    json.number_at("steps", counts.steps)
}

/// The walks and their probes, where not all runs are sampled ones.
fn walk_members(json: Json, is_sampled: bool, saw: &Tally) -> Result<Json, NoMemory>
    ensures { IfOk result (λ more. more ≡ json) }
{
    if is_sampled {
        return json.nothing_at("walks")?.nothing_at("probes");
    }
    let json = json.number_at("walks", saw.walks())?;
    json.number_at("probes", saw.probes())
}

/// How much of the code was executed: of functions where there are any and not all runs are sampled ones.
fn code_members(json: Json, is_sampled: bool, code: &CodeSeen) -> Result<Json, NoMemory>
    ensures { IfOk result (λ more. more ≡ json) }
{
    let json = json.number_at("words", u64::from(code.words))?;
    let json = json.number_at("words_executed", code.executed)?;
    let functions = code.functions.len() as u64;
    if functions == 0 || is_sampled {
        let json = json.nothing_at("functions")?;
        return json.nothing_at("functions_executed");
    }
    let json = json.number_at("functions", functions)?;
    json.number_at("functions_executed", code.run_functions())
}

/// What was seen.
pub(crate) fn seen_at(json: Json, outcome: &Outcome) -> Result<Json, NoMemory>
    ensures { IfOk result (λ more. more ≡ json) }
{
    let saw = &outcome.saw.tally;
    let json = sampled_members(json.object_at("seen")?, outcome.sites, saw)?;
    let is_sampled = all_sampled(outcome.mix);
    let json = walk_members(json, is_sampled, saw)?;
    code_members(json, is_sampled, outcome.code)?.end()
}
