//! The options of a hunt.
ghost use Rattle.std.specs.Prelude.{◌≡◌, IfOk};

use rv_json::object::Json;
use rv_memory::store::NoMemory;
use rv_plans::limit::Limit;
use rv_plans::plans::Lengths;
use rv_search::aim::Sides;
use rv_shown::options::HuntOptions;
use rv_shown::saying::warnings::all_sampled;

/// The elements of a list with a comma between two.
fn pieces(json: Json, list: &str) -> Result<Json, NoMemory>
    ensures { IfOk result (λ more. more ≡ json) }
{
    let mut json = json;
    for piece in list.split(',') {
        json = json.text(piece)?;
    }
    Ok(json)
}

/// A list, where it is given.
fn list_at(json: Json, name: &str, list: Option<&str>) -> Result<Json, NoMemory>
    ensures { IfOk result (λ more. more ≡ json) }
{
    match list {
        Some(list) => pieces(json.array_at(name)?, list)?.end(),
        None => json.nothing_at(name),
    }
}

/// The sides that are aimed at, where they are given.
fn aim_at(json: Json, aim: Option<Sides<'_>>) -> Result<Json, NoMemory>
    ensures { IfOk result (λ more. more ≡ json) }
{
    match aim {
        Some(sides) => {
            let json = json.array_at("aim")?.text(sides.one)?;
            json.text(sides.other)?.end()
        }
        None => json.nothing_at("aim"),
    }
}

/// The lengths of each run, where they are given.
fn plan_at(json: Json, lengths: Option<Lengths>) -> Result<Json, NoMemory>
    ensures { IfOk result (λ more. more ≡ json) }
{
    match lengths {
        Some(of) => {
            let json = json.array_at("plan")?.number(u64::from(of.steps))?;
            json.number(u64::from(of.arms))?
                .number(u64::from(of.pause))?
                .end()
        }
        None => json.nothing_at("plan"),
    }
}

/// The numbers of the runs and their plans.
fn run_members(
    json: Json,
    options: &HuntOptions<'_, '_>,
    first: u64,
    runs: u64,
) -> Result<Json, NoMemory>
    ensures { IfOk result (λ more. more ≡ json) }
{
    let given = &options.line.said;
    let budget = match options.limit {
        Limit::Runs(_) => None,
        Limit::Budget(steps) => Some(steps),
    };
    let json = json.number_at("seed", u64::from(options.seed))?;
    let json = json.number_at("first", first)?;
    let json = json.number_at("runs", runs)?;
    let json = json.number_if("budget", budget)?;
    let json = json.number_if("harts", given.harts.map(|harts| u64::from(harts)))?;
    let json = json.number_at("slots", u64::from(given.slots))?;
    plan_at(json, given.lengths)
}

/// The options, with the number of the first run and how many runs were made.
pub(crate) fn given_at(
    json: Json,
    options: &HuntOptions<'_, '_>,
    first: u64,
    runs: u64,
) -> Result<Json, NoMemory>
    ensures { IfOk result (λ more. more ≡ json) }
{
    let given = &options.line.said;
    let json = run_members(json.object_at("options")?, options, first, runs)?;
    let json = json.flag_at("sampled", all_sampled(options.plans.mix()))?;
    let json = json.flag_at("orders", options.orders)?;
    let json = aim_at(json, options.aim)?;
    let json = list_at(json, "skip", options.skip)?;
    let json = list_at(json, "named", options.named)?;
    let json = list_at(json, "idle", options.idle)?;
    let json = json.text_if("ignore", given.ignore)?;
    json.text_if("expect", given.expect)?.end()
}
