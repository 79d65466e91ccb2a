//! What an object begins with: which format it is, and what it is of.
ghost use Rattle.std.specs.Prelude.{◌≡◌, IfOk};

use rv_json::object::Json;
use rv_memory::store::NoMemory;

/// The version of the format: it is raised where a member goes or changes its meaning.
const VERSION: u64 = 1;

/// Whether all is there, the version of the program, the path of the image and the digest of its file, and the command.
#[derive(Clone, Copy)]
pub struct Head<'a> {
    /// A hunt that goes on has written what it found so far.
    pub is_complete: bool,
    pub version: &'a str,
    pub path: &'a str,
    pub digest: &'a str,
    pub command: &'a str,
}

/// The first members.
pub fn head_members(json: Json, head: &Head<'_>) -> Result<Json, NoMemory>
    ensures { IfOk result (λ more. more ≡ json) }
{
    let json = json.text_at("format", "rvcollide")?;
    let json = json.number_at("version", VERSION)?;
    let json = json.flag_at("complete", head.is_complete)?;
    let json = json.object_at("tool")?.text_at("name", "rvcollide")?;
    let json = json.text_at("version", head.version)?.end()?;
    let json = json.object_at("image")?.text_at("path", head.path)?;
    let json = json.text_at("sha256", head.digest)?.end()?;
    json.text_at("command", head.command)
}
