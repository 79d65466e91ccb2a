//! From a source to its image.
ghost use Rattle.std.specs.Prelude.{◌≡◌, ◌⊎◌, Ok, Err, IfOk, IfErr};
ghost use Rattle.rv_asm.specs.Assembled as spec;

use crate::fault::AsmFault;
use crate::passes::image::image_of;
use crate::passes::labels::labels_of;
use crate::passes::sections::sections_of;
use crate::statement::AsmKind;
use rv_elf::Image;
use rv_memory::store::NoMemory;
use std::alloc::Global;

/// The image that a source describes, or its first fault.
#[tactic(auto, unfolding(crate::specs::Assembled::assembled))]
fn assembled(alloc: Global, source: &[u8]) -> Result<Result<Image, AsmFault>, NoMemory>
    ensures { IfOk result (λ answer. answer ≡ spec.assembled source.now) }
{
    let labels = labels_of(alloc, source)?;
    let sections = match sections_of(alloc, &labels, source)? {
        Ok(sections) => sections,
        Err(fault) => return Ok(Err(fault)),
    };
    if sections.text.is_empty() {
        return Ok(Err(AsmFault {
            line: 0,
            kind: AsmKind::Empty,
        }));
    }
    Ok(Ok(image_of(alloc, labels, sections)?))
}

/// The image that a source describes, or its first fault (`specs/Assembled.antt`): that of the least line,
/// and within the line the first in the order of `specs/Faults.antt`. `NoMemory` of line 0 may stand in
/// place of either, where a growth was refused.
pub fn assemble(alloc: Global, source: &str) -> Result<Image, AsmFault>
    ensures ok { IfOk result (λ image. spec.assembled source.now ≡ Ok image) }
    ensures err { IfErr result (λ fault. (spec.assembled source.now ≡ Err fault) ⊎ (fault ≡ spec.no_memory)) }
{
    match assembled(alloc, source.as_bytes()) {
        Ok(answer) => answer,
        Err(_) => Err(AsmFault {
            line: 0,
            kind: AsmKind::NoMemory,
        }),
    }
}
