//! The bytes of both sections, line by line.
ghost use Rattle.std.specs.Prelude.{◌≡◌, ◌++◌, None, Some, Ok, IfOk, OnOk, MatchResult};
ghost use Rattle.rv_asm.specs.Layout.{lines_placed};
ghost use Rattle.rv_asm.specs.Assembled as spec;
ghost use Rattle.rv_asm.specs.declared.statement.Section.TheVariants as section_of;

use crate::fault::AsmFault;
use crate::passes::cursor::PlacedLines;
use crate::passes::labels::Labels;
use crate::passes::lines::line_bytes;
use crate::statement::Section;
use rv_memory::store::NoMemory;
use std::alloc::Global;

/// The bytes of both sections.
#[derive(Drop)]
pub struct Sections {
    pub text: Vec<u8>,
    pub writable: Vec<u8>,
}

/// Adds bytes at a section's end.
fn put(sections: &mut Sections, section: Section, bytes: &[u8]) -> Result<(), NoMemory>
    ensures text { OnOk result (sections.new.text.items
        ≡ sections.old.text.items ++ spec.if_in section_of.Text section (Ok bytes.now)) }
    ensures writable { OnOk result (sections.new.writable.items
        ≡ sections.old.writable.items ++ spec.if_in section_of.Data section (Ok bytes.now)) }
{
    match section {
        Section::Text => sections.text.extend_from_slice(bytes)?,
        Section::Data => sections.writable.extend_from_slice(bytes)?,
    }
    Ok(())
}

/// The bytes of both sections of a source whose labels are known, or its first fault.
pub fn sections_of(
    alloc: Global,
    labels: &Labels,
    source: &[u8],
) -> Result<Result<Sections, AsmFault>, NoMemory>
    ensures fault { IfOk result (λ answer. MatchResult answer
        (λ _. spec.first_fault labels.now (lines_placed source.now) ≡ None)
        (λ fault. spec.first_fault labels.now (lines_placed source.now) ≡ Some fault)) }
    ensures text { IfOk result (λ answer. IfOk answer
        (λ s. s.text.items ≡ spec.section_bytes section_of.Text labels.now (lines_placed source.now))) }
    ensures writable { IfOk result (λ answer. IfOk answer
        (λ s. s.writable.items ≡ spec.section_bytes section_of.Data labels.now (lines_placed source.now))) }
{
    let mut sections = Sections {
        text: Vec::new(alloc),
        writable: Vec::new(alloc),
    };
    let mut lines = PlacedLines::of(source);
    while let Some(p) = lines.next_line() {
        let place = p.place;
        match line_bytes(alloc, labels, p)? {
            Ok(bytes) => put(&mut sections, place.section, &bytes)?,
            Err(kind) => {
                let line = place.lines_before + 1;
                return Ok(Err(AsmFault { line, kind }));
            }
        }
    }
    Ok(Ok(sections))
}
