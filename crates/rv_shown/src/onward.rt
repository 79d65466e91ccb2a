//! How to go on from what a hunt says.
use crate::options::LineParts;
use rv_memory::store::NoMemory;
use std::alloc::Global;

/// Adds the line that says how a run is kept, where schedules are not saved.
pub(crate) fn push_keep_line(
    alloc: Global,
    text: &mut Vec<u8>,
    line: &LineParts<'_>,
) -> Result<(), NoMemory> {
    if line.folder.is_none() {
        let image = line.image;
        let options = line.options;
        let keep = format!(in alloc;
            "to keep a run: rvcollide hunt {image} --first R --runs 1 --save-to DIR{options}\n"
        )?;
        text.extend_from_slice(keep.as_bytes())?;
    }
    Ok(())
}

/// Adds the line that goes to a race's pause in GDB, where schedules are saved.
pub(crate) fn push_gdb_line(
    alloc: Global,
    text: &mut Vec<u8>,
    line: &LineParts<'_>,
    number: u64,
    ending: u32,
) -> Result<(), NoMemory> {
    if let Some(folder) = line.folder {
        let image = line.image;
        let nested = line.nested_image;
        let going = format!(in alloc;
            "  gdb: gdb-multiarch {image} -ex 'set remotetimeout 60' -ex 'target remote | rvcollide gdb {nested} {folder}/race-{number}.schedule' -ex 'monitor ending {ending}'\n"
        )?;
        text.extend_from_slice(going.as_bytes())?;
    }
    Ok(())
}

/// Adds the line that opens a stuck end's schedule in GDB, where schedules are saved: behind its last entry each thread stands in its
/// loop.
pub(crate) fn push_stuck_gdb_line(
    alloc: Global,
    text: &mut Vec<u8>,
    line: &LineParts<'_>,
    number: u64,
    entries: usize,
) -> Result<(), NoMemory> {
    if let Some(folder) = line.folder {
        let image = line.image;
        let nested = line.nested_image;
        let going = format!(in alloc;
            "  gdb: gdb-multiarch {image} -ex 'set remotetimeout 60' -ex 'target remote | rvcollide gdb {nested} {folder}/stuck-{number}.schedule' -ex 'monitor entry {entries}'\n"
        )?;
        text.extend_from_slice(going.as_bytes())?;
    }
    Ok(())
}
