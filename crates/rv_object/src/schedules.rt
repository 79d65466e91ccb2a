//! The names of the schedules in the folder of a hunt.
use rv_memory::store::NoMemory;
use std::alloc::Global;

/// What a schedule is of: how its name begins, and what stands behind its number.
#[derive(Clone, Copy)]
pub(crate) struct Kind {
    word: &'static str,
    tail: &'static str,
}

pub(crate) const RACE: Kind = Kind {
    word: "race",
    tail: "",
};

pub(crate) const FIRST: Kind = Kind {
    word: "race",
    tail: "-first",
};

pub(crate) const SECOND: Kind = Kind {
    word: "race",
    tail: "-second",
};

pub(crate) const STUCK: Kind = Kind {
    word: "stuck",
    tail: "",
};

pub(crate) const ENDED: Kind = Kind {
    word: "end",
    tail: "",
};

/// The name of the schedule of that number, where it is saved.
pub(crate) fn schedule_name(
    alloc: Global,
    kind: Kind,
    number: u64,
    is_saved: bool,
) -> Result<Option<String>, NoMemory> {
    if !is_saved {
        return Ok(None);
    }
    let (word, tail) = (kind.word, kind.tail);
    Ok(Some(format!(in alloc; "{word}-{number}{tail}.schedule")?))
}
