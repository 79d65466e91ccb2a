//! A law of the data breakpoints. The function's contract is the law.
ghost use Rattle.rv_break.specs.SlotsLaw as law;

/// After any accesses, a claim holds the first of them that another hart made and that conflicts, wherever it
/// stands and whatever is claimed and freed beside it.
pub fn first_is_seen()
    ensures { law.FirstIsSeen }
{}
