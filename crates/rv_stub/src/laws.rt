//! What holds of the talk's answers: the contract of a function that does nothing.
ghost use Rattle.rv_stub.specs.MetLaws.{MetIsExhibited};

/// The access that met a pause is that of the ending's exhibit: of a hit the first that conflicts, of a change the last that
/// writes the bytes.
pub fn met_is_exhibited()
    ensures { MetIsExhibited }
{}
