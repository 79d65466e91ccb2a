//! What holds of the texts in a page. Each law is the contract of a function that does nothing.
ghost use Rattle.rv_markup.specs.MarkupLaws.{IsPlain, OpensNothing};

/// An escaped text opens and closes no element and ends no attribute, whatever its bytes are; and it is plain ASCII.
pub fn texts_stay_texts()
    ensures nothing { OpensNothing }
    ensures plain { IsPlain }
{}
