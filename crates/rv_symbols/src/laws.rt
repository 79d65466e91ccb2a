//! What holds of the symbols that addresses are told by: the contract of a function that does nothing.
ghost use Rattle.rv_symbols.specs.SymbolLaws.{AddressesAreHeld};

/// The symbol that an address is told by holds it; or it has no size, and stands at the address or below in its segment.
pub fn addresses_are_held()
    ensures { AddressesAreHeld }
{}
