//! Laws of memory as its definitions have it, each the contract of a function that does nothing.

ghost use Rattle.rv_memory.specs.MemoryLaws.{StoreKeepsOtherBytes, StoreKeepsOtherLoads, StoreKeepsSpans, StoreKeepsPermissions, StoredIsReadBack, BytesStandWhereCovered, MadeIsSound, StoreKeepsSound, PermittedIsThere};

/// A store changes its own bytes alone.
pub fn store_keeps_the_rest()
    ensures bytes { StoreKeepsOtherBytes }
    ensures loads { StoreKeepsOtherLoads }
    ensures spans { StoreKeepsSpans }
    ensures permissions { StoreKeepsPermissions }
{}

/// What is stored is read back.
pub fn stored_is_read_back()
    ensures { StoredIsReadBack }
{}

/// There is a byte at just the addresses that some region covers.
pub fn bytes_stand_where_covered()
    ensures { BytesStandWhereCovered }
{}

/// Memory is sound when it is made, and after each store.
pub fn memory_is_sound()
    ensures made { MadeIsSound }
    ensures stored { StoreKeepsSound }
{}

/// Bytes that are permitted for some need lie in memory.
#[tactic(auto, using(crate::proofs::Permitted::permitted_is_there))]
pub fn permitted_bytes_are_there()
    ensures { PermittedIsThere }
{}
