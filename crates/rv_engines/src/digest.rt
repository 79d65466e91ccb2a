//! The digest of a file, by which a person knows which one was read.
use rv_memory::store::NoMemory;
use sha2::{Digest, Sha256};
use std::alloc::Global;

/// The SHA-256 digest of some bytes in 64 hexadecimal digits.
pub fn digest_of(alloc: Global, bytes: &[u8]) -> Result<String, NoMemory> {
    let digest = Sha256::digest(bytes);
    let mut digits = String::new(alloc);
    for byte in &digest {
        let two = format!(in alloc; "{byte:02x}")?;
        digits.push_str(two.as_str())?;
    }
    Ok(digits)
}
