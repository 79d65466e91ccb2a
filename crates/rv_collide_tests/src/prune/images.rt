//! The images of the tests.
use crate::parts::zeros;
use rv_elf::Image;
use rv_memory::region::Region;
use std::alloc::Global;
use std::process::Abort;

/// Words from an address on, R and X.
pub fn segment(rt: &impl Abort, alloc: Global, start: u32, words: &[u32]) -> Region {
    let mut bytes = Vec::new(alloc);
    for word in words {
        bytes
            .extend_from_slice(&word.to_le_bytes())
            .expect(rt, "memory");
    }
    let len = bytes.len();
    assert!(rt; 1 <= len && len <= 65_536);
    Region {
        start,
        bytes,
        len: len as u32,
        r: true,
        w: false,
        x: true,
    }
}

/// An image of words at 00010000, which may not be written, and 4,096 zero bytes at 00020000.
pub fn image(rt: &impl Abort, alloc: Global, words: &[u32]) -> Image {
    let code = segment(rt, alloc, 0x10000, words);
    let segments = vec![in alloc; code, zeros(alloc, 0x20000, 4096)].expect(rt, "memory");
    Image::new(0x10000, segments, Vec::new(alloc)).expect(rt, "an image")
}
