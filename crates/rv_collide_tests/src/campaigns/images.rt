//! What the images of the tests are made of, and their plans.
use crate::parts::zeros;
use rv_collide::plan::Plan;
use rv_elf::Image;
use rv_memory::region::Region;
use std::alloc::Global;
use std::process::Abort;

/// `lui x6,0x20`, `sw x10,0(x6)`, `lw x5,0(x6)`, `ecall`.
pub const P: [u32; 4] = [0x0002_0337, 0x00a3_2023, 0x0003_2283, 0x0000_0073];

/// `lui x6,0x20`, `sw x10,0(x6)`, `ecall`.
pub const ONE_STORE: [u32; 3] = [0x0002_0337, 0x00a3_2023, 0x0000_0073];

/// Words at 00010000, R and X.
fn code(rt: &impl Abort, alloc: Global, words: &[u32]) -> Region {
    let mut bytes = Vec::new(alloc);
    for word in words {
        bytes
            .extend_from_slice(&word.to_le_bytes())
            .expect(rt, "memory");
    }
    let len = bytes.len();
    assert!(rt; 1 <= len && len <= 65_536);
    Region {
        start: 0x10000,
        bytes,
        len: len as u32,
        r: true,
        w: false,
        x: true,
    }
}

/// An image of words at 00010000, and 4,096 zero bytes at 00020000.
pub fn image(rt: &impl Abort, alloc: Global, words: &[u32]) -> Image {
    let code = code(rt, alloc, words);
    let segments = vec![in alloc; code, zeros(alloc, 0x20000, 4096)].expect(rt, "memory");
    Image::new(0x10000, segments, Vec::new(alloc)).expect(rt, "an image")
}

/// A plan with four slots.
pub fn plan(rt: &impl Abort, harts: u8, steps: u32, arms: u32, pause: u32) -> Plan {
    Plan::new(harts, steps, arms, pause, 4).expect(rt, "a plan")
}
