/// The low `size` bytes of a value, on their way to memory: 1, 2 or 4 bytes from `address` on.
#[derive(Clone, Copy)]
pub struct Write {
    pub address: u32,
    pub size: u8,
    pub value: u32,
}
