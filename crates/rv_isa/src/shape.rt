/// How an instruction accesses memory. A plain load or store carries its size in bytes: 1, 2 or 4. LR, SC
/// and the AMOs access four bytes.
#[derive(Clone, Copy, Debug, PartialEq, Eq)]
pub enum Shape {
    PlainLoad(u8),
    PlainStore(u8),
    Lr,
    Sc,
    Amo,
    Other,
}
