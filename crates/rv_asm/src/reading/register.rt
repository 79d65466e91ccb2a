//! The names of the registers.
ghost use Rattle.std.specs.Prelude.{◌≡◌, ◌<◌};
ghost use Rattle.rv_asm.specs.Registers as spec;

/// How many registers there are.
const REGISTERS: u8 = 32;

/// The register's name by its number, as a listing has it.
pub(crate) fn number_name(register: u8) -> &'static str
    requires { register < 32 }
    ensures { result.now ≡ spec.number_name register }
{
    match register {
        0 => "x0",
        1 => "x1",
        2 => "x2",
        3 => "x3",
        4 => "x4",
        5 => "x5",
        6 => "x6",
        7 => "x7",
        8 => "x8",
        9 => "x9",
        10 => "x10",
        11 => "x11",
        12 => "x12",
        13 => "x13",
        14 => "x14",
        15 => "x15",
        16 => "x16",
        17 => "x17",
        18 => "x18",
        19 => "x19",
        20 => "x20",
        21 => "x21",
        22 => "x22",
        23 => "x23",
        24 => "x24",
        25 => "x25",
        26 => "x26",
        27 => "x27",
        28 => "x28",
        29 => "x29",
        30 => "x30",
        _ => "x31",
    }
}

/// The register's name in the calling convention.
fn convention_name(register: u8) -> &'static str
    requires { register < 32 }
    ensures { result.now ≡ spec.convention_name register }
{
    match register {
        0 => "zero",
        1 => "ra",
        2 => "sp",
        3 => "gp",
        4 => "tp",
        5 => "t0",
        6 => "t1",
        7 => "t2",
        8 => "s0",
        9 => "s1",
        10 => "a0",
        11 => "a1",
        12 => "a2",
        13 => "a3",
        14 => "a4",
        15 => "a5",
        16 => "a6",
        17 => "a7",
        18 => "s2",
        19 => "s3",
        20 => "s4",
        21 => "s5",
        22 => "s6",
        23 => "s7",
        24 => "s8",
        25 => "s9",
        26 => "s10",
        27 => "s11",
        28 => "t3",
        29 => "t4",
        30 => "t5",
        _ => "t6",
    }
}

/// Whether the text is a name of the register.
fn is_named(register: u8, text: &[u8]) -> bool
    requires { register < 32 }
    ensures { result ≡ spec.is_named register text.now }
{
    number_name(register).as_bytes() == text
        || convention_name(register).as_bytes() == text
        || (register == 8 && text == b"fp".as_slice())
}

/// The register of a name.
pub(crate) fn register_named(text: &[u8]) -> Option<u8>
    ensures { result ≡ spec.register_named text.now }
{
    (0..REGISTERS).find(|register| is_named(*register, text))
}
