//! What an image was built with.
ghost use Rattle.std.specs.Prelude.{◌≡◌};
ghost use Rattle.rv_engines.specs.Built as spec;

/// Whether the flags of a file say that it was built with compressed instructions, and with floating-point ones.
#[derive(Clone, Copy)]
pub struct Built {
    pub compressed: bool,
    pub floating: bool,
}

/// The place of the lowest byte of the flags in an ELF32 header.
const FLAGS: usize = 36;

/// What the flags in the bytes of a file say.
pub fn built_of(bytes: &[u8]) -> Built
    ensures { result ≡ spec.built_of bytes.now }
{
    let flags = match bytes.get(FLAGS) {
        Some(flags) => *flags,
        None => 0,
    };
    Built {
        compressed: flags % 2 == 1,
        floating: flags / 2 % 4 != 0,
    }
}
