ghost use Rattle.std.specs.Prelude.{◌≡◌};
ghost use Rattle.rv_isa.specs.Form as spec;

/// The operand formats: which fields a word of an operation has beside its fixed bits. Beyond the six
/// base formats (RISC-V Unprivileged ISA, "Base Instruction Formats") there are shifts by an immediate,
/// FENCE, ECALL and EBREAK, LR, and the other atomics.
#[derive(Clone, Copy, Debug, PartialEq, Eq)]
pub enum Form {
    R,
    I,
    S,
    B,
    U,
    J,
    Shift,
    Fence,
    Plain,
    Lr,
    Amo,
}

impl Form {
    /// The bits of a word that are fixed in this format.
    #[inline(always)]
    pub fn mask(self) -> u32
        ensures { result ≡ spec.mask_of self }
    {
        match self {
            Form::U | Form::J => 0x0000_007f,
            Form::I | Form::S | Form::B | Form::Fence => 0x0000_707f,
            Form::R | Form::Shift => 0xfe00_707f,
            Form::Plain => 0xffff_ffff,
            Form::Lr => 0xf9f0_707f,
            Form::Amo => 0xf800_707f,
        }
    }

    /// Whether a word of this format names a destination register.
    pub fn has_rd(self) -> bool
        ensures { result ≡ spec.has_rd self }
    {
        match self {
            Form::S | Form::B | Form::Plain => false,
            Form::R | Form::I | Form::U | Form::J => true,
            Form::Shift | Form::Fence | Form::Lr | Form::Amo => true,
        }
    }

    /// Whether it names a first source register.
    pub fn has_rs1(self) -> bool
        ensures { result ≡ spec.has_rs1 self }
    {
        match self {
            Form::U | Form::J | Form::Plain => false,
            Form::R | Form::I | Form::S | Form::B => true,
            Form::Shift | Form::Fence | Form::Lr | Form::Amo => true,
        }
    }

    /// Whether it names a second source register.
    pub fn has_rs2(self) -> bool
        ensures { result ≡ spec.has_rs2 self }
    {
        match self {
            Form::R | Form::S | Form::B | Form::Amo => true,
            Form::I | Form::U | Form::J | Form::Shift => false,
            Form::Fence | Form::Plain | Form::Lr => false,
        }
    }

    /// Whether it has the ordering bits aq and rl.
    pub fn has_ordering(self) -> bool
        ensures { result ≡ spec.has_ordering self }
    {
        match self {
            Form::Lr | Form::Amo => true,
            Form::R | Form::I | Form::S | Form::B | Form::U => false,
            Form::J | Form::Shift | Form::Fence | Form::Plain => false,
        }
    }
}
