//! What a FENCE orders, in letters.
ghost use Rattle.std.specs.Prelude.{◌≡◌, ◌<◌};
ghost use Rattle.std.specs.List.{find, range_with_len};
ghost use Rattle.std.specs.Str.{bytes_eq};
ghost use Rattle.rv_asm.specs.OrderSet as spec;

fn letters(set: u8) -> &'static [u8]
    requires { set < 16 }
    ensures { result.now ≡ spec.letters set }
{
    match set {
        0 => b"",
        1 => b"w",
        2 => b"r",
        3 => b"rw",
        4 => b"o",
        5 => b"ow",
        6 => b"or",
        7 => b"orw",
        8 => b"i",
        9 => b"iw",
        10 => b"ir",
        11 => b"irw",
        12 => b"io",
        13 => b"iow",
        14 => b"ior",
        _ => b"iorw",
    }
}

fn set_of(text: &[u8]) -> Option<u8>
    ensures { result ≡ find (λ set. bytes_eq (spec.letters set) text.now) (range_with_len 1 15) }
{
    (1..16u8).find(|set| letters(*set) == text)
}

/// The set of these letters: device input 8, device output 4, reads 2, writes 1.
pub(crate) fn order_set(text: &[u8]) -> Option<i64>
    ensures { result ≡ spec.order_set text.now }
{
    let set = set_of(text)?;
    Some(i64::from(set))
}
