//! The bytes of a line, and how it is cut at them.
ghost use Rattle.std.specs.Prelude.{◌≡◌};
ghost use Rattle.std.specs.List.{list_all};
ghost use Rattle.rv_asm.specs.Text as spec;

/// The most bytes of a name.
const MOST_NAME: usize = 255;

/// Where a part of a line ends.
#[derive(Clone, Copy)]
pub enum Stop {
    /// At `#`.
    Comment,
    /// At a byte that no name has.
    NameEnd,
    /// At a space or a tab.
    Blank,
    /// At a blank or `(`.
    TokenEnd,
    /// At `)`.
    Close,
    /// At what is no blank.
    Filled,
}

impl Stop {
    fn is_at(self, byte: u8) -> bool
        ensures { result ≡ spec.is_stop self byte }
    {
        match self {
            Stop::Comment => byte == b'#',
            Stop::NameEnd => !is_name_byte(byte),
            Stop::Blank => is_blank(byte),
            Stop::TokenEnd => is_blank(byte) || byte == b'(',
            Stop::Close => byte == b')',
            Stop::Filled => !is_blank(byte),
        }
    }
}

fn is_blank(byte: u8) -> bool
    ensures { result ≡ spec.is_blank byte }
{
    byte == b' ' || byte == b'\t'
}

fn begins_name(byte: u8) -> bool
    ensures { result ≡ spec.begins_name byte }
{
    byte.is_ascii_alphabetic() || byte == b'_' || byte == b'.' || byte == b'$'
}

fn is_name_byte(byte: u8) -> bool
    ensures { result ≡ spec.is_name_byte byte }
{
    begins_name(byte) || byte.is_ascii_digit()
}

fn are_name_bytes(bytes: &[u8]) -> bool
    ensures { result ≡ list_all spec.is_name_byte bytes.now }
{
    bytes.iter().all(|byte| is_name_byte(*byte))
}

/// Whether the bytes spell a name.
pub(crate) fn is_name(bytes: &[u8]) -> bool
    ensures { result ≡ spec.is_name bytes.now }
{
    match bytes {
        [] => false,
        [first, rest @ ..] => {
            let named = begins_name(*first) && are_name_bytes(rest);
            named && rest.len() < MOST_NAME
        }
    }
}

/// What stands before the first stop, and the stop with what follows it.
pub(crate) fn cut(text: &[u8], stop: Stop) -> (&[u8], &[u8])
    ensures front { result.0.now ≡ spec.before stop text.now }
    ensures back { result.1.now ≡ spec.since stop text.now }
{
    let mut at = 0;
    while at < text.len() && !stop.is_at(text[at]) {
        at += 1;
    }
    (&text[..at], &text[at..])
}

/// The text without the blanks that it begins with.
pub(crate) fn trimmed(text: &[u8]) -> &[u8]
    ensures { result.now ≡ spec.since Stop.Filled text.now }
{
    cut(text, Stop::Filled).1
}
