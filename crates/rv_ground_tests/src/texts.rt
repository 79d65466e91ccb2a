//! Numbers in digits, and texts cut into lines and pieces.
use crate::assertion::assert_is;
use rv_text::decimal::{Decimal, read_decimal};
use rv_text::hexadecimal::{byte_digits, read_word, word_digits};
use rv_text::lines::Lines;
use rv_text::numeral::read_number;
use rv_text::pieces::Pieces;
use std::process::Abort;

/// A text, its radix, the limit, and the number that is read.
const NUMBERS: [(&str, u32, u32, Option<u32>); 6] = [
    ("007", 10, 7, Some(7)),
    ("FfFf", 16, u32::MAX, Some(65_535)),
    ("101", 2, 5, Some(5)),
    ("101", 2, 4, None),
    ("102", 2, 9, None),
    ("", 10, 9, None),
];

#[test]
fn reads_numbers_of_a_radix(rt: HostRuntime) {
    for (text, radix, limit, wanted) in &NUMBERS {
        assert!(rt; 2 <= *radix && *radix <= 36);
        let number = read_number(text.as_bytes(), *radix, *limit);
        assert_is(&rt, number, *wanted, text);
    }
}

const DECIMAL: [(u64, &str); 5] = [
    (0, "0"),
    (9, "9"),
    (10, "10"),
    (4_294_967_295, "4294967295"),
    (u64::MAX, "18446744073709551615"),
];

#[test]
fn writes_decimal_numbers(rt: HostRuntime) {
    for (number, text) in &DECIMAL {
        let decimal = Decimal::new(*number);
        assert_is(&rt, decimal.as_bytes(), text.as_bytes(), text);
    }
}

/// A text, the limit, and the number that is read.
const DECIMAL_READ: [(&str, u32, Option<u32>); 3] = [
    ("0", 0, Some(0)),
    ("15", 15, Some(15)),
    ("4294967295", u32::MAX, Some(u32::MAX)),
];

#[test]
fn reads_decimal_numbers(rt: HostRuntime) {
    for (text, limit, number) in &DECIMAL_READ {
        assert_is(&rt, read_decimal(text.as_bytes(), *limit), *number, text);
    }
}

const NOT_DECIMAL: [(&str, u32); 9] = [
    ("", 15),
    ("00", 15),
    ("01", 15),
    ("16", 15),
    ("4294967296", u32::MAX),
    ("99999999999999999999999999", u32::MAX),
    ("+1", 15),
    ("1 ", 15),
    ("a", 15),
];

#[test]
fn refuses_what_is_not_decimal(rt: HostRuntime) {
    for (text, limit) in &NOT_DECIMAL {
        assert_is(&rt, read_decimal(text.as_bytes(), *limit), None, text);
    }
}

const WORDS: [(u32, &str); 4] = [
    (0, "00000000"),
    (10_690_595, "00a32023"),
    (3_735_928_559, "deadbeef"),
    (u32::MAX, "ffffffff"),
];

#[test]
fn writes_words(rt: HostRuntime) {
    for (word, text) in &WORDS {
        let digits = word_digits(*word);
        assert_is(&rt, digits.as_slice(), text.as_bytes(), text);
        let number = read_word(text.as_bytes());
        assert_is(&rt, number, Some(*word), text);
    }
}

const BYTES: [(u8, &str); 3] = [(0, "00"), (65, "41"), (175, "af")];

#[test]
fn writes_bytes(rt: HostRuntime) {
    for (byte, text) in &BYTES {
        let digits = byte_digits(*byte);
        assert_is(&rt, digits.as_slice(), text.as_bytes(), text);
    }
}

const WORDS_READ: [(&str, Option<u32>); 9] = [
    ("00A32023", Some(10_690_595)),
    ("DeadBeef", Some(3_735_928_559)),
    ("", None),
    ("0a32023", None),
    ("000a32023", None),
    ("00a3202g", None),
    (" 0a32023", None),
    ("+0a32023", None),
    ("0a32023\r", None),
];

#[test]
fn reads_words_in_either_case(rt: HostRuntime) {
    for (text, word) in &WORDS_READ {
        assert_is(&rt, read_word(text.as_bytes()), *word, text);
    }
}

fn assert_line(rt: &impl Abort, lines: &mut Lines, wanted: Option<&str>) {
    let line = lines.next_line();
    assert_is(
        rt,
        line,
        wanted.map(str::as_bytes),
        wanted.unwrap_or("no more"),
    );
}

#[test]
fn takes_lines(rt: HostRuntime) {
    let mut lines = Lines::of(b"ab\n\nc");
    assert_line(&rt, &mut lines, Some("ab"));
    assert_line(&rt, &mut lines, Some(""));
    assert_line(&rt, &mut lines, Some("c"));
    assert_line(&rt, &mut lines, None);
    assert_line(&rt, &mut lines, None);
}

#[test]
fn last_line_feed_opens_no_line(rt: HostRuntime) {
    let mut lines = Lines::of(b"a\r\n");
    assert_line(&rt, &mut lines, Some("a\r"));
    assert_line(&rt, &mut lines, None);
    let mut empty_line = Lines::of(b"\n");
    assert_line(&rt, &mut empty_line, Some(""));
    assert_line(&rt, &mut empty_line, None);
    assert_line(&rt, &mut Lines::of(b""), None);
}

fn assert_piece(rt: &impl Abort, pieces: &mut Pieces, wanted: Option<&str>) {
    let piece = pieces.next_piece();
    assert_is(
        rt,
        piece,
        wanted.map(str::as_bytes),
        wanted.unwrap_or("no more"),
    );
}

#[test]
fn takes_pieces(rt: HostRuntime) {
    let mut pieces = Pieces::of(b"a  bc ", b' ');
    assert_piece(&rt, &mut pieces, Some("a"));
    assert_piece(&rt, &mut pieces, Some(""));
    assert_piece(&rt, &mut pieces, Some("bc"));
    assert_piece(&rt, &mut pieces, Some(""));
    assert_piece(&rt, &mut pieces, None);
    assert_piece(&rt, &mut pieces, None);
}

#[test]
fn empty_text_is_one_piece(rt: HostRuntime) {
    let mut pieces = Pieces::of(b"", b',');
    assert_piece(&rt, &mut pieces, Some(""));
    assert_piece(&rt, &mut pieces, None);
}
