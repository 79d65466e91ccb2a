//! Files of source lines.
use crate::assertion::{assert_at, assert_is};
use rv_lines::fault::{LinesFault, LinesKind, LinesRefusal};
use rv_lines::lines::read_lines;
use std::process::Abort;

/// Two functions, of which one is inlined into the other, and an end.
const FILE: &str =
    "00010054\tput\tring.c:19\tmain\t./ring.c:40\n00010060\n00010064\t?\tC:\\\\a.c:?\n00010068\tf\t?";

/// An address, the functions of its frames, and the file and the line of the first, where there is one.
const FRAMES: [(u32, &[&str], Option<&str>, Option<u32>); 8] = [
    (0, &[], None, None),
    (0x10053, &[], None, None),
    (0x10054, &["put", "main"], Some("ring.c"), Some(19)),
    (0x1005c, &["put", "main"], Some("ring.c"), Some(19)),
    (0x10060, &[], None, None),
    (0x10064, &["?"], Some("C:\\\\a.c"), None),
    (0x10068, &["f"], None, None),
    (0xffff_ffff, &["f"], None, None),
];

#[test]
fn finds_frames(rt: HostRuntime) {
    let alloc = rt.alloc();
    let Ok(lines) = read_lines(alloc, FILE.as_bytes()) else {
        return assert_is(&rt, false, true, "the file is read");
    };
    for (address, functions, file, line) in &FRAMES {
        let number = u64::from(*address);
        let mut frames = lines.frames_at(*address);
        for function in *functions {
            let found = frames.next_frame().map(|frame| frame.function);
            assert_at(
                &rt,
                found,
                Some(function.as_bytes()),
                "the function",
                number,
            );
        }
        assert_at(&rt, frames.next_frame().is_none(), true, "the end", number);
        if let Some(frame) = lines.frames_at(*address).next_frame() {
            let wanted = file.map(|file| file.as_bytes());
            assert_at(&rt, frame.file(), wanted, "the file", number);
            assert_at(&rt, frame.line(), *line, "the line", number);
        }
    }
}

/// A file, and its first line with a fault.
const REFUSED: [(&str, u64, LinesKind); 9] = [
    ("\n", 1, LinesKind::Shape),
    ("00010000\n\n", 2, LinesKind::Shape),
    ("00010000\t\n", 1, LinesKind::Shape),
    ("00010000\tf\n", 1, LinesKind::Shape),
    ("00010000\tf\ta.c\n", 1, LinesKind::Shape),
    ("00010000\tf\ta.c:4294967296\n", 1, LinesKind::Shape),
    ("00010000\tf\u{9b}\ta.c:1\n", 1, LinesKind::Shape),
    ("00010000\n00010000\n", 2, LinesKind::Order),
    ("00010004\n00010000\nx\n", 2, LinesKind::Order),
];

#[test]
fn refuses_other_files(rt: HostRuntime) {
    for (text, line, kind) in &REFUSED {
        let wanted = LinesRefusal::Line(LinesFault {
            line: *line,
            kind: *kind,
        });
        let found = match read_lines(rt.alloc(), text.as_bytes()) {
            Ok(_) => None,
            Err(fault) => Some(fault),
        };
        assert_is(&rt, found, Some(wanted), text);
    }
}

/// Whether lines have a frame from one address up to another.
const REACHED: [(u32, u64, bool); 6] = [
    (0x10000, 0x10054, false),
    (0x10000, 0x10055, true),
    (0x10058, 0x1005c, true),
    (0x10060, 0x10064, false),
    (0x10070, 0x10074, true),
    (0x10070, 0x10070, false),
];

#[test]
fn reaches_addresses(rt: HostRuntime) {
    let Ok(lines) = read_lines(rt.alloc(), FILE.as_bytes()) else {
        return assert_is(&rt, false, true, "the file is read");
    };
    for (start, end, wanted) in &REACHED {
        assert_at(&rt, lines.reach(*start, *end), *wanted, "reaches", *end);
    }
    assert_is(&rt, lines.count(), 4, "the lines");
}
