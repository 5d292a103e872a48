//! Texts of marks, cut and changed. The reader must read each as the plain reader of this module does.
use crate::expected::{expect_eq, expect_so};
use comp_trace::{MarksFault, read_marks};
use std::alloc::{AllocError, Global};
use std::process::Abort;
use test_support::At;

const TEXT: &[u8] = b"0\n7\n64\n100\n4294967295\n";

// The marks of the text, or the number of the first line that is no mark. A last line without a line feed is no mark.
fn plain_marks(alloc: Global, text: &[u8]) -> Result<Result<Vec<u32>, u64>, AllocError> {
    let mut marks = Vec::new(alloc);
    let mut digits = 0u32;
    let mut value = 0u64;
    let mut leading = false;
    let mut well = true;
    let mut line = 1u64;
    for byte in text {
        if *byte == b'\n' {
            if !well || digits == 0 || (leading && digits > 1) || value > 4_294_967_295 {
                return Ok(Err(line));
            }
            marks.push((value % 4_294_967_296) as u32)?;
            line = line.wrapping_add(1);
            digits = 0;
            value = 0;
            leading = false;
        } else {
            well = well && byte.is_ascii_digit();
            leading = leading || (digits == 0 && *byte == b'0');
            digits = digits.saturating_add(1);
            let digit = u64::from(byte.wrapping_sub(b'0'));
            value = value.saturating_mul(10).saturating_add(digit);
        }
    }
    match digits {
        0 => Ok(Ok(marks)),
        _ => Ok(Err(line)),
    }
}

// Checks that both readers read the same.
fn expect_alike(rt: &impl Abort, alloc: Global, text: &[u8], number: u64) {
    let wanted = plain_marks(alloc, text).expect(rt, "memory for marks");
    let alike = match (read_marks(alloc, text), wanted) {
        (Ok(marks), Ok(numbers)) => marks.as_slice() == numbers.as_slice(),
        (Err(MarksFault::BadMarks(line)), Err(other)) => line == other,
        _ => false,
    };
    expect_so(
        rt,
        At {
            case: "marks",
            row: number,
        },
        alike,
    );
}

#[test]
fn cut_marks_are_read_as_the_plain_reader_does(rt: HostRuntime) {
    for end in 0..=TEXT.len() {
        if let Some(text) = TEXT.get(..end) {
            expect_alike(&rt, rt.alloc(), text, end as u64);
        }
    }
}

// What each byte is changed to.
const BYTES: &[u8] = b"\0\t\n\r +-/019:x\xff";

#[test]
fn changed_marks_are_read_as_the_plain_reader_does(rt: HostRuntime) {
    for at in 0..TEXT.len() {
        for byte in BYTES {
            let mut text = TEXT.to_vec(rt.alloc()).expect(&rt, "memory for a text");
            if let Some(place) = text.get_mut(at) {
                *place = *byte;
            }
            expect_alike(&rt, rt.alloc(), &text, at as u64);
        }
    }
}

// A text, and the number of its line that is no mark, or 0 if all are marks.
struct MarksText(&'static [u8], u64);

static TEXTS: [MarksText; 16] = [
    MarksText(b"", 0),
    MarksText(b"0\n", 0),
    MarksText(b"9\n0\n", 0),
    MarksText(b"4294967295\n", 0),
    MarksText(b"4294967296\n", 1),
    MarksText(b"18446744073709551616\n", 1),
    MarksText(b"340282366920938463463374607431768211456\n", 1),
    MarksText(b"00\n", 1),
    MarksText(b"02\n", 1),
    MarksText(b"\n", 1),
    MarksText(b"1\n\n", 2),
    MarksText(b"1\n2", 2),
    MarksText(b"1\r\n", 1),
    MarksText(b" 1\n", 1),
    MarksText(b"1 2\n", 1),
    MarksText(b"+1\n", 1),
];

#[test]
fn first_line_that_is_no_mark_is_named(rt: HostRuntime) {
    for (number, row) in TEXTS.iter().enumerate() {
        let line = match read_marks(rt.alloc(), row.0) {
            Ok(_marks) => 0,
            Err(MarksFault::BadMarks(line)) => line,
            Err(MarksFault::OutOfMemory) => u64::MAX,
        };
        expect_eq(&rt, At::new("line", number), line, row.1);
    }
}
