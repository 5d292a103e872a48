//! Texts of traces: refused texts, the lines of the others, and the printed faults.
use crate::expected::expect_eq;
use comp_mutator::Refusal;
use comp_trace::{Action, Line, RefusedLine, TraceFault, parse};
use heap_layout::TO_SPACE as T;
use std::alloc::Global;
use std::process::Abort;
use test_support::At;

// A refused text and its fault.
struct RefusedText(&'static [u8], TraceFault);

// Lines that are no lines, and numbers out of range, for two mutators and one root.
static REFUSED: [RefusedText; 54] = [
    // Two spaces.
    RefusedText(b"0  nil 0\n", TraceFault::BadLine(1)),
    // No end of the line.
    RefusedText(b"0 nil 0", TraceFault::BadLine(1)),
    // An empty line.
    RefusedText(b"\n", TraceFault::BadLine(1)),
    // A zero in front.
    RefusedText(b"00 nil 0\n", TraceFault::BadLine(1)),
    // A carriage return.
    RefusedText(b"0 nil 0\r\n", TraceFault::BadLine(1)),
    // A byte past 127.
    RefusedText(b"0 nil \x80\n", TraceFault::BadLine(1)),
    // A space in front.
    RefusedText(b" 0 nil 0\n", TraceFault::BadLine(1)),
    // A space at the end.
    RefusedText(b"0 nil 0 \n", TraceFault::BadLine(1)),
    // A number too few.
    RefusedText(b"0 nil\n", TraceFault::BadLine(1)),
    // A number too many.
    RefusedText(b"0 nil 0 0\n", TraceFault::BadLine(1)),
    // A capital letter.
    RefusedText(b"0 Nil 0\n", TraceFault::BadLine(1)),
    // A sign.
    RefusedText(b"0 get 0 -1\n", TraceFault::BadLine(1)),
    // No mutator.
    RefusedText(b"nil 0\n", TraceFault::BadLine(1)),
    // An empty second line.
    RefusedText(b"0 nil 0\n\n", TraceFault::BadLine(2)),
    // Mutator 2.
    RefusedText(b"2 nil 0\n", TraceFault::NoSuchMutator(1)),
    // Mutator 2, and register 16.
    RefusedText(b"2 nil 16\n", TraceFault::NoSuchMutator(1)),
    // Register 16.
    RefusedText(b"0 nil 16\n", TraceFault::NoSuchRegister(1)),
    // Register 16, and root 9.
    RefusedText(b"0 root 16 9\n", TraceFault::NoSuchRegister(1)),
    // A field of 17 bits, and then register 16.
    RefusedText(b"0 store 0 65536 16\n", TraceFault::NoSuchRegister(1)),
    // Register 16, and a value of 67 bits.
    RefusedText(
        b"0 put 16 0 99999999999999999999\n",
        TraceFault::NoSuchRegister(1),
    ),
    // A value of 65 bits.
    RefusedText(
        b"0 put 0 0 18446744073709551616\n",
        TraceFault::NumberTooLarge(1),
    ),
    // A count of 17 bits.
    RefusedText(b"0 new 0 65536 0 0\n", TraceFault::NumberTooLarge(1)),
    // A tag of 33 bits.
    RefusedText(b"0 new 0 0 0 4294967296\n", TraceFault::NumberTooLarge(1)),
    // Root 1.
    RefusedText(b"0 root 0 1\n", TraceFault::NoSuchRoot(1)),
    // A root of 67 bits.
    RefusedText(
        b"0 root 0 99999999999999999999\n",
        TraceFault::NoSuchRoot(1),
    ),
    // Register 16 in line 2, and mutator 5 in line 3.
    RefusedText(
        b"0 nil 0\n1 nil 16\n5 nil 0\n",
        TraceFault::NoSuchRegister(2),
    ),
    // Weak words: a number too few and one too many, a capital letter, and no such form.
    RefusedText(b"0 wload 0 0\n", TraceFault::BadLine(1)),
    RefusedText(b"0 wstore 0 0 0 0\n", TraceFault::BadLine(1)),
    RefusedText(b"0 wnew 0 0 0 0\n", TraceFault::BadLine(1)),
    RefusedText(b"0 wnew 0 0 0 0 0 0\n", TraceFault::BadLine(1)),
    RefusedText(b"0 new 0 0 0 0 0\n", TraceFault::BadLine(1)),
    RefusedText(b"0 Wload 0 0 0\n", TraceFault::BadLine(1)),
    RefusedText(b"0 wget 0 0\n", TraceFault::BadLine(1)),
    RefusedText(b"0 wput 0 0 0\n", TraceFault::BadLine(1)),
    RefusedText(b"0 wnew 0 00 0 0 0\n", TraceFault::BadLine(1)),
    // Mutator 2, and then register 16.
    RefusedText(b"2 wnew 16 0 0 0 0\n", TraceFault::NoSuchMutator(1)),
    // Register 16, and numbers past their bounds.
    RefusedText(b"0 wload 0 16 65536\n", TraceFault::NoSuchRegister(1)),
    RefusedText(b"0 wload 16 0 65536\n", TraceFault::NoSuchRegister(1)),
    RefusedText(b"0 wstore 0 65536 16\n", TraceFault::NoSuchRegister(1)),
    RefusedText(b"0 wstore 16 65536 0\n", TraceFault::NoSuchRegister(1)),
    RefusedText(
        b"0 wnew 16 65536 65536 65536 4294967296\n",
        TraceFault::NoSuchRegister(1),
    ),
    // A field and counts of 17 bits, and a tag of 33 bits.
    RefusedText(b"0 wload 0 0 65536\n", TraceFault::NumberTooLarge(1)),
    RefusedText(b"0 wstore 0 65536 0\n", TraceFault::NumberTooLarge(1)),
    RefusedText(b"0 wnew 0 65536 0 0 0\n", TraceFault::NumberTooLarge(1)),
    RefusedText(b"0 wnew 0 0 65536 0 0\n", TraceFault::NumberTooLarge(1)),
    RefusedText(b"0 wnew 0 0 0 65536 0\n", TraceFault::NumberTooLarge(1)),
    RefusedText(
        b"0 wnew 0 0 0 0 4294967296\n",
        TraceFault::NumberTooLarge(1),
    ),
    // Immediates: a number too few and one too many, no such form, register 16, and payloads of 64 and of 65 bits.
    RefusedText(b"0 imm 0\n", TraceFault::BadLine(1)),
    RefusedText(b"0 imm 0 0 0\n", TraceFault::BadLine(1)),
    RefusedText(b"0 wimm 0 0\n", TraceFault::BadLine(1)),
    RefusedText(
        b"0 imm 16 9223372036854775808\n",
        TraceFault::NoSuchRegister(1),
    ),
    RefusedText(
        b"0 imm 0 9223372036854775808\n",
        TraceFault::NumberTooLarge(1),
    ),
    RefusedText(
        b"0 imm 0 18446744073709551616\n",
        TraceFault::NumberTooLarge(1),
    ),
    // A mutator of 129 bits.
    RefusedText(
        b"340282366920938463463374607431768211456 nil 0\n",
        TraceFault::NoSuchMutator(1),
    ),
];

const EACH_KIND: &[u8] =
    b"1 root 15 0\n0 load 1 2 65535\n0 get 3 0\n1 store 4 5 6\n0 put 7 8 18446744073709551615\n0 new 9 1 2 4294967295\n1 nil 10\n0 wload 1 2 65535\n1 wstore 4 5 6\n0 wnew 9 65535 65535 65535 4294967295\n1 wnew 15 1 0 2 3\n0 imm 15 9223372036854775807\n";

// The line of each kind.
const LINES: [Line; 12] = [
    Line {
        mutator: 1,
        action: Action::Root { to: 15, root: 0 },
    },
    Line {
        mutator: 0,
        action: Action::Load {
            weak: false,
            to: 1,
            object: 2,
            field: 65_535,
        },
    },
    Line {
        mutator: 0,
        action: Action::Get {
            object: 3,
            field: 0,
        },
    },
    Line {
        mutator: 1,
        action: Action::Store {
            weak: false,
            object: 4,
            field: 5,
            value: 6,
        },
    },
    Line {
        mutator: 0,
        action: Action::Put {
            object: 7,
            field: 8,
            value: 18_446_744_073_709_551_615,
        },
    },
    Line {
        mutator: 0,
        action: Action::New {
            to: 9,
            refs: 1,
            weak: 0,
            data_words: 2,
            tag: 4_294_967_295,
        },
    },
    Line {
        mutator: 1,
        action: Action::Nil { to: 10 },
    },
    Line {
        mutator: 0,
        action: Action::Load {
            weak: true,
            to: 1,
            object: 2,
            field: 65_535,
        },
    },
    Line {
        mutator: 1,
        action: Action::Store {
            weak: true,
            object: 4,
            field: 5,
            value: 6,
        },
    },
    Line {
        mutator: 0,
        action: Action::New {
            to: 9,
            refs: 65_535,
            weak: 65_535,
            data_words: 65_535,
            tag: 4_294_967_295,
        },
    },
    Line {
        mutator: 1,
        action: Action::New {
            to: 15,
            refs: 1,
            weak: 0,
            data_words: 2,
            tag: 3,
        },
    },
    Line {
        mutator: 0,
        action: Action::Immediate {
            to: 15,
            payload: 9_223_372_036_854_775_807,
        },
    },
];

// Faults and their printed texts.
static PRINTED: [(TraceFault, &str); 9] = [
    (TraceFault::BadLine(1), "T1 BadLine(1)"),
    (TraceFault::NoSuchMutator(2), "T2 NoSuchMutator(2)"),
    (TraceFault::NoSuchRegister(1), "T3 NoSuchRegister(1)"),
    (TraceFault::NumberTooLarge(4), "T4 NumberTooLarge(4)"),
    (TraceFault::NoSuchRoot(1), "T5 NoSuchRoot(1)"),
    (
        TraceFault::Refused(2, Refusal::Null),
        "T6 Refused(2, M1 Null)",
    ),
    (
        TraceFault::Refused(1, Refusal::ObjectTooLarge),
        "T6 Refused(1, M4 ObjectTooLarge)",
    ),
    (
        TraceFault::Refused(3, Refusal::NotInEdition),
        "T6 Refused(3, M11 NotInEdition)",
    ),
    (TraceFault::OutOfMemory, "T7 OutOfMemory"),
];

// Checks that the text is refused with this fault for two mutators and one root.
fn expect_none(rt: &impl Abort, alloc: Global, text: &[u8], fault: TraceFault, number: usize) {
    let found = parse(alloc, text, 2, 1).err();
    expect_eq(rt, At::new("no text", number), found, Some(fault));
}

// Checks that a number of any length is read.
fn expect_long_number(rt: &impl Abort, alloc: Global) {
    let mut text = b"0 get 0 ".to_vec(alloc).expect(rt, "a text");
    text.resize(100_008, b'9').expect(rt, "a long text");
    text.push(b'\n').expect(rt, "a line");
    expect_none(rt, alloc, &text, TraceFault::NumberTooLarge(1), 100_000);
}

/// Checks that the text of this name has these lines for `mutators` mutators and `roots` roots.
pub fn expect_lines(
    rt: &impl Abort,
    alloc: Global,
    name: &str,
    text: &[u8],
    mutators: u8,
    roots: u32,
    lines: &[Line],
) {
    let trace = parse(alloc, text, mutators, roots).expect(rt, name);
    expect_eq(rt, At::new(name, 0), trace.lines(), lines);
}

// Checks the printed text of a fault.
fn expect_printed(rt: &impl Abort, alloc: Global, fault: TraceFault, text: &str) {
    let printed = fault.to_string(alloc).expect(rt, text);
    expect_eq(rt, At::new(text, 0), printed.as_str(), text);
}

// Checks that each of the refused texts has its fault.
fn expect_refused(rt: &impl Abort, alloc: Global) {
    for (at, RefusedText(text, fault)) in REFUSED.iter().enumerate() {
        expect_none(rt, alloc, text, *fault, at);
    }
}

#[test]
fn a_text_that_is_no_trace_is_refused_for_its_first_fault(rt: HostRuntime) {
    expect_refused(&rt, rt.alloc());
}

#[test]
fn a_number_of_100_000_digits_is_too_large(rt: HostRuntime) {
    expect_long_number(&rt, rt.alloc());
}

#[test]
fn a_text_is_read_as_its_lines(rt: HostRuntime) {
    let alloc = rt.alloc();
    expect_lines(&rt, alloc, "no line", b"", 2, 1, &[]);
    expect_lines(&rt, alloc, "each kind", EACH_KIND, 2, 1, &LINES);
}

// All faults, and one that a stop becomes.
fn expect_faults(rt: &impl Abort, alloc: Global) {
    for (fault, text) in &PRINTED {
        expect_printed(rt, alloc, *fault, text);
    }
    let stop = RefusedLine {
        line: 7,
        refusal: Refusal::NotAStart(T + 1),
    };
    let text = "T6 Refused(7, M2 NotAStart(8589934593))";
    expect_printed(rt, alloc, TraceFault::from(stop), text);
}

#[test]
fn trace_faults_are_printed_with_number_and_name(rt: HostRuntime) {
    expect_faults(&rt, rt.alloc());
}
