//! Why heaps are refused.
use crate::expected::expect_eq;
use heap_layout::{Edition, Header, LayoutFault};
use std::process::Abort;
use test_support::{At, F, T, judged, three_words, weak_words};

// The words of a heap.
#[derive(Clone, Copy)]
enum Words {
    // The three objects.
    Three,
    // The three objects. The last refers to the one that is not marked.
    Inner,
    // The header of an object with so many data words, and no word more.
    Alone(u16),
    // No word.
    None,
}

// The words, the marks and the roots of a heap, and its first fault, or `None` if it has none.
type JudgedHeap = (Words, &'static [u32], &'static [u64], Option<LayoutFault>);

static JUDGED: [JudgedHeap; 10] = [
    (Words::Three, &[0, 5], &[F + 5], None),
    (
        Words::Three,
        &[0, 5],
        &[F + 1],
        Some(LayoutFault::BadRoot(0)),
    ),
    (
        Words::Inner,
        &[0, 5],
        &[F + 5],
        Some(LayoutFault::UnmarkedTarget(6)),
    ),
    (
        Words::Three,
        &[0, 1],
        &[F + 5],
        Some(LayoutFault::MarkNotStart(1)),
    ),
    (
        Words::Three,
        &[0, 7],
        &[F + 5],
        Some(LayoutFault::MarkNotStart(7)),
    ),
    (
        Words::Three,
        &[5, 0],
        &[F + 5],
        Some(LayoutFault::MarksNotRising(0)),
    ),
    (
        Words::Three,
        &[5, 5],
        &[F + 5],
        Some(LayoutFault::MarksNotRising(5)),
    ),
    (
        Words::Alone(1_024),
        &[],
        &[],
        Some(LayoutFault::ObjectTooLong(0)),
    ),
    (
        Words::Alone(1),
        &[],
        &[],
        Some(LayoutFault::ObjectPastEnd(0)),
    ),
    (Words::None, &[], &[], None),
];

// The first fault of a heap, or `None`.
fn first_fault(
    rt: &(impl Abort + AllocGlobal),
    edition: Edition,
    words: &[u64],
    marks: &[u32],
    roots: &[u64],
) -> Option<LayoutFault> {
    judged(rt.alloc(), edition, words, marks, roots)
        .expect(rt, "memory for a heap")
        .err()
}

// The first fault of a heap of edition one with these words, or `None`.
fn fault_of(
    rt: &(impl Abort + AllocGlobal),
    words: Words,
    marks: &[u32],
    roots: &[u64],
) -> Option<LayoutFault> {
    let one = Edition::One;
    match words {
        Words::Three => first_fault(rt, one, &three_words(), marks, roots),
        Words::Inner => {
            let mut inner = three_words();
            inner[6] = F + 2;
            first_fault(rt, one, &inner, marks, roots)
        }
        Words::Alone(data_words) => {
            let header = Header::new(0, data_words, 0).word();
            first_fault(rt, one, &[header], marks, roots)
        }
        Words::None => first_fault(rt, one, &[], marks, roots),
    }
}

#[test]
fn a_heap_is_refused_for_its_first_fault(rt: HostRuntime) {
    for (row, (words, marks, roots, wanted)) in JUDGED.iter().enumerate() {
        let found = fault_of(&rt, *words, marks, roots);
        expect_eq(&rt, At::new("the first fault", row), found, *wanted);
    }
}

// The three objects of edition two with the words at these indices changed and with these marks: the first fault then,
// or `None`.
type ChangedWeak = (&'static [(usize, u64)], &'static [u32], Option<LayoutFault>);

// The first object and the last one.
const BOTH: &[u32] = &[0, 5];

// The last one alone.
const LAST: &[u32] = &[5];

static CHANGED: [ChangedWeak; 23] = [
    (&[], BOTH, None),
    // The first weak word: null, and each object, marked or not.
    (&[(1, 0)], BOTH, None),
    (&[(1, F)], BOTH, None),
    (&[(1, F + 4)], BOTH, None),
    (&[(1, F + 5)], BOTH, None),
    // Inside an object, after the last word, and at no address of from-space.
    (&[(1, F + 1)], BOTH, Some(LayoutFault::BadWeak(1))),
    (&[(1, F + 6)], BOTH, Some(LayoutFault::BadWeak(1))),
    (&[(1, F + 7)], BOTH, Some(LayoutFault::BadWeak(1))),
    (&[(1, F + 64)], BOTH, Some(LayoutFault::BadWeak(1))),
    (&[(1, 1)], BOTH, Some(LayoutFault::BadWeak(1))),
    (&[(1, F - 1)], BOTH, Some(LayoutFault::BadWeak(1))),
    (&[(1, F + 1_048_576)], BOTH, Some(LayoutFault::BadWeak(1))),
    (&[(1, T)], BOTH, Some(LayoutFault::BadWeak(1))),
    (&[(1, T + 4)], BOTH, Some(LayoutFault::BadWeak(1))),
    (&[(1, u64::MAX)], BOTH, Some(LayoutFault::BadWeak(1))),
    // The second weak word, and both.
    (&[(2, F + 2)], BOTH, Some(LayoutFault::BadWeak(2))),
    (
        &[(1, F + 3), (2, F + 2)],
        BOTH,
        Some(LayoutFault::BadWeak(1)),
    ),
    // A data word may be anything.
    (&[(3, F + 1)], BOTH, None),
    // References are checked before all weak words.
    (&[(6, F + 4)], BOTH, Some(LayoutFault::UnmarkedTarget(6))),
    (
        &[(1, F + 1), (6, F + 4)],
        BOTH,
        Some(LayoutFault::UnmarkedTarget(6)),
    ),
    // The weak words of an object that is not marked are not checked.
    (&[(6, F + 5), (1, F + 1)], LAST, None),
    (&[(6, F + 5), (1, 7), (2, u64::MAX)], LAST, None),
    (&[(1, F + 1)], LAST, Some(LayoutFault::UnmarkedTarget(6))),
];

// The three objects with these words changed.
fn changed(words: &[(usize, u64)]) -> [u64; 7] {
    let mut all = weak_words();
    for (at, word) in words {
        if let Some(place) = all.get_mut(*at) {
            *place = *word;
        }
    }
    all
}

// Checks the first fault of each of these heaps.
fn expect_changed(rt: &(impl Abort + AllocGlobal), rows: &[ChangedWeak]) {
    for (row, (words, marks, wanted)) in rows.iter().enumerate() {
        let found = first_fault(rt, Edition::Two, &changed(words), marks, &[F + 5]);
        expect_eq(
            rt,
            At::new("the first fault beside weak words", row),
            found,
            *wanted,
        );
    }
}

#[test]
fn a_heap_with_weak_words_is_refused_for_its_first_fault(rt: HostRuntime) {
    expect_changed(&rt, &CHANGED);
}

// The numbers of references, weak words and data words, and the tag, of a header.
type Counts = (u16, u16, u16, u16);

// The three objects of edition two with another header at this index, and perhaps with the last word changed: the first
// fault then, or `None`.
type ChangedHeader = (usize, Counts, Option<u64>, Option<LayoutFault>);

static HEADERS: [ChangedHeader; 6] = [
    // The last object has a weak word in place of its reference, or beside it. The first has two references in place of
    // its weak words.
    (5, (0, 1, 0, 3), Some(F + 4), None),
    (5, (0, 1, 0, 3), Some(F + 3), Some(LayoutFault::BadWeak(6))),
    (5, (1, 1, 0, 3), None, Some(LayoutFault::ObjectPastEnd(5))),
    (0, (2, 0, 1, 1), None, Some(LayoutFault::UnmarkedTarget(1))),
    // The object is one word shorter, so that its data word becomes a header.
    (0, (0, 2, 0, 1), None, Some(LayoutFault::ObjectPastEnd(3))),
    // 512 weak words and 512 data words.
    (
        0,
        (0, 512, 512, 0),
        None,
        Some(LayoutFault::ObjectTooLong(0)),
    ),
];

// The three objects with this header and this last word.
fn with_header(at: usize, counts: Counts, last: Option<u64>) -> [u64; 7] {
    let (refs, weak, data, tag) = counts;
    let mut all = changed(&[(at, Header::new_weak(refs, weak, data, tag).word())]);
    all[6] = last.unwrap_or(all[6]);
    all
}

#[test]
fn a_heap_with_another_header_is_refused_for_its_first_fault(rt: HostRuntime) {
    for (row, (index, counts, last, wanted)) in HEADERS.iter().enumerate() {
        let words = with_header(*index, *counts, *last);
        let found = first_fault(&rt, Edition::Two, &words, BOTH, &[F + 5]);
        expect_eq(
            &rt,
            At::new("the first fault by a header", row),
            found,
            *wanted,
        );
    }
}

// A list of `count` zeros.
fn zeros(rt: &(impl Abort + AllocGlobal), count: usize) -> Vec<u64> {
    vec![in rt.alloc(); 0u64; count].expect(rt, "memory for zeros")
}

// The first fault of a heap of `words` empty objects, none of them marked, and `roots` null roots.
fn fault_of_many(
    rt: &(impl Abort + AllocGlobal),
    edition: Edition,
    words: usize,
    roots: usize,
) -> Option<LayoutFault> {
    first_fault(rt, edition, &zeros(rt, words), &[], &zeros(rt, roots))
}

// The most words and roots, and one more of each.
static MANY: [(usize, usize, Option<LayoutFault>); 3] = [
    (1_048_576, 4_096, None),
    (1_048_577, 0, Some(LayoutFault::TooLarge)),
    (0, 4_097, Some(LayoutFault::TooLarge)),
];

#[test]
fn a_heap_with_more_words_or_roots_than_the_most_is_refused(rt: HostRuntime) {
    for (row, (words, roots, wanted)) in MANY.iter().enumerate() {
        let at = At::new("too large", row);
        let found = fault_of_many(&rt, Edition::One, *words, *roots);
        let weak = fault_of_many(&rt, Edition::Two, *words, *roots);
        expect_eq(&rt, at, found, *wanted);
        expect_eq(&rt, at, weak, *wanted);
    }
}

static TEXTS: [(LayoutFault, &str); 13] = [
    (LayoutFault::TooLarge, "H1 TooLarge"),
    (LayoutFault::ObjectPastEnd(0), "H2 ObjectPastEnd(0)"),
    (LayoutFault::ObjectTooLong(1), "H3 ObjectTooLong(1)"),
    (LayoutFault::MarkNotStart(2), "H4 MarkNotStart(2)"),
    (LayoutFault::MarksNotRising(3), "H5 MarksNotRising(3)"),
    (LayoutFault::BadRoot(4), "H6 BadRoot(4)"),
    (LayoutFault::UnmarkedTarget(5), "H7 UnmarkedTarget(5)"),
    (LayoutFault::Truncated, "H8 Truncated"),
    (LayoutFault::TrailingBytes, "H9 TrailingBytes"),
    (LayoutFault::BadMagic, "H10 BadMagic"),
    (LayoutFault::OutOfMemory, "H11 OutOfMemory"),
    (LayoutFault::Device, "H12 Device"),
    (LayoutFault::BadWeak(6), "H13 BadWeak(6)"),
];

#[test]
fn layout_faults_are_printed_with_number_and_name(rt: HostRuntime) {
    for (row, (fault, wanted)) in TEXTS.iter().enumerate() {
        let at = At::new("printed faults", row);
        let text = fault.to_string(rt.alloc()).expect(&rt, "memory for a text");
        expect_eq(&rt, at, text.as_str(), *wanted);
    }
}
