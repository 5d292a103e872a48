//! An immediate is a word with its top bit set. The heap that most tests use, at from-space 0:
//!
//!     0  h(2,1,1)  I    F    J  F    two references, a weak word, a data word: immediate, itself, immediate, data
//!     5  h(1,1,0)  F+8  F+5          not marked
//!     8  h(3,1,0)  0    B   F  F+5   marked: null, an immediate whose low bits look like the address F, the first
//!                                    object; a weak word for the object that is not marked
use heap_layout::{
    Counted, Edition, FIRST_IMMEDIATE as I, FROM_SPACE as F, Header, Kind, LayoutFault, MarkedHeap,
    PageWords, TO_SPACE as T, read_image, read_large_image, write_image,
};
use page_plan::Plan;
use reachability::{reachable_heap, reachable_marks};
use std::process::Abort;

// The largest immediate, and one whose low bits look like the address of the first object.
pub const J: u64 = u64::MAX;

pub const B: u64 = 9_223_372_041_149_743_104;

// The header words of the three objects, tags 1 to 3, worked by hand: r + 2^16 d + 2^32 s + 2^48 t.
pub const FIRST: u64 = 281_479_271_743_490;

const SECOND: u64 = 562_954_248_388_609;

pub const THIRD: u64 = 844_429_225_099_267;

pub const WORDS: [u64; 13] = [
    FIRST,
    I,
    F,
    J,
    F,
    SECOND,
    F + 8,
    F + 5,
    THIRD,
    0,
    B,
    F,
    F + 5,
];

pub const MARKS: [u32; 2] = [0, 8];

pub const ROOTS: [u64; 6] = [F + 8, I, B, 0, J, F];

// The same objects with immediates alone as references and weak words.
const ALONE: [u64; 13] = [FIRST, I, J, B, F, SECOND, I + T, J, THIRD, J, B, I, I + 1];

// The same objects with immediates whose low bits are addresses of the heap: of the third object, of a word inside the
// first one, and of the object that is not marked. The slid words have them as they were.
const LOW: [u64; 13] = [
    FIRST,
    I + F + 8,
    F,
    I + F + 1,
    F,
    SECOND,
    F + 8,
    F + 5,
    THIRD,
    0,
    I + F + 5,
    F,
    I + F + 8,
];

const LOW_SLID: [u64; 10] = [
    FIRST,
    I + F + 8,
    T,
    I + F + 1,
    F,
    THIRD,
    0,
    I + F + 5,
    T,
    I + F + 8,
];

// The slid words: the second object goes, the weak word that led to it is null, and immediates stay.
const SLID: [u64; 10] = [FIRST, I, T, J, F, THIRD, 0, B, T, 0];

pub fn made(
    rt: &(impl Abort + AllocGlobal),
    edition: Edition,
    words: &[u64],
    marks: &[u32],
    roots: &[u64],
) -> Result<MarkedHeap, LayoutFault> {
    let words = Vec::from_slice(rt.alloc(), words).expect(rt, "words");
    let marks = Vec::from_slice(rt.alloc(), marks).expect(rt, "marks");
    let roots = Vec::from_slice(rt.alloc(), roots).expect(rt, "roots");
    MarkedHeap::from_parts_of(edition, words, marks, roots)
}

fn expect_fault(
    rt: &(impl Abort + AllocGlobal),
    edition: Edition,
    words: &[u64],
    roots: &[u64],
    fault: LayoutFault,
) {
    assert_eq!(rt; made(rt, edition, words, &MARKS, roots).err(), Some(fault));
}

// The words, with one of them changed.
fn changed(at: usize, word: u64) -> [u64; 13] {
    let mut words = WORDS;
    if at < 13 {
        words[at] = word;
    }
    words
}

#[test]
fn a_word_with_its_top_bit_set_is_an_immediate_of_edition_four_alone(rt: HostRuntime) {
    assert_eq!(&rt; I, 9_223_372_036_854_775_808);
    assert_eq!(&rt; B, I + F);
    for word in [I, B, J] {
        assert!(&rt; Edition::Four.is_immediate(word));
        assert!(&rt; Edition::Four.leads_nowhere(word));
        assert!(&rt; !Edition::Three.is_immediate(word));
        assert!(&rt; !Edition::Three.leads_nowhere(word));
        assert!(&rt; !Edition::Two.is_immediate(word));
        assert!(&rt; !Edition::One.is_immediate(word));
    }
    for word in [0, 1, F, T, I - 1] {
        assert!(&rt; !Edition::Four.is_immediate(word));
    }
    assert!(&rt; Edition::Four.leads_nowhere(0));
    assert!(&rt; Edition::One.leads_nowhere(0));
    assert!(&rt; !Edition::Four.leads_nowhere(I - 1));
}

#[test]
fn headers_of_edition_four_are_those_of_edition_three(rt: HostRuntime) {
    let four = Header::of_counts(Edition::Four, 2, 1, 1, 1).expect(&rt, "a header");
    assert_eq!(&rt; four.word(), FIRST);
    assert_eq!(&rt; four.refs(), 2);
    assert_eq!(&rt; four.weak(), 1);
    assert_eq!(&rt; four.data_words(), 1);
    assert_eq!(&rt; four.tag(), 1);
    assert_eq!(&rt; four.count(Kind::Reference), 2);
    assert!(&rt; Header::of_counts(Edition::Four, 0, 0, 0, 16_384).is_none());
    let long = Header::of_large_counts(70_000, 0, 1, 5).expect(&rt, "a long header");
    let read = Header::from_word_of(Edition::Four, long.word());
    assert_eq!(&rt; read.refs(), 70_000);
    assert_eq!(&rt; read.data_words(), 1);
    assert_eq!(&rt; read.size(), 70_002);
    assert_eq!(&rt; read.tag(), 5);
}

#[test]
fn roots_references_and_weak_words_may_be_immediates(rt: HostRuntime) {
    let heap = made(&rt, Edition::Four, &WORDS, &MARKS, &ROOTS).expect(&rt, "a heap");
    assert_eq!(&rt; heap.edition(), Edition::Four);
    assert_eq!(&rt; heap.roots(), ROOTS.as_slice());
}

#[test]
fn the_other_editions_have_no_immediates(rt: HostRuntime) {
    let fault = LayoutFault::BadRoot(1);
    expect_fault(&rt, Edition::Three, &WORDS, &ROOTS, fault);
    let fault = LayoutFault::UnmarkedTarget(1);
    expect_fault(&rt, Edition::Three, &WORDS, &[F], fault);
    let fault = LayoutFault::UnmarkedTarget(10);
    expect_fault(&rt, Edition::Three, &changed(1, 0), &[F], fault);
    let mut words = changed(1, 0);
    words[10] = 0;
    expect_fault(&rt, Edition::Three, &words, &[F], LayoutFault::BadWeak(3));
}

#[test]
fn the_word_below_the_immediates_is_a_fault(rt: HostRuntime) {
    expect_fault(
        &rt,
        Edition::Four,
        &WORDS,
        &[0, I, I - 1],
        LayoutFault::BadRoot(2),
    );
    let fault = LayoutFault::UnmarkedTarget(1);
    expect_fault(&rt, Edition::Four, &changed(1, I - 1), &ROOTS, fault);
    let fault = LayoutFault::BadWeak(3);
    expect_fault(&rt, Edition::Four, &changed(3, I - 1), &ROOTS, fault);
    made(&rt, Edition::Four, &changed(4, I - 1), &MARKS, &ROOTS).expect(&rt, "data");
}

#[test]
fn a_word_that_is_no_immediate_must_lead_to_an_object(rt: HostRuntime) {
    let fault = LayoutFault::UnmarkedTarget(2);
    expect_fault(&rt, Edition::Four, &changed(2, F + 1), &ROOTS, fault);
    expect_fault(&rt, Edition::Four, &changed(2, F + 5), &ROOTS, fault);
    expect_fault(&rt, Edition::Four, &changed(2, 1), &ROOTS, fault);
    expect_fault(
        &rt,
        Edition::Four,
        &WORDS,
        &[F + 5],
        LayoutFault::BadRoot(0),
    );
    let fault = LayoutFault::BadWeak(12);
    expect_fault(&rt, Edition::Four, &changed(12, F + 6), &ROOTS, fault);
}

#[test]
fn images_of_edition_four_have_version_four(rt: HostRuntime) {
    let heap = made(&rt, Edition::Four, &WORDS, &MARKS, &ROOTS).expect(&rt, "a heap");
    let mut bytes = Vec::new(rt.alloc());
    let mut writer = Counted::new(&mut bytes);
    write_image(&heap, &mut writer).expect(&rt, "written");
    let Counted { .. } = writer;
    assert_eq!(&rt; bytes.len(), 24 + 8 * 13 + 4 * 2 + 8 * 6);
    assert_eq!(&rt;
        bytes[8..12]
            .to_vec(rt.alloc())
            .expect(&rt, "memory")
            .as_slice(),
        [4, 0, 0, 0].as_slice()
    );
}

#[test]
fn immediates_reach_nothing(rt: HostRuntime) {
    let four = Edition::Four;
    let roots = [I, J, B];
    let marks = reachable_marks(rt.alloc(), four, &WORDS, &roots).expect(&rt, "marks");
    assert_eq!(&rt; marks.len(), 0);
    let marks = reachable_marks(rt.alloc(), four, &WORDS, &[B, F + 8]).expect(&rt, "marks");
    assert_eq!(&rt; marks.as_slice(), MARKS.as_slice());
    let marks = reachable_marks(rt.alloc(), four, &WORDS, &[F]).expect(&rt, "marks");
    assert_eq!(&rt; marks.as_slice(), [0].as_slice());
    let words = Vec::from_slice(rt.alloc(), &WORDS).expect(&rt, "words");
    let roots = Vec::from_slice(rt.alloc(), &ROOTS).expect(&rt, "roots");
    let heap = reachable_heap(rt.alloc(), four, words, roots).expect(&rt, "a heap");
    assert_eq!(&rt; heap.marks(), MARKS.as_slice());
}

#[test]
fn immediates_stay_as_they_slide(rt: HostRuntime) {
    let heap = made(&rt, Edition::Four, &WORDS, &MARKS, &ROOTS).expect(&rt, "a heap");
    let plan = Plan::new_alone(rt.alloc(), heap).ok().expect(&rt, "a plan");
    assert_eq!(&rt; plan.live_words(), 10);
    assert_eq!(&rt; plan.pages(), 1);
    assert_eq!(&rt; plan.forward(I), None);
    assert_eq!(&rt; plan.forward_value(I), Some(I));
    assert_eq!(&rt; plan.forward_value(B), Some(B));
    assert_eq!(&rt; plan.forward_value(J), Some(J));
    assert_eq!(&rt; plan.forward_value(I - 1), None);
    assert_eq!(&rt; plan.forward_value(0), Some(0));
    assert_eq!(&rt; plan.forward_value(F + 8), Some(T + 5));
    assert_eq!(&rt; plan.forward_value(F + 5), None);
    let roots = plan.forward_roots(rt.alloc()).expect(&rt, "roots");
    assert_eq!(&rt; roots.as_slice(), [T + 5, I, B, 0, J, T].as_slice());
    if plan.pages() == 1 {
        let page = plan.build_page(rt.alloc(), 0).expect(&rt, "a page");
        expect_slid(&rt, &page, &SLID);
    }
}

// Zeros follow the slid words.
fn expect_slid(rt: &impl Abort, page: &PageWords, slid: &[u64]) {
    let words = page.as_array();
    for offset in 0..64usize {
        let wanted = slid.get(offset).copied().unwrap_or(0);
        assert_eq!(rt; words[offset], wanted);
    }
}

// All three objects are marked, though nothing leads to them, and slide as they are.
#[test]
fn fields_and_roots_may_be_immediates_alone(rt: HostRuntime) {
    let roots = [J, I, B];
    let marks = reachable_marks(rt.alloc(), Edition::Four, &ALONE, &roots).expect(&rt, "marks");
    assert_eq!(&rt; marks.len(), 0);
    let heap = made(&rt, Edition::Four, &ALONE, &[0, 5, 8], &roots).expect(&rt, "a heap");
    let plan = Plan::new_alone(rt.alloc(), heap).ok().expect(&rt, "a plan");
    assert_eq!(&rt; plan.live_words(), 13);
    let forwarded = plan.forward_roots(rt.alloc()).expect(&rt, "roots");
    assert_eq!(&rt; forwarded.as_slice(), roots.as_slice());
    if plan.pages() == 1 {
        let page = plan.build_page(rt.alloc(), 0).expect(&rt, "a page");
        expect_slid(&rt, &page, &ALONE);
    }
}

#[test]
fn the_low_bits_of_an_immediate_lead_nowhere(rt: HostRuntime) {
    let roots = [I + F, F, I + F + 5, F + 8];
    let marks = reachable_marks(rt.alloc(), Edition::Four, &LOW, &roots).expect(&rt, "marks");
    assert_eq!(&rt; marks.as_slice(), MARKS.as_slice());
    let marks = reachable_marks(rt.alloc(), Edition::Four, &LOW, &[F]).expect(&rt, "marks");
    assert_eq!(&rt; marks.as_slice(), [0].as_slice());
    let heap = made(&rt, Edition::Four, &LOW, &MARKS, &roots).expect(&rt, "a heap");
    let plan = Plan::new_alone(rt.alloc(), heap).ok().expect(&rt, "a plan");
    assert_eq!(&rt; plan.live_words(), 10);
    let forwarded = plan.forward_roots(rt.alloc()).expect(&rt, "roots");
    assert_eq!(&rt;
        forwarded.as_slice(),
        [I + F, T, I + F + 5, T + 5].as_slice()
    );
    if plan.pages() == 1 {
        let page = plan.build_page(rt.alloc(), 0).expect(&rt, "a page");
        expect_slid(&rt, &page, &LOW_SLID);
    }
}

// The heap of what these roots reach is refused with this fault, if there is one.
fn expect_reachable(
    rt: &(impl Abort + AllocGlobal),
    words: &[u64],
    roots: &[u64],
    fault: Option<LayoutFault>,
) {
    let words = Vec::from_slice(rt.alloc(), words).expect(rt, "words");
    let roots = Vec::from_slice(rt.alloc(), roots).expect(rt, "roots");
    let heap = reachable_heap(rt.alloc(), Edition::Four, words, roots);
    assert_eq!(rt; heap.err(), fault);
}

// What no root reaches may be anything.
#[test]
fn the_word_below_the_immediates_is_a_fault_of_what_is_reached(rt: HostRuntime) {
    let roots = [J, F];
    let fault = LayoutFault::BadRoot(2);
    expect_reachable(&rt, &WORDS, &[J, F, I - 1], Some(fault));
    let fault = LayoutFault::UnmarkedTarget(1);
    expect_reachable(&rt, &changed(1, I - 1), &roots, Some(fault));
    let fault = LayoutFault::BadWeak(3);
    expect_reachable(&rt, &changed(3, I - 1), &roots, Some(fault));
    for at in [4, 6, 7, 10, 12] {
        expect_reachable(&rt, &changed(at, I - 1), &roots, None);
    }
}

#[test]
fn edition_three_forwards_no_immediate(rt: HostRuntime) {
    let heap = made(&rt, Edition::Three, &[0], &[0], &[F]).expect(&rt, "a heap");
    let plan = Plan::new_alone(rt.alloc(), heap).ok().expect(&rt, "a plan");
    assert_eq!(&rt; plan.forward_value(I), None);
    assert_eq!(&rt; plan.forward_value(F), Some(T));
}

#[test]
fn small_images_have_no_edition_four(rt: HostRuntime) {
    let bytes = [
        67u8, 79, 77, 80, 72, 69, 65, 80, 4, 0, 0, 0, 1, 0, 0, 0, 1, 0, 0, 0, 1, 0, 0, 0, 0, 0, 0,
        0, 0, 0, 0, 0, 0, 0, 0, 0, 0, 0, 0, 0, 0, 0, 0, 128,
    ];
    let mut reader = Counted::new(&bytes[..]);
    assert_eq!(&rt;
        read_image(rt.alloc(), &mut reader).err(),
        Some(LayoutFault::BadMagic)
    );
    let mut reader = Counted::new(&bytes[..]);
    let heap = read_large_image(rt.alloc(), &mut reader).expect(&rt, "a heap");
    assert_eq!(&rt; heap.edition(), Edition::Four);
    assert_eq!(&rt; heap.roots(), [I].as_slice());
}
