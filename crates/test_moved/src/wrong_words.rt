//! Words of objects that moved, of which one is another.
use crate::three_objects::{BACK, BACK_ROOTS, back_words, expect_back_fault, three};
use crate::verdicts::{expect_fault, expect_moves, judged};
use heap_layout::Edition;
use moved_heaps::MovedFault;
use test_support::At;

// Each word of an object is compared, and no other.
#[test]
fn wrong_words_are_refused(rt: HostRuntime) {
    let heap = three(&rt);
    let owners: [Option<(u64, u64)>; 11] = [
        Some((2, 0)),
        None,
        Some((1, 0)),
        Some((1, 1)),
        Some((1, 2)),
        Some((1, 3)),
        Some((1, 4)),
        None,
        Some((0, 0)),
        Some((0, 1)),
        None,
    ];
    for i in 0..11 {
        let mut words = back_words();
        words[i] ^= 1;
        let at = At::new("word", i);
        let verdict = judged(&rt, &heap, Edition::One, &BACK, &BACK_ROOTS, &words);
        match owners[i] {
            Some((k, offset)) => expect_fault(&rt, at, verdict, MovedFault::WrongWord(k, offset)),
            None => expect_moves(&rt, at, verdict, 3, 8),
        }
    }
    let fault = MovedFault::WrongWord(0, 0);
    expect_back_fault(&rt, At::new("all", 0), &BACK, &BACK_ROOTS, &[0; 11], fault);
}
