//! Bits that the caller set.
use heap_layout::{Edition, FROM_SPACE as F};
use std::process::Abort;
use stopped_heap::{BitsFault, Places};

#[test]
fn bits_that_are_no_runs_are_refused(rt: HostRuntime) {
    let cases = [
        (0b1001u64, 0b111111u64, None),
        (0b10001, 0b110111, None),
        (0b1001, 0b110110, Some(BitsFault::NotARun(0))),
        (0b1000, 0b111111, Some(BitsFault::NotARun(0))),
        (0b1001, 0b1001 << 20 | 0b1001, Some(BitsFault::NotARun(20))),
        (
            0b1001 | 1 << 11,
            0b111111 | 3 << 11,
            Some(BitsFault::PastEnd(12)),
        ),
        (0b1000, 0b111000, Some(BitsFault::BadRoot(0))),
    ];
    for (heads, bits, wanted) in cases {
        match Places::of_bits(rt.alloc(), Edition::Four, 12, &[F], &[heads], &[bits]) {
            Ok(_) => assert!(&rt; wanted.is_none()),
            Err(BitsFault::OutOfMemory) => {}
            Err(fault) => assert_eq!(&rt; Some(fault), wanted),
        }
    }
    let refused = Places::of_bits(rt.alloc(), Edition::One, 0, &[], &[], &[]);
    assert!(&rt; matches!(refused, Err(BitsFault::ShortObjects)));
}
