//! Lanes that are joined, and what the whole of them is.
use crate::small_heaps::row;
use heap_layout::{Edition, FROM_SPACE as F};
use std::process::Abort;
use std::thread::{Threads, join};
use stopped_heap::{JoinFault, Lane, Missing};

// A lane that met nothing.
fn begin(rt: &impl AllocGlobal) -> Option<Lane> {
    Lane::begin(rt.alloc(), Edition::Four, 12).ok()
}

// The row of the object at this index.
fn row_of(words: &[u64; 12], i: u64) -> &[u64] {
    match i {
        0 => &words[..3],
        3 => &words[3..5],
        6 => &words[6..7],
        8 => &words[8..10],
        _ => &words[10..11],
    }
}

// Meets these values, and looks at what waits until nothing waits.
fn look_out(lane: Lane, values: &[u64], words: &[u64; 12]) -> Option<Lane> {
    let mut lane = lane.meet(values).ok()?;
    for _ in 0..5 {
        let mut next = [0];
        if lane.waiting_in(&mut next) == 0 {
            return Some(lane);
        }
        lane = lane.look_rows(row_of(words, next[0])).ok()?;
    }
    Some(lane)
}

// Expects the whole to be what one marker finds: all objects, none of which moves.
fn expect_all(rt: &(impl Abort + AllocGlobal), lane: Lane) {
    let words = row();
    match lane.whole() {
        Ok(looks) => {
            let Ok(places) = looks.finish(rt.alloc(), &[F, F + 8]) else {
                return;
            };
            let mut to = [0; 12];
            assert_eq!(rt; places.live_words(), 12);
            assert_eq!(rt; places.try_slide(&words, 0, &mut to), Ok(()));
            assert_eq!(rt; to, words);
        }
        Err(Missing(i)) => assert_eq!(rt; i, 99),
    }
}

#[test]
fn two_lanes_join_to_what_one_marker_finds(rt: HostRuntime) {
    let words = row();
    let Some(one) = begin(&rt) else {
        return;
    };
    let Ok(other) = one.share(rt.alloc()) else {
        return;
    };
    let Some(one) = look_out(one, &[F], &words) else {
        return;
    };
    let Some(other) = look_out(other, &[F + 8], &words) else {
        return;
    };
    match one.join(other) {
        Ok(lane) => expect_all(&rt, lane),
        Err(fault) => assert_eq!(&rt; fault, JoinFault::OutOfMemory),
    }
}

// Two threads look at what both roots reach, each in a lane.
fn looked_by_threads(rt: &(impl Threads + AllocGlobal), words: &[u64; 12]) -> Option<Lane> {
    let one = begin(rt)?;
    let other = one.share(rt.alloc()).ok()?;
    let (one, other) = join(
        rt,
        move || look_out(one, &[F, F + 8], words),
        move || look_out(other, &[F + 8, F], words),
    );
    one?.join(other?).ok()
}

#[test]
fn two_threads_find_what_one_marker_finds(rt: HostRuntime) {
    let words = row();
    if let Some(lane) = looked_by_threads(&rt, &words) {
        expect_all(&rt, lane);
    }
}

#[test]
fn what_a_lane_that_was_dropped_met_is_missing(rt: HostRuntime) {
    let words = row();
    let Some(one) = begin(&rt) else {
        return;
    };
    let Ok(other) = one.share(rt.alloc()) else {
        return;
    };
    let Some(other) = look_out(other, &[F + 3], &words) else {
        return;
    };
    drop(other);
    let Some(one) = look_out(one, &[F, F + 8], &words) else {
        return;
    };
    match one.whole() {
        Ok(_) => assert!(&rt; false),
        Err(missing) => assert_eq!(&rt; missing, Missing(3)),
    }
}

#[test]
fn an_object_in_two_lanes_is_refused(rt: HostRuntime) {
    let words = row();
    let (Some(one), Some(other)) = (begin(&rt), begin(&rt)) else {
        return;
    };
    let Some(one) = look_out(one, &[F + 8], &words) else {
        return;
    };
    let Ok(other) = other.meet(&[F + 10]) else {
        return;
    };
    match one.join(other) {
        Ok(_) => assert!(&rt; false),
        Err(JoinFault::OutOfMemory) => {}
        Err(fault) => assert_eq!(&rt; fault, JoinFault::Overlap(10)),
    }
}
