//! Objects that a lane gives to another.
use heap_layout::{Edition, FROM_SPACE as F};
use std::process::Abort;
use stopped_heap::{Lane, MeetFault};

// A lane that met the objects at 0, 3 and 8.
fn begin(rt: &impl AllocGlobal) -> Option<Lane> {
    let lane = Lane::begin(rt.alloc(), Edition::Four, 12).ok()?;
    lane.meet(&[F, F + 3, F + 8]).ok()
}

// Expects these objects to wait, and no more.
fn expect_given(rt: &impl Abort, lane: &Lane, wanted: &[u64]) {
    let mut indices = [99; 4];
    let many = lane.waiting_in(&mut indices);
    assert!(rt; many < 4);
    assert_eq!(rt; &indices[..many], wanted);
}

#[test]
fn objects_that_a_lane_gave_wait_in_the_one_that_took_them(rt: HostRuntime) {
    let Some(one) = begin(&rt) else {
        return;
    };
    let Ok(other) = one.share(rt.alloc()) else {
        return;
    };
    let mut indices = [99; 2];
    let (one, many) = one.give(&mut indices);
    assert_eq!(&rt; many, 2);
    assert_eq!(&rt; indices, [3, 8]);
    expect_given(&rt, &one, &[0]);
    let Ok(other) = other.take(&indices) else {
        return;
    };
    expect_given(&rt, &other, &[3, 8]);
    // What it gave it knows, and does not meet again.
    let Ok(one) = one.meet(&[F + 3, F + 8]) else {
        return;
    };
    expect_given(&rt, &one, &[0]);
    let Ok(lane) = one.join(other) else {
        return;
    };
    expect_given(&rt, &lane, &[0, 3, 8]);
}

#[test]
fn an_index_that_is_past_the_words_is_not_taken(rt: HostRuntime) {
    let Some(lane) = begin(&rt) else {
        return;
    };
    match lane.take(&[3, 12]) {
        Ok(_) => assert!(&rt; false),
        Err(MeetFault::OutOfMemory) => {}
        Err(fault) => assert_eq!(&rt; fault, MeetFault::BadValue(1)),
    }
}
