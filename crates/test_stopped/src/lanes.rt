//! Lanes of one marking, each of which looks at what it met first.
use crate::small_heaps::row;
use heap_layout::{Edition, FROM_SPACE as F};
use std::process::Abort;
use stopped_heap::{Lane, LookFault, MeetFault, SurveyFault};

// A lane that met the object at 0 and the one at this index.
fn begin(rt: &impl AllocGlobal, other: u64) -> Option<Lane> {
    let lane = Lane::begin(rt.alloc(), Edition::Four, 12).ok()?;
    lane.meet(&[F, F.saturating_add(other)]).ok()
}

// Expects these objects to wait, and no more.
fn expect_waiting(rt: &impl Abort, lane: &Lane, wanted: &[u64]) {
    let mut indices = [99; 4];
    let many = lane.waiting_in(&mut indices);
    assert!(rt; many < 4);
    assert_eq!(rt; &indices[..many], wanted);
}

#[test]
fn an_object_that_one_lane_met_waits_in_no_other(rt: HostRuntime) {
    let words = row();
    let Some(one) = begin(&rt, 0) else {
        return;
    };
    let Ok(other) = one.share(rt.alloc()) else {
        return;
    };
    expect_waiting(&rt, &one, &[0]);
    expect_waiting(&rt, &other, &[]);
    let Ok(other) = other.meet(&[F, F + 3, 0, F + 8, u64::MAX]) else {
        return;
    };
    expect_waiting(&rt, &other, &[3, 8]);
    // A leads to B, which the other lane met.
    let Ok(one) = one.look_rows(&[words[0], F + 3, 0]) else {
        return;
    };
    expect_waiting(&rt, &one, &[]);
    let Ok(other) = other.look_rows(&[words[3], F + 6, words[8], F + 10]) else {
        return;
    };
    expect_waiting(&rt, &other, &[6, 10]);
}

#[test]
fn lanes_are_begun_of_as_many_words_as_the_edition_allows(rt: HostRuntime) {
    for edition in [Edition::One, Edition::Two, Edition::Three, Edition::Four] {
        match Lane::begin(rt.alloc(), edition, usize::MAX) {
            Ok(_) => assert!(&rt; false),
            Err(fault) => assert_eq!(&rt; fault, SurveyFault::TooLarge),
        }
    }
    let Ok(none) = Lane::begin(rt.alloc(), Edition::Three, 0) else {
        return;
    };
    match none.meet(&[0, F]) {
        Ok(_) => assert!(&rt; false),
        Err(fault) => assert_eq!(&rt; fault, MeetFault::BadValue(1)),
    }
}

#[test]
fn values_that_lead_nowhere_end_a_lane(rt: HostRuntime) {
    for (values, wanted) in [([F + 3, F + 12], 1), ([1, F], 0), ([0, F - 1], 1)] {
        let Some(lane) = begin(&rt, 8) else {
            return;
        };
        match lane.meet(&values) {
            Ok(_) => assert!(&rt; false),
            Err(MeetFault::OutOfMemory) => {}
            Err(fault) => assert_eq!(&rt; fault, MeetFault::BadValue(wanted)),
        }
    }
}

// Looks at these rows. Memory that was refused is no answer.
fn look_rows(rt: &(impl Abort + AllocGlobal), other: u64, rows: &[u64], wanted: LookFault) {
    let Some(lane) = begin(rt, other) else {
        return;
    };
    match lane.look_rows(rows) {
        Ok(_) => assert!(rt; false),
        Err(LookFault::OutOfMemory) => {}
        Err(fault) => assert_eq!(rt; fault, wanted),
    }
}

#[test]
fn rows_that_a_lane_refuses(rt: HostRuntime) {
    let words = row();
    let (a, c, d) = (words[0], words[6], words[8]);
    look_rows(&rt, 8, &[a], LookFault::ShortRun(3));
    look_rows(&rt, 8, &[a, 0, 0, d], LookFault::ShortRun(2));
    look_rows(&rt, 8, &[a, 0, 0, d, 0, c], LookFault::NoSuchObject);
    look_rows(&rt, 1, &[a, 0, 0, c], LookFault::Overlap(1));
    look_rows(&rt, 11, &[a, 0, 0, c], LookFault::ObjectPastEnd(11));
    look_rows(&rt, 8, &[a, 0, F + 12, d, 0], LookFault::BadReference(2));
    look_rows(&rt, 8, &[a, 0, 0, d, F - 1], LookFault::BadReference(9));
}
