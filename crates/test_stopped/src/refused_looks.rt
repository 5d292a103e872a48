//! Looks that are refused, each by what is there.
use crate::small_heaps::row;
use heap_layout::{Edition, FROM_SPACE as F};
use std::process::Abort;
use stopped_heap::{LookFault, Looks, MeetFault};

// Begins with the objects at 0 and at this index.
fn begin(rt: &impl AllocGlobal, other: u64) -> Option<Looks> {
    let roots = [F, F.saturating_add(other)];
    Looks::begin(rt.alloc(), Edition::Four, 12, &roots).ok()
}

// Looks at these rows. Memory that was refused is no answer.
fn look_rows(rt: &(impl Abort + AllocGlobal), other: u64, rows: &[u64], wanted: LookFault) {
    let Some(looks) = begin(rt, other) else {
        return;
    };
    match looks.look_rows(rows) {
        Ok(_) => assert!(rt; false),
        Err(LookFault::OutOfMemory) => {}
        Err(fault) => assert_eq!(rt; fault, wanted),
    }
}

#[test]
fn rows_that_are_too_short_or_too_many(rt: HostRuntime) {
    let words = row();
    let (a, c, d) = (words[0], words[6], words[8]);
    look_rows(&rt, 8, &[a], LookFault::ShortRun(3));
    look_rows(&rt, 8, &[a, 0, 0, d], LookFault::ShortRun(2));
    look_rows(&rt, 8, &[a, 0, 0, d, 0, c], LookFault::NoSuchObject);
}

#[test]
fn rows_that_do_not_lie_or_lead_among_the_words(rt: HostRuntime) {
    let words = row();
    let (a, c, d) = (words[0], words[6], words[8]);
    look_rows(&rt, 1, &[a, 0, 0, c], LookFault::Overlap(1));
    look_rows(&rt, 11, &[a, 0, 0, c], LookFault::ObjectPastEnd(11));
    look_rows(&rt, 8, &[a, 0, F + 12, d, 0], LookFault::BadReference(2));
    look_rows(&rt, 8, &[a, 0, 0, d, F - 1], LookFault::BadReference(9));
}

// Looks again at the object at this index, which is met only at 0 and 8.
fn look_again(rt: &(impl Abort + AllocGlobal), i: usize, run: &[u64], wanted: Option<LookFault>) {
    let Some(looks) = begin(rt, 8) else {
        return;
    };
    match looks.look_again(i, run) {
        Ok(looks) => {
            assert!(rt; wanted.is_none());
            // It waits as before.
            assert_eq!(rt; looks.waiting(), Some(0));
        }
        Err(LookFault::OutOfMemory) => {}
        Err(fault) => assert_eq!(rt; Some(fault), wanted),
    }
}

#[test]
fn objects_are_looked_at_again_by_index(rt: HostRuntime) {
    let words = row();
    let none = Some(LookFault::NoSuchObject);
    look_again(&rt, 8, &words[8..], None);
    look_again(&rt, 0, &words[..3], None);
    look_again(&rt, 1, &words[6..], none);
    look_again(&rt, 3, &words[3..], none);
    look_again(&rt, 12, &words[6..], none);
    look_again(&rt, usize::MAX, &words[6..], none);
    look_again(&rt, 8, &words[8..9], Some(LookFault::ShortRun(2)));
    look_again(&rt, 8, &[], Some(LookFault::ShortRun(1)));
    look_again(&rt, 8, &[words[8], 5], Some(LookFault::BadReference(9)));
}

#[test]
fn values_that_lead_nowhere(rt: HostRuntime) {
    for (values, wanted) in [([F + 3, F + 12], 1), ([1, F], 0), ([0, F - 1], 1)] {
        let Some(looks) = begin(&rt, 8) else {
            return;
        };
        match looks.meet(&values) {
            Ok(_) => assert!(&rt; false),
            Err(MeetFault::OutOfMemory) => {}
            Err(fault) => assert_eq!(&rt; fault, MeetFault::BadValue(wanted)),
        }
    }
}
