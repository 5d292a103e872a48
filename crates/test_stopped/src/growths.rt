//! Surveys that grow while their words are written to.
use crate::growing::{chain, row};
use crate::small_heaps::five;
use heap_layout::{Edition, FROM_SPACE as F};
use std::process::Abort;
use stopped_heap::{Growth, NotGrowth, SlideFault, SurveyFault, Tables};

#[test]
fn a_growth_goes_on_in_words_that_were_written_to(rt: HostRuntime) {
    let mut words = five();
    let growth = Growth::begin(rt.alloc(), Edition::Two, &words);
    let growth = growth.expect(&rt, "a beginning");
    let Ok(growth) = growth.also(&words, &[F + 8]) else {
        return;
    };
    assert_eq!(&rt;
        (growth.kept(), growth.keeps(F + 8), growth.keeps(F + 2)),
        (1, true, false)
    );
    // A reference of an object that is not kept so far.
    words[4] = F + 9;
    let Ok(growth) = growth.also(&words, &[F + 2, F + 8]) else {
        return;
    };
    assert_eq!(&rt;
        (growth.kept(), growth.keeps(F + 9), growth.keeps(F + 10)),
        (3, true, false)
    );
    let places = growth.settle();
    let mut to = [7; 8];
    assert_eq!(&rt; places.live_words(), 8);
    let slid = places.try_slide(&words, 0, &mut to);
    assert_eq!(&rt; slid, Ok(()));
    assert_eq!(&rt;
        to,
        [words[2], F, F + 7, 0, F + 6, F + 2, words[8], words[9]]
    );
}

#[test]
fn what_is_kept_is_not_looked_at_again(rt: HostRuntime) {
    let mut words = five();
    let growth = Growth::begin(rt.alloc(), Edition::Two, &words);
    let growth = growth.expect(&rt, "a beginning");
    let Ok(growth) = growth.also(&words, &[F + 2]) else {
        return;
    };
    // A reference of an object that is kept leads to one that is not.
    words[4] = F + 8;
    let Ok(growth) = growth.also(&words, &[F + 2, F + 9]) else {
        return;
    };
    assert_eq!(&rt;
        (growth.kept(), growth.keeps(F + 8), growth.keeps(F + 10)),
        (3, false, true)
    );
    let places = growth.settle();
    let mut to = [7; 9];
    let slid = places.try_slide(&words, 0, &mut to);
    assert_eq!(&rt; slid, Err(SlideFault::Unmarked(4)));
}

#[test]
fn values_are_kept_in_words_that_were_written_to(rt: HostRuntime) {
    let mut words = five();
    let growth = Growth::begin(rt.alloc(), Edition::Two, &words);
    let growth = growth.expect(&rt, "a beginning");
    let Ok(growth) = growth.also(&words, &[F + 8]) else {
        return;
    };
    words[4] = F + 9;
    // Holder, key and value; that of the second is kept by the first.
    let ephemerons = [F + 8, F + 9, F, F + 8, F + 8, F + 2];
    let Ok(growth) = growth.also_values(&words, &ephemerons) else {
        return;
    };
    assert_eq!(&rt;
        (growth.kept(), growth.keeps(F), growth.keeps(F + 10)),
        (4, true, false)
    );
    assert_eq!(&rt; growth.settle().live_words(), 10);
}

// By rounds alone, each of which keeps one value, this takes minutes.
#[test]
fn a_long_chain_of_keys_is_kept_in_the_worst_order(rt: HostRuntime) {
    let Ok(pairs) = chain(rt.alloc(), 20_000) else {
        return;
    };
    let Ok(words) = row(rt.alloc(), 20_002) else {
        return;
    };
    let growth = Growth::begin(rt.alloc(), Edition::Two, &words);
    let growth = growth.expect(&rt, "a beginning");
    let Ok(growth) = growth.also(&words, &[F, F + 1]) else {
        return;
    };
    let Ok(growth) = growth.also_values(&words, &pairs) else {
        return;
    };
    assert_eq!(&rt; growth.keeps(F + 20_001), true);
    assert_eq!(&rt; growth.settle().live_words(), 20_002);
}

// Lent tables for so many words have room for an index, or have none; then there are rounds alone.
#[test]
fn a_chain_of_keys_is_kept_in_lent_tables(rt: HostRuntime) {
    let Ok(pairs) = chain(rt.alloc(), 200) else {
        return;
    };
    let Ok(words) = row(rt.alloc(), 20_000) else {
        return;
    };
    for objects in [202_usize, 20_000] {
        let words = &words[..objects];
        let Ok(tables) = Tables::reserve(rt.alloc(), objects) else {
            return;
        };
        let Ok(growth) = Growth::begin_lent(tables, Edition::Two, words) else {
            return;
        };
        let Ok(growth) = growth.also(words, &[F, F + 2]) else {
            return;
        };
        let Ok(growth) = growth.also_values(words, &pairs) else {
            return;
        };
        assert_eq!(&rt; growth.keeps(F + 1), false);
        assert_eq!(&rt; growth.kept(), 201);
    }
}

#[test]
fn a_growth_is_refused(rt: HostRuntime) {
    let mut words = five();
    let Ok(tables) = Tables::reserve(rt.alloc(), 12) else {
        return;
    };
    let Ok(growth) = Growth::begin_lent(tables, Edition::Two, &words) else {
        return;
    };
    let growth = growth.also(&words, &[F + 8]).ok();
    let growth = growth.expect(&rt, "one object");
    let Err(NotGrowth::WrongLength(growth)) = growth.also(&[0; 11], &[F + 2]) else {
        return;
    };
    assert_eq!(&rt; (growth.kept(), growth.keeps(F + 8)), (1, true));
    words[4] = F + 12;
    let Err(NotGrowth::Over(refused)) = growth.also(&words, &[F + 2]) else {
        return;
    };
    assert_eq!(&rt; refused.fault, SurveyFault::BadReference(4));
    assert_eq!(&rt; refused.tables.room(), 12);
}
