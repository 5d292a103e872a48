//! Pseudorandom heaps of each edition, collected one after the other by the same tables, beside the plain model.
use crate::drawn_heaps::{expect_untouched, untouched};
use crate::expected::{expect_eq, expect_so, expect_words};
use crate::plain_heap::{BEFORE, PlainHeap};
use heap_layout::Edition;
use std::alloc::{AllocError, Global};
use std::process::Abort;
use stopped_heap::{CollectLentFault, Survey, Tables, collect_lent};
use test_support::{At, Random};

// The number of heaps of each edition.
const HEAPS: u64 = 50;

// Room for the largest heap that is drawn, and more.
const ROOM: usize = 100_000;

// Draws a heap, and collects it by the tables, which keep their room. An error if memory was refused while the heap was
// drawn: the collection itself takes none.
fn collect_drawn(
    rt: &impl Abort,
    alloc: Global,
    tables: &mut Tables,
    edition: Edition,
    seed: u64,
) -> Result<(), AllocError> {
    let case = format!(in alloc; "seed {seed}")?;
    let mut random = Random { state: seed };
    let heap = PlainHeap::draw(alloc, edition, &mut random)?;
    let slid = heap.slid_words(alloc)?;
    let moved = heap.moved_roots(alloc)?;
    let mut to = untouched(alloc, heap.words.len())?;
    let mut roots = heap.roots.to_vec(alloc)?;
    let answer = collect_lent(tables, edition, &heap.words, &mut roots, &mut to);
    expect_eq(rt, At::new(&case, 0), answer, Ok(slid.len() as u64));
    for (row, word) in to.iter().enumerate() {
        let wanted = slid.get(row).copied().unwrap_or(BEFORE);
        expect_eq(rt, At::new(&case, row), *word, wanted);
    }
    expect_words(rt, &case, &roots, &moved);
    expect_eq(rt, At::new(&case, 1), tables.room(), ROOM);
    Ok(())
}

// Collects all heaps of an edition by the same tables. Where a run of the tests refuses one allocation, at most one
// heap is cut off.
fn collect_all(rt: &impl Abort, alloc: Global, edition: Edition) -> Result<(), AllocError> {
    let mut tables = Tables::reserve(alloc, ROOM)?;
    let mut compared = 0u64;
    for seed in 0..HEAPS {
        if collect_drawn(rt, alloc, &mut tables, edition, seed).is_ok() {
            compared = compared.saturating_add(1);
        }
    }
    expect_so(
        rt,
        At::new("compared", compared as usize),
        compared >= HEAPS - 1,
    );
    Ok(())
}

#[test]
fn heaps_that_are_collected_by_the_same_tables_slide_as_in_the_plain_model(rt: HostRuntime) {
    for edition in [Edition::One, Edition::Two, Edition::Three, Edition::Four] {
        let _ = collect_all(&rt, rt.alloc(), edition);
    }
}

// A survey by tables that are lent, one word too short and just long enough. The tables come back.
fn survey_lent(rt: &impl Abort, alloc: Global) -> Result<(), AllocError> {
    // An object of one data word, and a word that is none.
    let words = [0x1_0000u64, 7, 9];
    let short = Tables::reserve(alloc, 2)?;
    let Err(refused) = Survey::of_lent(short, Edition::One, &words, &[]) else {
        expect_so(rt, At::new("short", 2), false);
        return Ok(());
    };
    expect_eq(rt, At::new("room", 2), refused.tables.room(), 2);
    let long = Tables::reserve(alloc, 3)?;
    match Survey::of_lent(long, Edition::One, &words, &[heap_layout::FROM_SPACE]) {
        Ok(survey) => {
            expect_eq(rt, At::new("live", 3), survey.live_words(), 2);
            expect_eq(rt, At::new("room", 3), survey.into_tables().room(), 3);
        }
        Err(_) => expect_so(rt, At::new("long", 3), false),
    }
    Ok(())
}

#[test]
fn tables_that_are_too_short_are_refused_and_come_back(rt: HostRuntime) {
    let _ = survey_lent(&rt, rt.alloc());
}

#[test]
fn a_heap_that_has_no_room_is_not_collected_by_lent_tables(rt: HostRuntime) {
    let alloc = rt.alloc();
    let words = [0x1_0000u64, 7];
    let Ok(mut tables) = Tables::reserve(alloc, 1) else {
        return;
    };
    let mut roots = [heap_layout::FROM_SPACE];
    let mut to = [BEFORE; 2];
    let answer = collect_lent(&mut tables, Edition::One, &words, &mut roots, &mut to);
    expect_eq(
        &rt,
        At::new("answer", 1),
        answer,
        Err(CollectLentFault::ShortTables(1)),
    );
    expect_words(&rt, "roots", &roots, &[heap_layout::FROM_SPACE]);
    expect_untouched(&rt, "to", &to);
}
