//! The printed refusals of journals, cells, ledgers and mutators.
use crate::expected::expect_eq;
use comp_journal::JournalRefusal;
use comp_ledger::LedgerFault;
use comp_mutator::{FinishFault, FlipFault, Refusal};
use heap_layout::TO_SPACE as T;
use page_cells::CellRefusal;
use std::alloc::Global;
use std::fmt::Display;
use std::process::Abort;
use test_support::At;

// Checks that each of them is printed as the row says.
fn expect_texts<D: Display>(rt: &impl Abort, alloc: Global, rows: &[(D, &str)]) {
    for (row, (printed, text)) in rows.iter().enumerate() {
        let found = printed.to_string(alloc).expect(rt, "memory for a text");
        expect_eq(rt, At::new("printed refusals", row), found.as_str(), *text);
    }
}

static OF_JOURNALS: [(JournalRefusal, &str); 2] = [
    (JournalRefusal::JournalFull, "J1 JournalFull"),
    (JournalRefusal::OutOfMemory, "J2 OutOfMemory"),
];

#[test]
fn refusals_of_journals_are_printed_with_number_and_name(rt: HostRuntime) {
    expect_texts(&rt, rt.alloc(), &OF_JOURNALS);
}

static OF_CELLS: [(CellRefusal, &str); 4] = [
    (CellRefusal::Busy(3), "C1 Busy(3)"),
    (CellRefusal::NoSuchPage, "C2 NoSuchPage"),
    (CellRefusal::OutOfMemory, "C3 OutOfMemory"),
    (CellRefusal::PassMissing(1), "C4 PassMissing(1)"),
];

#[test]
fn refusals_of_cells_are_printed_with_number_and_name(rt: HostRuntime) {
    expect_texts(&rt, rt.alloc(), &OF_CELLS);
}

static OF_LEDGERS: [(LedgerFault, &str); 2] = [
    (LedgerFault::OverCapacity, "L1 OverCapacity"),
    (LedgerFault::ShareMissing(3), "L2 ShareMissing(3)"),
];

#[test]
fn faults_of_ledgers_are_printed_with_number_and_name(rt: HostRuntime) {
    expect_texts(&rt, rt.alloc(), &OF_LEDGERS);
}

static OF_MUTATORS: [(Refusal, &str); 9] = [
    (Refusal::Null, "M1 Null"),
    (Refusal::NotAStart(T + 1), "M2 NotAStart(8589934593)"),
    (Refusal::NoSuchField, "M3 NoSuchField"),
    (Refusal::ObjectTooLarge, "M4 ObjectTooLarge"),
    (Refusal::OutOfPages, "M5 OutOfPages"),
    (Refusal::Busy(3), "M6 Busy(3)"),
    (Refusal::JournalFull(0), "M7 JournalFull(0)"),
    (Refusal::OutOfMemory, "M8 OutOfMemory"),
    (Refusal::NotInEdition, "M11 NotInEdition"),
];

#[test]
fn refusals_of_mutators_are_printed_with_number_and_name(rt: HostRuntime) {
    expect_texts(&rt, rt.alloc(), &OF_MUTATORS);
}

static OF_FLIPS: [(FlipFault, &str); 2] = [
    (FlipFault::OutOfMemory, "M8 OutOfMemory"),
    (FlipFault::BadCounts, "M10 BadCounts"),
];

#[test]
fn faults_of_flips_are_printed_with_number_and_name(rt: HostRuntime) {
    expect_texts(&rt, rt.alloc(), &OF_FLIPS);
}

static OF_FINISHES: [(FinishFault, &str); 2] = [
    (FinishFault::OutOfMemory, "M8 OutOfMemory"),
    (FinishFault::MutatorMissing(1), "M9 MutatorMissing(1)"),
];

#[test]
fn faults_of_finishes_are_printed_with_number_and_name(rt: HostRuntime) {
    expect_texts(&rt, rt.alloc(), &OF_FINISHES);
}
