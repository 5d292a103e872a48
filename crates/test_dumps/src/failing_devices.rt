//! Dumps that are read in parts, from readers that give few bytes or fail, and dumps to writers that fail.
use crate::dump_bytes::{Whole, encoded};
use crate::dumps_in_memory::{are_same, read};
use crate::dumps_of_worked_heaps::expect_linked;
use crate::expected::{expect_eq, expect_so};
use crate::writers::{Narrow, WhenFull};
use comp_audit::{Dump, DumpFault, read_dump, write_dump};
use heap_layout::{Counted, Edition};
use std::alloc::Global;
use std::io::ErrorKind;
use std::process::Abort;
use test_support::{At, Pieces};

// Checks that this dump is read from a reader that gives `piece` bytes a call.
fn expect_in_pieces(rt: &impl Abort, alloc: Global, bytes: &[u8], piece: usize, whole: &Dump<'_>) {
    let mut reader = Counted::new(Pieces {
        bytes,
        piece,
        calls: 0,
        failing: None,
    });
    let dump = read_dump(alloc, &mut reader).expect(rt, "a dump in pieces");
    expect_so(rt, At::new("piece", piece), are_same(&dump, whole));
}

static PIECES: [usize; 4] = [1, 2, 7, 1_128];

// A writer that takes at most this many bytes a call, and its answer once it is full.
struct FullWriter(usize, WhenFull);

static FULL: [FullWriter; 3] = [
    FullWriter(1_129, WhenFull::Fails(ErrorKind::StorageFull)),
    FullWriter(3, WhenFull::Fails(ErrorKind::Interrupted)),
    FullWriter(1, WhenFull::TakesNone),
];

// The fault of a read or a write, the number of counted failures, and the bytes that the writer took.
type Outcome<'a> = (Option<DumpFault>, u64, &'a [u8]);

// The expected outcome: no failure if all is well, else one failure of the device.
fn outcome(is_well: bool, taken: &[u8]) -> Outcome<'_> {
    match is_well {
        true => (None, 0, taken),
        false => (Some(DumpFault::Device), 1, taken),
    }
}

// Reads from a reader that gives a byte a call and fails at this call.
fn read_failing(alloc: Global, bytes: &[u8], call: u64, kind: ErrorKind) -> Outcome<'static> {
    let mut reader = Counted::new(Pieces {
        bytes,
        piece: 1,
        calls: 0,
        failing: Some((call, kind)),
    });
    let fault = read_dump(alloc, &mut reader).err();
    (fault, reader.failures(), &[])
}

// Checks that the 569 bytes of the smallest heap are read in 570 calls. Each call may fail, and none comes after a
// failure.
fn expect_failing_reads(rt: &impl Abort, alloc: Global, kind: ErrorKind) {
    let bytes = encoded(rt, alloc, &Whole::Smallest);
    for call in 0..571 {
        let found = read_failing(alloc, &bytes, call as u64, kind);
        expect_eq(rt, At::new("call", call), found, outcome(call == 570, &[]));
    }
}

// Checks a writer with room for these bytes. It takes them, and then fails unless they are the whole dump.
fn expect_write(
    rt: &impl Abort,
    alloc: Global,
    dump: &Dump<'_>,
    bytes: &[u8],
    is_all: bool,
    full: &FullWriter,
) {
    let FullWriter(piece, when_full) = full;
    let mut writer = Counted::new(Narrow {
        taken: Vec::new(alloc),
        room: bytes.len(),
        piece: *piece,
        when_full: *when_full,
    });
    let fault = write_dump(dump, &mut writer).err();
    let counted = writer.failures();
    let narrow = writer.into_inner();
    let found = (fault, counted, narrow.taken.as_slice());
    expect_eq(
        rt,
        At::new("room", bytes.len()),
        found,
        outcome(is_all, bytes),
    );
}

// Checks each position before the end of the dump where the writer may fail. It has then taken the bytes before that
// position.
fn expect_beginnings(
    rt: &impl Abort,
    alloc: Global,
    dump: &Dump<'_>,
    bytes: &[u8],
    full: &FullWriter,
) {
    for room in 0..=bytes.len() {
        expect_write(rt, alloc, dump, &bytes[..room], room == bytes.len(), full);
    }
}

// Checks a known dump and its bytes with readers that give few bytes and writers that fail.
fn expect_devices(rt: &impl Abort, alloc: Global, dump: &Dump<'_>, bytes: &[u8]) {
    for piece in &PIECES {
        expect_in_pieces(rt, alloc, bytes, *piece, dump);
    }
    for full in &FULL {
        expect_beginnings(rt, alloc, dump, bytes, full);
    }
}

// Checks reads and writes of the dump after a new object.
fn expect_linked_devices(rt: &impl Abort, alloc: Global) {
    let bytes = encoded(rt, alloc, &Whole::Linked);
    expect_eq(rt, At::new("bytes", 0), bytes.len(), 1_129);
    let dump = read(alloc, &bytes).expect(rt, "a dump");
    expect_linked(rt, &dump);
    expect_devices(rt, alloc, &dump, &bytes);
}

// Checks reads and writes of a dump of edition two.
fn expect_weak_devices(rt: &impl Abort, alloc: Global) {
    let bytes = encoded(rt, alloc, &Whole::WeakLinked);
    expect_eq(rt, At::new("bytes", 1), bytes.len(), 1_147);
    let dump = read(alloc, &bytes).expect(rt, "a dump");
    expect_eq(rt, At::new("edition", 2), dump.edition(), Edition::Two);
    expect_devices(rt, alloc, &dump, &bytes);
}

#[test]
fn a_read_that_fails_or_is_interrupted_is_reported_once(rt: HostRuntime) {
    expect_failing_reads(&rt, rt.alloc(), ErrorKind::Other);
    expect_failing_reads(&rt, rt.alloc(), ErrorKind::Interrupted);
}

#[test]
fn a_dump_is_read_and_written_in_pieces_or_the_device_is_reported(rt: HostRuntime) {
    expect_linked_devices(&rt, rt.alloc());
}

#[test]
fn a_dump_of_edition_two_is_read_and_written_in_pieces_too(rt: HostRuntime) {
    expect_weak_devices(&rt, rt.alloc());
}
