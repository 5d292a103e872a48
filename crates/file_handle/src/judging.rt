//! A dump, or a file of words, is judged.
ghost use Rattle.std.specs.Prelude.{◌≡◌, true, IfErr, IfOk, Ok};
ghost use Rattle.comp_audit.specs.Judged.{Judges};
ghost use Rattle.comp_dump.specs.Dumped.{IsStored};
ghost use Rattle.comp_dump.specs.DumpEncoding.{dump_bytes};
ghost use Rattle.comp_dump.specs.DumpReading.{read_whole_by, Fails};
ghost use Rattle.comp_dump.specs.WordsReading.{read_whole_words};
ghost use Rattle.file_handle.specs.Judging.{asks_whole, asks_words, faults_for, of_audit, of_dump, read_by, JudgesBy, JudgesBytes, StandsFor};
ghost use Rattle.handle_base.specs.HandleKinds.{plan_in, Asks};

use comp_audit::{
    AuditFault, Dump, DumpFault, Verdict, audit, audit_whole, read_large_dump, read_words,
};
use handle_base::{Answer, Handle, as_plan, status};
use heap_layout::{Counted, OutOfMemory};
use page_plan::Plan;
use std::alloc::Global;
use std::sync::Arc;

// The answer of a fault of the audit.
fn found(fault: AuditFault) -> Answer
    ensures { result ≡ of_audit fault }
{
    match fault {
        AuditFault::WrongWord(a) => Answer::bare(status::WRONG_WORD, a),
        AuditFault::LooseReference(a) => Answer::bare(status::LOOSE_REFERENCE, a),
        AuditFault::BadEntry(p, i) => Answer::two(
            status::BAD_ENTRY,
            p,
            i.min(4_294_967_295) as u32,
        ),
        AuditFault::StampRepeated(stamp) => Answer::bare(status::STAMP_REPEATED, stamp),
        AuditFault::StampMissing(stamp) => Answer::bare(status::STAMP_MISSING, stamp),
        AuditFault::WrongTotal => Answer::bare(status::WRONG_TOTAL, 0),
        AuditFault::BuildUnclaimed(p) => Answer::bare(status::BUILD_UNCLAIMED, p),
        AuditFault::WrongHead => Answer::bare(status::WRONG_HEAD, 0),
        AuditFault::PageMissing(p) => Answer::bare(status::PAGE_MISSING, p),
    }
}

/// The answer of bytes that are not read as a file.
pub(crate) fn unread(fault: DumpFault) -> Answer
    ensures { result ≡ of_dump fault }
{
    match fault {
        DumpFault::Truncated => Answer::bare(status::FILE_TRUNCATED, 0),
        DumpFault::TrailingBytes => Answer::bare(status::FILE_TRAILING, 0),
        DumpFault::BadMagic => Answer::bare(status::FILE_BAD_MAGIC, 0),
        DumpFault::BadField => Answer::bare(status::FILE_BAD_FIELD, 0),
        DumpFault::OutOfMemory => Answer::bare(status::OUT_OF_MEMORY, 0),
        DumpFault::Device => Answer::bare(status::OUT_OF_MEMORY, 0),
    }
}

/// Whether each compacted page has to be built, by these options.
pub(crate) fn is_whole(options: u32) -> bool
    ensures { result ≡ asks_whole options }
{
    options % 2 == 1
}

/// Whether the bytes are a file of words, by these options.
pub(crate) fn is_of_words(options: u32) -> bool
    ensures { result ≡ asks_words options }
{
    options >= 2
}

// The dump whose bytes these are.
fn dump_in(alloc: Global, bytes: &[u8]) -> Result<Dump<'static>, DumpFault>
    ensures read { IfOk result (λ dump. bytes.now ≡ dump_bytes dump) }
    ensures stored { IfOk result IsStored }
    ensures cause { IfErr result (λ fault. Fails fault (read_whole_by true bytes.now)) }
{
    read_large_dump(alloc, &mut Counted::new(bytes))
}

// The dump for which these bytes stand, as a file of words.
fn words_in(alloc: Global, bytes: &[u8]) -> Result<Dump<'static>, DumpFault>
    ensures read { IfOk result (λ dump. read_whole_words true bytes.now ≡ Ok dump) }
    ensures stored { IfOk result IsStored }
    ensures cause { IfErr result (λ fault. Fails fault (read_whole_words true bytes.now)) }
{
    read_words(alloc, &mut Counted::new(bytes), true)
}

/// The dump whose bytes these are, or for which they stand as a file of words.
pub(crate) fn read_as(alloc: Global, bytes: &[u8], words: bool) -> Result<Dump<'static>, DumpFault>
    ensures read { IfOk result (StandsFor words bytes.now) }
    ensures stored { IfOk result IsStored }
    ensures cause { IfErr result (λ fault. Fails fault (read_by words bytes.now)) }
{
    if words {
        words_in(alloc, bytes)
    } else {
        dump_in(alloc, bytes)
    }
}

/// The verdict on a dump. Err if out of memory.
pub(crate) fn verdict(
    alloc: Global,
    plan: &Plan,
    dump: &Dump<'_>,
    whole: bool,
) -> Result<Verdict, OutOfMemory>
    ensures { IfOk result (Judges (faults_for whole plan.now dump.now)) }
{
    if whole {
        audit_whole(alloc, plan, dump)
    } else {
        audit(alloc, plan, dump)
    }
}

// Judges bytes for the heap of a plan.
fn judge(alloc: Global, plan: &Plan, bytes: &[u8], whole: bool, words: bool) -> Answer
    ensures { JudgesBytes whole words bytes.now plan.now result }
{
    let dump = match read_as(alloc, bytes, words) {
        Ok(dump) => dump,
        Err(fault) => return unread(fault),
    };
    match verdict(alloc, plan, &dump, whole) {
        Ok(Verdict::Yes) => Answer::done(dump.live_words()),
        Ok(Verdict::No(fault)) => found(fault),
        Err(_) => unread(DumpFault::OutOfMemory),
    }
}

// The same by these options.
fn judge_by(alloc: Global, plan: &Plan, bytes: &[u8], options: u32) -> Answer
    ensures { JudgesBy options bytes.now plan.now result }
{
    if options > 3 {
        return Answer::bare(status::BAD_OPTIONS, u64::from(options));
    }
    judge(alloc, plan, bytes, is_whole(options), is_of_words(options))
}

// The same for a share of a plan.
fn judge_shared(alloc: Global, plan: &Arc<Plan>, bytes: &[u8], options: u32) -> Answer
    ensures { JudgesBy options bytes.now plan.now.value result }
{
    judge_by(alloc, &**plan, bytes, options)
}

/// Reads a dump from these bytes, and judges it for the heap whose plan a handle keeps. The answer has the live words
/// if a compaction by this plan can have left the dump; else the first fault. Of the options 1 asks that each compacted
/// page was built, and 2 says that the bytes are a file of words; a number above 3 is refused first.
pub fn judge_dump(alloc: Global, h: &mut Handle, bytes: &[u8], options: u32) -> Answer
    ensures same { h.new.kept ≡ h.old.kept }
    ensures judges { Asks 0 plan_in (JudgesBy options bytes.now) (Unit {0}) h.old.kept result }
{
    let Some(kept) = h.take(alloc) else {
        return Answer::bare(status::EMPTY_HANDLE, 0);
    };
    let answer = match as_plan(kept.as_ref()) {
        Some(plan) => judge_shared(alloc, plan, bytes, options),
        None => Answer::bare(status::WRONG_HANDLE, 0),
    };
    h.put_back(kept);
    answer
}
