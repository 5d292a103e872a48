//! What is wrong with a dump, or a file of words, is said.
ghost use Rattle.std.specs.Prelude.{◌≡◌, IfOk};
ghost use Rattle.std.specs.String.{string_bytes};
ghost use Rattle.handle_base.specs.Copying.{CopiesAll};
ghost use Rattle.handle_base.specs.HandleKinds.{plan_in, Asks};
ghost use Rattle.file_handle.specs.Telling.{ExplainsBy, ExplainsBytes, TellsFault};

use crate::judging::{is_of_words, is_whole, read_as, unread, verdict};
use comp_audit::{AuditFault, Dump, DumpFault, Verdict, explain};
use handle_base::{Answer, Handle, as_plan, copy_bytes, status};
use heap_layout::OutOfMemory;
use page_plan::Plan;
use std::alloc::Global;
use std::sync::Arc;

// The text that explains a fault of a dump. Err if out of memory.
fn text_of(
    alloc: Global,
    plan: &Plan,
    dump: &Dump<'_>,
    fault: AuditFault,
) -> Result<String, OutOfMemory>
    ensures { IfOk result (λ text. TellsFault plan.now dump.now fault (string_bytes text)) }
{
    let explanation = explain(alloc, plan, dump, fault)?;
    Ok(format!(in alloc; "{explanation}")?)
}

// Copies a text.
fn copy_text(text: &String, out: &mut [u8]) -> Answer
    ensures { CopiesAll (string_bytes text.now) out.old out.new result }
{
    copy_bytes(text.as_bytes(), out)
}

// Copies what is said of the first fault of bytes, for the heap of a plan.
fn tell(
    alloc: Global,
    plan: &Plan,
    bytes: &[u8],
    whole: bool,
    words: bool,
    out: &mut [u8],
) -> Answer
    ensures { ExplainsBytes whole words bytes.now out.old out.new plan.now result }
{
    let dump = match read_as(alloc, bytes, words) {
        Ok(dump) => dump,
        Err(fault) => return unread(fault),
    };
    let fault = match verdict(alloc, plan, &dump, whole) {
        Ok(Verdict::Yes) => return Answer::done(0),
        Ok(Verdict::No(fault)) => fault,
        Err(_) => return unread(DumpFault::OutOfMemory),
    };
    match text_of(alloc, plan, &dump, fault) {
        Ok(text) => copy_text(&text, out),
        Err(_) => unread(DumpFault::OutOfMemory),
    }
}

// The same by these options.
fn tell_by(alloc: Global, plan: &Plan, bytes: &[u8], options: u32, out: &mut [u8]) -> Answer
    ensures { ExplainsBy options bytes.now out.old out.new plan.now result }
{
    if options > 3 {
        return Answer::bare(status::BAD_OPTIONS, u64::from(options));
    }
    tell(
        alloc,
        plan,
        bytes,
        is_whole(options),
        is_of_words(options),
        out,
    )
}

// The same for a share of a plan.
fn tell_shared(
    alloc: Global,
    plan: &Arc<Plan>,
    bytes: &[u8],
    options: u32,
    out: &mut [u8],
) -> Answer
    ensures { ExplainsBy options bytes.now out.old out.new plan.now.value result }
{
    tell_by(alloc, &**plan, bytes, options, out)
}

/// Judges these bytes as `judge_dump` does, and copies what is wrong where: a few lines of ASCII about the first fault.
/// The answer has the number of its bytes, 0 if there is no fault. If the buffer is too short, the answer has that
/// number too. Then, and if nothing is read or there is no memory, the buffer stays as it was.
pub fn explain_dump(
    alloc: Global,
    h: &mut Handle,
    bytes: &[u8],
    options: u32,
    out: &mut [u8],
) -> Answer
    ensures same { h.new.kept ≡ h.old.kept }
    ensures explains { Asks 0 plan_in (ExplainsBy options bytes.now out.old out.new) (out.new ≡ out.old) h.old.kept result }
{
    let Some(kept) = h.take(alloc) else {
        return Answer::bare(status::EMPTY_HANDLE, 0);
    };
    let answer = match as_plan(kept.as_ref()) {
        Some(plan) => tell_shared(alloc, plan, bytes, options, out),
        None => Answer::bare(status::WRONG_HANDLE, 0),
    };
    h.put_back(kept);
    answer
}
