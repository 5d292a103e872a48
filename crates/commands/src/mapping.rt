//! The command `map`.
ghost use Rattle.std.specs.Prelude.{◌≡◌, false, IfOk, Some, option_map};
ghost use Rattle.std.specs.String.{string_bytes};
ghost use Rattle.comp_audit.specs.Judged.{faults, Judges};
ghost use Rattle.heap_map.specs.Pictures.{IsPictureOf, IsWhole};
ghost use Rattle.commands.specs.TaskAnswers.{IsAnswered, IsComing};
ghost use Rattle.commands.specs.Compared.{verdict_of};
ghost use Rattle.commands.specs.Inputs.{RefusesMapAt, SomeMap};
ghost use Rattle.commands.specs.HeapTasks.{IsMapped};

use crate::answers::Answer;
use crate::audit::audited_at;
use command_io::{CommandRefusal, Files, heap_at};
use command_line::{AuditRun, MapRun};
use comp_audit::{AuditFault, Dump, Verdict, audit, explain};
use heap_layout::{MarkedHeap, OutOfMemory};
use heap_map::{DumpView, draw};
use page_plan::Plan;
use std::alloc::{AllocError, Global};
use std::thread::Threads;

/// A dump, and what its audit found.
#[derive(Drop)]
pub struct JudgedDump {
    pub dump: Dump<'static>,
    /// Its first fault, if it has one.
    pub fault: Option<AuditFault>,
    /// What is wrong where. It is empty if there is no fault.
    pub told: String,
}

/// Draws the heap whose image is at `run.image`, and the dump at `run.dump`, if there is one, which is read after it;
/// both of edition three or four only if `run.large`. The dump is audited, and a fault of it is drawn.
pub fn map_at<F: Files>(
    alloc: Global,
    rt: &(impl Threads + Sync),
    files: &mut F,
    run: &MapRun<'_>,
) -> Result<Answer, CommandRefusal>
    ensures { IsAnswered (F.disk files.old) files.old files.new (λ outcome. SomeMap (F.disk files.old) run.now.large run.now.image.now (option_map (λ path. path.now) run.now.dump) (λ heap dump. IsMapped heap dump outcome)) (RefusesMapAt (F.disk files.old) run.now.large run.now.image.now (option_map (λ path. path.now) run.now.dump)) result }
{
    match run.dump {
        Some(path) => {
            let (heap, dump) = audited_at(alloc, files, &audit_for(run, path))?;
            drawn(alloc, rt, heap, Some(dump))
        }
        None => {
            let heap = heap_at(alloc, files, run.image, run.large)?;
            drawn(alloc, rt, heap, None)
        }
    }
}

// The plain audit of a dump.
fn audit_for<'a>(run: &MapRun<'a>, path: &'a str) -> AuditRun<'a>
    ensures image { result.image.now ≡ run.now.image.now }
    ensures large { result.large ≡ run.now.large }
    ensures dump { result.dump.now ≡ path.now }
    ensures words { result.words ≡ false }
{
    AuditRun {
        image: run.image,
        dump: path,
        whole: false,
        words: false,
        explain: false,
        large: run.large,
    }
}

// Draws a heap, and a dump of it with what its audit finds, if there is one.
fn drawn(
    alloc: Global,
    rt: &(impl Threads + Sync),
    heap: MarkedHeap,
    dump: Option<Dump<'static>>,
) -> Result<Answer, CommandRefusal>
    ensures { IsComing (IsMapped heap dump.entry) result }
{
    let plan = Plan::new(alloc, rt, heap)?;
    let picture = match dump {
        Some(dump) => draw_judged(alloc, &plan, judged(alloc, &plan, dump)?)?,
        None => draw(alloc, &plan, None)?,
    };
    Ok(Answer::Drawn(picture, plan.live_words()))
}

// Draws the heap of a plan, and a dump of it. Err if out of memory.
fn draw_judged(alloc: Global, plan: &Plan, judged: JudgedDump) -> Result<String, AllocError>
    ensures whole { IfOk result (λ picture. IsWhole (string_bytes picture)) }
    ensures shows { IfOk result (λ picture. IsPictureOf plan.now (Some judged.dump) (string_bytes picture)) }
{
    let view = DumpView {
        dump: &judged.dump,
        fault: judged.fault,
        told: judged.told.as_str(),
    };
    draw(alloc, plan, Some(&view))
}

// A dump with what its audit finds, and what is said of a fault. Err if out of memory.
fn judged(alloc: Global, plan: &Plan, dump: Dump<'static>) -> Result<JudgedDump, OutOfMemory>
    ensures same { IfOk result (λ judged. judged.dump ≡ dump.entry) }
    ensures judges { IfOk result (λ judged. Judges (faults plan.now judged.dump) (verdict_of judged.fault)) }
{
    match audit(alloc, plan, &dump)? {
        Verdict::Yes => Ok(JudgedDump {
            dump,
            fault: None,
            told: String::new(alloc),
        }),
        Verdict::No(fault) => {
            let explanation = explain(alloc, plan, &dump, fault)?;
            let told = format!(in alloc; "{explanation}")?;
            Ok(JudgedDump {
                dump,
                fault: Some(fault),
                told,
            })
        }
    }
}
