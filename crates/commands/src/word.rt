//! The command `word`.
ghost use Rattle.std.specs.Prelude.{◌≡◌};
ghost use Rattle.command_io.specs.Images.{SomeHeapAt};
ghost use Rattle.commands.specs.TaskAnswers.{IsAnswered, IsComing};
ghost use Rattle.commands.specs.Inputs.{RefusesHeapAt};
ghost use Rattle.commands.specs.HeapTasks.{IsWordOf};

use crate::answers::Answer;
use command_io::{CommandRefusal, Files, heap_at};
use heap_layout::MarkedHeap;
use page_plan::Plan;
use std::alloc::Global;
use std::thread::Threads;

/// The slid word at an index, of the heap whose image is at a path, of edition three or four only if `large`. After the
/// last live word it is 0; an index after the last page is refused (`NoSuchWord`).
pub fn word_at<F: Files>(
    alloc: Global,
    rt: &(impl Threads + Sync),
    files: &mut F,
    image: &str,
    index: u64,
    large: bool,
) -> Result<Answer, CommandRefusal>
    ensures { IsAnswered (F.disk files.old) files.old files.new (λ outcome. SomeHeapAt (F.disk files.old) large image.now (λ heap. IsWordOf index heap outcome)) (RefusesHeapAt (F.disk files.old) large image.now) result }
{
    let heap = heap_at(alloc, files, image, large)?;
    word_of(alloc, rt, heap, index)
}

// The slid word at an index. Only its page is built.
fn word_of(
    alloc: Global,
    rt: &(impl Threads + Sync),
    heap: MarkedHeap,
    index: u64,
) -> Result<Answer, CommandRefusal>
    ensures { IsComing (IsWordOf index heap) result }
{
    let plan = Plan::new(alloc, rt, heap)?;
    let p = index / 64;
    if p >= plan.pages() {
        return Err(CommandRefusal::NoSuchWord(index));
    }
    let page = plan.build_page(alloc, p)?;
    Ok(Answer::Word(page.get((index % 64) as u8)))
}
