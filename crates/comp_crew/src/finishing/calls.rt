ghost use Rattle.std.specs.Prelude.{◌≡◌, ◌*◌, ◌≤◌, [], List, All, length, map, vec_capacity, IfOk, IfErr};
ghost use Rattle.page_cells.specs.Rooms.{IsRoomFor};
ghost use Rattle.comp_cycles.specs.Finishes.{allocated_by, IsFinished, IsOfFlip};
ghost use Rattle.comp_access.specs.Hands.{pass_of, IsHandOf};
ghost use Rattle.comp_access.specs.declared.hand.Hand.{Hand as AHand};
ghost use Rattle.comp_crew.specs.Benches.{IsBench};
ghost use Rattle.comp_crew.specs.Finishing.{IsEndBy, IsEnded, IsOfItsFlip, IsUnfinishedFor};
ghost use Rattle.comp_crew.specs.Members.{setup_in};
ghost use Rattle.comp_crew.specs.HandOrders.{HasAll, IsInOrder};

use crate::bench::Bench;
use crate::crew::Crew;
use crate::fault::FinishFault;
use crate::finishing::{Ended, Unfinished};
use comp_access::Hand;
use comp_cycles::Finished;
use heap_layout::{OutOfMemory, in_order, least_missing};
use page_cells::{Pass, Room};
use std::alloc::Global;
use std::sync::Arc;

// Room for everything that finishing makes.
#[derive(Drop)]
struct Rooms {
    row: Vec<Hand>,
    passes: Vec<Pass>,
    closing: Room,
}

// Reserves room for all hands of a crew.
fn reserve(alloc: Global, crew: &Crew) -> Result<Rooms, OutOfMemory>
    ensures row { IfOk result (λ room. (room.row.items ≡ []) × ((setup_in crew.now).mutators ≤ vec_capacity room.row)) }
    ensures passes { IfOk result (λ room. (room.passes.items ≡ []) × ((setup_in crew.now).mutators ≤ vec_capacity room.passes)) }
    ensures closing { IfOk result (λ room. IsRoomFor (setup_in crew.now).mutators room.closing) }
{
    let closing = crew.cells.closing_room(alloc)?;
    let n = usize::from(crew.mutators);
    let row = Vec::with_capacity(alloc, n)?;
    let passes = Vec::with_capacity(alloc, n)?;
    Ok(Rooms {
        row,
        passes,
        closing,
    })
}

// Takes hands apart, in order: their passes, and how many words they allocated together.
fn parted(row: Vec<Hand>, mut passes: Vec<Pass>) -> (Vec<Pass>, u64)
    requires passes { (passes.items ≡ []) × (length row.items ≤ vec_capacity passes) }
    requires few { length row.items ≤ 255 }
    ensures passes { result.0.items ≡ map pass_of row.items }
    ensures words { result.1 ≡ allocated_by (map pass_of row.items) }
    ensures few { result.1 ≤ 255 * 67108864 }
{
    let mut all: u64 = 0;
    for hand in row {
        all += hand.made_words();
        passes.push_reserved(hand.into_pass());
    }
    (passes, all)
}

// Ends all hands of a crew. Takes no memory.
fn close_all(crew: Crew, hands: Vec<Hand>, room: Rooms) -> Ended
    requires each { All (λ (hand : AHand). IsHandOf crew.cells hand) hands.items }
    requires all { HasAll (setup_in crew).mutators hands.items }
    requires row { (room.row.items ≡ []) × ((setup_in crew).mutators ≤ vec_capacity room.row) }
    requires passes { (room.passes.items ≡ []) × ((setup_in crew).mutators ≤ vec_capacity room.passes) }
    requires closing { IsRoomFor (setup_in crew).mutators room.closing }
    ensures finished { (row : List AHand) × IsInOrder (setup_in crew).mutators hands.items row × IsFinished (setup_in crew) (map pass_of row) result.finished }
    ensures plan { result.plan.value ≡ (setup_in crew).heap }
    ensures end { IsEnded result }
    ensures flipped { IsOfFlip (setup_in crew).mutators (setup_in crew).fresh result.finished }
{
    let Rooms {
        row,
        passes,
        closing,
    } = room;
    let Crew {
        cells,
        plan,
        roots,
        mutators,
        name: _,
    } = crew;
    let row = in_order(hands, mutators, row);
    let (passes, made) = parted(row, passes);
    let edition = cells.edition();
    let live = cells.plan().live_words() + made;
    let closed = comp_access::close_row(cells, passes, closing);
    Ended {
        plan,
        finished: Finished {
            edition,
            pages: closed.pages,
            roots,
            live,
            builds: closed.builds,
        },
    }
}

/// Ends a crew all of whose mutators were handed back, in any order, and answers the finished heap.
///
/// A missing mutator is refused first (`MutatorMissing`), before anything else is done. Then all memory is reserved; if
/// there is too little, or the crew's cells have another owner (`StillShared`), the crew is whole. After each refusal
/// it comes back with all hands that it had. The cells have another owner only while a mutator of the crew is out, and
/// then it is missing.
pub fn finish(alloc: Global, bench: Bench) -> Result<Ended, Unfinished>
    requires { IsBench bench }
    ensures finished { IfOk result (IsEndBy bench) }
    ensures end { IfOk result IsEnded }
    ensures flipped { IfOk result (IsOfItsFlip bench) }
    ensures fault { IfErr result (λ left. IsUnfinishedFor bench left.fault) }
    ensures back { IfErr result (λ left. left.bench ≡ bench) }
{
    if let Some(number) = least_missing(&bench.hands, bench.crew.mutators) {
        return Err(Unfinished {
            fault: FinishFault::MutatorMissing(number),
            bench,
        });
    }
    let Ok(room) = reserve(alloc, &bench.crew) else {
        return Err(Unfinished {
            fault: FinishFault::OutOfMemory,
            bench,
        });
    };
    let Bench { crew, hands } = bench;
    match Arc::try_unwrap(crew) {
        Ok(crew) => Ok(close_all(crew, hands, room)),
        Err(crew) => Err(Unfinished {
            fault: FinishFault::StillShared,
            bench: Bench { crew, hands },
        }),
    }
}
