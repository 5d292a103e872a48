//! A worker's own deque of regions, and the ways by which other workers steal from it.
ghost use Rattle.std.specs.Prelude.{◌≡◌};
ghost use Rattle.crossbeam_deque.specs.Handles.{view, worker_flavor, worker_port, stealer_deque, stealer_flavor, IsPassOf};

use crate::distributing::{Hand, Owner, Puts, Steals, Takes, Thief, Ways};
use crossbeam_deque::{Pass, Steal};
use heap_layout::OutOfMemory;
use std::alloc::Global;
use std::sync::Wait;

/// A worker's own deque.
#[derive(Drop)]
pub struct Own {
    owner: Owner,
    ghost flavor: { worker_flavor owner ≡ 0 },
    ghost port: { worker_port owner ≡ 0 },
}

/// A way to steal from the deque of worker `index`.
#[derive(Drop)]
pub struct Way {
    index: usize,
    thief: Thief,
    pass: Pass<u64, Hand>,
    ghost of: { IsPassOf (stealer_deque thief) pass },
    ghost flavor: { stealer_flavor thief ≡ 0 },
    ghost way: { (view pass).way ≡ 1 },
}

impl Own {
    ghost use Rattle.std.specs.Prelude.{◌+◌, [], ◌∷◌, ◌++◌, OnOk, IfOk, IfSome, IfNone};
    ghost use Rattle.comp_sweep.specs.Distributed.{hand, AllTaken};
    ghost use Rattle.comp_sweep.specs.Queues.{SameOwn, own_deque, own_view, way_deque, way_view};

    /// Makes a deque with no region, and with room for `room` regions.
    pub(crate) fn new(alloc: Global, room: usize) -> Result<Own, OutOfMemory>
        ensures { IfOk result (λ own. own_view own ≡ hand 0 0 0 [] []) }
    {
        let owner = Owner::fifo_as(alloc, room)?;
        Ok(Own { owner })
    }

    /// Puts a region after the others.
    pub(crate) fn put(&mut self, region: u64) -> Result<(), OutOfMemory>
        ensures deque { own_deque self.new ≡ own_deque self.old }
        ensures put { OnOk result (own_view self.new ≡ hand (own_view self.old).out (own_view self.old).back (own_view self.old).way ((own_view self.old).put ++ region ∷ []) (own_view self.old).taken) }
    {
        match self.owner.push_as::<Puts>(region) {
            Ok(()) => Ok(()),
            Err(_) => Err(OutOfMemory),
        }
    }

    /// Makes a way to this deque, which has number `index`.
    pub(crate) fn way(&mut self, index: usize) -> Result<Way, OutOfMemory>
        ensures deque { own_deque self.new ≡ own_deque self.old }
        ensures out { IfOk result (λ _. own_view self.new ≡ hand ((own_view self.old).out + 1) (own_view self.old).back (own_view self.old).way (own_view self.old).put (own_view self.old).taken) }
        ensures way { IfOk result (λ way. (way.index ≡ index) × (way_deque way ≡ own_deque self.old) × (way_view way ≡ hand 0 0 1 [] [])) }
    {
        let thief = self.owner.stealer()?;
        let pass = self.owner.another::<Ways>();
        Ok(Way { index, thief, pass })
    }

    /// Takes the first region. If all ways came back, `None` means that everything that was put was taken.
    pub(crate) fn take(&mut self) -> Option<u64>
        ensures same { SameOwn self.old self.new }
        ensures some { IfSome result (λ q. (own_view self.new).taken ≡ (own_view self.old).taken ++ q ∷ []) }
        ensures none { IfNone result ((own_view self.new ≡ own_view self.old) × AllTaken (own_view self.new)) }
    {
        self.owner.pop_as::<Takes>()
    }

    /// Takes back a way. What was taken on it then counts as taken by the owner.
    pub(crate) fn absorb(&mut self, way: Way)
        requires { way_deque way ≡ own_deque self.old }
        ensures deque { own_deque self.new ≡ own_deque self.old }
        ensures view { own_view self.new ≡ hand (own_view self.old).out ((own_view self.old).back + 1) (own_view self.old).way (own_view self.old).put ((own_view self.old).taken ++ (way_view way).taken) }
    {
        let Way {
            index: _,
            thief: _,
            pass,
        } = way;
        self.owner.absorb::<Ways>(pass);
    }
}

impl Way {
    ghost use Rattle.std.specs.Prelude.{[], ◌∷◌, ◌++◌, IfSome, IfNone};
    ghost use Rattle.comp_sweep.specs.Queues.{way_deque, way_view};

    /// The number of the deque to which the way leads.
    pub(crate) fn index(&self) -> usize
        ensures { result ≡ self.now.index }
    {
        self.index
    }

    /// Steals the first region, or answers `None` if the deque is empty. Retries if it loses a race.
    pub(crate) fn steal(&mut self, rt: &impl Wait) -> Option<u64>
        ensures same { (self.new.index ≡ self.old.index) × (way_deque self.new ≡ way_deque self.old) }
        ensures some { IfSome result (λ q. (way_view self.new).taken ≡ (way_view self.old).taken ++ q ∷ []) }
        ensures none { IfNone result ((way_view self.new).taken ≡ (way_view self.old).taken) }
    {
        for _ in rt.forever() {
            match self.thief.steal_as::<Steals>(&mut self.pass) {
                Steal::Success(region) => return Some(region),
                Steal::Empty => return None,
                Steal::Retry => {}
            }
        }
        unreachable!()
    }
}
