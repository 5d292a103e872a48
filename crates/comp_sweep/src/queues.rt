//! Region queues, from which workers take their regions.
ghost use Rattle.std.specs.Prelude.{◌≡◌};

use crate::deques::{Own, Way};
use heap_layout::OutOfMemory;
use std::alloc::Global;
use std::mem;
use std::sync::Wait;

/// A worker's region queue: its own deque of regions, and a way to the deque of each other worker.
#[derive(Drop)]
pub struct RegionQueue {
    own: Own,
    ways: Vec<Way>,
}

impl RegionQueue {
    ghost use Rattle.std.specs.Prelude.{ℕ, ◌+◌, [], ◌∷◌, ◌++◌, map, OnOk, IfOk, IfSome, IfNone};
    ghost use Rattle.comp_mutator.specs.Lists.{only, times};
    ghost use Rattle.comp_sweep.specs.Queues.{Gives, HasBack, IsNew, IsOut, SameQueue, StillQueue, standing, taken, taken_on, way_deque, way_name, way_view};

    /// Makes a region queue with no region and no way, and with room for `room` regions.
    pub(crate) fn new(alloc: Global, room: usize) -> Result<RegionQueue, OutOfMemory>
        ensures { IfOk result IsNew }
    {
        let own = Own::new(alloc, room)?;
        Ok(RegionQueue {
            own,
            ways: Vec::new(alloc),
        })
    }

    /// Puts a region after the others.
    pub(crate) fn put(&mut self, region: u64) -> Result<(), OutOfMemory>
        ensures still { OnOk result (StillQueue self.old self.new) }
        ensures ways { OnOk result ((standing self.new).ways ≡ (standing self.old).ways) }
        ensures out { OnOk result ((standing self.new).out ≡ (standing self.old).out) }
        ensures put { OnOk result ((standing self.new).put ≡ (standing self.old).put ++ region ∷ []) }
        ensures taken { OnOk result ((x : ℕ) → taken x self.new ≡ taken x self.old) }
    {
        self.own.put(region)
    }

    /// Makes a way to the deque of this region queue, which has number `index`.
    pub(crate) fn way(&mut self, index: usize) -> Result<Way, OutOfMemory>
        ensures { IfOk result (λ way. Gives index self.old self.new way) }
    {
        self.own.way(index)
    }

    /// Adds a way to another deque to this region queue.
    pub(crate) fn hold(&mut self, way: Way) -> Result<(), OutOfMemory>
        ensures still { OnOk result (StillQueue self.old self.new) }
        ensures put { OnOk result ((standing self.new).put ≡ (standing self.old).put) }
        ensures out { OnOk result ((standing self.new).out ≡ (standing self.old).out) }
        ensures ways { OnOk result ((standing self.new).ways ≡ (standing self.old).ways ++ way_name way ∷ []) }
        ensures taken { OnOk result ((x : ℕ) → taken x self.new ≡ taken x self.old + times x (way_view way).taken) }
    {
        self.ways.reserve(1)?;
        self.ways.push_reserved(way);
        Ok(())
    }

    /// Takes all ways out of this region queue.
    pub(crate) fn free(&mut self, alloc: Global) -> Vec<Way>
        ensures still { StillQueue self.old self.new }
        ensures put { (standing self.new).put ≡ (standing self.old).put }
        ensures out { (standing self.new).out ≡ (standing self.old).out }
        ensures none { (standing self.new).ways ≡ [] }
        ensures ways { map way_name result.items ≡ (standing self.old).ways }
        ensures taken { (x : ℕ) → taken x self.new + taken_on x result.items ≡ taken x self.old }
    {
        mem::replace(&mut self.ways, Vec::new(alloc))
    }

    /// Takes back a way to the deque of this region queue.
    pub(crate) fn absorb(&mut self, way: Way)
        requires { way_deque way ≡ (standing self.old).deque }
        ensures { HasBack self.old self.new way }
    {
        self.own.absorb(way);
    }

    // Steals a region: looks at each of the other deques in turn.
    fn steal(&mut self, rt: &impl Wait) -> Option<u64>
        ensures same { SameQueue self.old self.new }
        ensures own { self.new.own ≡ self.old.own }
        ensures some { IfSome result (λ q. (x : ℕ) → taken_on x self.new.ways.items ≡ taken_on x self.old.ways.items + only x q) }
        ensures none { IfNone result ((x : ℕ) → taken_on x self.new.ways.items ≡ taken_on x self.old.ways.items) }
    {
        for k in 0..self.ways.len() {
            let way = &mut self.ways[k];
            if let Some(region) = way.steal(rt) {
                return Some(region);
            }
        }
        None
    }

    /// Takes the next region: from the own deque or, if that is empty, from the first of the other deques that has one.
    /// `None` means that each deque was found empty. Retries a steal that loses a race.
    pub(crate) fn next_region(&mut self, rt: &impl Wait) -> Option<u64>
        ensures same { SameQueue self.old self.new }
        ensures some { IfSome result (λ q. (x : ℕ) → taken x self.new ≡ taken x self.old + only x q) }
        ensures none { IfNone result ((x : ℕ) → taken x self.new ≡ taken x self.old) }
        ensures out { IfNone result (IsOut self.new) }
    {
        match self.own.take() {
            Some(region) => Some(region),
            None => self.steal(rt),
        }
    }
}
