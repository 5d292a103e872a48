//! A crew at rest: mutators are taken out of it, and handed back.
ghost use Rattle.std.specs.Prelude.{◌≡◌, ◌↔◌, ◌≤◌, [], true, vec_capacity, IfErr, IfOk, OnErr, OnOk};
ghost use Rattle.page_cells.specs.CellViews.{setup_of};

use crate::crew::Crew;
use crate::member::Member;
use comp_access::Hand;
use heap_layout::OutOfMemory;
use std::sync::Arc;

/// A crew by one share of what its mutators have in common, and the hands of those that no thread has.
#[derive(Drop)]
pub struct Bench {
    pub(crate) crew: Arc<Crew>,
    pub(crate) hands: Vec<Hand>,
    ghost room: { (setup_of crew.value.cells).mutators ≤ vec_capacity hands },
}

impl Bench {
    ghost use Rattle.comp_crew.specs.Benches.{hands_on, IsBench, IsGiven, IsStranger, IsTaken, IsToldApart};
    ghost use Rattle.comp_crew.specs.Members.{IsMember};

    /// Whether no mutator is left.
    pub fn is_empty(&self) -> bool
        ensures { result ≡ true ↔ hands_on self.now ≡ [] }
    {
        self.hands.is_empty()
    }

    /// Takes out the mutator that was handed back last; after a flip, the one with the greatest number. None if there
    /// is no mutator left. Err if out of memory. Then the crew is as it was.
    pub fn take(&mut self) -> Result<Option<Member>, OutOfMemory>
        requires { IsBench self.old }
        ensures bench { IsBench self.new }
        ensures taken { IfOk result (IsTaken self.old self.new) }
        ensures refused { OnErr result (self.new ≡ self.old) }
    {
        if self.hands.is_empty() {
            return Ok(None);
        }
        let crew = Arc::try_clone(&self.crew)?;
        let hand = self.hands.pop().unwrap();
        Ok(Some(Member { crew, hand }))
    }

    /// Hands a mutator back. Takes no memory. The mutator of a crew of another name is refused, and so is one that
    /// comes to a crew none of whose mutators is out; it is handed back then, and the crew is as it was.
    ///
    /// Requires that the names tell crews apart.
    pub fn give(&mut self, m: Member) -> Result<(), Member>
        requires bench { IsBench self.old }
        requires of { IsMember m }
        requires apart { IsToldApart m self.old }
        ensures bench { IsBench self.new }
        ensures given { OnOk result (IsGiven self.old m self.new) }
        ensures refused { IfErr result (λ left. (left ≡ m) × (self.new ≡ self.old) × IsStranger self.old m) }
    {
        if m.crew_name() != self.crew.name || self.hands.len() >= usize::from(self.crew.mutators) {
            return Err(m);
        }
        let Member { crew: _, hand } = m;
        self.hands.push_reserved(hand);
        Ok(())
    }
}
